//! The names of plain texts.

ghost use Rattle.std.specs.Prelude.{codes};

use crate::text::{Marker, Text};

/// The name of [`AccessTokenHash`].
#[derive(Drop)]
pub struct AccessTokenHashMarker;

impl Marker for AccessTokenHashMarker {
    ghost name = { codes "AccessTokenHash" };

    fn name() -> &'static str {
        "AccessTokenHash"
    }
}

/// Hash of an access token, the claim `at_hash` (OpenID Connect Core 1.0 section 3.1.3.6).
pub type AccessTokenHash = Text<AccessTokenHashMarker>;

/// The name of [`AddressCountry`].
#[derive(Drop)]
pub struct AddressCountryMarker;

impl Marker for AddressCountryMarker {
    ghost name = { codes "AddressCountry" };

    fn name() -> &'static str {
        "AddressCountry"
    }
}

/// Country of an address (OpenID Connect Core 1.0 section 5.1.1).
pub type AddressCountry = Text<AddressCountryMarker>;

/// The name of [`AddressLocality`].
#[derive(Drop)]
pub struct AddressLocalityMarker;

impl Marker for AddressLocalityMarker {
    ghost name = { codes "AddressLocality" };

    fn name() -> &'static str {
        "AddressLocality"
    }
}

/// City or locality of an address (OpenID Connect Core 1.0 section 5.1.1).
pub type AddressLocality = Text<AddressLocalityMarker>;

/// The name of [`AddressPostalCode`].
#[derive(Drop)]
pub struct AddressPostalCodeMarker;

impl Marker for AddressPostalCodeMarker {
    ghost name = { codes "AddressPostalCode" };

    fn name() -> &'static str {
        "AddressPostalCode"
    }
}

/// Postal code of an address (OpenID Connect Core 1.0 section 5.1.1).
pub type AddressPostalCode = Text<AddressPostalCodeMarker>;

/// The name of [`AddressRegion`].
#[derive(Drop)]
pub struct AddressRegionMarker;

impl Marker for AddressRegionMarker {
    ghost name = { codes "AddressRegion" };

    fn name() -> &'static str {
        "AddressRegion"
    }
}

/// State, province or region of an address (OpenID Connect Core 1.0 section 5.1.1).
pub type AddressRegion = Text<AddressRegionMarker>;

/// The name of [`Audience`].
#[derive(Drop)]
pub struct AudienceMarker;

impl Marker for AudienceMarker {
    ghost name = { codes "Audience" };

    fn name() -> &'static str {
        "Audience"
    }
}

/// Someone that a token is meant for, the claim `aud` (OpenID Connect Core 1.0 section 2).
pub type Audience = Text<AudienceMarker>;

/// The name of [`AuthenticationContextClass`].
#[derive(Drop)]
pub struct AuthenticationContextClassMarker;

impl Marker for AuthenticationContextClassMarker {
    ghost name = { codes "AuthenticationContextClass" };

    fn name() -> &'static str {
        "AuthenticationContextClass"
    }
}

/// Class of ways to authenticate, the claim `acr` (OpenID Connect Core 1.0 section 2).
pub type AuthenticationContextClass = Text<AuthenticationContextClassMarker>;

/// The name of [`AuthenticationMethodReference`].
#[derive(Drop)]
pub struct AuthenticationMethodReferenceMarker;

impl Marker for AuthenticationMethodReferenceMarker {
    ghost name = { codes "AuthenticationMethodReference" };

    fn name() -> &'static str {
        "AuthenticationMethodReference"
    }
}

/// Way of authenticating, an entry of the claim `amr` (OpenID Connect Core 1.0 section 2).
pub type AuthenticationMethodReference = Text<AuthenticationMethodReferenceMarker>;

/// The name of [`AuthorizationCodeHash`].
#[derive(Drop)]
pub struct AuthorizationCodeHashMarker;

impl Marker for AuthorizationCodeHashMarker {
    ghost name = { codes "AuthorizationCodeHash" };

    fn name() -> &'static str {
        "AuthorizationCodeHash"
    }
}

/// Hash of an authorization code, the claim `c_hash` (OpenID Connect Core 1.0 section 3.3.2.11).
pub type AuthorizationCodeHash = Text<AuthorizationCodeHashMarker>;

/// The name of [`ClientContactEmail`].
#[derive(Drop)]
pub struct ClientContactEmailMarker;

impl Marker for ClientContactEmailMarker {
    ghost name = { codes "ClientContactEmail" };

    fn name() -> &'static str {
        "ClientContactEmail"
    }
}

/// E-mail address of someone who is responsible for a client.
pub type ClientContactEmail = Text<ClientContactEmailMarker>;

/// The name of [`ClientId`].
#[derive(Drop)]
pub struct ClientIdMarker;

impl Marker for ClientIdMarker {
    ghost name = { codes "ClientId" };

    fn name() -> &'static str {
        "ClientId"
    }
}

/// Name by which a provider knows a client (RFC 6749 section 2.2).
pub type ClientId = Text<ClientIdMarker>;

/// The name of [`ClientName`].
#[derive(Drop)]
pub struct ClientNameMarker;

impl Marker for ClientNameMarker {
    ghost name = { codes "ClientName" };

    fn name() -> &'static str {
        "ClientName"
    }
}

/// Name of a client that is shown to the end user.
pub type ClientName = Text<ClientNameMarker>;

/// The name of [`CoreClaimName`].
#[derive(Drop)]
pub struct CoreClaimNameMarker;

impl Marker for CoreClaimNameMarker {
    ghost name = { codes "CoreClaimName" };

    fn name() -> &'static str {
        "CoreClaimName"
    }
}

/// Name of a claim (OpenID Connect Core 1.0 section 5.1).
pub type CoreClaimName = Text<CoreClaimNameMarker>;

/// The name of [`CoreGenderClaim`].
#[derive(Drop)]
pub struct CoreGenderClaimMarker;

impl Marker for CoreGenderClaimMarker {
    ghost name = { codes "CoreGenderClaim" };

    fn name() -> &'static str {
        "CoreGenderClaim"
    }
}

/// Gender of the end user, as `female`, `male` or any other text (OpenID Connect Core 1.0
/// section 5.1).
pub type CoreGenderClaim = Text<CoreGenderClaimMarker>;

/// The name of [`EndUserBirthday`].
#[derive(Drop)]
pub struct EndUserBirthdayMarker;

impl Marker for EndUserBirthdayMarker {
    ghost name = { codes "EndUserBirthday" };

    fn name() -> &'static str {
        "EndUserBirthday"
    }
}

/// Birthday, as `YYYY-MM-DD` or `YYYY` (OpenID Connect Core 1.0 section 5.1).
pub type EndUserBirthday = Text<EndUserBirthdayMarker>;

/// The name of [`EndUserEmail`].
#[derive(Drop)]
pub struct EndUserEmailMarker;

impl Marker for EndUserEmailMarker {
    ghost name = { codes "EndUserEmail" };

    fn name() -> &'static str {
        "EndUserEmail"
    }
}

/// E-mail address of the end user (OpenID Connect Core 1.0 section 5.1).
pub type EndUserEmail = Text<EndUserEmailMarker>;

/// The name of [`EndUserFamilyName`].
#[derive(Drop)]
pub struct EndUserFamilyNameMarker;

impl Marker for EndUserFamilyNameMarker {
    ghost name = { codes "EndUserFamilyName" };

    fn name() -> &'static str {
        "EndUserFamilyName"
    }
}

/// Family name of the end user (OpenID Connect Core 1.0 section 5.1).
pub type EndUserFamilyName = Text<EndUserFamilyNameMarker>;

/// The name of [`EndUserGivenName`].
#[derive(Drop)]
pub struct EndUserGivenNameMarker;

impl Marker for EndUserGivenNameMarker {
    ghost name = { codes "EndUserGivenName" };

    fn name() -> &'static str {
        "EndUserGivenName"
    }
}

/// Given name of the end user (OpenID Connect Core 1.0 section 5.1).
pub type EndUserGivenName = Text<EndUserGivenNameMarker>;

/// The name of [`EndUserMiddleName`].
#[derive(Drop)]
pub struct EndUserMiddleNameMarker;

impl Marker for EndUserMiddleNameMarker {
    ghost name = { codes "EndUserMiddleName" };

    fn name() -> &'static str {
        "EndUserMiddleName"
    }
}

/// Middle name of the end user (OpenID Connect Core 1.0 section 5.1).
pub type EndUserMiddleName = Text<EndUserMiddleNameMarker>;

/// The name of [`EndUserName`].
#[derive(Drop)]
pub struct EndUserNameMarker;

impl Marker for EndUserNameMarker {
    ghost name = { codes "EndUserName" };

    fn name() -> &'static str {
        "EndUserName"
    }
}

/// Full name of the end user (OpenID Connect Core 1.0 section 5.1).
pub type EndUserName = Text<EndUserNameMarker>;

/// The name of [`EndUserNickname`].
#[derive(Drop)]
pub struct EndUserNicknameMarker;

impl Marker for EndUserNicknameMarker {
    ghost name = { codes "EndUserNickname" };

    fn name() -> &'static str {
        "EndUserNickname"
    }
}

/// Casual name of the end user (OpenID Connect Core 1.0 section 5.1).
pub type EndUserNickname = Text<EndUserNicknameMarker>;

/// The name of [`EndUserPhoneNumber`].
#[derive(Drop)]
pub struct EndUserPhoneNumberMarker;

impl Marker for EndUserPhoneNumberMarker {
    ghost name = { codes "EndUserPhoneNumber" };

    fn name() -> &'static str {
        "EndUserPhoneNumber"
    }
}

/// Telephone number of the end user (OpenID Connect Core 1.0 section 5.1).
pub type EndUserPhoneNumber = Text<EndUserPhoneNumberMarker>;

/// The name of [`EndUserPictureUrl`].
#[derive(Drop)]
pub struct EndUserPictureUrlMarker;

impl Marker for EndUserPictureUrlMarker {
    ghost name = { codes "EndUserPictureUrl" };

    fn name() -> &'static str {
        "EndUserPictureUrl"
    }
}

/// URL of a picture of the end user, a plain text that is never parsed (OpenID Connect Core 1.0
/// section 5.1).
pub type EndUserPictureUrl = Text<EndUserPictureUrlMarker>;

/// The name of [`EndUserProfileUrl`].
#[derive(Drop)]
pub struct EndUserProfileUrlMarker;

impl Marker for EndUserProfileUrlMarker {
    ghost name = { codes "EndUserProfileUrl" };

    fn name() -> &'static str {
        "EndUserProfileUrl"
    }
}

/// URL of a page about the end user, a plain text that is never parsed (OpenID Connect Core 1.0
/// section 5.1).
pub type EndUserProfileUrl = Text<EndUserProfileUrlMarker>;

/// The name of [`EndUserTimezone`].
#[derive(Drop)]
pub struct EndUserTimezoneMarker;

impl Marker for EndUserTimezoneMarker {
    ghost name = { codes "EndUserTimezone" };

    fn name() -> &'static str {
        "EndUserTimezone"
    }
}

/// Time zone of the end user, by its name in the time zone database (OpenID Connect Core 1.0
/// section 5.1).
pub type EndUserTimezone = Text<EndUserTimezoneMarker>;

/// The name of [`EndUserUsername`].
#[derive(Drop)]
pub struct EndUserUsernameMarker;

impl Marker for EndUserUsernameMarker {
    ghost name = { codes "EndUserUsername" };

    fn name() -> &'static str {
        "EndUserUsername"
    }
}

/// Short name that the end user prefers (OpenID Connect Core 1.0 section 5.1).
pub type EndUserUsername = Text<EndUserUsernameMarker>;

/// The name of [`EndUserWebsiteUrl`].
#[derive(Drop)]
pub struct EndUserWebsiteUrlMarker;

impl Marker for EndUserWebsiteUrlMarker {
    ghost name = { codes "EndUserWebsiteUrl" };

    fn name() -> &'static str {
        "EndUserWebsiteUrl"
    }
}

/// URL of a site of the end user, a plain text that is never parsed (OpenID Connect Core 1.0
/// section 5.1).
pub type EndUserWebsiteUrl = Text<EndUserWebsiteUrlMarker>;

/// The name of [`FormattedAddress`].
#[derive(Drop)]
pub struct FormattedAddressMarker;

impl Marker for FormattedAddressMarker {
    ghost name = { codes "FormattedAddress" };

    fn name() -> &'static str {
        "FormattedAddress"
    }
}

/// Address as it is written on a letter, of one or more lines (OpenID Connect Core 1.0
/// section 5.1.1).
pub type FormattedAddress = Text<FormattedAddressMarker>;

/// The name of [`JsonWebKeyId`].
#[derive(Drop)]
pub struct JsonWebKeyIdMarker;

impl Marker for JsonWebKeyIdMarker {
    ghost name = { codes "JsonWebKeyId" };

    fn name() -> &'static str {
        "JsonWebKeyId"
    }
}

/// Name of a key in a key set, the member `kid` (RFC 7517 section 4.5).
pub type JsonWebKeyId = Text<JsonWebKeyIdMarker>;

/// The name of [`LanguageTag`].
#[derive(Drop)]
pub struct LanguageTagMarker;

impl Marker for LanguageTagMarker {
    ghost name = { codes "LanguageTag" };

    fn name() -> &'static str {
        "LanguageTag"
    }
}

/// Tag of a language, as `en` or `ja-Kana-JP` (RFC 5646).
pub type LanguageTag = Text<LanguageTagMarker>;

/// The name of [`OAuth2ResponseType`].
#[derive(Drop)]
pub struct OAuth2ResponseTypeMarker;

impl Marker for OAuth2ResponseTypeMarker {
    ghost name = { codes "OAuth2ResponseType" };

    fn name() -> &'static str {
        "OAuth2ResponseType"
    }
}

/// Response type as the authorization endpoint takes it (RFC 6749 section 3.1.1).
pub type OAuth2ResponseType = Text<OAuth2ResponseTypeMarker>;

/// The name of [`PkceCodeChallengeMethod`].
#[derive(Drop)]
pub struct PkceCodeChallengeMethodMarker;

impl Marker for PkceCodeChallengeMethodMarker {
    ghost name = { codes "PkceCodeChallengeMethod" };

    fn name() -> &'static str {
        "PkceCodeChallengeMethod"
    }
}

/// Way in which a challenge is made of a code verifier (RFC 7636 section 4.2).
pub type PkceCodeChallengeMethod = Text<PkceCodeChallengeMethodMarker>;

/// The name of [`ResourceOwnerUsername`].
#[derive(Drop)]
pub struct ResourceOwnerUsernameMarker;

impl Marker for ResourceOwnerUsernameMarker {
    ghost name = { codes "ResourceOwnerUsername" };

    fn name() -> &'static str {
        "ResourceOwnerUsername"
    }
}

/// User name of a resource owner (RFC 6749 section 4.3.2).
pub type ResourceOwnerUsername = Text<ResourceOwnerUsernameMarker>;

/// The name of [`Scope`].
#[derive(Drop)]
pub struct ScopeMarker;

impl Marker for ScopeMarker {
    ghost name = { codes "Scope" };

    fn name() -> &'static str {
        "Scope"
    }
}

/// Range of an access (RFC 6749 section 3.3).
pub type Scope = Text<ScopeMarker>;

/// The name of [`StreetAddress`].
#[derive(Drop)]
pub struct StreetAddressMarker;

impl Marker for StreetAddressMarker {
    ghost name = { codes "StreetAddress" };

    fn name() -> &'static str {
        "StreetAddress"
    }
}

/// Street, house number and the like, of one or more lines (OpenID Connect Core 1.0
/// section 5.1.1).
pub type StreetAddress = Text<StreetAddressMarker>;

/// The name of [`SubjectIdentifier`].
#[derive(Drop)]
pub struct SubjectIdentifierMarker;

impl Marker for SubjectIdentifierMarker {
    ghost name = { codes "SubjectIdentifier" };

    fn name() -> &'static str {
        "SubjectIdentifier"
    }
}

/// Name of an end user that an issuer never gives to another, the claim `sub` (OpenID Connect Core
/// 1.0 section 2).
pub type SubjectIdentifier = Text<SubjectIdentifierMarker>;
