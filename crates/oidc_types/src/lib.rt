//! The types that every other crate of the relying party is written over.
//!
//! - [`Text`], [`Secret`] and [`UrlText`] hold the texts of the protocol, one marker a kind:
//!   [`ClientId`], [`Nonce`], [`IssuerUrl`] and so on are aliases. A text is kept as it is given.
//!   `Debug` prints of a `Secret` its kind alone. A `UrlText` keeps its text beside the URL that the
//!   URL Standard reads of it.
//! - [`Body`] holds the bytes of a request or a response. `Debug` doesn't print them.
//! - [`Vocabulary`] is an open vocabulary, as [`CoreAuthErrorResponseType`]: it takes any text, and
//!   gives each text back as it was (the law `keeps_text`). [`ClosedVocabulary`] takes its own texts
//!   alone, as [`CoreJwsSigningAlgorithm`] and [`CoreJsonWebKeyType`] do (RFC 7518, RFC 8037). Code
//!   that is generic over algorithms rests on the meanings of [`JwsSigningAlgorithm`] and
//!   [`JweContentEncryptionAlgorithm`]. A vocabulary's words and texts stand in `specs/` under its
//!   module's name, and once in its module's table.
//! - [`Nonce`] and [`CsrfToken`], whose kinds are a [`RandomMarker`], are drawn from a generator that
//!   is handed in: the base64url text of its next bytes.
//! - [`LocalizedClaim`] is a claim in several languages (OpenID Connect Core 1.0 section 5.2), a map
//!   from optional tag to value.
//! - [`EndpointState`] says in a client's type which endpoints it has.
//!
//! What holds of them as a whole is said by [`same_text_same_url`], [`closed_words_are_exact`] and
//! [`known_words_read_back`], which do nothing. The one cause of an error besides those that are
//! named is want of memory, an `AllocError` or a variant `Memory`; a value whose call is refused stays
//! as it was.
//!
//! # Equality, order and hash
//!
//! - Equality, order and hash: each `Text` and `UrlText`, by its text as it was given, so two
//!   spellings of one URL differ; [`CoreGrantType`], by its variants in their order and then by the
//!   extension's text.
//! - Equality and hash: the ten other open vocabularies, by variant, so `Extension("native")` isn't
//!   `Native`; the four closed vocabularies.
//! - Equality: [`LocalizedClaim`] (the same tags, with equal values), [`ResponseTypes`] (the same
//!   types in the same order), [`SigningError`], [`Presence`].
//! - None of them: [`Body`], each `Secret`, [`UrlTextError`], [`LocalizedIter`], the three endpoint
//!   states, and the markers.
//!
//! # Beside the surface of the Rust crate
//!
//! The traits [`Vocabulary`], [`ClosedVocabulary`], [`Marker`] and [`RandomMarker`] with the markers
//! (`ClientIdMarker` and so on); [`Body`], a `Vec<u8>` there; [`ExtensionText`], a `String` there;
//! `as_str`, `into_string` and `into_url` in place of `Deref`, `AsRef` and `Into`; `clone_in` in
//! place of `Clone`; `Display` of `Text` and of each open vocabulary; order and hash of each `Text`;
//! [`UrlTextError`], and the variant `Memory` of [`SigningError`]; `ResponseTypes::as_slice` and
//! [`LocalizedIter`]; [`Presence`], and the constant `REQUIRED` of [`EndpointState`]; `Copy` of the
//! closed vocabularies and the endpoint states; the three functions that say what holds of all.
#![tactic(auto)]

mod algorithms;
mod body;
mod core_algorithms;
mod core_authorization;
mod core_registration;
mod endpoint;
mod issuer;
mod laws;
mod localized;
mod open_vocabularies;
mod random;
mod response_types;
mod secret;
mod secrets;
mod signing_error;
mod text;
mod texts;
mod url_text;
mod urls;
mod vocabulary;

pub use algorithms::JweContentEncryptionAlgorithm;
pub use algorithms::JweKeyManagementAlgorithm;
pub use algorithms::JwsSigningAlgorithm;
pub use body::Body;
pub use core_algorithms::CoreJsonWebKeyType;
pub use core_algorithms::CoreJweContentEncryptionAlgorithm;
pub use core_algorithms::CoreJweKeyManagementAlgorithm;
pub use core_algorithms::CoreJwsSigningAlgorithm;
pub use core_authorization::CoreAuthDisplay;
pub use core_authorization::CoreAuthErrorResponseType;
pub use core_authorization::CoreAuthPrompt;
pub use core_authorization::CoreResponseMode;
pub use core_authorization::CoreResponseType;
pub use core_registration::CoreApplicationType;
pub use core_registration::CoreClaimType;
pub use core_registration::CoreClientAuthMethod;
pub use core_registration::CoreGrantType;
pub use core_registration::CoreRegisterErrorResponseType;
pub use core_registration::CoreSubjectIdentifierType;
pub use endpoint::EndpointMaybeSet;
pub use endpoint::EndpointNotSet;
pub use endpoint::EndpointSet;
pub use endpoint::EndpointState;
pub use endpoint::Presence;
pub use laws::closed_words_are_exact;
pub use laws::known_words_read_back;
pub use laws::same_text_same_url;
pub use localized::LocalizedClaim;
pub use localized::LocalizedIter;
pub use open_vocabularies::ApplicationType;
pub use open_vocabularies::AuthDisplay;
pub use open_vocabularies::AuthPrompt;
pub use open_vocabularies::ClaimName;
pub use open_vocabularies::ClaimType;
pub use open_vocabularies::ClientAuthMethod;
pub use open_vocabularies::ErrorResponseType;
pub use open_vocabularies::ExtensionText;
pub use open_vocabularies::ExtensionTextMarker;
pub use open_vocabularies::GrantType;
pub use open_vocabularies::ResponseMode;
pub use open_vocabularies::ResponseType;
pub use open_vocabularies::SubjectIdentifierType;
pub use random::RandomMarker;
pub use response_types::ResponseTypes;
pub use secret::Secret;
pub use secrets::AccessToken;
pub use secrets::AccessTokenMarker;
pub use secrets::AuthorizationCode;
pub use secrets::AuthorizationCodeMarker;
pub use secrets::ClientSecret;
pub use secrets::ClientSecretMarker;
pub use secrets::CsrfToken;
pub use secrets::CsrfTokenMarker;
pub use secrets::DeviceCode;
pub use secrets::DeviceCodeMarker;
pub use secrets::LoginHint;
pub use secrets::LoginHintMarker;
pub use secrets::LogoutHint;
pub use secrets::LogoutHintMarker;
pub use secrets::Nonce;
pub use secrets::NonceMarker;
pub use secrets::PkceCodeVerifier;
pub use secrets::PkceCodeVerifierMarker;
pub use secrets::RefreshToken;
pub use secrets::RefreshTokenMarker;
pub use secrets::RegistrationAccessToken;
pub use secrets::RegistrationAccessTokenMarker;
pub use secrets::ResourceOwnerPassword;
pub use secrets::ResourceOwnerPasswordMarker;
pub use secrets::UserCode;
pub use secrets::UserCodeMarker;
pub use secrets::VerificationUriComplete;
pub use secrets::VerificationUriCompleteMarker;
pub use signing_error::SigningError;
pub use text::Marker;
pub use text::Text;
pub use texts::AccessTokenHash;
pub use texts::AccessTokenHashMarker;
pub use texts::AddressCountry;
pub use texts::AddressCountryMarker;
pub use texts::AddressLocality;
pub use texts::AddressLocalityMarker;
pub use texts::AddressPostalCode;
pub use texts::AddressPostalCodeMarker;
pub use texts::AddressRegion;
pub use texts::AddressRegionMarker;
pub use texts::Audience;
pub use texts::AudienceMarker;
pub use texts::AuthenticationContextClass;
pub use texts::AuthenticationContextClassMarker;
pub use texts::AuthenticationMethodReference;
pub use texts::AuthenticationMethodReferenceMarker;
pub use texts::AuthorizationCodeHash;
pub use texts::AuthorizationCodeHashMarker;
pub use texts::ClientContactEmail;
pub use texts::ClientContactEmailMarker;
pub use texts::ClientId;
pub use texts::ClientIdMarker;
pub use texts::ClientName;
pub use texts::ClientNameMarker;
pub use texts::CoreClaimName;
pub use texts::CoreClaimNameMarker;
pub use texts::CoreGenderClaim;
pub use texts::CoreGenderClaimMarker;
pub use texts::EndUserBirthday;
pub use texts::EndUserBirthdayMarker;
pub use texts::EndUserEmail;
pub use texts::EndUserEmailMarker;
pub use texts::EndUserFamilyName;
pub use texts::EndUserFamilyNameMarker;
pub use texts::EndUserGivenName;
pub use texts::EndUserGivenNameMarker;
pub use texts::EndUserMiddleName;
pub use texts::EndUserMiddleNameMarker;
pub use texts::EndUserName;
pub use texts::EndUserNameMarker;
pub use texts::EndUserNickname;
pub use texts::EndUserNicknameMarker;
pub use texts::EndUserPhoneNumber;
pub use texts::EndUserPhoneNumberMarker;
pub use texts::EndUserPictureUrl;
pub use texts::EndUserPictureUrlMarker;
pub use texts::EndUserProfileUrl;
pub use texts::EndUserProfileUrlMarker;
pub use texts::EndUserTimezone;
pub use texts::EndUserTimezoneMarker;
pub use texts::EndUserUsername;
pub use texts::EndUserUsernameMarker;
pub use texts::EndUserWebsiteUrl;
pub use texts::EndUserWebsiteUrlMarker;
pub use texts::FormattedAddress;
pub use texts::FormattedAddressMarker;
pub use texts::JsonWebKeyId;
pub use texts::JsonWebKeyIdMarker;
pub use texts::LanguageTag;
pub use texts::LanguageTagMarker;
pub use texts::OAuth2ResponseType;
pub use texts::OAuth2ResponseTypeMarker;
pub use texts::PkceCodeChallengeMethod;
pub use texts::PkceCodeChallengeMethodMarker;
pub use texts::ResourceOwnerUsername;
pub use texts::ResourceOwnerUsernameMarker;
pub use texts::Scope;
pub use texts::ScopeMarker;
pub use texts::StreetAddress;
pub use texts::StreetAddressMarker;
pub use texts::SubjectIdentifier;
pub use texts::SubjectIdentifierMarker;
pub use url_text::UrlText;
pub use url_text::UrlTextError;
pub use urls::AuthUrl;
pub use urls::AuthUrlMarker;
pub use urls::ClientConfigUrl;
pub use urls::ClientConfigUrlMarker;
pub use urls::ClientUrl;
pub use urls::ClientUrlMarker;
pub use urls::DeviceAuthorizationUrl;
pub use urls::DeviceAuthorizationUrlMarker;
pub use urls::EndSessionUrl;
pub use urls::EndSessionUrlMarker;
pub use urls::EndUserVerificationUrl;
pub use urls::EndUserVerificationUrlMarker;
pub use urls::InitiateLoginUrl;
pub use urls::InitiateLoginUrlMarker;
pub use urls::IntrospectionUrl;
pub use urls::IntrospectionUrlMarker;
pub use urls::IssuerUrl;
pub use urls::IssuerUrlMarker;
pub use urls::JsonWebKeySetUrl;
pub use urls::JsonWebKeySetUrlMarker;
pub use urls::LogoUrl;
pub use urls::LogoUrlMarker;
pub use urls::OpPolicyUrl;
pub use urls::OpPolicyUrlMarker;
pub use urls::OpTosUrl;
pub use urls::OpTosUrlMarker;
pub use urls::PolicyUrl;
pub use urls::PolicyUrlMarker;
pub use urls::PostLogoutRedirectUrl;
pub use urls::PostLogoutRedirectUrlMarker;
pub use urls::RedirectUrl;
pub use urls::RedirectUrlMarker;
pub use urls::RegistrationUrl;
pub use urls::RegistrationUrlMarker;
pub use urls::RequestUrl;
pub use urls::RequestUrlMarker;
pub use urls::RevocationUrl;
pub use urls::RevocationUrlMarker;
pub use urls::SectorIdentifierUrl;
pub use urls::SectorIdentifierUrlMarker;
pub use urls::ServiceDocUrl;
pub use urls::ServiceDocUrlMarker;
pub use urls::ToSUrl;
pub use urls::ToSUrlMarker;
pub use urls::TokenUrl;
pub use urls::TokenUrlMarker;
pub use urls::UserInfoUrl;
pub use urls::UserInfoUrlMarker;
pub use vocabulary::ClosedVocabulary;
pub use vocabulary::Vocabulary;
