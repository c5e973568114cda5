//! Who is signed in on a device.

ghost use Rattle.std.specs.Prelude.{◌≡◌, Bool, Some, is_some, true};
ghost use Rattle.std.specs.Option.{option_copied};
ghost use Rattle.oidc_device.specs.Token.{SeenIdToken};
ghost use Rattle.oidc_device.specs.SignedIn.{signed_by};

use oidc_claims::{AdditionalClaims, GenderClaim};
use oidc_oauth2::{
    CoreTokenType, EmptyExtraTokenFields, OAuth2TokenResponse, StandardTokenResponse,
};
use oidc_tokens::{IdToken, IdTokenClaims, IdTokenFields};
use oidc_types::{
    AccessToken, CoreJweContentEncryptionAlgorithm, CoreJwsSigningAlgorithm, RefreshToken,
};
use std::marker::Model;

/// The ID token of a device login, with these additional claims and genders.
pub type DeviceIdToken<AC, GC> = IdToken<
    AC,
    GC,
    CoreJweContentEncryptionAlgorithm,
    CoreJwsSigningAlgorithm,
>;

// The response of a token endpoint.
pub(crate) type TokenResponse<AC, GC> = StandardTokenResponse<
    IdTokenFields<
        AC,
        EmptyExtraTokenFields,
        GC,
        CoreJweContentEncryptionAlgorithm,
        CoreJwsSigningAlgorithm,
    >,
    CoreTokenType,
>;

/// A user who is signed in on a device: the accepted ID token, the access token and any refresh token that came beside it.
/// `AC` is the type of additional claims, `GC` that of genders. It binds no nonce: none was sent.
///
/// It has no `Debug`, since it holds tokens and what is known of a person.
#[derive(Drop)]
pub struct DeviceSignedIn<AC: AdditionalClaims, GC: GenderClaim> {
    tokens: TokenResponse<AC, GC>,
    ghost has_id_token: { is_some tokens.extra_fields.id_token ≡ Bool.true },
}

impl<AC: AdditionalClaims, GC: GenderClaim> Model for DeviceSignedIn<AC, GC> {
    ghost use Rattle.std.specs.Coded.{codes};
    ghost use Rattle.oidc_id_token_claims.specs.Codes.{id_token_claims_code};
    ghost use Rattle.oidc_device.specs.SignedIn.{SeenDeviceSignedIn, signed_by};
    ghost use Rattle.oidc_device.specs.Present.{present};

    ghost Value = { SeenDeviceSignedIn AC GC };

    ghost coded = { Prim.hlevel (codes, id_token_claims_code AC.code GC.code) };

    ghost view = { λ s. signed_by (present s.tokens.extra_fields.id_token s.has_id_token) s.tokens };
}

impl<AC: AdditionalClaims, GC: GenderClaim> DeviceSignedIn<AC, GC> {
    // A user with these tokens.
    pub(crate) fn new(tokens: TokenResponse<AC, GC>) -> Self
        requires has_id_token { is_some tokens.extra_fields.id_token ≡ true }
        ensures { (token : SeenIdToken AC GC) → tokens.extra_fields.id_token ≡ Some token
            → result ≡ signed_by token tokens }
    {
        DeviceSignedIn { tokens }
    }

    /// The ID token.
    pub fn id_token(&self) -> &DeviceIdToken<AC, GC>
        ensures token { result.now ≡ self.now.id_token }
    {
        match self.tokens.extra_fields().id_token() {
            Some(id_token) => id_token,
            None => unreachable!(),
        }
    }

    /// The claims of the ID token.
    pub fn claims(&self) -> &IdTokenClaims<AC, GC>
        ensures claims { result.now ≡ self.now.id_token.payload }
    {
        self.id_token().token().unverified_payload()
    }

    /// The access token.
    pub fn access_token(&self) -> &AccessToken
        ensures { result.now ≡ self.now.access_token }
    {
        self.tokens.access_token()
    }

    /// The refresh token, where one came.
    pub fn refresh_token(&self) -> Option<&RefreshToken>
        ensures { option_copied result ≡ self.now.refresh_token }
    {
        self.tokens.refresh_token()
    }
}
