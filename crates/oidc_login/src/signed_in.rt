//! What a callback gives that signs a user in.

ghost use Rattle.std.specs.Prelude.{◌≡◌, Bool, IfOk, Some, is_some, true};
ghost use Rattle.std.specs.Option.{option_copied};
ghost use Rattle.oidc_login.specs.Token.{SeenIdToken};
ghost use Rattle.oidc_login.specs.SignedIn.{signed_by, with_user_info};

use oidc_claims::{AdditionalClaims, GenderClaim};
use oidc_oauth2::{
    CoreTokenType, EmptyExtraTokenFields, OAuth2TokenResponse, StandardTokenResponse,
};
use oidc_tokens::{IdToken, IdTokenClaims, IdTokenFields};
use oidc_types::{
    AccessToken, CoreJweContentEncryptionAlgorithm, CoreJwsSigningAlgorithm, RefreshToken,
};
use oidc_user_info::UserInfoClaims;
use std::alloc::{AllocError, Global};
use std::marker::Model;

/// The ID token of a login, with these additional claims and genders.
pub type LoginIdToken<AC, GC> = IdToken<
    AC,
    GC,
    CoreJweContentEncryptionAlgorithm,
    CoreJwsSigningAlgorithm,
>;

// The response of a token endpoint.
pub(crate) type TokenResponse<AC, GC> = StandardTokenResponse<
    IdTokenFields<
        AC,
        EmptyExtraTokenFields,
        GC,
        CoreJweContentEncryptionAlgorithm,
        CoreJwsSigningAlgorithm,
    >,
    CoreTokenType,
>;

/// A user who is signed in: the accepted ID token, the access token and any refresh token that came beside it, and
/// user info, where the login demands it. `AC` is the type of additional claims, `GC` that of genders.
///
/// It has no `Debug`, since it holds tokens and what is known of a person. User info stands behind a pointer, so
/// that a user is moved as few words.
#[derive(Drop)]
pub struct SignedIn<AC: AdditionalClaims, GC: GenderClaim> {
    tokens: TokenResponse<AC, GC>,
    user_info: Option<Box<UserInfoClaims<AC, GC>>>,
    ghost has_id_token: { is_some tokens.extra_fields.id_token ≡ Bool.true },
}

impl<AC: AdditionalClaims, GC: GenderClaim> Model for SignedIn<AC, GC> {
    ghost use Rattle.std.specs.Prelude.{option_map};
    ghost use Rattle.std.specs.Coded.{codes};
    ghost use Rattle.oidc_id_token_claims.specs.Codes.{id_token_claims_code};
    ghost use Rattle.oidc_user_info.specs.Codes.{user_info_claims_code};
    ghost use Rattle.oidc_login.specs.SignedIn.{SeenSignedIn, signed_by, present};

    ghost Value = { SeenSignedIn AC GC };

    ghost coded = { Prim.hlevel (
      codes,
      id_token_claims_code AC.code GC.code,
      user_info_claims_code AC.code GC.code,
    ) };

    ghost view = { λ s. record
        (signed_by (present s.tokens.extra_fields.id_token s.has_id_token) s.tokens)
        { user_info = option_map (λ found. found.value) s.user_info } };
}

impl<AC: AdditionalClaims, GC: GenderClaim> SignedIn<AC, GC> {
    // A user with these tokens.
    pub(crate) fn new(tokens: TokenResponse<AC, GC>) -> Self
        requires has_id_token { is_some tokens.extra_fields.id_token ≡ true }
        ensures { (token : SeenIdToken AC GC) → tokens.extra_fields.id_token ≡ Some token
            → result ≡ signed_by token tokens }
    {
        SignedIn {
            tokens,
            user_info: None,
        }
    }

    // With this user info.
    pub(crate) fn with_user_info(
        self,
        alloc: Global,
        found: UserInfoClaims<AC, GC>,
    ) -> Result<Self, AllocError>
        ensures { IfOk result (λ signed. signed ≡ with_user_info self found) }
    {
        let SignedIn { tokens, user_info } = self;
        drop(user_info);
        match Box::new(alloc, found) {
            Ok(found) => Ok(SignedIn {
                tokens,
                user_info: Some(found),
            }),
            Err(_) => {
                drop(tokens);
                Err(AllocError)
            }
        }
    }

    /// The ID token.
    pub fn id_token(&self) -> &LoginIdToken<AC, GC>
        ensures token { result.now ≡ self.now.id_token }
    {
        match self.tokens.extra_fields().id_token() {
            Some(id_token) => id_token,
            None => unreachable!(),
        }
    }

    /// The claims of the ID token.
    pub fn claims(&self) -> &IdTokenClaims<AC, GC>
        ensures claims { result.now ≡ self.now.id_token.payload }
    {
        self.id_token().token().unverified_payload()
    }

    /// The access token.
    pub fn access_token(&self) -> &AccessToken
        ensures { result.now ≡ self.now.access_token }
    {
        self.tokens.access_token()
    }

    /// The refresh token, where one came.
    pub fn refresh_token(&self) -> Option<&RefreshToken>
        ensures { option_copied result ≡ self.now.refresh_token }
    {
        self.tokens.refresh_token()
    }

    /// User info, where the login demands it.
    pub fn user_info(&self) -> Option<&UserInfoClaims<AC, GC>>
        ensures { option_copied result ≡ self.now.user_info }
    {
        match &self.user_info {
            None => None,
            Some(found) => Some(&**found),
        }
    }
}
