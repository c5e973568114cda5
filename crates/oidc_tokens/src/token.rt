//! Token responses that may hold an ID token (OpenID Connect Core 1.0 section 3.1.3.3).

ghost use Rattle.std.specs.Prelude.{◌≡◌, Option};
ghost use Rattle.std.specs.Option.{option_copied};
ghost use Rattle.oidc_jwt.specs.Tokens.{SeenToken};
ghost use Rattle.oidc_id_token_claims.specs.IdTokenClaims.{SeenIdTokenClaims};

use crate::id_token::{IdToken, IdTokenFields};
use oidc_claims::{AdditionalClaims, GenderClaim};
use oidc_oauth2::{ExtraTokenFields, OAuth2TokenResponse, StandardTokenResponse, TokenType};
use oidc_types::{JweContentEncryptionAlgorithm, JwsSigningAlgorithm};

/// A token response that may hold an ID token.
pub trait TokenResponse<
    AC: AdditionalClaims,
    GC: GenderClaim,
    JE: JweContentEncryptionAlgorithm,
    JS: JwsSigningAlgorithm,
>: OAuth2TokenResponse {
    /// The ID token, where there is one.
    ghost id_token: { Self → Option (SeenToken JE JS (SeenIdTokenClaims AC GC)) };

    /// The ID token, where there is one.
    fn id_token(&self) -> Option<&IdToken<AC, GC, JE, JS>>
        ensures token { option_copied result ≡ id_token self.now };
}

impl<
    AC: AdditionalClaims,
    EF: ExtraTokenFields,
    GC: GenderClaim,
    JE: JweContentEncryptionAlgorithm,
    JS: JwsSigningAlgorithm,
    TT: TokenType,
> TokenResponse<AC, GC, JE, JS> for StandardTokenResponse<IdTokenFields<AC, EF, GC, JE, JS>, TT> {
    ghost id_token = { λ response. response.extra_fields.id_token };

    fn id_token(&self) -> Option<&IdToken<AC, GC, JE, JS>> {
        self.extra_fields().id_token()
    }
}
