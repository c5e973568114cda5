//! What holds of the vocabularies as a whole, and the texts of the constants. The functions here say
//! laws in their contracts, and do nothing.

ghost use Rattle.std.specs.Prelude.{◌≡◌, codes};
ghost use Rattle.oidc_types.specs.Vocabulary.{ReadsBack};
ghost use Rattle.oidc_oauth2.specs.Words as spec;
ghost use Rattle.oidc_oauth2.specs.declared.error_types.CoreErrorResponseType.TheVariants as error;
ghost use Rattle.oidc_oauth2.specs.declared.token_type.CoreTokenType.TheVariants as token_type;

use crate::http_utils::{BEARER, MIME_TYPE_JSON, MIME_TYPE_JWKS, MIME_TYPE_JWT};

/// The text of each known word is that word's.
pub fn known_words_read_back()
    ensures errors { ReadsBack spec.error_text spec.errors error.Extension }
    ensures device_errors { spec.DeviceErrorsReadBack }
    ensures revocation_errors { spec.RevocationErrorsReadBack }
    ensures token_types { ReadsBack spec.token_type_text spec.token_types token_type.Extension }
{}

/// The media types (RFC 8259 section 11, RFC 7517 section 8.5.1, RFC 7519 section 10.3.1) and the scheme of
/// bearer tokens (RFC 6750 section 2.1).
pub fn constants_have_these_texts()
    ensures json { MIME_TYPE_JSON.now ≡ codes "application/json" }
    ensures jwks { MIME_TYPE_JWKS.now ≡ codes "application/jwk-set+json" }
    ensures jwt { MIME_TYPE_JWT.now ≡ codes "application/jwt" }
    ensures bearer { BEARER.now ≡ codes "Bearer" }
{}
