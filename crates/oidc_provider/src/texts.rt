// What a program holds as a text is UTF-8.

ghost use Rattle.std.specs.Prelude.{IsUtf8};

use crate::issuing::SignedToken;
use oidc_claims::{AdditionalClaims, GenderClaim};
use oidc_types::{Marker, Secret, Text, UrlText};

// A text.
pub(crate) fn text_is_utf8<M: Marker>(text: &Text<M>)
    ensures { IsUtf8 text.now }
{
    text.as_str().as_bytes();
}

// A secret.
pub(crate) fn secret_is_utf8<M: Marker>(secret: &Secret<M>)
    ensures { IsUtf8 secret.now }
{
    secret.secret().as_bytes();
}

// The text of a URL.
pub(crate) fn url_is_utf8<M: Marker>(url: &UrlText<M>)
    ensures { IsUtf8 url.now.text }
{
    url.as_str().as_bytes();
}

// The text of an ID token.
pub(crate) fn token_is_utf8<AC: AdditionalClaims, GC: GenderClaim>(id_token: &SignedToken<AC, GC>)
    ensures { IsUtf8 id_token.now.text }
{
    id_token.token().as_str().as_bytes();
}
