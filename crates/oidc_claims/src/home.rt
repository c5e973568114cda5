//! Where a member of claims belongs (OpenID Connect Core 1.0 sections 2, 5.1 and 5.1.2).

ghost use Rattle.std.specs.Prelude.{◌≡◌, map};
ghost use Rattle.std.specs.List.{list_any};
ghost use Rattle.std.specs.Str.{bytes_eq};
ghost use Rattle.oidc_claims.specs.Home.{home_of};

use crate::claim::Claim;

/// What a member of claims is, by its name.
#[derive(Clone, Copy, Debug, Drop, PartialEq, Eq)]
pub enum Home {
    /// A field of the token that carries the claims, as `iss`.
    TokenField,
    /// A standard claim (OpenID Connect Core 1.0 section 5.1).
    Standard,
    /// A claim beside these (OpenID Connect Core 1.0 section 5.1.2).
    Additional,
}

/// The fields of an ID token beside its claims (OpenID Connect Core 1.0 sections 2, 3.1.3.6 and
/// 3.3.2.11), in the order in which they are written.
pub const ID_TOKEN_FIELDS: [&str; 11] = [
    "iss",
    "aud",
    "exp",
    "iat",
    "auth_time",
    "nonce",
    "acr",
    "amr",
    "azp",
    "at_hash",
    "c_hash",
];

/// The fields of a user info answer beside its claims (OpenID Connect Core 1.0 section 5.3.2), in the
/// order in which they are written.
pub const USER_INFO_FIELDS: [&str; 2] = ["iss", "aud"];

fn is_among(name: &str, fields: &[&str]) -> bool
    ensures { result ≡ list_any (λ field. bytes_eq field.now name.now) fields.now }
{
    fields.iter().any(|field| *field == name)
}

/// Where the member of that name belongs: a token field where its whole name is one, else a standard
/// claim where its name up to the first `#` is one, else an additional claim. It takes no memory.
pub fn belongs(name: &str, token_fields: &[&str]) -> Home
    ensures home { result ≡ home_of name.now (map (λ field. field.now) token_fields.now) }
{
    if is_among(name, token_fields) {
        Home::TokenField
    } else if Claim::of_name(name).is_some() {
        Home::Standard
    } else {
        Home::Additional
    }
}
