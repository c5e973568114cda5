// The additional claims of a token: the members that are neither a field nor a standard claim (OpenID Connect
// Core 1.0 section 5.1.2).

ghost use Rattle.std.specs.Prelude.{◌≡◌, IfOk, map};
ghost use Rattle.oidc_members.specs.Answers.{Answers};
ghost use Rattle.oidc_claims.specs.Home.{home_of, is_additional_home};
ghost use Rattle.oidc_id_token_claims.specs.IdTokenClaims.{additional_among, additional_members};

use oidc_claims::{AdditionalClaims, Home, ID_TOKEN_FIELDS, belongs};
use oidc_members::{Member, ParseError};
use std::alloc::{AllocError, Global};

fn is_additional(name: &str, token_fields: &[&str]) -> bool
    ensures { let fields = map (λ field. field.now) token_fields.now in
        result ≡ is_additional_home (home_of name.now fields) }
{
    match belongs(name, token_fields) {
        Home::TokenField | Home::Standard => false,
        Home::Additional => true,
    }
}

/// Copies of the members that are neither one of these fields nor a standard claim, in their order (OpenID
/// Connect Core 1.0 section 5.1.2). `AllocError` is want of memory, the one error.
pub fn additional_copies(
    alloc: Global,
    members: &[Member],
    token_fields: &[&str],
) -> Result<Vec<Member>, AllocError>
    ensures copies { let fields = map (λ field. field.now) token_fields.now in
        IfOk result (λ copies. copies.items ≡ additional_among fields members.now) }
{
    let mut copies = Vec::new(alloc);
    for member in members {
        if is_additional(member.name(), token_fields) {
            copies.push(member.clone_in(alloc)?)?;
        }
    }
    Ok(copies)
}

// The additional claims that these members of an ID token are.
pub(crate) fn read_additional<AC: AdditionalClaims>(
    alloc: Global,
    members: &[Member],
) -> Result<AC, ParseError>
    ensures { Answers (AC.read_of (additional_members members.now)) result }
{
    let copies = additional_copies(alloc, members, &ID_TOKEN_FIELDS)?;
    AC::read(alloc, copies.as_slice())
}
