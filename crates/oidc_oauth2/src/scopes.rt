// Scopes in one text, cut at each of its spaces (RFC 6749 section 3.3).

ghost use Rattle.std.specs.Prelude.{◌≡◌, IfOk, map, option_map, string_bytes};
ghost use Rattle.oidc_oauth2.specs.TokenResponse as spec;

use oidc_members::FieldName;
use oidc_types::Scope;
use std::alloc::{AllocError, Global};

fn pieces_of(alloc: Global, text: &str) -> Result<Vec<&str>, AllocError>
    ensures { IfOk result (λ pieces. map (λ piece. piece.now) pieces.items ≡ spec.scopes_in text.now) }
{
    text.split(' ').collect(alloc)
}

// The scopes that a text holds.
fn scopes_in(alloc: Global, text: &str) -> Result<Vec<Scope>, AllocError>
    ensures { IfOk result (λ scopes. scopes.items ≡ spec.scopes_in text.now) }
{
    let pieces = pieces_of(alloc, text)?;
    let mut scopes = Vec::new(alloc);
    for piece in &pieces {
        scopes.push(Scope::new(String::from_str(alloc, piece)?))?;
    }
    Ok(scopes)
}

// The scopes that an optional text holds.
pub(crate) fn optional_scopes(
    alloc: Global,
    text: Option<FieldName>,
) -> Result<Option<Vec<Scope>>, AllocError>
    ensures { IfOk result
        (λ found. option_map (λ scopes. scopes.items) found ≡ option_map spec.scopes_in text) }
{
    match text {
        None => Ok(None),
        Some(text) => Ok(Some(scopes_in(alloc, text.as_str())?)),
    }
}

/// The scopes in one text, with single spaces between them (RFC 6749 section 3.3). `AllocError` is want of memory,
/// the one error.
pub fn joined_scopes(alloc: Global, scopes: &[Scope]) -> Result<String, AllocError>
    ensures text { IfOk result (λ text. string_bytes text ≡ spec.joined scopes.now) }
{
    match scopes {
        [] => Ok(String::new(alloc)),
        [first, later @ ..] => {
            let mut text = String::from_str(alloc, first.as_str())?;
            for scope in later {
                text.push_str(" ")?;
                text.push_str(scope.as_str())?;
            }
            Ok(text)
        }
    }
}

// The text of scopes, where there are any.
pub(crate) fn optional_joined(
    alloc: Global,
    scopes: &Option<Vec<Scope>>,
) -> Result<Option<String>, AllocError>
    ensures { IfOk result
        (λ found. option_map string_bytes found ≡ option_map (λ s. spec.joined s.items) scopes.now) }
{
    match scopes {
        None => Ok(None),
        Some(scopes) => Ok(Some(joined_scopes(alloc, scopes)?)),
    }
}
