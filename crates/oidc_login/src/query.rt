// What a query that comes back is asked, whatever the flow: its size, and the word of its error.

ghost use Rattle.std.specs.Prelude.{◌≡◌, IfOk};
ghost use Rattle.oidc_oauth2.specs.TokenAnswers.{is_over_long};
ghost use Rattle.oidc_login.specs.BeforeRequest as request;

use oidc_types::{CoreAuthErrorResponseType, Vocabulary};
use std::alloc::{AllocError, Global};

// The most bytes that a query may have.
const MAX_QUERY: usize = 1_048_576;

// Whether a query is too long.
pub(crate) fn is_too_long(query: &[u8]) -> bool
    ensures { result ≡ is_over_long query.now }
{
    query.len() > MAX_QUERY
}

// The word of an `error`.
#[tactic(auto, unfolding(crate::specs::BeforeRequest::error_word))]
pub(crate) fn error_code(alloc: Global, text: &str) -> Result<CoreAuthErrorResponseType, AllocError>
    ensures { IfOk result (λ code. code ≡ request.error_word text.now) }
{
    Ok(CoreAuthErrorResponseType::from_str(String::from_str(alloc, text)?))
}
