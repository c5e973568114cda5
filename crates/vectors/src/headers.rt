//! Header fields.

use case_lines::{Case, CaseError, bytes_of, header_of, header_text, ok, ok_pair, refused_word};
use oidc_oauth2::{BearerError, auth_bearer, content_type_has_essence};
use oidc_types::AccessToken;
use std::alloc::Global;

/// `essence`: whether the value of a header has this essence of a media type.
pub(crate) fn essence(alloc: Global, case: &Case) -> Result<String, CaseError> {
    case.check(&["value", "expected"])?;
    let value = header_of(bytes_of(alloc, case.value("value"))?)?;
    if content_type_has_essence(&value, case.value("expected")) {
        ok(alloc)
    } else {
        Ok(String::from_str(alloc, "none")?)
    }
}

/// `bearer`: the header that sends an access token.
pub(crate) fn bearer(alloc: Global, case: &Case) -> Result<String, CaseError> {
    case.check(&["token"])?;
    let token = AccessToken::new(String::from_str(alloc, case.value("token"))?);
    match auth_bearer(alloc, &token) {
        Ok((_, value)) => ok_pair(alloc, "value", header_text(&value)?),
        Err(BearerError::Value) => refused_word(alloc, "value"),
        Err(BearerError::Memory) => Err(CaseError::Memory),
    }
}
