//! Token responses, and parts of records that are written as pairs.

use crate::answers::{ok_form, refused_reading, text_of};
use crate::case::CaseError;
use oidc_members::{Members, ParseError, Reading};
use oidc_oauth2::{CoreTokenType, ExtraTokenFields, OAuth2TokenResponse, StandardTokenResponse};
use oidc_pairs::FormText;
use oidc_types::Scope;
use std::alloc::{AllocError, Global};

/// A token response with these extra fields.
pub type Tokens<EF> = StandardTokenResponse<EF, CoreTokenType>;

/// A token response with these extra fields, which are read under a reading, written again.
pub fn token_response_line<EF: ExtraTokenFields>(
    alloc: Global,
    text: &str,
    reading: Reading,
) -> Result<String, CaseError> {
    match tokens_in::<EF>(alloc, text, reading) {
        Ok(tokens) => tokens_line(alloc, &tokens),
        Err(error) => refused_reading(alloc, &error),
    }
}

fn tokens_in<EF: ExtraTokenFields>(
    alloc: Global,
    text: &str,
    reading: Reading,
) -> Result<Tokens<EF>, ParseError> {
    let members = Members::split(alloc, text.as_bytes())?.with_reading(reading);
    Tokens::<EF>::read(alloc, &members)
}

/// The text that a token response is written as.
pub fn written<EF: ExtraTokenFields>(
    alloc: Global,
    tokens: &Tokens<EF>,
) -> Result<String, CaseError> {
    text_of(tokens.write(alloc)?)
}

fn tokens_line<EF: ExtraTokenFields>(
    alloc: Global,
    tokens: &Tokens<EF>,
) -> Result<String, CaseError> {
    let written = written(alloc, tokens)?;
    let mut form = FormText::new(alloc);
    form.push("written", written.as_str())?;
    if let Some(span) = tokens.expires_in() {
        push_seconds(alloc, &mut form, "expires_in", span.as_secs())?;
    }
    push_scopes(alloc, &mut form, tokens.scopes())?;
    ok_form(alloc, form)
}

/// Adds a pair whose value is a number of seconds.
pub fn push_seconds(
    alloc: Global,
    form: &mut FormText,
    name: &str,
    seconds: u64,
) -> Result<(), AllocError> {
    let text = format!(in alloc; "{seconds}")?;
    form.push(name, text.as_str())
}

/// Adds the scopes, joined by line feeds, where they are there.
pub fn push_scopes(
    alloc: Global,
    form: &mut FormText,
    scopes: Option<&[Scope]>,
) -> Result<(), AllocError> {
    let Some(scopes) = scopes else {
        return Ok(());
    };
    let mut texts = Vec::new(alloc);
    for scope in scopes {
        texts.push(scope.as_str())?;
    }
    form.push("scopes", texts.join(alloc, "\n")?.as_str())
}
