//! Values of a line that more than one program reads.

use crate::case::{Case, CaseError};
use jiff::Timestamp;
use oidc_members::Reading;
use oidc_pairs::Pairs;
use oidc_types::{ClosedVocabulary, CoreJwsSigningAlgorithm, Marker, UrlText, UrlTextError};
use std::alloc::Global;
use std::str::FromStr;

/// The number that decimal digits are.
pub fn number<N: FromStr>(text: &str) -> Result<N, CaseError>
where
    N::Err: Drop,
{
    match text.parse::<N>() {
        Ok(number) => Ok(number),
        Err(_) => Err(CaseError::NoCase),
    }
}

/// The signing algorithm of a text.
pub fn algorithm(text: &str) -> Result<CoreJwsSigningAlgorithm, CaseError> {
    CoreJwsSigningAlgorithm::from_str(text).ok_or(CaseError::NoCase)
}

/// The signing algorithms of a list, with a space between each two, or of an empty text.
pub fn algorithms(alloc: Global, text: &str) -> Result<Vec<CoreJwsSigningAlgorithm>, CaseError> {
    let mut algorithms = Vec::new(alloc);
    if text.is_empty() {
        return Ok(algorithms);
    }
    for word in text.split(' ') {
        algorithms.push(algorithm(word)?)?;
    }
    Ok(algorithms)
}

/// The moment of whole seconds. Rust reads a number behind a `+`, which no line has.
pub fn moment(text: &str) -> Result<Timestamp, CaseError> {
    if text.as_bytes().first() == Some(&b'+') {
        return Err(CaseError::NoCase);
    }
    match Timestamp::from_second(number::<i64>(text)?) {
        Ok(moment) => Ok(moment),
        Err(_) => Err(CaseError::NoCase),
    }
}

/// The URL of a text that has to be one.
pub fn url_of<M: Marker>(alloc: Global, text: &str) -> Result<UrlText<M>, CaseError> {
    match UrlText::new(alloc, String::from_str(alloc, text)?) {
        Ok(url) => Ok(url),
        Err(UrlTextError::Refused(_)) => Err(CaseError::NoCase),
        Err(UrlTextError::Memory) => Err(CaseError::Memory),
    }
}

/// The reading that a line names: of `booleans`, of `moments`, or `lenient`, which is both. Without a name it
/// is strict.
pub fn reading_in(case: &Case) -> Result<Reading, CaseError> {
    let Some(word) = case.optional("reading") else {
        return Ok(Reading::STRICT);
    };
    let (string_booleans, rfc3339_moments) = match word {
        "booleans" => (true, false),
        "moments" => (false, true),
        "lenient" => (true, true),
        _ => return Err(CaseError::NoCase),
    };
    Ok(Reading {
        string_booleans,
        rfc3339_moments,
    })
}

/// The one pair of a form text.
pub fn extra_in(alloc: Global, text: &str) -> Result<(String, String), CaseError> {
    let pairs = Pairs::parse(alloc, text.as_bytes())?;
    match pairs.as_slice() {
        [pair] => {
            let name = String::from_str(alloc, pair.name())?;
            let value = String::from_str(alloc, pair.value())?;
            Ok((name, value))
        }
        _ => Err(CaseError::NoCase),
    }
}
