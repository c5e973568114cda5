//! The values on the lines of a script.
ghost use Rattle.std.specs.Prelude.{◌≡◌, ◌==◌, ◌<◌, [], ◌∷◌, length, slice_index, IfSome, option_map, option_and_then, Some};
ghost use Rattle.std.specs.List.{list_all, slice_split};
ghost use Rattle.std.specs.Option.{option_map_or};
ghost use Rattle.std.specs.String.{string_bytes};
ghost use Rattle.http_header.specs.Token.{is_visible_or_blank};
ghost use Rattle.oidc_types.specs.{find_word, signing_text, signing_algorithms};
ghost use Rattle.oidc_readers.specs.Moments.{moment_at};
ghost use Rattle.oidc_cli.specs.Values as spec;
ghost use Rattle.oidc_cli.specs.Values.{pair_text as text_of_pair, pair_value, url_of_text, algorithms_of as algorithms_in, demand_of as demand_in, reading_of as reading_in, moment_of_text as moment_in, status_code_of as status_code_in, content_type_of as content_type_in};
ghost use Rattle.oidc_cli.specs.Readers.{Reads};

use crate::events::LineError;
use http::StatusCode;
use http_header::{HeaderValue, HeaderValueError};
use jiff::Timestamp;
use oidc_login::UserInfoDemand;
use oidc_members::Reading;
use oidc_pairs::BorrowedPairs;
use oidc_types::{ClosedVocabulary, CoreJwsSigningAlgorithm, Marker, UrlText, UrlTextError};
use oidc_user_info::UserInfoResponseType;
use std::alloc::Global;

/// Whether a line has no pair with this name.
pub fn lacks(line: &BorrowedPairs<'_>, name: &str) -> bool
    ensures { result ≡ spec.lacks line.now name.now }
{
    line.first(name).is_none()
}

/// The value of the one pair with this name.
pub fn only_text<'a>(line: &'a BorrowedPairs<'_>, name: &str) -> Result<&'a str, LineError>
    ensures { Reads (λ text. text.now) result (text_of_pair line.now name.now) }
{
    line.only(name).ok_or(LineError::NoEvent)
}

/// A copy of the value of the one pair with this name.
pub fn pair_text(alloc: Global, line: &BorrowedPairs<'_>, name: &str) -> Result<String, LineError>
    ensures { Reads string_bytes result (text_of_pair line.now name.now) }
{
    let text = only_text(line, name)?;
    Ok(String::from_str(alloc, text)?)
}

/// A copy of the value of the one pair with this name, where there is such a pair.
pub fn optional_text(
    alloc: Global,
    line: &BorrowedPairs<'_>,
    name: &str,
) -> Result<Option<String>, LineError>
    ensures { Reads (λ text. option_map string_bytes text) result
        (spec.optional_value Some line.now name.now) }
{
    if lacks(line, name) {
        return Ok(None);
    }
    Ok(Some(pair_text(alloc, line, name)?))
}

/// The URL text of the one pair with this name.
pub fn pair_url<M: Marker>(
    alloc: Global,
    line: &BorrowedPairs<'_>,
    name: &str,
) -> Result<UrlText<M>, LineError>
    ensures { Reads (λ url. url) result (pair_value url_of_text line.now name.now) }
{
    url_of(alloc, only_text(line, name)?)
}

/// The URL text of the one pair with this name, where there is such a pair.
pub fn optional_url<M: Marker>(
    alloc: Global,
    line: &BorrowedPairs<'_>,
    name: &str,
) -> Result<Option<UrlText<M>>, LineError>
    ensures { Reads (λ url. url) result (spec.optional_value url_of_text line.now name.now) }
{
    if lacks(line, name) {
        return Ok(None);
    }
    Ok(Some(pair_url(alloc, line, name)?))
}

/// A URL text, where the URL Standard takes it.
pub fn url_of<M: Marker>(alloc: Global, text: &str) -> Result<UrlText<M>, LineError>
    ensures { Reads (λ url. url) result (url_of_text text.now) }
{
    match UrlText::new(alloc, String::from_str(alloc, text)?) {
        Ok(url) => Ok(url),
        Err(UrlTextError::Refused(_)) => Err(LineError::NoEvent),
        Err(UrlTextError::Memory) => Err(LineError::Memory),
    }
}

/// The algorithms of the one pair with this name.
pub fn pair_algorithms(
    alloc: Global,
    line: &BorrowedPairs<'_>,
    name: &str,
) -> Result<Vec<CoreJwsSigningAlgorithm>, LineError>
    ensures { Reads (λ found. found.items) result (pair_value algorithms_in line.now name.now) }
{
    algorithms_of(alloc, only_text(line, name)?)
}

// The algorithms of a text.
fn algorithms_of(alloc: Global, text: &str) -> Result<Vec<CoreJwsSigningAlgorithm>, LineError>
    ensures { Reads (λ found. found.items) result (algorithms_in text.now) }
{
    let mut algorithms = Vec::new(alloc);
    if text.is_empty() {
        return Ok(algorithms);
    }
    let mut rest = Some(text);
    while let Some(words) = rest {
        let (word, later) = cut(words);
        let Some(algorithm) = algorithm_of(word) else {
            return Err(LineError::NoEvent);
        };
        algorithms.push(algorithm)?;
        rest = later;
    }
    Ok(algorithms)
}

// The first word of a text, and what stands behind its space, where there is one.
fn cut(text: &str) -> (&str, Option<&str>)
    ensures words { slice_split (λ c. c == 32) text.now
        ≡ result.0.now ∷ option_map_or (λ later. slice_split (λ c. c == 32) later.now) result.1 [] }
    ensures shorter { IfSome result.1 (λ later. length later.now < length text.now) }
{
    match text.split_once(' ') {
        Some((word, later)) => (word, Some(later)),
        None => (text, None),
    }
}

fn algorithm_of(text: &str) -> Option<CoreJwsSigningAlgorithm>
    ensures { result ≡ find_word signing_text signing_algorithms text.now }
{
    CoreJwsSigningAlgorithm::from_str(text)
}

/// The reading of a line that names one, and else the strict one.
pub fn reading_on(line: &BorrowedPairs<'_>) -> Result<Reading, LineError>
    ensures { Reads (λ reading. reading) result (spec.reading_on line.now) }
{
    if lacks(line, "reading") {
        return Ok(Reading::STRICT);
    }
    reading_of(only_text(line, "reading")?).ok_or(LineError::NoEvent)
}

fn reading_of(text: &str) -> Option<Reading>
    ensures { result ≡ reading_in text.now }
{
    match text {
        "lenient" => Some(Reading {
            string_booleans: true,
            rfc3339_moments: true,
        }),
        _ => None,
    }
}

/// The demand of the one pair with this name, where there is such a pair.
pub fn optional_demand(
    line: &BorrowedPairs<'_>,
    name: &str,
) -> Result<Option<UserInfoDemand>, LineError>
    ensures { Reads (λ demand. demand) result (spec.optional_value demand_in line.now name.now) }
{
    if lacks(line, name) {
        return Ok(None);
    }
    Ok(Some(pair_demand(line, name)?))
}

// The demand of the one pair with this name.
fn pair_demand(line: &BorrowedPairs<'_>, name: &str) -> Result<UserInfoDemand, LineError>
    ensures { Reads (λ demand. demand) result (pair_value demand_in line.now name.now) }
{
    demand_of(only_text(line, name)?).ok_or(LineError::NoEvent)
}

fn demand_of(text: &str) -> Option<UserInfoDemand>
    ensures { result ≡ demand_in text.now }
{
    match text {
        "json" => Some(demanding(false, UserInfoResponseType::Json)),
        "jwt" => Some(demanding(true, UserInfoResponseType::Jwt)),
        _ => None,
    }
}

// What is demanded in an answer of this kind.
fn demanding(signed: bool, response_type: UserInfoResponseType) -> UserInfoDemand
    ensures { result ≡ spec.demanding signed response_type }
{
    UserInfoDemand {
        signed,
        issuer_match: true,
        audience_match: true,
        response_type,
    }
}

/// The moment of the one pair with this name.
pub fn pair_moment(line: &BorrowedPairs<'_>, name: &str) -> Result<Timestamp, LineError>
    ensures { Reads (λ t. t.nanosecond) result (pair_value moment_in line.now name.now) }
{
    moment_of(only_text(line, name)?).ok_or(LineError::NoEvent)
}

fn moment_of(text: &str) -> Option<Timestamp>
    ensures { option_map (λ t. t.nanosecond) result ≡ moment_in text.now }
{
    Timestamp::from_second(seconds_of(text)?).ok()
}

// The whole number of a text, where it may be the seconds of a moment.
fn seconds_of(text: &str) -> Option<i64>
    ensures { option_and_then moment_at result ≡ moment_in text.now }
{
    if begins_with_plus(text) {
        return None;
    }
    text.parse::<i64>().ok()
}

/// Rust reads a number behind a `+`, which no line and no word has.
pub fn begins_with_plus(text: &str) -> bool
    ensures { result ≡ (slice_index text.now 0 == 43) }
{
    text.as_bytes().first() == Some(&b'+')
}

/// The status code of the one pair with this name.
pub fn pair_status(line: &BorrowedPairs<'_>, name: &str) -> Result<StatusCode, LineError>
    ensures { Reads (λ code. code) result (pair_value status_code_in line.now name.now) }
{
    status_code_of(only_text(line, name)?).ok_or(LineError::NoEvent)
}

#[tactic(auto, unfolding(crate::specs::Values::status_code_of))]
fn status_code_of(text: &str) -> Option<StatusCode>
    ensures { result ≡ status_code_in text.now }
{
    if text.len() != 3 {
        return None;
    }
    if begins_with_plus(text) {
        return None;
    }
    match text.parse::<u16>() {
        Ok(number) => StatusCode::from_u16(number).ok(),
        Err(_) => None,
    }
}

// The content type of the one pair with this name.
fn pair_content_type(
    alloc: Global,
    line: &BorrowedPairs<'_>,
    name: &str,
) -> Result<HeaderValue, LineError>
    ensures { Reads (λ v. v.bytes) result (pair_value content_type_in line.now name.now) }
{
    content_type_of(alloc, only_text(line, name)?)
}

/// The content type of the one pair with this name, where there is such a pair.
pub fn optional_content_type(
    alloc: Global,
    line: &BorrowedPairs<'_>,
    name: &str,
) -> Result<Option<HeaderValue>, LineError>
    ensures { Reads (λ v. option_map (λ v. v.bytes) v) result
        (spec.optional_value content_type_in line.now name.now) }
{
    if lacks(line, name) {
        return Ok(None);
    }
    Ok(Some(pair_content_type(alloc, line, name)?))
}

#[tactic(auto, unfolding(crate::specs::Values::content_type_of))]
fn content_type_of(alloc: Global, text: &str) -> Result<HeaderValue, LineError>
    ensures { Reads (λ v. v.bytes) result (content_type_in text.now) }
{
    if !is_content_type(text.as_bytes()) {
        return Err(LineError::NoEvent);
    }
    match HeaderValue::from_str(alloc, text) {
        Ok(value) => Ok(value),
        Err(HeaderValueError::OutOfMemory) => Err(LineError::Memory),
        Err(HeaderValueError::Invalid) => unreachable!(),
    }
}

// Whether bytes are tabs, spaces and visible ASCII alone.
fn is_content_type(bytes: &[u8]) -> bool
    ensures { result ≡ list_all is_visible_or_blank bytes.now }
{
    bytes.iter().all(|b| is_blank_or_visible_one(*b))
}

fn is_blank_or_visible_one(byte: u8) -> bool
    ensures { result ≡ is_visible_or_blank byte }
{
    byte == b'\t' || (b' ' <= byte && byte < 0x7F)
}
