//! Which URLs of a provider are taken.

ghost use Rattle.std.specs.Prelude.{◌≡◌, ◌++◌, codes};
ghost use Rattle.std.specs.Str.{bytes_eq};
ghost use Rattle.std.specs.Option.{option_copied};
ghost use Rattle.url.specs.Parts.{has_credentials};
ghost use Rattle.oidc_discovery.specs.Urls as spec;
ghost use Rattle.oidc_discovery.specs.Documents.{fault_if_there as absent_or_fault};

use oidc_types::{IssuerUrl, Marker, UrlText};
use thiserror::Error;
use url::Url;

/// Why a URL isn't taken.
#[derive(Clone, Copy, Debug, Error, PartialEq, Eq)]
pub enum UrlFault {
    /// The scheme isn't `https`.
    #[error("another scheme than https")]
    Scheme,
    /// It has a user or a password.
    #[error("a user or a password")]
    Credentials,
    /// It has a fragment.
    #[error("a fragment")]
    Fragment,
    /// Its text has a backslash.
    #[error("a backslash")]
    Backslash,
    /// It is an issuer, and has a query.
    #[error("a query")]
    Query,
    /// The text isn't the one by which the URL Standard writes the URL, nor that without the slash at its end.
    #[error("another spelling than the URL Standard's")]
    Spelling,
}

fn has_user_or_password(url: &Url) -> bool
    ensures { result ≡ has_credentials url.now }
{
    !url.username().is_empty() || url.password().is_some()
}

fn has_backslash(text: &str) -> bool
    ensures { result ≡ spec.has_backslash text.now }
{
    text.as_bytes().iter().any(|byte| *byte == b'\\')
}

// Whether a text is the written one without the slash at its end.
fn lacks_slash(text: &str, written: &str) -> bool
    ensures { result ≡ bytes_eq (text.now ++ codes "/") written.now }
{
    match written.strip_suffix('/') {
        Some(front) => front == text,
        None => false,
    }
}

// Whether the text is as the URL Standard writes the URL, but for the slash of an empty path.
fn is_as_written<M: Marker>(url: &UrlText<M>) -> bool
    ensures { result ≡ spec.is_as_written url.now }
{
    let written = url.url().as_str();
    url.as_str() == written || lacks_slash(url.as_str(), written)
}

// Why a URL isn't taken for what it has, the first of these that holds.
#[tactic(auto, unfolding(crate::specs::Urls::part_fault))]
fn part_fault<M: Marker>(url: &UrlText<M>) -> Option<UrlFault>
    ensures { result ≡ spec.part_fault url.now }
{
    if url.url().scheme() != "https" {
        Some(UrlFault::Scheme)
    } else if has_user_or_password(url.url()) {
        Some(UrlFault::Credentials)
    } else if url.url().fragment().is_some() {
        Some(UrlFault::Fragment)
    } else if has_backslash(url.as_str()) {
        Some(UrlFault::Backslash)
    } else {
        None
    }
}

fn spelling_fault<M: Marker>(url: &UrlText<M>) -> Option<UrlFault>
    ensures { result ≡ spec.spelling_fault url.now }
{
    if is_as_written(url) {
        None
    } else {
        Some(UrlFault::Spelling)
    }
}

/// Why a URL isn't taken.
#[tactic(auto, unfolding(crate::specs::Urls::url_fault))]
pub(crate) fn url_fault<M: Marker>(url: &UrlText<M>) -> Option<UrlFault>
    ensures { result ≡ spec.url_fault url.now }
{
    match part_fault(url) {
        Some(fault) => Some(fault),
        None => spelling_fault(url),
    }
}

/// The same of a URL that may be absent.
pub(crate) fn fault_if_there<M: Marker>(url: Option<&UrlText<M>>) -> Option<UrlFault>
    ensures { result ≡ absent_or_fault (option_copied url.entry) }
{
    match url {
        None => None,
        Some(url) => url_fault(url),
    }
}

/// Why an issuer isn't taken, which has no query either.
#[tactic(auto, unfolding(crate::specs::Urls::issuer_fault))]
pub(crate) fn issuer_fault(issuer: &IssuerUrl) -> Option<UrlFault>
    ensures { result ≡ spec.issuer_fault issuer.now }
{
    match part_fault(issuer) {
        Some(fault) => Some(fault),
        None => {
            if issuer.url().query().is_some() {
                Some(UrlFault::Query)
            } else {
                spelling_fault(issuer)
            }
        }
    }
}
