//! What errors of the lower layers print.

use case_lines::{Case, CaseError, one_of};
use oidc_claims::PlacedError;
use oidc_keys::{HashError, SignatureVerificationError};
use oidc_members::{FieldName, ParseError, ParseKind, Refusal};
use oidc_oauth2::{
    BearerError, Body, ConfigurationError, CoreErrorResponseType, CoreRequestTokenError, Fault,
    OtherCause, PkceError, PrepareError, RequestTokenError, StandardErrorResponse, UnexpectedType,
};
use oidc_types::{SigningError, UrlTextError};
use std::alloc::Global;

const KINDS: [ParseKind; 11] = [
    ParseKind::Syntax,
    ParseKind::Number,
    ParseKind::Duplicate,
    ParseKind::UnexpectedTag,
    ParseKind::WrongType,
    ParseKind::Missing,
    ParseKind::Url,
    ParseKind::Moment,
    ParseKind::Token,
    ParseKind::Algorithm,
    ParseKind::Additional,
];

const SIGNATURES: [SignatureVerificationError; 8] = [
    SignatureVerificationError::AmbiguousKeyId,
    SignatureVerificationError::CryptoError,
    SignatureVerificationError::DisallowedAlg,
    SignatureVerificationError::InvalidKey,
    SignatureVerificationError::NoMatchingKey,
    SignatureVerificationError::NoSignature,
    SignatureVerificationError::UnsupportedAlg,
    SignatureVerificationError::Memory,
];

const HASHES: [HashError; 2] = [HashError::Unsupported, HashError::Memory];

const URLS: [UrlTextError; 2] = [
    UrlTextError::Refused(url::ParseError::RelativeUrlWithoutBase),
    UrlTextError::Memory,
];

const BEARERS: [BearerError; 2] = [BearerError::Value, BearerError::Memory];

const CONFIGURATIONS: [ConfigurationError; 2] = [
    ConfigurationError::MissingUrl("token"),
    ConfigurationError::InsecureUrl("revocation"),
];

const FAULTS: [Fault; 1] = [Fault];

const OTHERS: [OtherCause; 3] = [
    OtherCause::Uri,
    OtherCause::EmptyBody,
    OtherCause::MediaType,
];

const CHALLENGES: [PkceError; 2] = [PkceError::Length, PkceError::Memory];

const REQUESTS: [PrepareError; 2] = [PrepareError::Uri, PrepareError::Memory];

const TYPES: [UnexpectedType; 1] = [UnexpectedType];

/// `display`: what the value of a variant prints. A variant that holds something holds what stands in
/// the lists above, or in the functions below.
pub(crate) fn display(alloc: Global, case: &Case) -> Result<String, CaseError> {
    case.check(&["type", "variant"])?;
    let variant = case.value("variant");
    match case.value("type") {
        "HashError" => one_of(alloc, &HASHES, variant),
        "ParseError" => parse_error(alloc, variant),
        "ParseKind" => one_of(alloc, &KINDS, variant),
        "PlacedError" => placed_error(alloc, variant),
        "SignatureVerificationError" => one_of(alloc, &SIGNATURES, variant),
        "SigningError" => signing_error(alloc, variant),
        "UrlTextError" => one_of(alloc, &URLS, variant),
        kind => token_layer(alloc, kind, variant),
    }
}

// What the errors of the token layer print.
fn token_layer(alloc: Global, kind: &str, variant: &str) -> Result<String, CaseError> {
    match kind {
        "BearerError" => one_of(alloc, &BEARERS, variant),
        "ConfigurationError" => one_of(alloc, &CONFIGURATIONS, variant),
        "Fault" => one_of(alloc, &FAULTS, variant),
        "OtherCause" => one_of(alloc, &OTHERS, variant),
        "PkceError" => one_of(alloc, &CHALLENGES, variant),
        "PrepareError" => one_of(alloc, &REQUESTS, variant),
        "RequestTokenError" => request_error(alloc, variant),
        "UnexpectedType" => one_of(alloc, &TYPES, variant),
        _ => Err(CaseError::NoCase),
    }
}

fn request_error(alloc: Global, variant: &str) -> Result<String, CaseError> {
    let server = StandardErrorResponse::new(CoreErrorResponseType::InvalidGrant, None, None);
    let refusal = Refusal::of_text(alloc, ParseKind::Syntax);
    let all: [CoreRequestTokenError<Fault>; 6] = [
        RequestTokenError::ServerResponse(server),
        RequestTokenError::Request(Fault),
        RequestTokenError::Parse(refusal, Body::new(Vec::new(alloc))),
        RequestTokenError::Other(OtherCause::Uri),
        RequestTokenError::TooLong(Body::new(Vec::new(alloc))),
        RequestTokenError::Memory,
    ];
    one_of(alloc, &all, variant)
}

fn parse_error(alloc: Global, variant: &str) -> Result<String, CaseError> {
    let refusal = Refusal::of_text(alloc, ParseKind::Syntax);
    one_of(
        alloc,
        &[ParseError::Refused(refusal), ParseError::Memory],
        variant,
    )
}

fn placed_error(alloc: Global, variant: &str) -> Result<String, CaseError> {
    let refusal = Refusal::of_field(alloc, ParseKind::Duplicate, "x")?;
    let all = [
        PlacedError::Refused { place: 1, refusal },
        PlacedError::Memory,
    ];
    one_of(alloc, &all, variant)
}

fn signing_error(alloc: Global, variant: &str) -> Result<String, CaseError> {
    let none = FieldName::new(String::from_str(alloc, "ES256")?);
    let other = FieldName::new(String::from_str(alloc, "ES256")?);
    let all = [
        SigningError::CryptoError,
        SigningError::UnsupportedAlg(none),
        SigningError::Other(other),
        SigningError::Memory,
    ];
    one_of(alloc, &all, variant)
}
