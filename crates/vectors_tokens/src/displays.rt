//! What errors of tokens, user info and authorization URLs print.

use case_lines::{Case, CaseError, one_of};
use http::StatusCode;
use oidc_keys::SignatureVerificationError;
use oidc_members::{ParseKind, Refusal};
use oidc_oauth2::{Body, Fault};
use oidc_tokens::{ClaimsVerificationError, JsonWebTokenError, RefreshedClaimsError};
use oidc_types::SigningError;
use oidc_user_info::{BuildUrlError, InfoOther, PrepareInfoError, ResponseCause, UserInfoError};
use std::alloc::Global;

const CLAIMS: [ClaimsVerificationError; 8] = [
    ClaimsVerificationError::Unsupported,
    ClaimsVerificationError::InvalidIssuer,
    ClaimsVerificationError::InvalidAudience,
    ClaimsVerificationError::SignatureVerification(SignatureVerificationError::CryptoError),
    ClaimsVerificationError::Expired,
    ClaimsVerificationError::InvalidNonce,
    ClaimsVerificationError::InvalidSubject,
    ClaimsVerificationError::Memory,
];

const BUILDS: [BuildUrlError; 2] = [BuildUrlError::TooLong, BuildUrlError::Memory];

const RESPONSES: [ResponseCause; 2] = [ResponseCause::Status, ResponseCause::MediaType];

const INFO_CAUSES: [InfoOther; 3] = [InfoOther::Bearer, InfoOther::Uri, InfoOther::Utf8];

const INFO_REQUESTS: [PrepareInfoError; 3] = [
    PrepareInfoError::Bearer,
    PrepareInfoError::Uri,
    PrepareInfoError::Memory,
];

/// `display`: what the value of a variant prints. A variant that holds something holds what stands in
/// the lists above, or in the functions below.
pub(crate) fn display(alloc: Global, case: &Case) -> Result<String, CaseError> {
    case.check(&["type", "variant"])?;
    let variant = case.value("variant");
    match case.value("type") {
        "BuildUrlError" => one_of(alloc, &BUILDS, variant),
        "ClaimsVerificationError" => one_of(alloc, &CLAIMS, variant),
        "InfoOther" => one_of(alloc, &INFO_CAUSES, variant),
        "JsonWebTokenError" => token_error(alloc, variant),
        "PrepareInfoError" => one_of(alloc, &INFO_REQUESTS, variant),
        "RefreshedClaimsError" => refreshed_error(alloc, variant),
        "ResponseCause" => one_of(alloc, &RESPONSES, variant),
        "UserInfoError" => user_info_error(alloc, variant),
        _ => Err(CaseError::NoCase),
    }
}

fn user_info_error(alloc: Global, variant: &str) -> Result<String, CaseError> {
    let empty = Body::new(Vec::new(alloc));
    let all: [UserInfoError<Fault>; 7] = [
        UserInfoError::ClaimsVerification(ClaimsVerificationError::InvalidSubject),
        UserInfoError::Parse(Refusal::of_text(alloc, ParseKind::Syntax)),
        UserInfoError::Request(Fault),
        UserInfoError::Response(StatusCode::UNAUTHORIZED, empty, ResponseCause::Status),
        UserInfoError::Other(InfoOther::Utf8),
        UserInfoError::TooLong(Body::new(Vec::new(alloc))),
        UserInfoError::Memory,
    ];
    one_of(alloc, &all, variant)
}

fn token_error(alloc: Global, variant: &str) -> Result<String, CaseError> {
    let all = [
        JsonWebTokenError::SigningError(SigningError::CryptoError),
        JsonWebTokenError::Memory,
    ];
    one_of(alloc, &all, variant)
}

fn refreshed_error(alloc: Global, variant: &str) -> Result<String, CaseError> {
    let all = [
        RefreshedClaimsError::Claims(ClaimsVerificationError::Expired),
        RefreshedClaimsError::OtherIssuer,
        RefreshedClaimsError::OtherSubject,
        RefreshedClaimsError::OtherAudience,
        RefreshedClaimsError::OtherAuthTime,
        RefreshedClaimsError::OtherNonce,
        RefreshedClaimsError::OtherAuthorizedParty,
        RefreshedClaimsError::Signing(SigningError::CryptoError),
        RefreshedClaimsError::TokenHash,
        RefreshedClaimsError::Memory,
    ];
    one_of(alloc, &all, variant)
}
