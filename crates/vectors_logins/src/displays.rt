//! What errors of logins and of sessions print.

use case_lines::{Case, CaseError, one_of};
use oidc_cli::Failed;
use oidc_device::{DeviceError, StartError};
use oidc_keys::SignatureVerificationError;
use oidc_login::{BeginError, FrontError, LoginError, NewLoginsError, TooLong};
use oidc_members::{FieldName, ParseKind, Refusal};
use oidc_oauth2::{Fault, RequestTokenError};
use oidc_session::{LogoutError, OpenError};
use oidc_tokens::ClaimsVerificationError;
use oidc_types::{CoreAuthErrorResponseType, SigningError};
use oidc_user_info::UserInfoError;
use std::alloc::Global;

const PLACES: [TooLong; 3] = [
    TooLong::Callback,
    TooLong::TokenAnswer,
    TooLong::UserInfoAnswer,
];

const STORES: [NewLoginsError; 1] = [NewLoginsError::TokenEndpoint];

const BEGINS: [BeginError; 7] = [
    BeginError::Flow,
    BeginError::ClientId,
    BeginError::Verifier,
    BeginError::UserInfoEndpoint,
    BeginError::Pending,
    BeginError::TooLong,
    BeginError::Memory,
];

const OPENS: [OpenError; 3] = [OpenError::Ended, OpenError::Taken, OpenError::Memory];

const CALLS: [Failed; 1] = [Failed];

/// `display`: what the value of a variant prints. A variant that holds something holds what stands in
/// the lists above, or in the functions below.
pub(crate) fn display(alloc: Global, case: &Case) -> Result<String, CaseError> {
    case.check(&["type", "variant"])?;
    let variant = case.value("variant");
    match case.value("type") {
        "BeginError" => one_of(alloc, &BEGINS, variant),
        "DeviceError" => device_error(alloc, variant),
        "Failed" => one_of(alloc, &CALLS, variant),
        "FrontError" => front_error(alloc, variant),
        "LoginError" => login_error(alloc, variant),
        "LogoutError" => logout_error(alloc, variant),
        "NewLoginsError" => one_of(alloc, &STORES, variant),
        "OpenError" => one_of(alloc, &OPENS, variant),
        "StartError" => start_error(alloc, variant),
        "TooLong" => one_of(alloc, &PLACES, variant),
        _ => Err(CaseError::NoCase),
    }
}

fn login_error(alloc: Global, variant: &str) -> Result<String, CaseError> {
    let none = FieldName::new(String::from_str(alloc, "ES256")?);
    let all: [LoginError<Fault>; 11] = [
        LoginError::TooLong(TooLong::TokenAnswer),
        LoginError::State,
        LoginError::Provider(CoreAuthErrorResponseType::AccessDenied),
        LoginError::Callback,
        LoginError::Token(RequestTokenError::Request(Fault)),
        LoginError::NoIdToken,
        LoginError::Claims(ClaimsVerificationError::Expired),
        LoginError::Signing(SigningError::UnsupportedAlg(none)),
        LoginError::TokenHash,
        LoginError::UserInfo(UserInfoError::Request(Fault)),
        LoginError::Memory { spent: false },
    ];
    one_of(alloc, &all, variant)
}

fn front_error(alloc: Global, variant: &str) -> Result<String, CaseError> {
    let none = FieldName::new(String::from_str(alloc, "EdDSA")?);
    let all = [
        FrontError::TooLong,
        FrontError::State,
        FrontError::Provider(CoreAuthErrorResponseType::LoginRequired),
        FrontError::NoIdToken,
        FrontError::Parse(Refusal::of_text(alloc, ParseKind::Token)),
        FrontError::Claims(ClaimsVerificationError::InvalidNonce),
        FrontError::Signing(SigningError::UnsupportedAlg(none)),
        FrontError::TokenHash,
        FrontError::CodeHash,
        FrontError::Memory,
    ];
    one_of(alloc, &all, variant)
}

fn logout_error(alloc: Global, variant: &str) -> Result<String, CaseError> {
    let all = [
        LogoutError::Parse(Refusal::of_text(alloc, ParseKind::Token)),
        LogoutError::Unsupported,
        LogoutError::InvalidIssuer,
        LogoutError::InvalidAudience,
        LogoutError::WrongAlgorithm,
        LogoutError::Signature(SignatureVerificationError::InvalidKey),
        LogoutError::Expired,
        LogoutError::Events,
        LogoutError::NoName,
        LogoutError::Nonce,
        LogoutError::Replayed,
        LogoutError::Memory,
    ];
    one_of(alloc, &all, variant)
}

fn start_error(alloc: Global, variant: &str) -> Result<String, CaseError> {
    let all: [StartError<Fault>; 2] = [
        StartError::Device(RequestTokenError::Request(Fault)),
        StartError::Memory,
    ];
    one_of(alloc, &all, variant)
}

fn device_error(alloc: Global, variant: &str) -> Result<String, CaseError> {
    let none = FieldName::new(String::from_str(alloc, "EdDSA")?);
    let all: [DeviceError<Fault>; 8] = [
        DeviceError::Over,
        DeviceError::Expired,
        DeviceError::Token(RequestTokenError::Request(Fault)),
        DeviceError::NoIdToken,
        DeviceError::Claims(ClaimsVerificationError::Expired),
        DeviceError::Signing(SigningError::UnsupportedAlg(none)),
        DeviceError::TokenHash,
        DeviceError::Memory,
    ];
    one_of(alloc, &all, variant)
}
