//! The errors that a token endpoint, also while a device waits, and a revocation endpoint answer.

ghost use Rattle.std.specs.Prelude.{◌≡◌, IfOk};
ghost use Rattle.oidc_types.specs.{find_word};
ghost use Rattle.oidc_oauth2.specs.Words.{error_text, errors, device_error_text, device_errors, revocation_error_text, revocation_errors};

use oidc_types::{ErrorResponseType, ExtensionText, Text, Vocabulary};
use std::alloc::{AllocError, Global};
use std::fmt;

/// Errors of a token endpoint (RFC 6749 section 5.2).
#[derive(Debug, Drop, PartialEq, Eq, Hash)]
pub enum CoreErrorResponseType {
    /// The client isn't known, or didn't authenticate.
    InvalidClient,
    /// The code or token isn't valid, or is another client's.
    InvalidGrant,
    /// The request is malformed.
    InvalidRequest,
    /// The scope isn't valid, or is more than was granted.
    InvalidScope,
    /// The client may not use this grant.
    UnauthorizedClient,
    /// The server doesn't take this grant.
    UnsupportedGrantType,
    /// Any other text.
    Extension(ExtensionText),
}

impl CoreErrorResponseType {
    // The known word of a text.
    fn known(text: &str) -> Option<CoreErrorResponseType>
        ensures { result ≡ find_word error_text errors text.now }
    {
        match text {
            "invalid_client" => Some(CoreErrorResponseType::InvalidClient),
            "invalid_grant" => Some(CoreErrorResponseType::InvalidGrant),
            "invalid_request" => Some(CoreErrorResponseType::InvalidRequest),
            "invalid_scope" => Some(CoreErrorResponseType::InvalidScope),
            "unauthorized_client" => Some(CoreErrorResponseType::UnauthorizedClient),
            "unsupported_grant_type" => Some(CoreErrorResponseType::UnsupportedGrantType),
            _ => None,
        }
    }

    /// A copy of this word. `AllocError` is want of memory, the one error.
    pub fn clone_in(&self, alloc: Global) -> Result<CoreErrorResponseType, AllocError>
        ensures copy { IfOk result (λ copy. copy ≡ self.now) }
    {
        match self {
            CoreErrorResponseType::InvalidClient => Ok(CoreErrorResponseType::InvalidClient),
            CoreErrorResponseType::InvalidGrant => Ok(CoreErrorResponseType::InvalidGrant),
            CoreErrorResponseType::InvalidRequest => Ok(CoreErrorResponseType::InvalidRequest),
            CoreErrorResponseType::InvalidScope => Ok(CoreErrorResponseType::InvalidScope),
            CoreErrorResponseType::UnauthorizedClient => Ok(
                CoreErrorResponseType::UnauthorizedClient,
            ),
            CoreErrorResponseType::UnsupportedGrantType => Ok(
                CoreErrorResponseType::UnsupportedGrantType,
            ),
            CoreErrorResponseType::Extension(other) => Ok(CoreErrorResponseType::Extension(
                other.clone_in(alloc)?,
            )),
        }
    }
}

impl Vocabulary for CoreErrorResponseType {
    ghost use Rattle.std.specs.Prelude.{refl};
    ghost use Rattle.oidc_oauth2.specs.Words.{error_text, errors, error_of};
    ghost use Rattle.oidc_types.specs.KeepsText.{keeps};
    ghost use Rattle.oidc_oauth2.specs.declared.error_types.CoreErrorResponseType.TheVariants as error;

    ghost as_ref = { error_text };

    ghost from_str = { error_of };

    fn from_str(text: String) -> CoreErrorResponseType {
        match CoreErrorResponseType::known(text.as_str()) {
            Some(word) => word,
            None => CoreErrorResponseType::Extension(Text::new(text)),
        }
    }

    fn as_ref(&self) -> &str {
        match self {
            CoreErrorResponseType::InvalidClient => "invalid_client",
            CoreErrorResponseType::InvalidGrant => "invalid_grant",
            CoreErrorResponseType::InvalidRequest => "invalid_request",
            CoreErrorResponseType::InvalidScope => "invalid_scope",
            CoreErrorResponseType::UnauthorizedClient => "unauthorized_client",
            CoreErrorResponseType::UnsupportedGrantType => "unsupported_grant_type",
            CoreErrorResponseType::Extension(other) => other.as_str(),
        }
    }

    ghost keeps_text = { keeps error_text errors error.Extension (λ _. refl) };
}

impl ErrorResponseType for CoreErrorResponseType {}

/// Prints the text.
impl fmt::Display for CoreErrorResponseType {
    ghost use Rattle.std.specs.Prelude.{Some};
    ghost use Rattle.oidc_oauth2.specs.Words.{error_text};

    ghost output = { λ word. Some (error_text word) };

    fn fmt<W: fmt::Write>(&self, f: &mut fmt::Formatter<W>) -> fmt::Result {
        fmt::Display::fmt(self.as_ref(), f)
    }
}

/// Errors while a device waits for its user (RFC 8628 section 3.5).
#[derive(Debug, Drop, PartialEq, Eq, Hash)]
pub enum DeviceCodeErrorResponseType {
    /// The user isn't done yet.
    AuthorizationPending,
    /// The user isn't done yet, and the device is to ask less often.
    SlowDown,
    /// The user refused.
    AccessDenied,
    /// The device code has expired.
    ExpiredToken,
    /// An error of a token endpoint, which keeps any other text.
    Basic(CoreErrorResponseType),
}

impl DeviceCodeErrorResponseType {
    // The known word of a text.
    fn known(text: &str) -> Option<DeviceCodeErrorResponseType>
        ensures { result ≡ find_word device_error_text device_errors text.now }
    {
        match text {
            "authorization_pending" => Some(DeviceCodeErrorResponseType::AuthorizationPending),
            "slow_down" => Some(DeviceCodeErrorResponseType::SlowDown),
            "access_denied" => Some(DeviceCodeErrorResponseType::AccessDenied),
            "expired_token" => Some(DeviceCodeErrorResponseType::ExpiredToken),
            _ => None,
        }
    }

    /// A copy of this word. `AllocError` is want of memory, the one error.
    pub fn clone_in(&self, alloc: Global) -> Result<DeviceCodeErrorResponseType, AllocError>
        ensures copy { IfOk result (λ copy. copy ≡ self.now) }
    {
        match self {
            DeviceCodeErrorResponseType::AuthorizationPending => Ok(
                DeviceCodeErrorResponseType::AuthorizationPending,
            ),
            DeviceCodeErrorResponseType::SlowDown => Ok(DeviceCodeErrorResponseType::SlowDown),
            DeviceCodeErrorResponseType::AccessDenied => Ok(
                DeviceCodeErrorResponseType::AccessDenied,
            ),
            DeviceCodeErrorResponseType::ExpiredToken => Ok(
                DeviceCodeErrorResponseType::ExpiredToken,
            ),
            DeviceCodeErrorResponseType::Basic(other) => Ok(DeviceCodeErrorResponseType::Basic(
                other.clone_in(alloc)?,
            )),
        }
    }
}

impl Vocabulary for DeviceCodeErrorResponseType {
    ghost use Rattle.std.specs.Prelude.{refl};
    ghost use Rattle.oidc_oauth2.specs.Words.{error_text, errors, error_of};
    ghost use Rattle.oidc_oauth2.specs.Words.{device_error_text, device_errors, device_error_of};
    ghost use Rattle.oidc_types.specs.KeepsText.{keeps};
    ghost use Rattle.oidc_oauth2.specs.declared.error_types.DeviceCodeErrorResponseType.TheVariants as own;
    ghost use Rattle.oidc_oauth2.specs.declared.error_types.CoreErrorResponseType.TheVariants as error;

    ghost as_ref = { device_error_text };

    ghost from_str = { device_error_of };

    fn from_str(text: String) -> DeviceCodeErrorResponseType {
        match DeviceCodeErrorResponseType::known(text.as_str()) {
            Some(word) => word,
            None => DeviceCodeErrorResponseType::Basic(CoreErrorResponseType::from_str(text)),
        }
    }

    fn as_ref(&self) -> &str {
        match self {
            DeviceCodeErrorResponseType::AuthorizationPending => "authorization_pending",
            DeviceCodeErrorResponseType::SlowDown => "slow_down",
            DeviceCodeErrorResponseType::AccessDenied => "access_denied",
            DeviceCodeErrorResponseType::ExpiredToken => "expired_token",
            DeviceCodeErrorResponseType::Basic(other) => other.as_ref(),
        }
    }

    ghost keeps_text = { keeps device_error_text device_errors
        (λ text. own.Basic (error_of text))
        (keeps error_text errors error.Extension (λ _. refl)) };
}

impl ErrorResponseType for DeviceCodeErrorResponseType {}

/// Prints the text.
impl fmt::Display for DeviceCodeErrorResponseType {
    ghost use Rattle.std.specs.Prelude.{Some};
    ghost use Rattle.oidc_oauth2.specs.Words.{device_error_text};

    ghost output = { λ word. Some (device_error_text word) };

    fn fmt<W: fmt::Write>(&self, f: &mut fmt::Formatter<W>) -> fmt::Result {
        fmt::Display::fmt(self.as_ref(), f)
    }
}

/// Errors of a revocation endpoint (RFC 7009 section 2.2.1).
#[derive(Debug, Drop, PartialEq, Eq, Hash)]
pub enum RevocationErrorResponseType {
    /// The server doesn't revoke tokens of this type.
    UnsupportedTokenType,
    /// An error of a token endpoint, which keeps any other text.
    Basic(CoreErrorResponseType),
}

impl RevocationErrorResponseType {
    // The known word of a text.
    fn known(text: &str) -> Option<RevocationErrorResponseType>
        ensures { result ≡ find_word revocation_error_text revocation_errors text.now }
    {
        match text {
            "unsupported_token_type" => Some(RevocationErrorResponseType::UnsupportedTokenType),
            _ => None,
        }
    }

    /// A copy of this word. `AllocError` is want of memory, the one error.
    pub fn clone_in(&self, alloc: Global) -> Result<RevocationErrorResponseType, AllocError>
        ensures copy { IfOk result (λ copy. copy ≡ self.now) }
    {
        match self {
            RevocationErrorResponseType::UnsupportedTokenType => Ok(
                RevocationErrorResponseType::UnsupportedTokenType,
            ),
            RevocationErrorResponseType::Basic(other) => Ok(RevocationErrorResponseType::Basic(
                other.clone_in(alloc)?,
            )),
        }
    }
}

impl Vocabulary for RevocationErrorResponseType {
    ghost use Rattle.std.specs.Prelude.{refl};
    ghost use Rattle.oidc_oauth2.specs.Words.{error_text, errors, error_of};
    ghost use Rattle.oidc_oauth2.specs.Words.{revocation_error_text, revocation_errors, revocation_error_of};
    ghost use Rattle.oidc_types.specs.KeepsText.{keeps};
    ghost use Rattle.oidc_oauth2.specs.declared.error_types.RevocationErrorResponseType.TheVariants as own;
    ghost use Rattle.oidc_oauth2.specs.declared.error_types.CoreErrorResponseType.TheVariants as error;

    ghost as_ref = { revocation_error_text };

    ghost from_str = { revocation_error_of };

    fn from_str(text: String) -> RevocationErrorResponseType {
        match RevocationErrorResponseType::known(text.as_str()) {
            Some(word) => word,
            None => RevocationErrorResponseType::Basic(CoreErrorResponseType::from_str(text)),
        }
    }

    fn as_ref(&self) -> &str {
        match self {
            RevocationErrorResponseType::UnsupportedTokenType => "unsupported_token_type",
            RevocationErrorResponseType::Basic(other) => other.as_ref(),
        }
    }

    ghost keeps_text = { keeps revocation_error_text revocation_errors
        (λ text. own.Basic (error_of text))
        (keeps error_text errors error.Extension (λ _. refl)) };
}

impl ErrorResponseType for RevocationErrorResponseType {}

/// Prints the text.
impl fmt::Display for RevocationErrorResponseType {
    ghost use Rattle.std.specs.Prelude.{Some};
    ghost use Rattle.oidc_oauth2.specs.Words.{revocation_error_text};

    ghost output = { λ word. Some (revocation_error_text word) };

    fn fmt<W: fmt::Write>(&self, f: &mut fmt::Formatter<W>) -> fmt::Result {
        fmt::Display::fmt(self.as_ref(), f)
    }
}
