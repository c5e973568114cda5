//! The open vocabularies of the authorization endpoint.

ghost use Rattle.std.specs.Prelude.{◌≡◌, IfOk};
ghost use Rattle.oidc_types.specs.CoreAuthorization.{auth_display_text, auth_displays, auth_error_text, auth_errors, auth_prompt_text, auth_prompts, response_mode_text, response_modes, response_type_text, response_types};
ghost use Rattle.oidc_types.specs.Vocabulary.{find_word};

use crate::open_vocabularies::{
    AuthDisplay, AuthPrompt, ErrorResponseType, ExtensionText, ResponseMode, ResponseType,
};
use crate::text::Text;
use crate::vocabulary::{Vocabulary, copy_of_word, text_of_any, word_of_text};
use std::alloc::{AllocError, Global};
use std::fmt;

/// Ways in which the provider shows its pages (OpenID Connect Core 1.0 section 3.1.2.1, `display`).
#[derive(Debug, Drop, PartialEq, Eq, Hash)]
pub enum CoreAuthDisplay {
    /// A whole page.
    Page,
    /// A popup window.
    Popup,
    /// A device with a touch screen.
    Touch,
    /// A feature phone.
    Wap,
    /// Any other text.
    Extension(ExtensionText),
}

macro_rules! auth_displays {
    ($then:ident, $($value:expr),+) => {
        $then!(
            [$($value),+],
            CoreAuthDisplay,
            Page = "page",
            Popup = "popup",
            Touch = "touch",
            Wap = "wap"
        )
    };
}

impl CoreAuthDisplay {
    /// The known word of a text.
    fn known(text: &str) -> Option<CoreAuthDisplay>
        ensures { result ≡ find_word auth_display_text auth_displays text.now }
    {
        auth_displays!(word_of_text, text)
    }

    /// A copy of this word. `AllocError` is want of memory, the one error.
    pub fn clone_in(&self, alloc: Global) -> Result<CoreAuthDisplay, AllocError>
        ensures copy { IfOk result (λ copy. copy ≡ self.now) }
    {
        auth_displays!(copy_of_word, self, alloc)
    }
}

impl Vocabulary for CoreAuthDisplay {
    ghost use Rattle.std.specs.Prelude.{refl};
    ghost use Rattle.oidc_types.specs.CoreAuthorization.{auth_display_text, auth_displays};
    ghost use Rattle.oidc_types.specs.Vocabulary.{word_or};
    ghost use Rattle.oidc_types.specs.KeepsText.{keeps};
    ghost use Rattle.oidc_types.specs.declared.core_authorization.CoreAuthDisplay.TheVariants.{Extension};

    ghost as_ref = { auth_display_text };

    ghost from_str = { word_or auth_display_text auth_displays Extension };

    fn from_str(text: String) -> CoreAuthDisplay {
        match CoreAuthDisplay::known(text.as_str()) {
            Some(word) => word,
            None => CoreAuthDisplay::Extension(Text::new(text)),
        }
    }

    fn as_ref(&self) -> &str {
        auth_displays!(text_of_any, self)
    }

    ghost keeps_text = { keeps auth_display_text auth_displays Extension (λ _. refl) };
}

impl AuthDisplay for CoreAuthDisplay {}

/// Prints the text.
impl fmt::Display for CoreAuthDisplay {
    ghost use Rattle.std.specs.Prelude.{Some};
    ghost use Rattle.oidc_types.specs.CoreAuthorization.{auth_display_text};

    ghost output = { λ word. Some (auth_display_text word) };

    fn fmt<W: fmt::Write>(&self, f: &mut fmt::Formatter<W>) -> fmt::Result {
        fmt::Display::fmt(self.as_ref(), f)
    }
}

/// What the provider asks the end user for (OpenID Connect Core 1.0 section 3.1.2.1, `prompt`).
#[derive(Debug, Drop, PartialEq, Eq, Hash)]
pub enum CoreAuthPrompt {
    /// Nothing.
    None,
    /// To authenticate again.
    Login,
    /// For consent.
    Consent,
    /// To choose an account.
    SelectAccount,
    /// Any other text.
    Extension(ExtensionText),
}

macro_rules! auth_prompts {
    ($then:ident, $($value:expr),+) => {
        $then!(
            [$($value),+],
            CoreAuthPrompt,
            None = "none",
            Login = "login",
            Consent = "consent",
            SelectAccount = "select_account"
        )
    };
}

impl CoreAuthPrompt {
    /// The known word of a text.
    fn known(text: &str) -> Option<CoreAuthPrompt>
        ensures { result ≡ find_word auth_prompt_text auth_prompts text.now }
    {
        auth_prompts!(word_of_text, text)
    }

    /// A copy of this word. `AllocError` is want of memory, the one error.
    pub fn clone_in(&self, alloc: Global) -> Result<CoreAuthPrompt, AllocError>
        ensures copy { IfOk result (λ copy. copy ≡ self.now) }
    {
        auth_prompts!(copy_of_word, self, alloc)
    }
}

impl Vocabulary for CoreAuthPrompt {
    ghost use Rattle.std.specs.Prelude.{refl};
    ghost use Rattle.oidc_types.specs.CoreAuthorization.{auth_prompt_text, auth_prompts};
    ghost use Rattle.oidc_types.specs.Vocabulary.{word_or};
    ghost use Rattle.oidc_types.specs.KeepsText.{keeps};
    ghost use Rattle.oidc_types.specs.declared.core_authorization.CoreAuthPrompt.TheVariants.{Extension};

    ghost as_ref = { auth_prompt_text };

    ghost from_str = { word_or auth_prompt_text auth_prompts Extension };

    fn from_str(text: String) -> CoreAuthPrompt {
        match CoreAuthPrompt::known(text.as_str()) {
            Some(word) => word,
            None => CoreAuthPrompt::Extension(Text::new(text)),
        }
    }

    fn as_ref(&self) -> &str {
        auth_prompts!(text_of_any, self)
    }

    ghost keeps_text = { keeps auth_prompt_text auth_prompts Extension (λ _. refl) };
}

impl AuthPrompt for CoreAuthPrompt {}

/// Prints the text.
impl fmt::Display for CoreAuthPrompt {
    ghost use Rattle.std.specs.Prelude.{Some};
    ghost use Rattle.oidc_types.specs.CoreAuthorization.{auth_prompt_text};

    ghost output = { λ word. Some (auth_prompt_text word) };

    fn fmt<W: fmt::Write>(&self, f: &mut fmt::Formatter<W>) -> fmt::Result {
        fmt::Display::fmt(self.as_ref(), f)
    }
}

/// Ways in which the authorization response comes (OAuth 2.0 Multiple Response Type Encoding
/// Practices section 2.1).
#[derive(Debug, Drop, PartialEq, Eq, Hash)]
pub enum CoreResponseMode {
    /// In the redirect's query.
    Query,
    /// In the redirect's fragment.
    Fragment,
    /// In the body of a POST request.
    FormPost,
    /// Any other text.
    Extension(ExtensionText),
}

macro_rules! response_modes {
    ($then:ident, $($value:expr),+) => {
        $then!(
            [$($value),+],
            CoreResponseMode,
            Query = "query",
            Fragment = "fragment",
            FormPost = "form_post"
        )
    };
}

impl CoreResponseMode {
    /// The known word of a text.
    fn known(text: &str) -> Option<CoreResponseMode>
        ensures { result ≡ find_word response_mode_text response_modes text.now }
    {
        response_modes!(word_of_text, text)
    }

    /// A copy of this word. `AllocError` is want of memory, the one error.
    pub fn clone_in(&self, alloc: Global) -> Result<CoreResponseMode, AllocError>
        ensures copy { IfOk result (λ copy. copy ≡ self.now) }
    {
        response_modes!(copy_of_word, self, alloc)
    }
}

impl Vocabulary for CoreResponseMode {
    ghost use Rattle.std.specs.Prelude.{refl};
    ghost use Rattle.oidc_types.specs.CoreAuthorization.{response_mode_text, response_modes};
    ghost use Rattle.oidc_types.specs.Vocabulary.{word_or};
    ghost use Rattle.oidc_types.specs.KeepsText.{keeps};
    ghost use Rattle.oidc_types.specs.declared.core_authorization.CoreResponseMode.TheVariants.{Extension};

    ghost as_ref = { response_mode_text };

    ghost from_str = { word_or response_mode_text response_modes Extension };

    fn from_str(text: String) -> CoreResponseMode {
        match CoreResponseMode::known(text.as_str()) {
            Some(word) => word,
            None => CoreResponseMode::Extension(Text::new(text)),
        }
    }

    fn as_ref(&self) -> &str {
        response_modes!(text_of_any, self)
    }

    ghost keeps_text = { keeps response_mode_text response_modes Extension (λ _. refl) };
}

impl ResponseMode for CoreResponseMode {}

/// Prints the text.
impl fmt::Display for CoreResponseMode {
    ghost use Rattle.std.specs.Prelude.{Some};
    ghost use Rattle.oidc_types.specs.CoreAuthorization.{response_mode_text};

    ghost output = { λ word. Some (response_mode_text word) };

    fn fmt<W: fmt::Write>(&self, f: &mut fmt::Formatter<W>) -> fmt::Result {
        fmt::Display::fmt(self.as_ref(), f)
    }
}

/// What the authorization endpoint is asked for (OAuth 2.0 Multiple Response Type Encoding Practices
/// sections 3 to 5).
#[derive(Debug, Drop, PartialEq, Eq, Hash)]
pub enum CoreResponseType {
    /// An authorization code.
    Code,
    /// An ID token.
    IdToken,
    /// Nothing.
    None,
    /// An access token.
    Token,
    /// Any other text.
    Extension(ExtensionText),
}

macro_rules! response_types {
    ($then:ident, $($value:expr),+) => {
        $then!(
            [$($value),+],
            CoreResponseType,
            Code = "code",
            IdToken = "id_token",
            None = "none",
            Token = "token"
        )
    };
}

impl CoreResponseType {
    /// The known word of a text.
    fn known(text: &str) -> Option<CoreResponseType>
        ensures { result ≡ find_word response_type_text response_types text.now }
    {
        response_types!(word_of_text, text)
    }

    /// A copy of this word. `AllocError` is want of memory, the one error.
    pub fn clone_in(&self, alloc: Global) -> Result<CoreResponseType, AllocError>
        ensures copy { IfOk result (λ copy. copy ≡ self.now) }
    {
        response_types!(copy_of_word, self, alloc)
    }
}

impl Vocabulary for CoreResponseType {
    ghost use Rattle.std.specs.Prelude.{refl};
    ghost use Rattle.oidc_types.specs.CoreAuthorization.{response_type_text, response_types};
    ghost use Rattle.oidc_types.specs.Vocabulary.{word_or};
    ghost use Rattle.oidc_types.specs.KeepsText.{keeps};
    ghost use Rattle.oidc_types.specs.declared.core_authorization.CoreResponseType.TheVariants.{Extension};

    ghost as_ref = { response_type_text };

    ghost from_str = { word_or response_type_text response_types Extension };

    fn from_str(text: String) -> CoreResponseType {
        match CoreResponseType::known(text.as_str()) {
            Some(word) => word,
            None => CoreResponseType::Extension(Text::new(text)),
        }
    }

    fn as_ref(&self) -> &str {
        response_types!(text_of_any, self)
    }

    ghost keeps_text = { keeps response_type_text response_types Extension (λ _. refl) };
}

impl ResponseType for CoreResponseType {}

/// Prints the text.
impl fmt::Display for CoreResponseType {
    ghost use Rattle.std.specs.Prelude.{Some};
    ghost use Rattle.oidc_types.specs.CoreAuthorization.{response_type_text};

    ghost output = { λ word. Some (response_type_text word) };

    fn fmt<W: fmt::Write>(&self, f: &mut fmt::Formatter<W>) -> fmt::Result {
        fmt::Display::fmt(self.as_ref(), f)
    }
}

/// Errors of the authorization endpoint (RFC 6749 section 4.1.2.1, OpenID Connect Core 1.0 section
/// 3.1.2.6).
#[derive(Debug, Drop, PartialEq, Eq, Hash)]
pub enum CoreAuthErrorResponseType {
    /// The end user or the provider refused.
    AccessDenied,
    /// The end user has to choose an account.
    AccountSelectionRequired,
    /// The end user has to consent.
    ConsentRequired,
    /// The end user has to be asked.
    InteractionRequired,
    /// The request lacks a parameter or has an invalid one.
    InvalidRequest,
    /// The request object is invalid.
    InvalidRequestObject,
    /// The `request_uri` gives an error or is invalid.
    InvalidRequestUri,
    /// The scope is invalid.
    InvalidScope,
    /// The end user has to authenticate.
    LoginRequired,
    /// The provider does not take the `registration` parameter.
    RegistrationNotSupported,
    /// The provider does not take the `request` parameter.
    RequestNotSupported,
    /// The provider does not take the `request_uri` parameter.
    RequestUriNotSupported,
    /// The provider failed.
    ServerError,
    /// The provider is busy or in maintenance.
    TemporarilyUnavailable,
    /// The client may not ask so.
    UnauthorizedClient,
    /// The provider does not support the response type.
    UnsupportedResponseType,
    /// Any other text.
    Extension(ExtensionText),
}

macro_rules! auth_errors {
    ($then:ident, $($value:expr),+) => {
        $then!(
            [$($value),+],
            CoreAuthErrorResponseType,
            AccessDenied = "access_denied",
            AccountSelectionRequired = "account_selection_required",
            ConsentRequired = "consent_required",
            InteractionRequired = "interaction_required",
            InvalidRequest = "invalid_request",
            InvalidRequestObject = "invalid_request_object",
            InvalidRequestUri = "invalid_request_uri",
            InvalidScope = "invalid_scope",
            LoginRequired = "login_required",
            RegistrationNotSupported = "registration_not_supported",
            RequestNotSupported = "request_not_supported",
            RequestUriNotSupported = "request_uri_not_supported",
            ServerError = "server_error",
            TemporarilyUnavailable = "temporarily_unavailable",
            UnauthorizedClient = "unauthorized_client",
            UnsupportedResponseType = "unsupported_response_type"
        )
    };
}

impl CoreAuthErrorResponseType {
    /// The known word of a text.
    fn known(text: &str) -> Option<CoreAuthErrorResponseType>
        ensures { result ≡ find_word auth_error_text auth_errors text.now }
    {
        auth_errors!(word_of_text, text)
    }

    /// A copy of this word. `AllocError` is want of memory, the one error.
    pub fn clone_in(&self, alloc: Global) -> Result<CoreAuthErrorResponseType, AllocError>
        ensures copy { IfOk result (λ copy. copy ≡ self.now) }
    {
        auth_errors!(copy_of_word, self, alloc)
    }
}

impl Vocabulary for CoreAuthErrorResponseType {
    ghost use Rattle.std.specs.Prelude.{refl};
    ghost use Rattle.oidc_types.specs.CoreAuthorization.{auth_error_text, auth_errors};
    ghost use Rattle.oidc_types.specs.Vocabulary.{word_or};
    ghost use Rattle.oidc_types.specs.KeepsText.{keeps};
    ghost use Rattle.oidc_types.specs.declared.core_authorization.CoreAuthErrorResponseType.TheVariants.{Extension};

    ghost as_ref = { auth_error_text };

    ghost from_str = { word_or auth_error_text auth_errors Extension };

    fn from_str(text: String) -> CoreAuthErrorResponseType {
        match CoreAuthErrorResponseType::known(text.as_str()) {
            Some(word) => word,
            None => CoreAuthErrorResponseType::Extension(Text::new(text)),
        }
    }

    fn as_ref(&self) -> &str {
        auth_errors!(text_of_any, self)
    }

    ghost keeps_text = { keeps auth_error_text auth_errors Extension (λ _. refl) };
}

impl ErrorResponseType for CoreAuthErrorResponseType {}

/// Prints the text.
impl fmt::Display for CoreAuthErrorResponseType {
    ghost use Rattle.std.specs.Prelude.{Some};
    ghost use Rattle.oidc_types.specs.CoreAuthorization.{auth_error_text};

    ghost output = { λ word. Some (auth_error_text word) };

    fn fmt<W: fmt::Write>(&self, f: &mut fmt::Formatter<W>) -> fmt::Result {
        fmt::Display::fmt(self.as_ref(), f)
    }
}
