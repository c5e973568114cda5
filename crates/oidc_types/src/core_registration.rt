//! The open vocabularies of client registration, and of the grants and claims that it speaks of.

ghost use Rattle.std.specs.Prelude.{◌≡◌, IfOk};
ghost use Rattle.oidc_types.specs.CoreRegistration.{application_type_text, application_types, claim_type_text, claim_types, auth_method_text, auth_methods, grant_type_text, grant_types, register_error_text, register_errors, subject_type_text, subject_types};
ghost use Rattle.oidc_types.specs.Vocabulary.{find_word};

use crate::open_vocabularies::{
    ApplicationType, ClaimType, ClientAuthMethod, ErrorResponseType, ExtensionText, GrantType,
    SubjectIdentifierType,
};
use crate::text::Text;
use crate::vocabulary::{Vocabulary, copy_of_word, text_of_any, word_of_text};
use std::alloc::{AllocError, Global};
use std::fmt;

/// Kinds of clients (OpenID Connect Dynamic Client Registration 1.0 section 2).
#[derive(Debug, Drop, PartialEq, Eq, Hash)]
pub enum CoreApplicationType {
    /// A client on the end user's device.
    Native,
    /// A client on a web server.
    Web,
    /// Any other text.
    Extension(ExtensionText),
}

macro_rules! application_types {
    ($then:ident, $($value:expr),+) => {
        $then!(
            [$($value),+],
            CoreApplicationType,
            Native = "native",
            Web = "web"
        )
    };
}

impl CoreApplicationType {
    /// The known word of a text.
    fn known(text: &str) -> Option<CoreApplicationType>
        ensures { result ≡ find_word application_type_text application_types text.now }
    {
        application_types!(word_of_text, text)
    }

    /// A copy of this word. `AllocError` is want of memory, the one error.
    pub fn clone_in(&self, alloc: Global) -> Result<CoreApplicationType, AllocError>
        ensures copy { IfOk result (λ copy. copy ≡ self.now) }
    {
        application_types!(copy_of_word, self, alloc)
    }
}

impl Vocabulary for CoreApplicationType {
    ghost use Rattle.std.specs.Prelude.{refl};
    ghost use Rattle.oidc_types.specs.CoreRegistration.{application_type_text, application_types};
    ghost use Rattle.oidc_types.specs.Vocabulary.{word_or};
    ghost use Rattle.oidc_types.specs.KeepsText.{keeps};
    ghost use Rattle.oidc_types.specs.declared.core_registration.CoreApplicationType.TheVariants.{Extension};

    ghost as_ref = { application_type_text };

    ghost from_str = { word_or application_type_text application_types Extension };

    fn from_str(text: String) -> CoreApplicationType {
        match CoreApplicationType::known(text.as_str()) {
            Some(word) => word,
            None => CoreApplicationType::Extension(Text::new(text)),
        }
    }

    fn as_ref(&self) -> &str {
        application_types!(text_of_any, self)
    }

    ghost keeps_text = { keeps application_type_text application_types Extension (λ _. refl) };
}

impl ApplicationType for CoreApplicationType {}

/// Prints the text.
impl fmt::Display for CoreApplicationType {
    ghost use Rattle.std.specs.Prelude.{Some};
    ghost use Rattle.oidc_types.specs.CoreRegistration.{application_type_text};

    ghost output = { λ word. Some (application_type_text word) };

    fn fmt<W: fmt::Write>(&self, f: &mut fmt::Formatter<W>) -> fmt::Result {
        fmt::Display::fmt(self.as_ref(), f)
    }
}

/// Ways in which a claim comes (OpenID Connect Core 1.0 section 5.6).
#[derive(Debug, Drop, PartialEq, Eq, Hash)]
pub enum CoreClaimType {
    /// Claims that another provider asserts, and this one hands on.
    Aggregated,
    /// Claims that another provider asserts, and this one refers to.
    Distributed,
    /// Claims that the provider itself asserts.
    Normal,
    /// Any other text.
    Extension(ExtensionText),
}

macro_rules! claim_types {
    ($then:ident, $($value:expr),+) => {
        $then!(
            [$($value),+],
            CoreClaimType,
            Aggregated = "aggregated",
            Distributed = "distributed",
            Normal = "normal"
        )
    };
}

impl CoreClaimType {
    /// The known word of a text.
    fn known(text: &str) -> Option<CoreClaimType>
        ensures { result ≡ find_word claim_type_text claim_types text.now }
    {
        claim_types!(word_of_text, text)
    }

    /// A copy of this word. `AllocError` is want of memory, the one error.
    pub fn clone_in(&self, alloc: Global) -> Result<CoreClaimType, AllocError>
        ensures copy { IfOk result (λ copy. copy ≡ self.now) }
    {
        claim_types!(copy_of_word, self, alloc)
    }
}

impl Vocabulary for CoreClaimType {
    ghost use Rattle.std.specs.Prelude.{refl};
    ghost use Rattle.oidc_types.specs.CoreRegistration.{claim_type_text, claim_types};
    ghost use Rattle.oidc_types.specs.Vocabulary.{word_or};
    ghost use Rattle.oidc_types.specs.KeepsText.{keeps};
    ghost use Rattle.oidc_types.specs.declared.core_registration.CoreClaimType.TheVariants.{Extension};

    ghost as_ref = { claim_type_text };

    ghost from_str = { word_or claim_type_text claim_types Extension };

    fn from_str(text: String) -> CoreClaimType {
        match CoreClaimType::known(text.as_str()) {
            Some(word) => word,
            None => CoreClaimType::Extension(Text::new(text)),
        }
    }

    fn as_ref(&self) -> &str {
        claim_types!(text_of_any, self)
    }

    ghost keeps_text = { keeps claim_type_text claim_types Extension (λ _. refl) };
}

impl ClaimType for CoreClaimType {}

/// Prints the text.
impl fmt::Display for CoreClaimType {
    ghost use Rattle.std.specs.Prelude.{Some};
    ghost use Rattle.oidc_types.specs.CoreRegistration.{claim_type_text};

    ghost output = { λ word. Some (claim_type_text word) };

    fn fmt<W: fmt::Write>(&self, f: &mut fmt::Formatter<W>) -> fmt::Result {
        fmt::Display::fmt(self.as_ref(), f)
    }
}

/// Ways in which a client authenticates at the token endpoint (OpenID Connect Core 1.0 section 9).
#[derive(Debug, Drop, PartialEq, Eq, Hash)]
pub enum CoreClientAuthMethod {
    /// The secret, by HTTP Basic authentication (RFC 6749 section 2.3.1).
    ClientSecretBasic,
    /// A JSON Web Token under the secret.
    ClientSecretJwt,
    /// The secret, in the request's body (RFC 6749 section 2.3.1).
    ClientSecretPost,
    /// A JSON Web Token under a private key.
    PrivateKeyJwt,
    /// Not at all.
    None,
    /// Any other text.
    Extension(ExtensionText),
}

macro_rules! auth_methods {
    ($then:ident, $($value:expr),+) => {
        $then!(
            [$($value),+],
            CoreClientAuthMethod,
            ClientSecretBasic = "client_secret_basic",
            ClientSecretJwt = "client_secret_jwt",
            ClientSecretPost = "client_secret_post",
            PrivateKeyJwt = "private_key_jwt",
            None = "none"
        )
    };
}

impl CoreClientAuthMethod {
    /// The known word of a text.
    fn known(text: &str) -> Option<CoreClientAuthMethod>
        ensures { result ≡ find_word auth_method_text auth_methods text.now }
    {
        auth_methods!(word_of_text, text)
    }

    /// A copy of this word. `AllocError` is want of memory, the one error.
    pub fn clone_in(&self, alloc: Global) -> Result<CoreClientAuthMethod, AllocError>
        ensures copy { IfOk result (λ copy. copy ≡ self.now) }
    {
        auth_methods!(copy_of_word, self, alloc)
    }
}

impl Vocabulary for CoreClientAuthMethod {
    ghost use Rattle.std.specs.Prelude.{refl};
    ghost use Rattle.oidc_types.specs.CoreRegistration.{auth_method_text, auth_methods};
    ghost use Rattle.oidc_types.specs.Vocabulary.{word_or};
    ghost use Rattle.oidc_types.specs.KeepsText.{keeps};
    ghost use Rattle.oidc_types.specs.declared.core_registration.CoreClientAuthMethod.TheVariants.{Extension};

    ghost as_ref = { auth_method_text };

    ghost from_str = { word_or auth_method_text auth_methods Extension };

    fn from_str(text: String) -> CoreClientAuthMethod {
        match CoreClientAuthMethod::known(text.as_str()) {
            Some(word) => word,
            None => CoreClientAuthMethod::Extension(Text::new(text)),
        }
    }

    fn as_ref(&self) -> &str {
        auth_methods!(text_of_any, self)
    }

    ghost keeps_text = { keeps auth_method_text auth_methods Extension (λ _. refl) };
}

impl ClientAuthMethod for CoreClientAuthMethod {}

/// Prints the text.
impl fmt::Display for CoreClientAuthMethod {
    ghost use Rattle.std.specs.Prelude.{Some};
    ghost use Rattle.oidc_types.specs.CoreRegistration.{auth_method_text};

    ghost output = { λ word. Some (auth_method_text word) };

    fn fmt<W: fmt::Write>(&self, f: &mut fmt::Formatter<W>) -> fmt::Result {
        fmt::Display::fmt(self.as_ref(), f)
    }
}

/// Kinds of grants for a token.
#[derive(Debug, Drop, PartialEq, Eq, PartialOrd, Ord, Hash)]
pub enum CoreGrantType {
    /// An authorization code (RFC 6749 section 4.1).
    AuthorizationCode,
    /// The client's own credentials (RFC 6749 section 4.4).
    ClientCredentials,
    /// A device code (RFC 8628 section 3.4).
    DeviceCode,
    /// None: the token comes from the authorization endpoint (RFC 6749 section 4.2).
    Implicit,
    /// A JSON Web Token (RFC 7523 section 2.1).
    JwtBearer,
    /// The resource owner's password (RFC 6749 section 4.3).
    Password,
    /// A refresh token (RFC 6749 section 6).
    RefreshToken,
    /// Any other text.
    Extension(ExtensionText),
}

macro_rules! grant_types {
    ($then:ident, $($value:expr),+) => {
        $then!(
            [$($value),+],
            CoreGrantType,
            AuthorizationCode = "authorization_code",
            ClientCredentials = "client_credentials",
            DeviceCode = "urn:ietf:params:oauth:grant-type:device_code",
            Implicit = "implicit",
            JwtBearer = "urn:ietf:params:oauth:grant-type:jwt-bearer",
            Password = "password",
            RefreshToken = "refresh_token"
        )
    };
}

impl CoreGrantType {
    /// The known word of a text.
    fn known(text: &str) -> Option<CoreGrantType>
        ensures { result ≡ find_word grant_type_text grant_types text.now }
    {
        grant_types!(word_of_text, text)
    }

    /// A copy of this word. `AllocError` is want of memory, the one error.
    pub fn clone_in(&self, alloc: Global) -> Result<CoreGrantType, AllocError>
        ensures copy { IfOk result (λ copy. copy ≡ self.now) }
    {
        grant_types!(copy_of_word, self, alloc)
    }
}

impl Vocabulary for CoreGrantType {
    ghost use Rattle.std.specs.Prelude.{refl};
    ghost use Rattle.oidc_types.specs.CoreRegistration.{grant_type_text, grant_types};
    ghost use Rattle.oidc_types.specs.Vocabulary.{word_or};
    ghost use Rattle.oidc_types.specs.KeepsText.{keeps};
    ghost use Rattle.oidc_types.specs.declared.core_registration.CoreGrantType.TheVariants.{Extension};

    ghost as_ref = { grant_type_text };

    ghost from_str = { word_or grant_type_text grant_types Extension };

    fn from_str(text: String) -> CoreGrantType {
        match CoreGrantType::known(text.as_str()) {
            Some(word) => word,
            None => CoreGrantType::Extension(Text::new(text)),
        }
    }

    fn as_ref(&self) -> &str {
        grant_types!(text_of_any, self)
    }

    ghost keeps_text = { keeps grant_type_text grant_types Extension (λ _. refl) };
}

impl GrantType for CoreGrantType {}

/// Prints the text.
impl fmt::Display for CoreGrantType {
    ghost use Rattle.std.specs.Prelude.{Some};
    ghost use Rattle.oidc_types.specs.CoreRegistration.{grant_type_text};

    ghost output = { λ word. Some (grant_type_text word) };

    fn fmt<W: fmt::Write>(&self, f: &mut fmt::Formatter<W>) -> fmt::Result {
        fmt::Display::fmt(self.as_ref(), f)
    }
}

/// Errors of the registration endpoint (OpenID Connect Dynamic Client Registration 1.0 section 3.3).
#[derive(Debug, Drop, PartialEq, Eq, Hash)]
pub enum CoreRegisterErrorResponseType {
    /// A field of the metadata is invalid.
    InvalidClientMetadata,
    /// A redirect is invalid.
    InvalidRedirectUri,
    /// Any other text.
    Extension(ExtensionText),
}

macro_rules! register_errors {
    ($then:ident, $($value:expr),+) => {
        $then!(
            [$($value),+],
            CoreRegisterErrorResponseType,
            InvalidClientMetadata = "invalid_client_metadata",
            InvalidRedirectUri = "invalid_redirect_uri"
        )
    };
}

impl CoreRegisterErrorResponseType {
    /// The known word of a text.
    fn known(text: &str) -> Option<CoreRegisterErrorResponseType>
        ensures { result ≡ find_word register_error_text register_errors text.now }
    {
        register_errors!(word_of_text, text)
    }

    /// A copy of this word. `AllocError` is want of memory, the one error.
    pub fn clone_in(&self, alloc: Global) -> Result<CoreRegisterErrorResponseType, AllocError>
        ensures copy { IfOk result (λ copy. copy ≡ self.now) }
    {
        register_errors!(copy_of_word, self, alloc)
    }
}

impl Vocabulary for CoreRegisterErrorResponseType {
    ghost use Rattle.std.specs.Prelude.{refl};
    ghost use Rattle.oidc_types.specs.CoreRegistration.{register_error_text, register_errors};
    ghost use Rattle.oidc_types.specs.Vocabulary.{word_or};
    ghost use Rattle.oidc_types.specs.KeepsText.{keeps};
    ghost use Rattle.oidc_types.specs.declared.core_registration.CoreRegisterErrorResponseType.TheVariants.{Extension};

    ghost as_ref = { register_error_text };

    ghost from_str = { word_or register_error_text register_errors Extension };

    fn from_str(text: String) -> CoreRegisterErrorResponseType {
        match CoreRegisterErrorResponseType::known(text.as_str()) {
            Some(word) => word,
            None => CoreRegisterErrorResponseType::Extension(Text::new(text)),
        }
    }

    fn as_ref(&self) -> &str {
        register_errors!(text_of_any, self)
    }

    ghost keeps_text = { keeps register_error_text register_errors Extension (λ _. refl) };
}

impl ErrorResponseType for CoreRegisterErrorResponseType {}

/// Prints the text.
impl fmt::Display for CoreRegisterErrorResponseType {
    ghost use Rattle.std.specs.Prelude.{Some};
    ghost use Rattle.oidc_types.specs.CoreRegistration.{register_error_text};

    ghost output = { λ word. Some (register_error_text word) };

    fn fmt<W: fmt::Write>(&self, f: &mut fmt::Formatter<W>) -> fmt::Result {
        fmt::Display::fmt(self.as_ref(), f)
    }
}

/// Kinds of names for end users (OpenID Connect Core 1.0 section 8).
#[derive(Debug, Drop, PartialEq, Eq, Hash)]
pub enum CoreSubjectIdentifierType {
    /// A name of its own for each client.
    Pairwise,
    /// The same name for all clients.
    Public,
    /// Any other text.
    Extension(ExtensionText),
}

macro_rules! subject_types {
    ($then:ident, $($value:expr),+) => {
        $then!(
            [$($value),+],
            CoreSubjectIdentifierType,
            Pairwise = "pairwise",
            Public = "public"
        )
    };
}

impl CoreSubjectIdentifierType {
    /// The known word of a text.
    fn known(text: &str) -> Option<CoreSubjectIdentifierType>
        ensures { result ≡ find_word subject_type_text subject_types text.now }
    {
        subject_types!(word_of_text, text)
    }

    /// A copy of this word. `AllocError` is want of memory, the one error.
    pub fn clone_in(&self, alloc: Global) -> Result<CoreSubjectIdentifierType, AllocError>
        ensures copy { IfOk result (λ copy. copy ≡ self.now) }
    {
        subject_types!(copy_of_word, self, alloc)
    }
}

impl Vocabulary for CoreSubjectIdentifierType {
    ghost use Rattle.std.specs.Prelude.{refl};
    ghost use Rattle.oidc_types.specs.CoreRegistration.{subject_type_text, subject_types};
    ghost use Rattle.oidc_types.specs.Vocabulary.{word_or};
    ghost use Rattle.oidc_types.specs.KeepsText.{keeps};
    ghost use Rattle.oidc_types.specs.declared.core_registration.CoreSubjectIdentifierType.TheVariants.{Extension};

    ghost as_ref = { subject_type_text };

    ghost from_str = { word_or subject_type_text subject_types Extension };

    fn from_str(text: String) -> CoreSubjectIdentifierType {
        match CoreSubjectIdentifierType::known(text.as_str()) {
            Some(word) => word,
            None => CoreSubjectIdentifierType::Extension(Text::new(text)),
        }
    }

    fn as_ref(&self) -> &str {
        subject_types!(text_of_any, self)
    }

    ghost keeps_text = { keeps subject_type_text subject_types Extension (λ _. refl) };
}

impl SubjectIdentifierType for CoreSubjectIdentifierType {}

/// Prints the text.
impl fmt::Display for CoreSubjectIdentifierType {
    ghost use Rattle.std.specs.Prelude.{Some};
    ghost use Rattle.oidc_types.specs.CoreRegistration.{subject_type_text};

    ghost output = { λ word. Some (subject_type_text word) };

    fn fmt<W: fmt::Write>(&self, f: &mut fmt::Formatter<W>) -> fmt::Result {
        fmt::Display::fmt(self.as_ref(), f)
    }
}
