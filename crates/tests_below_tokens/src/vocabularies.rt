//! Copies of the words of open vocabularies. Which word a text is, the operation `word` of the program `vectors` says.

use oidc_oauth2::{
    CoreErrorResponseType, DeviceCodeErrorResponseType, RevocationErrorResponseType,
};
use oidc_types::{
    CoreApplicationType, CoreAuthDisplay, CoreAuthErrorResponseType, CoreAuthPrompt, CoreClaimType,
    CoreClientAuthMethod, CoreGrantType, CoreRegisterErrorResponseType, CoreResponseMode,
    CoreResponseType, CoreSubjectIdentifierType, Vocabulary,
};
use std::alloc::{AllocError, Global};
use std::fmt;
use std::process::Abort;

/// An open vocabulary whose words are copied.
trait Copied: Vocabulary + PartialEq + fmt::Debug {
    fn copied(&self, alloc: Global) -> Result<Self, AllocError>;
}

impl Copied for CoreApplicationType {
    fn copied(&self, alloc: Global) -> Result<CoreApplicationType, AllocError> {
        self.clone_in(alloc)
    }
}

impl Copied for CoreAuthDisplay {
    fn copied(&self, alloc: Global) -> Result<CoreAuthDisplay, AllocError> {
        self.clone_in(alloc)
    }
}

impl Copied for CoreAuthErrorResponseType {
    fn copied(&self, alloc: Global) -> Result<CoreAuthErrorResponseType, AllocError> {
        self.clone_in(alloc)
    }
}

impl Copied for CoreAuthPrompt {
    fn copied(&self, alloc: Global) -> Result<CoreAuthPrompt, AllocError> {
        self.clone_in(alloc)
    }
}

impl Copied for CoreClaimType {
    fn copied(&self, alloc: Global) -> Result<CoreClaimType, AllocError> {
        self.clone_in(alloc)
    }
}

impl Copied for CoreClientAuthMethod {
    fn copied(&self, alloc: Global) -> Result<CoreClientAuthMethod, AllocError> {
        self.clone_in(alloc)
    }
}

impl Copied for CoreErrorResponseType {
    fn copied(&self, alloc: Global) -> Result<CoreErrorResponseType, AllocError> {
        self.clone_in(alloc)
    }
}

impl Copied for CoreGrantType {
    fn copied(&self, alloc: Global) -> Result<CoreGrantType, AllocError> {
        self.clone_in(alloc)
    }
}

impl Copied for CoreRegisterErrorResponseType {
    fn copied(&self, alloc: Global) -> Result<CoreRegisterErrorResponseType, AllocError> {
        self.clone_in(alloc)
    }
}

impl Copied for CoreResponseMode {
    fn copied(&self, alloc: Global) -> Result<CoreResponseMode, AllocError> {
        self.clone_in(alloc)
    }
}

impl Copied for CoreResponseType {
    fn copied(&self, alloc: Global) -> Result<CoreResponseType, AllocError> {
        self.clone_in(alloc)
    }
}

impl Copied for CoreSubjectIdentifierType {
    fn copied(&self, alloc: Global) -> Result<CoreSubjectIdentifierType, AllocError> {
        self.clone_in(alloc)
    }
}

impl Copied for DeviceCodeErrorResponseType {
    fn copied(&self, alloc: Global) -> Result<DeviceCodeErrorResponseType, AllocError> {
        self.clone_in(alloc)
    }
}

impl Copied for RevocationErrorResponseType {
    fn copied(&self, alloc: Global) -> Result<RevocationErrorResponseType, AllocError> {
        self.clone_in(alloc)
    }
}

/// Texts of every open vocabulary, and others.
const TEXTS: &str = "native|web|page|popup|touch|wap|none|login|consent|select_account|aggregated|\
distributed|normal|client_secret_basic|client_secret_jwt|client_secret_post|\
private_key_jwt|authorization_code|client_credentials|\
urn:ietf:params:oauth:grant-type:device_code|implicit|\
urn:ietf:params:oauth:grant-type:jwt-bearer|password|refresh_token|access_denied|\
account_selection_required|consent_required|interaction_required|invalid_request|\
invalid_request_object|invalid_request_uri|invalid_scope|login_required|\
registration_not_supported|request_not_supported|request_uri_not_supported|server_error|\
temporarily_unavailable|unauthorized_client|unsupported_response_type|\
invalid_client_metadata|invalid_redirect_uri|query|fragment|form_post|code|id_token|\
token|pairwise|public|invalid_client|invalid_grant|unsupported_grant_type|\
authorization_pending|slow_down|expired_token|unsupported_token_type||Native|native |web\0|ünknown";

/// Whether a word is none that its vocabulary names.
fn is_extension<W: Copied>(rt: &impl Abort, alloc: Global, word: &W) -> bool {
    let shown = format!(in alloc; "{word:?}").expect(rt, "memory");
    shown.as_str().contains("Extension(")
}

/// How many of the texts are known words by their copies. `None` where a copy isn't its word, or has another text.
fn known_words<W: Copied>(rt: &impl Abort, alloc: Global) -> Option<usize> {
    let mut known = 0usize;
    for text in TEXTS.split('|') {
        let word = W::from_str(String::from_str(alloc, text).expect(rt, "memory"));
        let copy = word.copied(alloc).expect(rt, "memory");
        if copy != word || copy.as_ref() != text {
            return None;
        }
        if !is_extension(rt, alloc, &copy) {
            known = known.saturating_add(1);
        }
    }
    Some(known)
}

// So many words OpenID Connect Core 1.0 names (sections 3.1.2.1, 3.1.2.6, 5.6, 8 and 9), its Dynamic Client
// Registration 1.0 (sections 2 and 3.3), its response types and modes, RFC 6749 (sections 4.1.2.1 and 5.2), RFC 7009
// (section 2.2.1), RFC 7523 and RFC 8628 (sections 3.4 and 3.5).
#[test]
fn copies_of_words_are_the_words(rt: HostRuntime) {
    let alloc = rt.alloc();
    let known = [
        known_words::<CoreApplicationType>(&rt, alloc),
        known_words::<CoreAuthDisplay>(&rt, alloc),
        known_words::<CoreAuthErrorResponseType>(&rt, alloc),
        known_words::<CoreAuthPrompt>(&rt, alloc),
        known_words::<CoreClaimType>(&rt, alloc),
        known_words::<CoreClientAuthMethod>(&rt, alloc),
        known_words::<CoreErrorResponseType>(&rt, alloc),
        known_words::<CoreGrantType>(&rt, alloc),
        known_words::<CoreRegisterErrorResponseType>(&rt, alloc),
        known_words::<CoreResponseMode>(&rt, alloc),
        known_words::<CoreResponseType>(&rt, alloc),
        known_words::<CoreSubjectIdentifierType>(&rt, alloc),
        known_words::<DeviceCodeErrorResponseType>(&rt, alloc),
        known_words::<RevocationErrorResponseType>(&rt, alloc),
    ];
    let wanted = [
        Some(2),
        Some(4),
        Some(16),
        Some(4),
        Some(3),
        Some(5),
        Some(6),
        Some(7),
        Some(2),
        Some(3),
        Some(4),
        Some(2),
        Some(10),
        Some(7),
    ];
    assert_eq!(rt; known, wanted);
}
