//! What code that is generic over open vocabularies knows of them.

ghost use Rattle.std.specs.Prelude.{◌≡◌, IfOk, codes};

use crate::text::{Marker, Text};
use crate::texts::{CoreClaimNameMarker, OAuth2ResponseType};
use crate::vocabulary::Vocabulary;
use std::alloc::{AllocError, Global};

/// The name of [`ExtensionText`].
#[derive(Drop)]
pub struct ExtensionTextMarker;

impl Marker for ExtensionTextMarker {
    ghost name = { codes "ExtensionText" };

    fn name() -> &'static str {
        "ExtensionText"
    }
}

/// A text that is no known word of its vocabulary.
pub type ExtensionText = Text<ExtensionTextMarker>;

/// Kinds of clients (OpenID Connect Dynamic Client Registration 1.0 section 2).
pub trait ApplicationType: Vocabulary {}

/// Ways in which the provider shows its pages (OpenID Connect Core 1.0 section 3.1.2.1).
pub trait AuthDisplay: Vocabulary {}

/// What the provider asks the end user for (OpenID Connect Core 1.0 section 3.1.2.1).
pub trait AuthPrompt: Vocabulary {}

/// Names of claims (OpenID Connect Core 1.0 section 5.1).
pub trait ClaimName: Vocabulary {}

/// Ways in which a claim comes (OpenID Connect Core 1.0 section 5.6).
pub trait ClaimType: Vocabulary {}

/// Ways in which a client authenticates (OpenID Connect Core 1.0 section 9).
pub trait ClientAuthMethod: Vocabulary {}

/// Kinds of grants for a token (RFC 6749 section 1.3).
pub trait GrantType: Vocabulary {}

/// Ways in which the authorization response comes (OAuth 2.0 Multiple Response Type Encoding
/// Practices section 2.1).
pub trait ResponseMode: Vocabulary {}

/// What the authorization endpoint is asked for (RFC 6749 section 3.1.1).
pub trait ResponseType: Vocabulary {
    /// The text of this type, as the authorization endpoint takes it. `AllocError` is want of
    /// memory, the one error.
    fn to_oauth2(&self, alloc: Global) -> Result<OAuth2ResponseType, AllocError>
        ensures text { IfOk result (λ text. text ≡ Self.as_ref self.now) }
    {
        let text = String::from_str(alloc, self.as_ref())?;
        Ok(Text::new(text))
    }
}

/// Kinds of names for end users (OpenID Connect Core 1.0 section 8).
pub trait SubjectIdentifierType: Vocabulary {}

/// Errors that an endpoint answers (RFC 6749 sections 4.1.2.1 and 5.2).
pub trait ErrorResponseType: Vocabulary {}

impl Vocabulary for Text<CoreClaimNameMarker> {
    ghost use Rattle.std.specs.Prelude.{refl};

    ghost as_ref = { λ name. name };

    ghost from_str = { λ text. text };

    fn from_str(text: String) -> Text<CoreClaimNameMarker> {
        Text::new(text)
    }

    fn as_ref(&self) -> &str {
        self.as_str()
    }

    ghost keeps_text = { λ _. refl };
}

impl ClaimName for Text<CoreClaimNameMarker> {}
