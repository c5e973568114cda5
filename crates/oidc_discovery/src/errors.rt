//! Why a request isn't made, an answer isn't taken, or a document is refused.

ghost use Rattle.std.specs.Prelude.{◌≡◌};
ghost use Rattle.oidc_discovery.specs.Documents.{url_name};

use crate::urls::UrlFault;
use oidc_members::Refusal;
use std::alloc::AllocError;
use std::fmt;
use thiserror::Error;

/// A URL of a document (OpenID Connect Discovery 1.0 section 3; OpenID Connect RP-Initiated Logout 1.0 section 2.1).
#[derive(Clone, Copy, Debug, PartialEq, Eq)]
pub enum MetadataUrl {
    /// `issuer`.
    Issuer,
    /// `authorization_endpoint`.
    AuthorizationEndpoint,
    /// `token_endpoint`.
    TokenEndpoint,
    /// `userinfo_endpoint`.
    UserinfoEndpoint,
    /// `jwks_uri`.
    JwksUri,
    /// `end_session_endpoint`.
    EndSessionEndpoint,
}

impl MetadataUrl {
    /// The name of its field.
    pub fn name(self) -> &'static str
        ensures name { result.now ≡ url_name self }
    {
        match self {
            MetadataUrl::Issuer => "issuer",
            MetadataUrl::AuthorizationEndpoint => "authorization_endpoint",
            MetadataUrl::TokenEndpoint => "token_endpoint",
            MetadataUrl::UserinfoEndpoint => "userinfo_endpoint",
            MetadataUrl::JwksUri => "jwks_uri",
            MetadataUrl::EndSessionEndpoint => "end_session_endpoint",
        }
    }
}

/// Prints the name.
impl fmt::Display for MetadataUrl {
    ghost use Rattle.std.specs.Prelude.{Some};
    ghost use Rattle.oidc_discovery.specs.Documents.{url_name};

    ghost output = { λ url. Some (url_name url) };

    fn fmt<W: fmt::Write>(&self, f: &mut fmt::Formatter<W>) -> fmt::Result {
        f.write_str(self.name())
    }
}

/// Why a document is refused.
#[derive(Debug, Drop, Error, PartialEq, Eq)]
pub enum DocumentError {
    /// The text doesn't read, for this reason.
    #[error("{0}")]
    Parse(Refusal),
    /// The issuer isn't the text that was asked for.
    #[error("another issuer")]
    OtherIssuer,
    /// That URL isn't one that is taken.
    #[error("{0}: {1}")]
    Url(MetadataUrl, UrlFault),
    /// The methods of PKCE challenges are listed, and `S256` isn't among them.
    #[error("challenge methods without S256")]
    ChallengeMethods,
    /// There was no memory.
    #[error("out of memory")]
    Memory,
}

/// Why a request isn't made.
#[derive(Clone, Copy, Debug, Error, PartialEq, Eq)]
pub enum FetchError {
    /// The issuer, or the URL of the keys, isn't one that is taken.
    #[error("{0}")]
    Url(UrlFault),
    /// The address is no URL, is too long, or has other bytes than visible ASCII.
    #[error("an address that is not sent to")]
    Address,
    /// There was no memory.
    #[error("out of memory")]
    Memory,
}

impl From<AllocError> for FetchError {
    ghost use Rattle.std.specs.Prelude.{◌≡◌};
    ghost use Rattle.oidc_discovery.specs.declared.errors.FetchError.TheVariants.{Memory};

    ghost from_gives = { λ _ error. error ≡ Memory };

    fn from(_refused: AllocError) -> FetchError {
        FetchError::Memory
    }
}

/// Why an answer isn't taken. `E` says why its text is refused.
#[derive(Debug, Drop, Error, PartialEq, Eq)]
#[error_bound(E: fmt::Display)]
pub enum AnswerError<E> {
    /// The body has more than 1,048,576 bytes.
    #[error("the response is too long")]
    TooLong,
    /// The status isn't 200, but this one.
    #[error("status {0}")]
    Status(u16),
    /// A media type is there, and it is another one.
    #[error("another media type")]
    MediaType,
    /// The body is refused, or there was no memory to read it.
    #[error("{0}")]
    Refused(E),
}

/// Why no metadata is made of a document.
#[derive(Clone, Copy, Debug, Error, PartialEq, Eq)]
pub enum PinError {
    /// The document doesn't list the algorithm that is pinned.
    #[error("an algorithm that the provider doesn't list")]
    NotListed,
    /// There was no memory.
    #[error("out of memory")]
    Memory,
}
