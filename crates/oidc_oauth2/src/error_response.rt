//! Error responses (RFC 6749 section 5.2).

ghost use Rattle.std.specs.Prelude.{◌≡◌, List, Result, Some, [], option_map};
ghost use Rattle.std.specs.Option.{option_copied};
ghost use Rattle.std.specs.String.{string_bytes};
ghost use Rattle.oidc_members.specs.Answers.{Answers};
ghost use Rattle.oidc_members.specs.Seen.{SeenMember};
ghost use Rattle.oidc_members.specs.declared.refusal.Refusal.{Refusal};
ghost use Rattle.oidc_oauth2.specs.ErrorFields.{error_fields};
ghost use Rattle.oidc_oauth2.specs.ErrorResponse as spec;

use crate::error_types::{DeviceCodeErrorResponseType, RevocationErrorResponseType};
use oidc_members::{FieldName, Member, Members, ParseError, Reading};
use oidc_readers::{MemberReader, Once, read_fields};
use oidc_types::{ErrorResponseType, ExtensionText};
use std::alloc::Global;
use std::fmt;
use std::marker::Model;

/// A response that says why a request was refused.
pub trait ErrorResponse: Drop {
    /// What a list of members reads as, or why it is refused.
    ghost read_of: { List SeenMember → Result Self Refusal };

    /// Reads a response of its members.
    fn read(alloc: Global, members: &Members) -> Result<Self, ParseError>
        ensures response { Answers (read_of members.now.list) result };
}

/// An error response with this type of errors. `Debug` does not show it.
#[derive(Drop)]
pub struct StandardErrorResponse<T: ErrorResponseType> {
    error: T,
    error_description: Option<FieldName>,
    error_uri: Option<FieldName>,
}

/// The error response of a token endpoint while a device waits (RFC 8628 section 3.5).
pub type DeviceCodeErrorResponse = StandardErrorResponse<DeviceCodeErrorResponseType>;

/// The error response of a revocation endpoint (RFC 7009 section 2.2.1).
pub type CoreRevocationErrorResponse = StandardErrorResponse<RevocationErrorResponseType>;

impl<T: ErrorResponseType> Model for StandardErrorResponse<T> {
    ghost use Rattle.oidc_oauth2.specs.ErrorResponse.{SeenError, seen_error_code};

    ghost Value = { SeenError T };

    ghost coded = { seen_error_code T.code };

    ghost view = { λ e. record {
      error = e.error;
      error_description = e.error_description;
      error_uri = e.error_uri;
    } };
}

/// Prints `StandardErrorResponse([redacted])`.
impl<T: ErrorResponseType> fmt::Debug for StandardErrorResponse<T> {
    ghost use Rattle.std.specs.Prelude.{Some, codes};

    ghost debug_output = { λ _. Some (codes "StandardErrorResponse([redacted])") };

    fn fmt<W: fmt::Write>(&self, f: &mut fmt::Formatter<W>) -> fmt::Result {
        f.write_str("StandardErrorResponse([redacted])")
    }
}

// The fields, as they are read.
#[derive(Drop)]
pub(crate) struct ErrorFields {
    error: Once<ExtensionText>,
    error_description: Once<Option<FieldName>>,
    error_uri: Once<Option<FieldName>>,
}

impl ErrorFields {
    #[tactic(auto, unfolding(crate::specs::Slots::slot))]
    fn new() -> Self
        ensures { result ≡ error_fields [] }
    {
        ErrorFields {
            error: Once::new(),
            error_description: Once::new(),
            error_uri: Once::new(),
        }
    }
}

impl MemberReader for ErrorFields {
    ghost fault = { λ _. spec.error_rule };

    ghost state = { λ _. error_fields };

    fn take(
        &mut self,
        alloc: Global,
        member: &Member,
        _reading: Reading,
    ) -> Result<(), ParseError> {
        self.error
            .take(alloc, "error", member)
            .and(
                self.error_description
                    .take(alloc, "error_description", member),
            )
            .and(self.error_uri.take(alloc, "error_uri", member))
    }
}

// A text that is kept, where there is one.
fn kept(text: Option<String>) -> Option<FieldName>
    ensures { result ≡ option_map string_bytes text }
{
    match text {
        None => None,
        Some(text) => Some(FieldName::new(text)),
    }
}

// The text of a field, where there is one.
pub(crate) fn text_in(field: &Option<FieldName>) -> Option<&str>
    ensures { option_copied result ≡ field.now }
{
    match field {
        None => None,
        Some(text) => Some(text.as_str()),
    }
}

impl<T: ErrorResponseType> StandardErrorResponse<T> {
    /// A response of these three. It takes no memory.
    pub fn new(error: T, description: Option<String>, uri: Option<String>) -> Self
        ensures kept { result ≡ record {
          error = error;
          error_description = option_map string_bytes description;
          error_uri = option_map string_bytes uri;
        } }
    {
        StandardErrorResponse {
            error,
            error_description: kept(description),
            error_uri: kept(uri),
        }
    }

    /// The error.
    pub fn error(&self) -> &T
        ensures error { result.now ≡ self.now.error }
    {
        &self.error
    }

    /// What the server's author says of it, where there is such a text.
    pub fn error_description(&self) -> Option<&str>
        ensures text { option_copied result ≡ self.now.error_description }
    {
        text_in(&self.error_description)
    }

    /// The address of a page on it, where there is one. It is a plain text.
    pub fn error_uri(&self) -> Option<&str>
        ensures text { option_copied result ≡ self.now.error_uri }
    {
        text_in(&self.error_uri)
    }
}

impl<T: ErrorResponseType> ErrorResponse for StandardErrorResponse<T> {
    ghost read_of = { spec.error_response_of T.from_str };

    #[tactic(auto, unfolding(crate::specs::ErrorResponse::error_response_of, crate::specs::Slots::slot))]
    fn read(alloc: Global, members: &Members) -> Result<Self, ParseError> {
        let fields = read_fields(alloc, ErrorFields::new(), members)?;
        let error = fields.error.required(alloc, "error")?;
        Ok(StandardErrorResponse {
            error: T::from_str(error.into_string()),
            error_description: fields.error_description.optional(),
            error_uri: fields.error_uri.optional(),
        })
    }
}
