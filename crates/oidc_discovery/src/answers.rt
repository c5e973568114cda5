//! What the answers to the two requests are worth.

ghost use Rattle.std.specs.Prelude.{◌≡◌, List, Result};
ghost use Rattle.oidc_oauth2.specs.Messages.{seen_response};
ghost use Rattle.oidc_key_sets.specs.KeySets.{IsRead};
ghost use Rattle.oidc_key_sets.specs.Keys.{SeenRsaKey};
ghost use Rattle.oidc_discovery.specs.Answers as spec;
ghost use Rattle.oidc_discovery.specs.Documents.{IsReadFor};

use crate::documents::ProviderDocument;
use crate::errors::{AnswerError, DocumentError};
use crate::requests::{DocumentRequest, KeySetRequest};
use oidc_key_sets::{KeySetError, PublishedKeySet};
use oidc_oauth2::{HttpResponse, MAX_BODY, MIME_TYPE_JSON, MIME_TYPE_JWKS, check_content_type};
use oidc_types::Body;
use std::alloc::Global;

// Whether the media type of an answer is absent, or that of JSON.
fn may_be_document(response: &HttpResponse) -> bool
    ensures { result ≡ spec.is_of_type spec.document_types (seen_response response.now) }
{
    check_content_type(response.headers(), MIME_TYPE_JSON).is_ok()
}

// Whether it is absent, that of JSON, or that of a set of keys.
fn may_be_key_set(response: &HttpResponse) -> bool
    ensures { result ≡ spec.is_of_type spec.key_set_types (seen_response response.now) }
{
    check_content_type(response.headers(), MIME_TYPE_JSON).is_ok()
        || check_content_type(response.headers(), MIME_TYPE_JWKS).is_ok()
}

// The body of an answer, where it has one that is taken.
fn body_in<E>(response: HttpResponse, is_of_type: bool) -> Result<Body, AnswerError<E>>
    ensures { result ≡ spec.body_of_type is_of_type (seen_response response) }
{
    if response.body().as_slice().len() > MAX_BODY {
        return Err(AnswerError::TooLong);
    }
    let status = response.status().as_u16();
    if status != 200 {
        return Err(AnswerError::Status(status));
    }
    if !is_of_type {
        return Err(AnswerError::MediaType);
    }
    Ok(response.into_body())
}

impl<'a> DocumentRequest<'a> {
    /// What the answer is worth. `TooLong`: the body has more than 1,048,576 bytes. `Status`: the status
    /// isn't 200. `MediaType`: a media type is there, and it isn't `application/json`. Else the body is
    /// read as [`ProviderDocument::read`] says.
    #[tactic(auto, unfolding(crate::specs::Answers::body_in))]
    pub fn answer(
        &self,
        alloc: Global,
        response: HttpResponse,
    ) -> Result<ProviderDocument, AnswerError<DocumentError>>
        ensures answer { let read = IsReadFor self.now.text in
            let body = spec.body_in spec.document_types (seen_response response) in
            spec.IsJudged read body result }
    {
        let is_of_type = may_be_document(&response);
        let body = body_in::<DocumentError>(response, is_of_type)?;
        match ProviderDocument::read(alloc, self.issuer, body.as_slice()) {
            Ok(document) => Ok(document),
            Err(error) => Err(AnswerError::Refused(error)),
        }
    }
}

impl<'a> KeySetRequest<'a> {
    /// What the answer is worth. `TooLong`: the body has more than 1,048,576 bytes. `Status`: the status
    /// isn't 200. `MediaType`: a media type is there, and it is neither `application/json` nor
    /// `application/jwk-set+json`. Else the body is read as [`PublishedKeySet::read`] says.
    #[tactic(auto, unfolding(crate::specs::Answers::body_in))]
    pub fn answer(
        &self,
        alloc: Global,
        response: HttpResponse,
    ) -> Result<PublishedKeySet, AnswerError<KeySetError>>
        ensures answer { let body = spec.body_in spec.key_set_types (seen_response response) in
            spec.IsJudged IsRead body result }
        // Each refusal of a text has its cause, and each cause its refusal.
        ensures caused { (meant : Result (List SeenRsaKey) KeySetError)
            → let body = spec.body_in spec.key_set_types (seen_response response) in
            spec.IsJudged (spec.IsAsMeant meant) body result }
    {
        let is_of_type = may_be_key_set(&response);
        let body = body_in::<KeySetError>(response, is_of_type)?;
        match PublishedKeySet::read(alloc, body.as_slice()) {
            Ok(set) => Ok(set),
            Err(error) => Err(AnswerError::Refused(error)),
        }
    }
}
