//! Documents of providers, the algorithm that is pinned, the requests and their answers.

use crate::key_sets::{keys_line, refused_at, refused_set};
use case_lines::{
    Case, CaseError, algorithm, ok_form, ok_pair, push_some, refused_reading, refused_word,
    request_line, response_in, url_of,
};
use oidc_discovery::{
    AnswerError, DocumentError, DocumentRequest, FetchError, FetchedMetadata, KeySetRequest,
    PinError, ProviderDocument, UrlFault,
};
use oidc_keys::JsonWebKeySet;
use oidc_members::ParseError;
use oidc_oauth2::HttpRequest;
use oidc_pairs::FormText;
use oidc_types::{
    ClosedVocabulary, CoreJwsSigningAlgorithm, IssuerUrl, JsonWebKeySetUrl, Marker, Text, UrlText,
};
use std::alloc::{AllocError, Global};

// The issuer of a line.
fn issuer_in(alloc: Global, case: &Case) -> Result<IssuerUrl, CaseError> {
    url_of(alloc, case.value("issuer"))
}

// The word for what stands against a URL.
fn fault_word(fault: UrlFault) -> &'static str {
    match fault {
        UrlFault::Scheme => "scheme",
        UrlFault::Credentials => "credentials",
        UrlFault::Fragment => "fragment",
        UrlFault::Backslash => "backslash",
        UrlFault::Query => "query",
        UrlFault::Spelling => "spelling",
    }
}

// Why a document isn't taken.
fn refused_document(alloc: Global, error: DocumentError) -> Result<String, CaseError> {
    match error {
        DocumentError::Parse(refusal) => refused_reading(alloc, &ParseError::Refused(refusal)),
        DocumentError::OtherIssuer => refused_word(alloc, "issuer"),
        DocumentError::Url(url, fault) => refused_at(alloc, fault_word(fault), url.name()),
        DocumentError::ChallengeMethods => refused_word(alloc, "challenge_methods"),
        DocumentError::Memory => Err(CaseError::Memory),
    }
}

fn text_of<M: Marker>(url: Option<&UrlText<M>>) -> Option<&str> {
    match url {
        Some(url) => Some(url.as_str()),
        None => None,
    }
}

// Texts with a line feed between each two.
fn joined<M: Marker>(alloc: Global, texts: &[Text<M>]) -> Result<String, AllocError> {
    let mut all = String::new(alloc);
    for (place, text) in texts.iter().enumerate() {
        if place > 0 {
            all.push('\n')?;
        }
        all.push_str(text.as_str())?;
    }
    Ok(all)
}

// The URLs of the table up to that of the keys.
fn push_urls(form: &mut FormText, document: &ProviderDocument) -> Result<(), AllocError> {
    form.push("issuer", document.issuer().as_str())?;
    let authorization = document.authorization_endpoint();
    form.push("authorization_endpoint", authorization.as_str())?;
    push_some(form, "token_endpoint", text_of(document.token_endpoint()))?;
    push_some(
        form,
        "userinfo_endpoint",
        text_of(document.userinfo_endpoint()),
    )?;
    form.push("jwks_uri", document.jwks_uri().as_str())
}

fn push_words(
    alloc: Global,
    form: &mut FormText,
    document: &ProviderDocument,
) -> Result<(), AllocError> {
    let algorithms = joined(alloc, document.signing_algorithms())?;
    form.push("id_token_signing_alg_values_supported", algorithms.as_str())?;
    push_some(
        form,
        "end_session_endpoint",
        text_of(document.end_session_endpoint()),
    )?;
    if let Some(methods) = document.challenge_methods() {
        let methods = joined(alloc, methods)?;
        form.push("code_challenge_methods_supported", methods.as_str())?;
    }
    if let Some(flag) = document.iss_parameter() {
        let flag = if flag { "true" } else { "false" };
        form.push("authorization_response_iss_parameter_supported", flag)?;
    }
    Ok(())
}

fn document_line(alloc: Global, document: &ProviderDocument) -> Result<String, CaseError> {
    let mut form = FormText::new(alloc);
    push_urls(&mut form, document)?;
    push_words(alloc, &mut form, document)?;
    ok_form(alloc, form)
}

/// `metadata`: what a document says of the provider whose issuer is asked for.
pub(crate) fn metadata(alloc: Global, case: &Case) -> Result<String, CaseError> {
    case.check(&["text", "issuer"])?;
    let issuer = issuer_in(alloc, case)?;
    match ProviderDocument::read(alloc, &issuer, case.value("text").as_bytes()) {
        Ok(document) => document_line(alloc, &document),
        Err(error) => refused_document(alloc, error),
    }
}

// The algorithms that a client of this metadata allows.
fn allowed_line(alloc: Global, metadata: &FetchedMetadata) -> Result<String, CaseError> {
    let mut form = FormText::new(alloc);
    for algorithm in metadata.id_token_signing_alg_values_supported() {
        form.push("algorithm", algorithm.as_ref())?;
    }
    ok_form(alloc, form)
}

fn pinned_line(
    alloc: Global,
    document: ProviderDocument,
    algorithm: CoreJwsSigningAlgorithm,
) -> Result<String, CaseError> {
    let keys = JsonWebKeySet::new(Vec::new(alloc));
    match document.into_metadata(alloc, algorithm, keys) {
        Ok(metadata) => allowed_line(alloc, &metadata),
        Err(PinError::NotListed) => refused_word(alloc, "algorithm"),
        Err(PinError::Memory) => Err(CaseError::Memory),
    }
}

/// `pinned`: the algorithms of the metadata under the one that is pinned.
pub(crate) fn pinned(alloc: Global, case: &Case) -> Result<String, CaseError> {
    case.check(&["text", "issuer", "alg"])?;
    let algorithm = algorithm(case.value("alg"))?;
    let issuer = issuer_in(alloc, case)?;
    match ProviderDocument::read(alloc, &issuer, case.value("text").as_bytes()) {
        Ok(document) => pinned_line(alloc, document, algorithm),
        Err(error) => refused_document(alloc, error),
    }
}

fn prepared_line(
    alloc: Global,
    prepared: Result<HttpRequest, FetchError>,
) -> Result<String, CaseError> {
    match prepared {
        Ok(request) => request_line(alloc, &request),
        Err(FetchError::Url(fault)) => refused_word(alloc, fault_word(fault)),
        Err(FetchError::Address) => refused_word(alloc, "uri"),
        Err(FetchError::Memory) => Err(CaseError::Memory),
    }
}

/// `document_request`: the request for the document of a provider.
pub(crate) fn document_request(alloc: Global, case: &Case) -> Result<String, CaseError> {
    case.check(&["issuer"])?;
    let issuer = issuer_in(alloc, case)?;
    prepared_line(alloc, DocumentRequest::new(&issuer).prepare(alloc))
}

/// `key_set_request`: the request for a set of keys.
pub(crate) fn key_set_request(alloc: Global, case: &Case) -> Result<String, CaseError> {
    case.check(&["uri"])?;
    let uri: JsonWebKeySetUrl = url_of(alloc, case.value("uri"))?;
    prepared_line(alloc, KeySetRequest::new(&uri).prepare(alloc))
}

/// `document_answer`: what an answer to the request for a document is worth.
pub(crate) fn document_answer(alloc: Global, case: &Case) -> Result<String, CaseError> {
    case.check_with(&["issuer", "status", "body"], &["type"])?;
    let issuer = issuer_in(alloc, case)?;
    let response = response_in(alloc, case)?;
    match DocumentRequest::new(&issuer).answer(alloc, response) {
        Ok(document) => document_line(alloc, &document),
        Err(AnswerError::TooLong) => refused_word(alloc, "too_long"),
        Err(AnswerError::Status(_)) => refused_word(alloc, "status"),
        Err(AnswerError::MediaType) => refused_word(alloc, "media_type"),
        Err(AnswerError::Refused(error)) => refused_document(alloc, error),
    }
}

/// `key_set_answer`: what an answer to the request for a set of keys is worth.
pub(crate) fn key_set_answer(alloc: Global, case: &Case) -> Result<String, CaseError> {
    case.check_with(&["status", "body"], &["type"])?;
    let response = response_in(alloc, case)?;
    let uri: JsonWebKeySetUrl = url_of(alloc, "https://example/keys")?;
    match KeySetRequest::new(&uri).answer(alloc, response) {
        Ok(set) => keys_line(alloc, &set),
        Err(AnswerError::TooLong) => refused_word(alloc, "too_long"),
        Err(AnswerError::Status(_)) => refused_word(alloc, "status"),
        Err(AnswerError::MediaType) => refused_word(alloc, "media_type"),
        Err(AnswerError::Refused(error)) => refused_set(alloc, error),
    }
}
