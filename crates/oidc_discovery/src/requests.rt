//! The requests for a provider's document and for its set of keys.

ghost use Rattle.std.specs.Prelude.{◌≡◌, IfOk};
ghost use Rattle.url.specs.Parts.{serialize};
ghost use Rattle.oidc_discovery.specs.Requests as spec;

use crate::errors::FetchError;
use crate::urls::{issuer_fault, url_fault};
use http::Method;
use http_header::{ACCEPT, HeaderMap, HeaderMapError, HeaderValue};
use oidc_oauth2::{HttpRequest, MIME_TYPE_JSON, is_address};
use oidc_types::{Body, IssuerUrl, JsonWebKeySetUrl, UrlTextError};
use std::alloc::{AllocError, Global};
use std::marker::Model;
use url::Url;

/// The request for the document of a provider. Contracts see its issuer.
#[derive(Drop)]
pub struct DocumentRequest<'a> {
    pub(crate) issuer: &'a IssuerUrl,
}

impl<'a> Model for DocumentRequest<'a> {
    ghost use Rattle.oidc_types.specs.{TextAndUrl};

    ghost Value = { TextAndUrl };

    ghost view = { λ r. r.issuer.now };
}

/// The request for the set of keys of a provider. Contracts see its URL.
#[derive(Drop)]
pub struct KeySetRequest<'a> {
    uri: &'a JsonWebKeySetUrl,
}

impl<'a> Model for KeySetRequest<'a> {
    ghost use Rattle.oidc_types.specs.{TextAndUrl};

    ghost Value = { TextAndUrl };

    ghost view = { λ r. r.uri.now };
}

fn headers(alloc: Global) -> Result<HeaderMap, HeaderMapError>
    ensures { IfOk result (λ headers. headers ≡ spec.headers) }
{
    let mut headers = HeaderMap::new(alloc);
    headers.insert(ACCEPT, HeaderValue::from_static(MIME_TYPE_JSON))?;
    Ok(headers)
}

// The GET of an address, for JSON.
fn get(alloc: Global, address: &str) -> Result<HttpRequest, AllocError>
    ensures { IfOk result (λ request. request ≡ spec.get_of address.now) }
{
    let address = String::from_str(alloc, address)?;
    match headers(alloc) {
        Err(_) => Err(AllocError),
        Ok(headers) => {
            let body = Body::new(Vec::new(alloc));
            Ok(HttpRequest::new(Method::GET, address, headers, body))
        }
    }
}

// The GET of a URL.
fn get_url(alloc: Global, url: &Url) -> Result<HttpRequest, FetchError>
    ensures { spec.IsPrepared result (spec.get_url url.now) }
{
    if !is_address(url.as_str()) {
        return Err(FetchError::Address);
    }
    let request = get(alloc, url.as_str())?;
    Ok(request)
}

// The URL of the document of an issuer.
#[tactic(auto, using(crate::proofs::Addresses::joined))]
fn document_url(alloc: Global, issuer: &IssuerUrl) -> Result<Url, FetchError>
    ensures { spec.IsUrlOf (spec.document_url issuer.now) result }
{
    match issuer.join(alloc, ".well-known/openid-configuration") {
        Ok(url) => Ok(url),
        Err(UrlTextError::Refused(_)) => Err(FetchError::Address),
        Err(UrlTextError::Memory) => Err(FetchError::Memory),
    }
}

impl<'a> DocumentRequest<'a> {
    /// The request for the document of the provider of that issuer.
    pub fn new(issuer: &'a IssuerUrl) -> Self
        ensures issuer { result ≡ issuer.now }
    {
        DocumentRequest { issuer }
    }

    /// The request as it is handed over: a GET of the issuer's text, without a slash at its end, and
    /// `/.well-known/openid-configuration`. `Url` where the issuer isn't one that is taken; else
    /// `Address` where that address is no URL, has more than 65,534 bytes, or one that isn't from 0x21 to
    /// 0x7E.
    #[tactic(auto, unfolding(crate::specs::Requests::document_request))]
    pub fn prepare(&self, alloc: Global) -> Result<HttpRequest, FetchError>
        ensures prepared { spec.IsPrepared result (spec.document_request self.now) }
    {
        if let Some(fault) = issuer_fault(self.issuer) {
            return Err(FetchError::Url(fault));
        }
        match document_url(alloc, self.issuer) {
            Ok(url) => get_url(alloc, &url),
            Err(error) => Err(error),
        }
    }
}

impl<'a> KeySetRequest<'a> {
    /// The request for the set of keys that is published there.
    pub fn new(uri: &'a JsonWebKeySetUrl) -> Self
        ensures uri { result ≡ uri.now }
    {
        KeySetRequest { uri }
    }

    /// The request as it is handed over: a GET of the URL. `Url` where it isn't one that is taken; else
    /// `Address` where it has more than 65,534 bytes, or one that isn't from 0x21 to 0x7E.
    #[tactic(auto, unfolding(crate::specs::Requests::key_set_request))]
    pub fn prepare(&self, alloc: Global) -> Result<HttpRequest, FetchError>
        ensures prepared { spec.IsPrepared result (spec.key_set_request self.now) }
    {
        if let Some(fault) = url_fault(self.uri) {
            return Err(FetchError::Url(fault));
        }
        get_url(alloc, self.uri.url())
    }
}
