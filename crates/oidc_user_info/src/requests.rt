//! The request for user info (OpenID Connect Core 1.0 section 5.3.1).

ghost use Rattle.std.specs.Prelude.{◌≡◌, ◌≤◌, false, true, codes, None, IfErr, IfOk};
ghost use Rattle.http_header.specs.FieldValue.{FieldValue, plain_value};
ghost use Rattle.oidc_oauth2.specs.Exchanges.{answer_of, known, IsRequestBlamed};
ghost use Rattle.oidc_oauth2.specs.HttpUtils.{bearer_of};
ghost use Rattle.oidc_oauth2.specs.Replies.{Gives};
ghost use Rattle.oidc_tokens.specs.Signatures.{meanings};
ghost use Rattle.oidc_user_info.specs.InfoAnswers.{readers};
ghost use Rattle.oidc_user_info.specs.InfoRequests as spec;
ghost use Rattle.oidc_user_info.specs.InfoRequests.{info_request};
ghost use Rattle.oidc_user_info.specs.InfoErrors.{info_errors, is_fault};
ghost use Rattle.oidc_user_info.specs.InfoRuns.{reply_of, RanInfoRequest};
ghost use Rattle.oidc_user_info.specs.declared.requests.UserInfoResponseType.TheVariants.{Json};

use crate::claims::UserInfoClaims;
use crate::errors::{InfoOther, PrepareInfoError, UserInfoError};
use http::Method;
use http_header::{ACCEPT, AUTHORIZATION, HeaderMap, HeaderMapError, HeaderValue};
use oidc_claims::{AdditionalClaims, GenderClaim};
use oidc_keys::JsonWebKey;
use oidc_members::Reading;
use oidc_oauth2::{
    BearerError, HttpRequest, HttpResponse, MIME_TYPE_JSON, MIME_TYPE_JWT, SyncHttpClient,
    auth_bearer, exchange, is_address,
};
use oidc_tokens::UserInfoVerifier;
use oidc_types::{AccessToken, Body, JweContentEncryptionAlgorithm, UserInfoUrl};
use std::alloc::{AllocError, Global};
use std::marker::Model;

/// The media type that is asked for. A provider may answer with another one.
#[derive(Clone, Copy, Debug, Drop, PartialEq, Eq)]
pub enum UserInfoResponseType {
    /// `application/json`: an object.
    Json,
    /// `application/jwt`: a JSON Web Token.
    Jwt,
}

/// A request for user info. Contracts see the text of its endpoint as it was given, the access token, the
/// media type that it asks for, whether the answer has to be signed, its reading, and the verifier.
///
/// It has no `Debug`, since it holds an access token.
#[derive(Drop)]
pub struct UserInfoRequest<'a, JE, K: JsonWebKey> {
    endpoint: &'a UserInfoUrl,
    access_token: AccessToken,
    verifier: UserInfoVerifier<'a, JE, K>,
    is_signature_required: bool,
    reading: Reading,
    response_type: UserInfoResponseType,
}

impl<'a, JE, K: JsonWebKey> Model for UserInfoRequest<'a, JE, K> {
    ghost use Rattle.oidc_user_info.specs.InfoRequests.{SeenInfoRequest};

    ghost Value = { SeenInfoRequest K };

    ghost view = { λ r. record {
      address = r.endpoint.now.text;
      access_token = r.access_token;
      response_type = r.response_type;
      demand = record {
        signed = r.is_signature_required;
        reading = r.reading;
        verifier = r.verifier;
      };
    } };
}

impl<'a, JE, K: JsonWebKey> UserInfoRequest<'a, JE, K> {
    /// The request to an endpoint with this access token, for an answer that the verifier accepts. It asks
    /// for JSON and takes answers that aren't signed, under the strict reading. It takes no memory.
    pub fn new(
        endpoint: &'a UserInfoUrl,
        access_token: AccessToken,
        verifier: UserInfoVerifier<'a, JE, K>,
    ) -> Self
        ensures { result ≡ record {
          address = endpoint.now.text;
          access_token = access_token;
          response_type = Json;
          demand = record {
            signed = false;
            reading = Reading.STRICT;
            verifier = verifier.entry;
          };
        } }
    {
        UserInfoRequest {
            endpoint,
            access_token,
            verifier,
            is_signature_required: false,
            reading: Reading::STRICT,
            response_type: UserInfoResponseType::Json,
        }
    }

    /// Whether an answer has to be signed.
    pub fn require_signed_response(mut self, required: bool) -> Self
        ensures { let demand = record self.entry.demand { signed = required } in
            result ≡ record self.entry { demand = demand } }
    {
        self.is_signature_required = required;
        self
    }

    /// With this reading of the claims in the answer, signed or not. At first it is strict.
    pub fn set_reading(mut self, reading: Reading) -> Self
        ensures { let demand = record self.entry.demand { reading = reading } in
            result ≡ record self.entry { demand = demand } }
    {
        self.reading = reading;
        self
    }

    /// Whether the claims of a signed answer have to name the issuer.
    pub fn require_issuer_match(self, required: bool) -> Self
        ensures { let verifier = record self.entry.demand.verifier { issuer_match = required } in
            let demand = record self.entry.demand { verifier = verifier } in
            result ≡ record self.entry { demand = demand } }
    {
        UserInfoRequest {
            endpoint: self.endpoint,
            access_token: self.access_token,
            verifier: self.verifier.require_issuer_match(required),
            is_signature_required: self.is_signature_required,
            reading: self.reading,
            response_type: self.response_type,
        }
    }

    /// Whether the claims of a signed answer have to name the client, and nobody else, as their audience.
    pub fn require_audience_match(self, required: bool) -> Self
        ensures { let verifier = record self.entry.demand.verifier { audience_match = required } in
            let demand = record self.entry.demand { verifier = verifier } in
            result ≡ record self.entry { demand = demand } }
    {
        UserInfoRequest {
            endpoint: self.endpoint,
            access_token: self.access_token,
            verifier: self.verifier.require_audience_match(required),
            is_signature_required: self.is_signature_required,
            reading: self.reading,
            response_type: self.response_type,
        }
    }

    /// The media type that is asked for.
    pub fn set_response_type(mut self, kind: UserInfoResponseType) -> Self
        ensures { result ≡ record self.entry { response_type = kind } }
    {
        self.response_type = kind;
        self
    }

    // Whether an answer has to be signed.
    pub(crate) fn is_signature_required(&self) -> bool
        ensures { result ≡ self.now.demand.signed }
    {
        self.is_signature_required
    }

    // How claims are read.
    pub(crate) fn reading(&self) -> Reading
        ensures { result ≡ self.now.demand.reading }
    {
        self.reading
    }

    // What is asked of claims.
    pub(crate) fn verifier(&self) -> &UserInfoVerifier<'a, JE, K>
        ensures { result.now ≡ self.now.demand.verifier }
    {
        &self.verifier
    }

    /// The request as it is handed over: a GET of the endpoint's text as it was given. `Bearer` exactly where
    /// the access token has a byte outside 0x09 and 0x20 to 0x7E; else `Uri` exactly where the text has more
    /// than 65,534 bytes, or one that isn't from 0x21 to 0x7E.
    #[tactic(auto, unfolding(crate::specs::InfoRequests::info_request))]
    pub fn prepare(&self, alloc: Global) -> Result<HttpRequest, PrepareInfoError>
        ensures prepared { spec.Prepares result (info_request self.now) }
    {
        match auth_bearer(alloc, &self.access_token) {
            Err(BearerError::Value) => Err(PrepareInfoError::Bearer),
            Err(BearerError::Memory) => Err(PrepareInfoError::Memory),
            Ok((_, credentials)) => {
                if !is_address(self.endpoint.as_str()) {
                    return Err(PrepareInfoError::Uri);
                }
                let request = get(
                    alloc,
                    self.endpoint.as_str(),
                    self.response_type,
                    credentials,
                )?;
                Ok(request)
            }
        }
    }
}

// The value that asks for a media type.
fn accept_value(kind: UserInfoResponseType) -> HeaderValue
    ensures { result ≡ plain_value (spec.media_type kind) }
{
    match kind {
        UserInfoResponseType::Json => HeaderValue::from_static(MIME_TYPE_JSON),
        UserInfoResponseType::Jwt => HeaderValue::from_static(MIME_TYPE_JWT),
    }
}

// The headers of a request, with these credentials.
fn headers_with(
    alloc: Global,
    kind: UserInfoResponseType,
    credentials: HeaderValue,
) -> Result<HeaderMap, HeaderMapError>
    ensures { IfOk result (λ headers. headers ≡ spec.headers_with kind credentials) }
{
    let mut headers = HeaderMap::new(alloc);
    headers.insert(ACCEPT, accept_value(kind))?;
    headers.insert(AUTHORIZATION, credentials)?;
    Ok(headers)
}

// The GET of an address.
fn get(
    alloc: Global,
    address: &str,
    kind: UserInfoResponseType,
    credentials: HeaderValue,
) -> Result<HttpRequest, AllocError>
    ensures { IfOk result
        (λ request. request ≡ spec.get_with address.now kind credentials) }
{
    let address = String::from_str(alloc, address)?;
    match headers_with(alloc, kind, credentials) {
        Err(_) => Err(AllocError),
        Ok(headers) => {
            let body = Body::new(Vec::new(alloc));
            Ok(HttpRequest::new(Method::GET, address, headers, body))
        }
    }
}

impl<'a, JE: JweContentEncryptionAlgorithm, K: JsonWebKey> UserInfoRequest<'a, JE, K> {
    // The reply by what came of the request.
    fn judge_answer<AC: AdditionalClaims, GC: GenderClaim, RE>(
        &self,
        alloc: Global,
        came: Result<HttpResponse, RE>,
    ) -> Result<UserInfoClaims<AC, GC>, UserInfoError<RE>>
        ensures gives { let k = meanings K.JsonWebKey K.KeyUse.JsonWebKeyUse
            K.SigningAlgorithm.JwsSigningAlgorithm.own K.SigningAlgorithm.ClosedVocabulary
            K.SigningAlgorithm.KeyType.ClosedVocabulary in
            let r = readers AC.read_of GC.read_of JE.from_str K.SigningAlgorithm.from_str k in
            Gives info_errors result (reply_of r self.now.demand (answer_of came)) }
        ensures fault { IfErr result (λ e. is_fault e ≡ true → answer_of came ≡ None) }
    {
        match came {
            Ok(response) => self.answer(alloc, response),
            Err(error) => Err(UserInfoError::Request(error)),
        }
    }

    /// Hands the request of `prepare` over, and answers what the response is worth, as
    /// [`answer`](UserInfoRequest::answer) says. On `Bearer` and `Uri` there is no request; a transport that keeps
    /// a log shows that nothing was handed over, and on `Memory` whether something was. `Request` comes only where
    /// the transport failed.
    pub fn request<AC: AdditionalClaims, GC: GenderClaim, C: SyncHttpClient>(
        self,
        alloc: Global,
        http: &mut C,
    ) -> Result<UserInfoClaims<AC, GC>, UserInfoError<C::Error>>
        requires { C.ready http.old }
        ensures again { C.ready http.new }
        ensures ran { let k = meanings K.JsonWebKey K.KeyUse.JsonWebKeyUse
            K.SigningAlgorithm.JwsSigningAlgorithm.own K.SigningAlgorithm.ClosedVocabulary
            K.SigningAlgorithm.KeyType.ClosedVocabulary in
            let r = readers AC.read_of GC.read_of JE.from_str K.SigningAlgorithm.from_str k in
            let before = known (C.log http.old) (C.script http.old) in
            let after = known (C.log http.new) (C.script http.new) in
            RanInfoRequest r self.entry before after result }
        ensures never_falls { C.faults http.old ≤ C.faults http.new }
        ensures blamed { let before = C.faults http.old in
            IsRequestBlamed info_errors before (C.faults http.new) result }
    {
        match self.prepare(alloc) {
            Err(PrepareInfoError::Bearer) => Err(UserInfoError::Other(InfoOther::Bearer)),
            Err(PrepareInfoError::Uri) => Err(UserInfoError::Other(InfoOther::Uri)),
            Err(PrepareInfoError::Memory) => Err(UserInfoError::Memory),
            Ok(request) => {
                let came = exchange(alloc, http, request)?;
                self.judge_answer(alloc, came)
            }
        }
    }
}
