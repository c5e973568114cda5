//! The client of the drill, its lines, and what its provider answers.
ghost use Rattle.std.specs.Prelude.{◌≡◌, [], ◌∷◌, map, IfOk, IsSome, Some};
ghost use Rattle.std.specs.String.{string_bytes};
ghost use Rattle.oidc_oauth2.specs.Messages.{seen_response};
ghost use Rattle.oidc_oauth2.specs.Recorded.{seen_answer};
ghost use Rattle.oidc_jwt.specs.Issuing.{Issues};
ghost use Rattle.oidc_cli.specs.Values.{url_of_text};
ghost use Rattle.oidc_cli.specs.Drill as spec;

use crate::beside::beside;
use crate::events::{BeginLine, CallbackLine, ClientLine, LineError, ProviderUrls};
use crate::logins::client_of;
use crate::script::answers::response_with;
use crate::script::values::url_of;
use http::StatusCode;
use http_header::HeaderValue;
use jiff::Timestamp;
use oidc_claims::{EmptyAdditionalClaims, StandardClaims};
use oidc_keys::CoreHmacKey;
use oidc_login::LoginClient;
use oidc_members::Reading;
use oidc_oauth2::{Answer, CoreTokenType, EmptyExtraTokenFields, HttpResponse};
use oidc_tokens::{
    CoreIdToken, CoreIdTokenClaims, CoreIdTokenFields, CoreTokenResponse, IdToken, IdTokenClaims,
    JsonWebTokenError,
};
use oidc_types::{
    AccessToken, Audience, ClientId, ClientSecret, CoreJwsSigningAlgorithm, CsrfToken, IssuerUrl,
    Marker, Nonce, PkceCodeVerifier, SubjectIdentifier, UrlText,
};
use std::alloc::{AllocError, Global};

// ---- the client

// The URL of a text that the URL Standard takes.
fn url_at<M: Marker>(alloc: Global, text: &str) -> Result<UrlText<M>, AllocError>
    requires taken { IsSome (url_of_text text.now) }
    ensures { IfOk result (λ url. url_of_text text.now ≡ Some url) }
{
    match url_of(alloc, text) {
        Ok(url) => Ok(url),
        Err(LineError::Memory) => Err(AllocError),
        Err(LineError::NoEvent) => unreachable!(),
    }
}

/// The issuer of the drill's tokens.
pub fn issuer(alloc: Global) -> Result<IssuerUrl, AllocError>
    ensures { IfOk result (λ url. url ≡ spec.issuer) }
{
    url_at(alloc, "https://example")
}

fn provider_urls(alloc: Global) -> Result<ProviderUrls, AllocError>
    ensures { IfOk result (λ urls. urls ≡ spec.client_line.provider) }
{
    let issuer = issuer(alloc)?;
    let issuers = beside(issuer, url_at(alloc, "https://example"))?;
    let with_auth = beside(issuers, url_at(alloc, "https://example/authorize"))?;
    let with_token = beside(with_auth, url_at(alloc, "https://example/token"))?;
    let all = beside(with_token, url_at(alloc, "https://example/userinfo"))?;
    let ((((issuer, jwks_uri), auth), token), user_info) = all;
    Ok(ProviderUrls {
        issuer,
        jwks_uri,
        auth,
        token,
        user_info: Some(user_info),
    })
}

/// The client of the drill.
pub fn client(alloc: Global) -> Result<LoginClient, AllocError>
    ensures { IfOk result (λ client. client ≡ spec.drill_client) }
{
    let id = ClientId::new(String::from_str(alloc, "aaa")?);
    let secret = ClientSecret::new(String::from_str(alloc, "bbb")?);
    let algorithms = [CoreJwsSigningAlgorithm::HmacSha256].to_vec(alloc)?;
    let provider = provider_urls(alloc)?;
    let line = ClientLine {
        id,
        secret: Some(secret),
        provider,
        redirect: None,
        algorithms,
        reading: Reading::STRICT,
    };
    Ok(client_of(alloc, line))
}

// ---- the lines of the login with number i

// A letter and the number.
fn numbered(alloc: Global, letter: &str, i: u16) -> Result<String, AllocError>
    ensures { IfOk result (λ text. string_bytes text ≡ spec.numbered letter.now i) }
{
    format!(in alloc; "{letter}{i}")
}

// `v`, and the number in 42 digits.
fn verifier(alloc: Global, i: u16) -> Result<String, AllocError>
    ensures { IfOk result (λ text. string_bytes text ≡ spec.verifier i) }
{
    format!(in alloc; "v{i:042}")
}

/// Its begin line.
pub fn drill_begin(alloc: Global, i: u16) -> Result<BeginLine, AllocError>
    ensures { IfOk result (λ line. line ≡ spec.drill_begin i) }
{
    let state = CsrfToken::new(numbered(alloc, "s", i)?);
    let nonce = Nonce::new(numbered(alloc, "n", i)?);
    let verifier = PkceCodeVerifier::new(verifier(alloc, i)?);
    Ok(BeginLine {
        state,
        nonce,
        redirect: None,
        verifier,
        user_info: None,
    })
}

// A moment of whole seconds since the Unix epoch.
fn at_second(second: u16) -> Timestamp
    ensures { result.nanosecond ≡ spec.at_second second }
{
    match Timestamp::from_second(i64::from(second)) {
        Ok(moment) => moment,
        Err(_) => unreachable!(),
    }
}

// Its callback line, with these answers.
fn callback_line(alloc: Global, i: u16, answers: Vec<Answer>) -> Result<CallbackLine, AllocError>
    ensures { let given = map seen_answer answers.items in
        IfOk result (λ line. line ≡ spec.callback_line i given) }
{
    let query = format!(in alloc; "code=c{i}&state=s{i}")?;
    Ok(CallbackLine {
        now: at_second(1000),
        query,
        answers,
    })
}

/// Its first callback, which is answered.
pub fn first_line(alloc: Global, issuer: &IssuerUrl, i: u16) -> Result<CallbackLine, AllocError>
    requires issuer { issuer.now ≡ spec.issuer }
    ensures { IfOk result (λ line. line ≡ spec.callback_line i (spec.answer i ∷ [])) }
{
    let answer = answer(alloc, issuer, i)?;
    let mut answers = Vec::new(alloc);
    answers.push(answer)?;
    callback_line(alloc, i, answers)
}

/// The same callback once more, which gets no answer.
pub fn again_line(alloc: Global, i: u16) -> Result<CallbackLine, AllocError>
    ensures { IfOk result (λ line. line ≡ spec.callback_line i []) }
{
    callback_line(alloc, i, Vec::new(alloc))
}

// ---- what the provider answers

// The claims of its ID token.
fn claims(alloc: Global, issuer: &IssuerUrl, i: u16) -> Result<CoreIdTokenClaims, AllocError>
    requires issuer { issuer.now ≡ spec.issuer }
    ensures { IfOk result (λ claims. claims ≡ spec.claims i) }
{
    let subject = SubjectIdentifier::new(numbered(alloc, "u", i)?);
    let nonce = Nonce::new(numbered(alloc, "n", i)?);
    let mut audiences = Vec::new(alloc);
    audiences.push(Audience::new(String::from_str(alloc, "aaa")?))?;
    let issuer = issuer.clone_in(alloc)?;
    let claims: CoreIdTokenClaims = IdTokenClaims::new(
        issuer,
        audiences,
        at_second(2000),
        at_second(900),
        StandardClaims::new(subject),
        EmptyAdditionalClaims {},
    );
    Ok(claims.set_nonce(Some(nonce)))
}

// Its ID token, with the hash of its access token.
#[tactic(auto, unfolding(crate::specs::Drill::token))]
fn token(
    alloc: Global,
    issuer: &IssuerUrl,
    i: u16,
    access_token: &AccessToken,
) -> Result<CoreIdToken, JsonWebTokenError>
    requires issuer { issuer.now ≡ spec.issuer }
    requires access_token { access_token.now ≡ spec.access_token i }
    ensures { Issues (spec.token i) result }
{
    let Ok(secret) = Vec::from_slice(alloc, b"bbb") else {
        return Err(JsonWebTokenError::Memory);
    };
    let Ok(claims) = claims(alloc, issuer, i) else {
        return Err(JsonWebTokenError::Memory);
    };
    let key = CoreHmacKey::new(secret);
    let alg = CoreJwsSigningAlgorithm::HmacSha256;
    IdToken::new(alloc, claims, &key, alg, Some(access_token), None)
}

// The token response, whose fields beside those of RFC 6749 are these.
fn token_response(access_token: AccessToken, token: CoreIdToken) -> CoreTokenResponse
    ensures { result ≡ spec.tokens access_token token }
{
    let fields = CoreIdTokenFields::new(Some(token), EmptyExtraTokenFields {});
    CoreTokenResponse::new(access_token, CoreTokenType::Bearer, fields)
}

// The same, as it is written.
#[tactic(auto, unfolding(crate::specs::Drill::body))]
fn body(alloc: Global, access_token: AccessToken, token: CoreIdToken) -> Result<Vec<u8>, AllocError>
    ensures { IfOk result (λ text. text.items ≡ spec.body access_token token) }
{
    // What is written is large: it is let go once, by a call.
    let tokens = token_response(access_token, token);
    let text = tokens.write(alloc);
    drop(tokens);
    text
}

// The response with this body.
fn response(alloc: Global, body: Vec<u8>) -> Result<HttpResponse, AllocError>
    ensures { IfOk result (λ made. seen_response made ≡ spec.response body.items) }
{
    let json = HeaderValue::from_static("application/json");
    match response_with(alloc, StatusCode::OK, Some(json), body) {
        Ok(response) => Ok(response),
        Err(_) => Err(AllocError),
    }
}

// The answer to its token request.
fn answer(alloc: Global, issuer: &IssuerUrl, i: u16) -> Result<Answer, AllocError>
    requires issuer { issuer.now ≡ spec.issuer }
    ensures { IfOk result (λ answer. seen_answer answer ≡ spec.answer i) }
{
    let access_token = AccessToken::new(numbered(alloc, "t", i)?);
    match token(alloc, issuer, i, &access_token) {
        Ok(token) => {
            let body = body(alloc, access_token, token)?;
            Ok(Answer::Response(response(alloc, body)?))
        }
        Err(JsonWebTokenError::SigningError(_)) => Ok(Answer::Fault),
        Err(JsonWebTokenError::Memory) => Err(AllocError),
    }
}
