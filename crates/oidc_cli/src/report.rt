//! The lines of a report.
ghost use Rattle.std.specs.Prelude.{◌≡◌, ℕ, List, [], ◌∷◌, ◌++◌, decimal, codes, Bool, false, IfOk, IfSome, IsErr, OnOk, Ok, Err};
ghost use Rattle.std.specs.Option.{option_copied};
ghost use Rattle.std.specs.String.{string_bytes};
ghost use Rattle.form_urlencoded.specs.Form.{serialize_pair};
ghost use Rattle.oidc_pairs.specs.Form.{escaped};
ghost use Rattle.oidc_oauth2.specs.Words.{error_text};
ghost use Rattle.oidc_oauth2.specs.TokenAnswers.{seen_refusal};
ghost use Rattle.oidc_members.specs.Write.{any_float};
ghost use Rattle.oidc_claims.specs.Others.{list_of};
ghost use Rattle.oidc_user_info.specs.InfoErrors.{seen_refusal as seen_info};
ghost use Rattle.oidc_login.specs.Errors.{seen_reply};
ghost use Rattle.oidc_cli.specs.Types as types;
ghost use Rattle.oidc_cli.specs.Report as spec;
ghost use Rattle.oidc_cli.specs.Report.{refresh_pair, user_info_pair, HasNoFloats, header_pair, body_pair, line_of, begin_line, request_line, signature_word as word_of_signature, claims_word as word_of_claims, verdict_line as line_of_verdict, fault_line as line_of_fault};
ghost use Rattle.oidc_cli.specs.Steps.{behind};

use crate::user::{User, UserClaims, UserInfo};
use http_header::HeaderValue;
use oidc_keys::SignatureVerificationError;
use oidc_login::{BeginError, LoginError, TooLong};
use oidc_members::{ParseKind, Refusal, write_object};
use oidc_oauth2::{
    CoreErrorResponseType, CoreRequestTokenError, Fault, HttpRequest, OtherCause,
    RequestTokenError, StandardErrorResponse,
};
use oidc_pairs::push_escaped;
use oidc_tokens::{ClaimsVerificationError, Payload};
use oidc_types::{CoreAuthErrorResponseType, RefreshToken, Vocabulary};
use oidc_user_info::{InfoOther, ResponseCause, UserInfoError};
use std::alloc::{AllocError, Global};
use url::Url;

// ---- form texts, pair by pair

// Adds the first pair of a form text.
fn push_first(text: &mut String, name: &str, value: &[u8]) -> Result<(), AllocError>
    ensures { OnOk result (string_bytes text.new
        ≡ string_bytes text.old ++ serialize_pair (name.now, value.now)) }
{
    push_escaped(text, name.as_bytes())?;
    text.push_str("=")?;
    push_escaped(text, value)?;
    Ok(())
}

// Adds a further pair of a form text.
fn push_behind(text: &mut String, name: &str, value: &[u8]) -> Result<(), AllocError>
    ensures { OnOk result (string_bytes text.new
        ≡ string_bytes text.old ++ behind ((name.now, value.now) ∷ [])) }
{
    text.push_str("&")?;
    push_first(text, name, value)?;
    Ok(())
}

// Adds the pair of a header, where it is there.
fn push_header(
    text: &mut String,
    name: &str,
    header: Option<&HeaderValue>,
) -> Result<(), AllocError>
    ensures { OnOk result (string_bytes text.new
        ≡ string_bytes text.old ++ behind (header_pair name.now (option_copied header.entry))) }
{
    match header {
        Some(value) => push_behind(text, name, value.as_bytes()),
        None => Ok(()),
    }
}

// Adds the pair of the body, where the method is POST.
fn push_body(text: &mut String, request: &HttpRequest) -> Result<(), AllocError>
    ensures { OnOk result (string_bytes text.new
        ≡ string_bytes text.old ++ behind (body_pair request.now)) }
{
    if request.method().as_str() == "POST" {
        push_behind(text, "body", request.body().as_slice())
    } else {
        Ok(())
    }
}

// ---- lines

// Adds words.
fn push_words(text: &mut String, words: &str) -> Result<(), AllocError>
    ensures { OnOk result (string_bytes text.new ≡ string_bytes text.old ++ words.now) }
{
    text.push_str(words)?;
    Ok(())
}

// Adds a line of two parts.
fn push_line(text: &mut String, words: &str, word: &str) -> Result<(), AllocError>
    ensures { OnOk result (string_bytes text.new
        ≡ string_bytes text.old ++ line_of (words.now ++ word.now)) }
{
    text.push_str(words)?;
    text.push_str(word)?;
    text.push_str("\n")?;
    Ok(())
}

/// Adds the line of what a begin answered. For want of memory there is none.
#[tactic(auto, unfolding(crate::specs::Report::begin_line))]
pub fn push_begin(text: &mut String, reply: &Result<Url, BeginError>) -> Result<(), AllocError>
    ensures line { OnOk result (string_bytes text.new
        ≡ string_bytes text.old ++ begin_line reply.now) }
    ensures memory { reply.now ≡ Err BeginError.Memory → IsErr result }
{
    match reply {
        Ok(url) => push_line(text, "begin ok ", url.as_str()),
        Err(BeginError::Flow) => text.push_str("begin refused flow\n"),
        Err(BeginError::ClientId) => text.push_str("begin refused client_id\n"),
        Err(BeginError::Verifier) => text.push_str("begin refused verifier\n"),
        Err(BeginError::UserInfoEndpoint) => text.push_str("begin refused user_info_endpoint\n"),
        Err(BeginError::Pending) => text.push_str("begin refused pending\n"),
        Err(BeginError::TooLong) => text.push_str("begin refused too_long\n"),
        Err(BeginError::Memory) => Err(AllocError),
    }
}

/// Adds the line of a request that was sent.
pub fn push_request(text: &mut String, request: &HttpRequest) -> Result<(), AllocError>
    ensures { OnOk result (string_bytes text.new
        ≡ string_bytes text.old ++ request_line request.now) }
{
    let headers = request.headers();
    text.push_str("request ")?;
    push_first(text, "method", request.method().as_str().as_bytes())?;
    push_behind(text, "address", request.address().as_bytes())?;
    push_header(text, "accept", headers.get("accept"))?;
    push_header(text, "content_type", headers.get("content-type"))?;
    push_header(text, "authorization", headers.get("authorization"))?;
    push_body(text, request)?;
    text.push_str("\n")?;
    Ok(())
}

/// Adds the line of a callback's verdict, whose claims hold no float. For want of memory there is none.
#[tactic(auto, unfolding(crate::specs::Report::verdict_line))]
pub fn push_verdict(
    text: &mut String,
    alloc: Global,
    reply: &Result<User, LoginError<Fault>>,
) -> Result<(), AllocError>
    ensures line { HasNoFloats (seen_reply reply.now) → OnOk result (string_bytes text.new
        ≡ string_bytes text.old ++ line_of_verdict (seen_reply reply.now)) }
    ensures memory { (spent : Bool) → reply.now ≡ Err (LoginError.Memory spent) → IsErr result }
{
    match reply {
        Ok(signed) => push_signed(text, alloc, signed),
        Err(LoginError::TooLong(place)) => push_too_long(text, *place),
        Err(LoginError::State) => push_words(text, "callback refused state\n"),
        Err(LoginError::Provider(code)) => push_provider(text, code),
        Err(LoginError::Callback) => push_words(text, "callback refused callback\n"),
        Err(LoginError::Token(error)) => push_token(text, error),
        Err(LoginError::NoIdToken) => push_words(text, "callback refused no_id_token\n"),
        Err(LoginError::Claims(kind)) => push_refused_claims(text, *kind),
        Err(LoginError::Signing(_)) => push_words(
            text,
            "callback refused signing unsupported_alg\n",
        ),
        Err(LoginError::TokenHash) => push_words(text, "callback refused token_hash\n"),
        Err(LoginError::UserInfo(error)) => push_info(text, error),
        Err(LoginError::Memory { .. }) => Err(AllocError),
    }
}

/// The line of a callback's verdict, whose claims hold no float. For want of memory there is none.
pub fn verdict_line(
    alloc: Global,
    reply: &Result<User, LoginError<Fault>>,
) -> Result<String, AllocError>
    ensures line { HasNoFloats (seen_reply reply.now)
        → IfOk result (λ text. string_bytes text ≡ line_of_verdict (seen_reply reply.now)) }
    ensures memory { (spent : Bool) → reply.now ≡ Err (LoginError.Memory spent) → IsErr result }
{
    let mut text = String::new(alloc);
    push_verdict(&mut text, alloc, reply)?;
    Ok(text)
}

// ---- a user who is signed in

// Adds the pair of a refresh token, where there is one.
fn push_refresh(text: &mut String, token: Option<&RefreshToken>) -> Result<(), AllocError>
    ensures { OnOk result (string_bytes text.new
        ≡ string_bytes text.old ++ behind (refresh_pair (option_copied token.entry))) }
{
    match token {
        Some(token) => push_behind(text, "refresh_token", token.secret().as_bytes()),
        None => Ok(()),
    }
}

// The compact text of claims that hold no float.
fn claims_text(alloc: Global, claims: &UserClaims) -> Result<Vec<u8>, AllocError>
    ensures { any_float (list_of claims.now.additional_claims) ≡ false
        → IfOk result (λ text. text.items ≡ types.claims_text claims.now) }
{
    let members = claims.write(alloc)?;
    write_object(alloc, members.as_slice())
}

// The compact text of user info that holds no float.
fn user_info_text(alloc: Global, found: &UserInfo) -> Result<Vec<u8>, AllocError>
    ensures { any_float (list_of found.now.additional_claims) ≡ false
        → IfOk result (λ text. text.items ≡ types.user_info_text found.now) }
{
    let members = found.write(alloc)?;
    write_object(alloc, members.as_slice())
}

// Adds the pair of user info, where there is some.
fn push_user_info(
    text: &mut String,
    alloc: Global,
    found: Option<&UserInfo>,
) -> Result<(), AllocError>
    ensures { let given = option_copied found.entry in
        IfSome given (λ claims. any_float (list_of claims.additional_claims) ≡ false)
        → OnOk result
        (string_bytes text.new ≡ string_bytes text.old ++ behind (user_info_pair given)) }
{
    match found {
        Some(found) => {
            let claims = user_info_text(alloc, found)?;
            push_behind(text, "user_info", claims.as_slice())
        }
        None => Ok(()),
    }
}

fn push_signed(text: &mut String, alloc: Global, signed: &User) -> Result<(), AllocError>
    ensures { HasNoFloats (Ok signed.now) → OnOk result (string_bytes text.new
        ≡ string_bytes text.old ++ line_of_verdict (Ok signed.now)) }
{
    let claims = claims_text(alloc, signed.claims())?;
    text.push_str("callback ok ")?;
    push_first(
        text,
        "access_token",
        signed.access_token().secret().as_bytes(),
    )?;
    push_refresh(text, signed.refresh_token())?;
    push_behind(text, "claims", claims.as_slice())?;
    push_user_info(text, alloc, signed.user_info())?;
    text.push_str("\n")?;
    Ok(())
}

// ---- refusals

fn place_word(place: TooLong) -> &'static str
    ensures { result.now ≡ spec.place_word place }
{
    match place {
        TooLong::Callback => "callback",
        TooLong::TokenAnswer => "token_answer",
        TooLong::UserInfoAnswer => "user_info_answer",
    }
}

#[tactic(auto, unfolding(crate::specs::Report::verdict_line))]
fn push_too_long(text: &mut String, place: TooLong) -> Result<(), AllocError>
    ensures { OnOk result (string_bytes text.new
        ≡ string_bytes text.old ++ line_of_verdict (Err (LoginError.TooLong place))) }
{
    push_line(text, "callback refused too_long ", place_word(place))
}

#[tactic(auto, unfolding(crate::specs::Report::verdict_line))]
fn push_refused_claims(text: &mut String, kind: ClaimsVerificationError) -> Result<(), AllocError>
    ensures { OnOk result (string_bytes text.new
        ≡ string_bytes text.old ++ line_of_verdict (Err (LoginError.Claims kind))) }
{
    push_line(text, "callback refused claims ", claims_word(kind))
}

#[tactic(auto, unfolding(crate::specs::Report::verdict_line))]
fn push_provider(text: &mut String, code: &CoreAuthErrorResponseType) -> Result<(), AllocError>
    ensures { OnOk result (string_bytes text.new
        ≡ string_bytes text.old ++ line_of_verdict (Err (LoginError.Provider code.now))) }
{
    text.push_str("callback refused provider ")?;
    push_escaped(text, code.as_ref().as_bytes())?;
    text.push_str("\n")?;
    Ok(())
}

#[tactic(auto, unfolding(crate::specs::Report::verdict_line))]
fn push_token(text: &mut String, error: &CoreRequestTokenError<Fault>) -> Result<(), AllocError>
    ensures { let refusal = LoginError.Token (seen_refusal error.now) in OnOk result
        (string_bytes text.new ≡ string_bytes text.old ++ line_of_verdict (Err refusal)) }
{
    text.push_str("callback refused token ")?;
    push_token_words(text, error)?;
    text.push_str("\n")?;
    Ok(())
}

// Adds the words for the refusal of a token request.
fn push_token_words(
    text: &mut String,
    error: &CoreRequestTokenError<Fault>,
) -> Result<(), AllocError>
    ensures { OnOk result (string_bytes text.new
        ≡ string_bytes text.old ++ spec.token_words (seen_refusal error.now)) }
{
    match error {
        RequestTokenError::ServerResponse(error) => push_server(text, error),
        RequestTokenError::Request(_) => text.push_str("request"),
        RequestTokenError::Parse(refusal, _) => push_parse(text, refusal),
        RequestTokenError::Other(OtherCause::Uri) => text.push_str("uri"),
        RequestTokenError::Other(OtherCause::EmptyBody) => text.push_str("empty_body"),
        RequestTokenError::Other(OtherCause::MediaType) => text.push_str("media_type"),
        RequestTokenError::TooLong(_) => Ok(()),
        RequestTokenError::Memory => Ok(()),
    }
}

fn push_server(
    text: &mut String,
    error: &StandardErrorResponse<CoreErrorResponseType>,
) -> Result<(), AllocError>
    ensures { OnOk result (string_bytes text.new
        ≡ string_bytes text.old ++ codes "server " ++ escaped (error_text error.now.error)) }
{
    text.push_str("server ")?;
    push_escaped(text, error.error().as_ref().as_bytes())?;
    Ok(())
}

fn push_parse(text: &mut String, refusal: &Refusal) -> Result<(), AllocError>
    ensures { OnOk result (string_bytes text.new
        ≡ string_bytes text.old ++ spec.parse_words refusal.now) }
{
    text.push_str("parse ")?;
    push_first(text, "kind", kind_word(refusal.kind).as_bytes())?;
    push_behind(text, "field", refusal.field.as_str().as_bytes())?;
    Ok(())
}

fn kind_word(kind: ParseKind) -> &'static str
    ensures { result.now ≡ spec.kind_word kind }
{
    match kind {
        ParseKind::Syntax => "syntax",
        ParseKind::Number => "number",
        ParseKind::Duplicate => "duplicate",
        ParseKind::UnexpectedTag => "tag",
        ParseKind::WrongType => "type",
        ParseKind::Missing => "missing",
        ParseKind::Url => "url",
        ParseKind::Moment => "moment",
        ParseKind::Token => "token",
        ParseKind::Algorithm => "algorithm",
        ParseKind::Additional => "additional",
    }
}

#[tactic(auto, unfolding(crate::specs::Report::verdict_line))]
fn push_info(text: &mut String, error: &UserInfoError<Fault>) -> Result<(), AllocError>
    ensures { let refusal = LoginError.UserInfo (seen_info error.now) in OnOk result
        (string_bytes text.new ≡ string_bytes text.old ++ line_of_verdict (Err refusal)) }
{
    text.push_str("callback refused user_info ")?;
    push_info_words(text, error)?;
    text.push_str("\n")?;
    Ok(())
}

// Adds the words for the refusal of user info.
fn push_info_words(text: &mut String, error: &UserInfoError<Fault>) -> Result<(), AllocError>
    ensures { OnOk result (string_bytes text.new
        ≡ string_bytes text.old ++ spec.info_words (seen_info error.now)) }
{
    match error {
        UserInfoError::Other(InfoOther::Bearer) => text.push_str("bearer"),
        UserInfoError::Other(InfoOther::Uri) => text.push_str("uri"),
        UserInfoError::Other(InfoOther::Utf8) => text.push_str("utf8"),
        UserInfoError::Request(_) => text.push_str("request"),
        UserInfoError::Response(_, _, ResponseCause::Status) => text.push_str("status"),
        UserInfoError::Response(_, _, ResponseCause::MediaType) => text.push_str("media_type"),
        UserInfoError::Parse(refusal) => push_parse(text, refusal),
        UserInfoError::ClaimsVerification(kind) => push_claims(text, *kind),
        UserInfoError::TooLong(_) => Ok(()),
        UserInfoError::Memory => Ok(()),
    }
}

fn push_claims(text: &mut String, kind: ClaimsVerificationError) -> Result<(), AllocError>
    ensures { OnOk result (string_bytes text.new
        ≡ string_bytes text.old ++ codes "claims " ++ word_of_claims kind) }
{
    text.push_str("claims ")?;
    text.push_str(claims_word(kind))?;
    Ok(())
}

fn claims_word(kind: ClaimsVerificationError) -> &'static str
    ensures { result.now ≡ word_of_claims kind }
{
    match kind {
        ClaimsVerificationError::Unsupported => "unsupported",
        ClaimsVerificationError::InvalidIssuer => "invalid_issuer",
        ClaimsVerificationError::InvalidAudience => "invalid_audience",
        ClaimsVerificationError::SignatureVerification(kind) => signature_word(kind),
        ClaimsVerificationError::Expired => "expired",
        ClaimsVerificationError::InvalidNonce => "invalid_nonce",
        ClaimsVerificationError::InvalidSubject => "invalid_subject",
        ClaimsVerificationError::Memory => "",
    }
}

fn signature_word(kind: SignatureVerificationError) -> &'static str
    ensures { result.now ≡ word_of_signature kind }
{
    match kind {
        SignatureVerificationError::AmbiguousKeyId => "ambiguous_key",
        SignatureVerificationError::CryptoError => "crypto_error",
        SignatureVerificationError::DisallowedAlg => "disallowed_alg",
        SignatureVerificationError::InvalidKey => "invalid_key",
        SignatureVerificationError::NoMatchingKey => "no_matching_key",
        SignatureVerificationError::NoSignature => "no_signature",
        SignatureVerificationError::UnsupportedAlg => "unsupported_alg",
        SignatureVerificationError::Memory => "",
    }
}

/// The line that ends a report whose script has its first fault at this line.
pub fn fault_line(alloc: Global, number: usize) -> Result<String, AllocError>
    ensures { IfOk result (λ text. string_bytes text ≡ line_of_fault number) }
{
    format!(in alloc; "script fault line {number}\n")
}

/// The line that ends a report whose script has no fault.
pub fn pending_line(alloc: Global, count: usize) -> Result<String, AllocError>
    ensures { IfOk result
        (λ text. string_bytes text ≡ codes "pending " ++ decimal count ++ 10 ∷ []) }
{
    format!(in alloc; "pending {count}\n")
}
