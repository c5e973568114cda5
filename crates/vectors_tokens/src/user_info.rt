//! User info: its claims, the request for it, what its answers are worth, and tokens of it that are issued.

use crate::tokens::unsigned_line;
use crate::verifiers::{Parties, parties_in};
use crate::words::claims_word;
use case_lines::{
    Case, CaseError, VerifierKey, algorithm, object, ok_form, ok_pair, parse_line, reading_in,
    refused_as, refused_word, request_line, response_in, url_of,
};
use oidc_claims::{AdditionalClaims, AllOtherClaims};
use oidc_keys::{CoreHmacKey, JsonWebKeySet};
use oidc_members::{ParseError, Reading};
use oidc_oauth2::{Answer, Fault, Recorded};
use oidc_pairs::FormText;
use oidc_tokens::{ClaimsVerificationError, JsonWebTokenError, Payload, UserInfoVerifier};
use oidc_types::{
    AccessToken, ClientId, CoreGenderClaim, CoreJweContentEncryptionAlgorithm,
    CoreJwsSigningAlgorithm, SubjectIdentifier, UserInfoUrl,
};
use oidc_user_info::{
    InfoOther, PrepareInfoError, ResponseCause, UserInfoClaims, UserInfoError,
    UserInfoJsonWebToken, UserInfoRequest, UserInfoResponseType,
};
use std::alloc::{AllocError, Global};

/// The claims of user info, all additional ones among them.
type Claims = UserInfoClaims<AllOtherClaims, CoreGenderClaim>;

/// A token of such claims.
type Token = UserInfoJsonWebToken<
    AllOtherClaims,
    CoreGenderClaim,
    CoreJweContentEncryptionAlgorithm,
    CoreJwsSigningAlgorithm,
>;

type Verifier<'a> = UserInfoVerifier<'a, CoreJweContentEncryptionAlgorithm, VerifierKey>;

type Request<'a> = UserInfoRequest<'a, CoreJweContentEncryptionAlgorithm, VerifierKey>;

// ---- claims

/// `info_claims`: the claims of an answer that is an object, under a reading, written again, and the
/// additional ones.
pub(crate) fn info_claims(alloc: Global, case: &Case) -> Result<String, CaseError> {
    case.check_with(&["text"], &["reading"])?;
    let read = claims_in(alloc, case.value("text"), reading_in(case)?);
    let line = read_line(alloc, &read);
    drop(read);
    line
}

// The strict reading goes by the call that takes none.
fn claims_in(alloc: Global, text: &str, reading: Reading) -> Result<Claims, UserInfoError<Fault>> {
    if reading == Reading::STRICT {
        Claims::from_json(alloc, text.as_bytes(), None)
    } else {
        Claims::from_json_with(alloc, text.as_bytes(), None, reading)
    }
}

fn read_line(
    alloc: Global,
    read: &Result<Claims, UserInfoError<Fault>>,
) -> Result<String, CaseError> {
    match read {
        Ok(claims) => claims_line(alloc, claims),
        Err(UserInfoError::Parse(refusal)) => refused_as(alloc, FormText::new(alloc), refusal),
        Err(UserInfoError::Memory) => Err(CaseError::Memory),
        Err(_) => Err(CaseError::NoCase),
    }
}

fn claims_line(alloc: Global, claims: &Claims) -> Result<String, CaseError> {
    let written = written_claims(alloc, claims)?;
    let additional = claims.additional_claims().write(alloc)?;
    let additional = object(alloc, additional.as_slice())?;
    let mut form = FormText::new(alloc);
    form.push("written", written.as_str())?;
    form.push("additional", additional.as_str())?;
    ok_form(alloc, form)
}

// The text of the object that claims are written as.
fn written_claims(alloc: Global, claims: &Claims) -> Result<String, CaseError> {
    let members = claims.write(alloc)?;
    object(alloc, members.as_slice())
}

// ---- the request

/// `info_request`: the request for user info.
pub(crate) fn info_request(alloc: Global, case: &Case) -> Result<String, CaseError> {
    case.check(&["endpoint", "token", "accept"])?;
    let accepts = response_type(case.value("accept"))?;
    let asked = Asked {
        parties: nobody(alloc)?,
        endpoint: url_of(alloc, case.value("endpoint"))?,
    };
    let line = request_of(alloc, &asked, case.value("token"), accepts);
    drop(asked);
    line
}

// Whom a request is about, and where it goes.
#[derive(Drop)]
struct Asked {
    parties: Parties,
    endpoint: UserInfoUrl,
}

fn request_of(
    alloc: Global,
    asked: &Asked,
    token: &str,
    accepts: UserInfoResponseType,
) -> Result<String, CaseError> {
    let token = AccessToken::new(String::from_str(alloc, token)?);
    let request = Request::new(&asked.endpoint, token, verifier_of(&asked.parties, None));
    prepared_line(alloc, request.set_response_type(accepts))
}

// Parties for a request whose answer nobody judges.
fn nobody(alloc: Global) -> Result<Parties, CaseError> {
    let issuer = url_of(alloc, "https://example")?;
    Ok(Parties {
        id: ClientId::new(String::new(alloc)),
        issuer,
        keys: JsonWebKeySet::new(Vec::new(alloc)),
    })
}

fn verifier_of<'a>(parties: &'a Parties, subject: Option<SubjectIdentifier>) -> Verifier<'a> {
    Verifier::new(&parties.id, &parties.issuer, &parties.keys, subject)
}

fn prepared_line(alloc: Global, request: Request<'_>) -> Result<String, CaseError> {
    match request.prepare(alloc) {
        Ok(request) => request_line(alloc, &request),
        Err(PrepareInfoError::Bearer) => refused_word(alloc, "bearer"),
        Err(PrepareInfoError::Uri) => refused_word(alloc, "uri"),
        Err(PrepareInfoError::Memory) => Err(CaseError::Memory),
    }
}

fn response_type(text: &str) -> Result<UserInfoResponseType, CaseError> {
    match text {
        "json" => Ok(UserInfoResponseType::Json),
        "jwt" => Ok(UserInfoResponseType::Jwt),
        _ => Err(CaseError::NoCase),
    }
}

// ---- the answer

/// `info_answer`: what an answer to that request is worth under a reading, as it came over a transport.
pub(crate) fn info_answer(alloc: Global, case: &Case) -> Result<String, CaseError> {
    let required = ["status", "body", "id", "issuer"];
    let optional = [
        "type",
        "subject",
        "signed",
        "any_issuer",
        "any_audience",
        "reading",
    ];
    case.check_all(&required, &optional, &["key"])?;
    let asked = Asked {
        parties: parties_in(alloc, case)?,
        endpoint: url_of(alloc, "https://example/userinfo")?,
    };
    let line = answered_line(alloc, case, &asked);
    drop(asked);
    line
}

fn answered_line(alloc: Global, case: &Case, asked: &Asked) -> Result<String, CaseError> {
    let switches = switches_in(case)?;
    let mut http = transport(alloc, case)?;
    let line = reply_line(alloc, case, asked, switches, &mut http);
    drop(http);
    line
}

// The request, with the subject of a line and these switches.
fn request_in<'a>(
    alloc: Global,
    case: &Case,
    asked: &'a Asked,
    switches: Switches,
) -> Result<Request<'a>, CaseError> {
    let subject = subject_in(alloc, case)?;
    let token = AccessToken::new(String::from_str(alloc, "abc")?);
    let verifier = verifier_of(&asked.parties, subject);
    Ok(
        Request::new(&asked.endpoint, token, verifier)
            .require_signed_response(switches.is_signed)
            .require_issuer_match(!switches.any_issuer)
            .require_audience_match(!switches.any_audience)
            .set_reading(switches.reading),
    )
}

// What a line says of signature, issuer, audience and reading.
#[derive(Clone, Copy)]
struct Switches {
    is_signed: bool,
    any_issuer: bool,
    any_audience: bool,
    reading: Reading,
}

fn switches_in(case: &Case) -> Result<Switches, CaseError> {
    let is_signed = flag(case, "signed")?;
    let any_issuer = flag(case, "any_issuer")?;
    let any_audience = flag(case, "any_audience")?;
    Ok(Switches {
        is_signed,
        any_issuer,
        any_audience,
        reading: reading_in(case)?,
    })
}

fn reply_line(
    alloc: Global,
    case: &Case,
    asked: &Asked,
    switches: Switches,
    http: &mut Recorded,
) -> Result<String, CaseError> {
    let request = request_in(alloc, case, asked, switches)?;
    let reply = request.request::<AllOtherClaims, CoreGenderClaim, Recorded>(alloc, http);
    let line = reply_words(alloc, &reply);
    drop(reply);
    line
}

fn reply_words(
    alloc: Global,
    reply: &Result<Claims, UserInfoError<Fault>>,
) -> Result<String, CaseError> {
    match reply {
        Ok(claims) => written_line(alloc, claims),
        Err(refusal) => refused_line(alloc, refusal),
    }
}

fn written_line(alloc: Global, claims: &Claims) -> Result<String, CaseError> {
    let written = written_claims(alloc, claims)?;
    ok_pair(alloc, "written", written.as_str())
}

// The transport that gives the answer of a line.
fn transport(alloc: Global, case: &Case) -> Result<Recorded, CaseError> {
    let mut answers = Vec::new(alloc);
    answers.push(Answer::Response(response_in(alloc, case)?))?;
    Ok(Recorded::new(alloc, answers))
}

fn subject_in(alloc: Global, case: &Case) -> Result<Option<SubjectIdentifier>, AllocError> {
    match case.optional("subject") {
        Some(subject) => Ok(Some(SubjectIdentifier::new(String::from_str(alloc, subject)?))),
        None => Ok(None),
    }
}

// Whether a name stands there, whose value has to be `1`.
fn flag(case: &Case, name: &str) -> Result<bool, CaseError> {
    match case.optional(name) {
        Some("1") => Ok(true),
        Some(_) => Err(CaseError::NoCase),
        None => Ok(false),
    }
}

// The words that a report has of a refusal.
fn refused_line(alloc: Global, refusal: &UserInfoError<Fault>) -> Result<String, CaseError> {
    match refusal {
        UserInfoError::ClaimsVerification(kind) => claims_refused(alloc, *kind),
        UserInfoError::Parse(refusal) => parse_line(alloc, refusal),
        UserInfoError::Request(_) => refused_word(alloc, "request"),
        UserInfoError::Response(_, _, ResponseCause::Status) => refused_word(alloc, "status"),
        UserInfoError::Response(_, _, ResponseCause::MediaType) => {
            refused_word(alloc, "media_type")
        }
        UserInfoError::Other(InfoOther::Bearer) => refused_word(alloc, "bearer"),
        UserInfoError::Other(InfoOther::Uri) => refused_word(alloc, "uri"),
        UserInfoError::Other(InfoOther::Utf8) => refused_word(alloc, "utf8"),
        UserInfoError::TooLong(_) => refused_word(alloc, "too_long"),
        UserInfoError::Memory => Err(CaseError::Memory),
    }
}

fn claims_refused(alloc: Global, kind: ClaimsVerificationError) -> Result<String, CaseError> {
    let words = format!(in alloc; "claims {}", claims_word(kind))?;
    refused_word(alloc, words.as_str())
}

// ---- tokens that are issued

/// `info_issue`: the token of these claims, signed by a secret and read again. The reading is that of the
/// claims.
pub(crate) fn info_issue(alloc: Global, case: &Case) -> Result<String, CaseError> {
    case.check_with(&["claims", "secret", "alg"], &["reading"])?;
    let alg = algorithm(case.value("alg"))?;
    let reading = reading_in(case)?;
    let key = CoreHmacKey::new(Vec::from_slice(alloc, case.value("secret").as_bytes())?);
    issued_line(alloc, case.value("claims"), reading, &key, alg)
}

fn issued_line(
    alloc: Global,
    claims: &str,
    reading: Reading,
    key: &CoreHmacKey,
    alg: CoreJwsSigningAlgorithm,
) -> Result<String, CaseError> {
    let claims = claims_of(alloc, claims, reading)?;
    let issued = Token::new(alloc, claims, key, alg);
    let line = token_or_refusal(alloc, &issued, reading);
    drop(issued);
    line
}

fn token_or_refusal(
    alloc: Global,
    issued: &Result<Token, JsonWebTokenError>,
    reading: Reading,
) -> Result<String, CaseError> {
    match issued {
        Ok(token) => read_again(alloc, token.as_str(), reading),
        Err(JsonWebTokenError::SigningError(refusal)) => unsigned_line(alloc, refusal),
        Err(JsonWebTokenError::Memory) => Err(CaseError::Memory),
    }
}

// The text of a token that was issued, as it is read.
fn read_again(alloc: Global, text: &str, reading: Reading) -> Result<String, CaseError> {
    match read_token(alloc, text, reading) {
        Ok(token) => ok_pair(alloc, "token", token.as_str()),
        Err(ParseError::Refused(_)) => Err(CaseError::NoCase),
        Err(ParseError::Memory) => Err(CaseError::Memory),
    }
}

// The strict reading goes by the call that takes none.
fn read_token(alloc: Global, text: &str, reading: Reading) -> Result<Token, ParseError> {
    if reading == Reading::STRICT {
        Token::read(alloc, text)
    } else {
        Token::read_with(alloc, text, reading)
    }
}

// The claims of a text that has to hold them under a reading.
fn claims_of(alloc: Global, text: &str, reading: Reading) -> Result<Claims, CaseError> {
    match claims_in(alloc, text, reading) {
        Ok(claims) => Ok(claims),
        Err(error) => Err(unread(&error)),
    }
}

fn unread(error: &UserInfoError<Fault>) -> CaseError {
    match error {
        UserInfoError::Memory => CaseError::Memory,
        _ => CaseError::NoCase,
    }
}
