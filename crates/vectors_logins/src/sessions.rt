//! Sessions, and their end by logout tokens.

use crate::users::{User, user_of};
use case_lines::{
    Case, CaseError, algorithm, moment, ok, ok_form, ok_pair, parse_line, refused_word,
    signature_word, url_of,
};
use oidc_keys::{CoreJsonWebKey, JsonWebKey};
use oidc_pairs::{FormText, Pair};
use oidc_session::{LogoutError, LogoutVerifier, OpenError, ProviderSession, SessionId, Sessions};
use oidc_types::{ClientId, IssuerUrl};
use std::alloc::Global;

/// Sessions whose logout tokens a symmetric key checks.
type SecretSessions<'v> = Sessions<'v, CoreJsonWebKey>;

/// `sessions`: the answer of each call, in the order in which they stand.
pub(crate) fn sessions(alloc: Global, case: &Case) -> Result<String, CaseError> {
    let required = ["id", "issuer", "secret", "alg"];
    let calls = ["open", "look", "close", "sweep", "logout"];
    case.check_all(&required, &[], &calls)?;
    let client_id = ClientId::new(String::from_str(alloc, case.value("id"))?);
    let issuer: IssuerUrl = url_of(alloc, case.value("issuer"))?;
    let secret = Vec::from_slice(alloc, case.value("secret").as_bytes())?;
    let key = CoreJsonWebKey::new_symmetric(secret);
    let alg = algorithm(case.value("alg"))?;
    let verifier = LogoutVerifier {
        client_id: &client_id,
        issuer: &issuer,
        key: &key,
        alg: &alg,
    };
    let mut sessions = Sessions::new(alloc, verifier);
    let line = calls_line(alloc, &mut sessions, case.pairs());
    drop(sessions);
    line
}

fn calls_line(
    alloc: Global,
    sessions: &mut SecretSessions<'_>,
    pairs: &[Pair],
) -> Result<String, CaseError> {
    let mut form = FormText::new(alloc);
    for pair in pairs {
        put_call(alloc, sessions, pair, &mut form)?;
    }
    ok_form(alloc, form)
}

// Makes the call that a pair is, where it is one, and puts its answer.
fn put_call(
    alloc: Global,
    sessions: &mut SecretSessions<'_>,
    pair: &Pair,
    form: &mut FormText,
) -> Result<(), CaseError> {
    let name = pair.name();
    let answer = match name {
        "open" => open(alloc, sessions, &call_in(alloc, name, pair.value())?)?,
        "look" => look(alloc, sessions, &call_in(alloc, name, pair.value())?)?,
        "close" => close(alloc, sessions, &call_in(alloc, name, pair.value())?)?,
        "sweep" => sweep(alloc, sessions, &call_in(alloc, name, pair.value())?)?,
        "logout" => logout(alloc, sessions, &call_in(alloc, name, pair.value())?)?,
        _ => return Ok(()),
    };
    Ok(form.push(name, answer.as_str())?)
}

// The pairs of a call, read as those of a case of its name.
fn call_in(alloc: Global, name: &str, text: &str) -> Result<Case, CaseError> {
    let line = format!(in alloc; "op={name}&{text}")?;
    Case::read(alloc, line.as_str())
}

// ---- the calls

fn id_in(alloc: Global, call: &Case) -> Result<SessionId, CaseError> {
    Ok(SessionId::new(String::from_str(alloc, call.value("id"))?))
}

fn open(
    alloc: Global,
    sessions: &mut SecretSessions<'_>,
    call: &Case,
) -> Result<String, CaseError> {
    call.check_with(&["id", "subject", "end", "now"], &["sid"])?;
    let (end, now) = (moment(call.value("end"))?, moment(call.value("now"))?);
    let id = id_in(alloc, call)?;
    let sid = match call.optional("sid") {
        Some(sid) => Some(ProviderSession::new(String::from_str(alloc, sid)?)),
        None => None,
    };
    let user: User = user_of(alloc, call.value("subject"))?;
    let opened = sessions.open(id, &user, sid, end, now);
    drop(user);
    match opened {
        Ok(()) => ok(alloc),
        Err(OpenError::Ended) => refused_word(alloc, "ended"),
        Err(OpenError::Taken) => refused_word(alloc, "taken"),
        Err(OpenError::Memory) => Err(CaseError::Memory),
    }
}

fn look(
    alloc: Global,
    sessions: &mut SecretSessions<'_>,
    call: &Case,
) -> Result<String, CaseError> {
    call.check(&["id", "now"])?;
    let now = moment(call.value("now"))?;
    let id = id_in(alloc, call)?;
    match sessions.look(&id, now) {
        Some(session) => {
            let mut form = FormText::new(alloc);
            form.push("subject", session.subject().as_str())?;
            let end = format!(in alloc; "{}", session.end().as_second())?;
            form.push("end", end.as_str())?;
            ok_form(alloc, form)
        }
        None => Ok(String::from_str(alloc, "none")?),
    }
}

fn close(
    alloc: Global,
    sessions: &mut SecretSessions<'_>,
    call: &Case,
) -> Result<String, CaseError> {
    call.check(&["id"])?;
    let id = id_in(alloc, call)?;
    if sessions.close(&id) {
        ok(alloc)
    } else {
        Ok(String::from_str(alloc, "none")?)
    }
}

// How many sessions a call removed.
fn removed(alloc: Global, count: usize) -> Result<String, CaseError> {
    let count = format!(in alloc; "{count}")?;
    ok_pair(alloc, "removed", count.as_str())
}

fn sweep(
    alloc: Global,
    sessions: &mut SecretSessions<'_>,
    call: &Case,
) -> Result<String, CaseError> {
    call.check(&["now"])?;
    let now = moment(call.value("now"))?;
    removed(alloc, sessions.sweep(now))
}

fn logout(
    alloc: Global,
    sessions: &mut SecretSessions<'_>,
    call: &Case,
) -> Result<String, CaseError> {
    call.check(&["token", "now"])?;
    let now = moment(call.value("now"))?;
    match sessions.provider_logout(call.value("token"), now) {
        Ok(count) => removed(alloc, count),
        Err(refusal) => logout_line(alloc, refusal),
    }
}

fn logout_line(alloc: Global, refusal: LogoutError) -> Result<String, CaseError> {
    match refusal {
        LogoutError::Parse(refusal) => parse_line(alloc, &refusal),
        LogoutError::Unsupported => refused_word(alloc, "unsupported"),
        LogoutError::InvalidIssuer => refused_word(alloc, "invalid_issuer"),
        LogoutError::InvalidAudience => refused_word(alloc, "invalid_audience"),
        LogoutError::WrongAlgorithm => refused_word(alloc, "wrong_algorithm"),
        LogoutError::Signature(kind) => {
            let words = format!(in alloc; "signature {}", signature_word(kind))?;
            refused_word(alloc, words.as_str())
        }
        LogoutError::Expired => refused_word(alloc, "expired"),
        LogoutError::Events => refused_word(alloc, "events"),
        LogoutError::NoName => refused_word(alloc, "no_name"),
        LogoutError::Nonce => refused_word(alloc, "nonce"),
        LogoutError::Replayed => refused_word(alloc, "replayed"),
        LogoutError::Memory => Err(CaseError::Memory),
    }
}
