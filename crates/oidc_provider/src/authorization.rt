// Whether an authorization request is granted.

ghost use Rattle.std.specs.Prelude.{◌≡◌, IfOk, []};
ghost use Rattle.std.specs.Option.{option_copied};
ghost use Rattle.http_header.specs.FieldValue.{is_visible_text};
ghost use Rattle.http_header.specs.Token.{is_visible_or_blank as visible_or_blank};
ghost use Rattle.oidc_provider.specs.Values.{says as has_one};
ghost use Rattle.oidc_provider.specs.Settings.{registered as registered_among};
ghost use Rattle.oidc_provider.specs.Authorization as spec;
ghost use Rattle.oidc_provider.specs.Authorization.{Replies};
ghost use Rattle.oidc_provider.specs.Steps as steps;
ghost use Rattle.oidc_provider.specs.Steps.{asked_by};

use crate::errors::AuthorizeError;
use crate::grants::Grants;
use crate::settings::Registration;
use oidc_pairs::BorrowedPairs;
use oidc_types::{AccessToken, AuthorizationCode, CsrfToken, Nonce, SubjectIdentifier};
use std::alloc::{AllocError, Global};
use std::marker::Model;

// Whether there is one pair of this name, and it has this value.
pub(crate) fn says(pairs: &BorrowedPairs<'_>, name: &str, value: &str) -> bool
    ensures { result ≡ has_one pairs.now name.now value.now }
{
    match pairs.only(name) {
        Some(text) => text == value,
        None => false,
    }
}

fn is_visible_or_blank(byte: u8) -> bool
    ensures { result ≡ visible_or_blank byte }
{
    byte == b'\t' || (b' ' <= byte && byte < 0x7F)
}

// Whether bytes are visible ASCII, spaces and tabs alone.
pub(crate) fn is_visible(bytes: &[u8]) -> bool
    ensures { result ≡ is_visible_text bytes.now }
{
    bytes.iter().all(|byte| is_visible_or_blank(*byte))
}

// The registration of a client, where it has one.
pub(crate) fn registered<'r>(
    registrations: &'r [Registration],
    id: &str,
) -> Option<&'r Registration>
    ensures { option_copied result ≡ registered_among registrations.now id.now }
{
    match registrations {
        [] => None,
        [first, later @ ..] => {
            if first.client_id.as_str() == id {
                return Some(first);
            }
            registered(later, id)
        }
    }
}

// The client that the pairs of a request name.
pub(crate) fn client_of<'r>(
    registrations: &'r [Registration],
    query: &BorrowedPairs<'_>,
) -> Option<&'r Registration>
    ensures { option_copied result ≡ steps.client_among registrations.now query.now }
{
    match query.only("client_id") {
        Some(id) => registered(registrations, id),
        None => None,
    }
}

// What a request for a code says of a login.
#[derive(Drop)]
pub(crate) struct Login {
    pub(crate) state: CsrfToken,
    pub(crate) nonce: Nonce,
    pub(crate) challenge: String,
}

impl Model for Login {
    ghost use Rattle.std.specs.String.{string_bytes};
    ghost use Rattle.oidc_provider.specs.Authorization.{AskedLogin, asked_login_code};

    ghost Value = { AskedLogin };

    ghost coded = { asked_login_code };

    ghost view = { λ l. record {
      state = l.state;
      nonce = l.nonce;
      challenge = string_bytes l.challenge;
    } };
}

// A login of these three.
fn login_with(alloc: Global, state: &str, nonce: &str, challenge: &str) -> Result<Login, AllocError>
    ensures { IfOk result (λ login. login
        ≡ record { state = state.now; nonce = nonce.now; challenge = challenge.now }) }
{
    let state = CsrfToken::new(String::from_str(alloc, state)?);
    let nonce = Nonce::new(String::from_str(alloc, nonce)?);
    let challenge = String::from_str(alloc, challenge)?;
    Ok(Login {
        state,
        nonce,
        challenge,
    })
}

// What the pairs of a request say of a login, where they ask for a code.
fn login_of(alloc: Global, query: &BorrowedPairs<'_>) -> Result<Login, AuthorizeError>
    ensures { Replies result (steps.login_or_refusal query.now) }
{
    if !says(query, "response_type", "code") || !says(query, "code_challenge_method", "S256") {
        return Err(AuthorizeError::Request);
    }
    let Some(state) = query.only("state") else {
        return Err(AuthorizeError::Request);
    };
    let Some(nonce) = query.only("nonce") else {
        return Err(AuthorizeError::Request);
    };
    let Some(challenge) = query.only("code_challenge") else {
        return Err(AuthorizeError::Request);
    };
    match login_with(alloc, state, nonce, challenge) {
        Ok(login) => Ok(login),
        Err(_) => Err(AuthorizeError::Memory),
    }
}

// What is handed in beside the request itself: the subjects of the two claims, the code and the access token.
#[derive(Clone, Copy)]
pub(crate) struct AskedGrant<'a> {
    pub(crate) subject: &'a SubjectIdentifier,
    pub(crate) info_subject: &'a SubjectIdentifier,
    pub(crate) code: &'a AuthorizationCode,
    pub(crate) token: &'a AccessToken,
}

// Whether what is handed in may be granted.
fn check_new(grants: &Grants, given: AskedGrant<'_>) -> Result<(), AuthorizeError>
    ensures { let asked = asked_by [] given.entry.subject.now given.entry.info_subject.now
        given.entry.code.now given.entry.token.now in
        result ≡ steps.new_or_refusal grants.now asked }
{
    if given.subject.as_str() != given.info_subject.as_str() {
        return Err(AuthorizeError::Subject);
    }
    if grants.has_code(given.code.secret()) {
        return Err(AuthorizeError::CodeUsed);
    }
    if grants.has_token(given.token.secret()) {
        return Err(AuthorizeError::TokenUsed);
    }
    if !is_visible(given.token.secret().as_bytes()) {
        return Err(AuthorizeError::TokenText);
    }
    Ok(())
}

// The login of a request that is granted to this client.
pub(crate) fn granted_login(
    alloc: Global,
    client: &Registration,
    grants: &Grants,
    query: &BorrowedPairs<'_>,
    given: AskedGrant<'_>,
) -> Result<Login, AuthorizeError>
    ensures { let asked = asked_by query.now given.entry.subject.now given.entry.info_subject.now
        given.entry.code.now given.entry.token.now in
        Replies result (steps.granted_login grants.now client.now asked) }
{
    if !says(query, "redirect_uri", client.redirect.as_str()) {
        return Err(AuthorizeError::Redirect);
    }
    let login = login_of(alloc, query)?;
    match check_new(grants, given) {
        Ok(()) => Ok(login),
        Err(refusal) => {
            drop(login);
            Err(refusal)
        }
    }
}
