//! What the site keeps of a browser.
//!
//! A site's framework finds it by a cookie. Each user who signs in gets a new id, drawn from the generator, so that nobody
//! goes on with one that was known before; `src/keep.rt` keeps which ids are good.

ghost use Rattle.std.specs.Prelude.{◌≡◌, None, true, false, IfOk};
ghost use Rattle.std.specs.Option.{option_copied};
ghost use Rattle.oidc_types.specs.Random.{random_text};
ghost use Rattle.oidc.specs.Errors.{is_spent_by};

use crate::User;
use oidc::login::{LoginError, SessionId};
use oidc::{AccessToken, CsrfToken, RefreshToken};
use rand_core::Rng;
use std::alloc::{AllocError, Global};

/// The tokens in use: at first those that came with the sign-in, then those of the last refresh that was accepted.
///
/// This has no `Debug`, since it holds tokens; so have the two below.
#[derive(Drop)]
pub(crate) struct Tokens {
    pub(crate) access_token: AccessToken,
    // There is none where none came, and once it is revoked.
    pub(crate) refresh_token: Option<RefreshToken>,
}

/// A user who is signed in.
#[derive(Drop)]
pub(crate) struct Visit {
    // The id of the session, which the browser's cookie holds.
    pub(crate) id: SessionId,
    // The sign-in, whole: the ID token of each refresh is judged beside its claims, and its ID token is the hint of the
    // logout.
    pub(crate) user: User,
    pub(crate) tokens: Tokens,
}

/// The session of one browser. Each state has a place of its own, so that neither counts for the other.
#[derive(Drop)]
pub(crate) struct Session {
    // The state of the login that the browser was sent to, until that login is gone.
    pub(crate) login: Option<CsrfToken>,
    // Who is signed in.
    pub(crate) visit: Option<Visit>,
    // The state of the logout that the browser was sent to, until it comes back.
    pub(crate) logout: Option<CsrfToken>,
}

/// A copy of a token, where there is one.
pub(crate) fn copy_of(
    alloc: Global,
    token: Option<&RefreshToken>,
) -> Result<Option<RefreshToken>, AllocError>
    ensures { IfOk result (λ copy. copy ≡ option_copied token.entry) }
{
    match token {
        Some(token) => Ok(Some(token.clone_in(alloc)?)),
        None => Ok(None),
    }
}

// The tokens that came with a sign-in.
fn tokens_of(alloc: Global, user: &User) -> Result<Tokens, AllocError>
    ensures access { IfOk result (λ tokens. tokens.access_token ≡ user.now.access_token) }
    ensures refresh { IfOk result (λ tokens. tokens.refresh_token ≡ user.now.refresh_token) }
{
    Ok(Tokens {
        access_token: user.access_token().clone_in(alloc)?,
        refresh_token: copy_of(alloc, user.refresh_token())?,
    })
}

// Whether the login that the query names is gone.
fn is_spent<E>(reply: &Result<User, LoginError<E>>) -> bool
    ensures { result ≡ is_spent_by reply.now }
{
    match reply {
        Ok(_) => true,
        Err(refusal) => refusal.spent(),
    }
}

// The id of a new session, and the tokens.
fn parts<R: Rng>(alloc: Global, user: &User, rng: &mut R) -> Result<(SessionId, Tokens), AllocError>
    ensures id { IfOk result (λ parts. parts.0 ≡ random_text 16 (R.stream rng.old)) }
    ensures access { IfOk result (λ parts. parts.1.access_token ≡ user.now.access_token) }
    ensures refresh { IfOk result (λ parts. parts.1.refresh_token ≡ user.now.refresh_token) }
{
    let id = SessionId::new_random(alloc, rng)?;
    Ok((id, tokens_of(alloc, user)?))
}

impl Visit {
    /// A user who has just signed in, with an id that is drawn anew.
    pub(crate) fn new<R: Rng>(alloc: Global, user: User, rng: &mut R) -> Result<Visit, AllocError>
        ensures id { IfOk result (λ visit. visit.id ≡ random_text 16 (R.stream rng.old)) }
        ensures user { IfOk result (λ visit. visit.user ≡ user) }
        ensures access { IfOk result (λ visit. visit.tokens.access_token ≡ user.access_token) }
        ensures refresh { IfOk result (λ visit. visit.tokens.refresh_token ≡ user.refresh_token) }
    {
        match parts(alloc, &user, rng) {
            Ok((id, tokens)) => Ok(Visit { id, user, tokens }),
            Err(AllocError) => {
                drop(user);
                Err(AllocError)
            }
        }
    }
}

impl Session {
    /// That of a browser which is seen for the first time.
    pub(crate) fn new() -> Session
        ensures { result ≡ record { login = None; visit = None; logout = None } }
    {
        Session {
            login: None,
            visit: None,
            logout: None,
        }
    }

    /// Lets the state of a login go once that login is gone: it counts once.
    pub(crate) fn forget_login<E>(&mut self, reply: &Result<User, LoginError<E>>)
        ensures gone { is_spent_by reply.now ≡ true → self.new ≡ record self.old { login = None } }
        ensures stays { is_spent_by reply.now ≡ false → self.new ≡ self.old }
    {
        if is_spent(reply) {
            self.login = None;
        }
    }
}
