// The steps of a begin. Those that judge borrow the request.

ghost use Rattle.std.specs.Prelude.{◌≡◌, ◌&&◌, not, is_some, Err, IfErr, IfOk, IsTrue, Ok, OnErr, OnOk, None};
ghost use Rattle.std.specs.FinMap as finite;
ghost use Rattle.oidc_oauth2.specs.Pkce.{is_verifier, s256};
ghost use Rattle.oidc_client.specs.Authorization.{seen_flow, HasChallenge, IsUnmanagedBeside, StandOnce};
ghost use Rattle.oidc_login.specs.Logins.{HasVerifiers};
ghost use Rattle.oidc_login.specs.Begin as begins;
ghost use Rattle.oidc_login.specs.Begin.{begin_of, reply_by, challenge_or_refusal, url_or_refusal, Begins, with_login};

use crate::errors::BeginError;
use crate::store::{KeptLogin, Login, Store};
use crate::types::{LoginRequest, UserInfoDemand};
use oidc_client::{AuthenticationFlow, CoreAuthenticationFlow};
use oidc_oauth2::{PkceCodeChallenge, PkceError};
use oidc_types::{ClientId, CsrfToken, Nonce, PkceCodeVerifier, RedirectUrl};
use oidc_user_info::BuildUrlError;
use std::alloc::{AllocError, Global};
use std::marker::Model;
use url::Url;

// Whether a flow is that of a code.
fn is_code_flow(flow: &CoreAuthenticationFlow) -> bool
    ensures { result ≡ begins.is_code_flow (seen_flow flow.now) }
{
    matches!(flow, AuthenticationFlow::AuthorizationCode)
}

// Whether user info is demanded without an endpoint for it.
fn lacks_endpoint(user_info: Option<UserInfoDemand>, has_endpoint: bool) -> bool
    ensures { result ≡ (is_some user_info && not has_endpoint) }
{
    match user_info {
        None => false,
        Some(_) => !has_endpoint,
    }
}

// The rows on request and verifier, of which comes the challenge.
#[tactic(auto, unfolding(crate::specs::Begin::challenge_or_refusal))]
fn challenge_of(
    alloc: Global,
    client_id: &ClientId,
    has_endpoint: bool,
    pending: &Store,
    request: &LoginRequest<'_>,
    verifier: &PkceCodeVerifier,
    user_info: Option<UserInfoDemand>,
) -> Result<PkceCodeChallenge, BeginError>
    ensures gives { let b = begin_of request.now verifier.now user_info in
        Begins result (challenge_or_refusal client_id.now has_endpoint pending.now b) }
    ensures challenge { IfOk result (λ challenge. challenge ≡ s256 verifier.now) }
    ensures fits { OnOk result (IsTrue (is_verifier verifier.now)) }
    ensures absent { OnOk result (finite.get pending.now request.now.state ≡ None) }
{
    if !is_code_flow(request.flow()) {
        return Err(BeginError::Flow);
    }
    if request.client_id().as_str() != client_id.as_str() {
        return Err(BeginError::ClientId);
    }
    let challenge = match PkceCodeChallenge::from_code_verifier_sha256(alloc, verifier) {
        Ok(challenge) => challenge,
        Err(PkceError::Length) => return Err(BeginError::Verifier),
        Err(PkceError::Memory) => return Err(BeginError::Memory),
    };
    if lacks_endpoint(user_info, has_endpoint) {
        return Err(BeginError::UserInfoEndpoint);
    }
    if pending.contains(request.state().secret()) {
        return Err(BeginError::Pending);
    }
    Ok(challenge)
}

// A copy of a request's redirect.
fn redirect_of(alloc: Global, request: &LoginRequest<'_>) -> Result<Option<RedirectUrl>, AllocError>
    ensures { IfOk result (λ redirect. redirect ≡ request.now.redirect_uri) }
{
    match request.redirect_uri() {
        None => Ok(None),
        Some(redirect) => Ok(Some(redirect.clone_in(alloc)?)),
    }
}

// The row on the URL.
#[tactic(auto, unfolding(crate::specs::Begin::url_or_refusal))]
fn url_of(
    alloc: Global,
    request: LoginRequest<'_>,
    challenge: PkceCodeChallenge,
) -> Result<(Url, CsrfToken, Nonce), BeginError>
    ensures url { IfOk result (λ built. url_or_refusal request.entry challenge ≡ Ok built.0) }
    ensures refused { IfErr result (λ e. Begins (Err e) (url_or_refusal request.entry challenge)) }
    ensures state { IfOk result (λ built. built.1 ≡ request.entry.state) }
    ensures nonce { IfOk result (λ built. built.2 ≡ request.entry.nonce) }
    ensures challenge { IfOk result (λ built. HasChallenge challenge built.0) }
    ensures once { IsUnmanagedBeside request.entry
        → IfOk result (λ built. StandOnce request.entry built.0) }
{
    match request.set_pkce_challenge(challenge).url(alloc) {
        Ok(built) => Ok(built),
        Err(BuildUrlError::TooLong) => Err(BeginError::TooLong),
        Err(BuildUrlError::Memory) => Err(BeginError::Memory),
    }
}

// What is recorded of a request beside its state.
#[derive(Drop)]
struct Kept {
    challenge: PkceCodeChallenge,
    redirect_uri: Option<RedirectUrl>,
}

// The rows on request and verifier, and what they leave to be kept.
fn kept_of(
    alloc: Global,
    client_id: &ClientId,
    has_endpoint: bool,
    pending: &Store,
    request: &LoginRequest<'_>,
    verifier: &PkceCodeVerifier,
    user_info: Option<UserInfoDemand>,
) -> Result<Kept, BeginError>
    ensures challenge { let b = begin_of request.now verifier.now user_info in
        let meant = challenge_or_refusal client_id.now has_endpoint pending.now b in
        IfOk result (λ kept. meant ≡ Ok kept.challenge) }
    ensures refused { let b = begin_of request.now verifier.now user_info in
        let meant = challenge_or_refusal client_id.now has_endpoint pending.now b in
        IfErr result (λ e. Begins (Err e) meant) }
    ensures own_challenge { IfOk result (λ kept. kept.challenge ≡ s256 verifier.now) }
    ensures redirect { IfOk result (λ kept. kept.redirect_uri ≡ request.now.redirect_uri) }
    ensures fits { OnOk result (IsTrue (is_verifier verifier.now)) }
    ensures absent { OnOk result (finite.get pending.now request.now.state ≡ None) }
{
    let challenge = match challenge_of(
        alloc,
        client_id,
        has_endpoint,
        pending,
        request,
        verifier,
        user_info,
    ) {
        Ok(challenge) => challenge,
        Err(refusal) => return Err(refusal),
    };
    match redirect_of(alloc, request) {
        Ok(redirect_uri) => Ok(Kept {
            challenge,
            redirect_uri,
        }),
        Err(_) => Err(BeginError::Memory),
    }
}

// Records a login, unless there is no memory.
fn record(
    pending: &mut Store,
    url: Url,
    state: CsrfToken,
    login: KeptLogin,
) -> Result<Url, BeginError>
    requires absent { finite.get pending.old state ≡ None }
    requires fits { IsTrue (is_verifier login.verifier) }
    ensures url { IfOk result (λ answered. answered ≡ url) }
    ensures memory { IfErr result (λ e. e ≡ BeginError.Memory) }
    ensures ok { OnOk result (pending.new ≡ finite.insert pending.old state login) }
    ensures err { OnErr result (pending.new ≡ pending.old) }
    ensures verifiers { HasVerifiers pending.new }
{
    match pending.insert(state.into_string(), login) {
        Ok(()) => Ok(url),
        Err(_) => {
            drop(url);
            Err(BeginError::Memory)
        }
    }
}

// The row on the URL; then the login is recorded.
fn recorded_url(
    alloc: Global,
    pending: &mut Store,
    request: LoginRequest<'_>,
    verifier: PkceCodeVerifier,
    user_info: Option<UserInfoDemand>,
    kept: Kept,
) -> Result<Url, BeginError>
    requires absent { finite.get pending.old request.state ≡ None }
    requires fits { IsTrue (is_verifier verifier) }
    requires redirect { kept.redirect_uri ≡ request.redirect_uri }
    ensures reply { Begins result (url_or_refusal request.entry kept.challenge) }
    ensures ok { let b = begin_of request.entry verifier user_info in
        OnOk result (pending.new ≡ with_login pending.old b) }
    ensures err { OnErr result (pending.new ≡ pending.old) }
    ensures verifiers { HasVerifiers pending.old → HasVerifiers pending.new }
    ensures challenge { IfOk result (HasChallenge kept.challenge) }
    ensures once { IsUnmanagedBeside request.entry → IfOk result (StandOnce request.entry) }
{
    let Kept {
        challenge,
        redirect_uri,
    } = kept;
    match url_of(alloc, request, challenge) {
        Ok((url, state, nonce)) => {
            let login = Login {
                nonce,
                redirect_uri,
                verifier,
                user_info,
            };
            match KeptLogin::of(alloc, login) {
                Ok(kept) => record(pending, url, state, kept),
                Err(_) => {
                    drop(url);
                    drop(state);
                    Err(BeginError::Memory)
                }
            }
        }
        Err(refusal) => {
            drop(redirect_uri);
            drop(verifier);
            Err(refusal)
        }
    }
}

// A begin, on the parts of a `Logins` and its client: the client's ID, and whether it has an endpoint for user info.
pub(crate) fn begun_url(
    alloc: Global,
    client_id: &ClientId,
    has_endpoint: bool,
    pending: &mut Store,
    request: LoginRequest<'_>,
    verifier: PkceCodeVerifier,
    user_info: Option<UserInfoDemand>,
) -> Result<Url, BeginError>
    ensures reply { let b = begin_of request.entry verifier user_info in
        Begins result (reply_by client_id.now has_endpoint pending.old b) }
    ensures ok { let b = begin_of request.entry verifier user_info in
        OnOk result (pending.new ≡ with_login pending.old b) }
    ensures err { OnErr result (pending.new ≡ pending.old) }
    ensures verifiers { HasVerifiers pending.old → HasVerifiers pending.new }
    ensures challenge { IfOk result (HasChallenge (s256 verifier)) }
    ensures once { IsUnmanagedBeside request.entry → IfOk result (StandOnce request.entry) }
{
    match kept_of(
        alloc,
        client_id,
        has_endpoint,
        pending,
        &request,
        &verifier,
        user_info,
    ) {
        Ok(kept) => recorded_url(alloc, pending, request, verifier, user_info, kept),
        Err(refusal) => {
            drop(request);
            drop(verifier);
            Err(refusal)
        }
    }
}
