// The step before the token request: the login that a query names, its error, its code, and the request.

ghost use Rattle.std.specs.Prelude.{◌≡◌, Err, IfErr, IfNone, IfOk, IfSome, IsSome, IsTrue, OnErr, OnOk, false, true, if◌then◌else◌};
ghost use Rattle.std.specs.Cow.{cow_str_bytes};
ghost use Rattle.oidc_pairs.specs.Pairs.{pairs};
ghost use Rattle.oidc_oauth2.specs.Pkce.{is_verifier};
ghost use Rattle.oidc_oauth2.specs.TokenAnswers.{is_over_long};
ghost use Rattle.oidc_oauth2.specs.Requests.{code_request, Prepares};
ghost use Rattle.oidc_oauth2.specs.Replies.{Gives, OrMemory};
ghost use Rattle.oidc_login.specs.Errors.{faulted, is_spent_by, login_errors, spent_of};
ghost use Rattle.oidc_login.specs.Logins.{HasVerifiers};
ghost use Rattle.oidc_login.specs.BeforeRequest as request;
ghost use Rattle.oidc_login.specs.Callback as rows;
ghost use Rattle.oidc_login.specs.BeforeRequest.{login_named_by};
ghost use Rattle.oidc_login.specs.Callback.{without_named, callback_store, SeenTaken};
ghost use Rattle.oidc_login.specs.Steps as steps;

use crate::errors::{LoginError, TooLong};
use crate::query::{error_code, is_too_long};
use crate::signed_in::TokenResponse;
use crate::store::{Login, Store};
use crate::types::MetadataClient;
use oidc_claims::{AdditionalClaims, GenderClaim};
use oidc_keys::JsonWebKey;
use oidc_oauth2::{
    CodeTokenRequest, CoreErrorResponseType, HttpRequest, OtherCause, PrepareError,
    RequestTokenError, StandardErrorResponse,
};
use oidc_pairs::{first_value, only_value};
use oidc_types::{AuthorizationCode, CoreJwsSigningAlgorithm};
use std::alloc::{AllocError, Global};
use std::borrow::CowStr;
use std::marker::Model;

// A login that was taken out, and its token request.
#[derive(Drop)]
pub(crate) struct TakenLogin {
    pub(crate) login: Login,
    pub(crate) request: HttpRequest,
}

impl Model for TakenLogin {
    ghost use Rattle.oidc_login.specs.Callback.{SeenTaken};

    ghost Value = { SeenTaken };

    ghost view = { λ t. record { login = t.login; request = t.request } };
}

// Takes the login of a query's one state out. Where there is no memory for the state, nothing is taken.
#[tactic(auto, using(crate::proofs::Entries::remove_absent))]
fn named_login(
    alloc: Global,
    pending: &mut Store,
    query: &[u8],
) -> Result<Option<Login>, AllocError>
    ensures login { IfOk result (λ found. found ≡ login_named_by pending.old (pairs query.now)) }
    ensures verifier { IfOk result (λ found. IfSome found (λ l. IsTrue (is_verifier l.verifier))) }
    ensures rest { OnOk result (pending.new ≡ without_named pending.old (pairs query.now)) }
    ensures kept { IfOk result (λ found. IfNone found (pending.new ≡ pending.old)) }
    ensures unread { OnErr result (pending.new ≡ pending.old) }
    ensures verifiers { HasVerifiers pending.old → HasVerifiers pending.new }
{
    match only_value(alloc, query, "state")? {
        Some(state) => Ok(pending.take(state.as_str())),
        None => Ok(None),
    }
}

// The request of a login for its tokens.
type CodeRequest<'a, AC, GC> = CodeTokenRequest<
    'a,
    StandardErrorResponse<CoreErrorResponseType>,
    TokenResponse<AC, GC>,
>;

// What a request hands over, where it can be made. The request is let go.
fn http_request_of<AC: AdditionalClaims, GC: GenderClaim>(
    alloc: Global,
    request: CodeRequest<'_, AC, GC>,
) -> Result<HttpRequest, PrepareError>
    ensures { Prepares result (code_request request.entry) }
{
    let made = request.prepare(alloc);
    drop(request);
    made
}

// The client's request for a code, with the login's verifier, and with its redirect in the place of the client's.
#[tactic(auto, unfolding(crate::specs::BeforeRequest::token_request))]
fn token_request<
    AC: AdditionalClaims,
    GC: GenderClaim,
    K: JsonWebKey<SigningAlgorithm = CoreJwsSigningAlgorithm>,
>(
    alloc: Global,
    client: &MetadataClient<AC, GC, K>,
    login: &Login,
    code: CowStr<'_, Global>,
) -> Result<HttpRequest, PrepareError>
    ensures { let sent = cow_str_bytes code.entry in
        Prepares result (request.token_request client.now login.now sent) }
{
    let code = AuthorizationCode::new(code.into_owned(alloc)?);
    let verifier = login.verifier.clone_in(alloc)?;
    let Ok(request) = client.exchange_code(alloc, code) else {
        drop(verifier);
        return Err(PrepareError::Uri);
    };
    let request = request.set_pkce_verifier(verifier);
    match &login.redirect_uri {
        None => http_request_of(alloc, request.without_redirect_uri()),
        Some(redirect) => http_request_of(alloc, request.set_redirect_uri(redirect)),
    }
}

// The refusal of a query by its first `error`.
fn provider_refusal<E>(alloc: Global, text: CowStr<'_, Global>) -> LoginError<E>
    ensures gives { Gives login_errors {A = SeenTaken} (Err result)
        (Err (LoginError.Provider (request.error_word (cow_str_bytes text.entry)))) }
    ensures no_fault { faulted result ≡ false }
    ensures spent { spent_of result ≡ true }
{
    match error_code(alloc, text.as_str()) {
        Ok(code) => LoginError::Provider(code),
        Err(_) => LoginError::Memory { spent: true },
    }
}

// The rows before the token request, of a query that isn't too long. Want of memory for the state leaves the store as
// it was; all other has spent the login.
#[tactic(auto, unfolding(crate::specs::Steps::taken_login_by))]
fn taken_login_by<
    AC: AdditionalClaims,
    GC: GenderClaim,
    K: JsonWebKey<SigningAlgorithm = CoreJwsSigningAlgorithm>,
    E,
>(
    alloc: Global,
    client: &MetadataClient<AC, GC, K>,
    pending: &mut Store,
    query: &[u8],
) -> Result<TakenLogin, LoginError<E>>
    ensures gives { Gives login_errors result
        (steps.taken_login_by client.now pending.old (pairs query.now)) }
    ensures no_fault { IfErr result (λ e. faulted e ≡ false) }
    ensures store { pending.new ≡ (if is_spent_by result
        then without_named pending.old (pairs query.now) else pending.old) }
    ensures left { OrMemory login_errors result
        (pending.new ≡ without_named pending.old (pairs query.now)) }
    ensures removed { is_spent_by result ≡ true
        → IsSome (login_named_by pending.old (pairs query.now)) }
    ensures verifiers { HasVerifiers pending.old → HasVerifiers pending.new }
{
    let Ok(named) = named_login(alloc, pending, query) else {
        return Err(LoginError::Memory { spent: false });
    };
    let Some(login) = named else {
        return Err(LoginError::State);
    };
    let Ok(error) = first_value(alloc, query, "error") else {
        drop(login);
        return Err(LoginError::Memory { spent: true });
    };
    if let Some(error) = error {
        drop(login);
        return Err(provider_refusal(alloc, error));
    }
    let Ok(code) = only_value(alloc, query, "code") else {
        drop(login);
        return Err(LoginError::Memory { spent: true });
    };
    let Some(code) = code else {
        drop(login);
        return Err(LoginError::Callback);
    };
    match token_request(alloc, client, &login, code) {
        Ok(request) => Ok(TakenLogin { login, request }),
        Err(PrepareError::Uri) => {
            drop(login);
            Err(LoginError::Token(RequestTokenError::Other(OtherCause::Uri)))
        }
        Err(PrepareError::Memory) => {
            drop(login);
            Err(LoginError::Memory { spent: true })
        }
    }
}

// The rows before the token request.
#[tactic(auto, unfolding(crate::specs::Callback::taken_login, crate::specs::Steps::taken_login_by))]
pub(crate) fn taken_login<
    AC: AdditionalClaims,
    GC: GenderClaim,
    K: JsonWebKey<SigningAlgorithm = CoreJwsSigningAlgorithm>,
    E,
>(
    alloc: Global,
    client: &MetadataClient<AC, GC, K>,
    pending: &mut Store,
    query: &[u8],
) -> Result<TakenLogin, LoginError<E>>
    ensures gives { Gives login_errors result (rows.taken_login client.now pending.old query.now) }
    ensures no_fault { IfErr result (λ e. faulted e ≡ false) }
    ensures store { pending.new ≡ (if is_spent_by result
        then without_named pending.old (pairs query.now) else pending.old) }
    ensures left { OrMemory login_errors result (pending.new ≡ callback_store pending.old query.now) }
    ensures removed { is_spent_by result ≡ true
        → IsSome (login_named_by pending.old (pairs query.now)) }
    ensures over_long { is_over_long query.now ≡ true
        → result ≡ Err (LoginError.TooLong TooLong.Callback) }
    ensures verifiers { HasVerifiers pending.old → HasVerifiers pending.new }
{
    if is_too_long(query) {
        return Err(LoginError::TooLong(TooLong::Callback));
    }
    taken_login_by(alloc, client, pending, query)
}
