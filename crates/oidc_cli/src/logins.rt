//! The lines of a script among logins: the client of a client line, and what a begin line and a callback line get.
ghost use Rattle.std.specs.Prelude.{◌≡◌, [], IfOk, IfErr, OnOk, Some, false};
ghost use Rattle.std.specs.Option.{option_or};
ghost use Rattle.oidc_login.specs.Begin.{begin_reply};
ghost use Rattle.oidc_login.specs.Errors.{seen_reply, wants_memory};
ghost use Rattle.oidc_login.specs.Events.{called_with};
ghost use Rattle.oidc_login.specs.Callback.{callback_store, outcome};
ghost use Rattle.oidc_cli.specs.Types.{types};
ghost use Rattle.oidc_cli.specs.Logins.{client_of as client_seen, request_for_code, begin_of_line, call_of_line};
ghost use Rattle.oidc_cli.specs.Report.{HasNoFloats};
ghost use Rattle.oidc_cli.specs.Steps.{store_after};

use crate::events::{BeginLine, CallbackLine, ClientLine, Event, ProviderUrls};
use crate::user::{PendingLogins, User};
use oidc_client::{AuthenticationFlow, Client, CoreAuthenticationFlow, CoreProviderMetadata};
use oidc_login::{BeginError, LoginClient, LoginError, LoginRequest};
use oidc_oauth2::{Fault, Recorded};
use oidc_types::{CoreJwsSigningAlgorithm, CsrfToken, Nonce, RedirectUrl};
use oidc_user_info::EmptyAdditionalProviderMetadata;
use std::alloc::{AllocError, Global};
use url::Url;

// What a provider says of itself.
fn provider_of(
    alloc: Global,
    urls: ProviderUrls,
    algorithms: Vec<CoreJwsSigningAlgorithm>,
) -> CoreProviderMetadata
    ensures issuer { result.issuer ≡ urls.issuer }
    ensures auth { result.authorization_endpoint ≡ urls.auth }
    ensures token { result.token_endpoint ≡ Some urls.token }
    ensures user_info { result.userinfo_endpoint ≡ urls.user_info }
    ensures algorithms { result.signing_algorithms ≡ algorithms.items }
    ensures keys { result.jwks ≡ [] }
{
    let ProviderUrls {
        issuer,
        jwks_uri,
        auth,
        token,
        user_info,
    } = urls;
    let nothing_more = EmptyAdditionalProviderMetadata {};
    CoreProviderMetadata::new(alloc, issuer, auth, jwks_uri, algorithms, nothing_more)
        .set_token_endpoint(Some(token))
        .set_userinfo_endpoint(user_info)
}

// The client of a client line.
pub(crate) fn client_of(alloc: Global, line: ClientLine) -> LoginClient
    ensures { result ≡ client_seen line }
{
    let ClientLine {
        id,
        secret,
        provider,
        redirect,
        algorithms,
        reading,
    } = line;
    let provider = provider_of(alloc, provider, algorithms);
    let client: LoginClient = Client::from_provider_metadata(provider, id, secret);
    let client = client.set_reading(reading);
    match redirect {
        None => client,
        Some(redirect) => client.set_redirect_uri(redirect),
    }
}

// ---- begins

// A client's request for a code.
fn authorization_request<'c>(
    alloc: Global,
    client: &'c LoginClient,
    state: CsrfToken,
    nonce: Nonce,
) -> Result<LoginRequest<'c>, AllocError>
    ensures { IfOk result (λ request. request ≡ request_for_code client.now state nonce) }
{
    let flow: CoreAuthenticationFlow = AuthenticationFlow::AuthorizationCode;
    client.authorize_url(alloc, flow, move || state, move || nonce)
}

// The same, with a redirect of its own, where there is one.
fn request_with<'c>(
    alloc: Global,
    client: &'c LoginClient,
    state: CsrfToken,
    nonce: Nonce,
    redirect: Option<RedirectUrl>,
) -> Result<LoginRequest<'c>, AllocError>
    ensures { IfOk result (λ request. request ≡ record (request_for_code client.now state nonce) {
      redirect_uri = option_or redirect client.now.redirect_uri;
    }) }
{
    let request = authorization_request(alloc, client, state, nonce)?;
    match redirect {
        None => Ok(request),
        Some(redirect) => Ok(request.set_redirect_uri(redirect)),
    }
}

// What a begin line gets, unless there is no memory.
pub(crate) fn begin<'c>(
    alloc: Global,
    client: &'c LoginClient,
    logins: &mut PendingLogins<'c>,
    line: BeginLine,
) -> Result<Result<Url, BeginError>, AllocError>
    requires same { logins.old.client ≡ client.now }
    ensures reply { let b = begin_of_line logins.old.client line in
        IfOk result (λ reply. reply ≡ begin_reply logins.old.client logins.old.pending b) }
    ensures client { logins.new.client ≡ logins.old.client }
    ensures store { OnOk result
        (logins.new.pending
        ≡ store_after logins.old.client logins.old.pending (Some (Event.Begin line))) }
{
    let BeginLine {
        state,
        nonce,
        redirect,
        verifier,
        user_info,
    } = line;
    let request = request_with(alloc, client, state, nonce, redirect)?;
    match logins.begin(request, verifier, user_info) {
        Ok(url) => Ok(Ok(url)),
        Err(BeginError::Memory) => Err(AllocError),
        Err(refusal) => Ok(Err(refusal)),
    }
}

// ---- callbacks

// What a callback got, and the transport that it used.
#[derive(Drop)]
pub(crate) struct Replied {
    pub(crate) reply: Result<User, LoginError<Fault>>,
    pub(crate) http: Recorded,
}

// What a callback got, unless there was no memory.
#[tactic(auto, using(crate::proofs::Callbacks::no_memory))]
fn replied_with(
    reply: Result<User, LoginError<Fault>>,
    http: Recorded,
) -> Result<Replied, AllocError>
    ensures reply { IfOk result (λ replied. replied.reply ≡ reply) }
    ensures http { IfOk result (λ replied. replied.http ≡ http) }
    ensures memory { OnOk result (IfErr reply (λ e. wants_memory e ≡ false)) }
{
    match reply {
        Ok(user) => Ok(Replied {
            reply: Ok(user),
            http,
        }),
        Err(refusal) => match refusal {
            LoginError::Memory { .. } => {
                drop(http);
                Err(AllocError)
            }
            _ => Ok(Replied {
                reply: Err(refusal),
                http,
            }),
        },
    }
}

// What a callback line gets, unless there is no memory.
pub(crate) fn call_back(
    alloc: Global,
    logins: &mut PendingLogins<'_>,
    line: CallbackLine,
) -> Result<Replied, AllocError>
    ensures reply { let a = called_with logins.old.client logins.old.pending (call_of_line line) in
        IfOk result (λ replied. seen_reply replied.reply ≡ (outcome types a line.answers).reply) }
    ensures sent { let a = called_with logins.old.client logins.old.pending (call_of_line line) in
        IfOk result (λ replied. replied.http.requests ≡ (outcome types a line.answers).sent) }
    ensures no_floats { IfOk result (λ replied. HasNoFloats (seen_reply replied.reply)) }
    ensures client { logins.new.client ≡ logins.old.client }
    ensures store { OnOk result
        (logins.new.pending ≡ callback_store logins.old.pending line.query) }
{
    let CallbackLine {
        now,
        query,
        answers,
    } = line;
    let mut http = Recorded::new(alloc, answers);
    let reply = logins.callback(query.as_bytes(), &mut http, now);
    replied_with(reply, http)
}
