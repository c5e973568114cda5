//! What a site does with the tokens of a user who is signed in: it refreshes them, and gives them up in the end.

ghost use Rattle.std.specs.Prelude.{◌≡◌, ◌≢◌, None, true, false, IfOk, IfErr, IfSome, IsNone, IsSomeAnd, OnErr, OnOk, codes};
ghost use Rattle.std.specs.FinMap as finite;
ghost use Rattle.std.specs.Option.{option_or};
ghost use Rattle.site.specs.Tokens as spec;
ghost use Rattle.site.specs.Tokens.{IsOfSignIn, ends_session};

use crate::User;
use crate::keep::{SiteSessions, end};
use crate::provider::{metadata, revocation, text};
use crate::session::{Session, Tokens, Visit, copy_of};
use jiff::Timestamp;
use oidc::core_types::{
    CoreClient, CoreErrorResponseType, CoreGenderClaim, CoreJweContentEncryptionAlgorithm,
    CoreJwsSigningAlgorithm, CoreRequestTokenError, CoreRevocableToken,
    CoreRevocationErrorResponse, CoreTokenType,
};
use oidc::login::LoginClient;
use oidc::{
    AllOtherClaims, Client, ClientId, ClientSecret, ConfigurationError, EmptyExtraTokenFields,
    EndpointMaybeSet, EndpointNotSet, EndpointSet, IdTokenFields, OAuth2TokenResponse,
    RefreshToken, RefreshedClaimsError, RequestTokenError, StandardTokenResponse, SyncHttpClient,
};
use std::alloc::{AllocError, Global};

// ---- refresh

/// What the token endpoint answers, by the types of the logins' client.
pub(crate) type TokenAnswer = StandardTokenResponse<
    IdTokenFields<
        AllOtherClaims,
        EmptyExtraTokenFields,
        CoreGenderClaim,
        CoreJweContentEncryptionAlgorithm,
        CoreJwsSigningAlgorithm,
    >,
    CoreTokenType,
>;

/// Why there are no new tokens. `E` is the transport's error. The old tokens stay as they were, also where the provider
/// has already replaced them.
#[derive(Drop)]
pub(crate) enum RefreshError<E> {
    /// Nobody is signed in, or there is no refresh token: nothing was sent.
    NoRefreshToken,
    /// The client has no token endpoint: nothing was sent.
    Settings(ConfigurationError),
    /// The request, or its answer, failed, or there was no memory.
    Request(CoreRequestTokenError<E>),
    /// The ID token in the answer isn't accepted: all of the answer was let go.
    IdToken(RefreshedClaimsError),
}

// Whether a refusal of the provider's is about the user, who then signs in again, and not about the client.
fn is_about_user(code: &CoreErrorResponseType) -> bool
    ensures { result ≡ spec.is_about_user code.now }
{
    match code {
        CoreErrorResponseType::InvalidGrant | CoreErrorResponseType::Extension(_) => true,
        _ => false,
    }
}

impl<E> RefreshError<E> {
    /// Whether the user signs in again. Else the session goes on with what it has, and the site tries once more later.
    pub(crate) fn ends_session(&self) -> bool
        ensures { result ≡ spec.ends_session self.now }
    {
        match self {
            RefreshError::NoRefreshToken | RefreshError::IdToken(_) => true,
            RefreshError::Request(RequestTokenError::ServerResponse(response)) => {
                is_about_user(response.error())
            }
            _ => false,
        }
    }
}

// What the provider answers this refresh token.
fn new_tokens<H: SyncHttpClient>(
    alloc: Global,
    client: &LoginClient,
    token: &RefreshToken,
    http: &mut H,
) -> Result<TokenAnswer, RefreshError<H::Error>>
    requires { H.ready http.old }
    ensures again { H.ready http.new }
    ensures unset { IsNone client.now.token_uri → http.new ≡ http.old }
{
    match client.exchange_refresh_token(alloc, token) {
        Ok(request) => request.request(alloc, http).map_err(RefreshError::Request),
        Err(error) => Err(RefreshError::Settings(error)),
    }
}

// Judges the ID token of an answer, where there is one: by what the client expects, beside the claims of the sign-in
// and the access token of the same answer.
fn judge(
    alloc: Global,
    client: &LoginClient,
    user: &User,
    answer: &TokenAnswer,
    now: Timestamp,
) -> Result<(), RefreshedClaimsError>
    ensures accepted { OnOk result (IsOfSignIn client.now now.nanosecond user.now answer.now) }
    ensures refused { IsOfSignIn client.now now.nanosecond user.now answer.now
        → IfErr result (λ error. error ≡ RefreshedClaimsError.Memory) }
{
    let Some(token) = answer.extra_fields().id_token() else {
        return Ok(());
    };
    let Ok(verifier) = client.id_token_verifier(alloc) else {
        return Err(RefreshedClaimsError::Memory);
    };
    match token.refreshed_claims(alloc, &verifier, user.claims(), answer.access_token(), now) {
        Ok(_) => Ok(()),
        Err(refusal) => Err(refusal),
    }
}

// Keeps the tokens of an answer: the refresh token stays where none came.
fn keep(alloc: Global, kept: &mut Tokens, answer: &TokenAnswer) -> Result<(), AllocError>
    ensures access { OnOk result (kept.new.access_token ≡ answer.now.access_token) }
    ensures refresh { let newest = option_or answer.now.refresh_token kept.old.refresh_token in
        OnOk result (kept.new.refresh_token ≡ newest) }
    ensures err { OnErr result (kept.new ≡ kept.old) }
{
    let access_token = answer.access_token().clone_in(alloc)?;
    if let Some(newer) = copy_of(alloc, answer.refresh_token())? {
        kept.refresh_token = Some(newer);
    }
    kept.access_token = access_token;
    Ok(())
}

// Why the tokens of an answer aren't kept.
fn unaccepted<E>(refusal: RefreshedClaimsError) -> RefreshError<E>
    ensures memory { refusal ≡ RefreshedClaimsError.Memory
        → result ≡ RefreshError.Request RequestTokenError.Memory }
    ensures refused { refusal ≢ RefreshedClaimsError.Memory
        → result ≡ RefreshError.IdToken refusal }
{
    match refusal {
        RefreshedClaimsError::Memory => RefreshError::Request(RequestTokenError::Memory),
        refusal => RefreshError::IdToken(refusal),
    }
}

// Keeps the tokens of an answer, once it is judged to be of the user's sign-in.
fn accept<E>(
    alloc: Global,
    client: &LoginClient,
    user: &User,
    kept: &mut Tokens,
    answer: &TokenAnswer,
    now: Timestamp,
) -> Result<(), RefreshError<E>>
    ensures judged { OnOk result (IsOfSignIn client.now now.nanosecond user.now answer.now) }
    ensures access { OnOk result (kept.new.access_token ≡ answer.now.access_token) }
    ensures refresh { let newest = option_or answer.now.refresh_token kept.old.refresh_token in
        OnOk result (kept.new.refresh_token ≡ newest) }
    ensures refused { OnErr result (kept.new ≡ kept.old) }
{
    if let Err(refusal) = judge(alloc, client, user, answer, now) {
        return Err(unaccepted(refusal));
    }
    match keep(alloc, kept, answer) {
        Ok(()) => Ok(()),
        Err(AllocError) => Err(RefreshError::Request(RequestTokenError::Memory)),
    }
}

/// New tokens by the refresh token that is kept (RFC 6749 section 6), for the user of this sign-in. Nothing of the
/// answer is kept before it is judged: an ID token in it has to be of the same sign-in, at the moment `now` (OpenID
/// Connect Core 1.0 section 12.2). Then its tokens are kept, the old refresh token where none came. After a refusal all
/// of the answer is let go.
pub(crate) fn refresh<H: SyncHttpClient>(
    alloc: Global,
    client: &LoginClient,
    user: &User,
    kept: &mut Tokens,
    http: &mut H,
    now: Timestamp,
) -> Result<TokenAnswer, RefreshError<H::Error>>
    requires { H.ready http.old }
    ensures again { H.ready http.new }
    ensures judged { IfOk result (IsOfSignIn client.now now.nanosecond user.now) }
    ensures access { IfOk result (λ answer. kept.new.access_token ≡ answer.access_token) }
    ensures refresh { let old = kept.old.refresh_token in
        IfOk result (λ answer. kept.new.refresh_token ≡ option_or answer.refresh_token old) }
    ensures refused { OnErr result (kept.new ≡ kept.old) }
    ensures none { IsNone kept.old.refresh_token → http.new ≡ http.old }
    ensures unset { IsNone client.now.token_uri → http.new ≡ http.old }
{
    let Some(token) = &kept.refresh_token else {
        return Err(RefreshError::NoRefreshToken);
    };
    let answer = new_tokens(alloc, client, token, http)?;
    match accept(alloc, client, user, kept, &answer, now) {
        Ok(()) => Ok(answer),
        Err(refusal) => {
            drop(answer);
            Err(refusal)
        }
    }
}

// Refreshes the tokens of a user.
fn refresh_visit<H: SyncHttpClient>(
    alloc: Global,
    client: &LoginClient,
    visit: &mut Visit,
    http: &mut H,
    now: Timestamp,
) -> Result<(), RefreshError<H::Error>>
    requires { H.ready http.old }
    ensures again { H.ready http.new }
    ensures same { visit.new.user ≡ visit.old.user }
    ensures refused { OnErr result (visit.new ≡ visit.old) }
{
    let answer = refresh(alloc, client, &visit.user, &mut visit.tokens, http, now)?;
    drop(answer);
    Ok(())
}

// The same of whoever is signed in.
fn refresh_any<H: SyncHttpClient>(
    alloc: Global,
    client: &LoginClient,
    session: &mut Session,
    http: &mut H,
    now: Timestamp,
) -> Result<(), RefreshError<H::Error>>
    requires { H.ready http.old }
    ensures again { H.ready http.new }
    ensures refused { OnErr result (session.new ≡ session.old) }
{
    match &mut session.visit {
        Some(visit) => refresh_visit(alloc, client, visit, http, now),
        None => Err(RefreshError::NoRefreshToken),
    }
}

// Ends a session, where it is over.
fn end_if(sessions: &mut SiteSessions<'_>, session: &mut Session, is_over: bool)
    ensures ended { is_over ≡ true → session.new.visit ≡ None }
    ensures closed { is_over ≡ true → IfSome session.old.visit (λ visit.
        finite.get sessions.new.kept.sessions visit.id ≡ None) }
    ensures stays { is_over ≡ false → session.new ≡ session.old }
    ensures open { is_over ≡ false → sessions.new ≡ sessions.old }
{
    if is_over {
        drop(end(sessions, session));
    }
}

/// Refreshes the tokens of the session's user. Where the user has to sign in again, the session is ended.
pub(crate) fn refresh_session<H: SyncHttpClient>(
    alloc: Global,
    client: &LoginClient,
    sessions: &mut SiteSessions<'_>,
    session: &mut Session,
    http: &mut H,
    now: Timestamp,
) -> Result<(), RefreshError<H::Error>>
    requires { H.ready http.old }
    ensures again { H.ready http.new }
    ensures ended { IfErr result (λ error. ends_session error ≡ true → session.new.visit ≡ None) }
    ensures closed { IfErr result (λ error. ends_session error ≡ true
        → IfSome session.old.visit (λ visit.
        finite.get sessions.new.kept.sessions visit.id ≡ None)) }
    ensures stays { IfErr result (λ error. ends_session error ≡ false → session.new ≡ session.old) }
    ensures open { IfErr result (λ error. ends_session error ≡ false → sessions.new ≡ sessions.old) }
    ensures goes_on { OnOk result (sessions.new ≡ sessions.old) }
{
    match refresh_any(alloc, client, session, http, now) {
        Ok(()) => Ok(()),
        Err(refusal) => {
            end_if(sessions, session, refusal.ends_session());
            Err(refusal)
        }
    }
}

// ---- revocation

/// A client that is made of the provider's metadata.
type PlainClient = CoreClient<
    EndpointSet,
    EndpointNotSet,
    EndpointNotSet,
    EndpointNotSet,
    EndpointMaybeSet,
    EndpointMaybeSet,
>;

/// The same with a revocation endpoint. The client of the logins has none, so this is another one of the same ID.
pub(crate) type RevocationClient = CoreClient<
    EndpointSet,
    EndpointNotSet,
    EndpointNotSet,
    EndpointSet,
    EndpointMaybeSet,
    EndpointMaybeSet,
>;

/// The client that revokes.
pub(crate) fn revocation_client(alloc: Global) -> anyhow::Result<RevocationClient> {
    let id = ClientId::new(text(alloc, "aaa")?);
    let secret = ClientSecret::new(text(alloc, "bbb")?);
    let revocation = revocation(alloc)?;
    let client: PlainClient = Client::from_provider_metadata(metadata(alloc)?, id, Some(secret));
    Ok(client.set_revocation_url(revocation))
}

/// Why a token isn't revoked. `E` is the transport's error.
#[derive(Drop)]
pub(crate) enum RevokeError<E> {
    /// The revocation endpoint isn't `https`: nothing was sent.
    Settings(ConfigurationError),
    /// The request, or its answer, failed, or there was no memory.
    Request(RequestTokenError<E, CoreRevocationErrorResponse>),
}

// Asks the provider to revoke this token.
fn revoke_token<H: SyncHttpClient>(
    alloc: Global,
    client: &RevocationClient,
    token: RefreshToken,
    http: &mut H,
) -> Result<(), RevokeError<H::Error>>
    requires { H.ready http.old }
    ensures again { H.ready http.new }
    ensures secure { let is_secure = IsSomeAnd client.now.revocation_url
        (λ endpoint. endpoint.url.scheme ≡ codes "https") in
        (is_secure → ⊥) → http.new ≡ http.old }
{
    match client.revoke_token(alloc, CoreRevocableToken::RefreshToken(token)) {
        Ok(request) => request.request(alloc, http).map_err(RevokeError::Request),
        Err(error) => Err(RevokeError::Settings(error)),
    }
}

/// Gives up a refresh token (RFC 7009 section 2.1): with it a provider should end the access tokens of the same login,
/// and need not. The token is kept until the provider says that it is good no more. It goes to an `https` endpoint
/// alone.
pub(crate) fn revoke<H: SyncHttpClient>(
    alloc: Global,
    client: &RevocationClient,
    kept: &mut Option<RefreshToken>,
    http: &mut H,
) -> Result<(), RevokeError<H::Error>>
    requires { H.ready http.old }
    ensures again { H.ready http.new }
    ensures revoked { OnOk result (kept.new ≡ None) }
    ensures stays { OnErr result (kept.new ≡ kept.old) }
    ensures none { IsNone kept.old → http.new ≡ http.old }
    ensures secure { let is_secure = IsSomeAnd client.now.revocation_url
        (λ endpoint. endpoint.url.scheme ≡ codes "https") in
        (is_secure → ⊥) → http.new ≡ http.old }
{
    match copy_of(alloc, kept.as_ref()) {
        Ok(Some(token)) => {
            revoke_token(alloc, client, token, http)?;
            *kept = None;
            Ok(())
        }
        Ok(None) => Ok(()),
        Err(AllocError) => Err(RevokeError::Request(RequestTokenError::Memory)),
    }
}
