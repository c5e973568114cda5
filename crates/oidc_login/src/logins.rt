//! The pending logins of one client.

ghost use Rattle.std.specs.Prelude.{◌≡◌, ◌≢◌, ◌↔◌, ◌≤◌, ◌<◌, length, codes, is_some, IfErr, IfOk, IfSome, OnOk, OnErr, IsErrOf, IsOk, IsSomeAnd, IsTrue, IsNone, IsSome, not, true, false, None};
ghost use Rattle.std.specs.FinMap as finite;
ghost use Rattle.url.specs.Parts.{serialize};
ghost use Rattle.oidc_pairs.specs.Pairs.{pairs};
ghost use Rattle.oidc_oauth2.specs.Pkce.{is_verifier, s256};
ghost use Rattle.oidc_oauth2.specs.Replies.{Gives, OrMemory};
ghost use Rattle.oidc_oauth2.specs.Exchanges.{known, IsRequestBlamed};
ghost use Rattle.oidc_oauth2.specs.TokenAnswers.{is_over_long};
ghost use Rattle.oidc_client.specs.Authorization.{HasChallenge, IsUnmanagedBeside, StandOnce};
ghost use Rattle.oidc_types.specs.declared.core_authorization.CoreAuthErrorResponseType.{CoreAuthErrorResponseType};
ghost use Rattle.oidc_login.specs.Errors.{hides_memory, is_spent_by, login_errors};
ghost use Rattle.oidc_login.specs.Types.{site_types};
ghost use Rattle.oidc_login.specs.Token.{subject_of, IsAcceptedBy, HasOwnHash};
ghost use Rattle.oidc_login.specs.Logins.{HasVerifiers, HasEndpoints};
ghost use Rattle.oidc_login.specs.Begin.{begin_of, begin_reply, is_code_flow, url_with, Begins, with_login};
ghost use Rattle.oidc_login.specs.Changes.{difference_of, has_same_text, seen_change, IsSameClient, Differs};
ghost use Rattle.oidc_login.specs.BeforeRequest.{login_named_by};
ghost use Rattle.oidc_login.specs.Callback.{callback_store};
ghost use Rattle.oidc_login.specs.Causes.{AsksNothing, HasError, LacksCode, HasNoRequest};
ghost use Rattle.oidc_login.specs.Runs.{Ran, Leaves, attempt};
ghost use Rattle.oidc_oauth2.specs.declared.token_answers.OtherCause.TheVariants as other;
ghost use Rattle.oidc_oauth2.specs.declared.token_answers.RequestTokenError.TheVariants as token;

use crate::begin::begun_url;
use crate::callback::callback_reply;
use crate::changes::first_difference;
use crate::errors::{BeginError, ChangeError, LoginError, NewLoginsError, TooLong};
use crate::signed_in::SignedIn;
use crate::store::Store;
use crate::types::{LoginRequest, MetadataClient, UserInfoDemand};
use jiff::Timestamp;
use oidc_claims::{AdditionalClaims, GenderClaim};
use oidc_keys::JsonWebKey;
use oidc_oauth2::SyncHttpClient;
use oidc_types::{CoreJwsSigningAlgorithm, PkceCodeVerifier};
use std::alloc::Global;
use std::marker::Model;
use url::Url;

// Whether a client has an endpoint for user info.
fn has_user_info<
    AC: AdditionalClaims,
    GC: GenderClaim,
    K: JsonWebKey<SigningAlgorithm = CoreJwsSigningAlgorithm>,
>(client: &MetadataClient<AC, GC, K>) -> bool
    ensures { result ≡ is_some client.now.user_info_url }
{
    client.user_info_endpoint().is_some()
}

/// The pending logins of one client, whose additional claims are of type `AC`, genders of type `GC`, and keys of
/// type `K`. Contracts see the client, and the finite map from each pending state to its login. No state is pending
/// twice, each verifier has 43 to 128 bytes, and user info is demanded only where the client has an endpoint for it.
#[derive(Drop)]
pub struct Logins<
    'c,
    AC: AdditionalClaims,
    GC: GenderClaim,
    K: JsonWebKey<SigningAlgorithm = CoreJwsSigningAlgorithm>,
> {
    alloc: Global,
    client: &'c MetadataClient<AC, GC, K>,
    pending: Store,
}

impl<
    'c,
    AC: AdditionalClaims,
    GC: GenderClaim,
    K: JsonWebKey<SigningAlgorithm = CoreJwsSigningAlgorithm>,
> Model for Logins<'c, AC, GC, K> {
    ghost use Rattle.std.specs.Coded.{codes};
    ghost use Rattle.oidc_login.specs.Logins.{SeenLogins, HasVerifiers, HasEndpoints, pending_code};

    ghost Value = { SeenLogins K };

    ghost coded = { Prim.hlevel (codes, pending_code) };

    ghost view = { λ l. record { client = l.client.now; pending = l.pending } };

    ghost invariant = { λ l. HasVerifiers l.pending
        × HasEndpoints l.client.now.user_info_url l.pending };
}

impl<
    'c,
    AC: AdditionalClaims,
    GC: GenderClaim,
    K: JsonWebKey<SigningAlgorithm = CoreJwsSigningAlgorithm>,
> Logins<'c, AC, GC, K> {
    /// The empty store over a client. `TokenEndpoint` exactly where the client has no token
    /// endpoint. It takes no memory.
    pub fn new(alloc: Global, client: &'c MetadataClient<AC, GC, K>) -> Result<Self, NewLoginsError>
        ensures empty { IfOk result (λ logins.
            logins ≡ record { client = client.now; pending = finite.empty }) }
        ensures token_endpoint { IsErrOf result NewLoginsError.TokenEndpoint
            ↔ IsNone client.now.token_uri }
    {
        if client.token_endpoint().is_none() {
            return Err(NewLoginsError::TokenEndpoint);
        }
        Ok(Logins {
            alloc,
            client,
            pending: Store::new(alloc),
        })
    }

    /// The same pending logins over another client of the same provider, as one whose keys are new (OpenID Connect Core
    /// 1.0 section 10.1.1): by it logins begin and callbacks are judged from then on. Whatever else of the client is new
    /// counts from then on too. It takes no memory.
    ///
    /// The errors are, in this order: `ClientId`, `Issuer`, `AuthorizationEndpoint`, `TokenEndpoint`, `UserInfoEndpoint`,
    /// where the two differ in it, by its text. The store comes back beside the error, as it was.
    pub fn with_client<'d>(
        self,
        client: &'d MetadataClient<AC, GC, K>,
    ) -> Result<Logins<'d, AC, GC, K>, (ChangeError, Self)>
        ensures reply { let old = self.entry.client in
            seen_change result ≡ difference_of old client.now }
        ensures changed { let pending = self.entry.pending in
            IfOk result (λ logins. logins ≡ record { client = client.now; pending = pending }) }
        ensures unchanged { IfErr result (λ refused. refused.1 ≡ self.entry) }
        ensures same { OnOk result (IsSameClient self.entry.client client.now) }
        ensures taken { IsSameClient self.entry.client client.now → IsOk result }
        ensures differs { let old = self.entry.client in
            IfErr result (λ refused. Differs old client.now refused.0) }
    {
        match first_difference(self.client, client) {
            Ok(()) => Ok(self.over(client)),
            Err(error) => Err((error, self)),
        }
    }

    // The same over another client, which has an endpoint for user info where this one has.
    fn over<'d>(self, client: &'d MetadataClient<AC, GC, K>) -> Logins<'d, AC, GC, K>
        requires { let old = self.client.user_info_url in
            has_same_text old client.now.user_info_url ≡ true }
        ensures { let pending = self.entry.pending in
            result ≡ record { client = client.now; pending = pending } }
    {
        let Logins { alloc, pending, .. } = self;
        Logins {
            alloc,
            client,
            pending,
        }
    }

    /// How many logins are pending.
    pub fn pending(&self) -> usize
        ensures count { result ≡ finite.len self.now.pending }
        ensures verifiers { HasVerifiers self.now.pending }
        ensures endpoints { HasEndpoints self.now.client.user_info_url self.now.pending }
    {
        self.pending.len()
    }

    /// Whether a login of this state is pending.
    pub fn is_pending(&self, state: &str) -> bool
        ensures { result ≡ finite.contains_key self.now.pending state.now }
    {
        self.pending.contains(state)
    }

    /// Begins a login: the URL that sends the user to the provider, which is the request's with the S256
    /// challenge of the verifier in the place of any other. The login is then pending under the request's
    /// state, with its nonce, the verifier, its redirect (its own, else that of the client that made it), and
    /// what is demanded of user info, where that is asked for.
    ///
    /// The errors are, in this order: `Flow`, where its flow isn't that of a code; `ClientId`, where it
    /// has another client ID than the store's client; `Verifier`, where the verifier hasn't 43 to 128 bytes;
    /// `UserInfoEndpoint`, where user info is demanded and the store's client has no endpoint for it; `Pending`,
    /// where a login of the state is pending; `TooLong`, where the URL has more than 1,048,576 bytes. `Memory`
    /// may come at any point. Each leaves the store as it was.
    pub fn begin(
        &mut self,
        request: LoginRequest<'c>,
        verifier: PkceCodeVerifier,
        user_info: Option<UserInfoDemand>,
    ) -> Result<Url, BeginError>
        ensures reply { let b = begin_of request.entry verifier user_info in
            Begins result (begin_reply self.old.client self.old.pending b) }
        ensures client { self.new.client ≡ self.old.client }
        ensures recorded { let b = begin_of request.entry verifier user_info in
            OnOk result (self.new.pending ≡ with_login self.old.pending b) }
        ensures unchanged { OnErr result (self.new.pending ≡ self.old.pending) }
        ensures verifiers { HasVerifiers self.new.pending }
        ensures endpoints { HasEndpoints self.new.client.user_info_url self.new.pending }

        // What the URL has.
        ensures challenge { IfOk result (HasChallenge (s256 verifier)) }
        ensures once { IsUnmanagedBeside request.entry → IfOk result (StandOnce request.entry) }

        // Each refusal has its cause.
        ensures flow { IsErrOf result BeginError.Flow → is_code_flow request.entry.flow ≡ false }
        ensures client_id { IsErrOf result BeginError.ClientId
            → request.entry.client_id ≢ self.old.client.client_id }
        ensures verifier { IsErrOf result BeginError.Verifier → is_verifier verifier ≡ false }
        ensures user_info { IsErrOf result BeginError.UserInfoEndpoint
            → IsSome user_info × IsNone self.old.client.user_info_url }
        ensures pending { IsErrOf result BeginError.Pending
            → finite.contains_key self.old.pending request.entry.state ≡ true }
        ensures too_long { IsErrOf result BeginError.TooLong
            → 1_048_576 < length (serialize (url_with request.entry (s256 verifier))) }
    {
        begun_url(
            self.alloc,
            self.client.client_id(),
            has_user_info(self.client),
            &mut self.pending,
            request,
            verifier,
            user_info,
        )
    }

    /// Answers a callback: takes the login that the query names by its one `state`, hands the
    /// request for the query's one `code` over, and signs the user in with the claims of the ID
    /// token in the answer, where it is accepted at `now` with the login's nonce. Where the login demands user
    /// info it asks for that too, about the ID token's subject, once the ID token is accepted.
    ///
    /// `LoginError::spent` says whether the login was removed; that this comes before anything is sent the body
    /// shows, and no clause. The errors are, in this order: `TooLong(Callback)`, where the query has more than
    /// 1,048,576 bytes; `State`, where it hasn't one `state` of a pending login; `Provider`, where it has an `error`,
    /// the first of which is carried; `Callback`, where it hasn't one `code`; `Token(Other(Uri))`, where the token endpoint's address
    /// isn't one that is sent to; `Token(Request)`, where the transport fails; `TooLong(TokenAnswer)`, where the
    /// answer has more than 1,048,576 bytes; the other `Token`, where it holds no tokens, or an ID token that
    /// doesn't read; `NoIdToken`, where these have no ID token among them; `Claims`, where a check of it fails;
    /// `Signing`, where it has an `at_hash` and no hash goes with its algorithm; `TokenHash`, where the `at_hash`
    /// isn't the hash of the access token (RFC 6749 sections 4.1.2 to 4.1.4, OpenID Connect Core 1.0 section
    /// 3.1.3).
    ///
    /// Behind them, where the login demands user info: `UserInfo(Other(Bearer))`, where the access token may not
    /// stand in a header; `UserInfo(Other(Uri))`, where the user info endpoint's text isn't an address that is
    /// sent to; `UserInfo(Request)`, where the transport fails; `TooLong(UserInfoAnswer)`, where the answer has
    /// more than 1,048,576 bytes; the other `UserInfo`, in the order of `UserInfoRequest::answer` (OpenID Connect
    /// Core 1.0 section 5.3). `Memory` may come at any point.
    pub fn callback<H: SyncHttpClient>(
        &mut self,
        query: &[u8],
        http: &mut H,
        now: Timestamp,
    ) -> Result<SignedIn<AC, GC>, LoginError<H::Error>>
        requires { H.ready http.old }
        ensures again { H.ready http.new }

        // For some answers, which are those that came where the transport keeps a log: reply and
        // requests are those of the table, or there was no memory. Each refusal has its cause, and
        // each cause its refusal; an Ok is a user who is signed in, and a valid login is an Ok.
        ensures ran { let types = site_types AC.read_of GC.read_of
            K.JsonWebKey K.KeyUse.JsonWebKeyUse in
            let a = attempt self.old query.now now.nanosecond in
            let before = known (H.log http.old) (H.script http.old) in
            let after = known (H.log http.new) (H.script http.new) in
            Ran types a before after result }

        // An Ok, whatever the transport: the query names a login. The ID token is accepted at this
        // moment with that login's nonce, and any `at_hash` in it is the hash of the access token.
        // User info is there exactly where the login demands it, about the ID token's subject.
        ensures named { OnOk result (IsSome (login_named_by self.old.pending (pairs query.now))) }
        ensures accepted { let types = site_types AC.read_of GC.read_of
            K.JsonWebKey K.KeyUse.JsonWebKeyUse in
            let login = login_named_by self.old.pending (pairs query.now) in
            IfOk result (λ signed. IsSomeAnd login (λ l.
            IsAcceptedBy types self.old.client l.nonce now.nanosecond signed.id_token)) }
        ensures hash { let types = site_types AC.read_of GC.read_of
            K.JsonWebKey K.KeyUse.JsonWebKeyUse in
            IfOk result (λ signed.
            HasOwnHash types self.old.client signed.id_token signed.access_token) }
        ensures user_info { let login = login_named_by self.old.pending (pairs query.now) in
            IfOk result (λ signed. IsSomeAnd login (λ l.
            is_some signed.user_info ≡ is_some l.user_info)) }
        ensures subject { IfOk result (λ signed. IfSome signed.user_info (λ found.
            found.standard_claims.subject ≡ subject_of signed.id_token)) }

        // The login that the query names is removed where `spent` says so, and no other. Where none
        // was removed, or the query asks for no request, the transport is as it was.
        ensures store { let a = attempt self.old query.now now.nanosecond in
            Leaves a self.new.pending result }
        ensures left { let meant = callback_store self.old.pending query.now in
            OrMemory login_errors result (self.new.pending ≡ meant) }
        ensures removed { is_spent_by result ≡ true
            → IsSome (login_named_by self.old.pending (pairs query.now)) }
        ensures unspent { is_spent_by result ≡ false
            → (http.new ≡ http.old) × (self.new.pending ≡ self.old.pending) }
        ensures idle { let a = attempt self.old query.now now.nanosecond in
            AsksNothing a → http.new ≡ http.old }
        ensures client { self.new.client ≡ self.old.client }
        ensures verifiers { HasVerifiers self.new.pending }
        ensures endpoints { HasEndpoints self.new.client.user_info_url self.new.pending }

        // This rests on the query, the store and the client alone.
        ensures too_long { result ≡ Err (LoginError.TooLong TooLong.Callback)
            → is_over_long query.now ≡ true }
        ensures over_long { is_over_long query.now ≡ true
            → result ≡ Err (LoginError.TooLong TooLong.Callback) }
        ensures state { result ≡ Err LoginError.State
            → login_named_by self.old.pending (pairs query.now) ≡ None }
        ensures no_state { is_over_long query.now ≡ false
            → login_named_by self.old.pending (pairs query.now) ≡ None
            → OrMemory login_errors result (result ≡ Err LoginError.State) }
        ensures provider { let a = attempt self.old query.now now.nanosecond in
            (code : CoreAuthErrorResponseType) → result ≡ Err (LoginError.Provider code)
            → HasError a code }
        ensures error { let a = attempt self.old query.now now.nanosecond in
            (code : CoreAuthErrorResponseType) → HasError a code
            → Gives login_errors result (Err (LoginError.Provider code)) }
        ensures callback { let a = attempt self.old query.now now.nanosecond in
            result ≡ Err LoginError.Callback → LacksCode a }
        ensures no_code { let a = attempt self.old query.now now.nanosecond in
            LacksCode a → Gives login_errors result (Err LoginError.Callback) }
        ensures uri { let a = attempt self.old query.now now.nanosecond in
            result ≡ Err (LoginError.Token (token.Other other.Uri)) → HasNoRequest a }
        ensures no_address { let a = attempt self.old query.now now.nanosecond in
            HasNoRequest a
            → Gives login_errors result (Err (LoginError.Token (token.Other other.Uri))) }

        // A fault of the transport comes only where its count has risen, or stands at its last
        // value.
        ensures blamed { IsRequestBlamed login_errors (H.faults http.old) (H.faults http.new) result }
        ensures never_falls { H.faults http.old ≤ H.faults http.new }

        // Want of memory is `Memory`, and never stands inside another refusal, nor does a body that is too long.
        ensures no_inner_memory { IfErr result (λ e. hides_memory e ≡ false) }
    {
        callback_reply(self.alloc, self.client, &mut self.pending, query, http, now)
    }
}
