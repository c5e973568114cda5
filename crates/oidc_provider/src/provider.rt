//! A provider double.

ghost use Rattle.std.specs.Prelude.{◌≡◌, ◌∷◌, ◌++◌, [], Ok, Err, IfOk, IfErr, OnOk, OnErr, IsErrOf, ◌↔◌, true, false, unwrap_or};
ghost use Rattle.std.specs.String.{string_bytes};
ghost use Rattle.oidc_pairs.specs.Pairs.{pairs};
ghost use Rattle.std.specs.Option.{option_copied};
ghost use Rattle.oidc_provider.specs.Settings.{has_same_client as same_client_in, registered as registered_among};
ghost use Rattle.oidc_provider.specs.Provider.{new_provider};
ghost use Rattle.oidc_provider.specs.Grants.{with_grant, has_code, has_token};
ghost use Rattle.oidc_provider.specs.Authorization as spec;
ghost use Rattle.oidc_provider.specs.Authorization.{Replies, asked, authorization_reply, seen_query};
ghost use Rattle.oidc_provider.specs.AuthorizationCauses as causes;
ghost use Rattle.oidc_provider.specs.Keeping.{Keeps};
ghost use Rattle.oidc_provider.specs.Steps as steps;
ghost use Rattle.oidc_provider.specs.Steps.{asked_by, allowed_to, client_reply, KeepsGrant, KeepsGrants, KeepsOfClient};
ghost use Rattle.oidc_provider.specs.Rows.{provider_of};
ghost use Rattle.oidc_provider.specs.declared.errors.AuthorizeError.{AuthorizeError};

use crate::authorization::{AskedGrant, Login, client_of, granted_login, registered};
use crate::errors::{AuthorizeError, NewProviderError};
use crate::grants::{Grant, Grants};
use crate::issuing::granted;
use crate::settings::{ProviderSettings, Registration, has_same_client};
use crate::transport::KeptResponse;
use oidc_claims::{AdditionalClaims, GenderClaim};
use oidc_oauth2::HttpRequest;
use oidc_pairs::{BorrowedPairs, FormText};
use oidc_tokens::IdTokenClaims;
use oidc_types::{AccessToken, AuthorizationCode, ClientId};
use oidc_user_info::UserInfoClaims;
use std::alloc::{AllocError, Global};
use std::marker::{Model, PhantomData};
use url::Url;

/// A provider double, which grants ID tokens whose additional claims are of type `AC` and genders of type `GC`. Contracts
/// see its settings, its registrations, its grants, and the requests that it got with their answers.
#[derive(Drop)]
pub struct Provider<AC, GC> {
    pub(crate) alloc: Global,
    pub(crate) settings: ProviderSettings,
    pub(crate) registrations: Vec<Registration>,
    pub(crate) grants: Grants,
    pub(crate) requests: Vec<HttpRequest>,
    pub(crate) given: Vec<KeptResponse>,
    additional: PhantomData<AC>,
    gender: PhantomData<GC>,
}

impl<AC, GC> Model for Provider<AC, GC> {
    ghost use Rattle.std.specs.Prelude.{map, Some};
    ghost use Rattle.oidc_provider.specs.Provider.{SeenProvider, provider_code};

    ghost Value = { SeenProvider };

    ghost coded = { provider_code };

    ghost view = { λ p. record {
      settings = p.settings;
      registrations = p.registrations.items;
      grants = p.grants;
      requests = p.requests.items;
      answers = map Some p.given.items;
    } };
}

// The form text of a code and a state.
fn written_query(alloc: Global, code: &str, state: &str) -> Result<String, AllocError>
    ensures { IfOk result (λ query.
        string_bytes query ≡ spec.callback_query code.now state.now) }
{
    let mut form = FormText::new(alloc);
    form.push("code", code)?;
    form.push("state", state)?;
    Ok(form.into_string())
}

// The same, which is read back.
fn query_of_grant(alloc: Global, code: &str, state: &str) -> Result<String, AllocError>
    ensures query { IfOk result (λ query.
        string_bytes query ≡ spec.callback_query code.now state.now) }
    ensures named { IfOk result (λ query.
        pairs (string_bytes query) ≡ spec.callback_pairs code.now state.now) }
{
    written_query(alloc, code, state)
}

// A grant is kept, and the query that names it.
fn kept_query(
    alloc: Global,
    grants: &mut Grants,
    state: &str,
    grant: Grant,
) -> Result<String, AllocError>
    requires code { has_code grants.old grant.code ≡ false }
    requires token { has_token grants.old grant.token ≡ false }
    ensures query { IfOk result
        (λ query. string_bytes query ≡ spec.callback_query grant.code state.now) }
    ensures named { IfOk result
        (λ query. pairs (string_bytes query) ≡ spec.callback_pairs grant.code state.now) }
    ensures kept { OnOk result (grants.new ≡ with_grant grants.old grant) }
    ensures unchanged { OnErr result (grants.new ≡ grants.old) }
{
    let query = query_of_grant(alloc, grant.code.as_str(), state)?;
    grants.insert(alloc, grant)?;
    Ok(query)
}

// The query of a URL, which may be empty.
fn query_of(url: &Url) -> &[u8]
    ensures { result.now ≡ unwrap_or url.now.query [] }
{
    match url.query() {
        Some(query) => query.as_bytes(),
        None => &[],
    }
}

// Grants what is asked by a client that is registered.
fn granted_query<AC: AdditionalClaims, GC: GenderClaim>(
    alloc: Global,
    settings: &ProviderSettings,
    client: &Registration,
    grants: &mut Grants,
    login: Login,
    given: (AuthorizationCode, AccessToken),
    claims: (IdTokenClaims<AC, GC>, UserInfoClaims<AC, GC>),
) -> Result<String, AllocError>
    requires code { has_code grants.old given.0 ≡ false }
    requires token { has_token grants.old given.1 ≡ false }
    ensures query { IfOk result
        (λ query. string_bytes query ≡ spec.callback_query given.0 login.state) }
    ensures kept { let allowed = allowed_to client.now login in
        IfOk result (λ query. KeepsGrant AC.read_of GC.read_of AC.write_of GC.write_of settings.now
        allowed given.0 given.1 claims.0 claims.1 grants.old grants.new (string_bytes query)) }
    ensures unchanged { OnErr result (grants.new ≡ grants.old) }
{
    let state = String::from_str(alloc, login.state.secret());
    let grant = granted(alloc, settings, client, login, given, claims);
    match (state, grant) {
        (Ok(state), Ok(grant)) => kept_query(alloc, grants, state.as_str(), grant),
        _ => Err(AllocError),
    }
}

// The login of a request that is granted to this client: what is handed in is lent.
fn login_granted<AC: AdditionalClaims, GC: GenderClaim>(
    alloc: Global,
    client: &Registration,
    grants: &Grants,
    query: &BorrowedPairs<'_>,
    given: &(AuthorizationCode, AccessToken),
    claims: &(IdTokenClaims<AC, GC>, UserInfoClaims<AC, GC>),
) -> Result<Login, AuthorizeError>
    ensures { let asked = asked_by query.now claims.now.0.standard_claims.subject
        claims.now.1.standard_claims.subject given.now.0 given.now.1 in
        Replies result (steps.granted_login grants.now client.now asked) }
{
    let handed_in = AskedGrant {
        subject: claims.0.subject(),
        info_subject: claims.1.subject(),
        code: &given.0,
        token: &given.1,
    };
    granted_login(alloc, client, grants, query, handed_in)
}

// The refusal is want of memory.
fn or_memory(made: Result<String, AllocError>) -> Result<String, AuthorizeError>
    ensures { result ≡ steps.or_memory made }
{
    match made {
        Ok(query) => Ok(query),
        Err(_) => Err(AuthorizeError::Memory),
    }
}

// The query that answers the request of a client that is registered.
fn client_query<AC: AdditionalClaims, GC: GenderClaim>(
    alloc: Global,
    settings: &ProviderSettings,
    client: &Registration,
    grants: &mut Grants,
    query: &BorrowedPairs<'_>,
    given: (AuthorizationCode, AccessToken),
    claims: (IdTokenClaims<AC, GC>, UserInfoClaims<AC, GC>),
) -> Result<String, AuthorizeError>
    ensures reply { let a = asked_by query.now claims.0.standard_claims.subject
        claims.1.standard_claims.subject given.0 given.1 in
        Replies (seen_query result) (client_reply grants.old client.now a) }
    ensures kept { let a = asked_by query.now claims.0.standard_claims.subject
        claims.1.standard_claims.subject given.0 given.1 in
        IfOk result (λ query. KeepsOfClient AC.read_of GC.read_of AC.write_of GC.write_of
        settings.now client.now claims.0 claims.1 a grants.old grants.new (string_bytes query)) }
    ensures unchanged { OnErr result (grants.new ≡ grants.old) }
{
    match login_granted(alloc, client, grants, query, &given, &claims) {
        Ok(login) => or_memory(granted_query(
            alloc, settings, client, grants, login, given, claims,
        )),
        Err(refusal) => {
            drop(given);
            drop(claims);
            Err(refusal)
        }
    }
}

// The query that answers an authorization request.
fn authorized_query<AC: AdditionalClaims, GC: GenderClaim>(
    alloc: Global,
    settings: &ProviderSettings,
    registrations: &[Registration],
    grants: &mut Grants,
    query: &BorrowedPairs<'_>,
    given: (AuthorizationCode, AccessToken),
    claims: (IdTokenClaims<AC, GC>, UserInfoClaims<AC, GC>),
) -> Result<String, AuthorizeError>
    ensures reply { let p = provider_of settings.now registrations.now grants.old in
        let a = asked_by query.now claims.0.standard_claims.subject
        claims.1.standard_claims.subject given.0 given.1 in
        Replies (seen_query result) (authorization_reply p a) }
    ensures kept { let p = provider_of settings.now registrations.now grants.old in
        let a = asked_by query.now claims.0.standard_claims.subject
        claims.1.standard_claims.subject given.0 given.1 in
        IfOk result (λ query. KeepsGrants AC.read_of GC.read_of AC.write_of GC.write_of
        claims.0 claims.1 a p grants.new (string_bytes query)) }
    ensures unchanged { OnErr result (grants.new ≡ grants.old) }
{
    match client_of(registrations, query) {
        Some(client) => client_query(alloc, settings, client, grants, query, given, claims),
        None => {
            drop(given);
            drop(claims);
            Err(AuthorizeError::Client)
        }
    }
}

impl<AC: AdditionalClaims, GC: GenderClaim> Provider<AC, GC> {
    /// A provider of these clients, which has granted nothing. `SameClient` exactly where two registrations have one
    /// client ID.
    pub fn new(
        alloc: Global,
        settings: ProviderSettings,
        registrations: Vec<Registration>,
    ) -> Result<Self, NewProviderError>
        ensures made { IfOk result
            (λ provider. provider ≡ new_provider settings registrations.items) }
        ensures same_client { IsErrOf result NewProviderError.SameClient
            ↔ (same_client_in registrations.items ≡ true) }
    {
        if has_same_client(&registrations) {
            return Err(NewProviderError::SameClient);
        }
        Ok(Provider {
            alloc,
            settings,
            registrations,
            grants: Grants::new(alloc),
            requests: Vec::new(alloc),
            given: Vec::new(alloc),
            additional: PhantomData,
            gender: PhantomData,
        })
    }

    /// Answers an authorization request, as the authorization endpoint does for a user who agrees: the query with which the
    /// user comes back, of the code and the request's state. The claims of the ID token get the provider's issuer, the
    /// client as sole audience and the request's nonce, in the place of any others, and the hash of the access token;
    /// those of user info are kept as they are. From then on the grant's code may be redeemed once, by its client, with
    /// the request's redirect and the verifier of its challenge; and then its access token gives user info.
    ///
    /// The errors are, in this order: `Client`, where the URL's query doesn't name one client, or one that isn't
    /// registered; `Redirect`, where it doesn't name one redirect, or another text than the registered one; `Request`,
    /// where it hasn't one `response_type` with `code`, one `state`, one `nonce`, one `code_challenge` and one
    /// `code_challenge_method` with `S256`; `Subject`, where the two claims are about two subjects; `CodeUsed` and
    /// `TokenUsed`, where a grant has the code, or the access token; `TokenText`, where the access token may not stand
    /// in a header. `Memory` may come at any point. Each leaves the provider as it was.
    pub fn authorize(
        &mut self,
        url: &Url,
        claims: IdTokenClaims<AC, GC>,
        user_info: UserInfoClaims<AC, GC>,
        code: AuthorizationCode,
        token: AccessToken,
    ) -> Result<String, AuthorizeError>
        ensures reply { let subject = claims.standard_claims.subject in
            let a = asked url.now subject user_info.standard_claims.subject code token in
            Replies (seen_query result) (authorization_reply self.old a) }
        ensures kept { let subject = claims.standard_claims.subject in
            let a = asked url.now subject user_info.standard_claims.subject code token in
            IfOk result (λ query. Keeps AC.read_of GC.read_of AC.write_of GC.write_of
            claims user_info a self.old self.new (string_bytes query)) }
        ensures unchanged { OnErr result (self.new ≡ self.old) }

        // Each refusal has its cause, and each cause its refusal.
        ensures client { let subject = claims.standard_claims.subject in
            let a = asked url.now subject user_info.standard_claims.subject code token in
            IsErrOf result AuthorizeError.Client → causes.NamesNoClient self.old a }
        ensures redirect { let subject = claims.standard_claims.subject in
            let a = asked url.now subject user_info.standard_claims.subject code token in
            IsErrOf result AuthorizeError.Redirect → causes.NamesAnotherRedirect self.old a }
        ensures request { let subject = claims.standard_claims.subject in
            let a = asked url.now subject user_info.standard_claims.subject code token in
            IsErrOf result AuthorizeError.Request → causes.AsksForNoCode self.old a }
        ensures subject { let subject = claims.standard_claims.subject in
            let a = asked url.now subject user_info.standard_claims.subject code token in
            IsErrOf result AuthorizeError.Subject → causes.IsAboutTwo self.old a }
        ensures code_used { let subject = claims.standard_claims.subject in
            let a = asked url.now subject user_info.standard_claims.subject code token in
            IsErrOf result AuthorizeError.CodeUsed → causes.HasUsedCode self.old a }
        ensures token_used { let subject = claims.standard_claims.subject in
            let a = asked url.now subject user_info.standard_claims.subject code token in
            IsErrOf result AuthorizeError.TokenUsed → causes.HasUsedToken self.old a }
        ensures token_text { let subject = claims.standard_claims.subject in
            let a = asked url.now subject user_info.standard_claims.subject code token in
            IsErrOf result AuthorizeError.TokenText → causes.HasNoTokenText self.old a }
        ensures refused { let subject = claims.standard_claims.subject in
            let a = asked url.now subject user_info.standard_claims.subject code token in
            (e : AuthorizeError) → causes.Cause self.old a e → Replies (seen_query result) (Err e) }
        ensures granted { let subject = claims.standard_claims.subject in
            let a = asked url.now subject user_info.standard_claims.subject code token in
            (allowed : spec.Allowed) → causes.IsAllowed self.old a allowed
            → Replies (seen_query result) (Ok (spec.callback_query code allowed.login.state)) }
    {
        let text = query_of(url);
        let Ok(query) = BorrowedPairs::parse(self.alloc, text) else {
            drop(claims);
            drop(user_info);
            drop(code);
            drop(token);
            return Err(AuthorizeError::Memory);
        };
        authorized_query(
            self.alloc,
            &self.settings,
            &self.registrations,
            &mut self.grants,
            &query,
            (code, token),
            (claims, user_info),
        )
    }

    /// What it was made with.
    pub fn settings(&self) -> &ProviderSettings
        ensures settings { result.now ≡ self.now.settings }
    {
        &self.settings
    }

    /// The registration of a client, where it has one.
    pub fn registration(&self, id: &ClientId) -> Option<&Registration>
        ensures found { option_copied result ≡ registered_among self.now.registrations id.now }
    {
        registered(&self.registrations, id.as_str())
    }

    /// Whether it has a grant of this code, redeemed or not.
    pub fn has_code(&self, code: &AuthorizationCode) -> bool
        ensures found { result ≡ has_code self.now.grants code.now }
    {
        self.grants.has_code(code.secret())
    }

    /// Whether it has a grant of this access token.
    pub fn has_token(&self, token: &AccessToken) -> bool
        ensures found { result ≡ has_token self.now.grants token.now }
    {
        self.grants.has_token(token.secret())
    }

    /// The requests that it got, in their order.
    pub fn requests(&self) -> &[HttpRequest]
        ensures requests { result.now ≡ self.now.requests }
    {
        self.requests.as_slice()
    }
}
