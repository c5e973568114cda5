//! Authorization requests and their URLs (RFC 6749 section 4.1.1, OpenID Connect Core 1.0 sections 3.1.2.1,
//! 3.2.2.1 and 3.3.2.1).

ghost use Rattle.std.specs.Prelude.{◌≡◌, ◌≤◌, ◌<◌, ◌∷◌, ◌++◌, [], None, Some, Err, IfOk, IfSome, length, codes, map, if◌then◌else◌};
ghost use Rattle.std.specs.Duration.{as_nanos};
ghost use Rattle.std.specs.Option.{option_copied};
ghost use Rattle.std.specs.String.{string_bytes};
ghost use Rattle.url.specs.Parts.{serialize};
ghost use Rattle.oidc_client.specs.Authorization.{auth_url, seen_flow, HasChallenge, IsUnmanagedBeside, StandOnce};

mod pairs;

use oidc_claims::{AdditionalClaims, GenderClaim};
use oidc_oauth2::PkceCodeChallenge;
use oidc_tokens::IdToken;
use oidc_types::{
    AuthDisplay, AuthPrompt, AuthUrl, AuthenticationContextClass, ClientId, CoreResponseType,
    CsrfToken, JweContentEncryptionAlgorithm, JwsSigningAlgorithm, LanguageTag, LoginHint, Nonce,
    RedirectUrl, ResponseType, Scope,
};
use oidc_user_info::BuildUrlError;
use std::alloc::{AllocError, Global};
use std::marker::Model;
use std::time::Duration;
use url::Url;

/// How the provider answers: what comes from the authorization endpoint, and what from the token endpoint
/// (OpenID Connect Core 1.0 section 3).
#[derive(Debug, Drop, PartialEq, Eq)]
pub enum AuthenticationFlow<RT> {
    /// A code comes from the authorization endpoint, all else from the token endpoint.
    AuthorizationCode,
    /// An ID token comes from the authorization endpoint and, where this is true, an access token too.
    Implicit(bool),
    /// What is said here comes from the authorization endpoint, the rest from the token endpoint.
    Hybrid(Vec<RT>),
}

/// A flow over the response types of the standards.
pub type CoreAuthenticationFlow = AuthenticationFlow<CoreResponseType>;

/// A request to the authorization endpoint, with displays `AD`, prompts `P` and response types `RT`. A client
/// makes it, by `Client::authorize_url`. Contracts see what it asks for; its redirect is its own, else the
/// client's.
///
/// It has no `Debug`, since it holds a state and a nonce.
#[derive(Drop)]
pub struct AuthorizationRequest<'a, AD, P, RT> {
    parties: Parties<'a>,
    flow: AuthenticationFlow<RT>,
    state: CsrfToken,
    nonce: Nonce,
    challenge: Option<PkceCodeChallenge>,
    own_redirect: Option<RedirectUrl>,
    scopes: Vec<Scope>,
    extra_params: Vec<(String, String)>,
    acr_values: Vec<AuthenticationContextClass>,
    claims_locales: Vec<LanguageTag>,
    display: Option<AD>,
    id_token_hint: Option<String>,
    login_hint: Option<LoginHint>,
    max_age: Option<Duration>,
    prompts: Vec<P>,
    ui_locales: Vec<LanguageTag>,
}

impl<'a, AD, P, RT> Model for AuthorizationRequest<'a, AD, P, RT> {
    ghost use Rattle.std.specs.Prelude.{map, option_map, string_bytes};
    ghost use Rattle.std.specs.Duration.{as_nanos};
    ghost use Rattle.std.specs.Option.{option_copied, option_or};
    ghost use Rattle.oidc_client.specs.Authorization.{SeenAuthorization, seen_flow};

    ghost Value = { SeenAuthorization AD P RT };

    ghost view = { λ r. record {
      endpoint = r.parties.endpoint.now;
      flow = seen_flow r.flow;
      client_id = r.parties.client_id.now;
      state = r.state;
      nonce = r.nonce;
      challenge = r.challenge;
      redirect_uri = option_or r.own_redirect (option_copied r.parties.redirect_uri);
      scopes = r.scopes.items;
      extra = map (λ p. (string_bytes p.0, string_bytes p.1)) r.extra_params.items;
      acr_values = r.acr_values.items;
      claims_locales = r.claims_locales.items;
      display = r.display;
      id_token_hint = option_map string_bytes r.id_token_hint;
      login_hint = r.login_hint;
      max_age = option_map as_nanos r.max_age;
      prompts = r.prompts.items;
      ui_locales = r.ui_locales.items;
    } };
}

// To whom a request goes, and from whom.
#[derive(Clone, Copy)]
pub(crate) struct Parties<'a> {
    pub(crate) endpoint: &'a AuthUrl,
    pub(crate) client_id: &'a ClientId,
    pub(crate) redirect_uri: Option<&'a RedirectUrl>,
}

// The scopes of a new request.
pub(crate) fn openid_scopes(alloc: Global, is_asked: bool) -> Result<Vec<Scope>, AllocError>
    ensures { let scopes = if is_asked then codes "openid" ∷ [] else [] in
        IfOk result (λ made. made.items ≡ scopes) }
{
    let mut scopes = Vec::new(alloc);
    if is_asked {
        scopes.push(Scope::new(String::from_str(alloc, "openid")?))?;
    }
    Ok(scopes)
}

impl<'a, AD: AuthDisplay, P: AuthPrompt, RT: ResponseType> AuthorizationRequest<'a, AD, P, RT> {
    // A request for these scopes, and for nothing else.
    pub(crate) fn new(
        alloc: Global,
        parties: Parties<'a>,
        flow: AuthenticationFlow<RT>,
        state: CsrfToken,
        nonce: Nonce,
        scopes: Vec<Scope>,
    ) -> Self
        ensures { result ≡ record {
          endpoint = parties.entry.endpoint.now;
          flow = seen_flow flow;
          client_id = parties.entry.client_id.now;
          state = state;
          nonce = nonce;
          challenge = None;
          redirect_uri = option_copied parties.entry.redirect_uri;
          scopes = scopes.items;
          extra = [];
          acr_values = [];
          claims_locales = [];
          display = None;
          id_token_hint = None;
          login_hint = None;
          max_age = None;
          prompts = [];
          ui_locales = [];
        } }
    {
        AuthorizationRequest {
            parties,
            flow,
            state,
            nonce,
            challenge: None,
            own_redirect: None,
            scopes,
            extra_params: Vec::new(alloc),
            acr_values: Vec::new(alloc),
            claims_locales: Vec::new(alloc),
            display: None,
            id_token_hint: None,
            login_hint: None,
            max_age: None,
            prompts: Vec::new(alloc),
            ui_locales: Vec::new(alloc),
        }
    }

    /// With one more scope behind all others (RFC 6749 section 3.3). `AllocError` is want of memory, the one
    /// error.
    pub fn add_scope(mut self, scope: Scope) -> Result<Self, AllocError>
        ensures added { IfOk result
            (λ r. r ≡ record self.entry { scopes = self.entry.scopes ++ scope ∷ [] }) }
    {
        self.scopes.push(scope)?;
        Ok(self)
    }

    /// With these scopes behind all others. `AllocError` is want of memory, the one error.
    pub fn add_scopes(mut self, scopes: Vec<Scope>) -> Result<Self, AllocError>
        ensures added { IfOk result
            (λ r. r ≡ record self.entry { scopes = self.entry.scopes ++ scopes.items }) }
    {
        let mut scopes = scopes;
        self.scopes.append(&mut scopes)?;
        Ok(self)
    }

    /// With one more pair behind those that were added, all of which stand between `scope` and `nonce`. A name
    /// that the request itself uses then stands there twice. `AllocError` is want of memory, the one error.
    pub fn add_extra_param(mut self, name: String, value: String) -> Result<Self, AllocError>
        ensures added { IfOk result (λ r. r ≡ record self.entry {
          extra = self.entry.extra ++ (string_bytes name, string_bytes value) ∷ [];
        }) }
    {
        self.extra_params.push((name, value))?;
        Ok(self)
    }

    /// With this challenge (RFC 7636 section 4.3). `begin` of a store of logins sets it itself.
    pub fn set_pkce_challenge(mut self, challenge: PkceCodeChallenge) -> Self
        ensures set { result ≡ record self.entry { challenge = Some challenge } }
    {
        self.challenge = Some(challenge);
        self
    }

    /// With one more class that is asked for, less preferred than all others (`acr_values`). `AllocError` is
    /// want of memory, the one error.
    pub fn add_auth_context_value(
        mut self,
        value: AuthenticationContextClass,
    ) -> Result<Self, AllocError>
        ensures added { IfOk result
            (λ r. r ≡ record self.entry { acr_values = self.entry.acr_values ++ value ∷ [] }) }
    {
        self.acr_values.push(value)?;
        Ok(self)
    }

    /// With one more language of claims, less preferred than all others (`claims_locales`, section 5.2).
    /// `AllocError` is want of memory, the one error.
    pub fn add_claims_locale(mut self, locale: LanguageTag) -> Result<Self, AllocError>
        ensures added { IfOk result (λ r. r ≡ record self.entry {
          claims_locales = self.entry.claims_locales ++ locale ∷ [];
        }) }
    {
        self.claims_locales.push(locale)?;
        Ok(self)
    }

    /// With this way in which the provider shows its pages (`display`).
    pub fn set_display(mut self, display: AD) -> Self
        ensures set { result ≡ record self.entry { display = Some display } }
    {
        self.display = Some(display);
        self
    }

    /// With the text of this ID token as a hint at the user (`id_token_hint`). `AllocError` is want of memory,
    /// the one error.
    pub fn set_id_token_hint<
        AC: AdditionalClaims,
        GC: GenderClaim,
        JE: JweContentEncryptionAlgorithm,
        JS: JwsSigningAlgorithm,
    >(mut self, alloc: Global, token: &IdToken<AC, GC, JE, JS>) -> Result<Self, AllocError>
        ensures set { IfOk result
            (λ r. r ≡ record self.entry { id_token_hint = Some token.now.text }) }
    {
        self.id_token_hint = Some(token.to_string(alloc)?);
        Ok(self)
    }

    /// With this hint at the user (`login_hint`).
    pub fn set_login_hint(mut self, hint: LoginHint) -> Self
        ensures set { result ≡ record self.entry { login_hint = Some hint } }
    {
        self.login_hint = Some(hint);
        self
    }

    /// With this age, in whole seconds, beyond which the user has to authenticate again (`max_age`).
    pub fn set_max_age(mut self, age: Duration) -> Self
        ensures set { result ≡ record self.entry { max_age = Some (as_nanos age) } }
    {
        self.max_age = Some(age);
        self
    }

    /// With one more thing that the user is asked for (`prompt`). `AllocError` is want of memory, the one error.
    pub fn add_prompt(mut self, prompt: P) -> Result<Self, AllocError>
        ensures added { IfOk result
            (λ r. r ≡ record self.entry { prompts = self.entry.prompts ++ prompt ∷ [] }) }
    {
        self.prompts.push(prompt)?;
        Ok(self)
    }

    /// With one more language of pages, less preferred than all others (`ui_locales`). `AllocError` is want of
    /// memory, the one error.
    pub fn add_ui_locale(mut self, locale: LanguageTag) -> Result<Self, AllocError>
        ensures added { IfOk result
            (λ r. r ≡ record self.entry { ui_locales = self.entry.ui_locales ++ locale ∷ [] }) }
    {
        self.ui_locales.push(locale)?;
        Ok(self)
    }

    /// With this redirect in place of the client's. It is sent as its text was given.
    pub fn set_redirect_uri(mut self, redirect: RedirectUrl) -> Self
        ensures set { result ≡ record self.entry { redirect_uri = Some redirect } }
    {
        self.own_redirect = Some(redirect);
        self
    }

    /// The flow.
    pub fn flow(&self) -> &AuthenticationFlow<RT>
        ensures flow { seen_flow result.now ≡ self.now.flow }
    {
        &self.flow
    }

    /// The client ID.
    pub fn client_id(&self) -> &ClientId
        ensures id { result.now ≡ self.now.client_id }
    {
        self.parties.client_id
    }

    /// The state.
    pub fn state(&self) -> &CsrfToken
        ensures state { result.now ≡ self.now.state }
    {
        &self.state
    }

    /// The nonce.
    pub fn nonce(&self) -> &Nonce
        ensures nonce { result.now ≡ self.now.nonce }
    {
        &self.nonce
    }

    /// The redirect: its own, else that of the client that made it, where there is one.
    pub fn redirect_uri(&self) -> Option<&RedirectUrl>
        ensures redirect { option_copied result ≡ self.now.redirect_uri }
    {
        match &self.own_redirect {
            Some(redirect) => Some(redirect),
            None => self.parties.redirect_uri,
        }
    }

    /// Where the user is sent: the authorization endpoint with the request's pairs after its query; and the
    /// state and the nonce, which the answer has to match. `TooLong` exactly where the URL has more than
    /// 1,048,576 bytes. The URL has the pairs of any challenge. Where neither the endpoint's query nor a pair
    /// that was added has a name of the request's own pairs, state, nonce and any redirect stand in the URL once
    /// each.
    pub fn url(self, alloc: Global) -> Result<(Url, CsrfToken, Nonce), BuildUrlError>
        ensures url { let url = auth_url AD.as_ref P.as_ref RT.as_ref self.entry in
            IfOk result (λ built. built.0 ≡ url) }
        ensures state { IfOk result (λ built. built.1 ≡ self.entry.state) }
        ensures nonce { IfOk result (λ built. built.2 ≡ self.entry.nonce) }
        ensures fits { IfOk result (λ built. length (serialize built.0) ≤ 1_048_576) }
        ensures too_long { let url = auth_url AD.as_ref P.as_ref RT.as_ref self.entry in
            result ≡ Err BuildUrlError.TooLong → 1_048_576 < length (serialize url) }
        ensures challenge { IfSome self.entry.challenge
            (λ challenge. IfOk result (λ built. HasChallenge challenge built.0)) }
        ensures once { IsUnmanagedBeside self.entry
            → IfOk result (λ built. StandOnce self.entry built.0) }
    {
        let url = self.built(alloc)?;
        Ok((url, self.state, self.nonce))
    }
}
