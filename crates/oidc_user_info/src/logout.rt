//! Requests to a provider's logout, to which a site sends a user who signs out (OpenID Connect RP-Initiated Logout
//! 1.0 section 2), and a provider's metadata that says where they go (section 2.1).

ghost use Rattle.std.specs.Prelude.{◌≡◌, ◌++◌, ◌∷◌, [], Some, IfOk, map, option_map, unwrap_or};
ghost use Rattle.std.specs.Option.{option_copied};
ghost use Rattle.std.specs.String.{string_bytes};
ghost use Rattle.oidc_user_info.specs.QueryPairs.{named_value, spaced_if, Builds};
ghost use Rattle.oidc_user_info.specs.Logout.{new_logout, given_of, logout_list, logout_url};

use crate::provider_metadata::AdditionalProviderMetadata;
use crate::query_pairs::{BuildUrlError, QueryPairs, spaced_texts_if};
use oidc_claims::{AdditionalClaims, GenderClaim};
use oidc_tokens::IdToken;
use oidc_types::{
    ClientId, CsrfToken, EndSessionUrl, JweContentEncryptionAlgorithm, JwsSigningAlgorithm,
    LanguageTag, LogoutHint, PostLogoutRedirectUrl,
};
use std::alloc::{AllocError, Global};
use std::marker::Model;
use url::Url;

/// What a provider says of itself where its users can sign out.
#[derive(Drop)]
pub struct LogoutProviderMetadata<A: AdditionalProviderMetadata> {
    /// Where a user is sent to sign out, where there is such an endpoint.
    pub end_session_endpoint: Option<EndSessionUrl>,
    /// Further metadata.
    pub additional_metadata: A,
}

impl<A: AdditionalProviderMetadata> AdditionalProviderMetadata for LogoutProviderMetadata<A> {}

/// A request that a user be signed out at the provider. Contracts see what it says.
///
/// It has no `Debug`, since it may hold a token and a state.
#[derive(Drop)]
pub struct LogoutRequest {
    endpoint: EndSessionUrl,
    client_id: Option<ClientId>,
    state: Option<CsrfToken>,
    post_logout_redirect_uri: Option<PostLogoutRedirectUrl>,
    id_token_hint: Option<String>,
    logout_hint: Option<LogoutHint>,
    // None is an empty list, which is made without an allocator.
    ui_locales: Option<Vec<LanguageTag>>,
}

impl Model for LogoutRequest {
    ghost use Rattle.std.specs.Prelude.{[], option_map, string_bytes, unwrap_or};
    ghost use Rattle.oidc_user_info.specs.Logout.{SeenLogout};

    ghost Value = { SeenLogout };

    ghost view = { λ r. record {
      endpoint = r.endpoint;
      id_token_hint = option_map string_bytes r.id_token_hint;
      logout_hint = r.logout_hint;
      client_id = r.client_id;
      post_logout_redirect_uri = r.post_logout_redirect_uri;
      state = r.state;
      ui_locales = unwrap_or (option_map (λ locales. locales.items) r.ui_locales) [];
    } };
}

/// The request to this endpoint, which says nothing. It takes no memory.
impl From<EndSessionUrl> for LogoutRequest {
    ghost use Rattle.std.specs.Prelude.{◌≡◌};
    ghost use Rattle.oidc_user_info.specs.Logout.{new_logout};

    ghost from_gives = { λ endpoint request. request ≡ new_logout endpoint };

    fn from(endpoint: EndSessionUrl) -> LogoutRequest {
        LogoutRequest {
            endpoint,
            id_token_hint: None,
            logout_hint: None,
            client_id: None,
            post_logout_redirect_uri: None,
            state: None,
            ui_locales: None,
        }
    }
}

// These languages, where there are any, and one more behind them.
fn with_locale(
    alloc: Global,
    locales: Option<Vec<LanguageTag>>,
    locale: LanguageTag,
) -> Result<Vec<LanguageTag>, AllocError>
    ensures { let before = unwrap_or (option_map (λ list. list.items) locales) [] in
        IfOk result (λ made. made.items ≡ before ++ locale ∷ []) }
{
    let mut made = match locales {
        Some(locales) => locales,
        None => Vec::new(alloc),
    };
    made.push(locale)?;
    Ok(made)
}

// The texts of languages, where there are any.
fn locales_text(
    alloc: Global,
    locales: &Option<Vec<LanguageTag>>,
) -> Result<Option<String>, AllocError>
    ensures { let list = unwrap_or (option_map (λ list. list.items) locales.now) [] in
        IfOk result (λ text. option_map string_bytes text ≡ spaced_if list) }
{
    match locales {
        None => Ok(None),
        Some(locales) => spaced_texts_if(alloc, locales.as_slice()),
    }
}

fn text_of(text: &Option<String>) -> Option<&str>
    ensures { option_copied result ≡ option_map string_bytes text.now }
{
    match text {
        None => None,
        Some(text) => Some(text.as_str()),
    }
}

impl LogoutRequest {
    /// With the text of this ID token as a hint at the user (`id_token_hint`). `AllocError` is want of memory, the one
    /// error.
    pub fn set_id_token_hint<
        AC: AdditionalClaims,
        GC: GenderClaim,
        JE: JweContentEncryptionAlgorithm,
        JS: JwsSigningAlgorithm,
    >(mut self, alloc: Global, token: &IdToken<AC, GC, JE, JS>) -> Result<Self, AllocError>
        ensures set { IfOk result
            (λ r. r ≡ record self { id_token_hint = Some token.now.text }) }
    {
        self.id_token_hint = Some(token.to_string(alloc)?);
        Ok(self)
    }

    /// With this hint at the user (`logout_hint`).
    pub fn set_logout_hint(mut self, hint: LogoutHint) -> Self
        ensures set { result ≡ record self { logout_hint = Some hint } }
    {
        self.logout_hint = Some(hint);
        self
    }

    /// With the ID of this client (`client_id`).
    pub fn set_client_id(mut self, client_id: ClientId) -> Self
        ensures set { result ≡ record self { client_id = Some client_id } }
    {
        self.client_id = Some(client_id);
        self
    }

    /// With this URL, to which the provider sends the user back (`post_logout_redirect_uri`). It is sent as its text
    /// was given.
    pub fn set_post_logout_redirect_uri(mut self, redirect: PostLogoutRedirectUrl) -> Self
        ensures set { result ≡ record self { post_logout_redirect_uri = Some redirect } }
    {
        self.post_logout_redirect_uri = Some(redirect);
        self
    }

    /// With this state, which comes back with the user (`state`).
    pub fn set_state(mut self, state: CsrfToken) -> Self
        ensures set { result ≡ record self { state = Some state } }
    {
        self.state = Some(state);
        self
    }

    /// With one more language of pages, less preferred than all others (`ui_locales`). `AllocError` is want of
    /// memory, the one error.
    pub fn add_ui_locale(mut self, alloc: Global, locale: LanguageTag) -> Result<Self, AllocError>
        ensures added { IfOk result
            (λ r. r ≡ record self { ui_locales = self.ui_locales ++ locale ∷ [] }) }
    {
        let locales = with_locale(alloc, self.ui_locales.take(), locale)?;
        self.ui_locales = Some(locales);
        Ok(self)
    }

    fn logout_hint_text(&self) -> Option<&str>
        ensures { option_copied result ≡ self.now.logout_hint }
    {
        match &self.logout_hint {
            None => None,
            Some(hint) => Some(hint.secret()),
        }
    }

    fn client_id_text(&self) -> Option<&str>
        ensures { option_copied result ≡ self.now.client_id }
    {
        match &self.client_id {
            None => None,
            Some(client_id) => Some(client_id.as_str()),
        }
    }

    fn redirect_text(&self) -> Option<&str>
        ensures { option_copied result ≡ option_map (λ u. u.text) self.now.post_logout_redirect_uri }
    {
        match &self.post_logout_redirect_uri {
            None => None,
            Some(redirect) => Some(redirect.as_str()),
        }
    }

    fn state_text(&self) -> Option<&str>
        ensures { option_copied result ≡ self.now.state }
    {
        match &self.state {
            None => None,
            Some(state) => Some(state.secret()),
        }
    }

    // The names of its pairs, and their values where they are there.
    fn given<'p>(&'p self, locales: &'p Option<String>) -> [(&'p str, Option<&'p str>); 6]
        requires { option_map string_bytes locales.now ≡ spaced_if self.now.ui_locales }
        ensures { map named_value result ≡ given_of self.now }
    {
        [
            ("id_token_hint", text_of(&self.id_token_hint)),
            ("logout_hint", self.logout_hint_text()),
            ("client_id", self.client_id_text()),
            ("post_logout_redirect_uri", self.redirect_text()),
            ("state", self.state_text()),
            ("ui_locales", text_of(locales)),
        ]
    }

    // The pairs, in their order.
    fn pairs<'p>(
        &'p self,
        alloc: Global,
        locales: &'p Option<String>,
    ) -> Result<QueryPairs<'p>, AllocError>
        requires { option_map string_bytes locales.now ≡ spaced_if self.now.ui_locales }
        ensures { IfOk result (λ pairs. pairs ≡ logout_list self.now) }
    {
        let mut pairs = QueryPairs::new(alloc);
        pairs.push_given(&self.given(locales))?;
        Ok(pairs)
    }

    // The URL.
    fn built(&self, alloc: Global) -> Result<Url, BuildUrlError>
        ensures { Builds result (logout_url self.now) }
    {
        let locales = locales_text(alloc, &self.ui_locales)?;
        let pairs = self.pairs(alloc, &locales)?;
        pairs.extend(self.endpoint.url())
    }

    /// Where the user is sent: the endpoint with the request's pairs after its query. Without pairs the query stays,
    /// and an empty one becomes none. `TooLong` exactly where the URL has more than 1,048,576 bytes.
    pub fn http_get_url(self, alloc: Global) -> Result<Url, BuildUrlError>
        ensures url { Builds result (logout_url self) }
    {
        self.built(alloc)
    }
}
