// The pairs of an authorization request, and the URL that they are appended to.

ghost use Rattle.std.specs.Prelude.{◌≡◌, ◌++◌, ◌∷◌, [], All, IfOk, OnOk, codes, decimal, map, option_map};
ghost use Rattle.std.specs.Duration.{as_nanos};
ghost use Rattle.std.specs.Option.{option_copied};
ghost use Rattle.std.specs.String.{string_bytes};
ghost use Rattle.oidc_pairs.specs.Pairs.{IsTextPair};
ghost use Rattle.oidc_oauth2.specs.TokenResponse.{whole_seconds};
ghost use Rattle.oidc_user_info.specs.QueryPairs.{named_value, Builds};
ghost use Rattle.oidc_client.specs.Authorization.{auth_list, auth_url, given_after_extra, given_before_extra, pairs_after_extra, pairs_before_extra, response_type_of, seen_flow, text_if};
ghost use Rattle.oidc_client.specs.Texts.{texts_of};

use crate::authorization::{AuthenticationFlow, AuthorizationRequest};
use oidc_types::{AuthDisplay, AuthPrompt, ResponseType};
use oidc_user_info::{
    BuildUrlError, QueryPairs, spaced_texts, spaced_texts_if, spaced_words, spaced_words_if,
};
use std::alloc::{AllocError, Global};
use std::marker::Model;
use std::time::Duration;
use url::Url;

// The texts that are made for the pairs.
#[derive(Drop)]
struct Texts {
    response_type: String,
    scope: String,
    acr_values: Option<String>,
    claims_locales: Option<String>,
    max_age: Option<String>,
    prompt: Option<String>,
    ui_locales: Option<String>,
}

impl Model for Texts {
    ghost use Rattle.std.specs.Prelude.{option_map, string_bytes};
    ghost use Rattle.oidc_client.specs.Texts.{MadeTexts};

    ghost Value = { MadeTexts };

    ghost view = { λ t. record {
      response_type = string_bytes t.response_type;
      scope = string_bytes t.scope;
      acr_values = option_map string_bytes t.acr_values;
      claims_locales = option_map string_bytes t.claims_locales;
      max_age = option_map string_bytes t.max_age;
      prompt = option_map string_bytes t.prompt;
      ui_locales = option_map string_bytes t.ui_locales;
    } };
}

// The response type of a flow.
fn response_type<RT: ResponseType>(
    alloc: Global,
    flow: &AuthenticationFlow<RT>,
) -> Result<String, AllocError>
    ensures { IfOk result
        (λ text. string_bytes text ≡ response_type_of RT.as_ref (seen_flow flow.now)) }
{
    match flow {
        AuthenticationFlow::AuthorizationCode => String::from_str(alloc, "code"),
        AuthenticationFlow::Implicit(true) => String::from_str(alloc, "id_token token"),
        AuthenticationFlow::Implicit(false) => String::from_str(alloc, "id_token"),
        AuthenticationFlow::Hybrid(types) => spaced_words(alloc, types.as_slice()),
    }
}

// The whole seconds of a span of time, where there is one.
fn seconds_text(alloc: Global, age: Option<Duration>) -> Result<Option<String>, AllocError>
    ensures { let written = option_map (λ age. decimal (whole_seconds (as_nanos age))) age in
        IfOk result (λ text. option_map string_bytes text ≡ written) }
{
    match age {
        None => Ok(None),
        Some(age) => Ok(Some(age.as_secs().to_string(alloc)?)),
    }
}

// A text that isn't empty.
fn unless_empty(text: &str) -> Option<&str>
    ensures { option_copied result ≡ text_if text.now }
{
    if text.is_empty() { None } else { Some(text) }
}

impl<'a, AD: AuthDisplay, P: AuthPrompt, RT: ResponseType> AuthorizationRequest<'a, AD, P, RT> {
    fn texts(&self, alloc: Global) -> Result<Texts, AllocError>
        ensures { IfOk result (λ texts. texts ≡ texts_of P.as_ref RT.as_ref self.now) }
    {
        Ok(Texts {
            response_type: response_type(alloc, &self.flow)?,
            scope: spaced_texts(alloc, self.scopes.as_slice())?,
            acr_values: spaced_texts_if(alloc, self.acr_values.as_slice())?,
            claims_locales: spaced_texts_if(alloc, self.claims_locales.as_slice())?,
            max_age: seconds_text(alloc, self.max_age)?,
            prompt: spaced_words_if(alloc, self.prompts.as_slice())?,
            ui_locales: spaced_texts_if(alloc, self.ui_locales.as_slice())?,
        })
    }

    fn challenge_text(&self) -> Option<&str>
        ensures { option_copied result ≡ self.now.challenge }
    {
        match &self.challenge {
            None => None,
            Some(challenge) => Some(challenge.as_str()),
        }
    }

    fn challenge_method(&self) -> Option<&str>
        ensures { option_copied result ≡ option_map (λ challenge. codes "S256") self.now.challenge }
    {
        match &self.challenge {
            None => None,
            Some(challenge) => Some(challenge.method().as_str()),
        }
    }

    fn redirect_text(&self) -> Option<&str>
        ensures { option_copied result ≡ option_map (λ u. u.text) self.now.redirect_uri }
    {
        match self.redirect_uri() {
            None => None,
            Some(redirect) => Some(redirect.as_str()),
        }
    }

    fn display_text(&self) -> Option<&str>
        ensures { option_copied result ≡ option_map AD.as_ref self.now.display }
    {
        match &self.display {
            None => None,
            Some(display) => Some(display.as_ref()),
        }
    }

    fn login_hint_text(&self) -> Option<&str>
        ensures { option_copied result ≡ self.now.login_hint }
    {
        match &self.login_hint {
            None => None,
            Some(hint) => Some(hint.secret()),
        }
    }

    fn given_before_extra<'p>(&'p self, texts: &'p Texts) -> [(&'p str, Option<&'p str>); 4]
        requires { texts.now ≡ texts_of P.as_ref RT.as_ref self.now }
        ensures { map named_value result
            ≡ given_before_extra AD.as_ref P.as_ref RT.as_ref self.now }
    {
        [
            ("code_challenge", self.challenge_text()),
            ("code_challenge_method", self.challenge_method()),
            ("redirect_uri", self.redirect_text()),
            ("scope", unless_empty(texts.scope.as_str())),
        ]
    }

    fn given_after_extra<'p>(&'p self, texts: &'p Texts) -> [(&'p str, Option<&'p str>); 8]
        requires { texts.now ≡ texts_of P.as_ref RT.as_ref self.now }
        ensures { map named_value result
            ≡ given_after_extra AD.as_ref P.as_ref RT.as_ref self.now }
    {
        [
            ("acr_values", text_of(&texts.acr_values)),
            ("claims_locales", text_of(&texts.claims_locales)),
            ("display", self.display_text()),
            ("id_token_hint", text_of(&self.id_token_hint)),
            ("login_hint", self.login_hint_text()),
            ("max_age", text_of(&texts.max_age)),
            ("prompt", text_of(&texts.prompt)),
            ("ui_locales", text_of(&texts.ui_locales)),
        ]
    }

    // Adds the pairs that each request has.
    fn push_first<'p>(
        &'p self,
        response_type: &'p str,
        pairs: &mut QueryPairs<'p>,
    ) -> Result<(), AllocError>
        ensures { OnOk result (pairs.new ≡ pairs.old
            ++ (codes "response_type", response_type.now)
            ∷ (codes "client_id", self.now.client_id)
            ∷ (codes "state", self.now.state) ∷ []) }
    {
        pairs.push("response_type", response_type)?;
        pairs.push("client_id", self.client_id().as_str())?;
        pairs.push("state", self.state.secret())
    }

    fn push_before_extra<'p>(
        &'p self,
        texts: &'p Texts,
        pairs: &mut QueryPairs<'p>,
    ) -> Result<(), AllocError>
        requires { texts.now ≡ texts_of P.as_ref RT.as_ref self.now }
        ensures { let added = pairs_before_extra AD.as_ref P.as_ref RT.as_ref self.now in
            OnOk result (pairs.new ≡ pairs.old ++ added) }
    {
        self.push_first(texts.response_type.as_str(), pairs)?;
        pairs.push_given(&self.given_before_extra(texts))
    }

    fn push_after_extra<'p>(
        &'p self,
        texts: &'p Texts,
        pairs: &mut QueryPairs<'p>,
    ) -> Result<(), AllocError>
        requires { texts.now ≡ texts_of P.as_ref RT.as_ref self.now }
        ensures { let added = pairs_after_extra AD.as_ref P.as_ref RT.as_ref self.now in
            OnOk result (pairs.new ≡ pairs.old ++ added) }
    {
        pairs.push("nonce", self.nonce.secret())?;
        pairs.push_given(&self.given_after_extra(texts))
    }

    // All pairs, in their order.
    #[tactic(auto, unfolding(crate::specs::Authorization::auth_list))]
    fn pairs<'p>(&'p self, alloc: Global, texts: &'p Texts) -> Result<QueryPairs<'p>, AllocError>
        requires { texts.now ≡ texts_of P.as_ref RT.as_ref self.now }
        ensures { IfOk result
            (λ pairs. pairs ≡ auth_list AD.as_ref P.as_ref RT.as_ref self.now) }
    {
        let mut pairs = QueryPairs::new(alloc);
        self.push_before_extra(texts, &mut pairs)?;
        push_all(&mut pairs, self.extra_params.as_slice())?;
        self.push_after_extra(texts, &mut pairs)?;
        Ok(pairs)
    }

    // The URL of the request.
    pub(super) fn built(&self, alloc: Global) -> Result<Url, BuildUrlError>
        ensures url { Builds result (auth_url AD.as_ref P.as_ref RT.as_ref self.now) }
        ensures texts { IfOk result
            (λ url. All IsTextPair (auth_list AD.as_ref P.as_ref RT.as_ref self.now)) }
    {
        let texts = self.texts(alloc)?;
        let pairs = self.pairs(alloc, &texts)?;
        pairs.extend(self.parties.endpoint.url())
    }
}

fn text_of(text: &Option<String>) -> Option<&str>
    ensures { option_copied result ≡ option_map string_bytes text.now }
{
    match text {
        None => None,
        Some(text) => Some(text.as_str()),
    }
}

// Adds each pair.
fn push_all<'p>(pairs: &mut QueryPairs<'p>, list: &'p [(String, String)]) -> Result<(), AllocError>
    ensures { OnOk result
        (pairs.new ≡ pairs.old ++ map (λ p. (string_bytes p.0, string_bytes p.1)) list.now) }
{
    for (name, value) in list {
        pairs.push(name.as_str(), value.as_str())?;
    }
    Ok(())
}
