// What all requests have beside their own pairs, and how it becomes the request that is handed over.

ghost use Rattle.std.specs.Prelude.{◌≡◌, ◌++◌, ◌∷◌, [], IfOk, OnOk};
ghost use Rattle.std.specs.Option.{option_copied};
ghost use Rattle.std.specs.String.{string_bytes};
ghost use Rattle.oidc_oauth2.specs.ClientAuth.{seen_client};
ghost use Rattle.oidc_oauth2.specs.Requests.{Prepares};
ghost use Rattle.oidc_oauth2_requests.specs.FormRequests as spec;

use oidc_members::Reading;
use oidc_oauth2::{
    ClientAuth, HttpRequest, PrepareError, joined_scopes, post_form, push_all, push_client,
    push_optional,
};
use oidc_pairs::FormText;
use oidc_types::Scope;
use std::alloc::{AllocError, Global};
use std::marker::Model;

// A request without pairs of its own.
#[derive(Drop)]
pub(crate) struct FormRequest<'a> {
    address: &'a str,
    auth: ClientAuth<'a>,
    scopes: Vec<Scope>,
    extra_params: Vec<(String, String)>,
    reading: Reading,
}

impl<'a> Model for FormRequest<'a> {
    ghost use Rattle.std.specs.Prelude.{[], None, map};
    ghost use Rattle.std.specs.String.{string_bytes};
    ghost use Rattle.oidc_oauth2.specs.ClientAuth.{seen_client};
    ghost use Rattle.oidc_oauth2_requests.specs.FormRequests.{SeenFormRequest};

    ghost Value = { SeenFormRequest };

    ghost view = { λ r. record {
      address = r.address.now;
      client = seen_client r.auth;
      own = [];
      scopes = r.scopes.items;
      redirect_uri = None;
      extra = map (λ p. (string_bytes p.0, string_bytes p.1)) r.extra_params.items;
      reading = r.reading;
    } };
}

impl<'a> FormRequest<'a> {
    pub(crate) fn new(alloc: Global, address: &'a str, auth: ClientAuth<'a>) -> Self
        ensures { result ≡ spec.new_request address.now (seen_client auth.entry) [] }
    {
        FormRequest {
            address,
            auth,
            scopes: Vec::new(alloc),
            extra_params: Vec::new(alloc),
            reading: Reading::STRICT,
        }
    }

    // The reading of an ID token in the answer.
    pub(crate) fn reading(&self) -> Reading
        ensures { result ≡ self.now.reading }
    {
        self.reading
    }

    // Sets that reading.
    pub(crate) fn set_reading(&mut self, reading: Reading)
        ensures { self.new ≡ record self.old { reading = reading } }
    {
        self.reading = reading;
    }

    // Adds one more scope.
    pub(crate) fn push_scope(&mut self, scope: Scope) -> Result<(), AllocError>
        ensures { OnOk result
            (self.new ≡ record self.old { scopes = self.old.scopes ++ scope ∷ [] }) }
    {
        self.scopes.push(scope)?;
        Ok(())
    }

    // Adds these scopes.
    pub(crate) fn push_scopes(&mut self, scopes: Vec<Scope>) -> Result<(), AllocError>
        ensures { OnOk result
            (self.new ≡ record self.old { scopes = self.old.scopes ++ scopes.items }) }
    {
        let mut scopes = scopes;
        self.scopes.append(&mut scopes)?;
        Ok(())
    }

    // Adds one more pair.
    pub(crate) fn push_pair(&mut self, name: String, value: String) -> Result<(), AllocError>
        ensures { OnOk result (self.new ≡ record self.old {
          extra = self.old.extra ++ (string_bytes name, string_bytes value) ∷ [];
        }) }
    {
        self.extra_params.push((name, value))?;
        Ok(())
    }

    // The pairs of the request, behind these of its own.
    fn form(&self, alloc: Global, own: FormText) -> Result<FormText, AllocError>
        ensures { IfOk result (λ form. form ≡ spec.pairs_of (record self.now { own = own })) }
    {
        let mut form = own;
        push_scope_text(alloc, &mut form, self.scopes.as_slice())?;
        push_client(&mut form, &self.auth)?;
        push_all(&mut form, &self.extra_params)?;
        Ok(form)
    }

    // The request with these pairs of its own.
    #[tactic(auto, unfolding(crate::specs::FormRequests::form_request))]
    pub(crate) fn prepare(&self, alloc: Global, own: FormText) -> Result<HttpRequest, PrepareError>
        ensures { Prepares result (spec.form_request (record self.now { own = own })) }
    {
        let form = self.form(alloc, own)?;
        post_form(alloc, self.address, &self.auth, form)
    }
}

// Adds the scopes, unless their text is empty.
fn push_scope_text(alloc: Global, form: &mut FormText, scopes: &[Scope]) -> Result<(), AllocError>
    ensures { OnOk result (form.new ≡ form.old ++ spec.scope_pairs scopes.now) }
{
    let text = joined_scopes(alloc, scopes)?;
    if text.as_str().is_empty() {
        return Ok(());
    }
    form.push("scope", text.as_str())
}

// The own pairs of a request about a token.
pub(crate) fn token_form(
    alloc: Global,
    token: &str,
    hint: Option<&str>,
) -> Result<FormText, AllocError>
    ensures { IfOk result (λ own. own ≡ spec.token_pairs token.now (option_copied hint.entry)) }
{
    let mut own = FormText::new(alloc);
    own.push("token", token)?;
    push_optional(&mut own, "token_type_hint", hint)?;
    Ok(own)
}
