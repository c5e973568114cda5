//! The logout at the provider (OpenID Connect RP-Initiated Logout 1.0): where the browser is sent, and whether it is
//! the one that comes back.

ghost use Rattle.std.specs.Prelude.{◌≡◌, ◌↔◌, None, Some, true, false, IfOk, IsSomeAnd, IsTrue, OnErr};
ghost use Rattle.oidc_types.specs.Random.{random_text};
ghost use Rattle.oidc_user_info.specs.Logout.{logout_url, new_logout};
ghost use Rattle.oidc.specs.Pairs.{pairs};
ghost use Rattle.oidc.specs.BeforeRequest.{state_in};

use crate::is_own;
use crate::provider::metadata;
use oidc::core_types::CoreGenderClaim;
use oidc::login::{LoginClient, LoginIdToken};
use oidc::{
    AllOtherClaims, BuildUrlError, CsrfToken, EndSessionUrl, LogoutRequest, PostLogoutRedirectUrl,
    ProviderMetadataWithLogout,
};
use rand_core::Rng;
use std::alloc::{AllocError, Global};
use url::Url;

// Where the provider's users sign out, where it has a logout.
fn logout_endpoint(
    alloc: Global,
    known: &ProviderMetadataWithLogout,
) -> Result<Option<EndSessionUrl>, AllocError>
    ensures { let endpoint = known.now.additional_metadata.end_session_endpoint in
        IfOk result (λ found. found ≡ endpoint) }
{
    match &known.additional_metadata().end_session_endpoint {
        Some(endpoint) => Ok(Some(endpoint.clone_in(alloc)?)),
        None => Ok(None),
    }
}

/// The same of what the provider of the example says of itself.
pub(crate) fn provider_logout(alloc: Global) -> anyhow::Result<Option<EndSessionUrl>> {
    let known = metadata(alloc)?;
    let endpoint = logout_endpoint(alloc, &known);
    drop(known);
    Ok(endpoint?)
}

// The URL of a logout: the provider learns by the ID token who signs out, and by the ID for which client.
fn logout_url_of(
    alloc: Global,
    client: &LoginClient,
    endpoint: EndSessionUrl,
    page: PostLogoutRedirectUrl,
    state: CsrfToken,
    token: &LoginIdToken<AllOtherClaims, CoreGenderClaim>,
) -> Result<Url, BuildUrlError>
    ensures { IfOk result (λ url. url ≡ logout_url (record (new_logout endpoint) {
      id_token_hint = Some token.now.text;
      client_id = Some client.now.client_id;
      post_logout_redirect_uri = Some page;
      state = Some state;
    })) }
{
    let id = client.client_id().clone_in(alloc)?;
    let request = LogoutRequest::from(endpoint)
        .set_client_id(id)
        .set_post_logout_redirect_uri(page)
        .set_state(state)
        .set_id_token_hint(alloc, token)?;
    request.http_get_url(alloc)
}

/// Where the browser of a user who signs out is sent, to come back to this page of the site; and the state that the
/// browser's session keeps until then, drawn from the generator. The site's own session is ended before this.
pub(crate) fn sign_out<R: Rng>(
    alloc: Global,
    client: &LoginClient,
    endpoint: EndSessionUrl,
    page: PostLogoutRedirectUrl,
    token: &LoginIdToken<AllOtherClaims, CoreGenderClaim>,
    rng: &mut R,
) -> Result<(Url, CsrfToken), BuildUrlError>
    ensures url { IfOk result (λ sent. sent.0 ≡ logout_url (record (new_logout endpoint) {
      id_token_hint = Some token.now.text;
      client_id = Some client.now.client_id;
      post_logout_redirect_uri = Some page;
      state = Some sent.1;
    })) }
    ensures state { IfOk result (λ sent. sent.1 ≡ random_text 16 (R.stream rng.old)) }
{
    let state = CsrfToken::new_random(alloc, rng)?;
    let kept = state.clone_in(alloc)?;
    let url = logout_url_of(alloc, client, endpoint, page, state, token)?;
    Ok((url, kept))
}

/// Whether the browser that comes to the page behind the logout is the one that was sent: the query's one `state` is
/// the one that its session keeps for this. It counts once.
pub(crate) fn comes_back(
    alloc: Global,
    kept: &mut Option<CsrfToken>,
    query: &[u8],
) -> Result<bool, AllocError>
    ensures own { IfOk result (λ own. IsTrue own
        ↔ IsSomeAnd kept.old (λ state. state_in (pairs query.now) ≡ Some state)) }
    ensures once { IfOk result (λ own. own ≡ true → kept.new ≡ None) }
    ensures stays { IfOk result (λ own. own ≡ false → kept.new ≡ kept.old) }
    ensures err { OnErr result (kept.new ≡ kept.old) }
{
    let Some(state) = &*kept else {
        return Ok(false);
    };
    if !is_own(alloc, state, query)? {
        return Ok(false);
    }
    *kept = None;
    Ok(true)
}
