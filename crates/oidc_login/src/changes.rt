// Whether a store of logins may go on with another client.

ghost use Rattle.std.specs.Prelude.{◌≡◌};
ghost use Rattle.std.specs.Option.{option_copied};
ghost use Rattle.oidc_login.specs.Changes.{difference_of, has_same_text};

use crate::errors::ChangeError;
use crate::types::MetadataClient;
use oidc_claims::{AdditionalClaims, GenderClaim};
use oidc_keys::JsonWebKey;
use oidc_types::{CoreJwsSigningAlgorithm, Marker, UrlText};

// Whether two endpoints have one text, or both are absent.
fn is_same_endpoint<M: Marker>(old: Option<&UrlText<M>>, new: Option<&UrlText<M>>) -> bool
    ensures { result ≡ has_same_text (option_copied old.entry) (option_copied new.entry) }
{
    match old {
        None => new.is_none(),
        Some(old) => match new {
            None => false,
            Some(new) => old.as_str() == new.as_str(),
        },
    }
}

// What differs first of two clients.
#[tactic(auto, unfolding(crate::specs::Changes::difference_of))]
pub(crate) fn first_difference<
    AC: AdditionalClaims,
    GC: GenderClaim,
    K: JsonWebKey<SigningAlgorithm = CoreJwsSigningAlgorithm>,
>(old: &MetadataClient<AC, GC, K>, new: &MetadataClient<AC, GC, K>) -> Result<(), ChangeError>
    ensures { result ≡ difference_of old.now new.now }
{
    if old.client_id().as_str() != new.client_id().as_str() {
        return Err(ChangeError::ClientId);
    }
    if old.issuer().as_str() != new.issuer().as_str() {
        return Err(ChangeError::Issuer);
    }
    if !is_same_endpoint(Some(old.auth_uri()), Some(new.auth_uri())) {
        return Err(ChangeError::AuthorizationEndpoint);
    }
    if !is_same_endpoint(old.token_endpoint(), new.token_endpoint()) {
        return Err(ChangeError::TokenEndpoint);
    }
    if !is_same_endpoint(old.user_info_endpoint(), new.user_info_endpoint()) {
        return Err(ChangeError::UserInfoEndpoint);
    }
    Ok(())
}
