// The steps on user info, where a login demands it: the request for it, and its answer.

ghost use Rattle.std.specs.Prelude.{◌≡◌, IfErr, IfOk, false, true};
ghost use Rattle.oidc_oauth2.specs.Messages.{seen_response};
ghost use Rattle.oidc_oauth2.specs.Replies.{Gives};
ghost use Rattle.oidc_oauth2.specs.Exchanges.{answer_of};
ghost use Rattle.oidc_login.specs.Errors.{faulted, is_spent_by, login_errors};
ghost use Rattle.oidc_login.specs.Types.{site_types};
ghost use Rattle.oidc_login.specs.UserInfo as spec;
ghost use Rattle.oidc_login.specs.Callback as rows;
ghost use Rattle.oidc_login.specs.Steps as steps;
ghost use Rattle.oidc_login.specs.Steps.{Faults};

use crate::errors::LoginError;
use crate::signed_in::SignedIn;
use crate::types::{MetadataClient, UserInfoDemand};
use oidc_claims::{AdditionalClaims, GenderClaim};
use oidc_keys::JsonWebKey;
use oidc_oauth2::{HttpRequest, HttpResponse};
use oidc_types::{
    AccessToken, CoreJweContentEncryptionAlgorithm, CoreJwsSigningAlgorithm, SubjectIdentifier,
};
use oidc_user_info::{InfoOther, PrepareInfoError, UserInfoClaims, UserInfoError, UserInfoRequest};
use std::alloc::{AllocError, Global};
use std::marker::Model;

// A request for user info over the algorithms of the standards.
type InfoRequest<'a, K> = UserInfoRequest<'a, CoreJweContentEncryptionAlgorithm, K>;

// What is asked for, and the request for it.
#[derive(Drop)]
pub(crate) struct PreparedInfo<'a, K: JsonWebKey> {
    pub(crate) ask: InfoRequest<'a, K>,
    pub(crate) request: HttpRequest,
}

impl<'a, K: JsonWebKey> Model for PreparedInfo<'a, K> {
    ghost use Rattle.oidc_login.specs.Callback.{SeenPreparedInfo};

    ghost Value = { SeenPreparedInfo K };

    ghost view = { λ p. record { ask = p.ask; request = p.request } };
}

// A request with the four values of a demand.
fn demanded<'a, K: JsonWebKey>(
    demand: UserInfoDemand,
    ask: InfoRequest<'a, K>,
) -> InfoRequest<'a, K>
    ensures { result ≡ spec.demanded demand ask.entry }
{
    ask.require_signed_response(demand.signed)
        .require_issuer_match(demand.issuer_match)
        .require_audience_match(demand.audience_match)
        .set_response_type(demand.response_type)
}

// Copies of a user's access token and subject.
fn copies<AC: AdditionalClaims, GC: GenderClaim>(
    alloc: Global,
    user: &SignedIn<AC, GC>,
) -> Result<(AccessToken, SubjectIdentifier), AllocError>
    ensures access_token { IfOk result (λ copies. copies.0 ≡ user.now.access_token) }
    ensures subject { IfOk result
        (λ copies. copies.1 ≡ user.now.id_token.payload.standard_claims.subject) }
{
    let access_token = user.access_token().clone_in(alloc)?;
    let subject = user.claims().subject().clone_in(alloc)?;
    Ok((access_token, subject))
}

// The request, where it can be made.
fn prepared_by<'a, K: JsonWebKey, E>(
    alloc: Global,
    ask: InfoRequest<'a, K>,
) -> Result<PreparedInfo<'a, K>, LoginError<E>>
    ensures gives { Gives login_errors result (steps.prepared_by ask.entry) }
    ensures no_fault { IfErr result (λ e. faulted e ≡ false) }
    ensures spent { is_spent_by result ≡ true }
{
    match ask.prepare(alloc) {
        Ok(request) => Ok(PreparedInfo { ask, request }),
        Err(PrepareInfoError::Bearer) => {
            drop(ask);
            Err(LoginError::UserInfo(UserInfoError::Other(InfoOther::Bearer)))
        }
        Err(PrepareInfoError::Uri) => {
            drop(ask);
            Err(LoginError::UserInfo(UserInfoError::Other(InfoOther::Uri)))
        }
        Err(PrepareInfoError::Memory) => {
            drop(ask);
            Err(LoginError::Memory { spent: true })
        }
    }
}

// The rows before the user info request.
#[tactic(auto, unfolding(crate::specs::Callback::prepared_info))]
pub(crate) fn prepared_info<
    'a,
    AC: AdditionalClaims,
    GC: GenderClaim,
    K: JsonWebKey<SigningAlgorithm = CoreJwsSigningAlgorithm>,
    E,
>(
    alloc: Global,
    client: &'a MetadataClient<AC, GC, K>,
    demand: UserInfoDemand,
    user: &SignedIn<AC, GC>,
) -> Result<PreparedInfo<'a, K>, LoginError<E>>
    ensures gives { Gives login_errors result (rows.prepared_info client.now demand user.now) }
    ensures no_fault { IfErr result (λ e. faulted e ≡ false) }
    ensures spent { is_spent_by result ≡ true }
{
    let Ok((access_token, subject)) = copies(alloc, user) else {
        return Err(LoginError::Memory { spent: true });
    };
    match client.user_info(access_token, Some(subject)) {
        Ok(ask) => prepared_by(alloc, demanded(demand, ask)),
        Err(_) => Err(LoginError::UserInfo(UserInfoError::Other(InfoOther::Uri))),
    }
}

// The rows on the response to the user info request.
#[tactic(auto, unfolding(crate::specs::Steps::info_of))]
fn info_of<
    AC: AdditionalClaims,
    GC: GenderClaim,
    K: JsonWebKey<SigningAlgorithm = CoreJwsSigningAlgorithm>,
    E,
>(
    alloc: Global,
    ask: InfoRequest<'_, K>,
    response: HttpResponse,
) -> Result<UserInfoClaims<AC, GC>, LoginError<E>>
    ensures gives { let types = site_types AC.read_of GC.read_of
        K.JsonWebKey K.KeyUse.JsonWebKeyUse in
        Gives login_errors result (steps.info_of types ask.entry.demand (seen_response response)) }
    ensures no_fault { IfErr result (λ e. faulted e ≡ false) }
    ensures spent { is_spent_by result ≡ true }
{
    match ask.answer(alloc, response) {
        Ok(found) => Ok(found),
        Err(error) => Err(LoginError::of_info(error)),
    }
}

// The rows after the user info request.
#[tactic(auto, unfolding(crate::specs::Callback::user_with_info))]
pub(crate) fn user_with_info<
    AC: AdditionalClaims,
    GC: GenderClaim,
    K: JsonWebKey<SigningAlgorithm = CoreJwsSigningAlgorithm>,
    E,
>(
    alloc: Global,
    ask: InfoRequest<'_, K>,
    user: SignedIn<AC, GC>,
    answer: Result<HttpResponse, E>,
) -> Result<SignedIn<AC, GC>, LoginError<E>>
    ensures gives { let types = site_types AC.read_of GC.read_of
        K.JsonWebKey K.KeyUse.JsonWebKeyUse in
        Gives login_errors result (rows.user_with_info types ask.entry.demand user (answer_of answer)) }
    ensures fault { Faults (answer_of answer) result }
    ensures spent { is_spent_by result ≡ true }
{
    let response = match answer {
        Ok(response) => response,
        Err(error) => {
            drop(ask);
            drop(user);
            return Err(LoginError::UserInfo(UserInfoError::Request(error)));
        }
    };
    match info_of(alloc, ask, response) {
        Ok(found) => match user.with_user_info(alloc, found) {
            Ok(user) => Ok(user),
            Err(_) => Err(LoginError::Memory { spent: true }),
        },
        Err(error) => {
            drop(user);
            Err(error)
        }
    }
}
