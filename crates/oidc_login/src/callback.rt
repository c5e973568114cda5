// A callback: its two requests, between steps that have no transport inside.

ghost use Rattle.std.specs.Prelude.{◌≡◌, ◌≤◌, Ok, IsSome, false, true};
ghost use Rattle.oidc_pairs.specs.Pairs.{pairs};
ghost use Rattle.oidc_oauth2.specs.TokenAnswers.{is_over_long};
ghost use Rattle.oidc_oauth2.specs.Replies.{OrMemory};
ghost use Rattle.oidc_oauth2.specs.Exchanges.{known, Follows, IsRequestBlamed};
ghost use Rattle.oidc_login.specs.Errors.{is_spent_by, login_errors};
ghost use Rattle.oidc_login.specs.Logins.{HasVerifiers};
ghost use Rattle.oidc_login.specs.Types.{site_types};
ghost use Rattle.oidc_login.specs.Callback as rows;
ghost use Rattle.oidc_login.specs.BeforeRequest.{login_named_by};
ghost use Rattle.oidc_login.specs.Callback.{callback_store};
ghost use Rattle.oidc_login.specs.Causes.{AsksNothing};
ghost use Rattle.oidc_login.specs.Runs.{Ran, Leaves, attempt_by};
ghost use Rattle.oidc_login.specs.Steps as steps;

mod before_request;
mod token;
mod user_info;

use crate::callback::before_request::{TakenLogin, taken_login};
use crate::callback::token::user_of_answer;
use crate::callback::user_info::{PreparedInfo, prepared_info, user_with_info};
use crate::errors::{LoginError, TooLong};
use crate::signed_in::SignedIn;
use crate::store::Store;
use crate::types::{MetadataClient, UserInfoDemand};
use jiff::Timestamp;
use oidc_claims::{AdditionalClaims, GenderClaim};
use oidc_keys::JsonWebKey;
use oidc_oauth2::{SyncHttpClient, exchange};
use oidc_types::CoreJwsSigningAlgorithm;
use std::alloc::Global;
use std::marker::Model;

// Hands the user info request over, and judges its answer.
fn prepared_reply<
    AC: AdditionalClaims,
    GC: GenderClaim,
    K: JsonWebKey<SigningAlgorithm = CoreJwsSigningAlgorithm>,
    H: SyncHttpClient,
>(
    alloc: Global,
    http: &mut H,
    prepared: PreparedInfo<'_, K>,
    user: SignedIn<AC, GC>,
) -> Result<SignedIn<AC, GC>, LoginError<H::Error>>
    requires { H.ready http.old }
    ensures again { H.ready http.new }
    ensures follows { let types = site_types AC.read_of GC.read_of
        K.JsonWebKey K.KeyUse.JsonWebKeyUse in
        let before = known (H.log http.old) (H.script http.old) in
        let after = known (H.log http.new) (H.script http.new) in
        Follows login_errors (λ answers. steps.prepared_run types user answers (Ok prepared.entry))
        before after result }
    ensures spent { is_spent_by result ≡ true }
    ensures blamed { IsRequestBlamed login_errors (H.faults http.old) (H.faults http.new) result }
    ensures never_falls { H.faults http.old ≤ H.faults http.new }
{
    let PreparedInfo { ask, request } = prepared;
    let Ok(answer) = exchange(alloc, http, request) else {
        drop(ask);
        drop(user);
        return Err(LoginError::Memory { spent: true });
    };
    user_with_info(alloc, ask, user, answer)
}

// Asks for user info about a user who is signed in but for that, where the login demands it.
fn demand_reply<
    AC: AdditionalClaims,
    GC: GenderClaim,
    K: JsonWebKey<SigningAlgorithm = CoreJwsSigningAlgorithm>,
    H: SyncHttpClient,
>(
    alloc: Global,
    client: &MetadataClient<AC, GC, K>,
    http: &mut H,
    demand: Option<UserInfoDemand>,
    user: SignedIn<AC, GC>,
) -> Result<SignedIn<AC, GC>, LoginError<H::Error>>
    requires { H.ready http.old }
    ensures again { H.ready http.new }
    ensures follows { let types = site_types AC.read_of GC.read_of
        K.JsonWebKey K.KeyUse.JsonWebKeyUse in
        let before = known (H.log http.old) (H.script http.old) in
        let after = known (H.log http.new) (H.script http.new) in
        Follows login_errors (rows.demand_run types client.now demand user) before after result }
    ensures spent { is_spent_by result ≡ true }
    ensures blamed { IsRequestBlamed login_errors (H.faults http.old) (H.faults http.new) result }
    ensures never_falls { H.faults http.old ≤ H.faults http.new }
{
    match demand {
        None => Ok(user),
        Some(demand) => match prepared_info(alloc, client, demand, &user) {
            Ok(prepared) => prepared_reply(alloc, http, prepared, user),
            Err(error) => {
                drop(user);
                Err(error)
            }
        },
    }
}

// The requests of a login that was taken out: for the code, and for user info where the login demands it.
fn taken_reply<
    AC: AdditionalClaims,
    GC: GenderClaim,
    K: JsonWebKey<SigningAlgorithm = CoreJwsSigningAlgorithm>,
    H: SyncHttpClient,
>(
    alloc: Global,
    client: &MetadataClient<AC, GC, K>,
    http: &mut H,
    now: Timestamp,
    taken: TakenLogin,
) -> Result<SignedIn<AC, GC>, LoginError<H::Error>>
    requires { H.ready http.old }
    ensures again { H.ready http.new }
    ensures follows { let types = site_types AC.read_of GC.read_of
        K.JsonWebKey K.KeyUse.JsonWebKeyUse in
        let run = steps.taken_run types client.now now.nanosecond in
        let before = known (H.log http.old) (H.script http.old) in
        let after = known (H.log http.new) (H.script http.new) in
        Follows login_errors (λ answers. run answers (Ok taken)) before after result }
    ensures spent { is_spent_by result ≡ true }
    ensures blamed { IsRequestBlamed login_errors (H.faults http.old) (H.faults http.new) result }
    ensures never_falls { H.faults http.old ≤ H.faults http.new }
{
    let TakenLogin { login, request } = taken;
    let Ok(answer) = exchange(alloc, http, request) else {
        drop(login);
        return Err(LoginError::Memory { spent: true });
    };
    let demand = login.user_info;
    let checked = user_of_answer(alloc, client, now, &login, answer);
    drop(login);
    match checked {
        Ok(user) => demand_reply(alloc, client, http, demand, user),
        Err(error) => Err(error),
    }
}

// A callback, on the parts of a `Logins`.
#[tactic(auto, using(crate::proofs::Drives::either))]
pub(crate) fn callback_reply<
    AC: AdditionalClaims,
    GC: GenderClaim,
    K: JsonWebKey<SigningAlgorithm = CoreJwsSigningAlgorithm>,
    H: SyncHttpClient,
>(
    alloc: Global,
    client: &MetadataClient<AC, GC, K>,
    pending: &mut Store,
    query: &[u8],
    http: &mut H,
    now: Timestamp,
) -> Result<SignedIn<AC, GC>, LoginError<H::Error>>
    requires { H.ready http.old }
    ensures again { H.ready http.new }
    ensures ran { let types = site_types AC.read_of GC.read_of
        K.JsonWebKey K.KeyUse.JsonWebKeyUse in
        let a = attempt_by client.now pending.old query.now now.nanosecond in
        let before = known (H.log http.old) (H.script http.old) in
        let after = known (H.log http.new) (H.script http.new) in
        Ran types a before after result }
    ensures store { let a = attempt_by client.now pending.old query.now now.nanosecond in
        Leaves a pending.new result }
    ensures left { OrMemory login_errors result (pending.new ≡ callback_store pending.old query.now) }
    ensures removed { is_spent_by result ≡ true
        → IsSome (login_named_by pending.old (pairs query.now)) }
    ensures unspent { is_spent_by result ≡ false
        → (http.new ≡ http.old) × (pending.new ≡ pending.old) }
    ensures idle { let a = attempt_by client.now pending.old query.now now.nanosecond in
        AsksNothing a → http.new ≡ http.old }
    ensures over_long { is_over_long query.now ≡ true
        → result ≡ Err (LoginError.TooLong TooLong.Callback) }
    ensures blamed { IsRequestBlamed login_errors (H.faults http.old) (H.faults http.new) result }
    ensures never_falls { H.faults http.old ≤ H.faults http.new }
    ensures verifiers { HasVerifiers pending.old → HasVerifiers pending.new }
{
    match taken_login(alloc, client, pending, query) {
        Ok(taken) => taken_reply(alloc, client, http, now, taken),
        Err(error) => Err(error),
    }
}
