//! Whole logins over a provider double.

ghost use Rattle.std.specs.Prelude.{◌≡◌, false, Err};
ghost use Rattle.oidc_login.specs.Runs.{Ran, Leaves, attempt};
ghost use Rattle.oidc_login.specs.Errors.{is_spent_by};
ghost use Rattle.oidc_login.specs.Causes.{AsksNothing};
ghost use Rattle.oidc_provider.specs.Authorization.{callback_query};
ghost use Rattle.oidc_provider.specs.AuthorizationCauses.{HasCause, Cause};
ghost use Rattle.oidc_provider.specs.Issuing.{core_types};
ghost use Rattle.oidc_provider.specs.SignIn.{asked_with, to_issue, ToIssue, IsHonestLogin, IsGrantedLogin, IsGrantable, SignsIn};
ghost use Rattle.oidc_provider.specs.TwoCalls.{by_callback, known_of, IsComposed, OfCallback, RefusesWith, Grants};
ghost use Rattle.oidc_provider.specs.declared.errors.AuthorizeError.{AuthorizeError};

use crate::errors::SignInError;
use crate::provider::Provider;
use jiff::Timestamp;
use oidc_claims::{AdditionalClaims, GenderClaim};
use oidc_keys::CoreJsonWebKey;
use oidc_login::{LoginError, Logins, SignedIn};
use oidc_tokens::IdTokenClaims;
use oidc_types::{AccessToken, AuthorizationCode};
use oidc_user_info::UserInfoClaims;
use std::convert::Infallible;
use url::Url;

/// Answers a callback over a provider double: `Logins::callback`, over the provider as its transport.
///
/// An honest login that was granted signs in, or a text is too long, or there was no memory: one over the client's own
/// provider, with claims in range that expire later, for whose begin the provider has an unredeemed grant, by the query of its
/// code and its state (`IsGrantedLogin`). Others may have been granted, answered and begun since.
pub fn call_back<AC: AdditionalClaims, GC: GenderClaim>(
    provider: &mut Provider<AC, GC>,
    logins: &mut Logins<'_, AC, GC, CoreJsonWebKey>,
    query: &str,
    now: Timestamp,
) -> Result<SignedIn<AC, GC>, LoginError<Infallible>>
    ensures signs_in { (t : ToIssue AC GC)
        (h : IsGrantedLogin AC.read_of GC.read_of AC.write_of GC.write_of
        provider.old logins.old t now.nanosecond)
        → query.now ≡ callback_query t.code h.begin.request.state
        → let settings = provider.old.settings in
        SignsIn AC.write_of GC.write_of settings h.registration h.begin t result }

    // Every callback, as `Logins::callback` says: where nothing is asked the provider is as it was.
    ensures ran { let types = core_types AC.read_of GC.read_of in
        let a = attempt logins.old query.now now.nanosecond in
        Ran types a (known_of provider.old) (known_of provider.new) result }
    ensures store { let a = attempt logins.old query.now now.nanosecond in
        Leaves a logins.new.pending result }
    ensures client { logins.new.client ≡ logins.old.client }
    ensures unspent { is_spent_by result ≡ false
        → (provider.new ≡ provider.old) × (logins.new.pending ≡ logins.old.pending) }
    ensures idle { let a = attempt logins.old query.now now.nanosecond in
        AsksNothing a → provider.new ≡ provider.old }
{
    logins.callback(query.as_bytes(), provider, now)
}

// The reply of a callback.
fn as_sign_in<AC: AdditionalClaims, GC: GenderClaim>(
    reply: Result<SignedIn<AC, GC>, LoginError<Infallible>>,
) -> Result<SignedIn<AC, GC>, SignInError>
    ensures { result ≡ by_callback reply }
{
    match reply {
        Ok(signed) => Ok(signed),
        Err(refusal) => Err(SignInError::Login(refusal)),
    }
}

/// Signs a user in, as a site and a browser do between them: the provider answers the URL of a begin by
/// `Provider::authorize`, and the store of the begin answers the query by `call_back`.
///
/// Where the login is honest and the provider grants it, it signs in with the claims that were handed in, or a text is too
/// long, or there was no memory. Honest is a login whose begin was accepted and is pending, with a URL that has the begin's
/// client ID, state, nonce and redirect once each; over a provider that is the client's own and knows its ID and its
/// secret, for a client that allows HS256; where the claims are in the range of the round trip and expire later than `now`,
/// and user info, if it is demanded, may be unsigned. Such a login is granted where
/// the URL has one `response_type`, one challenge and one method, its redirect is the registered one, the claims are about
/// one subject, code and access token are new, and the access token may stand in a header.
///
/// Where the provider grants nothing, both are as they were; else the login is spent as `Logins::callback` says.
pub fn sign_in<AC: AdditionalClaims, GC: GenderClaim>(
    provider: &mut Provider<AC, GC>,
    logins: &mut Logins<'_, AC, GC, CoreJsonWebKey>,
    url: &Url,
    claims: IdTokenClaims<AC, GC>,
    user_info: UserInfoClaims<AC, GC>,
    code: AuthorizationCode,
    token: AccessToken,
    now: Timestamp,
) -> Result<SignedIn<AC, GC>, SignInError>
    // An honest login: it signs in where it was granted, and is granted where it may be.
    ensures signs_in { let t = to_issue claims user_info code token in
        (h : IsHonestLogin AC.read_of GC.read_of AC.write_of
        provider.old logins.old url.now t now.nanosecond)
        → let settings = provider.old.settings in
        OfCallback (SignsIn AC.write_of GC.write_of settings h.registration h.begin t) result }
    ensures grants { let t = to_issue claims user_info code token in
        (h : IsHonestLogin AC.read_of GC.read_of AC.write_of
        provider.old logins.old url.now t now.nanosecond)
        → IsGrantable provider.old h.registration h.begin url.now t → Grants result }

    // Every login: the two calls, one behind the other. Where the provider grants nothing, that has its cause, each
    // cause is refused, and both are as they were.
    ensures composed { let t = to_issue claims user_info code token in
        OfCallback (IsComposed AC.read_of GC.read_of AC.write_of GC.write_of url.now t
        now.nanosecond provider.old provider.new logins.old logins.new.pending) result }
    ensures cause { let t = to_issue claims user_info code token in
        (e : AuthorizeError) → result ≡ Err (SignInError.Authorize e)
        → HasCause provider.old (asked_with url.now t) e }
    ensures refused { let t = to_issue claims user_info code token in
        (e : AuthorizeError) → Cause provider.old (asked_with url.now t) e
        → RefusesWith e result }
    ensures unchanged { (e : AuthorizeError) → result ≡ Err (SignInError.Authorize e)
        → (provider.new ≡ provider.old) × (logins.new ≡ logins.old) }
    ensures client { logins.new.client ≡ logins.old.client }
{
    match provider.authorize(url, claims, user_info, code, token) {
        Ok(query) => as_sign_in(call_back(provider, logins, query.as_str(), now)),
        Err(refusal) => Err(SignInError::Authorize(refusal)),
    }
}
