//! Pending logins and the answers of implicit and hybrid flows, which the Rust crate leaves to its callers, and what
//! each login starts from.

ghost use Rattle.std.specs.Prelude.{◌≡◌, IfOk, OnOk, OnErr};
ghost use Rattle.oidc_types.specs.Random.{random_text, stream_after};
ghost use Rattle.oidc.specs.LoginSecrets.{StandsWithin};

use crate::{CsrfToken, Nonce, PkceCodeChallenge, PkceCodeVerifier};
pub use oidc_login::{
    BeginError, ChangeError, FrontAnswer, FrontError, LoginClient, LoginError, LoginIdToken,
    LoginRequest, Logins, MetadataClient, NewLoginsError, SignedIn, TooLong, UserInfoDemand,
    front_channel,
};
pub use oidc_session::{
    LogoutError, LogoutVerifier, OpenError, ProviderSession, Session, SessionId, Sessions,
};
use rand_core::Rng;
use std::alloc::{AllocError, Global};

/// What a login starts from: three texts that no one can guess, where the generator's bytes can't be guessed.
#[derive(Drop)]
pub struct LoginSecrets {
    /// The state of the authorization request, which the site binds to the browser's session (RFC 6749 section
    /// 10.12).
    pub state: CsrfToken,
    /// Its nonce, which comes back in the ID token (OpenID Connect Core 1.0 section 15.5.2).
    pub nonce: Nonce,
    /// The verifier of its PKCE challenge (RFC 7636 section 4.1).
    pub verifier: PkceCodeVerifier,
}

impl LoginSecrets {
    /// Draws the three, each of bytes of its own: the base64url text, without padding, of the generator's next 16
    /// bytes for the state, of the 16 behind these for the nonce, and of the 32 behind these for the verifier. Where
    /// there is no memory, the one error, the generator stands before, between or behind these.
    pub fn new_random<R: Rng>(alloc: Global, rng: &mut R) -> Result<Self, AllocError>
        ensures state { IfOk result (λ drawn. drawn.state ≡ random_text 16 (R.stream rng.old)) }
        ensures nonce { let second = stream_after 16 (R.stream rng.old) in
            IfOk result (λ drawn. drawn.nonce ≡ random_text 16 second) }
        ensures verifier { let second = stream_after 16 (R.stream rng.old) in
            IfOk result (λ drawn. drawn.verifier ≡ random_text 32 (stream_after 16 second)) }
        ensures moved { let second = stream_after 16 (R.stream rng.old) in
            OnOk result (R.stream rng.new ≡ stream_after 32 (stream_after 16 second)) }
        ensures err { OnErr result (StandsWithin (R.stream rng.old) (R.stream rng.new)) }
    {
        let state = CsrfToken::new_random(alloc, rng)?;
        let nonce = Nonce::new_random(alloc, rng)?;
        let (_, verifier) = PkceCodeChallenge::new_random_sha256(alloc, rng)?;
        Ok(LoginSecrets {
            state,
            nonce,
            verifier,
        })
    }
}
