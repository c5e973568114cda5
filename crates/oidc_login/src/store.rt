// The logins that are pending, by their states.

ghost use Rattle.std.specs.Prelude.{◌≡◌, OnOk, OnErr, IfOk, IfSome, IsTrue, None};
ghost use Rattle.std.specs.String.{string_bytes};
ghost use Rattle.std.specs.FinMap as finite;
ghost use Rattle.oidc_oauth2.specs.Pkce.{is_verifier};
ghost use Rattle.oidc_login.specs.Logins.{HasVerifiers};

use crate::types::UserInfoDemand;
use oidc_types::{Nonce, PkceCodeVerifier, RedirectUrl};
use std::alloc::{AllocError, Global};
use std::collections::HashMap;
use std::marker::Model;

// What is kept of a login beside its state.
#[derive(Drop)]
pub(crate) struct Login {
    pub(crate) nonce: Nonce,
    pub(crate) redirect_uri: Option<RedirectUrl>,
    pub(crate) verifier: PkceCodeVerifier,
    pub(crate) user_info: Option<UserInfoDemand>,
}

impl Model for Login {
    ghost use Rattle.oidc_login.specs.Logins.{SeenLogin, seen_login_code};

    ghost Value = { SeenLogin };

    ghost coded = { seen_login_code };

    ghost view = { λ l. record {
      nonce = l.nonce;
      redirect_uri = l.redirect_uri;
      verifier = l.verifier;
      user_info = l.user_info;
    } };
}

// What the map has beside a state: a login behind a pointer, so that a map that grows moves one word of it.
#[derive(Drop)]
pub(crate) struct KeptLogin {
    login: Box<Login>,
}

impl Model for KeptLogin {
    ghost use Rattle.oidc_login.specs.Logins.{SeenLogin, seen_login_code};

    ghost Value = { SeenLogin };

    ghost coded = { seen_login_code };

    ghost view = { λ k. k.login.value };
}

impl KeptLogin {
    pub(crate) fn of(alloc: Global, login: Login) -> Result<Self, AllocError>
        ensures kept { IfOk result (λ kept. kept ≡ login) }
    {
        match Box::new(alloc, login) {
            Ok(login) => Ok(KeptLogin { login }),
            Err(_) => Err(AllocError),
        }
    }

    fn into_login(self) -> Login
        ensures login { result ≡ self }
    {
        Box::into_inner(self.login)
    }
}

// The pending logins, by their states. Each verifier has 43 to 128 bytes.
#[derive(Drop)]
pub(crate) struct Store {
    logins: HashMap<String, KeptLogin>,
}

impl Model for Store {
    ghost use Rattle.oidc_login.specs.Logins.{Pending, pending_code, HasVerifiers};

    ghost Value = { Pending };

    ghost coded = { pending_code };

    ghost use Rattle.oidc_login.specs.Store.{kept};

    ghost view = { λ s. kept s.logins };

    ghost invariant = { λ s. HasVerifiers (kept s.logins) };
}

impl Store {
    // The store without logins.
    #[tactic(auto, using(crate::proofs::Entries::nothing_kept))]
    pub(crate) fn new(alloc: Global) -> Self
        ensures empty { result ≡ finite.empty }
        ensures verifiers { HasVerifiers result }
    {
        Store {
            logins: HashMap::new(alloc),
        }
    }

    // How many logins are pending.
    #[tactic(auto, using(crate::proofs::Entries::len_kept))]
    pub(crate) fn len(&self) -> usize
        ensures count { result ≡ finite.len self.now }
        ensures verifiers { HasVerifiers self.now }
    {
        self.logins.len()
    }

    // Whether a login of this state is pending.
    #[tactic(auto, using(crate::proofs::Entries::get_kept))]
    pub(crate) fn contains(&self, state: &str) -> bool
        ensures found { result ≡ finite.contains_key self.now state.now }
        ensures verifiers { HasVerifiers self.now }
    {
        self.logins.contains_key(state)
    }

    // Adds a login under a state that isn't pending. After an error the store is as it was.
    #[tactic(auto, using(crate::proofs::Entries::kept_insert))]
    pub(crate) fn insert(&mut self, state: String, login: KeptLogin) -> Result<(), AllocError>
        requires state { finite.get self.old (string_bytes state) ≡ None }
        requires verifier { IsTrue (is_verifier login.verifier) }
        ensures ok { OnOk result (self.new ≡ finite.insert self.old (string_bytes state) login) }
        ensures err { OnErr result (self.new ≡ self.old) }
        ensures verifiers { HasVerifiers self.new }
    {
        self.logins.insert(state, login)?;
        Ok(())
    }

    // Takes the login of a state out. This takes no memory.
    #[tactic(auto, using(crate::proofs::Entries::get_kept, crate::proofs::Entries::kept_remove))]
    pub(crate) fn take(&mut self, state: &str) -> Option<Login>
        ensures login { result ≡ finite.get self.old state.now }
        ensures verifier { IfSome result (λ l. IsTrue (is_verifier l.verifier)) }
        ensures rest { self.new ≡ finite.remove self.old state.now }
        ensures verifiers { HasVerifiers self.new }
    {
        let Some(kept) = self.logins.remove(state) else {
            return None;
        };
        Some(kept.into_login())
    }
}
