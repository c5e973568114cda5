// What was granted, by code and by access token.

ghost use Rattle.std.specs.Prelude.{◌≡◌, OnOk, OnErr, Some, false};
ghost use Rattle.std.specs.Option.{option_copied};
ghost use Rattle.std.specs.String.{string_bytes};
ghost use Rattle.oidc_provider.specs.Grants as spec;
ghost use Rattle.std.specs.FinMap as finite;
ghost use Rattle.oidc_provider.specs.Store.{kept, kept_texts};

use std::alloc::{AllocError, Global};
use std::collections::HashMap;
use std::marker::Model;

// A grant.
#[derive(Drop)]
pub(crate) struct Grant {
    pub(crate) client: String,
    pub(crate) redirect: String,
    pub(crate) challenge: String,
    pub(crate) code: String,
    pub(crate) token: String,
    pub(crate) token_body: Vec<u8>,
    pub(crate) info_body: Vec<u8>,
    pub(crate) redeemed: bool,
}

impl Model for Grant {
    ghost use Rattle.std.specs.String.{string_bytes};
    ghost use Rattle.oidc_provider.specs.Grants.{SeenGrant, grant_code};

    ghost Value = { SeenGrant };

    ghost coded = { grant_code };

    ghost view = { λ g. record {
      client = string_bytes g.client;
      redirect = string_bytes g.redirect;
      challenge = string_bytes g.challenge;
      code = string_bytes g.code;
      token = string_bytes g.token;
      token_body = g.token_body.items;
      info_body = g.info_body.items;
      redeemed = g.redeemed;
    } };
}

// The grants by their codes, and the codes by their access tokens.
#[derive(Drop)]
pub(crate) struct Grants {
    by_code: HashMap<String, Grant>,
    codes: HashMap<String, String>,
}

impl Model for Grants {
    ghost use Rattle.std.specs.Prelude.{List, ℕ, map, String};
    ghost use Rattle.std.specs.String.{string_bytes};
    ghost use Rattle.oidc_provider.specs.Grants.{SeenGrants, grants_code};
    ghost use Rattle.oidc_provider.specs.Store.{kept, kept_texts};

    ghost Value = { SeenGrants };

    ghost coded = { grants_code };

    ghost view = { λ g. record { by_code = kept g.by_code; codes = kept_texts g.codes } };
}

// Keeps a code under an access token.
#[tactic(auto, using(crate::proofs::Entries::kept_text_insert))]
fn put_code(
    codes: &mut HashMap<String, String>,
    token: String,
    code: String,
) -> Result<(), AllocError>
    ensures ok { OnOk result (kept_texts codes.new
        ≡ finite.insert (kept_texts codes.old) (string_bytes token) (string_bytes code)) }
    ensures err { OnErr result (kept_texts codes.new ≡ kept_texts codes.old) }
{
    codes.insert(token, code)?;
    Ok(())
}

// Takes out what is kept under an access token.
#[tactic(auto, using(crate::proofs::Entries::kept_text_remove))]
fn take_code(codes: &mut HashMap<String, String>, token: &str)
    ensures { kept_texts codes.new ≡ finite.remove (kept_texts codes.old) token.now }
{
    codes.remove(token);
}

// Keeps a grant under a code.
#[tactic(auto, using(crate::proofs::Entries::kept_insert))]
fn put_grant(
    by_code: &mut HashMap<String, Grant>,
    code: String,
    grant: Grant,
) -> Result<(), AllocError>
    ensures ok { OnOk result
        (kept by_code.new ≡ finite.insert (kept by_code.old) (string_bytes code) grant) }
    ensures err { OnErr result (kept by_code.new ≡ kept by_code.old) }
{
    by_code.insert(code, grant)?;
    Ok(())
}

// Marks the grant of a code, where there is one, as redeemed.
#[tactic(auto, using(crate::proofs::Entries::kept_insert, crate::proofs::Entries::get_kept))]
fn mark(by_code: &mut HashMap<String, Grant>, code: &str)
    ensures { let found = finite.get (kept by_code.old) code.now in
        kept by_code.new ≡ spec.marked (kept by_code.old) code.now found }
{
    if let Some(grant) = by_code.get_mut(code) {
        grant.redeemed = true;
    }
}

impl Grants {
    // No grants.
    #[tactic(auto, using(crate::proofs::Entries::nothing_kept, crate::proofs::Entries::no_texts_kept))]
    pub(crate) fn new(alloc: Global) -> Self
        ensures empty { result ≡ spec.no_grants }
    {
        Grants {
            by_code: HashMap::new(alloc),
            codes: HashMap::new(alloc),
        }
    }

    // The grant of a code.
    #[tactic(auto, using(crate::proofs::Entries::get_kept))]
    pub(crate) fn of_code(&self, code: &str) -> Option<&Grant>
        ensures found { option_copied result ≡ spec.grant_of_code self.now code.now }
    {
        self.by_code.get(code)
    }

    // The grant of an access token.
    #[tactic(auto, using(crate::proofs::Entries::get_kept, crate::proofs::Entries::get_kept_text))]
    pub(crate) fn of_token(&self, token: &str) -> Option<&Grant>
        ensures found { option_copied result ≡ spec.grant_of_token self.now token.now }
    {
        match self.codes.get(token) {
            Some(code) => self.of_code(code.as_str()),
            None => None,
        }
    }

    // Whether a grant has this code.
    pub(crate) fn has_code(&self, code: &str) -> bool
        ensures found { result ≡ spec.has_code self.now code.now }
    {
        self.of_code(code).is_some()
    }

    // Whether a grant has this access token.
    #[tactic(auto, using(crate::proofs::Entries::get_kept_text))]
    pub(crate) fn has_token(&self, token: &str) -> bool
        ensures found { result ≡ spec.has_token self.now token.now }
    {
        self.codes.contains_key(token)
    }

    // Adds a grant whose code and whose access token are new. After an error the grants are as they were.
    #[tactic(auto, using(crate::proofs::Entries::taken_back))]
    pub(crate) fn insert(&mut self, alloc: Global, grant: Grant) -> Result<(), AllocError>
        requires code { spec.has_code self.old grant.code ≡ false }
        requires token { spec.has_token self.old grant.token ≡ false }
        ensures ok { OnOk result (self.new ≡ spec.with_grant self.old grant) }
        ensures err { OnErr result (self.new ≡ self.old) }
    {
        let token = String::from_str(alloc, grant.token.as_str())?;
        let code = String::from_str(alloc, grant.code.as_str())?;
        let taken_back = String::from_str(alloc, grant.token.as_str())?;
        let key = String::from_str(alloc, grant.code.as_str())?;
        put_code(&mut self.codes, token, code)?;
        match put_grant(&mut self.by_code, key, grant) {
            Ok(()) => Ok(()),
            Err(_) => {
                take_code(&mut self.codes, taken_back.as_str());
                Err(AllocError)
            }
        }
    }

    // Redeems the grant of a code, where there is one. This takes no memory.
    pub(crate) fn redeem(&mut self, code: &str)
        ensures redeemed { self.new ≡ spec.redeemed_by self.old (Some code.now) }
    {
        mark(&mut self.by_code, code);
    }
}
