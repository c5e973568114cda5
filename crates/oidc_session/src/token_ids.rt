// The ids of the logout tokens that were accepted.

ghost use Rattle.std.specs.Prelude.{◌≡◌, OnOk, OnErr};
ghost use Rattle.std.specs.FinSet as set;
ghost use Rattle.std.specs.String.{string_bytes};

use std::alloc::{AllocError, Global};
use std::collections::HashSet;
use std::marker::Model;

// They are kept for good. Contracts see them without an order.
#[derive(Drop)]
pub(crate) struct TokenIds {
    ids: HashSet<String>,
}

impl Model for TokenIds {
    ghost use Rattle.oidc_session.specs.Sessions.{TokenIds as SeenIds};
    ghost use Rattle.oidc_session.specs.Codes.{token_ids_code};
    ghost use Rattle.oidc_session.specs.Stored.{kept_ids};

    ghost Value = { SeenIds };

    ghost coded = { token_ids_code };

    ghost view = { λ t. kept_ids t.ids };
}

impl TokenIds {
    // None.
    #[tactic(auto, using(crate::proofs::Entries::no_ids))]
    pub(crate) fn new(alloc: Global) -> Self
        ensures empty { result ≡ set.empty }
    {
        TokenIds {
            ids: HashSet::new(alloc),
        }
    }

    // Whether this is one of them.
    #[tactic(auto, using(crate::proofs::Entries::contains_kept))]
    pub(crate) fn contains(&self, id: &str) -> bool
        ensures found { result ≡ set.contains self.now id.now }
    {
        self.ids.contains(id)
    }

    // Adds one. After an error they are as they were.
    #[tactic(auto, using(crate::proofs::Entries::ids_insert, crate::proofs::Entries::ids_stay))]
    pub(crate) fn insert(&mut self, id: String) -> Result<(), AllocError>
        ensures ok { OnOk result (self.new ≡ set.insert self.old (string_bytes id)) }
        ensures err { OnErr result (self.new ≡ self.old) }
    {
        self.ids.insert(id)?;
        Ok(())
    }
}
