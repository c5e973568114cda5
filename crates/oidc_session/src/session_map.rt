// The sessions, by their ids.

ghost use Rattle.std.specs.Prelude.{◌≡◌, IfOk, OnOk, OnErr, true};
ghost use Rattle.std.specs.Option.{option_copied};
ghost use Rattle.std.specs.FinMap as finite;
ghost use Rattle.std.specs.String.{string_bytes};
ghost use Rattle.oidc_session.specs.Sessions.{without, has_ended};

use crate::session::Session;
use jiff::Timestamp;
use std::alloc::{AllocError, Global};
use std::collections::HashMap;
use std::marker::Model;

// A hashed map. Contracts see it without an order.
#[derive(Drop)]
pub(crate) struct SessionMap {
    pub(crate) sessions: HashMap<String, Session>,
}

impl Model for SessionMap {
    ghost use Rattle.oidc_session.specs.Sessions.{Sessions};
    ghost use Rattle.oidc_session.specs.Codes.{sessions_code};
    ghost use Rattle.oidc_session.specs.Stored.{kept_sessions};

    ghost Value = { Sessions };

    ghost coded = { sessions_code };

    ghost view = { λ m. kept_sessions m.sessions };
}

impl SessionMap {
    // No session.
    #[tactic(auto, using(crate::proofs::Entries::nothing_kept))]
    pub(crate) fn new(alloc: Global) -> Self
        ensures empty { result ≡ finite.empty }
    {
        SessionMap {
            sessions: HashMap::new(alloc),
        }
    }

    // How many there are.
    #[tactic(auto, using(crate::proofs::Entries::len_kept))]
    pub(crate) fn len(&self) -> usize
        ensures count { result ≡ finite.len self.now }
    {
        self.sessions.len()
    }

    // The session of an id.
    #[tactic(auto, using(crate::proofs::Entries::get_kept))]
    pub(crate) fn get(&self, id: &str) -> Option<&Session>
        ensures found { option_copied result ≡ finite.get self.now id.now }
    {
        self.sessions.get(id)
    }

    // Puts a session in the place of any other of its id, and gives that. After an error all is as it was.
    #[tactic(auto, using(crate::proofs::Entries::get_kept, crate::proofs::Entries::kept_insert))]
    pub(crate) fn insert(
        &mut self,
        id: String,
        session: Session,
    ) -> Result<Option<Session>, AllocError>
        ensures old { IfOk result (λ old. old ≡ finite.get self.old (string_bytes id)) }
        ensures ok { OnOk result (self.new ≡ finite.insert self.old (string_bytes id) session) }
        ensures err { OnErr result (self.new ≡ self.old) }
    {
        Ok(self.sessions.insert(id, session)?)
    }

    // Takes the session of an id out. It takes no memory.
    #[tactic(auto, using(crate::proofs::Entries::get_kept, crate::proofs::Entries::kept_remove))]
    pub(crate) fn remove(&mut self, id: &str) -> Option<Session>
        ensures session { result ≡ finite.get self.old id.now }
        ensures rest { self.new ≡ finite.remove self.old id.now }
    {
        self.sessions.remove(id)
    }

    // Removes those that don't end after this moment. It takes no memory.
    pub(crate) fn remove_ended(&mut self, now: Timestamp)
        ensures rest { self.new ≡ without (has_ended now.nanosecond) self.old }
    {
        self.sessions.retain(|_, session| session.ends_after(now));
    }
}
