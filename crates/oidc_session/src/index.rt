// Which sessions there are under a name: under a subject, or under a session of the provider.

ghost use Rattle.std.specs.Prelude.{◌≡◌, ◌≢◌, List, ℕ, true, false, IsSome, OnOk};
ghost use Rattle.std.specs.FinMap as finite;
ghost use Rattle.std.specs.Option.{option_copied};
ghost use Rattle.std.specs.HashMap.{get_by_text};
ghost use Rattle.oidc_session.specs.Stored.{holds};

use crate::session_map::SessionMap;
use std::alloc::{AllocError, Global};
use std::collections::{HashMap, HashSet};

// The ids of sessions, by names. An id may stand here whose session is gone: who reads it asks the sessions.
#[derive(Drop)]
pub(crate) struct Index {
    pub(crate) ids: HashMap<String, HashSet<String>>,
}

impl Index {
    // No id.
    pub(crate) fn new(alloc: Global) -> Self {
        Index {
            ids: HashMap::new(alloc),
        }
    }

    // The ids under a name.
    pub(crate) fn under(&self, name: &str) -> Option<&HashSet<String>>
        ensures ids { option_copied result ≡ get_by_text self.now.ids name.now }
    {
        self.ids.get(name)
    }

    // Sees that there is a set of ids under a name.
    fn name(&mut self, alloc: Global, name: &str) -> Result<(), AllocError>
        ensures there { OnOk result (IsSome (get_by_text self.new.ids name.now)) }
        ensures others { (n i : List ℕ) → holds self.old.ids n i ≡ true
            → holds self.new.ids n i ≡ true }
    {
        if self.ids.contains_key(name) {
            return Ok(());
        }
        self.ids
            .insert(String::from_str(alloc, name)?, HashSet::new(alloc))?;
        Ok(())
    }

    // Puts an id under a name. All others stay, whatever comes.
    pub(crate) fn link(&mut self, alloc: Global, name: &str, id: &str) -> Result<(), AllocError>
        ensures there { OnOk result (holds self.new.ids name.now id.now ≡ true) }
        ensures others { (n i : List ℕ) → holds self.old.ids n i ≡ true
            → holds self.new.ids n i ≡ true }
    {
        let own = String::from_str(alloc, id)?;
        self.name(alloc, name)?;
        match self.ids.get_mut(name) {
            Some(ids) => {
                ids.insert(own)?;
                Ok(())
            }
            None => unreachable!(),
        }
    }

    // Whether a name stands here, with no id under it.
    fn is_empty_under(&self, name: &str) -> bool
        ensures { result ≡ true → (i : List ℕ) → holds self.now.ids name.now i ≡ false }
    {
        match self.ids.get(name) {
            Some(ids) => ids.is_empty(),
            None => false,
        }
    }

    // Takes a name away under which no id stands.
    fn drop_empty(&mut self, name: &str)
        ensures others { (n i : List ℕ) → holds self.old.ids n i ≡ true
            → holds self.new.ids n i ≡ true }
    {
        if self.is_empty_under(name) {
            self.ids.remove(name);
        }
    }

    // Takes an id away from under a name.
    fn take(&mut self, name: &str, id: &str)
        ensures others { (n i : List ℕ) → (n ≡ name.now → i ≢ id.now)
            → holds self.old.ids n i ≡ true → holds self.new.ids n i ≡ true }
    {
        let Some(ids) = self.ids.get_mut(name) else {
            return;
        };
        ids.remove(id);
    }

    // Takes the ids away from under a name whose sessions are gone.
    fn take_gone(&mut self, name: &str, sessions: &SessionMap)
        ensures others { (n i : List ℕ) → IsSome (finite.get sessions.now i)
            → holds self.old.ids n i ≡ true → holds self.new.ids n i ≡ true }
    {
        let Some(ids) = self.ids.get_mut(name) else {
            return;
        };
        ids.retain(|id| sessions.get(id.as_str()).is_some());
    }

    // Takes an id away from under a name, and the name where nothing else stands under it. It takes no memory.
    pub(crate) fn unlink(&mut self, name: &str, id: &str)
        ensures others { (n i : List ℕ) → (n ≡ name.now → i ≢ id.now)
            → holds self.old.ids n i ≡ true → holds self.new.ids n i ≡ true }
    {
        self.take(name, id);
        self.drop_empty(name);
    }

    // Takes the ids away from under a name whose sessions are gone, and the name where nothing else stands under it.
    // It takes no memory.
    pub(crate) fn keep_live(&mut self, name: &str, sessions: &SessionMap)
        ensures others { (n i : List ℕ) → IsSome (finite.get sessions.now i)
            → holds self.old.ids n i ≡ true → holds self.new.ids n i ≡ true }
    {
        self.take_gone(name, sessions);
        self.drop_empty(name);
    }
}
