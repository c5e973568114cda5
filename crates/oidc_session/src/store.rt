// The sessions of a site and the ids of accepted logout tokens, with what finds the sessions that a logout names.

ghost use Rattle.std.specs.Prelude.{◌≡◌, ◌≢◌, ◌||◌, List, ℕ, Some, IfOk, IfSome, IsSome, IsTrue, OnOk, OnErr, is_some, true, false};
ghost use Rattle.std.specs.Option.{option_copied, option_map_or};
ghost use Rattle.std.specs.Str.{bytes_eq};
ghost use Rattle.std.specs.FinMap as finite;
ghost use Rattle.std.specs.FinSet as set;
ghost use Rattle.std.specs.HashSet.{contains_text};
ghost use Rattle.std.specs.String.{string_bytes};
ghost use Rattle.oidc_session.specs.Sessions.{SeenSession, nothing, ends_after, has_ended, without, count_of, ends_session, logged_out};
ghost use Rattle.oidc_session.specs.Stored.{holds, IsIndexed, left_at, is_named_at as named_at};

use crate::index::Index;
use crate::logout_claims::Logout;
use crate::session::Session;
use crate::session_map::SessionMap;
use crate::token_ids::TokenIds;
use jiff::Timestamp;
use std::alloc::{AllocError, Global};
use std::collections::HashSet;
use std::marker::Model;

// What stands under a name: the sessions of a subject, or those behind one session of the provider.
#[derive(Clone, Copy, Drop)]
enum Name {
    Subject,
    ProviderSession,
}

// Contracts see the sessions and the ids. Each session's id stands under its subject, and under the provider's session
// behind it, where that is known.
#[derive(Drop)]
pub(crate) struct Store {
    sessions: SessionMap,
    by_subject: Index,
    by_provider_session: Index,
    token_ids: TokenIds,
}

impl Model for Store {
    ghost use Rattle.oidc_session.specs.Sessions.{Kept};
    ghost use Rattle.oidc_session.specs.Codes.{kept_code};
    ghost use Rattle.oidc_session.specs.Stored.{IsIndexed};

    ghost Value = { Kept };

    ghost coded = { kept_code };

    ghost view = { λ s. record { sessions = s.sessions; token_ids = s.token_ids } };

    ghost invariant = { λ s. IsIndexed s.sessions s.by_subject.ids s.by_provider_session.ids };
}

// Puts the id of a session under its names. All others stay, whatever comes.
fn link(
    alloc: Global,
    by_subject: &mut Index,
    by_provider_session: &mut Index,
    session: &Session,
    id: &str,
) -> Result<(), AllocError>
    ensures subject { OnOk result (holds by_subject.new.ids session.now.subject id.now ≡ true) }
    ensures provider_session { OnOk result (IfSome session.now.provider_session (λ name.
        holds by_provider_session.new.ids name id.now ≡ true)) }
    ensures others { (n i : List ℕ) → holds by_subject.old.ids n i ≡ true
        → holds by_subject.new.ids n i ≡ true }
    ensures other_sessions { (n i : List ℕ) → holds by_provider_session.old.ids n i ≡ true
        → holds by_provider_session.new.ids n i ≡ true }
{
    by_subject.link(alloc, session.subject().as_str(), id)?;
    match session.provider_session() {
        Some(name) => by_provider_session.link(alloc, name.as_str(), id),
        None => Ok(()),
    }
}

// Whether a session is of a subject.
fn is_of_subject(session: Option<&Session>, subject: &str) -> bool
    ensures { result ≡ option_map_or (λ s. bytes_eq s.now.subject subject.now) session.entry false }
{
    match session {
        Some(session) => session.subject().as_str() == subject,
        None => false,
    }
}

// Whether one session of the provider is behind a session.
fn is_behind(session: Option<&Session>, name: &str) -> bool
    ensures { result ≡ option_map_or (λ s.
        option_map_or (λ own. bytes_eq own name.now) s.now.provider_session false)
        session.entry false }
{
    match session {
        Some(session) => match session.provider_session() {
            Some(own) => own.as_str() == name,
            None => false,
        },
        None => false,
    }
}

// Takes the id of a session that is gone away from under its subject, where no other session of the id has it.
fn unlink_subject(sessions: &SessionMap, by_subject: &mut Index, gone: &Session, id: &str)
    ensures others { (q : List ℕ) (s : SeenSession) → finite.get sessions.now q ≡ Some s
        → holds by_subject.old.ids s.subject q ≡ true
        → holds by_subject.new.ids s.subject q ≡ true }
{
    let subject = gone.subject().as_str();
    if !is_of_subject(sessions.get(id), subject) {
        by_subject.unlink(subject, id);
    }
}

// Takes the id of a session that is gone away from under a session of the provider, where no other session of the id
// has it behind it.
fn unlink_behind(sessions: &SessionMap, by_provider_session: &mut Index, name: &str, id: &str)
    ensures others { (q n : List ℕ) (s : SeenSession) → finite.get sessions.now q ≡ Some s
        → s.provider_session ≡ Some n → holds by_provider_session.old.ids n q ≡ true
        → holds by_provider_session.new.ids n q ≡ true }
{
    if !is_behind(sessions.get(id), name) {
        by_provider_session.unlink(name, id);
    }
}

// Takes the id of a session that is gone away from under its names, where no other session of the id has them.
fn unlink(
    sessions: &SessionMap,
    by_subject: &mut Index,
    by_provider_session: &mut Index,
    gone: &Session,
    id: &str,
)
    requires { IsIndexed sessions.now by_subject.old.ids by_provider_session.old.ids }
    ensures { IsIndexed sessions.now by_subject.new.ids by_provider_session.new.ids }
{
    unlink_subject(sessions, by_subject, gone, id);
    match gone.provider_session() {
        Some(name) => unlink_behind(sessions, by_provider_session, name.as_str(), id),
        None => {}
    }
}

// Takes the id of a session away from under its name of this kind.
fn unlink_name(index: &mut Index, kind: Name, gone: &Session, id: &str)
    ensures others { (n i : List ℕ) → (i ≢ id.now) → holds index.old.ids n i ≡ true
        → holds index.new.ids n i ≡ true }
{
    match kind {
        Name::Subject => index.unlink(gone.subject().as_str(), id),
        Name::ProviderSession => match gone.provider_session() {
            Some(name) => index.unlink(name.as_str(), id),
            None => {}
        },
    }
}

// Whether a logout names the session of an id, where there is one.
fn is_named_at(sessions: &SessionMap, logout: &Logout, id: &str) -> bool
    ensures { result ≡ named_at logout.now (finite.get sessions.now id.now) }
{
    match sessions.get(id) {
        Some(session) => logout.names(session),
        None => false,
    }
}

// Removes the session of an id, where a logout names it, and takes its id away from under its name of this kind.
fn take_one(sessions: &mut SessionMap, index: &mut Index, kind: Name, logout: &Logout, id: &str)
    ensures left { (q : List ℕ) → finite.get sessions.new q
        ≡ left_at logout.now (bytes_eq id.now q) (finite.get sessions.old q) }
    ensures others { (n i : List ℕ) → IsSome (finite.get sessions.new i)
        → holds index.old.ids n i ≡ true → holds index.new.ids n i ≡ true }
{
    if !is_named_at(sessions, logout, id) {
        return;
    }
    match sessions.remove(id) {
        Some(gone) => unlink_name(index, kind, &gone, id),
        None => {}
    }
}

// Removes the sessions of these ids that a logout names, and takes their ids away from under their names of this kind.
fn take_named(
    ids: &HashSet<String>,
    sessions: &mut SessionMap,
    index: &mut Index,
    kind: Name,
    logout: &Logout,
)
    ensures left { (q : List ℕ) → finite.get sessions.new q
        ≡ left_at logout.now (contains_text ids.now q) (finite.get sessions.old q) }
    ensures others { (n i : List ℕ) → IsSome (finite.get sessions.new i)
        → holds index.old.ids n i ≡ true → holds index.new.ids n i ≡ true }
{
    for id in ids {
        take_one(sessions, index, kind, logout, id.as_str());
    }
}

// Removes the sessions under a name that a logout names, and takes their ids away from under their names of this kind.
fn take_all(
    name: &str,
    sessions: &mut SessionMap,
    own: &Index,
    other: &mut Index,
    kind: Name,
    logout: &Logout,
)
    ensures left { (q : List ℕ) → finite.get sessions.new q
        ≡ left_at logout.now (holds own.now.ids name.now q) (finite.get sessions.old q) }
    ensures others { (n i : List ℕ) → IsSome (finite.get sessions.new i)
        → holds other.old.ids n i ≡ true → holds other.new.ids n i ≡ true }
{
    match own.under(name) {
        Some(ids) => take_named(ids, sessions, other, kind, logout),
        None => {}
    }
}

// Removes the sessions under a name that a logout names, and takes their ids away from under all their names.
fn take_under(
    name: &str,
    sessions: &mut SessionMap,
    own: &mut Index,
    other: &mut Index,
    kind: Name,
    logout: &Logout,
)
    ensures left { (q : List ℕ) → finite.get sessions.new q
        ≡ left_at logout.now (holds own.old.ids name.now q) (finite.get sessions.old q) }
    ensures own { (n i : List ℕ) → IsSome (finite.get sessions.new i)
        → holds own.old.ids n i ≡ true → holds own.new.ids n i ≡ true }
    ensures others { (n i : List ℕ) → IsSome (finite.get sessions.new i)
        → holds other.old.ids n i ≡ true → holds other.new.ids n i ≡ true }
{
    take_all(name, sessions, own, other, kind, logout);
    own.keep_live(name, sessions);
}

// Removes the sessions that a logout names: by the provider's session, where it has one, else by the subject.
fn remove_named(
    sessions: &mut SessionMap,
    by_subject: &mut Index,
    by_provider_session: &mut Index,
    logout: &Logout,
)
    requires names { IsTrue (is_some logout.now.subject || is_some logout.now.provider_session) }
    requires indexed { IsIndexed sessions.old by_subject.old.ids by_provider_session.old.ids }
    ensures rest { sessions.new ≡ without (ends_session logout.now) sessions.old }
    ensures indexed { IsIndexed sessions.new by_subject.new.ids by_provider_session.new.ids }
{
    match &logout.provider_session {
        Some(name) => take_under(
            name.as_str(),
            sessions,
            by_provider_session,
            by_subject,
            Name::Subject,
            logout,
        ),
        None => match &logout.subject {
            Some(subject) => take_under(
                subject.as_str(),
                sessions,
                by_subject,
                by_provider_session,
                Name::ProviderSession,
                logout,
            ),
            None => unreachable!(),
        },
    }
}

// Takes the id of a session that has ended away from under its name of this kind.
fn unlink_if_ended(index: &mut Index, kind: Name, id: &str, session: &Session, now: Timestamp)
    ensures others { (n i : List ℕ) → (ends_after now.nanosecond session.now ≡ false → i ≢ id.now)
        → holds index.old.ids n i ≡ true → holds index.new.ids n i ≡ true }
{
    if session.ends_after(now) {
        return;
    }
    unlink_name(index, kind, session, id);
}

// Takes the ids of the sessions that have ended away from under their names.
fn unlink_ended(
    sessions: &SessionMap,
    by_subject: &mut Index,
    by_provider_session: &mut Index,
    now: Timestamp,
)
    ensures others { (n i : List ℕ) (s : SeenSession) → finite.get sessions.now i ≡ Some s
        → ends_after now.nanosecond s ≡ true
        → holds by_subject.old.ids n i ≡ true → holds by_subject.new.ids n i ≡ true }
    ensures other_sessions { (n i : List ℕ) (s : SeenSession)
        → finite.get sessions.now i ≡ Some s → ends_after now.nanosecond s ≡ true
        → holds by_provider_session.old.ids n i ≡ true
        → holds by_provider_session.new.ids n i ≡ true }
{
    for (id, session) in &sessions.sessions {
        unlink_if_ended(by_subject, Name::Subject, id.as_str(), session, now);
        unlink_if_ended(
            by_provider_session,
            Name::ProviderSession,
            id.as_str(),
            session,
            now,
        );
    }
}

impl Store {
    // Nothing.
    pub(crate) fn new(alloc: Global) -> Self
        ensures empty { result ≡ nothing }
    {
        Store {
            sessions: SessionMap::new(alloc),
            by_subject: Index::new(alloc),
            by_provider_session: Index::new(alloc),
            token_ids: TokenIds::new(alloc),
        }
    }

    // The session of an id.
    pub(crate) fn get(&self, id: &str) -> Option<&Session>
        ensures found { option_copied result ≡ finite.get self.now.sessions id.now }
    {
        self.sessions.get(id)
    }

    // The ids of the logout tokens that were accepted.
    pub(crate) fn token_ids(&self) -> &TokenIds
        ensures ids { result.now ≡ self.now.token_ids }
    {
        &self.token_ids
    }

    // Puts a session in the place of any other of its id. After an error all is as it was.
    pub(crate) fn insert(
        &mut self,
        alloc: Global,
        id: String,
        session: Session,
    ) -> Result<(), AllocError>
        ensures ok { OnOk result (self.new ≡ record self.old {
          sessions = finite.insert self.old.sessions (string_bytes id) session;
        }) }
        ensures err { OnErr result (self.new ≡ self.old) }
    {
        let own = String::from_str(alloc, id.as_str())?;
        link(
            alloc,
            &mut self.by_subject,
            &mut self.by_provider_session,
            &session,
            id.as_str(),
        )?;
        if let Some(gone) = self.sessions.insert(own, session)? {
            unlink(
                &self.sessions,
                &mut self.by_subject,
                &mut self.by_provider_session,
                &gone,
                id.as_str(),
            );
        }
        Ok(())
    }

    // Removes the session of an id, and tells whether one stood there. It takes no memory.
    pub(crate) fn remove(&mut self, id: &str) -> bool
        ensures stood { result ≡ finite.contains_key self.old.sessions id.now }
        ensures rest { self.new ≡ record self.old {
          sessions = finite.remove self.old.sessions id.now;
        } }
    {
        match self.sessions.remove(id) {
            Some(gone) => {
                unlink(
                    &self.sessions,
                    &mut self.by_subject,
                    &mut self.by_provider_session,
                    &gone,
                    id,
                );
                true
            }
            None => false,
        }
    }

    // Removes the sessions that don't end after this moment, and tells how many. It takes no memory.
    pub(crate) fn sweep(&mut self, now: Timestamp) -> usize
        ensures count { result ≡ count_of (has_ended now.nanosecond) self.old.sessions }
        ensures rest { self.new ≡ record self.old {
          sessions = without (has_ended now.nanosecond) self.old.sessions;
        } }
    {
        let before = self.sessions.len();
        unlink_ended(
            &self.sessions,
            &mut self.by_subject,
            &mut self.by_provider_session,
            now,
        );
        self.sessions.remove_ended(now);
        before.saturating_sub(self.sessions.len())
    }

    // Keeps the id of a logout token, removes the sessions that it names, and tells how many. After an error all is as
    // it was.
    pub(crate) fn log_out(&mut self, alloc: Global, logout: &Logout) -> Result<usize, AllocError>
        requires { IsTrue (is_some logout.now.subject || is_some logout.now.provider_session) }
        ensures count { IfOk result (λ count.
            count ≡ count_of (ends_session logout.now) self.old.sessions) }
        ensures ok { OnOk result (self.new ≡ logged_out self.old logout.now) }
        ensures err { OnErr result (self.new ≡ self.old) }
    {
        let id = String::from_str(alloc, logout.token_id.as_str())?;
        self.token_ids.insert(id)?;
        let before = self.sessions.len();
        remove_named(
            &mut self.sessions,
            &mut self.by_subject,
            &mut self.by_provider_session,
            logout,
        );
        Ok(before.saturating_sub(self.sessions.len()))
    }
}
