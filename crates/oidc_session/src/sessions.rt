//! The sessions of a site.

ghost use Rattle.std.specs.Prelude.{◌≡◌, ◌↔◌, ◌≢◌, ◌≤ℤ◌, ◌<ℤ◌, IfErr, IfOk, IfSome, IsSome, IsErrOf, OnOk, OnErr, Ok, Err, true, false};
ghost use Rattle.std.specs.Option.{option_copied};
ghost use Rattle.std.specs.FinMap as finite;
ghost use Rattle.std.specs.FinSet as set;
ghost use Rattle.oidc_oauth2.specs.Replies.{Gives, Unless};
ghost use Rattle.oidc_login.specs.Token.{subject_of};
ghost use Rattle.oidc_session.specs.Sessions.{nothing, session_at, opening, with_session, without, count_of, has_ended, ends_session, logged_out, open_reply, open_errors, SeenLogout};
ghost use Rattle.oidc_session.specs.LogoutTokens.{logout_keys, logout_verifier, logout_errors, accepted_logout, is_memory, holds_memory};
ghost use Rattle.oidc_session.specs.LogoutCauses.{LogoutCause, IsAcceptedLogout};
ghost use Rattle.oidc_session.specs.Events.{count_named, left_by};
ghost use Rattle.oidc_session.specs.declared.errors.LogoutError.{LogoutError as LogoutRefusal};

use crate::errors::{LogoutError, OpenError};
use crate::logout_tokens::LogoutVerifier;
use crate::session::{ProviderSession, Session, SessionId};
use crate::store::Store;
use jiff::Timestamp;
use oidc_claims::{AdditionalClaims, GenderClaim};
use oidc_keys::JsonWebKey;
use oidc_login::SignedIn;
use std::alloc::Global;
use std::marker::Model;

// Removes the sessions that a logout token names, and tells how many.
fn log_out<K: JsonWebKey>(
    alloc: Global,
    verifier: &LogoutVerifier<'_, K>,
    kept: &mut Store,
    text: &str,
    now: Timestamp,
) -> Result<usize, LogoutError>
    ensures reply { let keys = logout_keys K.SigningAlgorithm.ClosedVocabulary K.verdict in
        let v = logout_verifier verifier.now.client_id.now verifier.now.issuer.now
        verifier.now.key.now verifier.now.alg.now in
        let meant = accepted_logout keys v kept.old.token_ids now.nanosecond text.now in
        Gives logout_errors result (count_named kept.old meant) }
    ensures ok { let keys = logout_keys K.SigningAlgorithm.ClosedVocabulary K.verdict in
        let v = logout_verifier verifier.now.client_id.now verifier.now.issuer.now
        verifier.now.key.now verifier.now.alg.now in
        let meant = accepted_logout keys v kept.old.token_ids now.nanosecond text.now in
        OnOk result (kept.new ≡ left_by kept.old meant) }
    ensures err { OnErr result (kept.new ≡ kept.old) }
{
    match verifier.accept(alloc, text, kept.token_ids(), now) {
        Ok(logout) => match kept.log_out(alloc, &logout) {
            Ok(count) => Ok(count),
            Err(_) => {
                drop(logout);
                Err(LogoutError::Memory)
            }
        },
        Err(refusal) => Err(refusal),
    }
}

/// The sessions that a site keeps after logins, until they end, are closed, or are ended by a logout token of the
/// provider. Contracts see what is expected of such a token, and what is kept: the finite map from each id to its
/// session, and the set of the ids of the logout tokens that were accepted.
#[derive(Drop)]
pub struct Sessions<'v, K: JsonWebKey> {
    alloc: Global,
    verifier: LogoutVerifier<'v, K>,
    kept: Store,
}

impl<'v, K: JsonWebKey> Model for Sessions<'v, K> {
    ghost use Rattle.std.specs.Coded.{codes};
    ghost use Rattle.oidc_session.specs.Sessions.{Kept};
    ghost use Rattle.oidc_session.specs.LogoutTokens.{SeenSessions, logout_verifier};
    ghost use Rattle.oidc_session.specs.Codes.{kept_code};

    ghost Value = { SeenSessions K K.SigningAlgorithm };

    ghost coded = { Prim.hlevel (codes, kept_code) };

    ghost view = { λ s. record {
      verifier = logout_verifier s.verifier.client_id.now s.verifier.issuer.now
          s.verifier.key.now s.verifier.alg.now;
      kept = s.kept;
    } };
}

impl<'v, K: JsonWebKey> Sessions<'v, K> {
    /// No session, and no logout token that was accepted. It takes no memory.
    pub fn new(alloc: Global, verifier: LogoutVerifier<'v, K>) -> Self
        ensures empty { result ≡ record {
          verifier = logout_verifier verifier.entry.client_id.now verifier.entry.issuer.now
              verifier.entry.key.now verifier.entry.alg.now;
          kept = nothing;
        } }
    {
        Sessions {
            alloc,
            verifier,
            kept: Store::new(alloc),
        }
    }

    /// Keeps a session of one who is signed in, under an id and until `end`. `sid` is the provider's session behind it,
    /// where that is known. It takes the place of a session of that id which has ended.
    ///
    /// The errors are, in this order: `Ended`, where `now` isn't before `end`; `Taken`, where a session of that id ends
    /// after `now`; `Memory`. Each leaves all as it was.
    pub fn open<AC: AdditionalClaims, GC: GenderClaim>(
        &mut self,
        id: SessionId,
        signed_in: &SignedIn<AC, GC>,
        sid: Option<ProviderSession>,
        end: Timestamp,
        now: Timestamp,
    ) -> Result<(), OpenError>
        ensures verifier { self.new.verifier ≡ self.old.verifier }
        ensures reply { let o = opening id (subject_of signed_in.now.id_token) sid
            end.nanosecond now.nanosecond in
            Gives open_errors result (open_reply self.old.kept.sessions o) }
        ensures opened { let o = opening id (subject_of signed_in.now.id_token) sid
            end.nanosecond now.nanosecond in
            OnOk result (self.new.kept ≡ record self.old.kept {
              sessions = with_session self.old.kept.sessions o;
            }) }
        ensures unchanged { OnErr result (self.new ≡ self.old) }
        ensures ended { IsErrOf result OpenError.Ended ↔ (end.nanosecond ≤ℤ now.nanosecond) }
        ensures taken { IsErrOf result OpenError.Taken ↔ ((now.nanosecond <ℤ end.nanosecond)
            × IsSome (session_at self.old.kept.sessions id now.nanosecond)) }
    {
        if now >= end {
            return Err(OpenError::Ended);
        }
        if self.look(&id, now).is_some() {
            return Err(OpenError::Taken);
        }
        let subject = signed_in.claims().subject().clone_in(self.alloc)?;
        let session = Session::new(subject, sid, end);
        self.kept.insert(self.alloc, id.into_string(), session)?;
        Ok(())
    }

    /// The session of an id, where there is one that ends after `now`. It takes no memory.
    pub fn look(&self, id: &SessionId, now: Timestamp) -> Option<&Session>
        ensures found { option_copied result
            ≡ session_at self.now.kept.sessions id.now now.nanosecond }
    {
        match self.kept.get(id.secret()) {
            Some(session) if session.ends_after(now) => Some(session),
            _ => None,
        }
    }

    /// Removes the session of an id, and tells whether one stood there, also one that has ended. It takes no memory.
    pub fn close(&mut self, id: &SessionId) -> bool
        ensures stood { result ≡ finite.contains_key self.old.kept.sessions id.now }
        ensures closed { self.new ≡ record self.old {
          kept = record self.old.kept {
            sessions = finite.remove self.old.kept.sessions id.now;
          };
        } }
    {
        self.kept.remove(id.secret())
    }

    /// Removes the sessions that don't end after `now`, and tells how many. It takes no memory.
    pub fn sweep(&mut self, now: Timestamp) -> usize
        ensures count { result ≡ count_of (has_ended now.nanosecond) self.old.kept.sessions }
        ensures swept { self.new ≡ record self.old {
          kept = record self.old.kept {
            sessions = without (has_ended now.nanosecond) self.old.kept.sessions;
          };
        } }
    {
        self.kept.sweep(now)
    }

    /// Takes a logout token that the provider posted: removes the sessions that it names, and tells how many, also
    /// those that have ended. A token with `sub` and `sid` names the sessions that fit both. Its id is kept for good.
    ///
    /// The errors are, in this order: `Parse`, where the text is no logout token; `Unsupported`, where its header has
    /// `crit` or `cty`, or a `typ` other than `logout+jwt` and `jwt`; `InvalidIssuer`; `InvalidAudience`, where the
    /// client isn't in the audience, or somebody else is; `WrongAlgorithm`, where it isn't signed by the verifier's
    /// algorithm; `Signature`, where the key doesn't verify it; `Expired`, where `now` isn't before its `exp`; `Events`,
    /// where its events don't hold that of a logout; `NoName`, where it has neither `sub` nor `sid`; `Nonce`, where it
    /// has a nonce that isn't null; `Replayed`, where a token of its `jti` was accepted before (OpenID Connect
    /// Back-Channel Logout 1.0 section 2.6). `Memory` may come at any point. Each leaves all as it was.
    pub fn provider_logout(&mut self, text: &str, now: Timestamp) -> Result<usize, LogoutError>
        ensures verifier { self.new.verifier ≡ self.old.verifier }
        ensures reply { let keys = logout_keys K.SigningAlgorithm.ClosedVocabulary K.verdict in
            let ids = self.old.kept.token_ids in
            let meant = accepted_logout keys self.old.verifier ids now.nanosecond text.now in
            Gives logout_errors result (count_named self.old.kept meant) }
        ensures logged_out { let keys = logout_keys K.SigningAlgorithm.ClosedVocabulary K.verdict in
            let ids = self.old.kept.token_ids in
            let meant = accepted_logout keys self.old.verifier ids now.nanosecond text.now in
            OnOk result (self.new.kept ≡ left_by self.old.kept meant) }
        ensures unchanged { OnErr result (self.new ≡ self.old) }

        // Each refusal has its cause, and each cause its refusal; an Ok rests on a token that is accepted, counts the
        // sessions that it names, and leaves the others.
        ensures cause { let keys = logout_keys K.SigningAlgorithm.ClosedVocabulary K.verdict in
            let ids = self.old.kept.token_ids in
            IfErr result (λ e. Unless (is_memory e)
            (LogoutCause keys self.old.verifier ids now.nanosecond text.now e)) }
        ensures refused { let keys = logout_keys K.SigningAlgorithm.ClosedVocabulary K.verdict in
            let ids = self.old.kept.token_ids in
            (e : LogoutRefusal) → LogoutCause keys self.old.verifier ids now.nanosecond text.now e
            → Gives logout_errors result (Err e) }
        ensures accepted { let keys = logout_keys K.SigningAlgorithm.ClosedVocabulary K.verdict in
            let ids = self.old.kept.token_ids in
            IfOk result (λ count. (logout : SeenLogout)
            × IsAcceptedLogout keys self.old.verifier ids now.nanosecond text.now logout
            × (count ≡ count_of (ends_session logout) self.old.kept.sessions)
            × (self.new.kept ≡ logged_out self.old.kept logout)) }
        ensures accepts { let keys = logout_keys K.SigningAlgorithm.ClosedVocabulary K.verdict in
            let ids = self.old.kept.token_ids in
            (logout : SeenLogout)
            → IsAcceptedLogout keys self.old.verifier ids now.nanosecond text.now logout
            → Gives logout_errors result
            (Ok (count_of (ends_session logout) self.old.kept.sessions)) }
        ensures no_inner_memory { IfErr result (λ e. holds_memory e ≡ false) }
    {
        log_out(self.alloc, &self.verifier, &mut self.kept, text, now)
    }
}
