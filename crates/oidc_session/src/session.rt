//! A session of a user.

ghost use Rattle.std.specs.Prelude.{◌≡◌};
ghost use Rattle.std.specs.Option.{option_copied};
ghost use Rattle.oidc_session.specs.Sessions as spec;

use jiff::Timestamp;
use oidc_types::{Marker, RandomMarker, Secret, SubjectIdentifier, Text};
use std::marker::Model;

/// The name of [`SessionId`].
#[derive(Drop)]
pub struct SessionIdMarker;

impl Marker for SessionIdMarker {
    ghost use Rattle.std.specs.Prelude.{codes};

    ghost name = { codes "SessionId" };

    fn name() -> &'static str {
        "SessionId"
    }
}

impl RandomMarker for SessionIdMarker {}

/// The id of a session, which a cookie holds. Whoever has it has the session: `Debug` doesn't print it, and
/// `SessionId::new_random` draws one from the site's generator, which is to be one for secrets.
pub type SessionId = Secret<SessionIdMarker>;

/// The name of [`ProviderSession`].
#[derive(Drop)]
pub struct ProviderSessionMarker;

impl Marker for ProviderSessionMarker {
    ghost use Rattle.std.specs.Prelude.{codes};

    ghost name = { codes "ProviderSession" };

    fn name() -> &'static str {
        "ProviderSession"
    }
}

/// The ID of a session at the provider, the claim `sid` (OpenID Connect Back-Channel Logout 1.0 section 2.1).
pub type ProviderSession = Text<ProviderSessionMarker>;

/// A session of a user. Contracts see whose it is, the provider's session behind it, where that is known, and when it
/// ends. It has no `Debug`, since it says who a person is.
#[derive(Drop)]
pub struct Session {
    subject: SubjectIdentifier,
    provider_session: Option<ProviderSession>,
    end: Timestamp,
}

impl Model for Session {
    ghost use Rattle.oidc_session.specs.Sessions.{SeenSession};
    ghost use Rattle.oidc_session.specs.Codes.{session_code};

    ghost Value = { SeenSession };

    ghost coded = { session_code };

    ghost view = { λ s. record {
      subject = s.subject;
      provider_session = s.provider_session;
      end = s.end.nanosecond;
    } };
}

impl Session {
    // A session of this subject.
    pub(crate) fn new(
        subject: SubjectIdentifier,
        provider_session: Option<ProviderSession>,
        end: Timestamp,
    ) -> Self
        ensures { result ≡ record {
          subject = subject;
          provider_session = provider_session;
          end = end.nanosecond;
        } }
    {
        Session {
            subject,
            provider_session,
            end,
        }
    }

    /// Whose session it is.
    pub fn subject(&self) -> &SubjectIdentifier
        ensures subject { result.now ≡ self.now.subject }
    {
        &self.subject
    }

    /// When it ends: from this moment on it isn't found.
    pub fn end(&self) -> Timestamp
        ensures end { result.nanosecond ≡ self.now.end }
    {
        self.end
    }

    // The provider's session behind it, where that is known.
    pub(crate) fn provider_session(&self) -> Option<&ProviderSession>
        ensures { option_copied result ≡ self.now.provider_session }
    {
        self.provider_session.as_ref()
    }

    // Whether it ends after this moment.
    pub(crate) fn ends_after(&self, now: Timestamp) -> bool
        ensures { result ≡ spec.ends_after now.nanosecond self.now }
    {
        now < self.end
    }
}
