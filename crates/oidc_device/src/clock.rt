// When a device may poll.

ghost use Rattle.std.specs.Prelude.{◌≡◌};
ghost use Rattle.std.specs.Duration.{as_nanos};
ghost use Rattle.oidc_device.specs.Errors.{seen, seen_reply};
ghost use Rattle.oidc_device.specs.Logins as logins;
ghost use Rattle.oidc_device.specs.DeviceStep as steps;
ghost use Rattle.oidc_device.specs.DeviceStep.{polling_after, polling_refused};
ghost use Rattle.oidc_device.specs.Steps.{polling_of, polling_from, turn_of, poll_turn};

use crate::errors::DeviceError;
use crate::step::DeviceStep;
use jiff::Timestamp;
use oidc_claims::{AdditionalClaims, GenderClaim};
use oidc_oauth2::RequestTokenError;
use std::time::Duration;

const NANOSECONDS: u128 = 1_000_000_000;

// What is due at a moment.
#[derive(Clone, Copy)]
pub(crate) enum Turn {
    // Nothing any more.
    Over,
    // The end.
    Expired,
    // A poll, once so many seconds have gone by.
    Wait(u128),
    // A poll.
    Poll,
}

// The moments of a device login, in nanoseconds since the Unix epoch, and the seconds between two polls. The expiry is
// kept as a number, since it may lie past the last moment there is.
#[derive(Clone, Copy)]
pub(crate) struct Clock {
    expiry: i128,
    last_poll: Timestamp,
    interval: u64,
    is_over: bool,
}

impl Clock {
    // The clock of a login that starts now.
    pub(crate) fn new(now: Timestamp, expires_in: Duration, interval: Duration) -> Self
        ensures { let first = polling_from now.nanosecond (as_nanos expires_in) (as_nanos interval) in
            polling_of result ≡ first }
    {
        Clock {
            expiry: now.as_nanosecond() + expires_in.as_nanos() as i128,
            last_poll: now,
            interval: interval.as_secs(),
            is_over: false,
        }
    }

    // The moment of the next poll.
    fn due(self) -> i128
        ensures { result ≡ logins.due (polling_of self) }
    {
        self.last_poll.as_nanosecond() + self.interval as i128 * 1_000_000_000
    }

    // What is due now.
    pub(crate) fn turn(self, now: Timestamp) -> Turn
        ensures { result ≡ turn_of (polling_of self) now.nanosecond }
    {
        if self.is_over {
            return Turn::Over;
        }
        if self.expiry <= now.as_nanosecond() {
            return Turn::Expired;
        }
        self.poll_turn(now)
    }

    // Whether a poll is due now, or how long it has to be waited for.
    fn poll_turn(self, now: Timestamp) -> Turn
        ensures { result ≡ poll_turn (logins.due (polling_of self)) now.nanosecond }
    {
        let due = self.due();
        let now = now.as_nanosecond();
        if due <= now {
            return Turn::Poll;
        }
        let left = (due - now) as u128;
        Turn::Wait(left.div_ceil(NANOSECONDS))
    }

    // The clock after a step that answered so now.
    pub(crate) fn after<AC: AdditionalClaims, GC: GenderClaim, E>(
        self,
        now: Timestamp,
        reply: &Result<DeviceStep<AC, GC>, DeviceError<E>>,
    ) -> Clock
        ensures { let before = polling_of self in
            polling_of result ≡ polling_after now.nanosecond before (seen_reply reply.now) }
    {
        match reply {
            Ok(DeviceStep::Wait(_)) => self,
            Ok(DeviceStep::Pending) => self.polled(now),
            Ok(DeviceStep::SlowDown) => self.polled(now).raised(),
            Ok(DeviceStep::Done(_)) => self.polled(now).ended(),
            Err(error) => self.after_refusal(now, error),
        }
    }

    // The clock after a step that was refused so now.
    fn after_refusal<E>(self, now: Timestamp, error: &DeviceError<E>) -> Clock
        ensures { let before = polling_of self in
            polling_of result ≡ polling_refused now.nanosecond before (seen error.now) }
    {
        match error {
            DeviceError::Over => self,
            DeviceError::Expired => self.ended(),
            DeviceError::Token(RequestTokenError::Request(_)) => self.polled(now).doubled(),
            DeviceError::Memory => self.polled(now),
            _ => self.polled(now).ended(),
        }
    }

    // A poll was due.
    fn polled(self, now: Timestamp) -> Clock
        ensures { polling_of result ≡ steps.polled_at now.nanosecond (polling_of self) }
    {
        Clock {
            last_poll: now,
            ..self
        }
    }

    // The device polls too often.
    fn raised(self) -> Clock
        ensures { let before = polling_of self in
            polling_of result ≡ record before { interval = steps.raised before.interval } }
    {
        Clock {
            interval: self.interval.saturating_add(5),
            ..self
        }
    }

    // The transport failed.
    fn doubled(self) -> Clock
        ensures { let before = polling_of self in
            polling_of result ≡ record before { interval = steps.doubled before.interval } }
    {
        Clock {
            interval: self.interval.saturating_mul(2).max(5),
            ..self
        }
    }

    // The login is over.
    fn ended(self) -> Clock
        ensures { polling_of result ≡ steps.ended (polling_of self) }
    {
        Clock {
            is_over: true,
            ..self
        }
    }
}
