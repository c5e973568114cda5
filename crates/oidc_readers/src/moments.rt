//! Moments as numbers of seconds.

ghost use Rattle.std.specs.Prelude.{◌≡◌, option_map};
ghost use Rattle.serde_json.specs.View.{view};
ghost use Rattle.oidc_readers.specs.Moments.{moment_at, seconds_data};

use jiff::Timestamp;
use serde_json::Value;
use std::marker::Model;

/// A moment that was read. Contracts see it as nanoseconds since the Unix epoch.
#[derive(Drop)]
pub struct Moment {
    timestamp: Timestamp,
}

impl Model for Moment {
    ghost use Rattle.std.specs.Prelude.{ℤ};

    ghost Value = { ℤ };

    ghost view = { λ m. m.timestamp.nanosecond };
}

impl Moment {
    /// The moment so many seconds after the Unix epoch, where it is in range.
    pub fn at(second: i64) -> Option<Moment>
        ensures moment { result ≡ moment_at second }
    {
        match Timestamp::from_second(second) {
            Ok(timestamp) => Some(Moment { timestamp }),
            Err(_) => None,
        }
    }

    // The moment of that timestamp.
    pub(crate) fn of(timestamp: Timestamp) -> Moment
        ensures { result ≡ timestamp.nanosecond }
    {
        Moment { timestamp }
    }

    /// The moment.
    pub fn timestamp(&self) -> Timestamp
        ensures same { result.nanosecond ≡ self.now }
    {
        self.timestamp
    }
}

/// The moment that was read, where there is one.
pub fn timestamp_of(moment: Option<Moment>) -> Option<Timestamp>
    ensures same { option_map (λ t. t.nanosecond) result ≡ moment }
{
    match moment {
        None => None,
        Some(moment) => Some(moment.timestamp()),
    }
}

/// The number of whole seconds, rounded down, that a moment is written as.
///
/// `as_second` rounds toward zero, so a moment before 1970 would be a second late.
pub fn seconds_value(moment: Timestamp) -> Value
    ensures seconds { view result ≡ seconds_data moment.nanosecond }
{
    Value::from(moment.as_nanosecond().div_euclid(1_000_000_000) as i64)
}
