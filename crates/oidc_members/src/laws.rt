//! What holds of readings. The function here says a law in its contract, and does nothing.

ghost use Rattle.std.specs.Prelude.{◌≡◌};
ghost use Rattle.oidc_members.specs.Seen.{strict};

use crate::reading::Reading;

/// `Reading::STRICT` takes no text, neither for a boolean nor for a moment.
pub fn strict_takes_no_text()
    ensures { Reading.STRICT ≡ strict }
{}
