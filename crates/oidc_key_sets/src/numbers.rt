//! Numbers of a key, as texts and as octets (RFC 7518 section 2).

ghost use Rattle.std.specs.Prelude.{◌≡◌, IfOk};
ghost use Rattle.oidc_key_sets.specs.Numbers as spec;

use base64::DecodeAllocError;
use base64::engine::general_purpose::URL_SAFE_NO_PAD;
use std::alloc::{AllocError, Global};
use std::marker::Model;

/// The octets of a number of a key, the highest first. Contracts see their list.
#[derive(Debug, Drop)]
pub struct Octets {
    octets: Vec<u8>,
}

impl Model for Octets {
    ghost use Rattle.std.specs.Prelude.{List, ℕ};
    ghost use Rattle.oidc_key_sets.specs.Numbers.{IsNumber};

    ghost Value = { List ℕ };

    ghost view = { λ o. o.octets.items };

    ghost invariant = { λ o. IsNumber o.octets.items };
}

impl Octets {
    /// The octets.
    pub fn as_slice(&self) -> &[u8]
        ensures octets { result.now ≡ self.now }
        // They are read again of their base64url.
        ensures number { spec.IsNumber self.now }
    {
        self.octets.as_slice()
    }
}

// Whether there are as few octets as their number needs.
fn is_shortest(octets: &[u8]) -> bool
    ensures { result ≡ spec.is_shortest octets.now }
{
    match octets {
        [] => false,
        [_] => true,
        [first, ..] => *first != 0,
    }
}

// The octets of the number that a text writes, where it writes one.
#[tactic(auto, unfolding(crate::specs::Numbers::octets_of, base64::specs::GeneralPurpose::decoded_of))]
pub(crate) fn octets_of(alloc: Global, text: &str) -> Result<Option<Octets>, AllocError>
    ensures { IfOk result (λ found. found ≡ spec.octets_of text.now) }
{
    match URL_SAFE_NO_PAD.decode(alloc, text.as_bytes()) {
        Ok(octets) => {
            if is_shortest(octets.as_slice()) {
                Ok(Some(Octets { octets }))
            } else {
                Ok(None)
            }
        }
        Err(DecodeAllocError::DecodeError(_)) => Ok(None),
        Err(DecodeAllocError::OutOfMemory) => Err(AllocError),
    }
}
