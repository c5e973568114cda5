//! The script, as `run` takes it.
ghost use Rattle.std.specs.Prelude.{◌≡◌, ◌+◌, ◌≤◌, ℕ, List, length, IsErrOf, IfOk};
ghost use Rattle.std.specs.Io.KnownBytes.{IsAtEnd};
ghost use Rattle.oidc_cli.specs.Calls.{HasRisen};
ghost use Rattle.oidc_cli.specs.Sources.{Takes};
ghost use Rattle.oidc_cli.specs.Script.{limit};

use crate::{Failed, Source};
use std::alloc::{AllocError, Global};

/// The most bytes that a script may have.
pub const LIMIT: usize = 67_108_864;

/// The most bytes that are taken of a source at a time.
pub const PIECE: usize = 8_192;

/// Why there is no script.
#[derive(Clone, Copy, Debug, PartialEq, Eq)]
pub enum ReadError {
    /// The source failed.
    Source,
    /// There was no memory.
    Memory,
}

impl From<Failed> for ReadError {
    ghost use Rattle.std.specs.Prelude.{◌≡◌};
    ghost use Rattle.oidc_cli.specs.declared.reading.ReadError.TheVariants.{Source};

    ghost from_gives = { λ _ e. e ≡ Source };

    fn from(_failed: Failed) -> ReadError {
        ReadError::Source
    }
}

impl From<AllocError> for ReadError {
    ghost use Rattle.std.specs.Prelude.{◌≡◌};
    ghost use Rattle.oidc_cli.specs.declared.reading.ReadError.TheVariants.{Memory};

    ghost from_gives = { λ _ e. e ≡ Memory };

    fn from(_refused: AllocError) -> ReadError {
        ReadError::Memory
    }
}

/// Reads a source to its end, or until one byte more than `LIMIT` is held.
pub fn read_script<S: Source>(alloc: Global, source: &mut S) -> Result<Vec<u8>, ReadError>
    ensures script { IfOk result
        (λ script. Takes (S.remaining source.old) (S.remaining source.new) script.items) }
    ensures ended { IfOk result
        (λ script. length script.items ≤ limit → IsAtEnd (S.remaining source.new)) }

    // What was taken, whatever came of it.
    ensures bounded { (read : List ℕ) × Takes (S.remaining source.old) (S.remaining source.new) read
        × (length read ≤ limit + 1) }

    ensures blamed { IsErrOf result ReadError.Source
        → HasRisen (S.faults source.old) (S.faults source.new) }
    ensures counts { S.faults source.old ≤ S.faults source.new }
{
    let mut script = Vec::new(alloc);
    let mut piece = [0u8; PIECE];
    while script.len() <= LIMIT {
        let room = PIECE.min(LIMIT + 1 - script.len());
        let count = source.take(&mut piece[..room])?;
        if count == 0 {
            return Ok(script);
        }
        script.extend_from_slice(&piece[..count])?;
    }
    Ok(script)
}
