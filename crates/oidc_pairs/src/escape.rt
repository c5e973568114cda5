//! Names and values as a form writes them.
ghost use Rattle.std.specs.Prelude.{◌≡◌, ◌++◌, ◌∷◌, ◌+◌, ◌≤◌, [], length, take, IfOk, OnOk, OnErr, MatchOption};
ghost use Rattle.std.specs.String.{string_bytes};
ghost use Rattle.form_urlencoded.specs.Form.{serialize_byte, byte_serialize};
ghost use Rattle.percent_encoding.specs.Percent.{percent_encode_byte};
ghost use Rattle.oidc_pairs.specs.Form.{escaped};

use percent_encoding::{ascii_str, percent_encode_byte};
use std::alloc::{AllocError, Global};

// How many bytes are escaped at once, and the room for them.
const PIECE: usize = 40;

const ROOM: usize = 120;

// The byte that a form writes for each byte: for one that is escaped the percent sign, which is written for no other.
static WRITTEN: [u8; 256] = *b"\
    %%%%%%%%%%%%%%%%%%%%%%%%%%%%%%%%\
    +%%%%%%%%%*%%-.%0123456789%%%%%%\
    %ABCDEFGHIJKLMNOPQRSTUVWXYZ%%%%_\
    %abcdefghijklmnopqrstuvwxyz%%%%%\
    %%%%%%%%%%%%%%%%%%%%%%%%%%%%%%%%\
    %%%%%%%%%%%%%%%%%%%%%%%%%%%%%%%%\
    %%%%%%%%%%%%%%%%%%%%%%%%%%%%%%%%\
    %%%%%%%%%%%%%%%%%%%%%%%%%%%%%%%%";

// What a form makes of a byte, by its entry: it is escaped where that is the percent sign.
fn written_for(byte: u8) -> Option<u8>
    ensures { MatchOption result (percent_encode_byte byte ≡ serialize_byte byte)
        (λ written. written ∷ [] ≡ serialize_byte byte) }
{
    let written = WRITTEN[byte as usize];
    if written == b'%' { None } else { Some(written) }
}

// Writes what a form makes of a byte at a place, and says where it ends.
fn put(room: &mut [u8; ROOM], at: usize, byte: u8) -> usize
    requires { at + 3 ≤ 120 }
    ensures end { result ≤ at + 3 }
    ensures bytes { take result room.new ≡ take at room.old ++ serialize_byte byte }
{
    if let Some(written) = written_for(byte) {
        room[at] = written;
        return at + 1;
    }
    room[at..at + 3].copy_from_slice(percent_encode_byte(byte).as_bytes());
    at + 3
}

// Adds what a form makes of a few bytes.
fn push_piece(text: &mut String, piece: &[u8]) -> Result<(), AllocError>
    requires { length piece.now ≤ 40 }
    ensures ok { OnOk result (string_bytes text.new ≡ string_bytes text.old ++ escaped piece.now) }
    ensures err { OnErr result (string_bytes text.new ≡ string_bytes text.old) }
{
    let mut room = [0u8; ROOM];
    let mut used = 0;
    for byte in piece {
        used = put(&mut room, used, *byte);
    }
    text.push_str(ascii_str(&room[..used]))
}

// The first bytes of a text that are escaped at once, and those behind them.
fn first_piece(bytes: &[u8]) -> (&[u8], &[u8])
    ensures whole { bytes.now ≡ result.0.now ++ result.1.now }
    ensures short { length result.0.now ≤ 40 }
    ensures shorter { 1 ≤ length bytes.now → length result.1.now + 1 ≤ length bytes.now }
{
    if bytes.len() <= PIECE {
        (bytes, &[])
    } else {
        bytes.split_at(PIECE)
    }
}

// Adds bytes as a form writes a name or a value. After an error some of them may have been added.
pub(crate) fn push_bytes(text: &mut String, bytes: &[u8]) -> Result<(), AllocError>
    ensures ok { OnOk result (string_bytes text.new ≡ string_bytes text.old ++ escaped bytes.now) }
    ensures begun { take (length (string_bytes text.old)) (string_bytes text.new)
        ≡ string_bytes text.old }
{
    let mut rest = bytes;
    while !rest.is_empty() {
        let (piece, later) = first_piece(rest);
        push_piece(text, piece)?;
        rest = later;
    }
    Ok(())
}

/// Adds bytes as a form writes a name or a value. After an error some of them may have been added.
pub fn push_escaped(text: &mut String, bytes: &[u8]) -> Result<(), AllocError>
    ensures { OnOk result (string_bytes text.new ≡ string_bytes text.old ++ escaped bytes.now) }
{
    push_bytes(text, bytes)
}

/// One text as a form writes a name or a value (URL Standard, section 5.2).
pub fn escaped_text(alloc: Global, text: &str) -> Result<String, AllocError>
    ensures { IfOk result (λ written. string_bytes written ≡ escaped text.now) }
{
    let mut written = String::new(alloc);
    push_escaped(&mut written, text.as_bytes())?;
    Ok(written)
}
