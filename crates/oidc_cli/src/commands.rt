//! The words of a command line.
ghost use Rattle.std.specs.Prelude.{◌≡◌, ◌==◌, [], ◌∷◌, map, slice_index};
ghost use Rattle.std.specs.String.{string_bytes};
ghost use Rattle.oidc_cli.specs.Commands as spec;

use crate::script::values::begins_with_plus;

/// What a command line asks for.
#[derive(Clone, Copy, Debug, PartialEq, Eq)]
pub enum Command {
    /// To run a script and report it.
    Replay,
    /// To run a drill of this number of logins: from 1 to 4,096, where words ask for it.
    Drill(u16),
}

/// What the words ask for: `replay` alone, or `drill` and a decimal from 1 to 4,096 without sign and without
/// leading zero.
pub fn command_of(words: &[String]) -> Option<Command>
    ensures { result ≡ spec.command_of (map string_bytes words.now) }
{
    match words {
        [word] => one_word(word.as_str()),
        [word, count] => two_words(word.as_str(), count.as_str()),
        _ => None,
    }
}

fn one_word(word: &str) -> Option<Command>
    ensures { result ≡ spec.command_of (word.now ∷ []) }
{
    if word == "replay" {
        Some(Command::Replay)
    } else {
        None
    }
}

fn two_words(word: &str, count: &str) -> Option<Command>
    ensures { result ≡ spec.command_of (word.now ∷ count.now ∷ []) }
{
    if word != "drill" {
        return None;
    }
    match drill_count(count) {
        Some(count) => Some(Command::Drill(count)),
        None => None,
    }
}

// How many logins a word asks for.
fn drill_count(word: &str) -> Option<u16>
    ensures { result ≡ spec.drill_count word.now }
{
    if begins_with_zero(word) {
        return None;
    }
    if begins_with_plus(word) {
        return None;
    }
    match word.parse::<u16>() {
        Ok(count) => in_drill(count),
        Err(_) => None,
    }
}

fn begins_with_zero(word: &str) -> bool
    ensures { result ≡ (slice_index word.now 0 == 48) }
{
    word.as_bytes().first() == Some(&b'0')
}

fn in_drill(count: u16) -> Option<u16>
    ensures { result ≡ spec.in_drill count }
{
    if count >= 1 && count <= 4096 {
        Some(count)
    } else {
        None
    }
}
