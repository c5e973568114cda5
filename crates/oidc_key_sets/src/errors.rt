//! Why a set of keys is refused.

ghost use Rattle.std.specs.Prelude.{◌≡◌};
ghost use Rattle.oidc_key_sets.specs.Keys.{member_name};

use std::fmt;
use thiserror::Error;

/// A member of a key that is looked at (RFC 7517 section 4, RFC 7518 section 6).
#[derive(Clone, Copy, Debug, PartialEq, Eq)]
pub enum KeyMember {
    /// `kty`: the type of the key.
    Kty,
    /// `use`: what the key is for.
    Use,
    /// `key_ops`: what operations it is for.
    KeyOps,
    /// `alg`: what algorithm it is for.
    Alg,
    /// `kid`: its id.
    Kid,
    /// `n`: the modulus.
    N,
    /// `e`: the exponent.
    E,
    /// `d`: a private exponent, or a private key.
    D,
    /// `p`: the first prime.
    P,
    /// `q`: the second prime.
    Q,
    /// `dp`: the exponent of the first prime.
    Dp,
    /// `dq`: the exponent of the second prime.
    Dq,
    /// `qi`: the coefficient.
    Qi,
    /// `oth`: further primes.
    Oth,
    /// `k`: a secret.
    K,
}

impl KeyMember {
    /// The name of the member.
    pub fn name(self) -> &'static str
        ensures name { result.now ≡ member_name self }
    {
        match self {
            KeyMember::Kty => "kty",
            KeyMember::Use => "use",
            KeyMember::KeyOps => "key_ops",
            KeyMember::Alg => "alg",
            KeyMember::Kid => "kid",
            KeyMember::N => "n",
            KeyMember::E => "e",
            KeyMember::D => "d",
            KeyMember::P => "p",
            KeyMember::Q => "q",
            KeyMember::Dp => "dp",
            KeyMember::Dq => "dq",
            KeyMember::Qi => "qi",
            KeyMember::Oth => "oth",
            KeyMember::K => "k",
        }
    }
}

/// Prints the name.
impl fmt::Display for KeyMember {
    ghost use Rattle.std.specs.Prelude.{Some};
    ghost use Rattle.oidc_key_sets.specs.Keys.{member_name};

    ghost output = { λ member. Some (member_name member) };

    fn fmt<W: fmt::Write>(&self, f: &mut fmt::Formatter<W>) -> fmt::Result {
        f.write_str(self.name())
    }
}

/// Why a key of a set is refused.
#[derive(Clone, Copy, Debug, Error, PartialEq, Eq)]
pub enum KeyError {
    /// The key is no object.
    #[error("no JSON object")]
    NoObject,
    /// A member that must be there isn't: `kty`, or `n` or `e` of a key of RSA.
    #[error("a missing member: {0}")]
    Missing(KeyMember),
    /// A member is no text, or `key_ops` is no array of texts.
    #[error("a value of the wrong type: {0}")]
    WrongType(KeyMember),
    /// A text writes no number: it is empty, or isn't base64url without padding, or a zero stands at the front of
    /// more octets.
    #[error("a text that writes no number: {0}")]
    Number(KeyMember),
    /// The key is a private one: it has this member.
    #[error("a private key: {0}")]
    Private(KeyMember),
    /// The key is a secret of two sides (`oct`).
    #[error("a secret")]
    Symmetric,
}

/// Why the text of a set of keys is refused.
#[derive(Clone, Copy, Debug, Error, PartialEq, Eq)]
pub enum KeySetError {
    /// The text isn't JSON that is nested at most 128 deep.
    #[error("no JSON")]
    NoJson,
    /// Some object in the text has a member name twice.
    #[error("a member that stands twice")]
    DoubledName,
    /// The text is no JSON object.
    #[error("no JSON object")]
    NoObject,
    /// The object has no member `keys`.
    #[error("a missing member: keys")]
    NoKeys,
    /// `keys` is no array.
    #[error("a value of the wrong type: keys")]
    NoArray,
    /// `keys` has more than 256 items.
    #[error("more than 256 keys")]
    TooMany,
    /// The key at that place, counted from 0, is refused, and none before it is.
    #[error("key {place}: {error}")]
    Key {
        /// The place, counted from 0.
        place: usize,
        /// Why it is refused.
        error: KeyError,
    },
    /// There was no memory.
    #[error("out of memory")]
    Memory,
}

/// Why the keys of a set can't check signatures.
#[derive(Clone, Copy, Debug, Error, PartialEq, Eq)]
pub enum SigningKeyError {
    /// The modulus of the key at that place, counted from 0 among those of RSA, isn't allowed.
    #[error("key {0}: a modulus that isn't allowed")]
    Modulus(usize),
    /// The exponent of the key at that place, counted from 0 among those of RSA, isn't allowed.
    #[error("key {0}: an exponent that isn't allowed")]
    Exponent(usize),
    /// There was no memory.
    #[error("out of memory")]
    Memory,
}
