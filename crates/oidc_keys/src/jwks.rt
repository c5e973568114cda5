//! Sets of keys.
ghost use Rattle.std.specs.Prelude.{◌≡◌};

use crate::core_jwk::CoreJsonWebKey;
use std::marker::Model;

/// A set of keys in the order in which they were given (RFC 7517 section 5). Contracts see it as
/// the list of its keys.
#[derive(Drop)]
pub struct JsonWebKeySet<K> {
    keys: Vec<K>,
}

/// A set of the program's own keys.
pub type CoreJsonWebKeySet = JsonWebKeySet<CoreJsonWebKey>;

impl<K> Model for JsonWebKeySet<K> {
    ghost use Rattle.std.specs.Prelude.{List};

    ghost Value = { List K };

    ghost view = { λ set. set.keys.items };
}

impl<K> JsonWebKeySet<K> {
    /// The set of these keys.
    pub fn new(keys: Vec<K>) -> Self
        ensures keys { result ≡ keys.items }
    {
        JsonWebKeySet { keys }
    }

    /// The keys.
    pub fn keys(&self) -> &[K]
        ensures keys { result.now ≡ self.now }
    {
        self.keys.as_slice()
    }
}
