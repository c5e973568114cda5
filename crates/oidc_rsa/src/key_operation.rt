//! What a key may be taken for.

ghost use Rattle.std.specs.Prelude.{◌≡◌};
ghost use Rattle.oidc_rsa.specs.ProviderKey.{is_verify};

/// An operation that a key is for (a value of `key_ops`, RFC 7517 section 4.3).
#[derive(Clone, Copy, Debug, PartialEq, Eq)]
pub enum KeyOperation {
    /// `sign`: it makes signatures and MACs.
    Sign,
    /// `verify`: it checks them.
    Verify,
    /// `encrypt`: it encrypts content.
    Encrypt,
    /// `decrypt`: it decrypts content.
    Decrypt,
    /// `wrapKey`: it encrypts keys.
    WrapKey,
    /// `unwrapKey`: it decrypts keys.
    UnwrapKey,
    /// `deriveKey`: keys are derived from it.
    DeriveKey,
    /// `deriveBits`: bits are derived from it that are no key.
    DeriveBits,
}

impl KeyOperation {
    // Whether it is to check signatures and MACs.
    pub(crate) fn is_verify(self) -> bool
        ensures { result ≡ is_verify self }
    {
        matches!(self, KeyOperation::Verify)
    }
}
