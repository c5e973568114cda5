//! What holds of keys as a whole. The function here says a law in its contract, and does nothing.

ghost use Rattle.oidc_rsa.specs.Confusion.{NoAlgorithmConfusion};

/// Keys are not taken for one another. What a [`ProviderKey`](crate::ProviderKey) accepts by an algorithm of a shared
/// secret is the MAC under its own secret, and by any other a signature of RSA under its own modulus and exponent: a
/// public key refuses whatever is said to be a MAC, as one under the octets of its modulus. The key of a client's secret
/// says what the symmetric key of these octets says.
pub fn no_algorithm_confusion()
    ensures { NoAlgorithmConfusion }
{}
