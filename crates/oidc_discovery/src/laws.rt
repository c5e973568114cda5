//! What holds of the clients of documents. The functions here say each a law in its contract, and do nothing else.

ghost use Rattle.oidc_discovery.specs.Judging.{SecretAndKeysApart};
ghost use Rattle.oidc_discovery.specs.Pinned.{AllowsPinnedAlone};

use oidc_rsa::laws::no_algorithm_confusion;

/// Whatever a document lists, a client that is made of its metadata allows ID tokens by the pinned algorithm
/// alone: no document widens by what a site takes them.
pub fn pinned_alone()
    ensures alone { AllowsPinnedAlone }
{}

/// The client's secret and the provider's keys are not taken for one another (RFC 8725 section 2.1). By an algorithm of a
/// shared secret a verifier accepts the MAC under the client's own secret alone, whatever keys the provider has: none
/// under the octets of a modulus. By any other it accepts a signature of RSA alone, under the one key of the provider
/// that fits the token's header.
pub fn secret_and_keys_apart()
    ensures { SecretAndKeysApart }
{
    no_algorithm_confusion();
}
