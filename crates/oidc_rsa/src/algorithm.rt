//! The six signature algorithms.

/// An algorithm of RSA signatures (RFC 7518 sections 3.3 and 3.5).
#[derive(Clone, Copy, Debug, PartialEq, Eq)]
pub enum RsaAlgorithm {
    /// RSASSA-PKCS1-v1_5 with SHA-256.
    Rs256,
    /// RSASSA-PKCS1-v1_5 with SHA-384.
    Rs384,
    /// RSASSA-PKCS1-v1_5 with SHA-512.
    Rs512,
    /// RSASSA-PSS with SHA-256, and MGF1 with the same.
    Ps256,
    /// RSASSA-PSS with SHA-384, and MGF1 with the same.
    Ps384,
    /// RSASSA-PSS with SHA-512, and MGF1 with the same.
    Ps512,
}
