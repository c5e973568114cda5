//! The algorithms and key types of JSON Web Algorithms, RFC 7518 and RFC 8037.

use crate::algorithms::{
    JweContentEncryptionAlgorithm, JweKeyManagementAlgorithm, JwsSigningAlgorithm,
};
use crate::vocabulary::{ClosedVocabulary, text_of_word, word_of_text};

/// Types of keys (RFC 7518 section 6.1, RFC 8037 section 2).
#[derive(Clone, Copy, Debug, PartialEq, Eq, Hash)]
pub enum CoreJsonWebKeyType {
    /// A key on an elliptic curve.
    EllipticCurve,
    /// A pair of keys that are octets, as those of Edwards curves.
    OctetKeyPair,
    /// An RSA key.
    RSA,
    /// A secret that both sides have.
    Symmetric,
}

macro_rules! key_types {
    ($then:ident, $($value:expr),+) => {
        $then!([$($value),+], CoreJsonWebKeyType, EllipticCurve = "EC", OctetKeyPair = "OKP", RSA = "RSA", Symmetric = "oct")
    };
}

impl ClosedVocabulary for CoreJsonWebKeyType {
    ghost use Rattle.oidc_types.specs.CoreAlgorithms.{key_type_text, key_types};
    ghost use Rattle.oidc_types.specs.Vocabulary.{find_word};

    ghost as_ref = { key_type_text };

    ghost from_str = { find_word key_type_text key_types };

    fn from_str(text: &str) -> Option<CoreJsonWebKeyType> {
        key_types!(word_of_text, text)
    }

    fn as_ref(&self) -> &'static str {
        key_types!(text_of_word, self)
    }
}

/// Algorithms that sign (RFC 7518 section 3.1, RFC 8037 section 3.1).
#[derive(Clone, Copy, Debug, PartialEq, Eq, Hash)]
pub enum CoreJwsSigningAlgorithm {
    /// HMAC with SHA-256.
    HmacSha256,
    /// HMAC with SHA-384.
    HmacSha384,
    /// HMAC with SHA-512.
    HmacSha512,
    /// RSASSA-PKCS1-v1_5 with SHA-256.
    RsaSsaPkcs1V15Sha256,
    /// RSASSA-PKCS1-v1_5 with SHA-384.
    RsaSsaPkcs1V15Sha384,
    /// RSASSA-PKCS1-v1_5 with SHA-512.
    RsaSsaPkcs1V15Sha512,
    /// ECDSA on P-256 with SHA-256.
    EcdsaP256Sha256,
    /// ECDSA on P-384 with SHA-384.
    EcdsaP384Sha384,
    /// ECDSA on P-521 with SHA-512.
    EcdsaP521Sha512,
    /// RSASSA-PSS with SHA-256.
    RsaSsaPssSha256,
    /// RSASSA-PSS with SHA-384.
    RsaSsaPssSha384,
    /// RSASSA-PSS with SHA-512.
    RsaSsaPssSha512,
    /// EdDSA.
    EdDsa,
    /// No signature.
    None,
}

macro_rules! signing_algorithms {
    ($then:ident, $($value:expr),+) => {
        $then!(
            [$($value),+],
            CoreJwsSigningAlgorithm,
            HmacSha256 = "HS256",
            HmacSha384 = "HS384",
            HmacSha512 = "HS512",
            RsaSsaPkcs1V15Sha256 = "RS256",
            RsaSsaPkcs1V15Sha384 = "RS384",
            RsaSsaPkcs1V15Sha512 = "RS512",
            EcdsaP256Sha256 = "ES256",
            EcdsaP384Sha384 = "ES384",
            EcdsaP521Sha512 = "ES512",
            RsaSsaPssSha256 = "PS256",
            RsaSsaPssSha384 = "PS384",
            RsaSsaPssSha512 = "PS512",
            EdDsa = "EdDSA",
            None = "none"
        )
    };
}

impl ClosedVocabulary for CoreJwsSigningAlgorithm {
    ghost use Rattle.oidc_types.specs.CoreAlgorithms.{signing_text, signing_algorithms};
    ghost use Rattle.oidc_types.specs.Vocabulary.{find_word};

    ghost as_ref = { signing_text };

    ghost from_str = { find_word signing_text signing_algorithms };

    fn from_str(text: &str) -> Option<CoreJwsSigningAlgorithm> {
        signing_algorithms!(word_of_text, text)
    }

    fn as_ref(&self) -> &'static str {
        signing_algorithms!(text_of_word, self)
    }
}

impl JwsSigningAlgorithm for CoreJwsSigningAlgorithm {
    type KeyType = CoreJsonWebKeyType;

    ghost use Rattle.oidc_types.specs.CoreAlgorithms.{signing_key_type, signs_with_secret};
    ghost use Rattle.oidc_types.specs.declared.core_algorithms.CoreJwsSigningAlgorithm.TheVariants.{RsaSsaPkcs1V15Sha256};

    ghost key_type = { signing_key_type };

    ghost uses_shared_secret = { signs_with_secret };

    ghost rsa_sha_256 = { RsaSsaPkcs1V15Sha256 };

    fn key_type(&self) -> Option<CoreJsonWebKeyType> {
        match self {
            Self::HmacSha256 | Self::HmacSha384 | Self::HmacSha512 => Some(
                CoreJsonWebKeyType::Symmetric,
            ),
            Self::RsaSsaPkcs1V15Sha256
            | Self::RsaSsaPkcs1V15Sha384
            | Self::RsaSsaPkcs1V15Sha512
            | Self::RsaSsaPssSha256
            | Self::RsaSsaPssSha384
            | Self::RsaSsaPssSha512 => Some(CoreJsonWebKeyType::RSA),
            Self::EcdsaP256Sha256 | Self::EcdsaP384Sha384 | Self::EcdsaP521Sha512 => Some(
                CoreJsonWebKeyType::EllipticCurve,
            ),
            Self::EdDsa => Some(CoreJsonWebKeyType::OctetKeyPair),
            Self::None => None,
        }
    }

    fn uses_shared_secret(&self) -> bool {
        matches!(self, Self::HmacSha256 | Self::HmacSha384 | Self::HmacSha512)
    }

    fn rsa_sha_256() -> CoreJwsSigningAlgorithm {
        CoreJwsSigningAlgorithm::RsaSsaPkcs1V15Sha256
    }
}

/// Algorithms that encrypt content (RFC 7518 section 5.1).
#[derive(Clone, Copy, Debug, PartialEq, Eq, Hash)]
pub enum CoreJweContentEncryptionAlgorithm {
    /// AES-128 in CBC mode with HMAC of SHA-256.
    Aes128CbcHmacSha256,
    /// AES-192 in CBC mode with HMAC of SHA-384.
    Aes192CbcHmacSha384,
    /// AES-256 in CBC mode with HMAC of SHA-512.
    Aes256CbcHmacSha512,
    /// AES-128 in GCM.
    Aes128Gcm,
    /// AES-192 in GCM.
    Aes192Gcm,
    /// AES-256 in GCM.
    Aes256Gcm,
}

macro_rules! encryption_algorithms {
    ($then:ident, $($value:expr),+) => {
        $then!(
            [$($value),+],
            CoreJweContentEncryptionAlgorithm,
            Aes128CbcHmacSha256 = "A128CBC-HS256",
            Aes192CbcHmacSha384 = "A192CBC-HS384",
            Aes256CbcHmacSha512 = "A256CBC-HS512",
            Aes128Gcm = "A128GCM",
            Aes192Gcm = "A192GCM",
            Aes256Gcm = "A256GCM"
        )
    };
}

impl ClosedVocabulary for CoreJweContentEncryptionAlgorithm {
    ghost use Rattle.oidc_types.specs.CoreAlgorithms.{encryption_text, encryption_algorithms};
    ghost use Rattle.oidc_types.specs.Vocabulary.{find_word};

    ghost as_ref = { encryption_text };

    ghost from_str = { find_word encryption_text encryption_algorithms };

    fn from_str(text: &str) -> Option<CoreJweContentEncryptionAlgorithm> {
        encryption_algorithms!(word_of_text, text)
    }

    fn as_ref(&self) -> &'static str {
        encryption_algorithms!(text_of_word, self)
    }
}

impl JweContentEncryptionAlgorithm for CoreJweContentEncryptionAlgorithm {
    type KeyType = CoreJsonWebKeyType;

    ghost use Rattle.oidc_types.specs.declared.core_algorithms.CoreJsonWebKeyType.TheVariants.{Symmetric};

    ghost key_type = { λ _. Symmetric };

    fn key_type(&self) -> CoreJsonWebKeyType {
        CoreJsonWebKeyType::Symmetric
    }
}

/// Algorithms that encrypt or agree on a key (RFC 7518 section 4.1).
#[derive(Clone, Copy, Debug, PartialEq, Eq, Hash)]
pub enum CoreJweKeyManagementAlgorithm {
    /// RSAES-PKCS1-v1_5.
    RsaPkcs1V15,
    /// RSAES OAEP with SHA-1.
    RsaOaep,
    /// RSAES OAEP with SHA-256.
    RsaOaepSha256,
    /// AES-128 key wrap.
    AesKeyWrap128,
    /// AES-192 key wrap.
    AesKeyWrap192,
    /// AES-256 key wrap.
    AesKeyWrap256,
    /// The shared key itself.
    Direct,
    /// ECDH-ES.
    EcdhEs,
    /// ECDH-ES and AES-128 key wrap.
    EcdhEsAesKeyWrap128,
    /// ECDH-ES and AES-192 key wrap.
    EcdhEsAesKeyWrap192,
    /// ECDH-ES and AES-256 key wrap.
    EcdhEsAesKeyWrap256,
    /// AES-128 in GCM.
    Aes128Gcm,
    /// AES-192 in GCM.
    Aes192Gcm,
    /// AES-256 in GCM.
    Aes256Gcm,
    /// PBES2 with HMAC of SHA-256 and AES-128 key wrap.
    PbEs2HmacSha256AesKeyWrap128,
    /// PBES2 with HMAC of SHA-384 and AES-192 key wrap.
    PbEs2HmacSha384AesKeyWrap192,
    /// PBES2 with HMAC of SHA-512 and AES-256 key wrap.
    PbEs2HmacSha512AesKeyWrap256,
}

macro_rules! management_algorithms {
    ($then:ident, $($value:expr),+) => {
        $then!(
            [$($value),+],
            CoreJweKeyManagementAlgorithm,
            RsaPkcs1V15 = "RSA1_5",
            RsaOaep = "RSA-OAEP",
            RsaOaepSha256 = "RSA-OAEP-256",
            AesKeyWrap128 = "A128KW",
            AesKeyWrap192 = "A192KW",
            AesKeyWrap256 = "A256KW",
            Direct = "dir",
            EcdhEs = "ECDH-ES",
            EcdhEsAesKeyWrap128 = "ECDH-ES+A128KW",
            EcdhEsAesKeyWrap192 = "ECDH-ES+A192KW",
            EcdhEsAesKeyWrap256 = "ECDH-ES+A256KW",
            Aes128Gcm = "A128GCMKW",
            Aes192Gcm = "A192GCMKW",
            Aes256Gcm = "A256GCMKW",
            PbEs2HmacSha256AesKeyWrap128 = "PBES2-HS256+A128KW",
            PbEs2HmacSha384AesKeyWrap192 = "PBES2-HS384+A192KW",
            PbEs2HmacSha512AesKeyWrap256 = "PBES2-HS512+A256KW"
        )
    };
}

impl ClosedVocabulary for CoreJweKeyManagementAlgorithm {
    ghost use Rattle.oidc_types.specs.CoreAlgorithms.{management_text, management_algorithms};
    ghost use Rattle.oidc_types.specs.Vocabulary.{find_word};

    ghost as_ref = { management_text };

    ghost from_str = { find_word management_text management_algorithms };

    fn from_str(text: &str) -> Option<CoreJweKeyManagementAlgorithm> {
        management_algorithms!(word_of_text, text)
    }

    fn as_ref(&self) -> &'static str {
        management_algorithms!(text_of_word, self)
    }
}

impl JweKeyManagementAlgorithm for CoreJweKeyManagementAlgorithm {}
