//! Calls of the types of texts that no operation makes: an issuer made of a URL, a response type for an authorization
//! endpoint, and what code that is generic over algorithms knows of them.

use oidc_types::{
    ClosedVocabulary, CoreJweContentEncryptionAlgorithm, CoreJwsSigningAlgorithm, CoreResponseType,
    IssuerUrl, JweContentEncryptionAlgorithm, JwsSigningAlgorithm, ResponseType, Vocabulary,
};
use std::alloc::Global;
use std::process::Abort;

// The text of the issuer that is made of the URL of an issuer of this text.
fn remade(rt: &impl Abort, alloc: Global, text: &str) -> String {
    let text = String::from_str(alloc, text).expect(rt, "memory");
    let url = IssuerUrl::new(alloc, text).expect(rt, "a URL").into_url();
    let issuer = IssuerUrl::from_url(alloc, url).expect(rt, "memory");
    String::from_str(alloc, issuer.as_str()).expect(rt, "memory")
}

// The URL Standard gives a special URL without a path the path `/` (section 4.5).
#[test]
fn issuers_are_made_of_urls(rt: HostRuntime) {
    let text = remade(&rt, rt.alloc(), "http://example.com");
    assert_eq!(rt; text.as_str(), "http://example.com/");
}

// What the authorization endpoint is asked for, for each of these words.
fn for_endpoint(rt: &impl Abort, alloc: Global, words: &str) -> String {
    let mut line = String::new(alloc);
    for word in words.split(' ') {
        let word = String::from_str(alloc, word).expect(rt, "memory");
        let text = CoreResponseType::from_str(word).to_oauth2(alloc);
        line.push_str(text.expect(rt, "memory").as_str())
            .expect(rt, "memory");
        line.push(' ').expect(rt, "memory");
    }
    line
}

// OAuth 2.0 Multiple Response Type Encoding Practices, sections 3 to 5.
#[test]
fn response_types_are_written_for_the_endpoint(rt: HostRuntime) {
    let texts = for_endpoint(&rt, rt.alloc(), "code id_token none token other");
    assert_eq!(rt; texts.as_str(), "code id_token none token other ");
}

/// What generic code knows of an algorithm: the text of its key type, and whether both sides have the key.
fn key_of<A: JwsSigningAlgorithm>(text: &str) -> Option<(&'static str, bool)> {
    let alg = A::from_str(text)?;
    match alg.key_type() {
        Some(kind) => Some((kind.as_ref(), alg.uses_shared_secret())),
        None => Some(("none", alg.uses_shared_secret())),
    }
}

// RFC 7518 section 3.1, RFC 8037 section 3.1
static KEY_TYPES: [(&str, Option<(&str, bool)>); 16] = [
    ("HS256", Some(("oct", true))),
    ("HS384", Some(("oct", true))),
    ("HS512", Some(("oct", true))),
    ("RS256", Some(("RSA", false))),
    ("RS384", Some(("RSA", false))),
    ("RS512", Some(("RSA", false))),
    ("ES256", Some(("EC", false))),
    ("ES384", Some(("EC", false))),
    ("ES512", Some(("EC", false))),
    ("PS256", Some(("RSA", false))),
    ("PS384", Some(("RSA", false))),
    ("PS512", Some(("RSA", false))),
    ("EdDSA", Some(("OKP", false))),
    ("none", Some(("none", false))),
    ("hs256", None),
    ("", None),
];

#[test]
fn signing_algorithms_have_key_types(rt: HostRuntime) {
    for (text, want) in &KEY_TYPES {
        assert!(rt; key_of::<CoreJwsSigningAlgorithm>(text) == *want, "{text}");
    }
}

// OpenID Connect Core 1.0 section 3.1.3.7, RFC 7518 section 5.1
#[test]
fn usual_algorithms(rt: HostRuntime) {
    let encryption = CoreJweContentEncryptionAlgorithm::Aes128Gcm;
    assert_eq!(rt;
        (
            CoreJwsSigningAlgorithm::rsa_sha_256().as_ref(),
            encryption.key_type().as_ref()
        ),
        ("RS256", "oct")
    );
}
