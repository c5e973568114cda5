//! Logins at a provider whose keys are RSA's, by ID tokens of RS256 and of HS256: one store judges both, at the key type of
//! `oidc_rsa`.

use crate::login::verifier;
use crate::logout_keys::{MODULUS, Made, key};
use base64::engine::general_purpose::URL_SAFE_NO_PAD;
use jiff::Timestamp;
use oidc_claims::AllOtherClaims;
use oidc_client::{AuthenticationFlow, Client, ProviderMetadata};
use oidc_keys::{HmacAlgorithm, JsonWebKeySet, hmac};
use oidc_login::{LoginRequest, Logins, MetadataClient};
use oidc_oauth2::{Answer, Body, HttpResponse, Recorded};
use oidc_rsa::ProviderKey;
use oidc_types::{
    ClientId, ClientSecret, CoreGenderClaim, CoreJwsSigningAlgorithm, CsrfToken, Marker, Nonce,
    UrlText,
};
use oidc_user_info::EmptyAdditionalProviderMetadata;
use std::alloc::Global;
use std::process::Abort;

type ProviderClient = MetadataClient<AllOtherClaims, CoreGenderClaim, ProviderKey>;

type ProviderLogins<'c> = Logins<'c, AllOtherClaims, CoreGenderClaim, ProviderKey>;

// What openssl signed by the key of `logout_keys` and RS256: the message of the ID token whose header names RS256.
static ID_SIGNATURE: [u8; 256] = [
    0x8d, 0x45, 0x79, 0x79, 0x3d, 0xfa, 0x31, 0x4b, 0x04, 0x98, 0x45, 0xb5, 0x15, 0x1b, 0x3b, 0x93,
    0xe1, 0x7e, 0x2b, 0x37, 0x7a, 0xd1, 0x8b, 0xf2, 0x04, 0x70, 0xa0, 0x0d, 0x73, 0x9a, 0x9b, 0x9a,
    0xfa, 0xf9, 0xd5, 0x2e, 0xa5, 0x57, 0x69, 0xd9, 0x3a, 0x37, 0x10, 0xea, 0x70, 0x93, 0x4a, 0x86,
    0xa9, 0x26, 0xe4, 0xab, 0xbf, 0x01, 0x3e, 0xf5, 0x91, 0x87, 0x3d, 0xe4, 0x12, 0x54, 0xf8, 0xb6,
    0x55, 0xd6, 0xbc, 0x54, 0x2b, 0xc2, 0x9d, 0xe9, 0x72, 0x12, 0x5a, 0x81, 0x40, 0xba, 0x6a, 0x7a,
    0x70, 0xb0, 0xb1, 0x1a, 0x46, 0xe1, 0xbf, 0x36, 0x4e, 0x38, 0x8e, 0x78, 0xe1, 0x7c, 0x04, 0xc3,
    0x95, 0xf0, 0x49, 0xa8, 0x8c, 0xe3, 0xb4, 0x0d, 0x80, 0x7b, 0x86, 0xe2, 0x7d, 0xeb, 0x9f, 0xf7,
    0x8f, 0x0b, 0x44, 0x71, 0xb6, 0x33, 0xb7, 0x35, 0x36, 0xad, 0xeb, 0xff, 0x1f, 0xc7, 0x10, 0xb3,
    0x0d, 0xa3, 0xc9, 0xa2, 0xc7, 0x13, 0x66, 0xf2, 0xd6, 0x1e, 0xe3, 0x66, 0xda, 0x8c, 0xb5, 0x77,
    0x72, 0x49, 0xa0, 0x46, 0xfe, 0xb0, 0x49, 0xac, 0xf0, 0x47, 0x01, 0xf8, 0x7d, 0x62, 0xb6, 0x24,
    0x6f, 0xf1, 0xd4, 0x17, 0x69, 0xa9, 0xa2, 0xde, 0x29, 0xbe, 0xf5, 0xc7, 0xde, 0xca, 0xf6, 0x9f,
    0x1c, 0x11, 0xaf, 0x2b, 0x09, 0x7d, 0xd1, 0x4f, 0x17, 0x36, 0x60, 0x2b, 0xb5, 0x8f, 0xd2, 0x63,
    0x49, 0x52, 0x81, 0x40, 0x88, 0x42, 0x0b, 0x56, 0xaa, 0xc4, 0x69, 0x88, 0xaa, 0xe9, 0x8a, 0x12,
    0xa9, 0xcb, 0x27, 0x9a, 0x68, 0xea, 0x7b, 0xfc, 0x90, 0x17, 0xd1, 0x15, 0xf8, 0x4c, 0xb2, 0x22,
    0x23, 0x4e, 0x9b, 0x4e, 0x74, 0x7a, 0x13, 0x48, 0xb0, 0xb4, 0x02, 0xfa, 0x09, 0x5d, 0x61, 0x6e,
    0x5a, 0xe3, 0xd6, 0x72, 0x1a, 0xb1, 0x02, 0xa2, 0xf8, 0x31, 0x89, 0x7f, 0x35, 0x3b, 0x92, 0xd1,
];

// The claims of the ID token.
const CLAIMS: &str =
    "{\"iss\":\"https://example\",\"aud\":[\"aaa\"],\"exp\":2000,\"iat\":900,\"nonce\":\"NONCE456\",\"sub\":\"u1\"}";

fn text(rt: &impl Abort, alloc: Global, text: &str) -> String {
    String::from_str(alloc, text).expect(rt, "memory")
}

fn url<M: Marker>(rt: &impl Abort, alloc: Global, address: &str) -> UrlText<M> {
    UrlText::new(alloc, text(rt, alloc, address)).expect(rt, "a URL")
}

fn encoded(rt: &impl Abort, alloc: Global, octets: &[u8]) -> String {
    URL_SAFE_NO_PAD.encode(alloc, octets).expect(rt, "memory")
}

// ---- the client

fn provider(
    rt: &impl Abort,
    alloc: Global,
) -> ProviderMetadata<EmptyAdditionalProviderMetadata, ProviderKey> {
    let algorithms = [
        CoreJwsSigningAlgorithm::RsaSsaPkcs1V15Sha256,
        CoreJwsSigningAlgorithm::HmacSha256,
    ]
    .to_vec(alloc);
    let mut keys = Vec::new(alloc);
    keys.push(key(rt, alloc, Made::PublicKey))
        .expect(rt, "memory");
    ProviderMetadata::new(
        alloc,
        url(rt, alloc, "https://example"),
        url(rt, alloc, "https://example/authorize"),
        url(rt, alloc, "https://example/keys"),
        algorithms.expect(rt, "memory"),
        EmptyAdditionalProviderMetadata {},
    )
    .set_token_endpoint(Some(url(rt, alloc, "https://example/token")))
    .set_jwks(JsonWebKeySet::new(keys))
}

fn client(rt: &impl Abort, alloc: Global) -> ProviderClient {
    let id = ClientId::new(text(rt, alloc, "aaa"));
    let secret = ClientSecret::new(text(rt, alloc, "bbb"));
    Client::from_provider_metadata(provider(rt, alloc), id, Some(secret))
}

fn request<'c>(rt: &impl Abort, alloc: Global, client: &'c ProviderClient) -> LoginRequest<'c> {
    let state = CsrfToken::new(text(rt, alloc, "CSRF123"));
    let nonce = Nonce::new(text(rt, alloc, "NONCE456"));
    let flow = AuthenticationFlow::AuthorizationCode;
    client
        .authorize_url(alloc, flow, move || state, move || nonce)
        .expect(rt, "memory")
}

// ---- what the provider answers

// The message of an ID token whose header names this algorithm.
fn message(rt: &impl Abort, alloc: Global, alg: &str) -> String {
    let header = format!(in alloc; "{{\"alg\":\"{alg}\"}}").expect(rt, "memory");
    let header = encoded(rt, alloc, header.as_bytes());
    let claims = encoded(rt, alloc, CLAIMS.as_bytes());
    format!(in alloc; "{header}.{claims}").expect(rt, "memory")
}

fn tokens(rt: &impl Abort, alloc: Global, message: &str, signature: &[u8]) -> HttpResponse {
    let signature = encoded(rt, alloc, signature);
    let body = format!(in alloc;
        "{{\"access_token\":\"abc\",\"token_type\":\"Bearer\",\"id_token\":\"{message}.{signature}\"}}"
    ).expect(rt, "memory");
    http::Response::new(alloc, Body::new(body.into_bytes()))
}

// A token that openssl signed.
fn by_rsa(rt: &impl Abort, alloc: Global) -> HttpResponse {
    tokens(
        rt,
        alloc,
        message(rt, alloc, "RS256").as_str(),
        &ID_SIGNATURE,
    )
}

// A token with a MAC under these octets.
fn by_mac(rt: &impl Abort, alloc: Global, octets: &[u8]) -> HttpResponse {
    let message = message(rt, alloc, "HS256");
    let mac = hmac(alloc, HmacAlgorithm::Sha256, octets, message.as_bytes()).expect(rt, "memory");
    tokens(rt, alloc, message.as_str(), mac.as_slice())
}

// ---- logins

// What a store says where this answer comes: who signs in, or why nobody does.
fn login<'c>(
    rt: &impl Abort,
    alloc: Global,
    client: &'c ProviderClient,
    logins: &mut ProviderLogins<'c>,
    response: HttpResponse,
) -> String {
    let request = request(rt, alloc, client);
    let _ = logins
        .begin(request, verifier(rt, alloc, 43), None)
        .expect(rt, "a login");
    let mut answers = Vec::new(alloc);
    answers
        .push(Answer::Response(response))
        .expect(rt, "memory");
    let mut http = Recorded::new(alloc, answers);
    let now = Timestamp::from_second(1000).expect(rt, "a moment");
    match logins.callback(b"code=c1&state=CSRF123".as_slice(), &mut http, now) {
        Ok(user) => text(rt, alloc, user.claims().subject().as_str()),
        Err(refusal) => format!(in alloc; "{refusal:?}").expect(rt, "memory"),
    }
}

// What one store says of tokens signed by the provider's key, under the client's secret, and under the octets of that key's
// modulus.
fn logins(rt: &impl Abort, alloc: Global) -> String {
    let client = client(rt, alloc);
    let mut logins = Logins::new(alloc, &client).expect(rt, "a token endpoint");
    let rsa = login(rt, alloc, &client, &mut logins, by_rsa(rt, alloc));
    let mac = login(rt, alloc, &client, &mut logins, by_mac(rt, alloc, b"bbb"));
    let forged = by_mac(rt, alloc, &MODULUS);
    let forged = login(rt, alloc, &client, &mut logins, forged);
    drop(logins);
    drop(client);
    format!(in alloc; "{rsa} {mac} {forged}").expect(rt, "memory")
}

// By an algorithm of a shared secret the client's secret judges, so what is signed under the modulus is no signature.
#[test]
fn one_store_judges_rsa_and_macs(rt: HostRuntime) {
    let expected = "u1 u1 Claims(SignatureVerification(CryptoError))";
    assert_eq!(rt; logins(&rt, rt.alloc()).as_str(), expected);
}
