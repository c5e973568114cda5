//! Nonces, states and verifiers that are drawn from a generator.

use oidc_oauth2::{PkceCodeChallenge, PkceError};
use oidc_types::{CsrfToken, Nonce, PkceCodeVerifier};
use rand_core::Rng;
use rand_pcg::Pcg32;
use std::alloc::Global;
use std::process::Abort;

/// What is drawn: of the usual number of bytes, or of so many.
#[derive(Clone, Copy, Debug)]
enum Draw {
    Nonce,
    State,
    StateOf(u32),
    Verifier,
    VerifierOf(u32),
}

// A verifier, its challenge and the method, or the refusal.
fn pair_line(
    rt: &impl Abort,
    alloc: Global,
    pair: &Result<(PkceCodeChallenge, PkceCodeVerifier), PkceError>,
) -> String {
    match pair {
        Ok((challenge, verifier)) => {
            let text = challenge.as_str();
            let method = challenge.method();
            format!(in alloc; "{} {text} {method}", verifier.secret()).expect(rt, "memory")
        }
        Err(error) => format!(in alloc; "{error:?}").expect(rt, "memory"),
    }
}

fn drawn(rt: &impl Abort, alloc: Global, rng: &mut Pcg32, draw: Draw) -> String {
    match draw {
        Draw::Nonce => Nonce::new_random(alloc, rng)
            .expect(rt, "memory")
            .into_string(),
        Draw::State => CsrfToken::new_random(alloc, rng)
            .expect(rt, "memory")
            .into_string(),
        Draw::StateOf(bytes) => CsrfToken::new_random_len(alloc, rng, bytes)
            .expect(rt, "memory")
            .into_string(),
        Draw::Verifier => {
            let pair = PkceCodeChallenge::new_random_sha256(alloc, rng).expect(rt, "memory");
            pair_line(rt, alloc, &Ok(pair))
        }
        Draw::VerifierOf(bytes) => {
            let pair = PkceCodeChallenge::new_random_sha256_len(alloc, rng, bytes);
            pair_line(rt, alloc, &pair)
        }
    }
}

// What is drawn, and the generator's next word.
fn drawn_line(rt: &impl Abort, alloc: Global, draw: Draw) -> String {
    let mut rng = Pcg32::new(42, 54);
    let text = drawn(rt, alloc, &mut rng, draw);
    format!(in alloc; "{text} {}", rng.next_u32()).expect(rt, "memory")
}

// Python's PCG32 at the state 42 and the stream 54, whose words begin 0xa15c02b7, 0x7b47f409 and 0xba1d3330, as PCG's
// C demo prints them: `base64.urlsafe_b64encode` of the low bytes of its words, for a verifier the same of
// `hashlib.sha256` of that text, and the word behind them.
static DRAWN: [(Draw, &str); 13] = [
    (Draw::Nonce, "twkwk0turW1akP75Jh3Xiw 2721289578"),
    (Draw::State, "twkwk0turW1akP75Jh3Xiw 2721289578"),
    (Draw::StateOf(0), " 2707161783"),
    (Draw::StateOf(1), "tw 2068313097"),
    (Draw::StateOf(5), "twkwk0s 3421331566"),
    (Draw::StateOf(20), "twkwk0turW1akP75Jh3Xi2rjkgY 2441179440"),
    (
        Draw::Verifier,
        "twkwk0turW1akP75Jh3Xi2rjkgYwF5GZu0X2hKQt1U8 bR-lgLaWbFmgahAAmFTsmF4ZA8YUON1zm0vnWgT0tBA S256 1838127612",
    ),
    (Draw::VerifierOf(0), "Length 2707161783"),
    (Draw::VerifierOf(31), "Length 2707161783"),
    (
        Draw::VerifierOf(32),
        "twkwk0turW1akP75Jh3Xi2rjkgYwF5GZu0X2hKQt1U8 bR-lgLaWbFmgahAAmFTsmF4ZA8YUON1zm0vnWgT0tBA S256 1838127612",
    ),
    (
        Draw::VerifierOf(96),
        "twkwk0turW1akP75Jh3Xi2rjkgYwF5GZu0X2hKQt1U_8CcbT8Lc-sjdqlFaH4wOL4ZHyqNosX3N2mpSgvvMkUnTiZDZKBzKMzzhUu8n6Eftecz-cSt6LRLwefmgOrTDK n8Geyd72IarBOd5ny1SOWE1fgzz-IvZi0VfSwTXBIek S256 2117479073",
    ),
    (Draw::VerifierOf(97), "Length 2707161783"),
    (Draw::VerifierOf(u32::MAX), "Length 2707161783"),
];

#[test]
fn random_texts_are_the_bytes_of_the_generator(rt: HostRuntime) {
    for (draw, want) in &DRAWN {
        assert_eq!(rt; drawn_line(&rt, rt.alloc(), *draw).as_str(), *want);
    }
}
