// What a verifier asks of claims, and what a client asks of a token's nonce.

ghost use Rattle.std.specs.Prelude.{◌≡◌, List, ℕ, Bool, Option};
ghost use Rattle.std.specs.Option.{option_copied};

use oidc_claims::{AdditionalClaims, GenderClaim};
use oidc_id_token_claims::IdTokenClaims;
use oidc_types::{Audience, IssuerUrl, Nonce};

/// Claims that may say whom they are for (`aud`, RFC 7519 section 4.1.3).
pub trait AudiencesClaim {
    /// The audiences, where they are said.
    ghost audiences: { Self → Option (List (List ℕ)) };

    /// The audiences, where they are said.
    fn audiences(&self) -> Option<&[Audience]>
        ensures audiences { option_copied result ≡ audiences self.now };
}

/// Claims that may say who issued them (`iss`, RFC 7519 section 4.1.1).
pub trait IssuerClaim {
    ghost use Rattle.oidc_types.specs.{TextAndUrl};

    /// The issuer, where it is said.
    ghost issuer: { Self → Option TextAndUrl };

    /// The issuer, where it is said.
    fn issuer(&self) -> Option<&IssuerUrl>
        ensures issuer { option_copied result ≡ issuer self.now };
}

impl<AC: AdditionalClaims, GC: GenderClaim> AudiencesClaim for IdTokenClaims<AC, GC> {
    ghost use Rattle.std.specs.Prelude.{Some};

    ghost audiences = { λ claims. Some claims.own.audiences };

    fn audiences(&self) -> Option<&[Audience]> {
        Some(IdTokenClaims::audiences(self))
    }
}

impl<AC: AdditionalClaims, GC: GenderClaim> AudiencesClaim for &IdTokenClaims<AC, GC> {
    ghost use Rattle.std.specs.Prelude.{Some};

    ghost audiences = { λ claims. Some claims.now.own.audiences };

    fn audiences(&self) -> Option<&[Audience]> {
        Some(IdTokenClaims::audiences(*self))
    }
}

impl<AC: AdditionalClaims, GC: GenderClaim> IssuerClaim for IdTokenClaims<AC, GC> {
    ghost use Rattle.std.specs.Prelude.{Some};

    ghost issuer = { λ claims. Some claims.own.issuer };

    fn issuer(&self) -> Option<&IssuerUrl> {
        Some(IdTokenClaims::issuer(self))
    }
}

impl<AC: AdditionalClaims, GC: GenderClaim> IssuerClaim for &IdTokenClaims<AC, GC> {
    ghost use Rattle.std.specs.Prelude.{Some};

    ghost issuer = { λ claims. Some claims.now.own.issuer };

    fn issuer(&self) -> Option<&IssuerUrl> {
        Some(IdTokenClaims::issuer(*self))
    }
}

/// What a client asks of a token's nonce (OpenID Connect Core 1.0 section 3.1.3.7).
pub trait NonceVerifier: Drop {
    /// Whether a nonce, or that there is none, is allowed.
    ghost allows: { Self → Option (List ℕ) → Bool };

    /// Whether the nonce of a token, or that it has none, is allowed.
    fn verify(&self, nonce: Option<&Nonce>) -> bool
        ensures allowed { result ≡ allows self.now (option_copied nonce.entry) };
}

/// Allows exactly an equal nonce that is there.
impl NonceVerifier for &Nonce {
    ghost use Rattle.std.specs.Prelude.{false};
    ghost use Rattle.std.specs.Option.{option_map_or};
    ghost use Rattle.std.specs.Str.{bytes_eq};

    ghost allows = { λ expected nonce. option_map_or (λ n. bytes_eq n expected.now) nonce false };

    fn verify(&self, nonce: Option<&Nonce>) -> bool {
        match nonce {
            None => false,
            Some(nonce) => nonce.secret() == self.secret(),
        }
    }
}
