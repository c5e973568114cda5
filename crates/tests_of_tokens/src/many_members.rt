//! Hundreds of thousands of members, by the readers of the claims of an ID token and of user info: each judges them in
//! one pass, and copies the additional ones in another.

use oidc_claims::AllOtherClaims;
use oidc_members::{Members, ParseError, write_object};
use oidc_tokens::{IdTokenClaims, Payload};
use oidc_types::CoreGenderClaim;
use oidc_user_info::UserInfoClaims;
use std::alloc::Global;
use std::process::Abort;

type IdClaims = IdTokenClaims<AllOtherClaims, CoreGenderClaim>;

type InfoClaims = UserInfoClaims<AllOtherClaims, CoreGenderClaim>;

// What an ID token has to have, 300,000 members of this name with a tag each, and what stands behind them.
fn many(rt: &impl Abort, alloc: Global, name: &str, last: &str) -> Members {
    let first = r#"{"iss":"https://e","exp":2000,"iat":900,"sub":"a""#;
    let mut text = String::from_str(alloc, first).expect(rt, "memory");
    for i in 1..300_001u32 {
        let member = format!(in alloc; ",\"{name}#t{i}\":\"x\"").expect(rt, "memory");
        text.push_str(member.as_str()).expect(rt, "memory");
    }
    text.push_str(last).expect(rt, "memory");
    Members::split(alloc, text.as_str().as_bytes()).expect(rt, "an object")
}

// How many tags stand in these claims, written.
fn count_line<P: Payload>(rt: &impl Abort, alloc: Global, claims: &P) -> String {
    let members = claims.write(alloc).expect(rt, "memory");
    let text = write_object(alloc, members.as_slice()).expect(rt, "memory");
    let tags = text.as_slice().iter().filter(|byte| **byte == b'#').count();
    format!(in alloc; "{tags}").expect(rt, "memory")
}

// How many tags stand in the claims of these members, written, or the kind and the field of a refusal.
fn line<P: Payload>(rt: &impl Abort, alloc: Global, members: &Members) -> String {
    match P::read(alloc, members) {
        Ok(claims) => {
            let line = count_line(rt, alloc, &claims);
            drop(claims);
            line
        }
        Err(ParseError::Refused(refusal)) => {
            let (kind, field) = (refusal.kind, &refusal.field);
            format!(in alloc; "{kind:?} {field}").expect(rt, "memory")
        }
        Err(ParseError::Memory) => panic!(rt; "memory"),
    }
}

// What the two readers say of them.
fn lines(rt: &impl Abort, alloc: Global, name: &str, last: &str) -> (String, String) {
    let members = many(rt, alloc, name, last);
    (
        line::<IdClaims>(rt, alloc, &members),
        line::<InfoClaims>(rt, alloc, &members),
    )
}

// OpenID Connect Core 1.0 section 5.2: a claim may stand in any number of languages.
#[test]
fn many_variants_of_a_claim_are_read(rt: HostRuntime) {
    let lines = lines(&rt, rt.alloc(), "name", "}");
    assert_eq!(rt; (lines.0.as_str(), lines.1.as_str()), ("300000", "300000"));
}

#[test]
fn one_of_many_variants_that_comes_twice_is_refused(rt: HostRuntime) {
    let lines = lines(&rt, rt.alloc(), "name", ",\"name#t300000\":\"x\"}");
    let want = "Duplicate name#t300000";
    assert_eq!(rt; (lines.0.as_str(), lines.1.as_str()), (want, want));
}

// Section 5.1.2: other members may be there. Any of them may come twice.
#[test]
fn many_additional_members_are_kept(rt: HostRuntime) {
    let lines = lines(&rt, rt.alloc(), "x", ",\"x#t300000\":\"x\"}");
    assert_eq!(rt; (lines.0.as_str(), lines.1.as_str()), ("300001", "300001"));
}

#[test]
fn a_field_that_comes_twice_is_refused_behind_many_members(rt: HostRuntime) {
    let lines = lines(&rt, rt.alloc(), "x", ",\"iss\":\"https://e\"}");
    assert_eq!(rt;
        (lines.0.as_str(), lines.1.as_str()),
        ("Duplicate iss", "Duplicate iss")
    );
}
