//! Standard claims with fractions of a second, in very many languages, and with a gender of the test's own.

use crate::disclosure::Disclosure;
use jiff::Timestamp;
use oidc_claims::{GenderClaim, PlacedError, StandardClaims, read_standard, write_standard};
use oidc_members::{Members, write_object};
use oidc_readers::seconds_value;
use std::alloc::Global;
use std::process::Abort;

// A copy of the claims, written.
fn written_copy<GC: GenderClaim>(
    rt: &impl Abort,
    alloc: Global,
    claims: &StandardClaims<GC>,
) -> String {
    let copy = claims.clone_in(alloc).expect(rt, "memory");
    let members = write_standard(alloc, &copy).expect(rt, "memory");
    let text = write_object(alloc, members.as_slice()).expect(rt, "memory");
    String::from_utf8(text).expect(rt, "a text")
}

fn members_in(rt: &impl Abort, alloc: Global, text: &str) -> Members {
    Members::split(alloc, text.as_bytes()).expect(rt, "an object")
}

// The claims of an object, copied and written, or the place, the kind and the field of a refusal.
fn standard_line<GC: GenderClaim>(rt: &impl Abort, alloc: Global, members: &Members) -> String {
    match read_standard::<GC>(alloc, members) {
        Ok(claims) => written_copy(rt, alloc, &claims),
        Err(PlacedError::Refused { place, refusal }) => {
            let (kind, field) = (refusal.kind, &refusal.field);
            format!(in alloc; "{place} {kind:?} {field}").expect(rt, "memory")
        }
        Err(PlacedError::Memory) => panic!(rt; "memory"),
    }
}

// ---- moments with fractions of a second

fn seconds_text(rt: &impl Abort, alloc: Global, nanosecond: i128) -> String {
    let moment = Timestamp::from_nanosecond(nanosecond).expect(rt, "a moment");
    seconds_value(moment).to_string(alloc).expect(rt, "memory")
}

// Nanoseconds, and what is written of that moment.
static MOMENTS: [(i128, &str); 5] = [
    (-1, "-1"),
    (-1_500_000_000, "-2"),
    (-1_000_000_000, "-1"),
    (0, "0"),
    (1_999_999_999, "1"),
];

#[test]
fn seconds_are_rounded_down(rt: HostRuntime) {
    for (nanosecond, want) in &MOMENTS {
        assert_eq!(rt; seconds_text(&rt, rt.alloc(), *nanosecond).as_str(), *want);
    }
}

// ---- very many variants

// 300,000 variants of a name, and what stands behind them.
fn many(rt: &impl Abort, alloc: Global, last: &str) -> Members {
    let mut text = String::from_str(alloc, r#"{"sub":"a""#).expect(rt, "memory");
    for i in 1..300_001u32 {
        let variant = format!(in alloc; ",\"name#t{i}\":\"x\"").expect(rt, "memory");
        text.push_str(variant.as_str()).expect(rt, "memory");
    }
    text.push_str(last).expect(rt, "memory");
    members_in(rt, alloc, text.as_str())
}

// How many tags stand in the claims of these members, copied and written.
fn count_of_tags(rt: &impl Abort, alloc: Global, members: &Members) -> usize {
    let text = standard_line::<Disclosure>(rt, alloc, members);
    text.as_str()
        .as_bytes()
        .iter()
        .filter(|byte| **byte == b'#')
        .count()
}

#[test]
fn many_variants_are_read_copied_and_written(rt: HostRuntime) {
    let members = many(&rt, rt.alloc(), "}");
    assert_eq!(rt; count_of_tags(&rt, rt.alloc(), &members), 300_000);
}

#[test]
fn one_of_many_variants_that_comes_twice_is_refused(rt: HostRuntime) {
    let members = many(&rt, rt.alloc(), ",\"name#t300000\":\"x\"}");
    let line = standard_line::<Disclosure>(&rt, rt.alloc(), &members);
    assert_eq!(rt; line.as_str(), "300001 Duplicate name#t300000");
}

// ---- a gender of the test's own

static GENDERS: [(&str, &str); 4] = [
    (
        r#"{"gender":true,"sub":"a"}"#,
        r#"{"sub":"a","gender":true}"#,
    ),
    (
        r#"{"gender#":false,"sub":"a"}"#,
        r#"{"sub":"a","gender":false}"#,
    ),
    (r#"{"sub":"a","gender":null}"#, r#"{"sub":"a"}"#),
    (
        r#"{"sub":"a","gender":"female"}"#,
        "1 Additional disclosure",
    ),
];

#[test]
fn a_caller_may_bring_a_gender_of_its_own(rt: HostRuntime) {
    for (text, want) in &GENDERS {
        let members = members_in(&rt, rt.alloc(), text);
        let line = standard_line::<Disclosure>(&rt, rt.alloc(), &members);
        assert_eq!(rt; line.as_str(), *want, "{text}");
    }
}
