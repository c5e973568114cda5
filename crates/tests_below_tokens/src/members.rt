//! Texts of hundreds of thousands of members, bytes that are no text, values beside what `serde_json` reads of the same
//! text, and members whose values are floats, which no text that is read has.

use oidc_members::{MemberName, Members, OutMember, ParseError, ParseKind, write_object};
use serde_json::Value;
use std::alloc::Global;
use std::process::Abort;

// A text: a part, another so many times, and a last one.
type Parts = (&'static [u8], &'static [u8], usize, &'static [u8]);

fn text_of(rt: &impl Abort, alloc: Global, parts: &Parts) -> Vec<u8> {
    let (first, repeated, times, last) = *parts;
    let mut text = first.to_vec(alloc).expect(rt, "memory");
    for _ in 0..times {
        text.extend_from_slice(repeated).expect(rt, "memory");
    }
    text.extend_from_slice(last).expect(rt, "memory");
    text
}

// How many members the text has, or what it is refused as.
fn count_of(rt: &impl Abort, alloc: Global, text: &[u8]) -> Result<usize, ParseKind> {
    match Members::split(alloc, text) {
        Ok(members) => Ok(members.len()),
        Err(ParseError::Refused(refusal)) => Err(refusal.kind),
        Err(ParseError::Memory) => panic!(rt; "memory"),
    }
}

// Bytes that are no text, and texts of megabytes, each of which is read in one pass.
static TEXTS: [(Parts, Result<usize, ParseKind>); 7] = [
    ((b"{\"\xff\":1}", b"", 0, b""), Err(ParseKind::Syntax)),
    ((b"{\"a\":\xff}", b"", 0, b""), Err(ParseKind::Syntax)),
    ((b"{\"a\"\xff1}", b"", 0, b""), Err(ParseKind::Syntax)),
    (
        (b"{", b"\"name\":[\"\\\\\",{}],", 300_000, b"\"last\":1}"),
        Ok(300_001),
    ),
    (
        (
            b"{\"a\":[[[[[[[[[[[[[[[[[[[[[[[[[[[[[[[[[[[[[[[[[[[[[[[[[[[[[[[[[[[[[[[[[[[[[[[[[[[[[[[[[[[[[[[[[[[[[[[[[[[[",
            b"{\"a\":[\"\\\"]\",7]} ,",
            300_000,
            b"0]]]]]]]]]]]]]]]]]]]]]]]]]]]]]]]]]]]]]]]]]]]]]]]]]]]]]]]]]]]]]]]]]]]]]]]]]]]]]]]]]]]]]]]]]]]]]]]]]]]]}",
        ),
        Ok(1),
    ),
    ((b"", b"{\"\\\\\"", 1_000_000, b""), Err(ParseKind::Syntax)),
    ((b"{\"a\":1", b" ", 1_000_000, b"}"), Ok(1)),
];

#[test]
fn large_texts_take_linear_time(rt: HostRuntime) {
    for (parts, want) in &TEXTS {
        let text = text_of(&rt, rt.alloc(), parts);
        assert_eq!(rt; count_of(&rt, rt.alloc(), text.as_slice()), *want);
    }
}

// Scalars that are known at sight, and values that look like them.
static VALUES: [&str; 31] = [
    "\"\"",
    "\"a\"",
    "\"\u{e9}\u{20ac}\u{1f600}\"",
    "\"a/b c\u{7f}\"",
    "\"\\\"\"",
    "\"\\\\\"",
    "\"\\/\"",
    "\"\\u0041\\n\"",
    "\"\\ud83d\\ude00\"",
    "\"0123456789abcdef0123456789abcdef0123456789abcdef0123456789abcdef\"",
    "0",
    "1",
    "9",
    "10",
    "1311281970",
    "4294967296",
    "9007199254740993",
    "9223372036854775807",
    "9223372036854775808",
    "18446744073709551615",
    "-1",
    "-9223372036854775808",
    "true",
    "false",
    "null",
    "[]",
    "{}",
    "[\"a\",1,true,null]",
    "[[\"true\"]]",
    "{\"a\":\"null\",\"b\":0}",
    "[ 1 , {} ]",
];

// The text of an object that has this value, with white space around it.
fn object_text(rt: &impl Abort, alloc: Global, value: &str) -> Vec<u8> {
    let mut text = b"{ \"a\" : ".to_vec(alloc).expect(rt, "memory");
    text.extend_from_slice(value.as_bytes())
        .expect(rt, "memory");
    text.extend_from_slice(b"\n}").expect(rt, "memory");
    text
}

// Whether the member's value is the one that `serde_json` reads of the text alone.
fn reads_alike(rt: &impl Abort, alloc: Global, value: &str) -> bool {
    let whole = Value::from_slice(alloc, value.as_bytes()).expect(rt, "a value");
    let text = object_text(rt, alloc, value);
    let members = Members::split(alloc, text.as_slice()).expect(rt, "members");
    match members.as_slice() {
        [member] => *member.value() == whole,
        _ => false,
    }
}

#[test]
fn values_are_what_serde_json_reads(rt: HostRuntime) {
    for value in &VALUES {
        assert!(rt; reads_alike(&rt, rt.alloc(), value));
    }
}

fn member(rt: &impl Abort, alloc: Global, name: &str, value: &str) -> OutMember {
    OutMember {
        name: MemberName::new(String::from_str(alloc, name).expect(rt, "memory")),
        value: Value::from_str(alloc, value).expect(rt, "a value"),
    }
}

// The text of members with these names, and with the values that these texts read as.
fn written(rt: &impl Abort, alloc: Global, members: &[(&str, &str)]) -> Vec<u8> {
    let mut list = Vec::new(alloc);
    for (name, value) in members {
        list.push(member(rt, alloc, name, value))
            .expect(rt, "memory");
    }
    write_object(alloc, list.as_slice()).expect(rt, "memory")
}

// Of a float's digits no clause speaks: as Python's `json.dumps` with `separators=(',', ':')` writes them.
#[test]
fn floats_are_written(rt: HostRuntime) {
    let text = written(&rt, rt.alloc(), &[("a", "1.5"), ("b", "[-0.25]")]);
    assert_eq!(rt; text.as_slice(), b"{\"a\":1.5,\"b\":[-0.25]}".as_slice());
}
