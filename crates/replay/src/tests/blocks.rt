//! A report that is longer than a block, put block by block: what waits is put when it has 65,536 bytes or more behind the
//! lines of an event, and with the report's last line. What a sink holds that fails is the blocks before the one that failed.

use crate::tests::program::{CLIENT, are_lines, push_all, sink_of, status_of};
use oidc_cli::{DONE, MemorySource, SCRIPT_FAULT, SINK_FAULT};
use std::alloc::Global;
use std::process::Abort;

// The begin lines, each up to its nonce: three states, and one verifier.
static BEGINS: [&str; 3] = [
    "op=begin&state=CSRF123&verifier=dBjftJeZ4CVP-mB92K27uhbUJU1p1r_wW1gFWFOEjXk&nonce=",
    "op=begin&state=CSRF124&verifier=dBjftJeZ4CVP-mB92K27uhbUJU1p1r_wW1gFWFOEjXk&nonce=",
    "op=begin&state=CSRF125&verifier=dBjftJeZ4CVP-mB92K27uhbUJU1p1r_wW1gFWFOEjXk&nonce=",
];

// Their lines of the report, each up to its nonce: 187 bytes. The challenge is that of RFC 7636, appendix B.
static BEGUN: [&str; 3] = [
    "begin ok https://example/authorize?response_type=code&client_id=aaa&state=CSRF123&code_challenge=E9Melhoa2OwvFrEMTJguCHaoeK1t8URWbuGJSstw-cM&code_challenge_method=S256&scope=openid&nonce=",
    "begin ok https://example/authorize?response_type=code&client_id=aaa&state=CSRF124&code_challenge=E9Melhoa2OwvFrEMTJguCHaoeK1t8URWbuGJSstw-cM&code_challenge_method=S256&scope=openid&nonce=",
    "begin ok https://example/authorize?response_type=code&client_id=aaa&state=CSRF125&code_challenge=E9Melhoa2OwvFrEMTJguCHaoeK1t8URWbuGJSstw-cM&code_challenge_method=S256&scope=openid&nonce=",
];

// A first line, one line for each of these with a nonce of so many letters, and an end.
fn lines_of(
    rt: &impl Abort,
    alloc: Global,
    first: &str,
    fronts: &[&str; 3],
    length: usize,
    end: &str,
) -> Vec<u8> {
    let nonce = vec![in alloc; b'a'; length].expect(rt, "memory");
    let mut bytes = Vec::new(alloc);
    push_all(rt, &mut bytes, &[first]);
    for front in fronts {
        push_all(rt, &mut bytes, &[front]);
        bytes
            .extend_from_slice(nonce.as_slice())
            .expect(rt, "memory");
        push_all(rt, &mut bytes, &["\n"]);
    }
    push_all(rt, &mut bytes, &[end]);
    bytes
}

// The letters of each nonce; the end of the script, and that of its report; the call of the sink that fails, or 0, and the
// sink's room.
type Long = (usize, &'static str, &'static str, u64, usize);

const PENDING: &str = "pending 3\n";

const FAULT: &str = "script fault line 5\n";

// What is run, and what is wanted: the status, and how many of the report's lines were written.
static BLOCKS: [(Long, u8, usize); 24] = [
    // The client's line and the first begin's are a block of 65,536 bytes, the second begin's is shorter by ten and waits for
    // the third's, and the last line is put alone.
    ((65_338, "", PENDING, 0, 262_144), DONE, 5),
    ((65_338, "", PENDING, 1, 262_144), SINK_FAULT, 0),
    ((65_338, "", PENDING, 2, 262_144), SINK_FAULT, 2),
    ((65_338, "", PENDING, 3, 262_144), SINK_FAULT, 4),
    ((65_338, "", PENDING, 4, 262_144), DONE, 5),
    // Rooms that end before each block's last byte, and at it. The report has 196,598 bytes.
    ((65_338, "", PENDING, 0, 65_535), SINK_FAULT, 0),
    ((65_338, "", PENDING, 0, 65_536), SINK_FAULT, 2),
    ((65_338, "", PENDING, 0, 131_062), SINK_FAULT, 2),
    ((65_338, "", PENDING, 0, 196_587), SINK_FAULT, 2),
    ((65_338, "", PENDING, 0, 196_588), SINK_FAULT, 4),
    ((65_338, "", PENDING, 0, 196_597), SINK_FAULT, 4),
    ((65_338, "", PENDING, 0, 196_598), DONE, 5),
    // One byte less, and the first two wait for the third; the fourth waits for the last.
    ((65_337, "", PENDING, 1, 262_144), SINK_FAULT, 0),
    ((65_337, "", PENDING, 2, 262_144), SINK_FAULT, 3),
    ((65_337, "", PENDING, 3, 262_144), DONE, 5),
    // Each begin's line is a block by itself.
    ((65_348, "", PENDING, 2, 262_144), SINK_FAULT, 2),
    ((65_348, "", PENDING, 3, 262_144), SINK_FAULT, 3),
    ((65_348, "", PENDING, 4, 262_144), SINK_FAULT, 4),
    ((65_348, "", PENDING, 5, 262_144), DONE, 5),
    // A line that is no event ends the script: its line is put behind what waits.
    ((65_338, "x\n", FAULT, 0, 262_144), SCRIPT_FAULT, 5),
    ((65_338, "x\n", FAULT, 2, 262_144), SINK_FAULT, 2),
    ((65_338, "x\n", FAULT, 3, 262_144), SINK_FAULT, 4),
    ((65_337, "x\n", FAULT, 2, 262_144), SINK_FAULT, 3),
    ((65_337, "x\n", FAULT, 0, 262_144), SCRIPT_FAULT, 5),
];

// The status of a script, and whether what was written is so many of its report's lines.
fn ran(rt: &impl Abort, alloc: Global, long: &Long, lines: usize) -> (u8, bool) {
    let (length, end, report_end, sink_fails, room) = *long;
    let script = lines_of(rt, alloc, CLIENT, &BEGINS, length, end);
    let report = lines_of(rt, alloc, "client ok\n", &BEGUN, length, report_end);
    let text = str::from_utf8(report.as_slice()).unwrap_or("no text");
    let mut source = MemorySource::new(script, Vec::new(alloc));
    let mut sink = sink_of(rt, alloc, room, sink_fails);
    let status = status_of(rt, alloc, ",replay", &mut source, &mut sink);
    (status, are_lines(sink.bytes(), text, lines))
}

#[test]
fn reports_are_put_in_blocks(rt: HostRuntime) {
    for (long, status, lines) in &BLOCKS {
        assert_eq!(rt;
            ran(&rt, rt.alloc(), long, *lines),
            (*status, true),
            "{} {} {}",
            long.0,
            long.3,
            long.4
        );
    }
}
