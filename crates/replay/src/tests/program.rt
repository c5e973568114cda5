//! Tests of the program that no line of text can say: words, objects that fail at one call, bytes that are no text,
//! scripts, addresses, queries and answers at their limits, and one login's lines among those of others.
//!
//! The first script is that of the stored run: one login with user info, from its client to its callback. Its token was
//! signed by Python's `hmac`, and the challenges of the other verifiers were made by its `hashlib`; its report was fixed
//! before the program was written.
ghost use Rattle.std.specs.Prelude.{Option};

use crate::exit_status;
use oidc_cli::{
    DONE, Failed, MemorySink, MemorySource, ReadSource, SCRIPT_FAULT, SINK_FAULT, SOURCE_FAULT,
    Sink, Source, WRONG_WORDS, WriteSink,
};
use std::alloc::Global;
use std::env::Args;
use std::io;
use std::io::{ErrorKind, Read, Write};
use std::process::Abort;

const SCRIPT: &str =
    "op=client&id=aaa&secret=bbb&issuer=https://example&auth=https://example/authorize&token=https://example/token&userinfo=https://example/userinfo&algs=HS256&redirect=http://localhost:8888/\nop=begin&state=CSRF123&nonce=NONCE456&verifier=dBjftJeZ4CVP-mB92K27uhbUJU1p1r_wW1gFWFOEjXk&userinfo=json\nop=callback&now=1000&query=code%3Dc1%26state%3DCSRF123&token_status=200&token_type=application/json&token_body=%7B%22access_token%22%3A%22abc%22%2C%22token_type%22%3A%22Bearer%22%2C%22expires_in%22%3A3600%2C%22refresh_token%22%3A%22r1%22%2C%22scope%22%3A%22openid%22%2C%22id_token%22%3A%22eyJhbGciOiJIUzI1NiJ9.eyJpc3MiOiJodHRwczovL2V4YW1wbGUiLCJhdWQiOlsiYWFhIl0sImV4cCI6MjAwMCwiaWF0Ijo5MDAsIm5vbmNlIjoiTk9OQ0U0NTYiLCJhdF9oYXNoIjoidW5nV3Y0OEJ6LXBCUVVEZVhhNGlJdyIsInN1YiI6InUxIiwibmFtZSI6IkFkYSIsImVtYWlsIjoiYWRhQGV4YW1wbGUuY29tIiwiZW1haWxfdmVyaWZpZWQiOnRydWV9.Yrpaufv0gMkMz1fgrlMMSpVvupIxCxato17_alYbBmE%22%7D&info_status=200&info_type=application/json&info_body=%7B%22sub%22%3A%22u1%22%2C%22name%22%3A%22Ada+Lovelace%22%2C%22tfa_method%22%3A%22u2f%22%7D\n";

const REPORT: &str =
    "client ok\nbegin ok https://example/authorize?response_type=code&client_id=aaa&state=CSRF123&code_challenge=E9Melhoa2OwvFrEMTJguCHaoeK1t8URWbuGJSstw-cM&code_challenge_method=S256&redirect_uri=http%3A%2F%2Flocalhost%3A8888%2F&scope=openid&nonce=NONCE456\nrequest method=POST&address=https%3A%2F%2Fexample%2Ftoken&accept=application%2Fjson&content_type=application%2Fx-www-form-urlencoded&authorization=Basic+YWFhOmJiYg%3D%3D&body=grant_type%3Dauthorization_code%26code%3Dc1%26code_verifier%3DdBjftJeZ4CVP-mB92K27uhbUJU1p1r_wW1gFWFOEjXk%26redirect_uri%3Dhttp%253A%252F%252Flocalhost%253A8888%252F\nrequest method=GET&address=https%3A%2F%2Fexample%2Fuserinfo&accept=application%2Fjson&authorization=Bearer+abc\ncallback ok access_token=abc&refresh_token=r1&claims=%7B%22iss%22%3A%22https%3A%2F%2Fexample%22%2C%22aud%22%3A%5B%22aaa%22%5D%2C%22exp%22%3A2000%2C%22iat%22%3A900%2C%22nonce%22%3A%22NONCE456%22%2C%22at_hash%22%3A%22ungWv48Bz-pBQUDeXa4iIw%22%2C%22sub%22%3A%22u1%22%2C%22name%22%3A%22Ada%22%2C%22email%22%3A%22ada%40example.com%22%2C%22email_verified%22%3Atrue%7D&user_info=%7B%22sub%22%3A%22u1%22%2C%22name%22%3A%22Ada+Lovelace%22%2C%22tfa_method%22%3A%22u2f%22%7D\npending 0\n";

// ---- words and failures

// The arguments of a text that has a comma between them. The first is the name of the program, which is no word.
fn arguments_of(rt: &impl Abort, alloc: Global, text: &str) -> Args {
    let mut arguments = Vec::new(alloc);
    for argument in text.split(',') {
        let argument = String::from_str(alloc, argument).expect(rt, "memory");
        arguments.push(argument).expect(rt, "memory");
    }
    arguments.into_iter()
}

// The numbers of the calls that fail: this one, or none for 0.
fn failing_calls(rt: &impl Abort, alloc: Global, call: u64) -> Vec<u64> {
    let mut calls = Vec::new(alloc);
    if call > 0 {
        calls.push(call).expect(rt, "memory");
    }
    calls
}

/// A sink with this room that fails at this call, or at none for 0.
pub(crate) fn sink_of(rt: &impl Abort, alloc: Global, room: usize, fails: u64) -> MemorySink {
    MemorySink::new(alloc, room, failing_calls(rt, alloc, fails)).expect(rt, "memory")
}

/// The status of these arguments over a source and a sink.
pub(crate) fn status_of<S: Source>(
    rt: &impl Abort,
    alloc: Global,
    arguments: &str,
    source: &mut S,
    sink: &mut MemorySink,
) -> u8 {
    exit_status(alloc, Ok(arguments_of(rt, alloc, arguments)), source, sink)
}

// Whether a source still gives as many bytes as it had.
fn is_unread(rt: &impl Abort, alloc: Global, source: &mut MemorySource, length: usize) -> bool {
    let mut left = vec![in alloc; 0u8; length].expect(rt, "memory");
    source.take(left.as_mut_slice()) == Ok(length)
}

// The arguments, the calls of the source and of the sink that fail, and the sink's room.
type Call = (&'static str, u64, u64, usize);

// The status of arguments over the first script, whether nothing was read, and what was written.
fn ran(rt: &impl Abort, alloc: Global, call: &Call) -> (u8, bool, MemorySink) {
    let (arguments, source_fails, sink_fails, room) = *call;
    let script = SCRIPT.as_bytes().to_vec(alloc).expect(rt, "memory");
    let mut source = MemorySource::new(script, failing_calls(rt, alloc, source_fails));
    let mut sink = sink_of(rt, alloc, room, sink_fails);
    let status = status_of(rt, alloc, arguments, &mut source, &mut sink);
    let unread = is_unread(rt, alloc, &mut source, SCRIPT.len());
    (status, unread, sink)
}

const DRILL: &str = "drill 3 begun=3 signed=3 repeated=3 sent=3 pending=0\n";

const LARGEST: &str = "drill 4096 begun=4096 signed=4096 repeated=4096 sent=4096 pending=0\n";

// What is called, and what is wanted: the status, whether nothing was read, and how many lines were written, which are
// the first ones of this text.
static CALLS: [(Call, u8, bool, usize, &str); 42] = [
    ((",replay", 0, 0, 65_536), DONE, false, 6, REPORT),
    (("drill,replay", 0, 0, 65_536), DONE, false, 6, REPORT),
    // A source that fails at its first call, and at the one that would give its end. There is no third.
    ((",replay", 1, 0, 65_536), SOURCE_FAULT, true, 0, ""),
    ((",replay", 2, 0, 65_536), SOURCE_FAULT, false, 0, ""),
    ((",replay", 3, 0, 65_536), DONE, false, 6, REPORT),
    // The report is shorter than a block: it is one call of the sink. There is no second.
    ((",replay", 0, 1, 65_536), SINK_FAULT, false, 0, ""),
    ((",replay", 0, 2, 65_536), DONE, false, 6, REPORT),
    // A room that ends in the first line, at the end of the second, in the third, and one byte before the report's 1,178.
    ((",replay", 0, 0, 0), SINK_FAULT, false, 0, ""),
    ((",replay", 0, 0, 5), SINK_FAULT, false, 0, ""),
    ((",replay", 0, 0, 252), SINK_FAULT, false, 0, ""),
    ((",replay", 0, 0, 400), SINK_FAULT, false, 0, ""),
    ((",replay", 0, 0, 1_177), SINK_FAULT, false, 0, ""),
    ((",replay", 0, 0, 1_178), DONE, false, 6, REPORT),
    // A drill reads nothing, and its line is one call of the sink.
    ((",drill,3", 0, 0, 65_536), DONE, true, 1, DRILL),
    (
        (",drill,1", 0, 0, 65_536),
        DONE,
        true,
        1,
        "drill 1 begun=1 signed=1 repeated=1 sent=1 pending=0\n",
    ),
    ((",drill,4096", 0, 0, 65_536), DONE, true, 1, LARGEST),
    ((",drill,3", 0, 1, 65_536), SINK_FAULT, true, 0, ""),
    ((",drill,3", 0, 0, 10), SINK_FAULT, true, 0, ""),
    // Wrong words: nothing is read, and nothing is written.
    (("", 0, 0, 65_536), WRONG_WORDS, true, 0, ""),
    ((",", 0, 0, 65_536), WRONG_WORDS, true, 0, ""),
    ((",Replay", 0, 0, 65_536), WRONG_WORDS, true, 0, ""),
    ((",drill", 0, 0, 65_536), WRONG_WORDS, true, 0, ""),
    ((",--help", 0, 0, 65_536), WRONG_WORDS, true, 0, ""),
    ((",--version", 0, 0, 65_536), WRONG_WORDS, true, 0, ""),
    ((",replay ", 0, 0, 65_536), WRONG_WORDS, true, 0, ""),
    ((",replay,replay", 0, 0, 65_536), WRONG_WORDS, true, 0, ""),
    ((",replay,x", 0, 0, 65_536), WRONG_WORDS, true, 0, ""),
    ((",x,replay", 0, 0, 65_536), WRONG_WORDS, true, 0, ""),
    ((",drill,", 0, 0, 65_536), WRONG_WORDS, true, 0, ""),
    ((",drill,0", 0, 0, 65_536), WRONG_WORDS, true, 0, ""),
    ((",drill,03", 0, 0, 65_536), WRONG_WORDS, true, 0, ""),
    ((",drill,+3", 0, 0, 65_536), WRONG_WORDS, true, 0, ""),
    ((",drill,-3", 0, 0, 65_536), WRONG_WORDS, true, 0, ""),
    ((",drill, 3", 0, 0, 65_536), WRONG_WORDS, true, 0, ""),
    ((",drill,3 ", 0, 0, 65_536), WRONG_WORDS, true, 0, ""),
    ((",drill,3x", 0, 0, 65_536), WRONG_WORDS, true, 0, ""),
    ((",drill,4097", 0, 0, 65_536), WRONG_WORDS, true, 0, ""),
    ((",drill,65539", 0, 0, 65_536), WRONG_WORDS, true, 0, ""),
    (
        (",drill,18446744073709551619", 0, 0, 65_536),
        WRONG_WORDS,
        true,
        0,
        "",
    ),
    ((",Drill,3", 0, 0, 65_536), WRONG_WORDS, true, 0, ""),
    ((",3,drill", 0, 0, 65_536), WRONG_WORDS, true, 0, ""),
    ((",drill,3,3", 0, 0, 65_536), WRONG_WORDS, true, 0, ""),
];

/// Whether the bytes are the first lines of a text, so many.
pub(crate) fn are_lines(bytes: &[u8], text: &str, count: usize) -> bool {
    let ends = bytes.iter().filter(|b| **b == b'\n').count();
    text.as_bytes().starts_with(bytes) && ends == count
}

#[test]
fn words_and_failures(rt: HostRuntime) {
    for (call, status, unread, lines, text) in &CALLS {
        let ran = ran(&rt, rt.alloc(), call);
        let is_written = are_lines(ran.2.bytes(), text, *lines);
        assert_eq!(rt;
            (ran.0, ran.1, is_written),
            (*status, *unread, true),
            "{}",
            call.0
        );
    }
}

// ---- readers and writers that fail

// A reader that gives one byte, and then fails, and then ends.
#[derive(Drop)]
struct Failing {
    calls: u8,
}

impl Read for Failing {
    fn read(&mut self, buf: &mut [u8]) -> io::Result<usize> {
        self.calls = self.calls.saturating_add(1);
        if self.calls == 2 {
            return Err(io::Error::from(ErrorKind::Other));
        }
        if self.calls == 1 && !buf.is_empty() {
            buf[0] = b'x';
            return Ok(1);
        }
        Ok(0)
    }
}

// A writer that takes two bytes at a time, and then none.
#[derive(Drop)]
struct Short {
    calls: u8,
}

impl Write for Short {
    fn write(&mut self, buf: &[u8]) -> io::Result<usize> {
        self.calls = self.calls.saturating_add(1);
        if self.calls > 2 {
            return Ok(0);
        }
        Ok(buf.len().min(2))
    }

    fn flush(&mut self) -> io::Result<()> {
        Ok(())
    }
}

// What so many calls took, three bytes at most each: the bytes and `.`, or `!` for a fault.
fn taken<S: Source>(rt: &impl Abort, alloc: Global, source: &mut S, calls: usize) -> Vec<u8> {
    let mut text = Vec::new(alloc);
    let mut buf = [0u8; 3];
    for _ in 0..calls {
        match source.take(&mut buf) {
            Ok(count) => {
                text.extend_from_slice(&buf[..count]).expect(rt, "memory");
                text.push(b'.').expect(rt, "memory");
            }
            Err(Failed) => text.push(b'!').expect(rt, "memory"),
        }
    }
    text
}

#[test]
fn readers_may_fail_once(rt: HostRuntime) {
    let mut source = ReadSource::new(Failing { calls: 0 });
    let taken = taken(&rt, rt.alloc(), &mut source, 3);
    assert_eq!(rt; taken.as_slice(), b"x.!.".as_slice());
}

// What became of the calls that put these pieces: `.`, or `!` for a fault.
fn put<O: Sink>(rt: &impl Abort, alloc: Global, sink: &mut O, pieces: &[&str]) -> Vec<u8> {
    let mut text = Vec::new(alloc);
    for piece in pieces {
        let mark = match sink.put(piece.as_bytes()) {
            Ok(()) => b'.',
            Err(Failed) => b'!',
        };
        text.push(mark).expect(rt, "memory");
    }
    text
}

#[test]
fn writers_may_take_some_bytes_and_then_none(rt: HostRuntime) {
    let mut sink = WriteSink::new(Short { calls: 0 });
    let put = put(&rt, rt.alloc(), &mut sink, &["abc", "d", ""]);
    assert_eq!(rt; put.as_slice(), b".!.".as_slice());
}

// The status of the first script, read from these bytes by a reader over memory, and the sink.
fn read_from(rt: &impl Abort, alloc: Global, script: &[u8]) -> (u8, MemorySink) {
    let mut source = ReadSource::new(script);
    let mut sink = sink_of(rt, alloc, 65_536, 0);
    let status = status_of(rt, alloc, ",replay", &mut source, &mut sink);
    (status, sink)
}

#[test]
fn a_script_may_come_from_a_reader_over_memory(rt: HostRuntime) {
    let ran = read_from(&rt, rt.alloc(), SCRIPT.as_bytes());
    assert_eq!(rt; (ran.0, ran.1.bytes()), (DONE, REPORT.as_bytes()));
}

// The status of the first script, and what a writer over memory holds of its report.
fn written_to(rt: &impl Abort, alloc: Global) -> (u8, Vec<u8>) {
    let script = SCRIPT.as_bytes().to_vec(alloc).expect(rt, "memory");
    let mut source = MemorySource::new(script, Vec::new(alloc));
    let mut written = Vec::new(alloc);
    let mut sink = WriteSink::new(&mut written);
    let arguments = arguments_of(rt, alloc, ",replay");
    let status = exit_status(alloc, Ok(arguments), &mut source, &mut sink);
    (status, written)
}

#[test]
fn a_report_may_go_to_a_writer_over_memory(rt: HostRuntime) {
    let ran = written_to(&rt, rt.alloc());
    assert_eq!(rt; (ran.0, ran.1.as_slice()), (DONE, REPORT.as_bytes()));
}

// ---- scripts of any bytes, and at their limits

// The status of a script, and its report.
fn reported<S: Source>(rt: &impl Abort, alloc: Global, source: &mut S) -> (u8, MemorySink) {
    let mut sink = sink_of(rt, alloc, 2_097_152, 0);
    let status = status_of(rt, alloc, ",replay", source, &mut sink);
    (status, sink)
}

// The status of a script, and its report.
fn reply_to(rt: &impl Abort, alloc: Global, script: &[u8]) -> String {
    let script = script.to_vec(alloc).expect(rt, "memory");
    let mut source = MemorySource::new(script, Vec::new(alloc));
    let (status, sink) = reported(rt, alloc, &mut source);
    let report = str::from_utf8(sink.bytes()).unwrap_or("no text");
    format!(in alloc; "{status} {report}").expect(rt, "memory")
}

// Scripts of any bytes, and what is wanted. In the last a broken escape, and a byte that isn't UTF-8, are values: the
// first stays, and the second is read as U+FFFD; its last line has no line feed.
static ODD: [(&[u8], &str); 2] = [
    (b"\xFF\xFE\x00", "3 script fault line 1\n"),
    (
        b"%6Fp=client&id=%zz&secret=\xFF&issuer=https://example&auth=https://example/a&token=https://example/t&algs=\nop=begin&state=%FF&nonce=%&verifier=0123456789012345678901234567890123456789012",
        "0 client ok\nbegin ok https://example/a?response_type=code&client_id=%25zz&state=%EF%BF%BD&code_challenge=_RpfHqw8pAZIomzVUE7sjRmHSM543WVdC4o-Kc4_3C0&code_challenge_method=S256&scope=openid&nonce=%25\npending 1\n",
    ),
];

#[test]
fn odd_bytes(rt: HostRuntime) {
    for (script, want) in &ODD {
        assert_eq!(rt; reply_to(&rt, rt.alloc(), script).as_str(), *want);
    }
}

// A source that gives line feeds without end, and counts them.
#[derive(Drop)]
struct LineFeeds {
    given: usize,
}

impl Source for LineFeeds {
    ghost remaining = { λ _. Option.None };

    ghost faults = { λ _. 0 };

    fn take(&mut self, buf: &mut [u8]) -> Result<usize, Failed> {
        buf.fill(b'\n');
        self.given = self.given.saturating_add(buf.len());
        Ok(buf.len())
    }
}

// One byte more than a script may have is taken, and no more.
#[test]
fn a_script_without_end_is_too_long(rt: HostRuntime) {
    let mut source = LineFeeds { given: 0 };
    let reported = reported(&rt, rt.alloc(), &mut source);
    assert_eq!(rt;
        (reported.0, reported.1.bytes(), source.given),
        (
            SCRIPT_FAULT,
            b"script fault line 0\n".as_slice(),
            67_108_865
        )
    );
}

// The first parts of a script, this byte so many times, and the rest.
type Pieces = (&'static [&'static str], u8, usize, &'static [&'static str]);

/// Puts these parts behind the bytes.
pub(crate) fn push_all(rt: &impl Abort, bytes: &mut Vec<u8>, parts: &[&str]) {
    for part in parts {
        bytes
            .extend_from_slice(part.as_bytes())
            .expect(rt, "memory");
    }
}

fn source_of(rt: &impl Abort, alloc: Global, script: &Pieces) -> MemorySource {
    let (parts, byte, count, rest) = *script;
    let mut bytes = Vec::new(alloc);
    push_all(rt, &mut bytes, parts);
    let filled = vec![in alloc; byte; count].expect(rt, "memory");
    bytes
        .extend_from_slice(filled.as_slice())
        .expect(rt, "memory");
    push_all(rt, &mut bytes, rest);
    MemorySource::new(bytes, Vec::new(alloc))
}

// How many lines a report has, where it ends in this text.
fn lines_ending(report: &[u8], end: &str) -> Option<usize> {
    if report.ends_with(end.as_bytes()) {
        Some(report.iter().filter(|b| **b == b'\n').count())
    } else {
        None
    }
}

/// A client line.
pub(crate) const CLIENT: &str =
    "op=client&id=aaa&secret=bbb&issuer=https://example&auth=https://example/authorize&token=https://example/token&algs=HS256\n";

// A client line but for the end of its token endpoint, and a begin and a callback line.

const CLIENT_FRONT: &str =
    "op=client&id=aaa&secret=bbb&issuer=https://example&auth=https://example/authorize&algs=HS256&token=https://example/";

const LATER_LINES: &str =
    "op=begin&state=CSRF123&nonce=NONCE456&verifier=dBjftJeZ4CVP-mB92K27uhbUJU1p1r_wW1gFWFOEjXk\nop=callback&now=1000&query=code%3Dc1%26state%3DCSRF123&token_status=200&token_type=application/json&token_body=%7B%22access_token%22%3A%22abc%22%2C%22token_type%22%3A%22Bearer%22%2C%22id_token%22%3A%22eyJhbGciOiJIUzI1NiJ9.eyJpc3MiOiJodHRwczovL2V4YW1wbGUiLCJhdWQiOlsiYWFhIl0sImV4cCI6MjAwMCwiaWF0Ijo5MDAsIm5vbmNlIjoiTk9OQ0U0NTYiLCJzdWIiOiJ1MSJ9.IbKOHKcOistKb08I8l-Mg1J9VjU5wB0TABvvRtT4QqI%22%7D\n";

// The report behind the address that a request was sent to.
const SENT: &str =
    "&accept=application%2Fjson&content_type=application%2Fx-www-form-urlencoded&authorization=Basic+YWFhOmJiYg%3D%3D&body=grant_type%3Dauthorization_code%26code%3Dc1%26code_verifier%3DdBjftJeZ4CVP-mB92K27uhbUJU1p1r_wW1gFWFOEjXk\ncallback ok access_token=abc&claims=%7B%22iss%22%3A%22https%3A%2F%2Fexample%22%2C%22aud%22%3A%5B%22aaa%22%5D%2C%22exp%22%3A2000%2C%22iat%22%3A900%2C%22nonce%22%3A%22NONCE456%22%2C%22sub%22%3A%22u1%22%7D\npending 0\n";

// A client line, and a begin line but for its state.
const STATE_FRONT: &str =
    "op=client&id=aaa&secret=bbb&issuer=https://example&auth=https://example/authorize&algs=HS256&token=https://example/token\nop=begin&nonce=NONCE456&verifier=dBjftJeZ4CVP-mB92K27uhbUJU1p1r_wW1gFWFOEjXk&state=";

// The report behind the state in a URL.
const URL_REST: &str =
    "&code_challenge=E9Melhoa2OwvFrEMTJguCHaoeK1t8URWbuGJSstw-cM&code_challenge_method=S256&scope=openid&nonce=NONCE456\npending 1\n";

const TOO_LONG_URL: &str = "client ok\nbegin refused too_long\npending 0\n";

// A client that has an endpoint for user info, and a begin.
const BEGUN: &str =
    "op=client&id=aaa&secret=bbb&issuer=https://example&auth=https://example/authorize&token=https://example/token&userinfo=https://example/userinfo&algs=HS256\nop=begin&state=CSRF123&nonce=NONCE456&verifier=dBjftJeZ4CVP-mB92K27uhbUJU1p1r_wW1gFWFOEjXk";

const ASKING: &str = "&userinfo=json";

// A callback whose query has 24 bytes, and the letters behind it.
const LONG_QUERY: &str = "\nop=callback&now=1000&query=state%3DCSRF123%26code%3Dc1%26x%3D";

const CALLBACK: &str = "\nop=callback&now=1000&query=code%3Dc1%26state%3DCSRF123";

const ACCEPTED: &str = "&token_status=200&token_type=application/json&token_body=";

const REFUSED: &str = "&token_status=400&token_type=application/json&token_body=";

// Tokens of 243 bytes.
const TOKENS: &str =
    "%7B%22access_token%22%3A%22abc%22%2C%22token_type%22%3A%22Bearer%22%2C%22id_token%22%3A%22eyJhbGciOiJIUzI1NiJ9.eyJpc3MiOiJodHRwczovL2V4YW1wbGUiLCJhdWQiOlsiYWFhIl0sImV4cCI6MjAwMCwiaWF0Ijo5MDAsIm5vbmNlIjoiTk9OQ0U0NTYiLCJzdWIiOiJ1MSJ9.IbKOHKcOistKb08I8l-Mg1J9VjU5wB0TABvvRtT4QqI%22%7D";

const INFO: &str = "&info_status=200&info_type=application/json&info_body=";

const OTHER_INFO: &str = "&info_status=201&info_type=application/json&info_body=";

// User info of 12 bytes.
const ABOUT: &str = "%7B%22sub%22%3A%22u1%22%7D";

const SIGNED_IN: &str = "%22sub%22%3A%22u1%22%7D\npending 0\n";

const INFORMED: &str = "&user_info=%7B%22sub%22%3A%22u1%22%7D\npending 0\n";

const LONG_TOKENS: &str = "\ncallback refused too_long token_answer\npending 0\n";

const LONG_INFO: &str = "\ncallback refused too_long user_info_answer\npending 0\n";

// A script, and what is wanted: the status, how many lines its report has, and the end of it.
type Limit = (Pieces, u8, usize, &'static str);

static SCRIPTS: [Limit; 2] = [
    // A script has at most 67,108,864 bytes, which are judged by their lines. With one more nothing else counts.
    (
        (&[CLIENT], b'\n', 67_108_743, &[]),
        SCRIPT_FAULT,
        2,
        "client ok\nscript fault line 2\n",
    ),
    (
        (&[CLIENT], b'\n', 67_108_744, &[]),
        SCRIPT_FAULT,
        1,
        "script fault line 0\n",
    ),
];

static PARTS: [Limit; 20] = [
    // An address has at most 65,534 bytes. Nothing is sent to a longer one.
    (
        (&[CLIENT_FRONT], b'a', 65_518, &["\n", LATER_LINES]),
        DONE,
        5,
        SENT,
    ),
    (
        (&[CLIENT_FRONT], b'a', 65_519, &["\n", LATER_LINES]),
        DONE,
        4,
        "\ncallback refused token uri\npending 0\n",
    ),
    // A URL has at most 1,048,576 bytes: beside this state it has 179.
    ((&[STATE_FRONT], b'a', 1_048_397, &[]), DONE, 3, URL_REST),
    (
        (&[STATE_FRONT], b'a', 1_048_398, &[]),
        DONE,
        3,
        TOO_LONG_URL,
    ),
    (
        (&[STATE_FRONT], b'a', 1_048_576, &[]),
        DONE,
        3,
        TOO_LONG_URL,
    ),
    // A query has at most 1,048,576 bytes; a longer one leaves the login.
    (
        (&[BEGUN, LONG_QUERY], b'a', 1_048_552, &[ACCEPTED, TOKENS]),
        DONE,
        5,
        SIGNED_IN,
    ),
    (
        (&[BEGUN, LONG_QUERY], b'a', 1_048_553, &[ACCEPTED, TOKENS]),
        DONE,
        4,
        "\ncallback refused too_long callback\npending 1\n",
    ),
    // The token answer has at most 1,048,576 bytes, whatever it is: letters, and tokens with spaces behind them.
    (
        (&[BEGUN, CALLBACK, ACCEPTED], b'a', 1_048_576, &[]),
        DONE,
        5,
        "\ncallback refused token parse kind=syntax&field=\npending 0\n",
    ),
    (
        (&[BEGUN, CALLBACK, ACCEPTED], b'a', 1_048_577, &[]),
        DONE,
        5,
        LONG_TOKENS,
    ),
    (
        (&[BEGUN, CALLBACK, REFUSED], b'a', 1_048_577, &[]),
        DONE,
        5,
        LONG_TOKENS,
    ),
    (
        (&[BEGUN, CALLBACK, ACCEPTED, TOKENS], b'+', 1_048_333, &[]),
        DONE,
        5,
        SIGNED_IN,
    ),
    (
        (&[BEGUN, CALLBACK, ACCEPTED, TOKENS], b'+', 1_048_334, &[]),
        DONE,
        5,
        LONG_TOKENS,
    ),
    (
        (&[BEGUN, CALLBACK, REFUSED, TOKENS], b'+', 1_048_333, &[]),
        DONE,
        5,
        "\ncallback refused token parse kind=missing&field=error\npending 0\n",
    ),
    (
        (&[BEGUN, CALLBACK, REFUSED, TOKENS], b'+', 1_048_334, &[]),
        DONE,
        5,
        LONG_TOKENS,
    ),
    // So has the answer to the user info request.
    (
        (
            &[BEGUN, ASKING, CALLBACK, ACCEPTED, TOKENS, INFO],
            b'a',
            1_048_576,
            &[],
        ),
        DONE,
        6,
        "\ncallback refused user_info parse kind=syntax&field=\npending 0\n",
    ),
    (
        (
            &[BEGUN, ASKING, CALLBACK, ACCEPTED, TOKENS, INFO],
            b'a',
            1_048_577,
            &[],
        ),
        DONE,
        6,
        LONG_INFO,
    ),
    (
        (
            &[BEGUN, ASKING, CALLBACK, ACCEPTED, TOKENS, INFO, ABOUT],
            b'+',
            1_048_564,
            &[],
        ),
        DONE,
        6,
        INFORMED,
    ),
    (
        (
            &[BEGUN, ASKING, CALLBACK, ACCEPTED, TOKENS, INFO, ABOUT],
            b'+',
            1_048_565,
            &[],
        ),
        DONE,
        6,
        LONG_INFO,
    ),
    (
        (
            &[BEGUN, ASKING, CALLBACK, ACCEPTED, TOKENS, OTHER_INFO, ABOUT],
            b'+',
            1_048_564,
            &[],
        ),
        DONE,
        6,
        "\ncallback refused user_info status\npending 0\n",
    ),
    (
        (
            &[BEGUN, ASKING, CALLBACK, ACCEPTED, TOKENS, OTHER_INFO, ABOUT],
            b'+',
            1_048_565,
            &[],
        ),
        DONE,
        6,
        LONG_INFO,
    ),
];

/// The status of a script, and how many lines its report has where it ends so.
pub(crate) fn ending_of(
    rt: &impl Abort,
    alloc: Global,
    source: &mut MemorySource,
    end: &str,
) -> (u8, Option<usize>) {
    let reported = reported(rt, alloc, source);
    (reported.0, lines_ending(reported.1.bytes(), end))
}

fn ending(rt: &impl Abort, alloc: Global, limit: &Limit) -> (u8, Option<usize>) {
    let mut source = source_of(rt, alloc, &limit.0);
    ending_of(rt, alloc, &mut source, limit.3)
}

#[test]
fn scripts_at_their_limit(rt: HostRuntime) {
    for limit in &SCRIPTS {
        assert_eq!(rt;
            ending(&rt, rt.alloc(), limit),
            (limit.1, Some(limit.2)),
            "{}",
            limit.3
        );
    }
}

#[test]
fn parts_of_scripts_at_their_limits(rt: HostRuntime) {
    for limit in &PARTS {
        assert_eq!(rt;
            ending(&rt, rt.alloc(), limit),
            (limit.1, Some(limit.2)),
            "{}",
            limit.3
        );
    }
}

// ---- a login among others

// The lines of a state: its begin; a callback whose query is too long by letters behind it; one whose token has the other
// state's nonce; and one with its own token.

const BEGIN: &str =
    "op=begin&state=CSRF123&nonce=NONCE456&verifier=dBjftJeZ4CVP-mB92K27uhbUJU1p1r_wW1gFWFOEjXk\n";

const LONG_CALL: &str = "op=callback&now=1000&query=state%3DCSRF123%26code%3Dc1%26x%3D";

const CROSSED_CALL: &str =
    "op=callback&now=1000&query=code%3Dc1%26state%3DCSRF123&token_status=200&token_type=application/json&token_body=%7B%22access_token%22%3A%22abc%22%2C%22token_type%22%3A%22Bearer%22%2C%22id_token%22%3A%22eyJhbGciOiJIUzI1NiJ9.eyJpc3MiOiJodHRwczovL2V4YW1wbGUiLCJhdWQiOlsiYWFhIl0sImV4cCI6MjAwMCwiaWF0Ijo5MDAsIm5vbmNlIjoiTk9OQ0U0NTciLCJzdWIiOiJ1MiJ9.GbKt-_JXbQKWW1_gRDIlele3Te3OHb4PIlZF-N2_LC4%22%7D\n";

const OWN_CALL: &str =
    "op=callback&now=1000&query=code%3Dc1%26state%3DCSRF123&token_status=200&token_type=application/json&token_body=%7B%22access_token%22%3A%22abc%22%2C%22token_type%22%3A%22Bearer%22%2C%22id_token%22%3A%22eyJhbGciOiJIUzI1NiJ9.eyJpc3MiOiJodHRwczovL2V4YW1wbGUiLCJhdWQiOlsiYWFhIl0sImV4cCI6MjAwMCwiaWF0Ijo5MDAsIm5vbmNlIjoiTk9OQ0U0NTYiLCJzdWIiOiJ1MSJ9.IbKOHKcOistKb08I8l-Mg1J9VjU5wB0TABvvRtT4QqI%22%7D\n";

// Those of the other, which differs in its last digit, and a callback with both states.

const OTHER_BEGIN: &str =
    "op=begin&state=CSRF124&nonce=NONCE457&verifier=0123456789012345678901234567890123456789012\n";

const OTHER_CALL: &str =
    "op=callback&now=1000&query=code%3Dc2%26state%3DCSRF124&token_status=200&token_type=application/json&token_body=%7B%22access_token%22%3A%22abc%22%2C%22token_type%22%3A%22Bearer%22%2C%22id_token%22%3A%22eyJhbGciOiJIUzI1NiJ9.eyJpc3MiOiJodHRwczovL2V4YW1wbGUiLCJhdWQiOlsiYWFhIl0sImV4cCI6MjAwMCwiaWF0Ijo5MDAsIm5vbmNlIjoiTk9OQ0U0NTciLCJzdWIiOiJ1MiJ9.GbKt-_JXbQKWW1_gRDIlele3Te3OHb4PIlZF-N2_LC4%22%7D\n";

const BOTH_STATES: &str =
    "op=callback&now=1000&query=code%3Dc1%26state%3DCSRF123%26state%3DCSRF124&token_status=200&token_type=application/json&token_body=%7B%22access_token%22%3A%22abc%22%2C%22token_type%22%3A%22Bearer%22%2C%22id_token%22%3A%22eyJhbGciOiJIUzI1NiJ9.eyJpc3MiOiJodHRwczovL2V4YW1wbGUiLCJhdWQiOlsiYWFhIl0sImV4cCI6MjAwMCwiaWF0Ijo5MDAsIm5vbmNlIjoiTk9OQ0U0NTYiLCJzdWIiOiJ1MSJ9.IbKOHKcOistKb08I8l-Mg1J9VjU5wB0TABvvRtT4QqI%22%7D\n";

// The lines of a report on the first state's own events alone, by `tools/plain_callback.py report`: two logins, one after
// the other; and the last line.
const OWN_LINES: &str =
    "begin ok https://example/authorize?response_type=code&client_id=aaa&state=CSRF123&code_challenge=E9Melhoa2OwvFrEMTJguCHaoeK1t8URWbuGJSstw-cM&code_challenge_method=S256&scope=openid&nonce=NONCE456\ncallback refused too_long callback\nrequest method=POST&address=https%3A%2F%2Fexample%2Ftoken&accept=application%2Fjson&content_type=application%2Fx-www-form-urlencoded&authorization=Basic+YWFhOmJiYg%3D%3D&body=grant_type%3Dauthorization_code%26code%3Dc1%26code_verifier%3DdBjftJeZ4CVP-mB92K27uhbUJU1p1r_wW1gFWFOEjXk\ncallback refused claims invalid_nonce\ncallback refused state\nbegin ok https://example/authorize?response_type=code&client_id=aaa&state=CSRF123&code_challenge=E9Melhoa2OwvFrEMTJguCHaoeK1t8URWbuGJSstw-cM&code_challenge_method=S256&scope=openid&nonce=NONCE456\nrequest method=POST&address=https%3A%2F%2Fexample%2Ftoken&accept=application%2Fjson&content_type=application%2Fx-www-form-urlencoded&authorization=Basic+YWFhOmJiYg%3D%3D&body=grant_type%3Dauthorization_code%26code%3Dc1%26code_verifier%3DdBjftJeZ4CVP-mB92K27uhbUJU1p1r_wW1gFWFOEjXk\ncallback ok access_token=abc&claims=%7B%22iss%22%3A%22https%3A%2F%2Fexample%22%2C%22aud%22%3A%5B%22aaa%22%5D%2C%22exp%22%3A2000%2C%22iat%22%3A900%2C%22nonce%22%3A%22NONCE456%22%2C%22sub%22%3A%22u1%22%7D\npending 0\n";

// A script, which of its lines are about own events or the last (`+`), and what it is.
type Among = (Pieces, &'static str, &'static str);

static AMONG: [Among; 4] = [
    (
        (
            &[CLIENT, BEGIN, LONG_CALL],
            b'a',
            1_048_553,
            &["\n", CROSSED_CALL, OWN_CALL, BEGIN, OWN_CALL],
        ),
        "-+++++++",
        "alone",
    ),
    (
        (
            &[CLIENT, BEGIN, OTHER_BEGIN, BEGIN, BOTH_STATES, LONG_CALL],
            b'a',
            1_048_553,
            &["\n", CROSSED_CALL, OTHER_CALL, OWN_CALL, BEGIN, OWN_CALL],
        ),
        "-+---++-++++",
        "among others",
    ),
    (
        (
            &[
                CLIENT,
                OTHER_BEGIN,
                BEGIN,
                OTHER_CALL,
                BOTH_STATES,
                BEGIN,
                LONG_CALL,
            ],
            b'a',
            1_048_553,
            &["\n", CROSSED_CALL, OWN_CALL, BEGIN, OWN_CALL],
        ),
        "--+---++++++",
        "others before",
    ),
    (
        (
            &[CLIENT, BOTH_STATES, OTHER_CALL, BEGIN, LONG_CALL],
            b'a',
            1_048_553,
            &[
                "\n",
                BEGIN,
                CROSSED_CALL,
                OTHER_BEGIN,
                OWN_CALL,
                BOTH_STATES,
                BEGIN,
                OTHER_CALL,
                OWN_CALL,
            ],
        ),
        "---++-+-+-+-++",
        "others between",
    ),
];

// The lines of a report on the events that are marked: of each its requests, and then its verdict. The first is the client.
fn lines_about(rt: &impl Abort, alloc: Global, report: &str, marks: &str) -> String {
    let mut lines = String::new(alloc);
    let mut event = 0usize;
    for line in report.split_inclusive('\n') {
        if marks.as_bytes().get(event) == Some(&b'+') {
            lines.push_str(line).expect(rt, "memory");
        }
        if !line.starts_with("request ") {
            event = event.saturating_add(1);
        }
    }
    lines
}

// The status of a script, and these lines of its report.
fn own_lines(rt: &impl Abort, alloc: Global, among: &Among) -> (u8, String) {
    let mut source = source_of(rt, alloc, &among.0);
    let (status, sink) = reported(rt, alloc, &mut source);
    let report = str::from_utf8(sink.bytes()).unwrap_or("no text");
    (status, lines_about(rt, alloc, report, among.1))
}

#[test]
fn others_change_no_line_of_a_login(rt: HostRuntime) {
    for among in &AMONG {
        let found = own_lines(&rt, rt.alloc(), among);
        assert_eq!(rt;
            (found.0, found.1.as_str()),
            (DONE, OWN_LINES),
            "{}",
            among.2
        );
    }
}
