// The three parts of a token's text (RFC 7515 section 7.1), and what they encode.

ghost use Rattle.std.specs.Prelude.{◌≡◌, ◌==◌, ◌+◌, ◌∷◌, [], length, IfSome, IsNone, None};
ghost use Rattle.std.specs.List.{slice_split};
ghost use Rattle.std.specs.Option.{ok_or, option_map_or};
ghost use Rattle.oidc_members.specs.Answers.{Answers};
ghost use Rattle.oidc_jwt.specs.Header.{header_of};
ghost use Rattle.oidc_jwt.specs.Tokens as spec;

use crate::header::TokenHeader;
use crate::payload::Payload;
use base64::DecodeAllocError;
use base64::engine::general_purpose::URL_SAFE_NO_PAD;
use oidc_members::{Members, ParseError, ParseKind, Reading, Refusal};
use oidc_types::{Body, ClosedVocabulary};
use std::alloc::Global;
use std::marker::Model;

// The parts as they stand.
#[derive(Drop)]
pub(crate) struct Parts<'a> {
    pub(crate) header: &'a str,
    pub(crate) payload: &'a str,
    pub(crate) signature: &'a str,
}

impl<'a> Model for Parts<'a> {
    ghost use Rattle.oidc_jwt.specs.Tokens.{Parts as SeenParts};

    ghost Value = { SeenParts };

    ghost view = { λ p. record {
      header = p.header.now;
      payload = p.payload.now;
      signature = p.signature.now;
    } };
}

impl<'a> Parts<'a> {
    // The length of the message: of the first two parts, with the dot between them.
    pub(crate) fn message_len(&self) -> usize
        ensures { result ≡ length self.now.header + 1 + length self.now.payload }
    {
        self.header.len() + 1 + self.payload.len()
    }
}

// What stands before the first dot of a text, and what stands after it, where there is one.
fn cut(text: &str) -> (&str, Option<&str>)
    ensures { slice_split (λ b. b == 46) text.now
        ≡ result.0.now ∷ option_map_or (λ rest. slice_split (λ b. b == 46) rest.now) result.1 [] }
{
    match text.split_once('.') {
        Some((before, after)) => (before, Some(after)),
        None => (text, None),
    }
}

// The parts between the dots of a text, where there are three.
fn three_parts(text: &str) -> Option<Parts<'_>>
    ensures none { IsNone result → spec.three (slice_split (λ b. b == 46) text.now) ≡ None }
    ensures parts { IfSome result (λ p. slice_split (λ b. b == 46) text.now
        ≡ p.header ∷ p.payload ∷ p.signature ∷ []) }
{
    let (header, rest) = cut(text);
    let Some(rest) = rest else {
        return None;
    };
    let (payload, rest) = cut(rest);
    let Some(rest) = rest else {
        return None;
    };
    let (signature, rest) = cut(rest);
    if rest.is_some() {
        return None;
    }
    Some(Parts {
        header,
        payload,
        signature,
    })
}

// The refusal of a text that is no token.
fn no_token(alloc: Global) -> ParseError
    ensures { result ≡ ParseError.Refused spec.no_token }
{
    ParseError::Refused(Refusal::of_text(alloc, ParseKind::Token))
}

// The parts of a text, which has to have three.
#[tactic(auto, unfolding(crate::specs::Tokens::three_parts))]
pub(crate) fn parts_of(alloc: Global, text: &str) -> Result<Parts<'_>, ParseError>
    ensures { Answers (ok_or (spec.three_parts text.now) spec.no_token) result }
{
    match three_parts(text) {
        Some(parts) => Ok(parts),
        None => Err(no_token(alloc)),
    }
}

// The bytes of a part, where it is strict base64url without padding.
#[tactic(auto, unfolding(base64::specs::GeneralPurpose::decoded_of))]
pub(crate) fn decoded(alloc: Global, part: &str) -> Result<Body, ParseError>
    ensures { Answers (spec.decoded part.now) result }
{
    match URL_SAFE_NO_PAD.decode(alloc, part.as_bytes()) {
        Ok(bytes) => Ok(Body::new(bytes)),
        Err(DecodeAllocError::DecodeError(_)) => Err(no_token(alloc)),
        Err(DecodeAllocError::OutOfMemory) => Err(ParseError::Memory),
    }
}

// The header that some bytes are.
pub(crate) fn header_in<JE: ClosedVocabulary, JS: ClosedVocabulary>(
    alloc: Global,
    bytes: &[u8],
) -> Result<TokenHeader<JE, JS>, ParseError>
    ensures { Answers (spec.object_read (header_of JE.from_str JS.from_str) bytes.now) result }
{
    let members = Members::split(alloc, bytes)?;
    TokenHeader::read(alloc, &members)
}

// The payload that some bytes are, under a reading.
pub(crate) fn payload_in<P: Payload>(
    alloc: Global,
    bytes: &[u8],
    reading: Reading,
) -> Result<P, ParseError>
    ensures { Answers (spec.object_read (P.read_of reading) bytes.now) result }
{
    let members = Members::split(alloc, bytes)?.with_reading(reading);
    P::read(alloc, &members)
}
