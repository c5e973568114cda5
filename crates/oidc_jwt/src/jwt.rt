//! JSON Web Tokens in the compact serialization (RFC 7515 section 7.1, RFC 7519 section 3).

ghost use Rattle.std.specs.Prelude.{◌≡◌, ◌++◌, List, ℕ, codes, Ok, Err, IfOk, IfErr, false};
ghost use Rattle.std.specs.Option.{option_copied};
ghost use Rattle.oidc_members.specs.Answers.{Answers};
ghost use Rattle.oidc_members.specs.Write.{any_float, object_text};
ghost use Rattle.oidc_members.specs.declared.reading.Reading.{Reading};
ghost use Rattle.oidc_jwt.specs.Encoded.{Encodes, IsHeaded, IsMessage, IsReady};
ghost use Rattle.oidc_jwt.specs.Header.{written_header};
ghost use Rattle.oidc_jwt.specs.Tokens.{token_of};
ghost use Rattle.std.specs.String.{string_bytes};
ghost use Rattle.oidc_jwt.specs.Issuing as issuing;
ghost use Rattle.oidc_jwt.specs.Issuing.{Issues, IsRefusedBy, IsNamed, ComesBack};

use crate::header::{JsonWebTokenAlgorithm, TokenHeader, header_members};
use crate::parts::{decoded, header_in, parts_of, payload_in};
use crate::payload::Payload;
use base64::engine::general_purpose::URL_SAFE_NO_PAD;
use oidc_keys::{JsonWebKey, PrivateSigningKey};
use oidc_members::{OutMember, ParseError, Reading, write_object};
use oidc_types::{Body, ClosedVocabulary, JsonWebKeyId, JwsSigningAlgorithm, SigningError};
use std::alloc::{AllocError, Global};
use std::marker::Model;
use thiserror::Error;

/// Why a token was not issued.
#[derive(Debug, Drop, Error, PartialEq, Eq)]
pub enum JsonWebTokenError {
    /// The signer refused, or a hash that was wanted doesn't exist.
    #[error("signing failed: {0}")]
    SigningError(SigningError),
    /// There was no memory.
    #[error("out of memory")]
    Memory,
}

impl From<AllocError> for JsonWebTokenError {
    ghost use Rattle.std.specs.Prelude.{◌≡◌};
    ghost use Rattle.oidc_jwt.specs.declared.jwt.JsonWebTokenError.TheVariants.{Memory};

    ghost from_gives = { λ _ error. error ≡ Memory };

    fn from(_refused: AllocError) -> JsonWebTokenError {
        JsonWebTokenError::Memory
    }
}

/// Want of memory is the outermost error, never one inside another.
impl From<SigningError> for JsonWebTokenError {
    ghost use Rattle.std.specs.Prelude.{◌≡◌};
    ghost use Rattle.oidc_jwt.specs.Issuing.{issue_error};

    ghost from_gives = { λ refusal error. error ≡ issue_error refusal };

    fn from(refusal: SigningError) -> JsonWebTokenError {
        match refusal {
            SigningError::Memory => JsonWebTokenError::Memory,
            refusal => JsonWebTokenError::SigningError(refusal),
        }
    }
}

/// A JSON Web Token that was read or issued. Contracts see its text, its header, its payload, the
/// message that is signed and the signature. Nothing of it is verified.
///
/// It has no `Debug`, since whoever has its text may act with it.
#[derive(Drop)]
pub struct JsonWebToken<JE, JS, P> {
    text: String,
    header: TokenHeader<JE, JS>,
    payload: P,
    message_len: usize,
    signature: Body,
}

impl<JE, JS, P> Model for JsonWebToken<JE, JS, P> {
    ghost use Rattle.std.specs.Prelude.{take, IsCharBoundary};
    ghost use Rattle.std.specs.String.{string_bytes};
    ghost use Rattle.oidc_jwt.specs.Tokens.{SeenToken};

    ghost Value = { SeenToken JE JS P };

    ghost view = { λ t. record {
      text = string_bytes t.text;
      header = t.header;
      payload = t.payload;
      message = take t.message_len (string_bytes t.text);
      signature = t.signature;
    } };

    ghost invariant = { λ t. IsCharBoundary (string_bytes t.text) t.message_len };
}

impl<JE, JS, P> JsonWebToken<JE, JS, P> {
    /// The text that was read or made.
    pub fn as_str(&self) -> &str
        ensures text { result.now ≡ self.now.text }
    {
        self.text.as_str()
    }

    /// The header.
    pub fn header(&self) -> &TokenHeader<JE, JS>
        ensures header { result.now ≡ self.now.header }
    {
        &self.header
    }

    /// The payload, whether or not the token is accepted anywhere.
    pub fn unverified_payload(&self) -> &P
        ensures payload { result.now ≡ self.now.payload }
    {
        &self.payload
    }

    /// The payload, taken out. It takes no memory.
    pub fn into_payload(self) -> P
    where
        JE: Drop,
        JS: Drop,
        ensures payload { result ≡ self.payload }
    {
        self.payload
    }

    /// The message that is signed: the first two parts as they stand, with the dot between them.
    pub fn message(&self) -> &str
        ensures message { result.now ≡ self.now.message }
    {
        &self.text[..self.message_len]
    }

    /// The signature.
    pub fn signature(&self) -> &[u8]
        ensures signature { result.now ≡ self.now.signature }
    {
        self.signature.as_slice()
    }
}

impl<JE: ClosedVocabulary, JS: ClosedVocabulary, P: Payload> JsonWebToken<JE, JS, P> {
    /// The token that a text is: three parts between dots, each strict base64url without padding; the
    /// first is a header and the second the payload's object.
    ///
    /// It is refused as `Token` where it hasn't such parts, then as its header is refused, then as its
    /// payload is under the strict reading.
    pub fn read(alloc: Global, text: &str) -> Result<Self, ParseError>
        ensures answer { let payload_read = P.read_of Reading.STRICT in
            Answers (token_of JE.from_str JS.from_str payload_read text.now) result }
    {
        JsonWebToken::read_with(alloc, text, Reading::STRICT)
    }

    /// The token that a text is, its payload read under this reading. It is refused as by
    /// [`JsonWebToken::read`], the payload as it is under this reading.
    #[tactic(auto, unfolding(crate::specs::Tokens::token_of))]
    pub fn read_with(alloc: Global, text: &str, reading: Reading) -> Result<Self, ParseError>
        ensures answer { let payload_read = P.read_of reading in
            Answers (token_of JE.from_str JS.from_str payload_read text.now) result }
    {
        let parts = parts_of(alloc, text)?;
        let first = decoded(alloc, parts.header)?;
        let second = decoded(alloc, parts.payload)?;
        let signature = decoded(alloc, parts.signature)?;
        let text = String::from_str(alloc, text)?;
        let header = header_in(alloc, first.as_slice())?;
        let payload = payload_in(alloc, second.as_slice(), reading)?;
        Ok(JsonWebToken {
            text,
            header,
            payload,
            message_len: parts.message_len(),
            signature,
        })
    }
}

// The message of a header and a payload: the text of each object, encoded, with a dot between them.
fn message_of(
    alloc: Global,
    header: &[OutMember],
    payload: &[OutMember],
) -> Result<String, AllocError>
    ensures whole { any_float header.now ≡ false → any_float payload.now ≡ false
        → IfOk result (λ message.
        IsMessage (string_bytes message) (object_text header.now) (object_text payload.now)) }
    ensures head { any_float header.now ≡ false
        → IfOk result (λ message. IsHeaded (string_bytes message) (object_text header.now)) }
{
    let mut message = encoded(alloc, write_object(alloc, header)?.as_slice())?;
    message.push('.')?;
    message.push_str(encoded(alloc, write_object(alloc, payload)?.as_slice())?.as_str())?;
    Ok(message)
}

fn encoded(alloc: Global, bytes: &[u8]) -> Result<String, AllocError>
    ensures { IfOk result (λ text. Encodes (string_bytes text) bytes.now) }
{
    let text = URL_SAFE_NO_PAD.encode(alloc, bytes)?;
    Ok(text)
}

// The text of a token: the message, a dot, and the signature, encoded.
fn compact(alloc: Global, message: &str, signature: &[u8]) -> Result<String, AllocError>
    ensures { IfOk result (λ text. (last : List ℕ) × Encodes last signature.now
        × (string_bytes text ≡ message.now ++ codes "." ++ last)) }
{
    let mut text = String::from_str(alloc, message)?;
    text.push('.')?;
    text.push_str(encoded(alloc, signature)?.as_str())?;
    Ok(text)
}

impl<JE: ClosedVocabulary, JS: JwsSigningAlgorithm, P: Payload> JsonWebToken<JE, JS, P> {
    /// Issues a token: its header has the algorithm and, where the verification key has one, the key's
    /// id, and the signer signs the first two parts with the dot between them.
    ///
    /// Where the payload's values hold no float, the whole token or refusal is the one that
    /// `issued` says. Whatever they hold, it is refused as the signer refuses a message with the
    /// token's header, or as `Memory`. Its text is read back as this token, under each reading
    /// under which the payload's members are read back as the payload, where the algorithm is read
    /// back from its own text, which isn't `none`.
    pub fn new<S: PrivateSigningKey>(
        alloc: Global,
        payload: P,
        key: &S,
        alg: &JS,
    ) -> Result<Self, JsonWebTokenError>
    where
        S::VerificationKey: JsonWebKey<SigningAlgorithm = JS>,
        ensures issued { any_float (P.write_of payload) ≡ false → Issues (issuing.issued
            JS.as_ref P.write_of (S.signs key.now alg.now)
            (S.VerificationKey.key_id (S.verification_key key.now)) alg.now payload) result }

        // Whatever the values hold.
        ensures header { let key_id = S.VerificationKey.key_id (S.verification_key key.now) in
            IfOk result (λ token. token.header ≡ issuing.signed_with alg.now key_id) }
        ensures payload { IfOk result (λ token. token.payload ≡ payload) }
        ensures head { let key_id = S.VerificationKey.key_id (S.verification_key key.now) in
            let header = written_header (JS.as_ref alg.now) key_id in
            IfOk result (λ token. issuing.IsHeadedBy token.message header) }
        ensures signed { IfOk result (λ token.
            S.signs key.now alg.now token.message ≡ Ok token.signature) }
        ensures text { IfOk result (λ token.
            token.text ≡ issuing.compact token.message token.signature) }
        ensures refused { let key_id = S.VerificationKey.key_id (S.verification_key key.now) in
            let header = written_header (JS.as_ref alg.now) key_id in
            IfErr result (IsRefusedBy header (S.signs key.now alg.now)) }

        // What is issued is read back, where its algorithm and its payload are.
        ensures reads_back { (reading : Reading) → IsNamed JS.as_ref JS.from_str alg.now
            → ComesBack (P.read_of reading) P.write_of payload
            → IfOk result (λ token.
            token_of JE.from_str JS.from_str (P.read_of reading) token.text ≡ Ok token) }
    {
        let unsigned = Unsigned::of(alloc, &payload, key, alg.as_ref())?;
        let signature = key.sign(alloc, alg, unsigned.message.as_bytes())?;
        let text = compact(alloc, unsigned.message.as_str(), signature.as_slice())?;
        Ok(JsonWebToken {
            text,
            header: TokenHeader {
                alg: JsonWebTokenAlgorithm::Signature(*alg),
                typ: None,
                cty: None,
                kid: unsigned.key_id,
                crit: false,
            },
            payload,
            message_len: unsigned.message.as_str().len(),
            signature: Body::new(signature),
        })
    }
}

// A token that isn't signed yet: its message, and the id of the key that is to check it.
#[derive(Drop)]
struct Unsigned {
    message: String,
    key_id: Option<JsonWebKeyId>,
}

impl Unsigned {
    fn of<S: PrivateSigningKey, P: Payload>(
        alloc: Global,
        payload: &P,
        key: &S,
        alg: &str,
    ) -> Result<Self, AllocError>
        ensures key_id { IfOk result (λ unsigned.
            unsigned.key_id ≡ S.VerificationKey.key_id (S.verification_key key.now)) }
        ensures ready { let key_id = S.VerificationKey.key_id (S.verification_key key.now) in
            let header = written_header alg.now key_id in IfOk result (λ unsigned.
            IsReady header (P.write_of payload.now) (string_bytes unsigned.message)) }
        ensures headed { let key_id = S.VerificationKey.key_id (S.verification_key key.now) in
            let header = written_header alg.now key_id in IfOk result (λ unsigned.
            issuing.IsHeadedBy (string_bytes unsigned.message) header) }
    {
        let checker = key.as_verification_key(alloc)?;
        let header = header_members(alloc, alg, checker.key_id())?;
        let payload = payload.write(alloc)?;
        let message = message_of(alloc, header.as_slice(), payload.as_slice())?;
        let key_id = copied_id(alloc, checker.key_id())?;
        Ok(Unsigned { message, key_id })
    }
}

fn copied_id(alloc: Global, id: Option<&JsonWebKeyId>) -> Result<Option<JsonWebKeyId>, AllocError>
    ensures { IfOk result (λ copy. copy ≡ option_copied id.entry) }
{
    match id {
        None => Ok(None),
        Some(id) => Ok(Some(id.clone_in(alloc)?)),
    }
}
