//! The JOSE header of a token (RFC 7515 section 4.1).

ghost use Rattle.std.specs.Prelude.{◌≡◌, [], IfOk};
ghost use Rattle.std.specs.Option.{option_copied};
ghost use Rattle.std.specs.List.{All};
ghost use Rattle.oidc_members.specs.Answers.{Answers};
ghost use Rattle.oidc_readers.specs.WrittenBack.{IsUtf8Member};
ghost use Rattle.oidc_jwt.specs.Header as spec;
ghost use Rattle.oidc_jwt.specs.HeaderFields.{header_fields};

use oidc_members::{FieldName, Member, Members, OutMember, ParseError, ParseKind, Reading};
use oidc_readers::{
    FieldValue, MemberReader, Once, Present, named, put_optional_text, put_text, read_fields,
    refused,
};
use oidc_types::{ClosedVocabulary, JsonWebKeyId};
use std::alloc::{AllocError, Global};

/// The algorithm that a token names (RFC 7515 section 4.1.1).
#[derive(Drop)]
pub enum JsonWebTokenAlgorithm<JE, JS> {
    /// One that signs (RFC 7518 section 3.1).
    Signature(JS),
    /// One that encrypts content (RFC 7518 section 5.1).
    Encryption(JE),
    /// `none`: the token is neither signed nor encrypted (RFC 7518 section 3.6).
    None,
}

/// The header of a token. What it says has been read, and not yet judged.
#[derive(Drop)]
pub struct TokenHeader<JE, JS> {
    /// `alg`: the algorithm.
    pub alg: JsonWebTokenAlgorithm<JE, JS>,
    /// `typ`: the media type of the token.
    pub typ: Option<FieldName>,
    /// `cty`: the media type of its payload.
    pub cty: Option<FieldName>,
    /// `kid`: the id of the key.
    pub kid: Option<JsonWebKeyId>,
    /// Whether `crit` is there, with any value but null: extensions that have to be understood.
    pub crit: bool,
}

// The algorithm that a text names.
fn algorithm_named<JE: ClosedVocabulary, JS: ClosedVocabulary>(
    text: &str,
) -> Option<JsonWebTokenAlgorithm<JE, JS>>
    ensures { result ≡ spec.algorithm_named JE.from_str JS.from_str text.now }
{
    if text == "none" {
        return Some(JsonWebTokenAlgorithm::None);
    }
    if let Some(alg) = JS::from_str(text) {
        return Some(JsonWebTokenAlgorithm::Signature(alg));
    }
    match JE::from_str(text) {
        Some(alg) => Some(JsonWebTokenAlgorithm::Encryption(alg)),
        None => None,
    }
}

impl<JE: ClosedVocabulary, JS: ClosedVocabulary> FieldValue for JsonWebTokenAlgorithm<JE, JS> {
    ghost read_of = { λ _. spec.algorithm_kind JE.from_str JS.from_str };

    fn read(
        alloc: Global,
        member: &Member,
        _reading: Reading,
    ) -> Result<JsonWebTokenAlgorithm<JE, JS>, ParseError> {
        let Some(text) = member.value().as_str() else {
            return Err(refused(alloc, ParseKind::WrongType, member.name()));
        };
        match algorithm_named(text) {
            Some(alg) => Ok(alg),
            None => Err(refused(alloc, ParseKind::Algorithm, member.name())),
        }
    }
}

// The fields, as they are read.
#[derive(Drop)]
pub(crate) struct HeaderFields<JE, JS> {
    alg: Once<JsonWebTokenAlgorithm<JE, JS>>,
    typ: Once<Option<FieldName>>,
    cty: Once<Option<FieldName>>,
    kid: Once<Option<JsonWebKeyId>>,
    crit: Once<Option<Present>>,
}

impl<JE: ClosedVocabulary, JS: ClosedVocabulary> HeaderFields<JE, JS> {
    #[tactic(auto, unfolding(oidc_readers::specs::Slots::slot))]
    fn new() -> Self
        ensures { result ≡ header_fields JE.from_str JS.from_str [] }
    {
        HeaderFields {
            alg: Once::new(),
            typ: Once::new(),
            cty: Once::new(),
            kid: Once::new(),
            crit: Once::new(),
        }
    }
}

impl<JE: ClosedVocabulary, JS: ClosedVocabulary> MemberReader for HeaderFields<JE, JS> {
    ghost fault = { λ _. spec.header_rule JE.from_str JS.from_str };

    ghost state = { λ _. header_fields JE.from_str JS.from_str };

    fn take(
        &mut self,
        alloc: Global,
        member: &Member,
        _reading: Reading,
    ) -> Result<(), ParseError> {
        self.alg
            .take(alloc, "alg", member)
            .and(self.typ.take(alloc, "typ", member))
            .and(self.cty.take(alloc, "cty", member))
            .and(self.kid.take(alloc, "kid", member))
            .and(self.crit.take(alloc, "crit", member))
    }
}

impl<JE: ClosedVocabulary, JS: ClosedVocabulary> TokenHeader<JE, JS> {
    /// Reads a header. The first faulty member refuses it, then a missing `alg`. A member of the
    /// table is faulty that repeats, or that isn't of its kind: texts, of which `alg` is that of an
    /// algorithm (`Algorithm`), and any value for `crit`. Other members are left aside. The
    /// members' reading doesn't matter, since no field is a boolean or a moment.
    #[tactic(auto, unfolding(crate::specs::Header::header_of, oidc_readers::specs::Slots::slot))]
    pub fn read(alloc: Global, members: &Members) -> Result<Self, ParseError>
        ensures answer { Answers (spec.header_of JE.from_str JS.from_str members.now.list) result }
    {
        let fields = read_fields(alloc, HeaderFields::<JE, JS>::new(), members)?;
        let alg = fields.alg.required(alloc, "alg")?;
        Ok(TokenHeader {
            alg,
            typ: fields.typ.optional(),
            cty: fields.cty.optional(),
            kid: fields.kid.optional(),
            crit: fields.crit.optional().is_some(),
        })
    }
}

// The members of the header of a token that is issued by this algorithm, to be checked by a key of this
// id.
pub(crate) fn header_members(
    alloc: Global,
    alg: &str,
    key_id: Option<&JsonWebKeyId>,
) -> Result<Vec<OutMember>, AllocError>
    ensures members { IfOk result (λ members.
        members.items ≡ spec.written_header alg.now (option_copied key_id.entry)) }
    ensures texts { IfOk result (λ members. All IsUtf8Member members.items) }
{
    let mut members = Vec::new(alloc);
    put_text(alloc, &mut members, named("alg"), alg)?;
    put_optional_text(alloc, &mut members, named("kid"), text_of(key_id))?;
    Ok(members)
}

fn text_of(id: Option<&JsonWebKeyId>) -> Option<&str>
    ensures { option_copied result ≡ option_copied id.entry }
{
    match id {
        None => None,
        Some(id) => Some(id.as_str()),
    }
}
