//! Token introspection responses (RFC 7662 section 2.2).

ghost use Rattle.std.specs.Prelude.{◌≡◌, List, Bool, Result, [], IfOk, map, option_map};
ghost use Rattle.std.specs.Option.{option_copied};
ghost use Rattle.oidc_members.specs.Answers.{Answers};
ghost use Rattle.oidc_members.specs.Seen.{SeenMember};
ghost use Rattle.oidc_members.specs.declared.reading.Reading.{Reading};
ghost use Rattle.oidc_members.specs.declared.refusal.Refusal.{Refusal};
ghost use Rattle.oidc_oauth2.specs.IntrospectionFields.{introspection_fields};
ghost use Rattle.oidc_oauth2.specs.Introspection as spec;

use crate::error_response::text_in;
use crate::extra_fields::{EmptyExtraTokenFields, ExtraTokenFields};
use crate::scopes::optional_scopes;
use crate::token_type::{CoreTokenType, TokenType};
use jiff::Timestamp;
use oidc_members::{FieldName, Member, Members, ParseError, Reading};
use oidc_readers::{MemberReader, Moment, Once, TextOrTexts, read_fields, timestamp_of};
use oidc_types::{Audience, AudienceMarker, ClientId, Scope};
use std::alloc::{AllocError, Global};
use std::marker::Model;

/// A response that says whether a token is active.
pub trait TokenIntrospectionResponse: Drop {
    /// What a list of members reads as under a reading, or why it is refused.
    ghost read_of: { Reading → List SeenMember → Result Self Refusal };

    /// Whether the token is active.
    ghost active: { Self → Bool };

    /// Reads a response of its members.
    fn read(alloc: Global, members: &Members) -> Result<Self, ParseError>
        ensures response { Answers (read_of members.now.reading members.now.list) result };

    /// Whether the token is active.
    fn active(&self) -> bool
        ensures active { result ≡ active self.now };
}

/// An introspection response with these extra fields and types of tokens. It has no `Debug`, since it
/// speaks of a person.
#[derive(Drop)]
pub struct StandardTokenIntrospectionResponse<EF: ExtraTokenFields, TT: TokenType> {
    active: bool,
    scopes: Option<Vec<Scope>>,
    client_id: Option<ClientId>,
    username: Option<FieldName>,
    token_type: Option<TT>,
    sub: Option<FieldName>,
    iss: Option<FieldName>,
    jti: Option<FieldName>,
    exp: Option<Timestamp>,
    nbf: Option<Timestamp>,
    iat: Option<Timestamp>,
    aud: Option<Vec<FieldName>>,
    extra_fields: EF,
}

/// An introspection response without extra fields.
pub type CoreTokenIntrospectionResponse = StandardTokenIntrospectionResponse<
    EmptyExtraTokenFields,
    CoreTokenType,
>;

impl<EF: ExtraTokenFields, TT: TokenType> Model for StandardTokenIntrospectionResponse<EF, TT> {
    ghost use Rattle.std.specs.Prelude.{option_map};
    ghost use Rattle.oidc_oauth2.specs.Introspection.{SeenIntrospection, seen_introspection_code};

    ghost Value = { SeenIntrospection TT EF };

    ghost coded = { seen_introspection_code TT.code EF.code };

    ghost view = { λ i. record {
      active = i.active;
      scopes = option_map (λ scopes. scopes.items) i.scopes;
      client_id = i.client_id;
      username = i.username;
      token_type = i.token_type;
      sub = i.sub;
      iss = i.iss;
      jti = i.jti;
      exp = option_map (λ t. t.nanosecond) i.exp;
      nbf = option_map (λ t. t.nanosecond) i.nbf;
      iat = option_map (λ t. t.nanosecond) i.iat;
      aud = option_map (λ names. names.items) i.aud;
      extra_fields = i.extra_fields;
    } };
}

// The fields, as they are read.
#[derive(Drop)]
pub(crate) struct IntrospectionFields {
    active: Once<bool>,
    scope: Once<Option<FieldName>>,
    client_id: Once<Option<ClientId>>,
    username: Once<Option<FieldName>>,
    token_type: Once<Option<FieldName>>,
    sub: Once<Option<FieldName>>,
    iss: Once<Option<FieldName>>,
    jti: Once<Option<FieldName>>,
    exp: Once<Option<Moment>>,
    nbf: Once<Option<Moment>>,
    iat: Once<Option<Moment>>,
    aud: Once<Option<TextOrTexts<AudienceMarker>>>,
}

impl IntrospectionFields {
    #[tactic(auto, unfolding(crate::specs::Slots::slot))]
    fn new() -> Self
        ensures { result ≡ introspection_fields [] }
    {
        IntrospectionFields {
            active: Once::new(),
            scope: Once::new(),
            client_id: Once::new(),
            username: Once::new(),
            token_type: Once::new(),
            sub: Once::new(),
            iss: Once::new(),
            jti: Once::new(),
            exp: Once::new(),
            nbf: Once::new(),
            iat: Once::new(),
            aud: Once::new(),
        }
    }
}

impl MemberReader for IntrospectionFields {
    ghost fault = { λ _. spec.introspection_rule };

    ghost state = { λ _. introspection_fields };

    fn take(
        &mut self,
        alloc: Global,
        member: &Member,
        _reading: Reading,
    ) -> Result<(), ParseError> {
        self.active
            .take(alloc, "active", member)
            .and(self.scope.take(alloc, "scope", member))
            .and(self.client_id.take(alloc, "client_id", member))
            .and(self.username.take(alloc, "username", member))
            .and(self.token_type.take(alloc, "token_type", member))
            .and(self.sub.take(alloc, "sub", member))
            .and(self.iss.take(alloc, "iss", member))
            .and(self.jti.take(alloc, "jti", member))
            .and(self.exp.take(alloc, "exp", member))
            .and(self.nbf.take(alloc, "nbf", member))
            .and(self.iat.take(alloc, "iat", member))
            .and(self.aud.take(alloc, "aud", member))
    }
}

// The texts of a list, each as a plain text.
fn names_of(alloc: Global, texts: Vec<Audience>) -> Result<Vec<FieldName>, AllocError>
    ensures { IfOk result (λ names. names.items ≡ texts.items) }
{
    let mut names = Vec::new(alloc);
    for text in texts {
        names.push(FieldName::new(text.into_string()))?;
    }
    Ok(names)
}

// The names in the field `aud`, where there are any.
fn audiences_in(
    alloc: Global,
    aud: Option<TextOrTexts<AudienceMarker>>,
) -> Result<Option<Vec<FieldName>>, AllocError>
    ensures { IfOk result (λ found. option_map (λ names. names.items) found ≡ aud) }
{
    match aud {
        None => Ok(None),
        Some(texts) => Ok(Some(names_of(alloc, texts.into_vec())?)),
    }
}

// The type of a text, where there is one.
fn type_in<TT: TokenType>(alloc: Global, text: Option<FieldName>) -> Result<Option<TT>, AllocError>
    ensures { IfOk result (λ kind. kind ≡ option_map TT.read_of text) }
{
    match text {
        None => Ok(None),
        Some(text) => Ok(Some(TT::read(alloc, text.as_str())?)),
    }
}

impl<EF: ExtraTokenFields, TT: TokenType> TokenIntrospectionResponse
    for StandardTokenIntrospectionResponse<EF, TT> {
    ghost read_of = { λ reading. spec.introspection_of TT.read_of (EF.read_of reading) };

    ghost active = { λ i. i.active };

    #[tactic(auto, unfolding(crate::specs::Introspection::introspection_of, crate::specs::Slots::slot))]
    fn read(alloc: Global, members: &Members) -> Result<Self, ParseError> {
        let fields = read_fields(alloc, IntrospectionFields::new(), members)?;
        let active = fields.active.required(alloc, "active")?;
        let extra_fields = EF::read(alloc, members)?;
        Ok(StandardTokenIntrospectionResponse {
            active,
            scopes: optional_scopes(alloc, fields.scope.optional())?,
            client_id: fields.client_id.optional(),
            username: fields.username.optional(),
            token_type: type_in(alloc, fields.token_type.optional())?,
            sub: fields.sub.optional(),
            iss: fields.iss.optional(),
            jti: fields.jti.optional(),
            exp: timestamp_of(fields.exp.optional()),
            nbf: timestamp_of(fields.nbf.optional()),
            iat: timestamp_of(fields.iat.optional()),
            aud: audiences_in(alloc, fields.aud.optional())?,
            extra_fields,
        })
    }

    fn active(&self) -> bool {
        self.active
    }
}

impl<EF: ExtraTokenFields, TT: TokenType> StandardTokenIntrospectionResponse<EF, TT> {
    /// The scopes of the token.
    pub fn scopes(&self) -> Option<&[Scope]>
        ensures scopes { option_copied result ≡ self.now.scopes }
    {
        match &self.scopes {
            None => None,
            Some(scopes) => Some(scopes.as_slice()),
        }
    }

    /// The client that asked for the token.
    pub fn client_id(&self) -> Option<&ClientId>
        ensures client { option_copied result ≡ self.now.client_id }
    {
        self.client_id.as_ref()
    }

    /// The name of the person who granted the token.
    pub fn username(&self) -> Option<&str>
        ensures text { option_copied result ≡ self.now.username }
    {
        text_in(&self.username)
    }

    /// The token's type.
    pub fn token_type(&self) -> Option<&TT>
        ensures kind { option_copied result ≡ self.now.token_type }
    {
        self.token_type.as_ref()
    }

    /// The subject of the token.
    pub fn sub(&self) -> Option<&str>
        ensures text { option_copied result ≡ self.now.sub }
    {
        text_in(&self.sub)
    }

    /// The issuer of the token.
    pub fn iss(&self) -> Option<&str>
        ensures text { option_copied result ≡ self.now.iss }
    {
        text_in(&self.iss)
    }

    /// The token's identifier.
    pub fn jti(&self) -> Option<&str>
        ensures text { option_copied result ≡ self.now.jti }
    {
        text_in(&self.jti)
    }

    /// When the token expires.
    pub fn exp(&self) -> Option<Timestamp>
        ensures moment { option_map (λ t. t.nanosecond) result ≡ self.now.exp }
    {
        self.exp
    }

    /// Before when the token isn't to be used.
    pub fn nbf(&self) -> Option<Timestamp>
        ensures moment { option_map (λ t. t.nanosecond) result ≡ self.now.nbf }
    {
        self.nbf
    }

    /// When the token was issued.
    pub fn iat(&self) -> Option<Timestamp>
        ensures moment { option_map (λ t. t.nanosecond) result ≡ self.now.iat }
    {
        self.iat
    }

    /// Whom the token is meant for.
    pub fn aud(&self) -> Option<&[FieldName]>
        ensures names { option_copied result ≡ self.now.aud }
    {
        match &self.aud {
            None => None,
            Some(names) => Some(names.as_slice()),
        }
    }

    /// The fields beside those of the standard.
    pub fn extra_fields(&self) -> &EF
        ensures fields { result.now ≡ self.now.extra_fields }
    {
        &self.extra_fields
    }
}
