//! Token responses (RFC 6749 section 5.1).

ghost use Rattle.std.specs.Prelude.{◌≡◌, ◌/◌, ◌*◌, List, ℕ, Option, Result, [], Some, None, IfOk, false, option_map};
ghost use Rattle.std.specs.Option.{option_copied};
ghost use Rattle.std.specs.Duration.{as_nanos};
ghost use Rattle.oidc_members.specs.Answers.{Answers};
ghost use Rattle.oidc_members.specs.Seen.{SeenMember};
ghost use Rattle.oidc_members.specs.Write.{any_float, object_text};
ghost use Rattle.oidc_members.specs.declared.reading.Reading.{Reading};
ghost use Rattle.oidc_members.specs.declared.refusal.Refusal.{Refusal};
ghost use Rattle.oidc_oauth2.specs.TokenFields.{token_fields};
ghost use Rattle.oidc_oauth2.specs.TokenResponse as spec;

use crate::extra_fields::ExtraTokenFields;
use crate::scopes::{optional_joined, optional_scopes};
use crate::token_type::TokenType;
use oidc_members::{FieldName, Member, Members, OutMember, ParseError, Reading, write_object};
use oidc_readers::{
    MemberReader, Once, named, put_optional_text, put_optional_whole, put_text, read_fields,
};
use oidc_types::{AccessToken, RefreshToken, Scope};
use std::alloc::{AllocError, Global};
use std::marker::Model;
use std::time::Duration;

/// A response that holds an access token.
pub trait OAuth2TokenResponse: Drop {
    /// How its types of tokens are read.
    type TokenType: TokenType;

    /// The fields beside those of the standard.
    type ExtraFields: ExtraTokenFields;

    /// What a list of members reads as under a reading, or why it is refused.
    ghost read_of: { Reading → List SeenMember → Result Self Refusal };

    /// The access token.
    ghost access_token: { Self → List ℕ };

    /// The token's type.
    ghost token_type: { Self → Self.TokenType };

    /// How long the access token is good, in nanoseconds.
    ghost expires_in: { Self → Option ℕ };

    /// The refresh token.
    ghost refresh_token: { Self → Option (List ℕ) };

    /// The scopes of the access token.
    ghost scopes: { Self → Option (List (List ℕ)) };

    /// The fields beside those of the standard.
    ghost extra_fields: { Self → Self.ExtraFields };

    /// Reads a response of its members.
    fn read(alloc: Global, members: &Members) -> Result<Self, ParseError>
        ensures response { Answers (read_of members.now.reading members.now.list) result };

    /// The access token.
    fn access_token(&self) -> &AccessToken
        ensures token { result.now ≡ access_token self.now };

    /// The token's type.
    fn token_type(&self) -> &Self::TokenType
        ensures kind { result.now ≡ token_type self.now };

    /// How long the access token is good, where that is said.
    fn expires_in(&self) -> Option<Duration>
        ensures span { option_map as_nanos result ≡ expires_in self.now };

    /// The refresh token, where there is one.
    fn refresh_token(&self) -> Option<&RefreshToken>
        ensures token { option_copied result ≡ refresh_token self.now };

    /// The scopes of the access token, where they are said.
    fn scopes(&self) -> Option<&[Scope]>
        ensures scopes { option_copied result ≡ scopes self.now };

    /// The fields beside those of the standard.
    fn extra_fields(&self) -> &Self::ExtraFields
        ensures fields { result.now ≡ extra_fields self.now };
}

/// A token response with these extra fields and types of tokens. It has no `Debug`, since it holds
/// tokens.
#[derive(Drop)]
pub struct StandardTokenResponse<EF: ExtraTokenFields, TT: TokenType> {
    access_token: AccessToken,
    token_type: TT,
    expires_in: Option<Duration>,
    refresh_token: Option<RefreshToken>,
    scopes: Option<Vec<Scope>>,
    extra_fields: EF,
}

impl<EF: ExtraTokenFields, TT: TokenType> Model for StandardTokenResponse<EF, TT> {
    ghost use Rattle.std.specs.Prelude.{option_map};
    ghost use Rattle.std.specs.Duration.{as_nanos};
    ghost use Rattle.oidc_oauth2.specs.TokenResponse.{SeenTokens, seen_tokens_code};

    ghost Value = { SeenTokens TT EF };

    ghost coded = { seen_tokens_code TT.code EF.code };

    ghost view = { λ t. record {
      access_token = t.access_token;
      token_type = t.token_type;
      expires_in = option_map as_nanos t.expires_in;
      refresh_token = t.refresh_token;
      scopes = option_map (λ scopes. scopes.items) t.scopes;
      extra_fields = t.extra_fields;
    } };
}

// The fields, as they are read.
#[derive(Drop)]
pub(crate) struct TokenFields {
    access_token: Once<AccessToken>,
    token_type: Once<FieldName>,
    expires_in: Once<Option<u64>>,
    refresh_token: Once<Option<RefreshToken>>,
    scope: Once<Option<FieldName>>,
}

impl TokenFields {
    #[tactic(auto, unfolding(crate::specs::Slots::slot))]
    fn new() -> Self
        ensures { result ≡ token_fields [] }
    {
        TokenFields {
            access_token: Once::new(),
            token_type: Once::new(),
            expires_in: Once::new(),
            refresh_token: Once::new(),
            scope: Once::new(),
        }
    }
}

impl MemberReader for TokenFields {
    ghost fault = { λ _. spec.token_rule };

    ghost state = { λ _. token_fields };

    fn take(
        &mut self,
        alloc: Global,
        member: &Member,
        _reading: Reading,
    ) -> Result<(), ParseError> {
        self.access_token
            .take(alloc, "access_token", member)
            .and(self.token_type.take(alloc, "token_type", member))
            .and(self.expires_in.take(alloc, "expires_in", member))
            .and(self.refresh_token.take(alloc, "refresh_token", member))
            .and(self.scope.take(alloc, "scope", member))
    }
}

// A span of so many seconds.
pub(crate) fn span_of(seconds: Option<u64>) -> Option<Duration>
    ensures { option_map as_nanos result ≡ option_map spec.seconds seconds }
{
    match seconds {
        None => None,
        Some(seconds) => Some(Duration::from_secs(seconds)),
    }
}

// The whole seconds of a span.
fn seconds_of(span: Option<Duration>) -> Option<u64>
    ensures { result ≡ option_map spec.whole_seconds (option_map as_nanos span) }
{
    match span {
        None => None,
        Some(span) => Some(span.as_secs()),
    }
}

fn text_of(token: &Option<RefreshToken>) -> Option<&str>
    ensures { option_copied result ≡ token.now }
{
    match token {
        None => None,
        Some(token) => Some(token.secret()),
    }
}

impl<EF: ExtraTokenFields, TT: TokenType> StandardTokenResponse<EF, TT> {
    /// A response with these three, and nothing else. It takes no memory.
    pub fn new(access_token: AccessToken, token_type: TT, extra_fields: EF) -> Self
        ensures kept { result ≡ record {
          access_token = access_token;
          token_type = token_type;
          expires_in = None;
          refresh_token = None;
          scopes = None;
          extra_fields = extra_fields;
        } }
    {
        StandardTokenResponse {
            access_token,
            token_type,
            expires_in: None,
            refresh_token: None,
            scopes: None,
            extra_fields,
        }
    }

    /// With this access token.
    pub fn set_access_token(mut self, access_token: AccessToken) -> Self
        ensures set { result ≡ record self { access_token = access_token } }
    {
        self.access_token = access_token;
        self
    }

    /// With this type of token.
    pub fn set_token_type(mut self, token_type: TT) -> Self
        ensures set { result ≡ record self { token_type = token_type } }
    {
        self.token_type = token_type;
        self
    }

    /// With this span, or none.
    pub fn set_expires_in(mut self, expires_in: Option<Duration>) -> Self
        ensures set { result ≡ record self { expires_in = option_map as_nanos expires_in } }
    {
        self.expires_in = expires_in;
        self
    }

    /// With this refresh token, or none.
    pub fn set_refresh_token(mut self, refresh_token: Option<RefreshToken>) -> Self
        ensures set { result ≡ record self { refresh_token = refresh_token } }
    {
        self.refresh_token = refresh_token;
        self
    }

    /// With these scopes, or none.
    pub fn set_scopes(mut self, scopes: Option<Vec<Scope>>) -> Self
        ensures set { result ≡ record self { scopes = option_map (λ scopes. scopes.items) scopes } }
    {
        self.scopes = scopes;
        self
    }

    /// With these extra fields.
    pub fn set_extra_fields(mut self, extra_fields: EF) -> Self
        ensures set { result ≡ record self { extra_fields = extra_fields } }
    {
        self.extra_fields = extra_fields;
        self
    }

    // The members of the response, absent ones left out.
    fn members(&self, alloc: Global) -> Result<Vec<OutMember>, AllocError>
        ensures { IfOk result
            (λ members. members.items ≡ spec.written_tokens TT.as_ref EF.write_of self.now) }
    {
        let mut out = Vec::new(alloc);
        put_text(
            alloc,
            &mut out,
            named("access_token"),
            self.access_token.secret(),
        )?;
        put_text(
            alloc,
            &mut out,
            named("token_type"),
            self.token_type.as_ref(),
        )?;
        put_optional_whole(
            alloc,
            &mut out,
            named("expires_in"),
            seconds_of(self.expires_in),
        )?;
        put_optional_text(
            alloc,
            &mut out,
            named("refresh_token"),
            text_of(&self.refresh_token),
        )?;
        let scope = optional_joined(alloc, &self.scopes)?;
        put_optional_text(alloc, &mut out, named("scope"), scope.as_deref())?;
        let mut extra_fields = self.extra_fields.write(alloc)?;
        out.append(&mut extra_fields)?;
        Ok(out)
    }

    /// The compact text of the response, absent fields left out, the extra fields last. Where one of
    /// these holds a float, no clause speaks of the text. `AllocError` is want of memory, the one error.
    pub fn write(&self, alloc: Global) -> Result<Vec<u8>, AllocError>
        ensures text { let members = spec.written_tokens TT.as_ref EF.write_of self.now in
            IfOk result (λ text. any_float members ≡ false → text.items ≡ object_text members) }
    {
        write_object(alloc, &self.members(alloc)?)
    }
}

impl<EF: ExtraTokenFields, TT: TokenType> OAuth2TokenResponse for StandardTokenResponse<EF, TT> {
    type TokenType = TT;

    type ExtraFields = EF;

    ghost read_of = { λ reading. spec.tokens_among TT.read_of (EF.read_of reading) };

    ghost access_token = { λ t. t.access_token };

    ghost token_type = { λ t. t.token_type };

    ghost expires_in = { λ t. t.expires_in };

    ghost refresh_token = { λ t. t.refresh_token };

    ghost scopes = { λ t. t.scopes };

    ghost extra_fields = { λ t. t.extra_fields };

    #[tactic(auto, unfolding(crate::specs::TokenResponse::tokens_among, crate::specs::Slots::slot))]
    fn read(alloc: Global, members: &Members) -> Result<Self, ParseError> {
        let fields = read_fields(alloc, TokenFields::new(), members)?;
        let access_token = fields.access_token.required(alloc, "access_token")?;
        let token_type = fields.token_type.required(alloc, "token_type")?;
        let token_type = TT::read(alloc, token_type.as_str())?;
        let extra_fields = EF::read(alloc, members)?;
        Ok(StandardTokenResponse {
            access_token,
            token_type,
            expires_in: span_of(fields.expires_in.optional()),
            refresh_token: fields.refresh_token.optional(),
            scopes: optional_scopes(alloc, fields.scope.optional())?,
            extra_fields,
        })
    }

    fn access_token(&self) -> &AccessToken {
        &self.access_token
    }

    fn token_type(&self) -> &TT {
        &self.token_type
    }

    fn expires_in(&self) -> Option<Duration> {
        self.expires_in
    }

    fn refresh_token(&self) -> Option<&RefreshToken> {
        self.refresh_token.as_ref()
    }

    fn scopes(&self) -> Option<&[Scope]> {
        match &self.scopes {
            None => None,
            Some(scopes) => Some(scopes.as_slice()),
        }
    }

    fn extra_fields(&self) -> &EF {
        &self.extra_fields
    }
}
