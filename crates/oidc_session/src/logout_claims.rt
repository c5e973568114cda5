//! The claims of a logout token (OpenID Connect Back-Channel Logout 1.0 section 2.4).

ghost use Rattle.std.specs.Prelude.{◌≡◌, [], None, Some, option_map, option_and_then};
ghost use Rattle.std.specs.Option.{option_copied};
ghost use Rattle.serde_json.specs.View.{view};
ghost use Rattle.oidc_members.specs.Answers.{Answers};
ghost use Rattle.oidc_readers.specs.Slots.{slot};
ghost use Rattle.oidc_session.specs.LogoutClaims as spec;
ghost use Rattle.oidc_session.specs.LogoutClaims.{needed_of, logout_claims_of};
ghost use Rattle.oidc_session.specs.LogoutFields.{logout_fields};
ghost use Rattle.oidc_session.specs.LogoutTokens.{logout_of, names_somebody};
ghost use Rattle.oidc_session.specs.Sessions.{is_asked, ends_session};

use crate::session::{ProviderSession, Session};
use jiff::Timestamp;
use oidc_members::{Member, Members, OutMember, ParseError, ParseKind, Reading};
use oidc_readers::{
    FieldValue, MemberReader, Moment, Once, Present, TextOrTexts, read_fields, refused,
};
use oidc_tokens::Payload;
use oidc_types::{Audience, AudienceMarker, IssuerUrl, Marker, SubjectIdentifier, Text};
use serde_json::Value;
use std::alloc::{AllocError, Global};
use std::marker::Model;

/// The name of [`TokenId`].
#[derive(Drop)]
pub(crate) struct TokenIdMarker;

impl Marker for TokenIdMarker {
    ghost use Rattle.std.specs.Prelude.{codes};

    ghost name = { codes "TokenId" };

    fn name() -> &'static str {
        "TokenId"
    }
}

/// The id of a token, the claim `jti` (RFC 7519 section 4.1.7).
pub(crate) type TokenId = Text<TokenIdMarker>;

// What a token is a token of. Of its events is kept whether they hold that of a logout, which is what contracts see.
#[derive(Drop)]
pub(crate) struct LogoutEvents {
    is_logout: bool,
}

impl Model for LogoutEvents {
    ghost use Rattle.std.specs.Prelude.{Bool};

    ghost Value = { Bool };

    ghost view = { λ e. e.is_logout };
}

// Whether these events hold that of a logout, with an object as its value.
fn names_logout(events: &Value) -> bool
    ensures { result ≡ spec.names_logout (view events.now) }
{
    match events.get("http://schemas.openid.net/event/backchannel-logout") {
        Some(event) => event.is_object(),
        None => false,
    }
}

impl FieldValue for LogoutEvents {
    ghost read_of = { λ _. spec.events_kind };

    fn read(alloc: Global, member: &Member, _reading: Reading) -> Result<LogoutEvents, ParseError> {
        if !member.value().is_object() {
            return Err(refused(alloc, ParseKind::WrongType, member.name()));
        }
        Ok(LogoutEvents {
            is_logout: names_logout(member.value()),
        })
    }
}

// The claims that have to be there, but for `iat`, which isn't judged.
#[derive(Drop)]
struct Needed {
    issuer: IssuerUrl,
    audiences: Vec<Audience>,
    expiration: Timestamp,
    token_id: TokenId,
    names_logout: bool,
}

impl Model for Needed {
    ghost use Rattle.oidc_session.specs.LogoutClaims.{Needed as SeenNeeded};
    ghost use Rattle.oidc_session.specs.Codes.{needed_code};

    ghost Value = { SeenNeeded };

    ghost coded = { needed_code };

    ghost view = { λ n. record {
      issuer = n.issuer;
      audiences = n.audiences.items;
      expiration = n.expiration.nanosecond;
      token_id = n.token_id;
      names_logout = n.names_logout;
    } };
}

// The claims of a logout token, not judged yet.
#[derive(Drop)]
pub(crate) struct LogoutClaims {
    needed: Needed,
    subject: Option<SubjectIdentifier>,
    provider_session: Option<ProviderSession>,
    has_nonce: bool,
}

impl Model for LogoutClaims {
    ghost use Rattle.oidc_session.specs.LogoutClaims.{SeenLogoutClaims};
    ghost use Rattle.oidc_session.specs.Codes.{logout_claims_code};

    ghost Value = { SeenLogoutClaims };

    ghost coded = { logout_claims_code };

    ghost view = { λ c. record {
      needed = c.needed;
      subject = c.subject;
      provider_session = c.provider_session;
      has_nonce = c.has_nonce;
    } };
}

impl LogoutClaims {
    pub(crate) fn issuer(&self) -> &IssuerUrl
        ensures { result.now ≡ self.now.needed.issuer }
    {
        &self.needed.issuer
    }

    pub(crate) fn audiences(&self) -> &[Audience]
        ensures { result.now ≡ self.now.needed.audiences }
    {
        self.needed.audiences.as_slice()
    }

    pub(crate) fn expiration(&self) -> Timestamp
        ensures { result.nanosecond ≡ self.now.needed.expiration }
    {
        self.needed.expiration
    }

    // Whether its events hold that of a logout.
    pub(crate) fn names_logout(&self) -> bool
        ensures { result ≡ self.now.needed.names_logout }
    {
        self.needed.names_logout
    }

    pub(crate) fn token_id(&self) -> &TokenId
        ensures { result.now ≡ self.now.needed.token_id }
    {
        &self.needed.token_id
    }

    // Whether it has a nonce.
    pub(crate) fn has_nonce(&self) -> bool
        ensures { result ≡ self.now.has_nonce }
    {
        self.has_nonce
    }

    // Whether it names a subject or a session of the provider.
    pub(crate) fn names_somebody(&self) -> bool
        ensures { result ≡ names_somebody self.now }
    {
        self.subject.is_some() || self.provider_session.is_some()
    }

    // The logout that it is.
    pub(crate) fn into_logout(self) -> Logout
        ensures { result ≡ logout_of self }
    {
        Logout {
            subject: self.subject,
            provider_session: self.provider_session,
            token_id: self.needed.token_id,
        }
    }
}

// A logout: whose sessions end, or which session of the provider, and the id of its token.
#[derive(Drop)]
pub(crate) struct Logout {
    pub(crate) subject: Option<SubjectIdentifier>,
    pub(crate) provider_session: Option<ProviderSession>,
    pub(crate) token_id: TokenId,
}

impl Model for Logout {
    ghost use Rattle.oidc_session.specs.Sessions.{SeenLogout};
    ghost use Rattle.oidc_session.specs.Codes.{logout_code};

    ghost Value = { SeenLogout };

    ghost coded = { logout_code };

    ghost view = { λ l. record {
      subject = l.subject;
      provider_session = l.provider_session;
      token_id = l.token_id;
    } };
}

impl Logout {
    // Whether it names this session.
    pub(crate) fn names(&self, session: &Session) -> bool
        ensures { result ≡ ends_session self.now session.now }
    {
        is_asked_subject(self.subject.as_ref(), session.subject())
            && is_asked_session(self.provider_session.as_ref(), session.provider_session())
    }
}

// Whether no subject is asked, or this one.
fn is_asked_subject(asked: Option<&SubjectIdentifier>, subject: &SubjectIdentifier) -> bool
    ensures { result ≡ is_asked (option_copied asked.entry) (Some subject.now) }
{
    match asked {
        None => true,
        Some(asked) => asked.as_str() == subject.as_str(),
    }
}

// Whether no session of the provider is asked, or this one.
fn is_asked_session(asked: Option<&ProviderSession>, found: Option<&ProviderSession>) -> bool
    ensures { result ≡ is_asked (option_copied asked.entry) (option_copied found.entry) }
{
    match asked {
        None => true,
        Some(asked) => match found {
            None => false,
            Some(found) => asked.as_str() == found.as_str(),
        },
    }
}

// The fields, as they are read.
#[derive(Drop)]
pub(crate) struct LogoutFields {
    iss: Once<IssuerUrl>,
    aud: Once<TextOrTexts<AudienceMarker>>,
    iat: Once<Moment>,
    exp: Once<Moment>,
    jti: Once<TokenId>,
    events: Once<LogoutEvents>,
    sub: Once<Option<SubjectIdentifier>>,
    sid: Once<Option<ProviderSession>>,
    nonce: Once<Option<Present>>,
}

impl LogoutFields {
    #[tactic(auto, unfolding(oidc_readers::specs::Slots::slot))]
    fn new() -> Self
        ensures { result ≡ logout_fields [] }
    {
        LogoutFields {
            iss: Once::new(),
            aud: Once::new(),
            iat: Once::new(),
            exp: Once::new(),
            jti: Once::new(),
            events: Once::new(),
            sub: Once::new(),
            sid: Once::new(),
            nonce: Once::new(),
        }
    }
}

impl MemberReader for LogoutFields {
    ghost fault = { λ _. spec.logout_rule };

    ghost state = { λ _. logout_fields };

    fn take(
        &mut self,
        alloc: Global,
        member: &Member,
        _reading: Reading,
    ) -> Result<(), ParseError> {
        self.iss
            .take(alloc, "iss", member)
            .and(self.aud.take(alloc, "aud", member))
            .and(self.iat.take(alloc, "iat", member))
            .and(self.exp.take(alloc, "exp", member))
            .and(self.jti.take(alloc, "jti", member))
            .and(self.events.take(alloc, "events", member))
            .and(self.sub.take(alloc, "sub", member))
            .and(self.sid.take(alloc, "sid", member))
            .and(self.nonce.take(alloc, "nonce", member))
    }
}

// The slots of the fields that have to be there.
#[derive(Drop)]
struct NeededFields {
    iss: Once<IssuerUrl>,
    aud: Once<TextOrTexts<AudienceMarker>>,
    iat: Once<Moment>,
    exp: Once<Moment>,
    jti: Once<TokenId>,
    events: Once<LogoutEvents>,
}

// The claims that have to be there.
#[tactic(auto, unfolding(crate::specs::LogoutClaims::needed_of, oidc_readers::specs::Slots::slot))]
fn needed_in(alloc: Global, fields: NeededFields, _members: &Members) -> Result<Needed, ParseError>
    requires iss { fields.iss ≡ slot spec.iss _members.now.list }
    requires aud { fields.aud ≡ slot spec.aud _members.now.list }
    requires iat { fields.iat ≡ slot spec.iat _members.now.list }
    requires exp { fields.exp ≡ slot spec.exp _members.now.list }
    requires jti { fields.jti ≡ slot spec.jti _members.now.list }
    requires events { fields.events ≡ slot spec.events _members.now.list }
    ensures { Answers (needed_of _members.now.list) result }
{
    let issuer = fields.iss.required(alloc, "iss")?;
    let audiences = fields.aud.required(alloc, "aud")?;
    fields.iat.required(alloc, "iat")?;
    let expiration = fields.exp.required(alloc, "exp")?;
    let token_id = fields.jti.required(alloc, "jti")?;
    let events = fields.events.required(alloc, "events")?;
    Ok(Needed {
        issuer,
        audiences: audiences.into_vec(),
        expiration: expiration.timestamp(),
        token_id,
        names_logout: events.is_logout,
    })
}

// The claims that these members are.
#[tactic(auto, unfolding(crate::specs::LogoutClaims::logout_claims_of, oidc_readers::specs::Slots::slot))]
fn claims_in(alloc: Global, members: &Members) -> Result<LogoutClaims, ParseError>
    ensures { Answers (logout_claims_of members.now.list) result }
{
    let LogoutFields {
        iss,
        aud,
        iat,
        exp,
        jti,
        events,
        sub,
        sid,
        nonce,
    } = read_fields(alloc, LogoutFields::new(), members)?;
    let fields = NeededFields {
        iss,
        aud,
        iat,
        exp,
        jti,
        events,
    };
    let needed = needed_in(alloc, fields, members)?;
    Ok(LogoutClaims {
        needed,
        subject: sub.optional(),
        provider_session: sid.optional(),
        has_nonce: nonce.optional().is_some(),
    })
}

/// Logout tokens are read alone: none is issued here, so that nothing is written of one.
impl Payload for LogoutClaims {
    ghost read_of = { λ _. logout_claims_of };

    ghost write_of = { λ _. [] };

    fn read(alloc: Global, members: &Members) -> Result<LogoutClaims, ParseError> {
        claims_in(alloc, members)
    }

    fn write(&self, alloc: Global) -> Result<Vec<OutMember>, AllocError> {
        Ok(Vec::new(alloc))
    }
}
