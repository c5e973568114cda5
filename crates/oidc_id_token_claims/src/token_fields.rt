// The fields of an ID token that are no standard claims (OpenID Connect Core 1.0 section 2).

ghost use Rattle.std.specs.Prelude.{◌≡◌, [], option_map};
ghost use Rattle.oidc_members.specs.Answers.{Answers};
ghost use Rattle.oidc_members.specs.declared.reading.Reading.{Reading};
ghost use Rattle.oidc_readers.specs.Slots.{slot};
ghost use Rattle.oidc_id_token_claims.specs.TokenFields as spec;
ghost use Rattle.oidc_id_token_claims.specs.TokenFields.{own_of, needed_of};
ghost use Rattle.oidc_id_token_claims.specs.FieldSlots.{own_fields};

use jiff::Timestamp;
use oidc_members::{Member, Members, ParseError, Reading};
use oidc_readers::{MemberReader, Moment, Once, TextOrTexts, Texts, timestamp_of};
use oidc_types::{
    AccessTokenHash, Audience, AudienceMarker, AuthenticationContextClass,
    AuthenticationMethodReference, AuthenticationMethodReferenceMarker, AuthorizationCodeHash,
    ClientId, IssuerUrl, Nonce,
};
use std::alloc::Global;
use std::marker::Model;

// Contracts see moments as nanoseconds since the Unix epoch.
#[derive(Drop)]
pub(crate) struct OwnClaims {
    pub(crate) issuer: IssuerUrl,
    pub(crate) audiences: Vec<Audience>,
    pub(crate) expiration: Timestamp,
    pub(crate) issue_time: Timestamp,
    pub(crate) auth_time: Option<Timestamp>,
    pub(crate) nonce: Option<Nonce>,
    pub(crate) auth_context_ref: Option<AuthenticationContextClass>,
    pub(crate) auth_method_refs: Option<Vec<AuthenticationMethodReference>>,
    pub(crate) authorized_party: Option<ClientId>,
    pub(crate) access_token_hash: Option<AccessTokenHash>,
    pub(crate) code_hash: Option<AuthorizationCodeHash>,
}

impl Model for OwnClaims {
    ghost use Rattle.std.specs.Prelude.{option_map};
    ghost use Rattle.oidc_id_token_claims.specs.TokenFields.{SeenOwnClaims};
    ghost use Rattle.oidc_id_token_claims.specs.Codes.{own_code};

    ghost Value = { SeenOwnClaims };

    ghost coded = { own_code };

    ghost view = { λ c. record {
      issuer = c.issuer;
      audiences = c.audiences.items;
      expiration = c.expiration.nanosecond;
      issue_time = c.issue_time.nanosecond;
      auth_time = option_map (λ moment. moment.nanosecond) c.auth_time;
      nonce = c.nonce;
      auth_context_ref = c.auth_context_ref;
      auth_method_refs = option_map (λ texts. texts.items) c.auth_method_refs;
      authorized_party = c.authorized_party;
      access_token_hash = c.access_token_hash;
      code_hash = c.code_hash;
    } };
}

// The fields, as they are read.
#[derive(Drop)]
pub(crate) struct OwnFields {
    iss: Once<IssuerUrl>,
    aud: Once<TextOrTexts<AudienceMarker>>,
    exp: Once<Moment>,
    iat: Once<Moment>,
    auth_time: Once<Option<Moment>>,
    nonce: Once<Option<Nonce>>,
    acr: Once<Option<AuthenticationContextClass>>,
    amr: Once<Option<Texts<AuthenticationMethodReferenceMarker>>>,
    azp: Once<Option<ClientId>>,
    at_hash: Once<Option<AccessTokenHash>>,
    c_hash: Once<Option<AuthorizationCodeHash>>,
}

// The fields that have to be there.
#[derive(Drop)]
struct Needed {
    issuer: IssuerUrl,
    expiration: Moment,
    issue_time: Moment,
}

impl Model for Needed {
    ghost use Rattle.oidc_id_token_claims.specs.TokenFields.{Needed as SeenNeeded};
    ghost use Rattle.oidc_id_token_claims.specs.Codes.{needed_code};

    ghost Value = { SeenNeeded };

    ghost coded = { needed_code };

    ghost view = { λ n. record {
      issuer = n.issuer;
      expiration = n.expiration;
      issue_time = n.issue_time;
    } };
}

impl OwnFields {
    #[tactic(auto, unfolding(oidc_readers::specs::Slots::slot))]
    pub(crate) fn new() -> Self
        ensures { (reading : Reading) → result ≡ own_fields reading [] }
    {
        OwnFields {
            iss: Once::new(),
            aud: Once::new(),
            exp: Once::new(),
            iat: Once::new(),
            auth_time: Once::new(),
            nonce: Once::new(),
            acr: Once::new(),
            amr: Once::new(),
            azp: Once::new(),
            at_hash: Once::new(),
            c_hash: Once::new(),
        }
    }

    // The fields in the end.
    #[tactic(auto, unfolding(crate::specs::TokenFields::own_of, oidc_readers::specs::Slots::slot))]
    pub(crate) fn finish(self, alloc: Global, members: &Members) -> Result<OwnClaims, ParseError>
        requires { self ≡ own_fields members.now.reading members.now.list }
        ensures { Answers (own_of members.now.reading members.now.list) result }
    {
        let there = needed_in(alloc, self.iss, self.exp, self.iat, members)?;
        Ok(OwnClaims {
            issuer: there.issuer,
            audiences: self.aud.or(TextOrTexts::none(alloc)).into_vec(),
            expiration: there.expiration.timestamp(),
            issue_time: there.issue_time.timestamp(),
            auth_time: timestamp_of(self.auth_time.optional()),
            nonce: self.nonce.optional(),
            auth_context_ref: self.acr.optional(),
            auth_method_refs: vec_of(self.amr.optional()),
            authorized_party: self.azp.optional(),
            access_token_hash: self.at_hash.optional(),
            code_hash: self.c_hash.optional(),
        })
    }
}

#[tactic(auto, unfolding(crate::specs::TokenFields::needed_of, oidc_readers::specs::Slots::slot))]
fn needed_in(
    alloc: Global,
    iss: Once<IssuerUrl>,
    exp: Once<Moment>,
    iat: Once<Moment>,
    _members: &Members,
) -> Result<Needed, ParseError>
    requires iss { iss ≡ slot spec.iss _members.now.list }
    requires exp { exp ≡ slot (spec.exp _members.now.reading) _members.now.list }
    requires iat { iat ≡ slot (spec.iat _members.now.reading) _members.now.list }
    ensures { Answers (needed_of _members.now.reading _members.now.list) result }
{
    let issuer = iss.required(alloc, "iss")?;
    let expiration = exp.required(alloc, "exp")?;
    let issue_time = iat.required(alloc, "iat")?;
    Ok(Needed {
        issuer,
        expiration,
        issue_time,
    })
}

fn vec_of(
    texts: Option<Texts<AuthenticationMethodReferenceMarker>>,
) -> Option<Vec<AuthenticationMethodReference>>
    ensures { option_map (λ texts. texts.items) result ≡ texts }
{
    match texts {
        None => None,
        Some(texts) => Some(texts.into_vec()),
    }
}

impl MemberReader for OwnFields {
    ghost fault = { spec.own_rule };

    ghost state = { own_fields };

    fn take(&mut self, alloc: Global, member: &Member, reading: Reading) -> Result<(), ParseError> {
        self.iss
            .take_under(alloc, "iss", member, reading)
            .and(self.aud.take_under(alloc, "aud", member, reading))
            .and(self.exp.take_under(alloc, "exp", member, reading))
            .and(self.iat.take_under(alloc, "iat", member, reading))
            .and(
                self.auth_time
                    .take_under(alloc, "auth_time", member, reading),
            )
            .and(self.nonce.take_under(alloc, "nonce", member, reading))
            .and(self.acr.take_under(alloc, "acr", member, reading))
            .and(self.amr.take_under(alloc, "amr", member, reading))
            .and(self.azp.take_under(alloc, "azp", member, reading))
            .and(self.at_hash.take_under(alloc, "at_hash", member, reading))
            .and(self.c_hash.take_under(alloc, "c_hash", member, reading))
    }
}
