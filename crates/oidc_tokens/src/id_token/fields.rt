//! The ID token of a token response (OpenID Connect Core 1.0 section 3.1.3.3).

ghost use Rattle.std.specs.Prelude.{◌≡◌, [], option_map};
ghost use Rattle.std.specs.Option.{option_copied};
ghost use Rattle.oidc_members.specs.Answers.{Answers};
ghost use Rattle.oidc_readers.specs.Fields.{judged};
ghost use Rattle.oidc_readers.specs.Slots.{slot};
ghost use Rattle.oidc_jwt.specs.Tokens.{token_of};
ghost use Rattle.oidc_id_token_claims.specs.IdTokenClaims.{id_token_claims_of};
ghost use Rattle.oidc_tokens.specs.IdTokenFields as spec;

use crate::id_token::IdToken;
use oidc_claims::{AdditionalClaims, GenderClaim};
use oidc_members::{Member, Members, OutMember, ParseError, ParseKind, Reading};
use oidc_oauth2::ExtraTokenFields;
use oidc_readers::{
    FieldValue, MemberReader, Once, named, put_optional_text, read_fields, refused,
};
use oidc_types::{JweContentEncryptionAlgorithm, JwsSigningAlgorithm};
use std::alloc::{AllocError, Global};
use std::marker::Model;

/// A text that is an ID token, under the reading. A refusal inside it has the kind and the field
/// that it names.
impl<
    AC: AdditionalClaims,
    GC: GenderClaim,
    JE: JweContentEncryptionAlgorithm,
    JS: JwsSigningAlgorithm,
> FieldValue for IdToken<AC, GC, JE, JS> {
    ghost read_of = { λ reading. spec.token_kind (token_of JE.from_str JS.from_str
        (id_token_claims_of AC.read_of GC.read_of reading)) };

    fn read(alloc: Global, member: &Member, reading: Reading) -> Result<Self, ParseError> {
        match member.value().as_str() {
            None => Err(refused(alloc, ParseKind::WrongType, member.name())),
            Some(text) => IdToken::from_str_with(alloc, text, reading),
        }
    }
}

/// The fields of a token response beside those of RFC 6749: its ID token, where it has one, and further
/// fields of a caller's own.
#[derive(Drop)]
pub struct IdTokenFields<
    AC: AdditionalClaims,
    EF: ExtraTokenFields,
    GC: GenderClaim,
    JE: JweContentEncryptionAlgorithm,
    JS: JwsSigningAlgorithm,
> {
    id_token: Option<IdToken<AC, GC, JE, JS>>,
    extra_fields: EF,
}

impl<
    AC: AdditionalClaims,
    EF: ExtraTokenFields,
    GC: GenderClaim,
    JE: JweContentEncryptionAlgorithm,
    JS: JwsSigningAlgorithm,
> Model for IdTokenFields<AC, EF, GC, JE, JS> {
    ghost use Rattle.std.specs.Coded.{codes};
    ghost use Rattle.oidc_id_token_claims.specs.Codes.{id_token_claims_code};
    ghost use Rattle.oidc_jwt.specs.Tokens.{SeenToken};
    ghost use Rattle.oidc_id_token_claims.specs.IdTokenClaims.{SeenIdTokenClaims};
    ghost use Rattle.oidc_tokens.specs.IdTokenFields.{SeenIdTokenFields};

    ghost Value = { SeenIdTokenFields (SeenToken JE JS (SeenIdTokenClaims AC GC)) EF };

    ghost coded = { Prim.hlevel (codes, id_token_claims_code AC.code GC.code) };

    ghost view = { λ f. record { id_token = f.id_token; extra_fields = f.extra_fields } };
}

impl<
    AC: AdditionalClaims,
    EF: ExtraTokenFields,
    GC: GenderClaim,
    JE: JweContentEncryptionAlgorithm,
    JS: JwsSigningAlgorithm,
> IdTokenFields<AC, EF, GC, JE, JS> {
    /// These fields. It takes no memory.
    pub fn new(id_token: Option<IdToken<AC, GC, JE, JS>>, extra_fields: EF) -> Self
        ensures { result ≡ record { id_token = id_token; extra_fields = extra_fields } }
    {
        IdTokenFields {
            id_token,
            extra_fields,
        }
    }

    /// The ID token, where there is one.
    pub fn id_token(&self) -> Option<&IdToken<AC, GC, JE, JS>>
        ensures { option_copied result ≡ self.now.id_token }
    {
        self.id_token.as_ref()
    }

    /// The fields beside it.
    pub fn extra_fields(&self) -> &EF
        ensures { result.now ≡ self.now.extra_fields }
    {
        &self.extra_fields
    }

    // The text of the ID token, where there is one.
    fn token_text(&self) -> Option<&str>
        ensures { option_copied result ≡ option_map (λ token. token.text) self.now.id_token }
    {
        match &self.id_token {
            None => None,
            Some(id_token) => Some(id_token.token().as_str()),
        }
    }
}

// The ID token, as it is read.
#[derive(Drop)]
pub(crate) struct IdTokenSlot<
    AC: AdditionalClaims,
    GC: GenderClaim,
    JE: JweContentEncryptionAlgorithm,
    JS: JwsSigningAlgorithm,
> {
    id_token: Once<Option<IdToken<AC, GC, JE, JS>>>,
}

impl<
    AC: AdditionalClaims,
    GC: GenderClaim,
    JE: JweContentEncryptionAlgorithm,
    JS: JwsSigningAlgorithm,
> MemberReader for IdTokenSlot<AC, GC, JE, JS> {
    ghost fault = { λ reading. judged (spec.id_token (token_of JE.from_str JS.from_str
        (id_token_claims_of AC.read_of GC.read_of reading))) };

    ghost state = { λ reading members. record {
      id_token = slot (spec.id_token (token_of JE.from_str JS.from_str
          (id_token_claims_of AC.read_of GC.read_of reading))) members;
    } };

    fn take(&mut self, alloc: Global, member: &Member, reading: Reading) -> Result<(), ParseError> {
        self.id_token.take_under(alloc, "id_token", member, reading)
    }
}

/// The ID token is read under the members' reading where its member stands, then the other fields
/// are. It is written as its text, before the other fields.
impl<
    AC: AdditionalClaims,
    EF: ExtraTokenFields,
    GC: GenderClaim,
    JE: JweContentEncryptionAlgorithm,
    JS: JwsSigningAlgorithm,
> ExtraTokenFields for IdTokenFields<AC, EF, GC, JE, JS> {
    ghost read_of = { λ reading. spec.response_fields_of (token_of JE.from_str JS.from_str
        (id_token_claims_of AC.read_of GC.read_of reading)) (EF.read_of reading) };

    ghost write_of = { spec.response_fields_out EF.write_of };

    #[tactic(auto, unfolding(crate::specs::IdTokenFields::response_fields_of, // and what a slot holds
    oidc_readers::specs::Slots::slot))]
    fn read(alloc: Global, members: &Members) -> Result<Self, ParseError> {
        let slot: IdTokenSlot<AC, GC, JE, JS> = IdTokenSlot {
            id_token: Once::new(),
        };
        let fields = read_fields(alloc, slot, members)?;
        match EF::read(alloc, members) {
            Err(error) => {
                drop(fields);
                Err(error)
            }
            Ok(extra_fields) => Ok(IdTokenFields {
                id_token: fields.id_token.optional(),
                extra_fields,
            }),
        }
    }

    fn write(&self, alloc: Global) -> Result<Vec<OutMember>, AllocError> {
        let mut members = Vec::new(alloc);
        put_optional_text(alloc, &mut members, named("id_token"), self.token_text())?;
        let mut extra_fields = self.extra_fields.write(alloc)?;
        members.append(&mut extra_fields)?;
        Ok(members)
    }
}
