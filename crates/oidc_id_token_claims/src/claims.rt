//! The claims of an ID token (OpenID Connect Core 1.0 sections 2 and 5.1).

ghost use Rattle.std.specs.Prelude.{◌≡◌, None, IfOk, option_map, false};
ghost use Rattle.std.specs.List.{All};
ghost use Rattle.std.specs.Option.{option_copied};
ghost use Rattle.oidc_members.specs.Answers.{Answers};
ghost use Rattle.oidc_members.specs.Write.{any_float};
ghost use Rattle.oidc_readers.specs.WrittenBack.{IsUtf8Member};
ghost use Rattle.oidc_claims.specs.Reader.{reader_of};
ghost use Rattle.oidc_id_token_claims.specs.IdTokenClaims as spec;
ghost use Rattle.oidc_id_token_claims.specs.FieldSlots.{own_fields};
ghost use Rattle.oidc_id_token_claims.specs.RoundTrip.{IsTokenInRange, GivesTokenClaims};

use crate::additional::read_additional;
use crate::token_fields::{OwnClaims, OwnFields};
use crate::written_fields::own_members;
use jiff::Timestamp;
use oidc_claims::{AdditionalClaims, ClaimsReader, GenderClaim, StandardClaims, write_standard};
use oidc_jwt::Payload;
use oidc_members::{Members, OutMember, ParseError};
use oidc_readers::{Both, read_fields};
use oidc_types::{
    AccessTokenHash, Audience, AuthenticationContextClass, AuthenticationMethodReference,
    AuthorizationCodeHash, ClientId, IssuerUrl, Nonce,
};
use std::alloc::{AllocError, Global};
use std::marker::Model;

/// The claims of an ID token: its own fields, the standard claims, and additional claims. Contracts see
/// the issuer as text and URL, and moments as nanoseconds since the Unix epoch.
#[derive(Drop)]
pub struct IdTokenClaims<AC: AdditionalClaims, GC: GenderClaim> {
    pub(crate) own: OwnClaims,
    pub(crate) standard_claims: StandardClaims<GC>,
    pub(crate) additional_claims: AC,
}

impl<AC: AdditionalClaims, GC: GenderClaim> Model for IdTokenClaims<AC, GC> {
    ghost use Rattle.oidc_id_token_claims.specs.IdTokenClaims.{SeenIdTokenClaims};
    ghost use Rattle.oidc_id_token_claims.specs.Codes.{id_token_claims_code};

    ghost Value = { SeenIdTokenClaims AC GC };

    ghost coded = { id_token_claims_code AC.code GC.code };

    ghost view = { λ c. record {
      own = c.own;
      standard_claims = c.standard_claims;
      additional_claims = c.additional_claims;
    } };
}

impl<AC: AdditionalClaims, GC: GenderClaim> IdTokenClaims<AC, GC> {
    ghost use Rattle.std.specs.Borrow.{sem};
    ghost use Rattle.oidc_id_token_claims.specs.Lending.{lends_additional};

    /// Claims with these and no others of an ID token's own. It takes no memory.
    pub fn new(
        issuer: IssuerUrl,
        audiences: Vec<Audience>,
        expiration: Timestamp,
        issue_time: Timestamp,
        standard_claims: StandardClaims<GC>,
        additional_claims: AC,
    ) -> Self
        ensures own { result.own ≡ record {
          issuer = issuer;
          audiences = audiences.items;
          expiration = expiration.nanosecond;
          issue_time = issue_time.nanosecond;
          auth_time = None;
          nonce = None;
          auth_context_ref = None;
          auth_method_refs = None;
          authorized_party = None;
          access_token_hash = None;
          code_hash = None;
        } }
        ensures standard_claims { result.standard_claims ≡ standard_claims }
        ensures additional_claims { result.additional_claims ≡ additional_claims }
    {
        let own = OwnClaims {
            issuer,
            audiences,
            expiration,
            issue_time,
            auth_time: None,
            auth_context_ref: None,
            nonce: None,
            auth_method_refs: None,
            access_token_hash: None,
            code_hash: None,
            authorized_party: None,
        };
        IdTokenClaims {
            own,
            standard_claims,
            additional_claims,
        }
    }

    /// The additional claims.
    pub fn additional_claims(&self) -> &AC
        ensures { result.now ≡ self.now.additional_claims }
    {
        &self.additional_claims
    }

    /// The additional claims, to be changed.
    pub fn additional_claims_mut(&mut self) -> &mut AC
        ensures value { result.now ≡ self.old.additional_claims }
        ensures* writes_back { sem 𝓛 (lends_additional AC.row GC.row
            AC.AdditionalClaims GC.GenderClaim self.entry result) }
    {
        &mut self.additional_claims
    }

    /// `iss`: the issuer, as it was written, and its URL.
    pub fn issuer(&self) -> &IssuerUrl
        ensures { result.now ≡ self.now.own.issuer }
    {
        &self.own.issuer
    }

    /// Changes `iss` alone.
    pub fn set_issuer(mut self, issuer: IssuerUrl) -> Self
        ensures { let own = record self.own { issuer = issuer } in
            result ≡ record self { own = own } }
    {
        self.own.issuer = issuer;
        self
    }

    /// `aud`: whom the token is for.
    pub fn audiences(&self) -> &[Audience]
        ensures { result.now ≡ self.now.own.audiences }
    {
        self.own.audiences.as_slice()
    }

    /// Changes `aud` alone.
    pub fn set_audiences(mut self, audiences: Vec<Audience>) -> Self
        ensures { let own = record self.own { audiences = audiences.items } in
            result ≡ record self { own = own } }
    {
        self.own.audiences = audiences;
        self
    }

    /// `exp`: the moment from which the token is no longer accepted.
    pub fn expiration(&self) -> Timestamp
        ensures { result.nanosecond ≡ self.now.own.expiration }
    {
        self.own.expiration
    }

    /// Changes `exp` alone.
    pub fn set_expiration(mut self, expiration: Timestamp) -> Self
        ensures { let own = record self.own { expiration = expiration.nanosecond } in
            result ≡ record self { own = own } }
    {
        self.own.expiration = expiration;
        self
    }

    /// `iat`: when the token was issued.
    pub fn issue_time(&self) -> Timestamp
        ensures { result.nanosecond ≡ self.now.own.issue_time }
    {
        self.own.issue_time
    }

    /// Changes `iat` alone.
    pub fn set_issue_time(mut self, issue_time: Timestamp) -> Self
        ensures { let own = record self.own { issue_time = issue_time.nanosecond } in
            result ≡ record self { own = own } }
    {
        self.own.issue_time = issue_time;
        self
    }

    /// `auth_time`: when the end user was authenticated.
    pub fn auth_time(&self) -> Option<Timestamp>
        ensures { option_map (λ moment. moment.nanosecond) result ≡ self.now.own.auth_time }
    {
        self.own.auth_time
    }

    /// Changes `auth_time` alone.
    pub fn set_auth_time(mut self, auth_time: Option<Timestamp>) -> Self
        ensures { let auth_time = option_map (λ moment. moment.nanosecond) auth_time in
            let own = record self.own { auth_time = auth_time } in
            result ≡ record self { own = own } }
    {
        self.own.auth_time = auth_time;
        self
    }

    /// `nonce`: the nonce of the authorization request.
    pub fn nonce(&self) -> Option<&Nonce>
        ensures { option_copied result ≡ self.now.own.nonce }
    {
        self.own.nonce.as_ref()
    }

    /// Changes `nonce` alone.
    pub fn set_nonce(mut self, nonce: Option<Nonce>) -> Self
        ensures { let own = record self.own { nonce = nonce } in
            result ≡ record self { own = own } }
    {
        self.own.nonce = nonce;
        self
    }

    /// `acr`: what the authentication satisfied.
    pub fn auth_context_ref(&self) -> Option<&AuthenticationContextClass>
        ensures { option_copied result ≡ self.now.own.auth_context_ref }
    {
        self.own.auth_context_ref.as_ref()
    }

    /// Changes `acr` alone.
    pub fn set_auth_context_ref(
        mut self,
        auth_context_ref: Option<AuthenticationContextClass>,
    ) -> Self
        ensures { let own = record self.own { auth_context_ref = auth_context_ref } in
            result ≡ record self { own = own } }
    {
        self.own.auth_context_ref = auth_context_ref;
        self
    }

    /// `amr`: how the end user was authenticated.
    pub fn auth_method_refs(&self) -> Option<&[AuthenticationMethodReference]>
        ensures { option_copied result ≡ self.now.own.auth_method_refs }
    {
        match &self.own.auth_method_refs {
            None => None,
            Some(texts) => Some(texts.as_slice()),
        }
    }

    /// Changes `amr` alone.
    pub fn set_auth_method_refs(
        mut self,
        auth_method_refs: Option<Vec<AuthenticationMethodReference>>,
    ) -> Self
        ensures { let texts = option_map (λ texts. texts.items) auth_method_refs in
            let own = record self.own { auth_method_refs = texts } in
            result ≡ record self { own = own } }
    {
        self.own.auth_method_refs = auth_method_refs;
        self
    }

    /// `azp`: the party that the token was issued to.
    pub fn authorized_party(&self) -> Option<&ClientId>
        ensures { option_copied result ≡ self.now.own.authorized_party }
    {
        self.own.authorized_party.as_ref()
    }

    /// Changes `azp` alone.
    pub fn set_authorized_party(mut self, authorized_party: Option<ClientId>) -> Self
        ensures { let own = record self.own { authorized_party = authorized_party } in
            result ≡ record self { own = own } }
    {
        self.own.authorized_party = authorized_party;
        self
    }

    /// `at_hash`: the hash of the access token that came with the token.
    pub fn access_token_hash(&self) -> Option<&AccessTokenHash>
        ensures { option_copied result ≡ self.now.own.access_token_hash }
    {
        self.own.access_token_hash.as_ref()
    }

    /// Changes `at_hash` alone.
    pub fn set_access_token_hash(mut self, access_token_hash: Option<AccessTokenHash>) -> Self
        ensures { let own = record self.own { access_token_hash = access_token_hash } in
            result ≡ record self { own = own } }
    {
        self.own.access_token_hash = access_token_hash;
        self
    }

    /// `c_hash`: the hash of the code that came with the token.
    pub fn code_hash(&self) -> Option<&AuthorizationCodeHash>
        ensures { option_copied result ≡ self.now.own.code_hash }
    {
        self.own.code_hash.as_ref()
    }

    /// Changes `c_hash` alone.
    pub fn set_code_hash(mut self, code_hash: Option<AuthorizationCodeHash>) -> Self
        ensures { let own = record self.own { code_hash = code_hash } in
            result ≡ record self { own = own } }
    {
        self.own.code_hash = code_hash;
        self
    }
}

// ---- reading and writing

impl<AC: AdditionalClaims, GC: GenderClaim> IdTokenClaims<AC, GC> {
    // The claims of members none of which is faulty.
    #[tactic(auto, unfolding(crate::specs::IdTokenClaims::parts_in))]
    fn finish(
        alloc: Global,
        own: OwnFields,
        standard: ClaimsReader<GC>,
        members: &Members,
    ) -> Result<Self, ParseError>
        requires own { own ≡ own_fields members.now.reading members.now.list }
        requires standard { standard
            ≡ reader_of GC.read_of members.now.reading members.now.list }
        ensures { let parts = spec.parts_in AC.read_of GC.read_of members.now.reading in
            Answers (parts members.now.list) result }
    {
        match own.finish(alloc, members) {
            Err(error) => {
                drop(standard);
                Err(error)
            }
            Ok(own) => match standard.finish(alloc) {
                Err(error) => {
                    drop(own);
                    Err(error)
                }
                Ok(standard_claims) => match read_additional(alloc, members.as_slice()) {
                    Err(ParseError::Refused(refusal)) => {
                        drop((own, standard_claims));
                        Err(ParseError::Refused(refusal))
                    }
                    Err(ParseError::Memory) => {
                        drop((own, standard_claims));
                        Err(ParseError::Memory)
                    }
                    Ok(additional_claims) => Ok(IdTokenClaims {
                        own,
                        standard_claims,
                        additional_claims,
                    }),
                },
            },
        }
    }
}

impl<AC: AdditionalClaims, GC: GenderClaim> IdTokenClaims<AC, GC> {
    // The members of each part, one after another.
    fn as_members(&self, alloc: Global) -> Result<Vec<OutMember>, AllocError>
        ensures members { let written = spec.id_token_members AC.write_of GC.write_of self.now in
            IfOk result (λ out. out.items ≡ written) }
        ensures texts { IfOk result (λ out. All IsUtf8Member out.items) }
    {
        let mut out = own_members(alloc, &self.own)?;
        let mut standard = write_standard(alloc, &self.standard_claims)?;
        out.append(&mut standard)?;
        let mut additional = self.additional_claims.write(alloc)?;
        out.append(&mut additional)?;
        Ok(out)
    }
}

impl<AC: AdditionalClaims, GC: GenderClaim> Payload for IdTokenClaims<AC, GC> {
    ghost read_of = { spec.id_token_claims_of AC.read_of GC.read_of };

    ghost write_of = { spec.id_token_members AC.write_of GC.write_of };

    /// Reads the claims in one pass over the members, under their reading. It refuses the first
    /// faulty member, be it a field of the token or a standard claim; then the first that is
    /// missing of `iss`, `exp`, `iat` and `sub`; then as the additional claims do.
    ///
    /// A field of the token is faulty that repeats (`Duplicate`) or isn't of its kind (`WrongType`;
    /// `Url` for a text that is no URL; `Moment` for a whole number out of range, and for a text
    /// that is no moment where the reading takes texts). A standard claim is faulty as in
    /// `read_standard`.
    #[tactic(auto, unfolding(crate::specs::IdTokenClaims::id_token_claims_of))]
    fn read(alloc: Global, members: &Members) -> Result<Self, ParseError> {
        let readers = Both {
            first: OwnFields::new(),
            second: ClaimsReader::<GC>::new(alloc),
        };
        let readers = read_fields(alloc, readers, members)?;
        Self::finish(alloc, readers.first, readers.second, members)
    }

    /// The claims as members: the token's own fields in the order of their getters, the standard claims,
    /// then the additional ones. Absent claims are left out, `aud` is an array, and moments are whole
    /// seconds, rounded down.
    ///
    /// Claims are read back from the object's text of what is written, under every reading, where
    /// they are in range: the issuer's URL is that of its text, moments are at whole seconds, the
    /// standard claims are in the range of `write_standard`, and the additional claims give values
    /// that an object may have and no name of an own field.
    fn write(&self, alloc: Global) -> Result<Vec<OutMember>, AllocError>
        ensures members { let written = spec.id_token_members AC.write_of GC.write_of self.now in
            IfOk result (λ out. out.items ≡ written) }
        ensures texts { IfOk result (λ out. All IsUtf8Member out.items) }
        ensures no_float { any_float (AC.write_of self.now.additional_claims) ≡ false
            → IfOk result (λ out. any_float out.items ≡ false) }
        ensures reads_back { IsTokenInRange AC.write_of self.now
            → IfOk result (λ out. GivesTokenClaims AC.read_of GC.read_of out.items self.now) }
    {
        let out = self.as_members(alloc)?;
        Ok(out)
    }
}
