//! The claims of a user info answer (OpenID Connect Core 1.0 sections 5.1 and 5.3.2).

ghost use Rattle.std.specs.Prelude.{◌≡◌, ◌++◌, None, IfOk, option_map, false};
ghost use Rattle.std.specs.List.{All};
ghost use Rattle.std.specs.Option.{option_copied};
ghost use Rattle.oidc_members.specs.Answers.{Answers};
ghost use Rattle.oidc_members.specs.Write.{any_float};
ghost use Rattle.oidc_readers.specs.WrittenBack.{IsUtf8Member};
ghost use Rattle.oidc_claims.specs.Home.{user_info_fields};
ghost use Rattle.oidc_claims.specs.Reader.{reader_of};
ghost use Rattle.oidc_id_token_claims.specs.IdTokenClaims.{additional_among};
ghost use Rattle.oidc_user_info.specs.UserInfoClaims as spec;
ghost use Rattle.oidc_user_info.specs.IssuerAndAudience.{issuer_and_audience};
ghost use Rattle.oidc_user_info.specs.RoundTrip.{IsInfoInRange, GivesInfoClaims};

mod issuer_and_audience;
mod standard;

use crate::claims::issuer_and_audience::IssuerAndAudience;
use oidc_claims::{
    AdditionalClaims, ClaimsReader, GenderClaim, StandardClaims, USER_INFO_FIELDS, write_standard,
};
use oidc_members::{Member, Members, OutMember, ParseError};
use oidc_readers::{Both, named, put_optional_text, put_texts, read_fields};
use oidc_tokens::{AudiencesClaim, IssuerClaim, Payload, additional_copies};
use oidc_types::{Audience, IssuerUrl};
use std::alloc::{AllocError, Global};
use std::marker::Model;

/// The claims of a user info answer: the issuer and the audience, where they are said, the standard claims,
/// and additional claims. Contracts see the issuer as text and URL.
///
/// They have no `Debug`, since they are about a person.
#[derive(Drop)]
pub struct UserInfoClaims<AC: AdditionalClaims, GC: GenderClaim> {
    issuer: Option<IssuerUrl>,
    audiences: Option<Vec<Audience>>,
    standard_claims: StandardClaims<GC>,
    additional_claims: AC,
}

impl<AC: AdditionalClaims, GC: GenderClaim> Model for UserInfoClaims<AC, GC> {
    ghost use Rattle.std.specs.Prelude.{option_map};
    ghost use Rattle.oidc_user_info.specs.UserInfoClaims.{SeenUserInfoClaims};
    ghost use Rattle.oidc_user_info.specs.Codes.{user_info_claims_code};

    ghost Value = { SeenUserInfoClaims AC GC };

    ghost coded = { user_info_claims_code AC.code GC.code };

    ghost view = { λ c. record {
      issuer = c.issuer;
      audiences = option_map (λ texts. texts.items) c.audiences;
      standard_claims = c.standard_claims;
      additional_claims = c.additional_claims;
    } };
}

impl<AC: AdditionalClaims, GC: GenderClaim> UserInfoClaims<AC, GC> {
    ghost use Rattle.std.specs.Borrow.{sem};
    ghost use Rattle.oidc_user_info.specs.Lending.{lends_additional};

    /// Claims that name neither an issuer nor an audience. It takes no memory.
    pub fn new(standard_claims: StandardClaims<GC>, additional_claims: AC) -> Self
        ensures { result ≡ record {
          issuer = None;
          audiences = None;
          standard_claims = standard_claims;
          additional_claims = additional_claims;
        } }
    {
        UserInfoClaims {
            issuer: None,
            audiences: None,
            standard_claims,
            additional_claims,
        }
    }

    /// `iss`: the issuer, as it was written, and its URL.
    pub fn issuer(&self) -> Option<&IssuerUrl>
        ensures { option_copied result ≡ self.now.issuer }
    {
        self.issuer.as_ref()
    }

    /// Changes `iss` alone.
    pub fn set_issuer(mut self, issuer: Option<IssuerUrl>) -> Self
        ensures { result ≡ record self { issuer = issuer } }
    {
        self.issuer = issuer;
        self
    }

    /// `aud`: whom the claims are for.
    pub fn audiences(&self) -> Option<&[Audience]>
        ensures { option_copied result ≡ self.now.audiences }
    {
        match &self.audiences {
            None => None,
            Some(audiences) => Some(audiences.as_slice()),
        }
    }

    /// Changes `aud` alone.
    pub fn set_audiences(mut self, audiences: Option<Vec<Audience>>) -> Self
        ensures { let audiences = option_map (λ texts. texts.items) audiences in
            result ≡ record self { audiences = audiences } }
    {
        self.audiences = audiences;
        self
    }

    /// The standard claims.
    pub fn standard_claims(&self) -> &StandardClaims<GC>
        ensures { result.now ≡ self.now.standard_claims }
    {
        &self.standard_claims
    }

    /// The additional claims.
    pub fn additional_claims(&self) -> &AC
        ensures { result.now ≡ self.now.additional_claims }
    {
        &self.additional_claims
    }

    /// The additional claims, to be changed.
    pub fn additional_claims_mut(&mut self) -> &mut AC
        ensures value { result.now ≡ self.old.additional_claims }
        ensures* writes_back { sem 𝓛 (lends_additional AC.row GC.row
            AC.AdditionalClaims GC.GenderClaim self.entry result) }
    {
        &mut self.additional_claims
    }
}

impl<AC: AdditionalClaims, GC: GenderClaim> AudiencesClaim for UserInfoClaims<AC, GC> {
    ghost audiences = { λ claims. claims.audiences };

    fn audiences(&self) -> Option<&[Audience]> {
        UserInfoClaims::audiences(self)
    }
}

impl<AC: AdditionalClaims, GC: GenderClaim> AudiencesClaim for &UserInfoClaims<AC, GC> {
    ghost audiences = { λ claims. claims.now.audiences };

    fn audiences(&self) -> Option<&[Audience]> {
        UserInfoClaims::audiences(*self)
    }
}

impl<AC: AdditionalClaims, GC: GenderClaim> IssuerClaim for UserInfoClaims<AC, GC> {
    ghost issuer = { λ claims. claims.issuer };

    fn issuer(&self) -> Option<&IssuerUrl> {
        UserInfoClaims::issuer(self)
    }
}

impl<AC: AdditionalClaims, GC: GenderClaim> IssuerClaim for &UserInfoClaims<AC, GC> {
    ghost issuer = { λ claims. claims.now.issuer };

    fn issuer(&self) -> Option<&IssuerUrl> {
        UserInfoClaims::issuer(*self)
    }
}

// ---- reading and writing

// The additional claims of these members.
fn read_additional<AC: AdditionalClaims>(
    alloc: Global,
    members: &[Member],
) -> Result<AC, ParseError>
    ensures { Answers (AC.read_of (additional_among user_info_fields members.now)) result }
{
    let copies = additional_copies(alloc, members, &USER_INFO_FIELDS)?;
    AC::read(alloc, copies.as_slice())
}

impl<AC: AdditionalClaims, GC: GenderClaim> UserInfoClaims<AC, GC> {
    // The claims of members none of which is faulty.
    #[tactic(auto, unfolding(crate::specs::UserInfoClaims::parts_in, oidc_readers::specs::Slots::slot))]
    fn finish(
        alloc: Global,
        own: IssuerAndAudience,
        standard: ClaimsReader<GC>,
        members: &Members,
    ) -> Result<Self, ParseError>
        requires own { own ≡ issuer_and_audience members.now.list }
        requires standard { standard
            ≡ reader_of GC.read_of members.now.reading members.now.list }
        ensures { let parts = spec.parts_in AC.read_of GC.read_of members.now.reading in
            Answers (parts members.now.list) result }
    {
        match standard.finish(alloc) {
            Err(error) => {
                drop(own);
                Err(error)
            }
            Ok(standard_claims) => match read_additional(alloc, members.as_slice()) {
                Err(ParseError::Refused(refusal)) => {
                    drop((own, standard_claims));
                    Err(ParseError::Refused(refusal))
                }
                Err(ParseError::Memory) => {
                    drop((own, standard_claims));
                    Err(ParseError::Memory)
                }
                Ok(additional_claims) => {
                    let (issuer, audiences) = own.into_parts();
                    Ok(UserInfoClaims {
                        issuer,
                        audiences,
                        standard_claims,
                        additional_claims,
                    })
                }
            },
        }
    }
}

// How many members there is room for at once: these fields, and some claims behind them.
const ROOM: usize = 8;

// The fields that are no claims, as members, absent ones left out.
fn issuer_and_audience_members(
    alloc: Global,
    issuer: Option<&IssuerUrl>,
    audiences: Option<&[Audience]>,
) -> Result<Vec<OutMember>, AllocError>
    ensures members { let members = spec.issuer_and_audience_members (option_copied issuer.entry)
        (option_copied audiences.entry) in IfOk result (λ out. out.items ≡ members) }
    ensures texts { IfOk result (λ out. All IsUtf8Member out.items) }
{
    let mut out = Vec::with_capacity(alloc, ROOM)?;
    put_optional_text(alloc, &mut out, named("iss"), text_of(issuer))?;
    put_texts(alloc, &mut out, named("aud"), audiences)?;
    Ok(out)
}

fn text_of(issuer: Option<&IssuerUrl>) -> Option<&str>
    ensures { option_copied result ≡ option_map (λ i. i.text) (option_copied issuer.entry) }
{
    match issuer {
        None => None,
        Some(issuer) => Some(issuer.as_str()),
    }
}

impl<AC: AdditionalClaims, GC: GenderClaim> UserInfoClaims<AC, GC> {
    // The members of each part, one after another.
    fn as_members(&self, alloc: Global) -> Result<Vec<OutMember>, AllocError>
        ensures members { let written = spec.user_info_members AC.write_of GC.write_of self.now in
            IfOk result (λ out. out.items ≡ written) }
        ensures texts { IfOk result (λ out. All IsUtf8Member out.items) }
    {
        let mut out = issuer_and_audience_members(alloc, self.issuer(), self.audiences())?;
        let mut standard = write_standard(alloc, &self.standard_claims)?;
        out.append(&mut standard)?;
        let mut additional = self.additional_claims.write(alloc)?;
        out.append(&mut additional)?;
        Ok(out)
    }
}

impl<AC: AdditionalClaims, GC: GenderClaim> Payload for UserInfoClaims<AC, GC> {
    ghost read_of = { spec.user_info_claims_of AC.read_of GC.read_of };

    ghost write_of = { spec.user_info_members AC.write_of GC.write_of };

    /// Reads the claims under the members' reading. It refuses the first faulty member, be it
    /// `iss`, `aud` or a standard claim; then a missing `sub`; then as the additional claims do. A
    /// null stands for an absent `iss` or `aud`.
    ///
    /// `iss` and `aud` are faulty where they repeat (`Duplicate`) or aren't of their kind: a URL (`WrongType`
    /// where it is no text, else `Url`); a text or an array of texts (`WrongType`). A standard claim is
    /// faulty as in `read_standard`.
    #[tactic(auto, unfolding(crate::specs::UserInfoClaims::user_info_claims_of))]
    fn read(alloc: Global, members: &Members) -> Result<Self, ParseError> {
        let readers = Both {
            first: IssuerAndAudience::new(),
            second: ClaimsReader::<GC>::new(alloc),
        };
        let readers = read_fields(alloc, readers, members)?;
        Self::finish(alloc, readers.first, readers.second, members)
    }

    /// The claims as members: `iss`, `aud`, the standard claims, then the additional ones. Absent claims are
    /// left out, `aud` is an array, and moments are whole seconds, rounded down.
    ///
    /// Claims are read back from the object's text of what is written, under every reading, where
    /// they are in range: the issuer's URL is that of its text, the standard claims are in the
    /// range of `write_standard`, and the additional claims give values that an object may have.
    fn write(&self, alloc: Global) -> Result<Vec<OutMember>, AllocError>
        ensures members { let written = spec.user_info_members AC.write_of GC.write_of self.now in
            IfOk result (λ out. out.items ≡ written) }
        ensures texts { IfOk result (λ out. All IsUtf8Member out.items) }
        ensures no_float { any_float (AC.write_of self.now.additional_claims) ≡ false
            → IfOk result (λ out. any_float out.items ≡ false) }
        ensures reads_back { IsInfoInRange AC.write_of self.now
            → IfOk result (λ out. GivesInfoClaims AC.read_of GC.read_of out.items self.now) }
    {
        let out = self.as_members(alloc)?;
        Ok(out)
    }
}
