// The reader of the standard claims: one slot a claim.
ghost use Rattle.std.specs.Prelude.{◌≡◌, ℕ, List, [], length, Some, None, Ok, Err};
ghost use Rattle.oidc_members.specs.declared.reading.Reading.{Reading};
ghost use Rattle.oidc_members.specs.declared.refusal.Refusal.{Refusal};
ghost use Rattle.oidc_members.specs.Answers.{Answers};
ghost use Rattle.oidc_members.specs.Seen.{SeenMember};
ghost use Rattle.oidc_readers.specs.Passes.{PlacedAnswers};
ghost use Rattle.oidc_claims.specs.Claims.{fault_at, first_fault};
ghost use Rattle.oidc_claims.specs.Seen.{SeenClaims};
ghost use Rattle.oidc_claims.specs.Reader.{reader_of, finished_claims};
ghost use Rattle.oidc_claims.specs.Standard.{claims_of, faultless_claims, subject_of, missing_subject, with_subject};

use crate::claim::Claim;
use crate::claims::gender_value::{GenderOf, gender_of};
use crate::claims::slots::{Languages, take_once};
use crate::claims::{AddressClaim, StandardClaims};
use crate::gender::GenderClaim;
use oidc_members::{Member, Members, ParseError, ParseKind, Reading};
use oidc_readers::{MemberReader, Moment, Once, PlacedError, read_members, refused, timestamp_of};
use oidc_types::{
    EndUserBirthday, EndUserEmail, EndUserFamilyName, EndUserGivenName, EndUserMiddleName,
    EndUserName, EndUserNickname, EndUserPhoneNumber, EndUserPictureUrl, EndUserProfileUrl,
    EndUserTimezone, EndUserUsername, EndUserWebsiteUrl, LanguageTag, SubjectIdentifier,
};
use std::alloc::Global;

/// The standard claims, as they are read member by member. Its rule is `fault_at`, and what it
/// keeps is `reader_of` the members that came; `finish` gives the claims in the end. A reader of an
/// ID token's own fields stands beside it in `Both`.
#[derive(Drop)]
pub struct ClaimsReader<GC: GenderClaim> {
    subject: Once<SubjectIdentifier>,
    name: Languages<EndUserName>,
    given_name: Languages<EndUserGivenName>,
    family_name: Languages<EndUserFamilyName>,
    middle_name: Languages<EndUserMiddleName>,
    nickname: Languages<EndUserNickname>,
    preferred_username: Once<Option<EndUserUsername>>,
    profile: Languages<EndUserProfileUrl>,
    picture: Languages<EndUserPictureUrl>,
    website: Languages<EndUserWebsiteUrl>,
    email: Once<Option<EndUserEmail>>,
    email_verified: Once<Option<bool>>,
    gender: Once<Option<GenderOf<GC>>>,
    birthday: Once<Option<EndUserBirthday>>,
    birthdate: Once<Option<EndUserBirthday>>,
    zoneinfo: Once<Option<EndUserTimezone>>,
    locale: Once<Option<LanguageTag>>,
    phone_number: Once<Option<EndUserPhoneNumber>>,
    phone_number_verified: Once<Option<bool>>,
    address: Once<Option<AddressClaim>>,
    updated_at: Once<Option<Moment>>,
}

impl<GC: GenderClaim> ClaimsReader<GC> {
    /// The reader before any member came.
    #[tactic(auto, unfolding(crate::specs::Reader::reader_of))]
    pub fn new(alloc: Global) -> Self
        ensures empty { (reading : Reading) → result ≡ reader_of GC.read_of reading [] }
    {
        ClaimsReader {
            subject: Once::new(),
            name: Languages::new(alloc),
            given_name: Languages::new(alloc),
            family_name: Languages::new(alloc),
            middle_name: Languages::new(alloc),
            nickname: Languages::new(alloc),
            preferred_username: Once::new(),
            profile: Languages::new(alloc),
            picture: Languages::new(alloc),
            website: Languages::new(alloc),
            email: Once::new(),
            email_verified: Once::new(),
            gender: Once::new(),
            birthday: Once::new(),
            birthdate: Once::new(),
            zoneinfo: Once::new(),
            locale: Once::new(),
            phone_number: Once::new(),
            phone_number_verified: Once::new(),
            address: Once::new(),
            updated_at: Once::new(),
        }
    }

    /// The claims of the members that came, none of them faulty, under the reading under which they
    /// were taken. Without `sub` the answer is `Missing` of `sub`.
    pub fn finish(mut self, alloc: Global) -> Result<StandardClaims<GC>, ParseError>
        ensures claims { (reading : Reading) (members : List SeenMember)
            → self ≡ reader_of GC.read_of reading members
            → Answers (faultless_claims GC.read_of reading members) result }
    {
        match self.subject.value.take() {
            Some(subject) => Ok(self.claims_with(subject)),
            None => {
                drop(self);
                Err(refused(alloc, ParseKind::Missing, "sub"))
            }
        }
    }

    // What the slots hold, as the claims of that subject.
    #[tactic(auto, unfolding(crate::specs::Reader::finished_claims))]
    fn claims_with(self, subject: SubjectIdentifier) -> StandardClaims<GC>
        ensures { result ≡ finished_claims self subject }
    {
        StandardClaims {
            subject,
            name: self.name.into_values(),
            given_name: self.given_name.into_values(),
            family_name: self.family_name.into_values(),
            middle_name: self.middle_name.into_values(),
            nickname: self.nickname.into_values(),
            preferred_username: self.preferred_username.optional(),
            profile: self.profile.into_values(),
            picture: self.picture.into_values(),
            website: self.website.into_values(),
            email: self.email.optional(),
            email_verified: self.email_verified.optional(),
            gender: gender_of(self.gender.optional()),
            birthday: self.birthday.optional(),
            birthdate: self.birthdate.optional(),
            zoneinfo: self.zoneinfo.optional(),
            locale: self.locale.optional(),
            phone_number: self.phone_number.optional(),
            phone_number_verified: self.phone_number_verified.optional(),
            address: self.address.optional(),
            updated_at: timestamp_of(self.updated_at.optional()),
        }
    }
}

impl<GC: GenderClaim> MemberReader for ClaimsReader<GC> {
    ghost fault = { fault_at GC.read_of };

    ghost state = { reader_of GC.read_of };

    fn take(&mut self, alloc: Global, member: &Member, reading: Reading) -> Result<(), ParseError> {
        match Claim::of_member(member) {
            None => Ok(()),
            Some(Claim::Subject) => take_once(&mut self.subject, alloc, member, reading),
            Some(Claim::Name) => self.name.take(alloc, member, reading),
            Some(Claim::GivenName) => self.given_name.take(alloc, member, reading),
            Some(Claim::FamilyName) => self.family_name.take(alloc, member, reading),
            Some(Claim::MiddleName) => self.middle_name.take(alloc, member, reading),
            Some(Claim::Nickname) => self.nickname.take(alloc, member, reading),
            Some(Claim::PreferredUsername) => take_once(
                &mut self.preferred_username,
                alloc,
                member,
                reading,
            ),
            Some(Claim::Profile) => self.profile.take(alloc, member, reading),
            Some(Claim::Picture) => self.picture.take(alloc, member, reading),
            Some(Claim::Website) => self.website.take(alloc, member, reading),
            Some(Claim::Email) => take_once(&mut self.email, alloc, member, reading),
            Some(Claim::EmailVerified) => take_once(
                &mut self.email_verified,
                alloc,
                member,
                reading,
            ),
            Some(Claim::Gender) => take_once(&mut self.gender, alloc, member, reading),
            Some(Claim::Birthday) => take_once(&mut self.birthday, alloc, member, reading),
            Some(Claim::Birthdate) => take_once(&mut self.birthdate, alloc, member, reading),
            Some(Claim::Zoneinfo) => take_once(&mut self.zoneinfo, alloc, member, reading),
            Some(Claim::Locale) => take_once(&mut self.locale, alloc, member, reading),
            Some(Claim::PhoneNumber) => take_once(&mut self.phone_number, alloc, member, reading),
            Some(Claim::PhoneNumberVerified) => take_once(
                &mut self.phone_number_verified,
                alloc,
                member,
                reading,
            ),
            Some(Claim::Address) => take_once(&mut self.address, alloc, member, reading),
            Some(Claim::UpdatedAt) => take_once(&mut self.updated_at, alloc, member, reading),
        }
    }
}

/// Reads the standard claims under the reading of their members. Members that are no standard claim
/// are left aside. The body makes one pass over the members, of which no clause speaks.
///
/// It refuses the first faulty member with its place, the kind and the field, and a list without a
/// faulty one and without `sub` as `Missing` of `sub`, at the place behind the last member. A
/// member is faulty that repeats its claim, in the same language where the claim may have several
/// (`Duplicate`), that has a language tag where its claim may have none (`UnexpectedTag`), or whose
/// value isn't of its claim's kind (`WrongType`; `Moment` for a whole number out of range and for a
/// text that is no moment where the reading takes texts; the kind and the field that stand inside
/// for `address` and `gender`). A null of an optional claim counts for repeats and is else absent
/// (OpenID Connect Core 1.0 sections 5.1 and 5.2).
pub fn read_standard<GC: GenderClaim>(
    alloc: Global,
    members: &Members,
) -> Result<StandardClaims<GC>, PlacedError>
    ensures answer { let read = claims_of GC.read_of members.now.reading in
        PlacedAnswers (read members.now.list) result }

    // Where there is memory: the first faulty member refuses the list, then a missing `sub`, and
    // else each claim is read of its own members.
    ensures faulty { (place : ℕ) (refusal : Refusal)
        → first_fault GC.read_of members.now.reading members.now.list ≡ Some (place, refusal)
        → PlacedAnswers {A = SeenClaims GC} (Err (place, refusal)) result }
    ensures missing { first_fault GC.read_of members.now.reading members.now.list ≡ None
        → subject_of members.now.list ≡ None
        → PlacedAnswers {A = SeenClaims GC}
        (Err (length members.now.list, missing_subject)) result }
    ensures claims { (subject : List ℕ)
        → first_fault GC.read_of members.now.reading members.now.list ≡ None
        → subject_of members.now.list ≡ Some subject → PlacedAnswers
        (Ok (with_subject GC.read_of members.now.reading subject members.now.list)) result }
{
    standard_of(alloc, members)
}

#[tactic(auto, using(crate::proofs::Moves::ended))]
fn standard_of<GC: GenderClaim>(
    alloc: Global,
    members: &Members,
) -> Result<StandardClaims<GC>, PlacedError>
    ensures { PlacedAnswers (claims_of GC.read_of members.now.reading members.now.list) result }
{
    match read_members(
        alloc,
        ClaimsReader::new(alloc),
        members.as_slice(),
        members.reading(),
    ) {
        Err(error) => Err(error),
        Ok(reader) => match reader.finish(alloc) {
            Err(error) => Err(PlacedError::at(members.len(), error)),
            Ok(claims) => Ok(claims),
        },
    }
}
