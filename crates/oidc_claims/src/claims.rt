//! The standard claims of an end user (OpenID Connect Core 1.0 section 5.1).

ghost use Rattle.std.specs.Prelude.{◌≡◌, ℤ, Option, None, IfOk, OnOk, option_map};
ghost use Rattle.std.specs.Option.{option_copied};
ghost use Rattle.oidc_claims.specs.SameClaims.{same_names, same_pages, same_person, same_rest};
ghost use Rattle.oidc_claims.specs.Seen.{only_subject};

mod address;
mod address_reader;
mod copies;
mod gender_value;
mod reader;
mod slots;

pub use crate::claims::address::AddressClaim;
use crate::claims::copies::{copy_address, copy_gender, copy_localized, copy_text};
pub use crate::claims::reader::{ClaimsReader, read_standard};
use crate::gender::GenderClaim;
use jiff::Timestamp;
use oidc_types::{
    EndUserBirthday, EndUserEmail, EndUserFamilyName, EndUserGivenName, EndUserMiddleName,
    EndUserName, EndUserNickname, EndUserPhoneNumber, EndUserPictureUrl, EndUserProfileUrl,
    EndUserTimezone, EndUserUsername, EndUserWebsiteUrl, LanguageTag, LocalizedClaim,
    SubjectIdentifier,
};
use std::alloc::{AllocError, Global};
use std::marker::Model;

/// The standard claims. A contract sees them as the record of these claims, each absent or there; a
/// moment is seen as nanoseconds since the Unix epoch.
///
/// `GC` is the type of the gender. No getter, setter or comparison takes memory.
#[derive(Drop)]
pub struct StandardClaims<GC: GenderClaim> {
    pub(super) subject: SubjectIdentifier,
    pub(super) name: Option<LocalizedClaim<EndUserName>>,
    pub(super) given_name: Option<LocalizedClaim<EndUserGivenName>>,
    pub(super) family_name: Option<LocalizedClaim<EndUserFamilyName>>,
    pub(super) middle_name: Option<LocalizedClaim<EndUserMiddleName>>,
    pub(super) nickname: Option<LocalizedClaim<EndUserNickname>>,
    pub(super) preferred_username: Option<EndUserUsername>,
    pub(super) profile: Option<LocalizedClaim<EndUserProfileUrl>>,
    pub(super) picture: Option<LocalizedClaim<EndUserPictureUrl>>,
    pub(super) website: Option<LocalizedClaim<EndUserWebsiteUrl>>,
    pub(super) email: Option<EndUserEmail>,
    pub(super) email_verified: Option<bool>,
    pub(super) gender: Option<GC>,
    pub(super) birthday: Option<EndUserBirthday>,
    pub(super) birthdate: Option<EndUserBirthday>,
    pub(super) zoneinfo: Option<EndUserTimezone>,
    pub(super) locale: Option<LanguageTag>,
    pub(super) phone_number: Option<EndUserPhoneNumber>,
    pub(super) phone_number_verified: Option<bool>,
    pub(super) address: Option<AddressClaim>,
    pub(super) updated_at: Option<Timestamp>,
}

impl<GC: GenderClaim> Model for StandardClaims<GC> {
    ghost use Rattle.std.specs.Prelude.{option_map};
    ghost use Rattle.oidc_claims.specs.Seen.{SeenClaims};
    ghost use Rattle.oidc_claims.specs.SeenCode.{seen_claims_code};

    ghost Value = { SeenClaims GC };

    ghost coded = { seen_claims_code GC.code };

    ghost view = { λ c. record {
      subject = c.subject;
      name = c.name;
      given_name = c.given_name;
      family_name = c.family_name;
      middle_name = c.middle_name;
      nickname = c.nickname;
      preferred_username = c.preferred_username;
      profile = c.profile;
      picture = c.picture;
      website = c.website;
      email = c.email;
      email_verified = c.email_verified;
      gender = c.gender;
      birthday = c.birthday;
      birthdate = c.birthdate;
      zoneinfo = c.zoneinfo;
      locale = c.locale;
      phone_number = c.phone_number;
      phone_number_verified = c.phone_number_verified;
      address = c.address;
      updated_at = option_map (λ moment. moment.nanosecond) c.updated_at;
    } };
}

impl<GC: GenderClaim> StandardClaims<GC> {
    /// The claims of that subject alone; every other claim is absent. It takes no memory.
    pub fn new(subject: SubjectIdentifier) -> Self
        ensures { result ≡ only_subject subject }
    {
        StandardClaims {
            subject,
            name: None,
            given_name: None,
            family_name: None,
            middle_name: None,
            nickname: None,
            preferred_username: None,
            profile: None,
            picture: None,
            website: None,
            email: None,
            email_verified: None,
            gender: None,
            birthday: None,
            birthdate: None,
            zoneinfo: None,
            locale: None,
            phone_number: None,
            phone_number_verified: None,
            address: None,
            updated_at: None,
        }
    }

    /// `sub`: who the end user is at the provider.
    pub fn subject(&self) -> &SubjectIdentifier
        ensures { result.now ≡ self.now.subject }
    {
        &self.subject
    }

    /// Changes `sub` alone.
    pub fn set_subject(mut self, subject: SubjectIdentifier) -> Self
        ensures { result ≡ record self { subject = subject } }
    {
        self.subject = subject;
        self
    }

    /// Changes `sub` alone, in place.
    pub fn put_subject(&mut self, subject: SubjectIdentifier)
        ensures { self.new ≡ record self.old { subject = subject } }
    {
        self.subject = subject;
    }

    /// `name`: the full name as it is shown, with titles and suffixes.
    pub fn name(&self) -> Option<&LocalizedClaim<EndUserName>>
        ensures { option_copied result ≡ self.now.name }
    {
        self.name.as_ref()
    }

    /// Changes `name` alone.
    pub fn set_name(mut self, name: Option<LocalizedClaim<EndUserName>>) -> Self
        ensures { result ≡ record self { name = name } }
    {
        self.name = name;
        self
    }

    /// `given_name`: the given names.
    pub fn given_name(&self) -> Option<&LocalizedClaim<EndUserGivenName>>
        ensures { option_copied result ≡ self.now.given_name }
    {
        self.given_name.as_ref()
    }

    /// Changes `given_name` alone.
    pub fn set_given_name(mut self, given_name: Option<LocalizedClaim<EndUserGivenName>>) -> Self
        ensures { result ≡ record self { given_name = given_name } }
    {
        self.given_name = given_name;
        self
    }

    /// `family_name`: the family names.
    pub fn family_name(&self) -> Option<&LocalizedClaim<EndUserFamilyName>>
        ensures { option_copied result ≡ self.now.family_name }
    {
        self.family_name.as_ref()
    }

    /// Changes `family_name` alone.
    pub fn set_family_name(mut self, family_name: Option<LocalizedClaim<EndUserFamilyName>>) -> Self
        ensures { result ≡ record self { family_name = family_name } }
    {
        self.family_name = family_name;
        self
    }

    /// `middle_name`: the middle names.
    pub fn middle_name(&self) -> Option<&LocalizedClaim<EndUserMiddleName>>
        ensures { option_copied result ≡ self.now.middle_name }
    {
        self.middle_name.as_ref()
    }

    /// Changes `middle_name` alone.
    pub fn set_middle_name(mut self, middle_name: Option<LocalizedClaim<EndUserMiddleName>>) -> Self
        ensures { result ≡ record self { middle_name = middle_name } }
    {
        self.middle_name = middle_name;
        self
    }

    /// `nickname`: a casual name.
    pub fn nickname(&self) -> Option<&LocalizedClaim<EndUserNickname>>
        ensures { option_copied result ≡ self.now.nickname }
    {
        self.nickname.as_ref()
    }

    /// Changes `nickname` alone.
    pub fn set_nickname(mut self, nickname: Option<LocalizedClaim<EndUserNickname>>) -> Self
        ensures { result ≡ record self { nickname = nickname } }
    {
        self.nickname = nickname;
        self
    }

    /// `preferred_username`: the short name by which the user wants to be called. It need not be unique.
    pub fn preferred_username(&self) -> Option<&EndUserUsername>
        ensures { option_copied result ≡ self.now.preferred_username }
    {
        self.preferred_username.as_ref()
    }

    /// Changes `preferred_username` alone.
    pub fn set_preferred_username(mut self, preferred_username: Option<EndUserUsername>) -> Self
        ensures { result ≡ record self { preferred_username = preferred_username } }
    {
        self.preferred_username = preferred_username;
        self
    }

    /// `profile`: the address of the user's profile page.
    pub fn profile(&self) -> Option<&LocalizedClaim<EndUserProfileUrl>>
        ensures { option_copied result ≡ self.now.profile }
    {
        self.profile.as_ref()
    }

    /// Changes `profile` alone.
    pub fn set_profile(mut self, profile: Option<LocalizedClaim<EndUserProfileUrl>>) -> Self
        ensures { result ≡ record self { profile = profile } }
    {
        self.profile = profile;
        self
    }

    /// `picture`: the address of the user's picture.
    pub fn picture(&self) -> Option<&LocalizedClaim<EndUserPictureUrl>>
        ensures { option_copied result ≡ self.now.picture }
    {
        self.picture.as_ref()
    }

    /// Changes `picture` alone.
    pub fn set_picture(mut self, picture: Option<LocalizedClaim<EndUserPictureUrl>>) -> Self
        ensures { result ≡ record self { picture = picture } }
    {
        self.picture = picture;
        self
    }

    /// `website`: the address of the user's web page.
    pub fn website(&self) -> Option<&LocalizedClaim<EndUserWebsiteUrl>>
        ensures { option_copied result ≡ self.now.website }
    {
        self.website.as_ref()
    }

    /// Changes `website` alone.
    pub fn set_website(mut self, website: Option<LocalizedClaim<EndUserWebsiteUrl>>) -> Self
        ensures { result ≡ record self { website = website } }
    {
        self.website = website;
        self
    }

    /// `email`: the e-mail address. It need not be unique.
    pub fn email(&self) -> Option<&EndUserEmail>
        ensures { option_copied result ≡ self.now.email }
    {
        self.email.as_ref()
    }

    /// Changes `email` alone.
    pub fn set_email(mut self, email: Option<EndUserEmail>) -> Self
        ensures { result ≡ record self { email = email } }
    {
        self.email = email;
        self
    }

    /// `email_verified`: whether the provider has verified the e-mail address.
    pub fn email_verified(&self) -> Option<bool>
        ensures { result ≡ self.now.email_verified }
    {
        self.email_verified
    }

    /// Changes `email_verified` alone.
    pub fn set_email_verified(mut self, email_verified: Option<bool>) -> Self
        ensures { result ≡ record self { email_verified = email_verified } }
    {
        self.email_verified = email_verified;
        self
    }

    /// `gender`: the gender.
    pub fn gender(&self) -> Option<&GC>
        ensures { option_copied result ≡ self.now.gender }
    {
        self.gender.as_ref()
    }

    /// Changes `gender` alone.
    pub fn set_gender(mut self, gender: Option<GC>) -> Self
        ensures { result ≡ record self { gender = gender } }
    {
        self.gender = gender;
        self
    }

    /// `birthday`: the day of birth, under the name that some providers send for `birthdate`.
    pub fn birthday(&self) -> Option<&EndUserBirthday>
        ensures { option_copied result ≡ self.now.birthday }
    {
        self.birthday.as_ref()
    }

    /// Changes `birthday` alone.
    pub fn set_birthday(mut self, birthday: Option<EndUserBirthday>) -> Self
        ensures { result ≡ record self { birthday = birthday } }
    {
        self.birthday = birthday;
        self
    }

    /// `birthdate`: the day of birth, as `YYYY-MM-DD` or `YYYY`.
    pub fn birthdate(&self) -> Option<&EndUserBirthday>
        ensures { option_copied result ≡ self.now.birthdate }
    {
        self.birthdate.as_ref()
    }

    /// Changes `birthdate` alone.
    pub fn set_birthdate(mut self, birthdate: Option<EndUserBirthday>) -> Self
        ensures { result ≡ record self { birthdate = birthdate } }
    {
        self.birthdate = birthdate;
        self
    }

    /// `zoneinfo`: the time zone.
    pub fn zoneinfo(&self) -> Option<&EndUserTimezone>
        ensures { option_copied result ≡ self.now.zoneinfo }
    {
        self.zoneinfo.as_ref()
    }

    /// Changes `zoneinfo` alone.
    pub fn set_zoneinfo(mut self, zoneinfo: Option<EndUserTimezone>) -> Self
        ensures { result ≡ record self { zoneinfo = zoneinfo } }
    {
        self.zoneinfo = zoneinfo;
        self
    }

    /// `locale`: the locale.
    pub fn locale(&self) -> Option<&LanguageTag>
        ensures { option_copied result ≡ self.now.locale }
    {
        self.locale.as_ref()
    }

    /// Changes `locale` alone.
    pub fn set_locale(mut self, locale: Option<LanguageTag>) -> Self
        ensures { result ≡ record self { locale = locale } }
    {
        self.locale = locale;
        self
    }

    /// `phone_number`: the telephone number.
    pub fn phone_number(&self) -> Option<&EndUserPhoneNumber>
        ensures { option_copied result ≡ self.now.phone_number }
    {
        self.phone_number.as_ref()
    }

    /// Changes `phone_number` alone.
    pub fn set_phone_number(mut self, phone_number: Option<EndUserPhoneNumber>) -> Self
        ensures { result ≡ record self { phone_number = phone_number } }
    {
        self.phone_number = phone_number;
        self
    }

    /// `phone_number_verified`: whether the provider has verified the telephone number.
    pub fn phone_number_verified(&self) -> Option<bool>
        ensures { result ≡ self.now.phone_number_verified }
    {
        self.phone_number_verified
    }

    /// Changes `phone_number_verified` alone.
    pub fn set_phone_number_verified(mut self, phone_number_verified: Option<bool>) -> Self
        ensures { result ≡ record self { phone_number_verified = phone_number_verified } }
    {
        self.phone_number_verified = phone_number_verified;
        self
    }

    /// `address`: the postal address (OpenID Connect Core 1.0 section 5.1.1).
    pub fn address(&self) -> Option<&AddressClaim>
        ensures { option_copied result ≡ self.now.address }
    {
        self.address.as_ref()
    }

    /// Changes `address` alone.
    pub fn set_address(mut self, address: Option<AddressClaim>) -> Self
        ensures { result ≡ record self { address = address } }
    {
        self.address = address;
        self
    }

    /// `updated_at`: when the user's claims were last changed.
    pub fn updated_at(&self) -> Option<Timestamp>
        ensures { option_map (λ moment. moment.nanosecond) result ≡ self.now.updated_at }
    {
        self.updated_at
    }

    /// Changes `updated_at` alone.
    pub fn set_updated_at(mut self, updated_at: Option<Timestamp>) -> Self
        ensures { let moment : Option ℤ = option_map (λ moment. moment.nanosecond) updated_at in
            result ≡ record self { updated_at = moment } }
    {
        self.updated_at = updated_at;
        self
    }

    /// A copy, which equals its source. `AllocError` is want of memory, the one error.
    pub fn clone_in(&self, alloc: Global) -> Result<Self, AllocError>
        ensures copy { IfOk result (λ copy. copy ≡ self.now) }
    {
        let mut copy = StandardClaims::new(self.subject.clone_in(alloc)?);
        match copy.copy_claims(alloc, self) {
            Ok(()) => Ok(copy),
            Err(error) => {
                drop(copy);
                Err(error)
            }
        }
    }

    // Puts copies of all claims but `sub` into the place of these.
    fn copy_claims(&mut self, alloc: Global, claims: &Self) -> Result<(), AllocError>
        ensures { OnOk result (self.new ≡ record claims.now { subject = self.old.subject }) }
    {
        copy_localized(alloc, &mut self.name, &claims.name)?;
        copy_localized(alloc, &mut self.given_name, &claims.given_name)?;
        copy_localized(alloc, &mut self.family_name, &claims.family_name)?;
        copy_localized(alloc, &mut self.middle_name, &claims.middle_name)?;
        copy_localized(alloc, &mut self.nickname, &claims.nickname)?;
        copy_text(
            alloc,
            &mut self.preferred_username,
            &claims.preferred_username,
        )?;
        copy_localized(alloc, &mut self.profile, &claims.profile)?;
        copy_localized(alloc, &mut self.picture, &claims.picture)?;
        copy_localized(alloc, &mut self.website, &claims.website)?;
        copy_text(alloc, &mut self.email, &claims.email)?;
        self.email_verified = claims.email_verified;
        copy_gender(alloc, &mut self.gender, &claims.gender)?;
        copy_text(alloc, &mut self.birthday, &claims.birthday)?;
        copy_text(alloc, &mut self.birthdate, &claims.birthdate)?;
        copy_text(alloc, &mut self.zoneinfo, &claims.zoneinfo)?;
        copy_text(alloc, &mut self.locale, &claims.locale)?;
        copy_text(alloc, &mut self.phone_number, &claims.phone_number)?;
        self.phone_number_verified = claims.phone_number_verified;
        copy_address(alloc, &mut self.address, &claims.address)?;
        self.updated_at = claims.updated_at;
        Ok(())
    }
}

impl<GC: GenderClaim + PartialEq> StandardClaims<GC> {
    // Whether the names are the same.
    fn has_same_names(&self, other: &StandardClaims<GC>) -> bool
        ensures { result ≡ same_names GC.eq self.now other.now }
    {
        self.name == other.name
            && self.given_name == other.given_name
            && self.family_name == other.family_name
            && self.middle_name == other.middle_name
            && self.nickname == other.nickname
            && self.preferred_username == other.preferred_username
    }

    // Whether the pages and the e-mail address are the same.
    fn has_same_pages(&self, other: &StandardClaims<GC>) -> bool
        ensures { result ≡ same_pages GC.eq self.now other.now }
    {
        self.profile == other.profile
            && self.picture == other.picture
            && self.website == other.website
            && self.email == other.email
            && self.email_verified == other.email_verified
    }

    // Whether the gender, the birthday, the zone and the locale are the same.
    fn has_same_person(&self, other: &StandardClaims<GC>) -> bool
        ensures { result ≡ same_person GC.eq self.now other.now }
    {
        self.gender == other.gender
            && self.birthday == other.birthday
            && self.birthdate == other.birthdate
            && self.zoneinfo == other.zoneinfo
            && self.locale == other.locale
    }

    // Whether the telephone, the address and the last change are the same.
    fn has_same_rest(&self, other: &StandardClaims<GC>) -> bool
        ensures { result ≡ same_rest GC.eq self.now other.now }
    {
        self.phone_number == other.phone_number
            && self.phone_number_verified == other.phone_number_verified
            && self.address == other.address
            && self.updated_at == other.updated_at
    }
}

/// Equal where each claim is, an absent one to an absent one.
impl<GC: GenderClaim + PartialEq> PartialEq for StandardClaims<GC> {
    ghost use Rattle.oidc_claims.specs.SameClaims.{same_claims, claims_equality};

    ghost eq = { same_claims GC.eq };

    ghost laws = { claims_equality GC.eq GC.PartialEq.laws };

    fn eq(&self, other: &StandardClaims<GC>) -> bool {
        self.subject == other.subject
            && self.has_same_names(other)
            && self.has_same_pages(other)
            && self.has_same_person(other)
            && self.has_same_rest(other)
    }
}
