// The standard claims of an ID token (OpenID Connect Core 1.0 section 5.1), one getter and one setter
// a claim.

ghost use Rattle.std.specs.Prelude.{◌≡◌, option_map};
ghost use Rattle.std.specs.Option.{option_copied};

use crate::claims::IdTokenClaims;
use jiff::Timestamp;
use oidc_claims::{AdditionalClaims, AddressClaim, GenderClaim, StandardClaims};
use oidc_types::{
    EndUserBirthday, EndUserEmail, EndUserFamilyName, EndUserGivenName, EndUserMiddleName,
    EndUserName, EndUserNickname, EndUserPhoneNumber, EndUserPictureUrl, EndUserProfileUrl,
    EndUserTimezone, EndUserUsername, EndUserWebsiteUrl, LanguageTag, LocalizedClaim,
    SubjectIdentifier,
};

impl<AC: AdditionalClaims, GC: GenderClaim> IdTokenClaims<AC, GC> {
    /// `sub`: who the end user is at the provider.
    pub fn subject(&self) -> &SubjectIdentifier
        ensures { result.now ≡ self.now.standard_claims.subject }
    {
        self.standard_claims.subject()
    }

    /// Changes `sub` alone.
    pub fn set_subject(mut self, subject: SubjectIdentifier) -> Self
        ensures { let standard = record self.standard_claims { subject = subject } in
            result ≡ record self { standard_claims = standard } }
    {
        self.standard_claims = self.standard_claims.set_subject(subject);
        self
    }

    /// `name`: the full name as it is shown, with titles and suffixes.
    pub fn name(&self) -> Option<&LocalizedClaim<EndUserName>>
        ensures { option_copied result ≡ self.now.standard_claims.name }
    {
        self.standard_claims.name()
    }

    /// Changes `name` alone.
    pub fn set_name(mut self, name: Option<LocalizedClaim<EndUserName>>) -> Self
        ensures { let standard = record self.standard_claims { name = name } in
            result ≡ record self { standard_claims = standard } }
    {
        self.standard_claims = self.standard_claims.set_name(name);
        self
    }

    /// `given_name`: the given names.
    pub fn given_name(&self) -> Option<&LocalizedClaim<EndUserGivenName>>
        ensures { option_copied result ≡ self.now.standard_claims.given_name }
    {
        self.standard_claims.given_name()
    }

    /// Changes `given_name` alone.
    pub fn set_given_name(mut self, given_name: Option<LocalizedClaim<EndUserGivenName>>) -> Self
        ensures { let standard = record self.standard_claims { given_name = given_name } in
            result ≡ record self { standard_claims = standard } }
    {
        self.standard_claims = self.standard_claims.set_given_name(given_name);
        self
    }

    /// `family_name`: the family names.
    pub fn family_name(&self) -> Option<&LocalizedClaim<EndUserFamilyName>>
        ensures { option_copied result ≡ self.now.standard_claims.family_name }
    {
        self.standard_claims.family_name()
    }

    /// Changes `family_name` alone.
    pub fn set_family_name(mut self, family_name: Option<LocalizedClaim<EndUserFamilyName>>) -> Self
        ensures { let standard = record self.standard_claims { family_name = family_name } in
            result ≡ record self { standard_claims = standard } }
    {
        self.standard_claims = self.standard_claims.set_family_name(family_name);
        self
    }

    /// `middle_name`: the middle names.
    pub fn middle_name(&self) -> Option<&LocalizedClaim<EndUserMiddleName>>
        ensures { option_copied result ≡ self.now.standard_claims.middle_name }
    {
        self.standard_claims.middle_name()
    }

    /// Changes `middle_name` alone.
    pub fn set_middle_name(mut self, middle_name: Option<LocalizedClaim<EndUserMiddleName>>) -> Self
        ensures { let standard = record self.standard_claims { middle_name = middle_name } in
            result ≡ record self { standard_claims = standard } }
    {
        self.standard_claims = self.standard_claims.set_middle_name(middle_name);
        self
    }

    /// `nickname`: a casual name.
    pub fn nickname(&self) -> Option<&LocalizedClaim<EndUserNickname>>
        ensures { option_copied result ≡ self.now.standard_claims.nickname }
    {
        self.standard_claims.nickname()
    }

    /// Changes `nickname` alone.
    pub fn set_nickname(mut self, nickname: Option<LocalizedClaim<EndUserNickname>>) -> Self
        ensures { let standard = record self.standard_claims { nickname = nickname } in
            result ≡ record self { standard_claims = standard } }
    {
        self.standard_claims = self.standard_claims.set_nickname(nickname);
        self
    }

    /// `preferred_username`: the short name by which the user wants to be called. It need not be unique.
    pub fn preferred_username(&self) -> Option<&EndUserUsername>
        ensures { option_copied result ≡ self.now.standard_claims.preferred_username }
    {
        self.standard_claims.preferred_username()
    }

    /// Changes `preferred_username` alone.
    pub fn set_preferred_username(mut self, preferred_username: Option<EndUserUsername>) -> Self
        ensures { let standard =
            record self.standard_claims { preferred_username = preferred_username } in
            result ≡ record self { standard_claims = standard } }
    {
        self.standard_claims = self
            .standard_claims
            .set_preferred_username(preferred_username);
        self
    }

    /// `profile`: the address of the user's profile page.
    pub fn profile(&self) -> Option<&LocalizedClaim<EndUserProfileUrl>>
        ensures { option_copied result ≡ self.now.standard_claims.profile }
    {
        self.standard_claims.profile()
    }

    /// Changes `profile` alone.
    pub fn set_profile(mut self, profile: Option<LocalizedClaim<EndUserProfileUrl>>) -> Self
        ensures { let standard = record self.standard_claims { profile = profile } in
            result ≡ record self { standard_claims = standard } }
    {
        self.standard_claims = self.standard_claims.set_profile(profile);
        self
    }

    /// `picture`: the address of the user's picture.
    pub fn picture(&self) -> Option<&LocalizedClaim<EndUserPictureUrl>>
        ensures { option_copied result ≡ self.now.standard_claims.picture }
    {
        self.standard_claims.picture()
    }

    /// Changes `picture` alone.
    pub fn set_picture(mut self, picture: Option<LocalizedClaim<EndUserPictureUrl>>) -> Self
        ensures { let standard = record self.standard_claims { picture = picture } in
            result ≡ record self { standard_claims = standard } }
    {
        self.standard_claims = self.standard_claims.set_picture(picture);
        self
    }

    /// `website`: the address of the user's web page.
    pub fn website(&self) -> Option<&LocalizedClaim<EndUserWebsiteUrl>>
        ensures { option_copied result ≡ self.now.standard_claims.website }
    {
        self.standard_claims.website()
    }

    /// Changes `website` alone.
    pub fn set_website(mut self, website: Option<LocalizedClaim<EndUserWebsiteUrl>>) -> Self
        ensures { let standard = record self.standard_claims { website = website } in
            result ≡ record self { standard_claims = standard } }
    {
        self.standard_claims = self.standard_claims.set_website(website);
        self
    }

    /// `email`: the e-mail address. It need not be unique.
    pub fn email(&self) -> Option<&EndUserEmail>
        ensures { option_copied result ≡ self.now.standard_claims.email }
    {
        self.standard_claims.email()
    }

    /// Changes `email` alone.
    pub fn set_email(mut self, email: Option<EndUserEmail>) -> Self
        ensures { let standard = record self.standard_claims { email = email } in
            result ≡ record self { standard_claims = standard } }
    {
        self.standard_claims = self.standard_claims.set_email(email);
        self
    }

    /// `email_verified`: whether the provider has verified the e-mail address.
    pub fn email_verified(&self) -> Option<bool>
        ensures { result ≡ self.now.standard_claims.email_verified }
    {
        self.standard_claims.email_verified()
    }

    /// Changes `email_verified` alone.
    pub fn set_email_verified(mut self, email_verified: Option<bool>) -> Self
        ensures { let standard = record self.standard_claims { email_verified = email_verified } in
            result ≡ record self { standard_claims = standard } }
    {
        self.standard_claims = self.standard_claims.set_email_verified(email_verified);
        self
    }

    /// `gender`: the gender.
    pub fn gender(&self) -> Option<&GC>
        ensures { option_copied result ≡ self.now.standard_claims.gender }
    {
        self.standard_claims.gender()
    }

    /// Changes `gender` alone.
    pub fn set_gender(mut self, gender: Option<GC>) -> Self
        ensures { let standard = record self.standard_claims { gender = gender } in
            result ≡ record self { standard_claims = standard } }
    {
        self.standard_claims = self.standard_claims.set_gender(gender);
        self
    }

    /// `birthday`: the day of birth, under the name that some providers send for `birthdate`.
    pub fn birthday(&self) -> Option<&EndUserBirthday>
        ensures { option_copied result ≡ self.now.standard_claims.birthday }
    {
        self.standard_claims.birthday()
    }

    /// Changes `birthday` alone.
    pub fn set_birthday(mut self, birthday: Option<EndUserBirthday>) -> Self
        ensures { let standard = record self.standard_claims { birthday = birthday } in
            result ≡ record self { standard_claims = standard } }
    {
        self.standard_claims = self.standard_claims.set_birthday(birthday);
        self
    }

    /// `birthdate`: the day of birth, as `YYYY-MM-DD` or `YYYY`.
    pub fn birthdate(&self) -> Option<&EndUserBirthday>
        ensures { option_copied result ≡ self.now.standard_claims.birthdate }
    {
        self.standard_claims.birthdate()
    }

    /// Changes `birthdate` alone.
    pub fn set_birthdate(mut self, birthdate: Option<EndUserBirthday>) -> Self
        ensures { let standard = record self.standard_claims { birthdate = birthdate } in
            result ≡ record self { standard_claims = standard } }
    {
        self.standard_claims = self.standard_claims.set_birthdate(birthdate);
        self
    }

    /// `zoneinfo`: the time zone.
    pub fn zoneinfo(&self) -> Option<&EndUserTimezone>
        ensures { option_copied result ≡ self.now.standard_claims.zoneinfo }
    {
        self.standard_claims.zoneinfo()
    }

    /// Changes `zoneinfo` alone.
    pub fn set_zoneinfo(mut self, zoneinfo: Option<EndUserTimezone>) -> Self
        ensures { let standard = record self.standard_claims { zoneinfo = zoneinfo } in
            result ≡ record self { standard_claims = standard } }
    {
        self.standard_claims = self.standard_claims.set_zoneinfo(zoneinfo);
        self
    }

    /// `locale`: the locale.
    pub fn locale(&self) -> Option<&LanguageTag>
        ensures { option_copied result ≡ self.now.standard_claims.locale }
    {
        self.standard_claims.locale()
    }

    /// Changes `locale` alone.
    pub fn set_locale(mut self, locale: Option<LanguageTag>) -> Self
        ensures { let standard = record self.standard_claims { locale = locale } in
            result ≡ record self { standard_claims = standard } }
    {
        self.standard_claims = self.standard_claims.set_locale(locale);
        self
    }

    /// `phone_number`: the telephone number.
    pub fn phone_number(&self) -> Option<&EndUserPhoneNumber>
        ensures { option_copied result ≡ self.now.standard_claims.phone_number }
    {
        self.standard_claims.phone_number()
    }

    /// Changes `phone_number` alone.
    pub fn set_phone_number(mut self, phone_number: Option<EndUserPhoneNumber>) -> Self
        ensures { let standard = record self.standard_claims { phone_number = phone_number } in
            result ≡ record self { standard_claims = standard } }
    {
        self.standard_claims = self.standard_claims.set_phone_number(phone_number);
        self
    }

    /// `phone_number_verified`: whether the provider has verified the telephone number.
    pub fn phone_number_verified(&self) -> Option<bool>
        ensures { result ≡ self.now.standard_claims.phone_number_verified }
    {
        self.standard_claims.phone_number_verified()
    }

    /// Changes `phone_number_verified` alone.
    pub fn set_phone_number_verified(mut self, phone_number_verified: Option<bool>) -> Self
        ensures { let flag = phone_number_verified in
            let standard = record self.standard_claims { phone_number_verified = flag } in
            result ≡ record self { standard_claims = standard } }
    {
        self.standard_claims = self
            .standard_claims
            .set_phone_number_verified(phone_number_verified);
        self
    }

    /// `address`: the postal address (OpenID Connect Core 1.0 section 5.1.1).
    pub fn address(&self) -> Option<&AddressClaim>
        ensures { option_copied result ≡ self.now.standard_claims.address }
    {
        self.standard_claims.address()
    }

    /// Changes `address` alone.
    pub fn set_address(mut self, address: Option<AddressClaim>) -> Self
        ensures { let standard = record self.standard_claims { address = address } in
            result ≡ record self { standard_claims = standard } }
    {
        self.standard_claims = self.standard_claims.set_address(address);
        self
    }

    /// `updated_at`: when the user's claims were last changed.
    pub fn updated_at(&self) -> Option<Timestamp>
        ensures { option_map (λ moment. moment.nanosecond) result
            ≡ self.now.standard_claims.updated_at }
    {
        self.standard_claims.updated_at()
    }

    /// Changes `updated_at` alone.
    pub fn set_updated_at(mut self, updated_at: Option<Timestamp>) -> Self
        ensures { let moment = option_map (λ moment. moment.nanosecond) updated_at in
            let standard = record self.standard_claims { updated_at = moment } in
            result ≡ record self { standard_claims = standard } }
    {
        self.standard_claims = self.standard_claims.set_updated_at(updated_at);
        self
    }
}
