// The table of the standard claims.
ghost use Rattle.std.specs.Prelude.{◌≡◌};
ghost use Rattle.std.specs.List.{find};
ghost use Rattle.std.specs.Str.{bytes_eq};
ghost use Rattle.oidc_claims.specs.Table.{name_of, kind_of, claim_of, base_of, claims_of_length};

use crate::name::base_of_name;
use oidc_members::{Member, MemberName};
use oidc_readers::named;

/// A standard claim (OpenID Connect Core 1.0 section 5.1).
#[derive(Clone, Copy, Debug, Drop, PartialEq, Eq)]
pub(crate) enum Claim {
    /// `sub`
    Subject,
    /// `name`
    Name,
    /// `given_name`
    GivenName,
    /// `family_name`
    FamilyName,
    /// `middle_name`
    MiddleName,
    /// `nickname`
    Nickname,
    /// `preferred_username`
    PreferredUsername,
    /// `profile`
    Profile,
    /// `picture`
    Picture,
    /// `website`
    Website,
    /// `email`
    Email,
    /// `email_verified`
    EmailVerified,
    /// `gender`
    Gender,
    /// `birthday`
    Birthday,
    /// `birthdate`
    Birthdate,
    /// `zoneinfo`
    Zoneinfo,
    /// `locale`
    Locale,
    /// `phone_number`
    PhoneNumber,
    /// `phone_number_verified`
    PhoneNumberVerified,
    /// `address`
    Address,
    /// `updated_at`
    UpdatedAt,
}

/// What a claim's value is. It may be null, but for a required text.
#[derive(Clone, Copy, Debug, Drop, PartialEq, Eq)]
pub(crate) enum ClaimKind {
    /// A text that has to be there.
    RequiredText,
    /// A text.
    Text,
    /// A text, which may stand in several languages (OpenID Connect Core 1.0 section 5.2).
    LocalizedText,
    /// True or false.
    Flag,
    /// A whole number of seconds since the Unix epoch.
    Moment,
    /// An object of texts (OpenID Connect Core 1.0 section 5.1.1).
    Address,
    /// What the caller's `GenderClaim` reads.
    Gender,
}

impl Claim {
    /// Every claim, in the order in which they are written.
    pub const ALL: [Claim; 21] = [
        Claim::Subject,
        Claim::Name,
        Claim::GivenName,
        Claim::FamilyName,
        Claim::MiddleName,
        Claim::Nickname,
        Claim::PreferredUsername,
        Claim::Profile,
        Claim::Picture,
        Claim::Website,
        Claim::Email,
        Claim::EmailVerified,
        Claim::Gender,
        Claim::Birthday,
        Claim::Birthdate,
        Claim::Zoneinfo,
        Claim::Locale,
        Claim::PhoneNumber,
        Claim::PhoneNumberVerified,
        Claim::Address,
        Claim::UpdatedAt,
    ];

    /// The name of its member.
    pub fn name(self) -> &'static str
        ensures { result.now ≡ name_of self }
    {
        match self {
            Claim::Subject => "sub",
            Claim::Name => "name",
            Claim::GivenName => "given_name",
            Claim::FamilyName => "family_name",
            Claim::MiddleName => "middle_name",
            Claim::Nickname => "nickname",
            Claim::PreferredUsername => "preferred_username",
            Claim::Profile => "profile",
            Claim::Picture => "picture",
            Claim::Website => "website",
            Claim::Email => "email",
            Claim::EmailVerified => "email_verified",
            Claim::Gender => "gender",
            Claim::Birthday => "birthday",
            Claim::Birthdate => "birthdate",
            Claim::Zoneinfo => "zoneinfo",
            Claim::Locale => "locale",
            Claim::PhoneNumber => "phone_number",
            Claim::PhoneNumberVerified => "phone_number_verified",
            Claim::Address => "address",
            Claim::UpdatedAt => "updated_at",
        }
    }

    // The name of the member that it is written as.
    pub(crate) fn member_name(self) -> MemberName
        ensures { result ≡ name_of self }
    {
        named(self.name())
    }

    /// What its value is.
    pub fn kind(self) -> ClaimKind
        ensures { result ≡ kind_of self }
    {
        match self {
            Claim::Subject => ClaimKind::RequiredText,
            Claim::Name
            | Claim::GivenName
            | Claim::FamilyName
            | Claim::MiddleName
            | Claim::Nickname
            | Claim::Profile
            | Claim::Picture
            | Claim::Website => ClaimKind::LocalizedText,
            Claim::EmailVerified | Claim::PhoneNumberVerified => ClaimKind::Flag,
            Claim::UpdatedAt => ClaimKind::Moment,
            Claim::Address => ClaimKind::Address,
            Claim::Gender => ClaimKind::Gender,
            _ => ClaimKind::Text,
        }
    }

    // The claims whose names have so many bytes.
    fn of_length(size: usize) -> &'static [Claim]
        ensures { result.now ≡ claims_of_length size }
    {
        match size {
            3 => &[Claim::Subject],
            4 => &[Claim::Name],
            5 => &[Claim::Email],
            6 => &[Claim::Gender, Claim::Locale],
            7 => &[
                Claim::Profile,
                Claim::Picture,
                Claim::Website,
                Claim::Address,
            ],
            8 => &[Claim::Nickname, Claim::Birthday, Claim::Zoneinfo],
            9 => &[Claim::Birthdate],
            10 => &[Claim::GivenName, Claim::UpdatedAt],
            11 => &[Claim::FamilyName, Claim::MiddleName],
            12 => &[Claim::PhoneNumber],
            14 => &[Claim::EmailVerified],
            18 => &[Claim::PreferredUsername],
            21 => &[Claim::PhoneNumberVerified],
            _ => &[],
        }
    }

    // The first of these claims that a base names.
    fn named(base: &str, claims: &[Claim]) -> Option<Claim>
        ensures { result ≡ find (λ claim. bytes_eq (name_of claim) base.now) claims.now }
    {
        claims.iter().copied().find(|claim| claim.name() == base)
    }

    /// The claim that a base names, if it names one. It is asked for each member of claims, so that
    /// only names of the base's length are compared.
    pub fn of_base(base: &str) -> Option<Claim>
        ensures { result ≡ claim_of base.now }
    {
        Claim::named(base, Claim::of_length(base.len()))
    }

    /// The claim that a member's name is of: that of its base, whatever its tag.
    pub fn of_name(name: &str) -> Option<Claim>
        ensures { result ≡ claim_of (base_of name.now) }
    {
        Claim::of_base(base_of_name(name))
    }

    // The claim that a member is of.
    pub(crate) fn of_member(member: &Member) -> Option<Claim>
        ensures { result ≡ claim_of (base_of member.now.name) }
    {
        Claim::of_name(member.name())
    }
}
