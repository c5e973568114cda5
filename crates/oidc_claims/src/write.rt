//! The standard claims, written as members.

ghost use Rattle.std.specs.Prelude.{◌≡◌, ◌∷◌, ◌++◌, [], false, Option, IfOk, OnOk, option_map};
ghost use Rattle.std.specs.List.{All};
ghost use Rattle.std.specs.String.{string_bytes};
ghost use Rattle.std.specs.Option.{option_copied};
ghost use Rattle.serde_json.specs.Data.{Data, string, boolean};
ghost use Rattle.serde_json.specs.View.{view, members_view};
ghost use Rattle.oidc_members.specs.Write.{any_float};
ghost use Rattle.oidc_readers.specs.WrittenBack.{IsUtf8Member, KeepsUtf8};
ghost use Rattle.oidc_claims.specs.Table.{name_of};
ghost use Rattle.oidc_claims.specs.Write.{written, claim_members, plain_member};
ghost use Rattle.oidc_claims.specs.Write.{variant_member, variant_members, with_tag};
ghost use Rattle.oidc_claims.specs.Write.{address_data, put_part};
ghost use Rattle.oidc_readers.specs.Moments.{seconds_data};
ghost use Rattle.oidc_claims.specs.Write.{IsInRange, GivesClaims};

use crate::claim::Claim;
use crate::claims::{AddressClaim, StandardClaims};
use crate::gender::GenderClaim;
use jiff::Timestamp;
use oidc_members::{MemberName, OutMember};
use oidc_readers::{put, put_text, seconds_value};
use oidc_types::{LanguageTag, LocalizedClaim, Marker, Text};
use serde_json::{Map, Value};
use std::alloc::{AllocError, Global};

// How many members there is room for at once. Most sets of claims have fewer.
const ROOM: usize = 12;

/// The standard claims as members: in the order of the getters of [`StandardClaims`], which is that of
/// the table in OpenID Connect Core 1.0 section 5.1, absent claims left out. The variants of a claim
/// stand in the order of `iter`, a tag behind a `#` (section 5.2). Moments are whole seconds, rounded
/// down. The members of `address` stand in the byte order of their names. No value holds a float, and
/// all names and texts are UTF-8.
///
/// Claims are read back from the object's text of what is written, where no claim in several languages
/// is without a value, no tag is empty, and `updated_at` is at a whole second. `AllocError` is want of
/// memory, the one error.
pub fn write_standard<GC: GenderClaim>(
    alloc: Global,
    claims: &StandardClaims<GC>,
) -> Result<Vec<OutMember>, AllocError>
    ensures members { IfOk result (λ out. out.items ≡ written GC.write_of claims.now) }
    ensures no_float { IfOk result (λ out. any_float out.items ≡ false) }
    ensures texts { IfOk result (λ out. All IsUtf8Member out.items) }
    ensures reads_back { IsInRange claims.now
        → IfOk result (λ out. GivesClaims GC.read_of out.items claims.now) }
{
    let mut out = Vec::with_capacity(alloc, ROOM)?;
    for claim in Claim::ALL {
        write_claim(alloc, &mut out, claim, claims)?;
    }
    Ok(out)
}

// Appends the members of one claim.
fn write_claim<GC: GenderClaim>(
    alloc: Global,
    out: &mut Vec<OutMember>,
    claim: Claim,
    claims: &StandardClaims<GC>,
) -> Result<(), AllocError>
    ensures members { OnOk result (out.new.items
        ≡ out.old.items ++ claim_members GC.write_of claims.now claim) }
    ensures texts { OnOk result (KeepsUtf8 out.old.items out.new.items) }
{
    match claim {
        Claim::Subject => put_text(alloc, out, claim.member_name(), claims.subject.as_str()),
        Claim::Name => write_variants(alloc, out, claim, &claims.name),
        Claim::GivenName => write_variants(alloc, out, claim, &claims.given_name),
        Claim::FamilyName => write_variants(alloc, out, claim, &claims.family_name),
        Claim::MiddleName => write_variants(alloc, out, claim, &claims.middle_name),
        Claim::Nickname => write_variants(alloc, out, claim, &claims.nickname),
        Claim::PreferredUsername => write_text(alloc, out, claim, &claims.preferred_username),
        Claim::Profile => write_variants(alloc, out, claim, &claims.profile),
        Claim::Picture => write_variants(alloc, out, claim, &claims.picture),
        Claim::Website => write_variants(alloc, out, claim, &claims.website),
        Claim::Email => write_text(alloc, out, claim, &claims.email),
        Claim::EmailVerified => write_flag(out, claim, claims.email_verified),
        Claim::Gender => write_gender(alloc, out, claim, &claims.gender),
        Claim::Birthday => write_text(alloc, out, claim, &claims.birthday),
        Claim::Birthdate => write_text(alloc, out, claim, &claims.birthdate),
        Claim::Zoneinfo => write_text(alloc, out, claim, &claims.zoneinfo),
        Claim::Locale => write_text(alloc, out, claim, &claims.locale),
        Claim::PhoneNumber => write_text(alloc, out, claim, &claims.phone_number),
        Claim::PhoneNumberVerified => write_flag(out, claim, claims.phone_number_verified),
        Claim::Address => write_address(alloc, out, claim, &claims.address),
        Claim::UpdatedAt => write_moment(out, claim, claims.updated_at),
    }
}

// ---- claims of each kind

fn write_text<M: Marker>(
    alloc: Global,
    out: &mut Vec<OutMember>,
    claim: Claim,
    text: &Option<Text<M>>,
) -> Result<(), AllocError>
    ensures members { OnOk result (out.new.items
        ≡ out.old.items ++ plain_member claim (option_map string text.now)) }
    ensures texts { OnOk result (KeepsUtf8 out.old.items out.new.items) }
{
    match text {
        None => Ok(()),
        Some(text) => put_text(alloc, out, claim.member_name(), text.as_str()),
    }
}

fn write_variants<M: Marker>(
    alloc: Global,
    out: &mut Vec<OutMember>,
    claim: Claim,
    variants: &Option<LocalizedClaim<Text<M>>>,
) -> Result<(), AllocError>
    ensures members { OnOk result (out.new.items
        ≡ out.old.items ++ variant_members claim variants.now) }
    ensures texts { OnOk result (KeepsUtf8 out.old.items out.new.items) }
{
    match variants {
        None => Ok(()),
        Some(variants) => {
            for (tag, text) in variants.iter() {
                write_variant(alloc, out, claim, tag, text)?;
            }
            Ok(())
        }
    }
}

fn write_variant<M: Marker>(
    alloc: Global,
    out: &mut Vec<OutMember>,
    claim: Claim,
    tag: Option<&LanguageTag>,
    text: &Text<M>,
) -> Result<(), AllocError>
    ensures members { OnOk result (out.new.items
        ≡ out.old.items ++ variant_member claim (option_copied tag.entry, text.now) ∷ []) }
    ensures texts { OnOk result (KeepsUtf8 out.old.items out.new.items) }
{
    match tag {
        None => put_text(alloc, out, claim.member_name(), text.as_str()),
        Some(tag) => {
            let name = tagged_name(alloc, claim, tag)?;
            put_text(alloc, out, MemberName::new(name), text.as_str())
        }
    }
}

fn write_flag(out: &mut Vec<OutMember>, claim: Claim, flag: Option<bool>) -> Result<(), AllocError>
    ensures members { OnOk result (out.new.items
        ≡ out.old.items ++ plain_member claim (option_map boolean flag)) }
    ensures texts { OnOk result (KeepsUtf8 out.old.items out.new.items) }
{
    match flag {
        None => Ok(()),
        Some(flag) => put(out, claim.member_name(), Value::Bool(flag)),
    }
}

fn write_gender<GC: GenderClaim>(
    alloc: Global,
    out: &mut Vec<OutMember>,
    claim: Claim,
    gender: &Option<GC>,
) -> Result<(), AllocError>
    ensures members { OnOk result (out.new.items
        ≡ out.old.items ++ plain_member claim (option_map GC.write_of gender.now)) }
    ensures texts { OnOk result (KeepsUtf8 out.old.items out.new.items) }
{
    match gender {
        None => Ok(()),
        Some(gender) => put(out, claim.member_name(), gender.write(alloc)?),
    }
}

fn write_address(
    alloc: Global,
    out: &mut Vec<OutMember>,
    claim: Claim,
    address: &Option<AddressClaim>,
) -> Result<(), AllocError>
    ensures members { OnOk result (out.new.items
        ≡ out.old.items ++ plain_member claim (option_map address_data address.now)) }
    ensures texts { OnOk result (KeepsUtf8 out.old.items out.new.items) }
{
    match address {
        None => Ok(()),
        Some(address) => put(out, claim.member_name(), address_value(alloc, address)?),
    }
}

fn write_moment(
    out: &mut Vec<OutMember>,
    claim: Claim,
    moment: Option<Timestamp>,
) -> Result<(), AllocError>
    ensures members { OnOk result (
        let seconds : Option Data = option_map (λ moment. seconds_data moment.nanosecond) moment in
        out.new.items ≡ out.old.items ++ plain_member claim seconds) }
    ensures texts { OnOk result (KeepsUtf8 out.old.items out.new.items) }
{
    match moment {
        None => Ok(()),
        Some(moment) => put(out, claim.member_name(), seconds_value(moment)),
    }
}

// ---- names and values

// A claim's name, with this tag behind a `#`.
fn tagged_name(alloc: Global, claim: Claim, tag: &LanguageTag) -> Result<String, AllocError>
    ensures { IfOk result (λ name.
        string_bytes name ≡ with_tag (name_of claim) (Some tag.now)) }
{
    let mut name = String::from_str(alloc, claim.name())?;
    name.push_str("#")?;
    name.push_str(tag.as_str())?;
    Ok(name)
}

fn text_value(alloc: Global, text: &str) -> Result<Value, AllocError>
    ensures { IfOk result (λ value. view value ≡ string text.now) }
{
    Ok(Value::String(String::from_str(alloc, text)?))
}

fn address_value(alloc: Global, address: &AddressClaim) -> Result<Value, AllocError>
    ensures { IfOk result (λ value. view value ≡ address_data address.now) }
{
    let mut parts = Map::new(alloc);
    insert_part(alloc, &mut parts, "street_address", &address.street_address)?;
    insert_part(alloc, &mut parts, "region", &address.region)?;
    insert_part(alloc, &mut parts, "postal_code", &address.postal_code)?;
    insert_part(alloc, &mut parts, "locality", &address.locality)?;
    insert_part(alloc, &mut parts, "formatted", &address.formatted)?;
    insert_part(alloc, &mut parts, "country", &address.country)?;
    Ok(Value::Object(parts))
}

fn insert_part<M: Marker>(
    alloc: Global,
    parts: &mut Map<String, Value>,
    name: &str,
    part: &Option<Text<M>>,
) -> Result<(), AllocError>
    ensures { OnOk result (members_view parts.new.entries
        ≡ put_part name.now part.now (members_view parts.old.entries)) }
{
    match part {
        None => Ok(()),
        Some(text) => {
            let name = String::from_str(alloc, name)?;
            let value = text_value(alloc, text.as_str())?;
            parts.insert(name, value)?;
            Ok(())
        }
    }
}
