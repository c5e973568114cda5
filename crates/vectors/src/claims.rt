//! The standard claims, and the claims beside them.
ghost use Rattle.std.specs.Prelude.{◌≡◌, IfOk, IsTrue};
ghost use Rattle.oidc_claims.specs.Additional.{are_additional};
ghost use Rattle.oidc_claims.specs.Home.{is_additional};

use case_lines::{Case, CaseError, object, ok_form, reading_in, refused_as};
use oidc_claims::{
    AdditionalClaims, AllOtherClaims, Home, PlacedError, StandardClaims, USER_INFO_FIELDS, belongs,
    read_standard, write_standard,
};
use oidc_members::{Member, Members, ParseError, Refusal};
use oidc_pairs::FormText;
use oidc_types::CoreGenderClaim;
use std::alloc::{AllocError, Global};

type Claims = StandardClaims<CoreGenderClaim>;

/// `standard`: the claims of an object by the fields of user info, under a reading, written again, and the
/// additional ones that `AllOtherClaims` keeps.
pub(crate) fn standard(alloc: Global, case: &Case) -> Result<String, CaseError> {
    case.check_with(&["text"], &["reading"])?;
    let reading = reading_in(case)?;
    match Members::split(alloc, case.value("text").as_bytes()) {
        Ok(members) => read_and_written(alloc, &members.with_reading(reading)),
        Err(ParseError::Refused(refusal)) => refused_at(alloc, "", &refusal),
        Err(ParseError::Memory) => Err(CaseError::Memory),
    }
}

// The claims of these members, written again.
fn read_and_written(alloc: Global, members: &Members) -> Result<String, CaseError> {
    let read = read_standard(alloc, members);
    let line = read_line(alloc, members, &read);
    drop(read);
    line
}

fn read_line(
    alloc: Global,
    members: &Members,
    read: &Result<Claims, PlacedError>,
) -> Result<String, CaseError> {
    match read {
        Ok(claims) => claims_line(alloc, members, claims),
        Err(PlacedError::Refused { place, refusal }) => {
            let place = format!(in alloc; "{place}")?;
            refused_at(alloc, place.as_str(), refusal)
        }
        Err(PlacedError::Memory) => Err(CaseError::Memory),
    }
}

fn refused_at(alloc: Global, place: &str, refusal: &Refusal) -> Result<String, CaseError> {
    let mut form = FormText::new(alloc);
    form.push("place", place)?;
    refused_as(alloc, form, refusal)
}

fn claims_line(alloc: Global, members: &Members, claims: &Claims) -> Result<String, CaseError> {
    let claims = written_claims(alloc, claims)?;
    let additional = additional(alloc, members)?;
    let mut form = FormText::new(alloc);
    form.push("claims", claims.as_str())?;
    form.push("additional", additional.as_str())?;
    ok_form(alloc, form)
}

// The text of the object that claims are written as.
fn written_claims(alloc: Global, claims: &Claims) -> Result<String, CaseError> {
    let members = write_standard(alloc, claims)?;
    object(alloc, members.as_slice())
}

// The additional members, read and written.
fn additional(alloc: Global, members: &Members) -> Result<String, CaseError> {
    let members = additional_members(alloc, members.as_slice())?;
    match AllOtherClaims::read(alloc, members.as_slice()) {
        Ok(kept) => written(alloc, &kept),
        Err(_) => Err(CaseError::Memory),
    }
}

fn written(alloc: Global, claims: &AllOtherClaims) -> Result<String, CaseError> {
    let members = claims.write(alloc)?;
    object(alloc, members.as_slice())
}

fn is_additional_name(name: &str) -> bool
    ensures { result ≡ is_additional name.now }
{
    matches!(belongs(name, &USER_INFO_FIELDS), Home::Additional)
}

/// The additional ones of these members.
pub(crate) fn additional_members(
    alloc: Global,
    members: &[Member],
) -> Result<Vec<Member>, AllocError>
    ensures { IfOk result (λ members. IsTrue (are_additional members.items)) }
{
    let mut additional = Vec::new(alloc);
    for member in members {
        if is_additional_name(member.name()) {
            additional.push(member.clone_in(alloc)?)?;
        }
    }
    Ok(additional)
}
