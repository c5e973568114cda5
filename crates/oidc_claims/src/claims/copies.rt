// Copies of optional claims, each put into the place of a claim. A copy that grows in place is one value,
// which is let go by one call where memory is wanting.
ghost use Rattle.std.specs.Prelude.{◌≡◌, IfOk, OnOk};

use crate::claims::address::AddressClaim;
use crate::gender::GenderClaim;
use oidc_types::{LocalizedClaim, Marker, Text};
use std::alloc::{AllocError, Global};

// A copy of a text, where there is one.
fn copied_text<M: Marker>(
    alloc: Global,
    text: &Option<Text<M>>,
) -> Result<Option<Text<M>>, AllocError>
    ensures { IfOk result (λ copy. copy ≡ text.now) }
{
    match text {
        None => Ok(None),
        Some(text) => Ok(Some(text.clone_in(alloc)?)),
    }
}

// A copy of a claim in several languages, where there is one.
fn copied_localized<M: Marker>(
    alloc: Global,
    localized: &Option<LocalizedClaim<Text<M>>>,
) -> Result<Option<LocalizedClaim<Text<M>>>, AllocError>
    ensures { IfOk result (λ copy. copy ≡ localized.now) }
{
    match localized {
        None => Ok(None),
        Some(localized) => Ok(Some(localized.clone_in(alloc)?)),
    }
}

// A copy of a gender, where there is one.
fn copied_gender<GC: GenderClaim>(
    alloc: Global,
    gender: &Option<GC>,
) -> Result<Option<GC>, AllocError>
    ensures { IfOk result (λ copy. copy ≡ gender.now) }
{
    match gender {
        None => Ok(None),
        Some(gender) => Ok(Some(gender.clone_in(alloc)?)),
    }
}

// A copy of an address, where there is one.
fn copied_address(
    alloc: Global,
    address: &Option<AddressClaim>,
) -> Result<Option<AddressClaim>, AllocError>
    ensures { IfOk result (λ copy. copy ≡ address.now) }
{
    match address {
        None => Ok(None),
        Some(address) => Ok(Some(address.clone_in(alloc)?)),
    }
}

/// Puts a copy of a text, where there is one, into a place.
pub(crate) fn copy_text<M: Marker>(
    alloc: Global,
    place: &mut Option<Text<M>>,
    text: &Option<Text<M>>,
) -> Result<(), AllocError>
    ensures { OnOk result (place.new ≡ text.now) }
{
    *place = copied_text(alloc, text)?;
    Ok(())
}

/// Puts a copy of a claim in several languages, where there is one, into a place.
pub(crate) fn copy_localized<M: Marker>(
    alloc: Global,
    place: &mut Option<LocalizedClaim<Text<M>>>,
    localized: &Option<LocalizedClaim<Text<M>>>,
) -> Result<(), AllocError>
    ensures { OnOk result (place.new ≡ localized.now) }
{
    *place = copied_localized(alloc, localized)?;
    Ok(())
}

/// Puts a copy of a gender, where there is one, into a place.
pub(crate) fn copy_gender<GC: GenderClaim>(
    alloc: Global,
    place: &mut Option<GC>,
    gender: &Option<GC>,
) -> Result<(), AllocError>
    ensures { OnOk result (place.new ≡ gender.now) }
{
    *place = copied_gender(alloc, gender)?;
    Ok(())
}

/// Puts a copy of an address, where there is one, into a place.
pub(crate) fn copy_address(
    alloc: Global,
    place: &mut Option<AddressClaim>,
    address: &Option<AddressClaim>,
) -> Result<(), AllocError>
    ensures { OnOk result (place.new ≡ address.now) }
{
    *place = copied_address(alloc, address)?;
    Ok(())
}
