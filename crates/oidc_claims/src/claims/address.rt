//! The claim `address` (OpenID Connect Core 1.0 section 5.1.1).

ghost use Rattle.std.specs.Prelude.{◌≡◌, IfOk, OnOk};

use crate::claims::copies::copy_text;
use oidc_types::{
    AddressCountry, AddressLocality, AddressPostalCode, AddressRegion, FormattedAddress,
    StreetAddress,
};
use std::alloc::{AllocError, Global};

/// A postal address. Each part is optional, and no part says anything of another.
#[derive(Default, Drop)]
pub struct AddressClaim {
    /// The whole address as it is shown, in one or more lines.
    pub formatted: Option<FormattedAddress>,
    /// The street, the house number, the post office box and the like, in one or more lines.
    pub street_address: Option<StreetAddress>,
    /// The city or locality.
    pub locality: Option<AddressLocality>,
    /// The state, province, prefecture or region.
    pub region: Option<AddressRegion>,
    /// The postal code.
    pub postal_code: Option<AddressPostalCode>,
    /// The country.
    pub country: Option<AddressCountry>,
}

impl AddressClaim {
    /// A copy, which equals its source. `AllocError` is want of memory, the one error.
    pub fn clone_in(&self, alloc: Global) -> Result<Self, AllocError>
        ensures copy { IfOk result (λ copy. copy ≡ self.now) }
    {
        let mut copy = AddressClaim::default();
        match copy.copy_parts(alloc, self) {
            Ok(()) => Ok(copy),
            Err(error) => {
                drop(copy);
                Err(error)
            }
        }
    }

    // Puts copies of all parts into the place of these.
    fn copy_parts(&mut self, alloc: Global, address: &AddressClaim) -> Result<(), AllocError>
        ensures { OnOk result (self.new ≡ address.now) }
    {
        copy_text(alloc, &mut self.formatted, &address.formatted)?;
        copy_text(alloc, &mut self.street_address, &address.street_address)?;
        copy_text(alloc, &mut self.locality, &address.locality)?;
        copy_text(alloc, &mut self.region, &address.region)?;
        copy_text(alloc, &mut self.postal_code, &address.postal_code)?;
        copy_text(alloc, &mut self.country, &address.country)
    }
}

/// Equal where each part is, a missing one to a missing one.
impl PartialEq for AddressClaim {
    ghost use Rattle.oidc_claims.specs.SameClaims.{same_address};
    ghost use Rattle.oidc_claims.specs.SameClaims.{address_equality};

    ghost eq = { same_address };

    ghost laws = { address_equality };

    fn eq(&self, other: &AddressClaim) -> bool {
        self.formatted == other.formatted
            && self.street_address == other.street_address
            && self.locality == other.locality
            && self.region == other.region
            && self.postal_code == other.postal_code
            && self.country == other.country
    }
}
