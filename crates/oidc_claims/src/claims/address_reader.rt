// The parts of an address, read from the text of its member.
ghost use Rattle.std.specs.Prelude.{◌≡◌, List, []};
ghost use Rattle.oidc_members.specs.Answers.{Answers};
ghost use Rattle.oidc_members.specs.Seen.{SeenMember};
ghost use Rattle.oidc_claims.specs.Address.{part_name, address_rule, address_of, address_in as address_in_members, address_kind};
ghost use Rattle.oidc_claims.specs.Reader.{address_reader_of};

use crate::claims::address::AddressClaim;
use oidc_members::{Member, Members, ParseError, ParseKind, Reading};
use oidc_readers::{FieldValue, MemberReader, Once, read_fields, refused};
use oidc_types::{
    AddressCountry, AddressLocality, AddressPostalCode, AddressRegion, FormattedAddress,
    StreetAddress,
};
use std::alloc::Global;

/// A part of an address (OpenID Connect Core 1.0 section 5.1.1).
#[derive(Clone, Copy, Drop)]
pub(crate) enum AddressPart {
    Formatted,
    StreetAddress,
    Locality,
    Region,
    PostalCode,
    Country,
}

impl AddressPart {
    /// The name of its member.
    pub(crate) fn name(self) -> &'static str
        ensures { result.now ≡ part_name self }
    {
        match self {
            AddressPart::Formatted => "formatted",
            AddressPart::StreetAddress => "street_address",
            AddressPart::Locality => "locality",
            AddressPart::Region => "region",
            AddressPart::PostalCode => "postal_code",
            AddressPart::Country => "country",
        }
    }
}

// The parts, as they are read.
#[derive(Drop)]
pub(crate) struct AddressReader {
    formatted: Once<Option<FormattedAddress>>,
    street_address: Once<Option<StreetAddress>>,
    locality: Once<Option<AddressLocality>>,
    region: Once<Option<AddressRegion>>,
    postal_code: Once<Option<AddressPostalCode>>,
    country: Once<Option<AddressCountry>>,
}

impl AddressReader {
    #[tactic(auto, unfolding(oidc_readers::specs::Slots::slot))]
    fn new() -> Self
        ensures { result ≡ address_reader_of [] }
    {
        AddressReader {
            formatted: Once::new(),
            street_address: Once::new(),
            locality: Once::new(),
            region: Once::new(),
            postal_code: Once::new(),
            country: Once::new(),
        }
    }

    // The address in the end.
    #[tactic(auto, unfolding(crate::specs::Address::address_of, oidc_readers::specs::Slots::slot))]
    fn into_address(self) -> AddressClaim
        ensures { (members : List SeenMember) → self ≡ address_reader_of members
            → result ≡ address_of members }
    {
        AddressClaim {
            formatted: self.formatted.optional(),
            street_address: self.street_address.optional(),
            locality: self.locality.optional(),
            region: self.region.optional(),
            postal_code: self.postal_code.optional(),
            country: self.country.optional(),
        }
    }
}

impl MemberReader for AddressReader {
    ghost fault = { λ _. address_rule };

    ghost state = { λ _. address_reader_of };

    fn take(
        &mut self,
        alloc: Global,
        member: &Member,
        _reading: Reading,
    ) -> Result<(), ParseError> {
        self.formatted
            .take(alloc, AddressPart::Formatted.name(), member)
            .and(
                self.street_address
                    .take(alloc, AddressPart::StreetAddress.name(), member),
            )
            .and(
                self.locality
                    .take(alloc, AddressPart::Locality.name(), member),
            )
            .and(self.region.take(alloc, AddressPart::Region.name(), member))
            .and(
                self.postal_code
                    .take(alloc, AddressPart::PostalCode.name(), member),
            )
            .and(
                self.country
                    .take(alloc, AddressPart::Country.name(), member),
            )
    }
}

// The address that an object's members are.
fn address_in(alloc: Global, members: &Members) -> Result<AddressClaim, ParseError>
    ensures { Answers (address_in_members members.now.list) result }
{
    Ok(read_fields(alloc, AddressReader::new(), members)?.into_address())
}

/// An object of optional texts.
impl FieldValue for AddressClaim {
    ghost read_of = { λ _. address_kind };

    fn read(alloc: Global, member: &Member, _reading: Reading) -> Result<AddressClaim, ParseError> {
        if !member.value().is_object() {
            return Err(refused(alloc, ParseKind::WrongType, member.name()));
        }
        let members = Members::split(alloc, member.text())?;
        address_in(alloc, &members)
    }
}
