//! Device authorization responses (RFC 8628 section 3.2).

ghost use Rattle.std.specs.Prelude.{◌≡◌, List, [], unwrap_or};
ghost use Rattle.std.specs.Option.{option_copied};
ghost use Rattle.std.specs.Duration.{as_nanos};
ghost use Rattle.oidc_members.specs.Answers.{Answers};
ghost use Rattle.oidc_members.specs.Seen.{SeenMember};
ghost use Rattle.oidc_readers.specs.Slots.{slot};
ghost use Rattle.oidc_oauth2.specs.DeviceFields.{device_fields};
ghost use Rattle.oidc_oauth2.specs.TokenResponse.{seconds as span};
ghost use Rattle.oidc_oauth2.specs.DeviceResponse as spec;

use crate::extra_fields::{EmptyExtraDeviceAuthorizationFields, ExtraDeviceAuthorizationFields};
use oidc_members::{Member, Members, ParseError, Reading};
use oidc_readers::{MemberReader, Once, read_fields};
use oidc_types::{DeviceCode, EndUserVerificationUrl, UserCode, VerificationUriComplete};
use std::alloc::Global;
use std::marker::Model;
use std::time::Duration;

/// A device authorization response with these extra fields. It has no `Debug`, since it holds codes.
#[derive(Drop)]
pub struct DeviceAuthorizationResponse<EF: ExtraDeviceAuthorizationFields> {
    codes: DeviceCodes,
    verification_uri_complete: Option<VerificationUriComplete>,
    interval: Duration,
    extra_fields: EF,
}

/// A device authorization response without extra fields.
pub type CoreDeviceAuthorizationResponse = DeviceAuthorizationResponse<
    EmptyExtraDeviceAuthorizationFields,
>;

impl<EF: ExtraDeviceAuthorizationFields> Model for DeviceAuthorizationResponse<EF> {
    ghost use Rattle.std.specs.Duration.{as_nanos};
    ghost use Rattle.oidc_oauth2.specs.DeviceResponse.{SeenDevice, seen_device_code};

    ghost Value = { SeenDevice EF };

    ghost coded = { seen_device_code EF.code };

    ghost view = { λ d. record {
      device_code = d.codes.device_code;
      user_code = d.codes.user_code;
      verification_uri = d.codes.verification_uri;
      expires_in = d.codes.expires_in;
      verification_uri_complete = d.verification_uri_complete;
      interval = as_nanos d.interval;
      extra_fields = d.extra_fields;
    } };
}

// The fields that have to be there.
#[derive(Drop)]
struct DeviceCodes {
    device_code: DeviceCode,
    user_code: UserCode,
    verification_uri: EndUserVerificationUrl,
    expires_in: Duration,
}

impl Model for DeviceCodes {
    ghost use Rattle.std.specs.Duration.{as_nanos};
    ghost use Rattle.oidc_oauth2.specs.DeviceResponse.{DeviceCodes as SeenCodes, device_codes_code};

    ghost Value = { SeenCodes };

    ghost coded = { device_codes_code };

    ghost view = { λ d. record {
      device_code = d.device_code;
      user_code = d.user_code;
      verification_uri = d.verification_uri;
      expires_in = as_nanos d.expires_in;
    } };
}

// The fields, as they are read.
#[derive(Drop)]
pub(crate) struct DeviceFields {
    device_code: Once<DeviceCode>,
    user_code: Once<UserCode>,
    verification_uri: Once<EndUserVerificationUrl>,
    expires_in: Once<u64>,
    verification_uri_complete: Once<Option<VerificationUriComplete>>,
    interval: Once<Option<u64>>,
}

impl DeviceFields {
    #[tactic(auto, unfolding(crate::specs::Slots::slot))]
    fn new() -> Self
        ensures { result ≡ device_fields [] }
    {
        DeviceFields {
            device_code: Once::new(),
            user_code: Once::new(),
            verification_uri: Once::new(),
            expires_in: Once::new(),
            verification_uri_complete: Once::new(),
            interval: Once::new(),
        }
    }
}

impl MemberReader for DeviceFields {
    ghost fault = { λ _. spec.device_rule };

    ghost state = { λ _. device_fields };

    fn take(
        &mut self,
        alloc: Global,
        member: &Member,
        _reading: Reading,
    ) -> Result<(), ParseError> {
        let uri = self
            .verification_uri
            .take_either(alloc, "verification_uri", "verification_url", member);
        let complete = self
            .verification_uri_complete
            .take(alloc, "verification_uri_complete", member);
        self.device_code
            .take(alloc, "device_code", member)
            .and(self.user_code.take(alloc, "user_code", member))
            .and(uri)
            .and(self.expires_in.take(alloc, "expires_in", member))
            .and(complete)
            .and(self.interval.take(alloc, "interval", member))
    }
}

// The fields that have to be there, in the order of the table.
#[tactic(auto, unfolding(crate::specs::DeviceResponse::codes_of, crate::specs::Slots::slot))]
fn codes_in(
    alloc: Global,
    device_code: Once<DeviceCode>,
    user_code: Once<UserCode>,
    verification_uri: Once<EndUserVerificationUrl>,
    expires_in: Once<u64>,
) -> Result<DeviceCodes, ParseError>
    ensures { (members : List SeenMember) → device_code ≡ slot spec.device_code members
        → user_code ≡ slot spec.user_code members
        → verification_uri ≡ slot spec.verification_uri members
        → expires_in ≡ slot spec.expires_in members
        → Answers (spec.codes_of members) result }
{
    let device_code = device_code.required(alloc, "device_code")?;
    let user_code = user_code.required(alloc, "user_code")?;
    let verification_uri = verification_uri.required(alloc, "verification_uri")?;
    let expires_in = Duration::from_secs(expires_in.required(alloc, "expires_in")?);
    Ok(DeviceCodes {
        device_code,
        user_code,
        verification_uri,
        expires_in,
    })
}

// The time between two polls.
fn interval_of(seconds: Option<u64>) -> Duration
    ensures { as_nanos result ≡ span (unwrap_or seconds 5) }
{
    Duration::from_secs(seconds.unwrap_or(5))
}

impl<EF: ExtraDeviceAuthorizationFields> DeviceAuthorizationResponse<EF> {
    /// Reads a response of its members. Without `interval` it is five seconds. `verification_url` is
    /// read as `verification_uri`; where both are there, the later one is a duplicate.
    #[tactic(auto, unfolding(crate::specs::DeviceResponse::device_of, crate::specs::Slots::slot))]
    pub fn read(alloc: Global, members: &Members) -> Result<Self, ParseError>
        ensures response { Answers (spec.device_of EF.read_of members.now.list) result }
    {
        let fields = read_fields(alloc, DeviceFields::new(), members)?;
        let codes = codes_in(
            alloc,
            fields.device_code,
            fields.user_code,
            fields.verification_uri,
            fields.expires_in,
        )?;
        let extra_fields = EF::read(alloc, members)?;
        Ok(DeviceAuthorizationResponse {
            codes,
            verification_uri_complete: fields.verification_uri_complete.optional(),
            interval: interval_of(fields.interval.optional()),
            extra_fields,
        })
    }

    /// The code with which the device asks for its token.
    pub fn device_code(&self) -> &DeviceCode
        ensures code { result.now ≡ self.now.device_code }
    {
        &self.codes.device_code
    }

    /// The code that the user types in.
    pub fn user_code(&self) -> &UserCode
        ensures code { result.now ≡ self.now.user_code }
    {
        &self.codes.user_code
    }

    /// The page at which the user types it in.
    pub fn verification_uri(&self) -> &EndUserVerificationUrl
        ensures url { result.now ≡ self.now.verification_uri }
    {
        &self.codes.verification_uri
    }

    /// How long the codes are good.
    pub fn expires_in(&self) -> Duration
        ensures span { as_nanos result ≡ self.now.expires_in }
    {
        self.codes.expires_in
    }

    /// The page with the code in its address, where there is one. It is a plain text.
    pub fn verification_uri_complete(&self) -> Option<&VerificationUriComplete>
        ensures text { option_copied result ≡ self.now.verification_uri_complete }
    {
        self.verification_uri_complete.as_ref()
    }

    /// The time between two polls.
    pub fn interval(&self) -> Duration
        ensures span { as_nanos result ≡ self.now.interval }
    {
        self.interval
    }

    /// The fields beside those of the standard.
    pub fn extra_fields(&self) -> &EF
        ensures fields { result.now ≡ self.now.extra_fields }
    {
        &self.extra_fields
    }
}
