//! The login of a device, whose user signs in elsewhere (RFC 8628): a machine that never sleeps, and that is handed each
//! moment. Its page is that of `oidc_device`, which has its laws too.

pub use oidc_device::{
    CoreDeviceClient, DeviceClient, DeviceError, DeviceIdToken, DeviceLogin, DeviceSignedIn,
    DeviceStep, StartError,
};
