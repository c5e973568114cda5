//! The names of texts that are not shown.

ghost use Rattle.std.specs.Prelude.{codes};

use crate::secret::Secret;
use crate::text::Marker;

/// The name of [`AccessToken`].
#[derive(Drop)]
pub struct AccessTokenMarker;

impl Marker for AccessTokenMarker {
    ghost name = { codes "AccessToken" };

    fn name() -> &'static str {
        "AccessToken"
    }
}

/// Access token (RFC 6749 section 1.4).
pub type AccessToken = Secret<AccessTokenMarker>;

/// The name of [`AuthorizationCode`].
#[derive(Drop)]
pub struct AuthorizationCodeMarker;

impl Marker for AuthorizationCodeMarker {
    ghost name = { codes "AuthorizationCode" };

    fn name() -> &'static str {
        "AuthorizationCode"
    }
}

/// Authorization code (RFC 6749 section 1.3.1).
pub type AuthorizationCode = Secret<AuthorizationCodeMarker>;

/// The name of [`ClientSecret`].
#[derive(Drop)]
pub struct ClientSecretMarker;

impl Marker for ClientSecretMarker {
    ghost name = { codes "ClientSecret" };

    fn name() -> &'static str {
        "ClientSecret"
    }
}

/// Password of a client (RFC 6749 section 2.3.1).
pub type ClientSecret = Secret<ClientSecretMarker>;

/// The name of [`CsrfToken`].
#[derive(Drop)]
pub struct CsrfTokenMarker;

impl Marker for CsrfTokenMarker {
    ghost name = { codes "CsrfToken" };

    fn name() -> &'static str {
        "CsrfToken"
    }
}

/// State that ties a callback to its request (RFC 6749 section 10.12).
pub type CsrfToken = Secret<CsrfTokenMarker>;

/// The name of [`DeviceCode`].
#[derive(Drop)]
pub struct DeviceCodeMarker;

impl Marker for DeviceCodeMarker {
    ghost name = { codes "DeviceCode" };

    fn name() -> &'static str {
        "DeviceCode"
    }
}

/// Code by which a device asks for its token (RFC 8628 section 3.2).
pub type DeviceCode = Secret<DeviceCodeMarker>;

/// The name of [`LoginHint`].
#[derive(Drop)]
pub struct LoginHintMarker;

impl Marker for LoginHintMarker {
    ghost name = { codes "LoginHint" };

    fn name() -> &'static str {
        "LoginHint"
    }
}

/// Hint about the name that the end user may sign in by (OpenID Connect Core 1.0 section 3.1.2.1).
pub type LoginHint = Secret<LoginHintMarker>;

/// The name of [`LogoutHint`].
#[derive(Drop)]
pub struct LogoutHintMarker;

impl Marker for LogoutHintMarker {
    ghost name = { codes "LogoutHint" };

    fn name() -> &'static str {
        "LogoutHint"
    }
}

/// Hint about the end user who signs out (OpenID Connect RP-Initiated Logout 1.0 section 2).
pub type LogoutHint = Secret<LogoutHintMarker>;

/// The name of [`Nonce`].
#[derive(Drop)]
pub struct NonceMarker;

impl Marker for NonceMarker {
    ghost name = { codes "Nonce" };

    fn name() -> &'static str {
        "Nonce"
    }
}

/// Text that ties an ID token to its request (OpenID Connect Core 1.0 section 3.1.2.1).
pub type Nonce = Secret<NonceMarker>;

/// The name of [`PkceCodeVerifier`].
#[derive(Drop)]
pub struct PkceCodeVerifierMarker;

impl Marker for PkceCodeVerifierMarker {
    ghost name = { codes "PkceCodeVerifier" };

    fn name() -> &'static str {
        "PkceCodeVerifier"
    }
}

/// Secret that shows that a code comes back from where it was asked for (RFC 7636 section 4.1).
pub type PkceCodeVerifier = Secret<PkceCodeVerifierMarker>;

/// The name of [`RefreshToken`].
#[derive(Drop)]
pub struct RefreshTokenMarker;

impl Marker for RefreshTokenMarker {
    ghost name = { codes "RefreshToken" };

    fn name() -> &'static str {
        "RefreshToken"
    }
}

/// Refresh token (RFC 6749 section 1.5).
pub type RefreshToken = Secret<RefreshTokenMarker>;

/// The name of [`RegistrationAccessToken`].
#[derive(Drop)]
pub struct RegistrationAccessTokenMarker;

impl Marker for RegistrationAccessTokenMarker {
    ghost name = { codes "RegistrationAccessToken" };

    fn name() -> &'static str {
        "RegistrationAccessToken"
    }
}

/// Access token for a client's registration (OpenID Connect Dynamic Client Registration 1.0
/// section 3.2).
pub type RegistrationAccessToken = Secret<RegistrationAccessTokenMarker>;

/// The name of [`ResourceOwnerPassword`].
#[derive(Drop)]
pub struct ResourceOwnerPasswordMarker;

impl Marker for ResourceOwnerPasswordMarker {
    ghost name = { codes "ResourceOwnerPassword" };

    fn name() -> &'static str {
        "ResourceOwnerPassword"
    }
}

/// Password of a resource owner (RFC 6749 section 4.3.2).
pub type ResourceOwnerPassword = Secret<ResourceOwnerPasswordMarker>;

/// The name of [`UserCode`].
#[derive(Drop)]
pub struct UserCodeMarker;

impl Marker for UserCodeMarker {
    ghost name = { codes "UserCode" };

    fn name() -> &'static str {
        "UserCode"
    }
}

/// Code that the end user types in (RFC 8628 section 3.2).
pub type UserCode = Secret<UserCodeMarker>;

/// The name of [`VerificationUriComplete`].
#[derive(Drop)]
pub struct VerificationUriCompleteMarker;

impl Marker for VerificationUriCompleteMarker {
    ghost name = { codes "VerificationUriComplete" };

    fn name() -> &'static str {
        "VerificationUriComplete"
    }
}

/// Address that holds the user code too (RFC 8628 section 3.2).
pub type VerificationUriComplete = Secret<VerificationUriCompleteMarker>;
