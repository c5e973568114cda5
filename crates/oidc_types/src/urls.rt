//! The names of URLs.

ghost use Rattle.std.specs.Prelude.{codes};

use crate::text::Marker;
use crate::url_text::UrlText;

/// The name of [`AuthUrl`].
#[derive(Drop)]
pub struct AuthUrlMarker;

impl Marker for AuthUrlMarker {
    ghost name = { codes "AuthUrl" };

    fn name() -> &'static str {
        "AuthUrl"
    }
}

/// URL of the authorization endpoint (RFC 6749 section 3.1).
pub type AuthUrl = UrlText<AuthUrlMarker>;

/// The name of [`ClientConfigUrl`].
#[derive(Drop)]
pub struct ClientConfigUrlMarker;

impl Marker for ClientConfigUrlMarker {
    ghost name = { codes "ClientConfigUrl" };

    fn name() -> &'static str {
        "ClientConfigUrl"
    }
}

/// URL at which a client's registration is read (OpenID Connect Dynamic Client Registration 1.0
/// section 3.2).
pub type ClientConfigUrl = UrlText<ClientConfigUrlMarker>;

/// The name of [`ClientUrl`].
#[derive(Drop)]
pub struct ClientUrlMarker;

impl Marker for ClientUrlMarker {
    ghost name = { codes "ClientUrl" };

    fn name() -> &'static str {
        "ClientUrl"
    }
}

/// URL of a client's home page.
pub type ClientUrl = UrlText<ClientUrlMarker>;

/// The name of [`DeviceAuthorizationUrl`].
#[derive(Drop)]
pub struct DeviceAuthorizationUrlMarker;

impl Marker for DeviceAuthorizationUrlMarker {
    ghost name = { codes "DeviceAuthorizationUrl" };

    fn name() -> &'static str {
        "DeviceAuthorizationUrl"
    }
}

/// URL of the device authorization endpoint (RFC 8628 section 3.1).
pub type DeviceAuthorizationUrl = UrlText<DeviceAuthorizationUrlMarker>;

/// The name of [`EndSessionUrl`].
#[derive(Drop)]
pub struct EndSessionUrlMarker;

impl Marker for EndSessionUrlMarker {
    ghost name = { codes "EndSessionUrl" };

    fn name() -> &'static str {
        "EndSessionUrl"
    }
}

/// URL of the endpoint that signs an end user out (OpenID Connect RP-Initiated Logout 1.0
/// section 2.1).
pub type EndSessionUrl = UrlText<EndSessionUrlMarker>;

/// The name of [`EndUserVerificationUrl`].
#[derive(Drop)]
pub struct EndUserVerificationUrlMarker;

impl Marker for EndUserVerificationUrlMarker {
    ghost name = { codes "EndUserVerificationUrl" };

    fn name() -> &'static str {
        "EndUserVerificationUrl"
    }
}

/// URL at which the end user types in the user code (RFC 8628 section 3.2).
pub type EndUserVerificationUrl = UrlText<EndUserVerificationUrlMarker>;

/// The name of [`InitiateLoginUrl`].
#[derive(Drop)]
pub struct InitiateLoginUrlMarker;

impl Marker for InitiateLoginUrlMarker {
    ghost name = { codes "InitiateLoginUrl" };

    fn name() -> &'static str {
        "InitiateLoginUrl"
    }
}

/// URL by which a third party starts a login (OpenID Connect Core 1.0 section 4).
pub type InitiateLoginUrl = UrlText<InitiateLoginUrlMarker>;

/// The name of [`IntrospectionUrl`].
#[derive(Drop)]
pub struct IntrospectionUrlMarker;

impl Marker for IntrospectionUrlMarker {
    ghost name = { codes "IntrospectionUrl" };

    fn name() -> &'static str {
        "IntrospectionUrl"
    }
}

/// URL of the introspection endpoint (RFC 7662 section 2).
pub type IntrospectionUrl = UrlText<IntrospectionUrlMarker>;

/// The name of [`IssuerUrl`].
#[derive(Drop)]
pub struct IssuerUrlMarker;

impl Marker for IssuerUrlMarker {
    ghost name = { codes "IssuerUrl" };

    fn name() -> &'static str {
        "IssuerUrl"
    }
}

/// Name of an issuer, the claim `iss` (OpenID Connect Core 1.0 section 2).
pub type IssuerUrl = UrlText<IssuerUrlMarker>;

/// The name of [`JsonWebKeySetUrl`].
#[derive(Drop)]
pub struct JsonWebKeySetUrlMarker;

impl Marker for JsonWebKeySetUrlMarker {
    ghost name = { codes "JsonWebKeySetUrl" };

    fn name() -> &'static str {
        "JsonWebKeySetUrl"
    }
}

/// URL of a key set (OpenID Connect Discovery 1.0 section 3).
pub type JsonWebKeySetUrl = UrlText<JsonWebKeySetUrlMarker>;

/// The name of [`LogoUrl`].
#[derive(Drop)]
pub struct LogoUrlMarker;

impl Marker for LogoUrlMarker {
    ghost name = { codes "LogoUrl" };

    fn name() -> &'static str {
        "LogoUrl"
    }
}

/// URL of a client's logo.
pub type LogoUrl = UrlText<LogoUrlMarker>;

/// The name of [`OpPolicyUrl`].
#[derive(Drop)]
pub struct OpPolicyUrlMarker;

impl Marker for OpPolicyUrlMarker {
    ghost name = { codes "OpPolicyUrl" };

    fn name() -> &'static str {
        "OpPolicyUrl"
    }
}

/// URL of a provider's rules on what a client may do with data.
pub type OpPolicyUrl = UrlText<OpPolicyUrlMarker>;

/// The name of [`OpTosUrl`].
#[derive(Drop)]
pub struct OpTosUrlMarker;

impl Marker for OpTosUrlMarker {
    ghost name = { codes "OpTosUrl" };

    fn name() -> &'static str {
        "OpTosUrl"
    }
}

/// URL of a provider's terms of service.
pub type OpTosUrl = UrlText<OpTosUrlMarker>;

/// The name of [`PolicyUrl`].
#[derive(Drop)]
pub struct PolicyUrlMarker;

impl Marker for PolicyUrlMarker {
    ghost name = { codes "PolicyUrl" };

    fn name() -> &'static str {
        "PolicyUrl"
    }
}

/// URL of a client's rules on data.
pub type PolicyUrl = UrlText<PolicyUrlMarker>;

/// The name of [`PostLogoutRedirectUrl`].
#[derive(Drop)]
pub struct PostLogoutRedirectUrlMarker;

impl Marker for PostLogoutRedirectUrlMarker {
    ghost name = { codes "PostLogoutRedirectUrl" };

    fn name() -> &'static str {
        "PostLogoutRedirectUrl"
    }
}

/// URL to which the end user comes back after signing out (OpenID Connect RP-Initiated Logout 1.0
/// section 3).
pub type PostLogoutRedirectUrl = UrlText<PostLogoutRedirectUrlMarker>;

/// The name of [`RedirectUrl`].
#[derive(Drop)]
pub struct RedirectUrlMarker;

impl Marker for RedirectUrlMarker {
    ghost name = { codes "RedirectUrl" };

    fn name() -> &'static str {
        "RedirectUrl"
    }
}

/// URL to which the provider sends the end user back (RFC 6749 section 3.1.2).
pub type RedirectUrl = UrlText<RedirectUrlMarker>;

/// The name of [`RegistrationUrl`].
#[derive(Drop)]
pub struct RegistrationUrlMarker;

impl Marker for RegistrationUrlMarker {
    ghost name = { codes "RegistrationUrl" };

    fn name() -> &'static str {
        "RegistrationUrl"
    }
}

/// URL of the registration endpoint (OpenID Connect Dynamic Client Registration 1.0 section 3).
pub type RegistrationUrl = UrlText<RegistrationUrlMarker>;

/// The name of [`RequestUrl`].
#[derive(Drop)]
pub struct RequestUrlMarker;

impl Marker for RequestUrlMarker {
    ghost name = { codes "RequestUrl" };

    fn name() -> &'static str {
        "RequestUrl"
    }
}

/// URL of a request object (OpenID Connect Core 1.0 section 6.2).
pub type RequestUrl = UrlText<RequestUrlMarker>;

/// The name of [`RevocationUrl`].
#[derive(Drop)]
pub struct RevocationUrlMarker;

impl Marker for RevocationUrlMarker {
    ghost name = { codes "RevocationUrl" };

    fn name() -> &'static str {
        "RevocationUrl"
    }
}

/// URL of the revocation endpoint (RFC 7009 section 2).
pub type RevocationUrl = UrlText<RevocationUrlMarker>;

/// The name of [`SectorIdentifierUrl`].
#[derive(Drop)]
pub struct SectorIdentifierUrlMarker;

impl Marker for SectorIdentifierUrlMarker {
    ghost name = { codes "SectorIdentifierUrl" };

    fn name() -> &'static str {
        "SectorIdentifierUrl"
    }
}

/// URL of a list of the redirects that share pairwise names (OpenID Connect Core 1.0 section 8.1).
pub type SectorIdentifierUrl = UrlText<SectorIdentifierUrlMarker>;

/// The name of [`ServiceDocUrl`].
#[derive(Drop)]
pub struct ServiceDocUrlMarker;

impl Marker for ServiceDocUrlMarker {
    ghost name = { codes "ServiceDocUrl" };

    fn name() -> &'static str {
        "ServiceDocUrl"
    }
}

/// URL of a provider's documents for developers.
pub type ServiceDocUrl = UrlText<ServiceDocUrlMarker>;

/// The name of [`ToSUrl`].
#[derive(Drop)]
pub struct ToSUrlMarker;

impl Marker for ToSUrlMarker {
    ghost name = { codes "ToSUrl" };

    fn name() -> &'static str {
        "ToSUrl"
    }
}

/// URL of a client's terms of service.
pub type ToSUrl = UrlText<ToSUrlMarker>;

/// The name of [`TokenUrl`].
#[derive(Drop)]
pub struct TokenUrlMarker;

impl Marker for TokenUrlMarker {
    ghost name = { codes "TokenUrl" };

    fn name() -> &'static str {
        "TokenUrl"
    }
}

/// URL of the token endpoint (RFC 6749 section 3.2).
pub type TokenUrl = UrlText<TokenUrlMarker>;

/// The name of [`UserInfoUrl`].
#[derive(Drop)]
pub struct UserInfoUrlMarker;

impl Marker for UserInfoUrlMarker {
    ghost name = { codes "UserInfoUrl" };

    fn name() -> &'static str {
        "UserInfoUrl"
    }
}

/// URL of the user info endpoint (OpenID Connect Core 1.0 section 5.3).
pub type UserInfoUrl = UrlText<UserInfoUrlMarker>;
