//! What a provider double is made with.

ghost use Rattle.std.specs.Prelude.{◌≡◌};
ghost use Rattle.std.specs.List.{list_any};
ghost use Rattle.std.specs.Str.{bytes_eq};
ghost use Rattle.oidc_provider.specs.Settings as spec;

use oidc_types::{ClientId, ClientSecret, IssuerUrl, RedirectUrl, TokenUrl, UserInfoUrl};

/// A provider's issuer and its two endpoints beside that for authorization, whose URL a client alone has to know.
#[derive(Drop)]
pub struct ProviderSettings {
    /// The issuer of its ID tokens (OpenID Connect Core 1.0 section 2).
    pub issuer: IssuerUrl,
    /// Its token endpoint (RFC 6749 section 3.2).
    pub token: TokenUrl,
    /// Its user info endpoint (OpenID Connect Core 1.0 section 5.3).
    pub user_info: UserInfoUrl,
}

/// A client that a provider knows (RFC 6749 section 2). It has no `Debug`, since it holds a secret.
#[derive(Drop)]
pub struct Registration {
    /// The client's ID.
    pub client_id: ClientId,
    /// The client's secret, by which it authenticates, and under which its ID tokens are signed.
    pub secret: ClientSecret,
    /// The one redirect that it may name, as a text.
    pub redirect: RedirectUrl,
}

// Whether one of these has this client ID.
fn has_client(registrations: &[Registration], id: &str) -> bool
    ensures { result ≡ list_any (λ r. bytes_eq r.client_id id.now) registrations.now }
{
    match registrations {
        [] => false,
        [first, later @ ..] => {
            if first.client_id.as_str() == id {
                return true;
            }
            has_client(later, id)
        }
    }
}

// Whether two registrations have one client ID.
pub(crate) fn has_same_client(registrations: &[Registration]) -> bool
    ensures { result ≡ spec.has_same_client registrations.now }
{
    match registrations {
        [] => false,
        [first, later @ ..] => {
            if has_client(later, first.client_id.as_str()) {
                return true;
            }
            has_same_client(later)
        }
    }
}
