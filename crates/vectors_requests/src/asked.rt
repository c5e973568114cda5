//! What a line adds to a request, and the line that answers it.

use case_lines::{Case, CaseError, Refused, extra_in, refused_word, request_line};
use oidc_oauth2::{
    ConfigurationError, CoreRevocableToken, CoreRevocationErrorResponse,
    CoreTokenIntrospectionResponse, EmptyExtraDeviceAuthorizationFields, HttpRequest, PrepareError,
};
use oidc_oauth2_requests::{
    ClientCredentialsTokenRequest, DeviceAccessTokenRequest, DeviceAuthorizationRequest,
    IntrospectionRequest, PasswordTokenRequest, RefreshTokenRequest, RevocationRequest,
};
use oidc_tokens::CoreTokenResponse;
use oidc_types::Scope;
use std::alloc::{AllocError, Global};

type Refresh<'a> = RefreshTokenRequest<'a, Refused, CoreTokenResponse>;

type Password<'a> = PasswordTokenRequest<'a, Refused, CoreTokenResponse>;

type ClientCredentials<'a> = ClientCredentialsTokenRequest<'a, Refused, CoreTokenResponse>;

type DeviceToken<'a> = DeviceAccessTokenRequest<
    'a,
    CoreTokenResponse,
    EmptyExtraDeviceAuthorizationFields,
>;

type Device<'a> = DeviceAuthorizationRequest<'a, Refused>;

/// The request about a token.
pub(crate) type Introspection<'a> = IntrospectionRequest<
    'a,
    Refused,
    CoreTokenIntrospectionResponse,
>;

type Revocation<'a> = RevocationRequest<'a, CoreRevocableToken, CoreRevocationErrorResponse>;

/// A request that a client makes.
pub(crate) trait Asked: Drop {
    fn with_extra(self, name: String, value: String) -> Result<Self, AllocError>;

    fn made(&self, alloc: Global) -> Result<HttpRequest, PrepareError>;
}

/// One that may ask for scopes.
pub(crate) trait Scoped: Asked {
    fn with_scope(self, scope: Scope) -> Result<Self, AllocError>;

    fn with_scopes(self, scopes: Vec<Scope>) -> Result<Self, AllocError>;
}

impl<'a> Asked for Refresh<'a> {
    fn with_extra(self, name: String, value: String) -> Result<Self, AllocError> {
        self.add_extra_param(name, value)
    }

    fn made(&self, alloc: Global) -> Result<HttpRequest, PrepareError> {
        self.prepare(alloc)
    }
}

impl<'a> Asked for Password<'a> {
    fn with_extra(self, name: String, value: String) -> Result<Self, AllocError> {
        self.add_extra_param(name, value)
    }

    fn made(&self, alloc: Global) -> Result<HttpRequest, PrepareError> {
        self.prepare(alloc)
    }
}

impl<'a> Asked for ClientCredentials<'a> {
    fn with_extra(self, name: String, value: String) -> Result<Self, AllocError> {
        self.add_extra_param(name, value)
    }

    fn made(&self, alloc: Global) -> Result<HttpRequest, PrepareError> {
        self.prepare(alloc)
    }
}

impl<'a> Asked for DeviceToken<'a> {
    fn with_extra(self, name: String, value: String) -> Result<Self, AllocError> {
        self.add_extra_param(name, value)
    }

    fn made(&self, alloc: Global) -> Result<HttpRequest, PrepareError> {
        self.prepare(alloc)
    }
}

impl<'a> Asked for Device<'a> {
    fn with_extra(self, name: String, value: String) -> Result<Self, AllocError> {
        self.add_extra_param(name, value)
    }

    fn made(&self, alloc: Global) -> Result<HttpRequest, PrepareError> {
        self.prepare(alloc)
    }
}

impl<'a> Asked for Introspection<'a> {
    fn with_extra(self, name: String, value: String) -> Result<Self, AllocError> {
        self.add_extra_param(name, value)
    }

    fn made(&self, alloc: Global) -> Result<HttpRequest, PrepareError> {
        self.prepare(alloc)
    }
}

impl<'a> Asked for Revocation<'a> {
    fn with_extra(self, name: String, value: String) -> Result<Self, AllocError> {
        self.add_extra_param(name, value)
    }

    fn made(&self, alloc: Global) -> Result<HttpRequest, PrepareError> {
        self.prepare(alloc)
    }
}

impl<'a> Scoped for Refresh<'a> {
    fn with_scope(self, scope: Scope) -> Result<Self, AllocError> {
        self.add_scope(scope)
    }

    fn with_scopes(self, scopes: Vec<Scope>) -> Result<Self, AllocError> {
        self.add_scopes(scopes)
    }
}

impl<'a> Scoped for Password<'a> {
    fn with_scope(self, scope: Scope) -> Result<Self, AllocError> {
        self.add_scope(scope)
    }

    fn with_scopes(self, scopes: Vec<Scope>) -> Result<Self, AllocError> {
        self.add_scopes(scopes)
    }
}

impl<'a> Scoped for ClientCredentials<'a> {
    fn with_scope(self, scope: Scope) -> Result<Self, AllocError> {
        self.add_scope(scope)
    }

    fn with_scopes(self, scopes: Vec<Scope>) -> Result<Self, AllocError> {
        self.add_scopes(scopes)
    }
}

impl<'a> Scoped for Device<'a> {
    fn with_scope(self, scope: Scope) -> Result<Self, AllocError> {
        self.add_scope(scope)
    }

    fn with_scopes(self, scopes: Vec<Scope>) -> Result<Self, AllocError> {
        self.add_scopes(scopes)
    }
}

// ---- what a line adds

fn scope_of(alloc: Global, text: &str) -> Result<Scope, AllocError> {
    Ok(Scope::new(String::from_str(alloc, text)?))
}

// The scopes of one call, with a space between each two; the empty text is none.
fn scopes_of(alloc: Global, text: &str) -> Result<Vec<Scope>, AllocError> {
    let mut scopes = Vec::new(alloc);
    if text.is_empty() {
        return Ok(scopes);
    }
    for piece in text.split(' ') {
        scopes.push(scope_of(alloc, piece)?)?;
    }
    Ok(scopes)
}

// With what is `scope` and `scopes`, as the calls stand.
fn with_scopes<R: Scoped>(alloc: Global, request: R, case: &Case) -> Result<R, CaseError> {
    let mut request = request;
    for pair in case.pairs() {
        if pair.name() == "scope" {
            request = request.with_scope(scope_of(alloc, pair.value())?)?;
        }
        if pair.name() == "scopes" {
            request = request.with_scopes(scopes_of(alloc, pair.value())?)?;
        }
    }
    Ok(request)
}

// The pairs that are `extra`.
fn extras_in(alloc: Global, case: &Case) -> Result<Vec<(String, String)>, CaseError> {
    let mut extras = Vec::new(alloc);
    for pair in case.pairs() {
        if pair.name() == "extra" {
            extras.push(extra_in(alloc, pair.value())?)?;
        }
    }
    Ok(extras)
}

fn with_extras<R: Asked>(request: R, extras: Vec<(String, String)>) -> Result<R, CaseError> {
    let mut request = request;
    for (name, value) in extras {
        request = request.with_extra(name, value)?;
    }
    Ok(request)
}

// ---- the answers

/// The line of a client's own refusal.
pub(crate) fn refusal_line(alloc: Global, error: ConfigurationError) -> Result<String, CaseError> {
    match error {
        ConfigurationError::MissingUrl(_) => refused_word(alloc, "missing_url"),
        ConfigurationError::InsecureUrl(_) => refused_word(alloc, "insecure_url"),
    }
}

fn made_line<R: Asked>(alloc: Global, request: &R) -> Result<String, CaseError> {
    match request.made(alloc) {
        Ok(request) => request_line(alloc, &request),
        Err(PrepareError::Uri) => refused_word(alloc, "uri"),
        Err(PrepareError::Memory) => Err(CaseError::Memory),
    }
}

/// The line of a request, with each pair that is `extra`; or that of its client's refusal, where each of them reads.
pub(crate) fn line_of<R: Asked>(
    alloc: Global,
    asked: Result<R, ConfigurationError>,
    case: &Case,
) -> Result<String, CaseError> {
    let extras = extras_in(alloc, case)?;
    match asked {
        Ok(request) => made_line(alloc, &with_extras(request, extras)?),
        Err(error) => refusal_line(alloc, error),
    }
}

/// The same, with what is `scope` and `scopes`.
pub(crate) fn scoped_line<R: Scoped>(
    alloc: Global,
    asked: Result<R, ConfigurationError>,
    case: &Case,
) -> Result<String, CaseError> {
    match asked {
        Ok(request) => {
            let request = with_scopes(alloc, request, case)?;
            line_of(alloc, Ok(request), case)
        }
        Err(error) => line_of::<R>(alloc, Err(error), case),
    }
}
