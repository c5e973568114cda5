//! A login over a provider double, all of literals.

ghost use Rattle.std.specs.Prelude.{◌≡◌, ◌∷◌, [], None, Some, IfOk, IfErr, OnOk, IsTrue, is_some, codes};
ghost use Rattle.std.specs.FinMap as finite;
ghost use Rattle.std.specs.Result.{is_ok};
ghost use Rattle.url.specs.Parser.{parse_url};
ghost use Rattle.oidc_readers.specs.Moments.{moment_at};
ghost use Rattle.oidc_types.specs.declared.core_algorithms.CoreJwsSigningAlgorithm.TheVariants.{HmacSha256};
ghost use Rattle.tests_of_provider.specs.Literals as spec;
ghost use Rattle.tests_of_provider.specs.Literals.{IsFirstUser, IsFirstEnd, request_for_code};

use crate::errors::FirstLoginError;
use jiff::Timestamp;
use oidc_claims::{EmptyAdditionalClaims, StandardClaims};
use oidc_client::{AuthenticationFlow, Client, CoreAuthenticationFlow, ProviderMetadata};
use oidc_keys::CoreJsonWebKey;
use oidc_login::{BeginError, LoginRequest, Logins, MetadataClient, SignedIn, UserInfoDemand};
use oidc_provider::{NewProviderError, Provider, ProviderSettings, Registration, sign_in};
use oidc_readers::Moment;
use oidc_tokens::IdTokenClaims;
use oidc_types::{
    AccessToken, AuthUrl, AuthorizationCode, ClientId, ClientSecret, CoreGenderClaim,
    CoreJwsSigningAlgorithm, CsrfToken, IssuerUrl, JsonWebKeySetUrl, Marker, Nonce,
    PkceCodeVerifier, RedirectUrl, SubjectIdentifier, TokenUrl, UrlText, UrlTextError, UserInfoUrl,
};
use oidc_user_info::{EmptyAdditionalProviderMetadata, UserInfoClaims, UserInfoResponseType};
use std::alloc::{AllocError, Global};
use url::Url;

pub(crate) type Double = Provider<EmptyAdditionalClaims, CoreGenderClaim>;

pub(crate) type OwnClient = MetadataClient<EmptyAdditionalClaims, CoreGenderClaim, CoreJsonWebKey>;

pub(crate) type Metadata = ProviderMetadata<EmptyAdditionalProviderMetadata, CoreJsonWebKey>;

pub(crate) type OwnLogins<'c> = Logins<'c, EmptyAdditionalClaims, CoreGenderClaim, CoreJsonWebKey>;

pub(crate) type Claims = IdTokenClaims<EmptyAdditionalClaims, CoreGenderClaim>;

pub(crate) type Info = UserInfoClaims<EmptyAdditionalClaims, CoreGenderClaim>;

/// Who is signed in.
pub type User = SignedIn<EmptyAdditionalClaims, CoreGenderClaim>;

// ---- a client and its provider

// The address of a literal that is a URL.
fn address<M: Marker>(alloc: Global, literal: &str) -> Result<UrlText<M>, AllocError>
    requires { IsTrue (is_ok (parse_url None literal.now)) }
    ensures { IfOk result (λ made. made ≡ spec.address literal.now) }
{
    match UrlText::new(alloc, String::from_str(alloc, literal)?) {
        Ok(made) => Ok(made),
        Err(UrlTextError::Memory) => Err(AllocError),
        Err(UrlTextError::Refused(_)) => unreachable!(),
    }
}

fn issuer(alloc: Global) -> Result<IssuerUrl, AllocError>
    ensures { IfOk result (λ made. made ≡ spec.address (codes "https://example")) }
{
    address(alloc, "https://example")
}

fn authorization(alloc: Global) -> Result<AuthUrl, AllocError>
    ensures { IfOk result (λ made. made ≡ spec.address (codes "https://example/authorize")) }
{
    address(alloc, "https://example/authorize")
}

fn tokens(alloc: Global) -> Result<TokenUrl, AllocError>
    ensures { IfOk result (λ made. made ≡ spec.address (codes "https://example/token")) }
{
    address(alloc, "https://example/token")
}

fn user_info(alloc: Global) -> Result<UserInfoUrl, AllocError>
    ensures { IfOk result (λ made. made ≡ spec.address (codes "https://example/info")) }
{
    address(alloc, "https://example/info")
}

fn keys(alloc: Global) -> Result<JsonWebKeySetUrl, AllocError>
    ensures { IfOk result (λ made. made ≡ spec.address (codes "https://example/keys")) }
{
    address(alloc, "https://example/keys")
}

fn redirect(alloc: Global) -> Result<RedirectUrl, AllocError>
    ensures { IfOk result (λ made. made ≡ spec.address (codes "https://site/back")) }
{
    address(alloc, "https://site/back")
}

// What a provider is made with, whose endpoints its metadata has too.
#[tactic(auto, unfolding(crate::specs::Literals::own_settings))]
fn settings_of(
    alloc: Global,
    issuer: IssuerUrl,
    token: TokenUrl,
) -> Result<ProviderSettings, AllocError>
    requires issuer { issuer ≡ spec.address (codes "https://example") }
    requires token { token ≡ spec.address (codes "https://example/token") }
    ensures { IfOk result (λ settings. settings ≡ spec.own_settings) }
{
    match user_info(alloc) {
        Ok(user_info) => Ok(ProviderSettings {
            issuer,
            token,
            user_info,
        }),
        Err(error) => {
            drop(issuer);
            drop(token);
            Err(error)
        }
    }
}

fn settings(alloc: Global) -> Result<ProviderSettings, AllocError>
    ensures { IfOk result (λ settings. settings ≡ spec.own_settings) }
{
    let issuer = issuer(alloc)?;
    match tokens(alloc) {
        Ok(token) => settings_of(alloc, issuer, token),
        Err(error) => {
            drop(issuer);
            Err(error)
        }
    }
}

// The addresses of a provider that are no settings of it.
#[derive(Drop)]
struct OtherUrls {
    authorization: AuthUrl,
    keys: JsonWebKeySetUrl,
}

fn other(alloc: Global) -> Result<OtherUrls, AllocError>
    ensures authorization { IfOk result
        (λ made. made.authorization ≡ spec.address (codes "https://example/authorize")) }
    ensures keys { IfOk result
        (λ made. made.keys ≡ spec.address (codes "https://example/keys")) }
{
    let authorization = authorization(alloc)?;
    match keys(alloc) {
        Ok(keys) => Ok(OtherUrls {
            authorization,
            keys,
        }),
        Err(error) => {
            drop(authorization);
            Err(error)
        }
    }
}

#[tactic(auto, unfolding(crate::specs::Literals::own_metadata, crate::specs::Literals::own_settings))]
fn metadata_of(
    alloc: Global,
    algorithms: Vec<CoreJwsSigningAlgorithm>,
    settings: ProviderSettings,
    other: OtherUrls,
) -> Metadata
    requires algorithms { algorithms.items ≡ HmacSha256 ∷ [] }
    requires settings { settings ≡ spec.own_settings }
    requires authorization { other.authorization ≡ spec.address (codes "https://example/authorize") }
    requires keys { other.keys ≡ spec.address (codes "https://example/keys") }
    ensures { result ≡ spec.own_metadata }
{
    let ProviderSettings {
        issuer,
        token,
        user_info,
    } = settings;
    let OtherUrls {
        authorization,
        keys,
    } = other;
    let more = EmptyAdditionalProviderMetadata {};
    let metadata = Metadata::new(alloc, issuer, authorization, keys, algorithms, more);
    metadata
        .set_token_endpoint(Some(token))
        .set_userinfo_endpoint(Some(user_info))
}

fn metadata(alloc: Global) -> Result<Metadata, AllocError>
    ensures { IfOk result (λ metadata. metadata ≡ spec.own_metadata) }
{
    let algorithms = [CoreJwsSigningAlgorithm::HmacSha256].to_vec(alloc)?;
    let settings = settings(alloc)?;
    match other(alloc) {
        Ok(other) => Ok(metadata_of(alloc, algorithms, settings, other)),
        Err(error) => {
            drop(settings);
            Err(error)
        }
    }
}

// A client as its provider knows it.
#[tactic(auto, unfolding(crate::specs::Literals::own_registration))]
fn registration(alloc: Global) -> Result<Registration, AllocError>
    ensures { IfOk result (λ client. client ≡ spec.own_registration) }
{
    let client_id = ClientId::new(String::from_str(alloc, "aaa")?);
    let secret = ClientSecret::new(String::from_str(alloc, "bbb")?);
    let redirect = redirect(alloc)?;
    Ok(Registration {
        client_id,
        secret,
        redirect,
    })
}

#[tactic(auto, unfolding(crate::specs::Literals::own_client, crate::specs::Literals::own_registration))]
fn client_of(metadata: Metadata, registration: Registration) -> OwnClient
    requires metadata { metadata ≡ spec.own_metadata }
    requires registration { registration ≡ spec.own_registration }
    ensures { result ≡ spec.own_client }
{
    let Registration {
        client_id,
        secret,
        redirect,
    } = registration;
    Client::from_provider_metadata(metadata, client_id, Some(secret)).set_redirect_uri(redirect)
}

fn client(alloc: Global) -> Result<OwnClient, AllocError>
    ensures { IfOk result (λ client. client ≡ spec.own_client) }
{
    let registration = registration(alloc)?;
    match metadata(alloc) {
        Ok(metadata) => Ok(client_of(metadata, registration)),
        Err(error) => {
            drop(registration);
            Err(error)
        }
    }
}

fn registrations(alloc: Global) -> Result<Vec<Registration>, AllocError>
    ensures { IfOk result (λ clients. clients.items ≡ spec.own_registration ∷ []) }
{
    let registration = registration(alloc)?;
    let mut registrations = Vec::new(alloc);
    registrations.push(registration)?;
    Ok(registrations)
}

#[tactic(auto, unfolding(crate::specs::Literals::own_provider))]
fn provider_of(
    alloc: Global,
    settings: ProviderSettings,
    registrations: Vec<Registration>,
) -> Result<Double, AllocError>
    requires settings { settings ≡ spec.own_settings }
    requires registrations { registrations.items ≡ spec.own_registration ∷ [] }
    ensures { IfOk result (λ provider. provider ≡ spec.own_provider) }
{
    match Double::new(alloc, settings, registrations) {
        Ok(provider) => Ok(provider),
        Err(NewProviderError::Memory) => Err(AllocError),
        Err(NewProviderError::SameClient) => unreachable!(),
    }
}

fn provider(alloc: Global) -> Result<Double, AllocError>
    ensures { IfOk result (λ provider. provider ≡ spec.own_provider) }
{
    let settings = settings(alloc)?;
    match registrations(alloc) {
        Ok(registrations) => provider_of(alloc, settings, registrations),
        Err(error) => {
            drop(settings);
            Err(error)
        }
    }
}

// ---- a begin

fn request_with<'c>(
    alloc: Global,
    client: &'c OwnClient,
    state: CsrfToken,
    nonce: Nonce,
) -> Result<LoginRequest<'c>, AllocError>
    ensures { IfOk result (λ request. request ≡ request_for_code client.now state nonce) }
{
    let flow: CoreAuthenticationFlow = AuthenticationFlow::AuthorizationCode;
    client.authorize_url(alloc, flow, move || state, move || nonce)
}

#[tactic(auto, unfolding(crate::specs::Literals::own_request))]
fn request<'c>(alloc: Global, client: &'c OwnClient) -> Result<LoginRequest<'c>, AllocError>
    requires { client.now ≡ spec.own_client }
    ensures { IfOk result (λ request. request ≡ spec.own_request) }
{
    let state = CsrfToken::new(String::from_str(alloc, "CSRF123")?);
    let nonce = Nonce::new(String::from_str(alloc, "NONCE456")?);
    request_with(alloc, client, state, nonce)
}

fn verifier(alloc: Global) -> Result<PkceCodeVerifier, AllocError>
    ensures { IfOk result (λ verifier. verifier ≡ spec.own_verifier) }
{
    let text = "dBjftJeZ4CVP-mB92K27uhbUJU1p1r_wW1gFWFOEjXk";
    Ok(PkceCodeVerifier::new(String::from_str(alloc, text)?))
}

// The store of the client.
#[tactic(auto, unfolding(crate::specs::Literals::own_client, crate::specs::Literals::own_metadata))]
fn store_of<'c>(alloc: Global, client: &'c OwnClient) -> OwnLogins<'c>
    requires { client.now ≡ spec.own_client }
    ensures { result ≡ record { client = spec.own_client; pending = finite.empty } }
{
    match OwnLogins::new(alloc, client) {
        Ok(logins) => logins,
        Err(_) => unreachable!(),
    }
}

// It has no login.
#[tactic(auto, unfolding(crate::specs::Literals::no_logins))]
fn no_logins<'c>(alloc: Global, client: &'c OwnClient) -> OwnLogins<'c>
    requires { client.now ≡ spec.own_client }
    ensures { result ≡ spec.no_logins }
{
    store_of(alloc, client)
}

// The one error of a begin here.
fn want_of(error: BeginError) -> AllocError
    requires { error ≡ BeginError.Memory }
{
    let _ = error;
    AllocError
}

// The begin, which is accepted.
fn begun<'c>(
    logins: &mut OwnLogins<'c>,
    request: LoginRequest<'c>,
    verifier: PkceCodeVerifier,
) -> Result<Url, AllocError>
    requires logins { logins.old ≡ spec.no_logins }
    requires request { request ≡ spec.own_request }
    requires verifier { verifier ≡ spec.own_verifier }
    ensures url { IfOk result (λ url. url ≡ spec.own_url) }
    ensures logins { OnOk result (logins.new ≡ spec.own_logins) }
{
    let demand = UserInfoDemand {
        signed: false,
        issuer_match: false,
        audience_match: false,
        response_type: UserInfoResponseType::Json,
    };
    match logins.begin(request, verifier, Some(demand)) {
        Ok(url) => Ok(url),
        Err(error) => Err(want_of(error)),
    }
}

// ---- what is granted

fn moment(second: i64) -> Timestamp
    requires { IsTrue (is_some (moment_at second)) }
    ensures { Some result.nanosecond ≡ moment_at second }
{
    match Moment::at(second) {
        Some(moment) => moment.timestamp(),
        None => unreachable!(),
    }
}

fn subject(alloc: Global) -> Result<SubjectIdentifier, AllocError>
    ensures { IfOk result (λ subject. subject ≡ codes "u1") }
{
    Ok(SubjectIdentifier::new(String::from_str(alloc, "u1")?))
}

#[tactic(auto, unfolding(crate::specs::Literals::own_claims))]
fn claims_of(alloc: Global, issuer: IssuerUrl, subject: SubjectIdentifier) -> Claims
    requires issuer { issuer ≡ spec.address (codes "https://example") }
    requires subject { subject ≡ codes "u1" }
    ensures { result ≡ spec.own_claims }
{
    let standard = StandardClaims::new(subject);
    let nobody = Vec::new(alloc);
    let end = moment(2000);
    let issued = moment(900);
    Claims::new(issuer, nobody, end, issued, standard, EmptyAdditionalClaims)
}

fn claims(alloc: Global) -> Result<Claims, AllocError>
    ensures { IfOk result (λ claims. claims ≡ spec.own_claims) }
{
    let subject = subject(alloc)?;
    let issuer = issuer(alloc)?;
    Ok(claims_of(alloc, issuer, subject))
}

#[tactic(auto, unfolding(crate::specs::Literals::own_info))]
fn info(alloc: Global) -> Result<Info, AllocError>
    ensures { IfOk result (λ info. info ≡ spec.own_info) }
{
    let standard = StandardClaims::new(subject(alloc)?);
    Ok(Info::new(standard, EmptyAdditionalClaims))
}

// ---- the login

// What is granted.
#[derive(Drop)]
struct Handed {
    claims: Claims,
    info: Info,
    code: AuthorizationCode,
    token: AccessToken,
}

fn given_for(
    alloc: Global,
    code: AuthorizationCode,
    token: AccessToken,
    claims: Claims,
) -> Result<Handed, AllocError>
    ensures claims { IfOk result (λ given. given.claims ≡ claims) }
    ensures info { IfOk result (λ given. given.info ≡ spec.own_info) }
    ensures code { IfOk result (λ given. given.code ≡ code) }
    ensures token { IfOk result (λ given. given.token ≡ token) }
{
    match info(alloc) {
        Ok(info) => Ok(Handed {
            claims,
            info,
            code,
            token,
        }),
        Err(error) => {
            drop(claims);
            Err(error)
        }
    }
}

fn given(alloc: Global) -> Result<Handed, AllocError>
    ensures claims { IfOk result (λ given. given.claims ≡ spec.own_claims) }
    ensures info { IfOk result (λ given. given.info ≡ spec.own_info) }
    ensures code { IfOk result (λ given. given.code ≡ codes "c1") }
    ensures token { IfOk result (λ given. given.token ≡ codes "abc") }
{
    let code = AuthorizationCode::new(String::from_str(alloc, "c1")?);
    let token = AccessToken::new(String::from_str(alloc, "abc")?);
    let claims = claims(alloc)?;
    given_for(alloc, code, token, claims)
}

// Signs in with what is granted: here all that the theorem on logins over the provider rests on comes together.
fn signed(
    provider: &mut Double,
    logins: &mut OwnLogins<'_>,
    url: &Url,
    given: Handed,
) -> Result<User, FirstLoginError>
    requires provider { provider.old ≡ spec.own_provider }
    requires logins { logins.old ≡ spec.own_logins }
    requires url { url.now ≡ spec.own_url }
    requires claims { given.claims ≡ spec.own_claims }
    requires info { given.info ≡ spec.own_info }
    requires code { given.code ≡ codes "c1" }
    requires token { given.token ≡ codes "abc" }
    ensures user { IfOk result IsFirstUser }
    ensures ends { IfErr result IsFirstEnd }
{
    let Handed {
        claims,
        info,
        code,
        token,
    } = given;
    let now = moment(1000);
    match sign_in(provider, logins, url, claims, info, code, token, now) {
        Ok(user) => Ok(user),
        Err(end) => Err(FirstLoginError::SignIn(end)),
    }
}

// The same, of what is made for it.
fn signed_at(
    alloc: Global,
    provider: &mut Double,
    logins: &mut OwnLogins<'_>,
    url: &Url,
) -> Result<User, FirstLoginError>
    requires provider { provider.old ≡ spec.own_provider }
    requires logins { logins.old ≡ spec.own_logins }
    requires url { url.now ≡ spec.own_url }
    ensures user { IfOk result IsFirstUser }
    ensures ends { IfErr result IsFirstEnd }
{
    match given(alloc) {
        Ok(given) => signed(provider, logins, url, given),
        Err(_) => Err(FirstLoginError::Memory),
    }
}

// The same, over a provider that is made for it.
fn signed_over(
    alloc: Global,
    logins: &mut OwnLogins<'_>,
    url: &Url,
) -> Result<User, FirstLoginError>
    requires logins { logins.old ≡ spec.own_logins }
    requires url { url.now ≡ spec.own_url }
    ensures user { IfOk result IsFirstUser }
    ensures ends { IfErr result IsFirstEnd }
{
    match provider(alloc) {
        Ok(mut provider) => signed_at(alloc, &mut provider, logins, url),
        Err(_) => Err(FirstLoginError::Memory),
    }
}

// The begin in the store of a client.
fn begun_at<'c>(
    alloc: Global,
    client: &'c OwnClient,
    logins: &mut OwnLogins<'c>,
) -> Result<Url, AllocError>
    requires client { client.now ≡ spec.own_client }
    requires logins { logins.old ≡ spec.no_logins }
    ensures url { IfOk result (λ url. url ≡ spec.own_url) }
    ensures logins { OnOk result (logins.new ≡ spec.own_logins) }
{
    let verifier = verifier(alloc)?;
    let request = request(alloc, client)?;
    begun(logins, request, verifier)
}

// The whole login of a client.
fn login_of(alloc: Global, client: &OwnClient) -> Result<User, FirstLoginError>
    requires { client.now ≡ spec.own_client }
    ensures user { IfOk result IsFirstUser }
    ensures ends { IfErr result IsFirstEnd }
{
    let mut logins = no_logins(alloc, client);
    match begun_at(alloc, client, &mut logins) {
        Ok(url) => signed_over(alloc, &mut logins, &url),
        Err(_) => Err(FirstLoginError::Memory),
    }
}

/// Makes a client, a double of its provider and a store of logins, begins a login, and signs in: as the user `u1`, with the
/// claims that were handed in and the user info that was demanded. The provider grants it, and the callback is refused
/// for no other cause than want of memory or the length of a text.
pub fn first_login(alloc: Global) -> Result<User, FirstLoginError>
    ensures user { IfOk result IsFirstUser }
    ensures ends { IfErr result IsFirstEnd }
{
    match client(alloc) {
        Ok(client) => login_of(alloc, &client),
        Err(_) => Err(FirstLoginError::Memory),
    }
}
