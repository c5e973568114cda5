// What a grant answers with.

ghost use Rattle.std.specs.Prelude.{◌≡◌, [], ◌∷◌, Ok, Some, false, IfOk, IsUtf8};
ghost use Rattle.oidc_members.specs.Write.{any_float, object_text};
ghost use Rattle.oidc_members.specs.declared.reading.Reading.{Reading};
ghost use Rattle.oidc_user_info.specs.InfoAnswers.{claims_in};
ghost use Rattle.oidc_user_info.specs.RoundTrip.{IsInfoInRange};
ghost use Rattle.oidc_user_info.specs.UserInfoClaims.{user_info_members};
ghost use Rattle.oidc_provider.specs.Issuing as spec;
ghost use Rattle.std.specs.String.{string_bytes};
ghost use Rattle.oidc_provider.specs.Issuing.{IsIssued, IsUsable, IsGranted};
ghost use Rattle.oidc_provider.specs.Making.{IsIssuedBody, IsGrantOf, parts_of, claims_of};
ghost use Rattle.oidc_provider.specs.Steps.{allowed_to};

use crate::authorization::Login;
use crate::grants::Grant;
use crate::settings::{ProviderSettings, Registration};
use crate::texts::{secret_is_utf8, text_is_utf8, token_is_utf8, url_is_utf8};
use oidc_claims::{AdditionalClaims, GenderClaim};
use oidc_keys::CoreHmacKey;
use oidc_members::write_object;
use oidc_oauth2::{CoreTokenType, EmptyExtraTokenFields, StandardTokenResponse};
use oidc_tokens::{IdToken, IdTokenClaims, IdTokenFields, JsonWebTokenError, Payload};
use oidc_types::{
    AccessToken, Audience, AuthorizationCode, CoreJweContentEncryptionAlgorithm,
    CoreJwsSigningAlgorithm, IssuerUrl, Nonce,
};
use oidc_user_info::UserInfoClaims;
use std::alloc::{AllocError, Global};

// The ID tokens of these claims.
pub(crate) type SignedToken<AC, GC> = IdToken<
    AC,
    GC,
    CoreJweContentEncryptionAlgorithm,
    CoreJwsSigningAlgorithm,
>;

// A client as sole audience.
fn audience_of(alloc: Global, client: &Registration) -> Result<Vec<Audience>, AllocError>
    ensures { IfOk result (λ audiences. audiences.items ≡ client.now.client_id ∷ []) }
{
    let audience = Audience::new(String::from_str(alloc, client.client_id.as_str())?);
    let mut audiences = Vec::new(alloc);
    audiences.push(audience)?;
    Ok(audiences)
}

// Claims with these three.
fn claims_with<AC: AdditionalClaims, GC: GenderClaim>(
    claims: IdTokenClaims<AC, GC>,
    issuer: IssuerUrl,
    audiences: Vec<Audience>,
    nonce: Nonce,
) -> IdTokenClaims<AC, GC>
    ensures { let own = record claims.own {
      issuer = issuer;
      audiences = audiences.items;
      nonce = Some nonce;
    } in result ≡ record claims { own = own } }
{
    claims
        .set_issuer(issuer)
        .set_audiences(audiences)
        .set_nonce(Some(nonce))
}

// The ID token of claims, signed under the client's secret, with the hash of the access token.
fn signed_token<AC: AdditionalClaims, GC: GenderClaim>(
    alloc: Global,
    key: &CoreHmacKey,
    claims: IdTokenClaims<AC, GC>,
    token: &AccessToken,
) -> Result<SignedToken<AC, GC>, AllocError>
    ensures issued { IfOk result
        (λ made. IsIssued AC.write_of GC.write_of key.now token.now claims made) }
    ensures usable { IfOk result
        (λ made. IsUsable AC.read_of GC.read_of AC.write_of key.now claims made) }
{
    let alg = CoreJwsSigningAlgorithm::HmacSha256;
    match IdToken::new(alloc, claims, key, alg, Some(token), None) {
        Ok(made) => {
            token_is_utf8(&made);
            Ok(made)
        }
        Err(JsonWebTokenError::Memory) => Err(AllocError),
        Err(JsonWebTokenError::SigningError(_)) => unreachable!(),
    }
}

// A token response with these two, and nothing else.
type Tokens<AC, GC> = StandardTokenResponse<
    IdTokenFields<
        AC,
        EmptyExtraTokenFields,
        GC,
        CoreJweContentEncryptionAlgorithm,
        CoreJwsSigningAlgorithm,
    >,
    CoreTokenType,
>;

fn token_response<AC: AdditionalClaims, GC: GenderClaim>(
    token: AccessToken,
    id_token: SignedToken<AC, GC>,
) -> Tokens<AC, GC>
    ensures { result ≡ spec.tokens token id_token }
{
    let fields = IdTokenFields::new(Some(id_token), EmptyExtraTokenFields {});
    StandardTokenResponse::new(token, CoreTokenType::Bearer, fields)
}

// The same, as it is written.
#[tactic(auto, unfolding(crate::specs::Issuing::token_body))]
fn token_body<AC: AdditionalClaims, GC: GenderClaim>(
    alloc: Global,
    token: AccessToken,
    id_token: SignedToken<AC, GC>,
) -> Result<Vec<u8>, AllocError>
    ensures { IfOk result (λ body. body.items ≡ spec.token_body token id_token) }
{
    // What is written is large: it is let go once, by a call.
    let tokens = token_response(token, id_token);
    let body = tokens.write(alloc);
    drop(tokens);
    body
}

// The claims of user info, as they are written.
fn info_body<AC: AdditionalClaims, GC: GenderClaim>(
    alloc: Global,
    claims: &UserInfoClaims<AC, GC>,
) -> Result<Vec<u8>, AllocError>
    ensures text { IfOk result (λ body. any_float (AC.write_of claims.now.additional_claims) ≡ false
        → body.items ≡ object_text (user_info_members AC.write_of GC.write_of claims.now)) }
    ensures reads_back { (reading : Reading) → IsInfoInRange AC.write_of claims.now
        → IfOk result (λ body.
        claims_in AC.read_of GC.read_of reading body.items ≡ Ok claims.now) }
{
    let members = claims.write(alloc)?;
    let body = write_object(alloc, &members)?;
    Ok(body)
}

// ---- the grant

// The body that answers the token request of a grant: a response with the access token, and the ID token of the claims.
fn issued_body<AC: AdditionalClaims, GC: GenderClaim>(
    alloc: Global,
    key: &CoreHmacKey,
    claims: IdTokenClaims<AC, GC>,
    token: &AccessToken,
) -> Result<Vec<u8>, AllocError>
    ensures { IfOk result (λ body. IsIssuedBody AC.read_of GC.read_of AC.write_of GC.write_of
        key.now token.now claims body.items) }
{
    secret_is_utf8(token);
    match signed_token(alloc, key, claims, token) {
        Ok(id_token) => match token.clone_in(alloc) {
            Ok(token) => token_body(alloc, token, id_token),
            Err(error) => {
                drop(id_token);
                Err(error)
            }
        },
        Err(error) => Err(error),
    }
}

// The key of a client's secret.
fn key_of(alloc: Global, client: &Registration) -> Result<CoreHmacKey, AllocError>
    ensures { IfOk result (λ key. key ≡ client.now.secret) }
{
    let secret = Vec::from_slice(alloc, client.secret.secret().as_bytes())?;
    Ok(CoreHmacKey::new(secret))
}

// What a grant takes of its client and of the provider: copies, the key, and the two texts of the client.
#[derive(Drop)]
pub(crate) struct GrantSource {
    pub(crate) issuer: IssuerUrl,
    pub(crate) audiences: Vec<Audience>,
    pub(crate) key: CoreHmacKey,
    pub(crate) client: String,
    pub(crate) redirect: String,
}

fn own_of(
    alloc: Global,
    settings: &ProviderSettings,
    client: &Registration,
) -> Result<GrantSource, AllocError>
    ensures issuer { IfOk result (λ own. own.issuer ≡ settings.now.issuer) }
    ensures audiences { IfOk result (λ own. own.audiences.items ≡ client.now.client_id ∷ []) }
    ensures key { IfOk result (λ own. own.key ≡ client.now.secret) }
    ensures client { IfOk result (λ own. string_bytes own.client ≡ client.now.client_id) }
    ensures redirect { IfOk result (λ own. string_bytes own.redirect ≡ client.now.redirect.text) }
    ensures id_text { IsUtf8 client.now.client_id }
    ensures secret_text { IsUtf8 client.now.secret }
    ensures redirect_text { IsUtf8 client.now.redirect.text }
{
    text_is_utf8(&client.client_id);
    secret_is_utf8(&client.secret);
    url_is_utf8(&client.redirect);
    let audiences = audience_of(alloc, client)?;
    let key = key_of(alloc, client)?;
    let name = String::from_str(alloc, client.client_id.as_str())?;
    let redirect = String::from_str(alloc, client.redirect.as_str())?;
    let issuer = settings.issuer.clone_in(alloc)?;
    Ok(GrantSource {
        issuer,
        audiences,
        key,
        client: name,
        redirect,
    })
}

// A grant, unredeemed, with the ID token of these claims.
fn grant_of<AC: AdditionalClaims, GC: GenderClaim>(
    alloc: Global,
    own: GrantSource,
    login: Login,
    given: (AuthorizationCode, AccessToken),
    claims: IdTokenClaims<AC, GC>,
    info_body: Vec<u8>,
) -> Result<Grant, AllocError>
    ensures { let parts = parts_of own login given.0 given.1 in
        IfOk result (λ grant. IsGrantOf AC.read_of GC.read_of AC.write_of GC.write_of parts own.key
        (claims_of own.issuer own.audiences.items login.nonce claims) info_body.items grant) }
{
    let GrantSource {
        issuer,
        audiences,
        key,
        client,
        redirect,
    } = own;
    let (code, token) = given;
    secret_is_utf8(&code);
    let claims = claims_with(claims, issuer, audiences, login.nonce);
    let token_body = issued_body(alloc, &key, claims, &token)?;
    Ok(Grant {
        client,
        redirect,
        challenge: login.challenge,
        code: code.into_string(),
        token: token.into_string(),
        token_body,
        info_body,
        redeemed: false,
    })
}

// The same, where the claims of user info are lent.
fn granted_with<AC: AdditionalClaims, GC: GenderClaim>(
    alloc: Global,
    settings: &ProviderSettings,
    client: &Registration,
    login: Login,
    given: (AuthorizationCode, AccessToken),
    claims: IdTokenClaims<AC, GC>,
    user_info: &UserInfoClaims<AC, GC>,
) -> Result<Grant, AllocError>
    ensures { let allowed = allowed_to client.now login in
        IfOk result (λ grant. IsGranted AC.read_of GC.read_of AC.write_of GC.write_of settings.now
        allowed given.0 given.1 claims user_info.now grant) }
{
    match info_body(alloc, user_info) {
        Ok(info_body) => match own_of(alloc, settings, client) {
            Ok(own) => grant_of(alloc, own, login, given, claims, info_body),
            Err(error) => {
                drop(claims);
                Err(error)
            }
        },
        Err(error) => {
            drop(claims);
            Err(error)
        }
    }
}

// The grant of what is allowed to a client.
pub(crate) fn granted<AC: AdditionalClaims, GC: GenderClaim>(
    alloc: Global,
    settings: &ProviderSettings,
    client: &Registration,
    login: Login,
    given: (AuthorizationCode, AccessToken),
    claims: (IdTokenClaims<AC, GC>, UserInfoClaims<AC, GC>),
) -> Result<Grant, AllocError>
    ensures { let allowed = allowed_to client.now login in
        IfOk result (λ grant. IsGranted AC.read_of GC.read_of AC.write_of GC.write_of settings.now
        allowed given.0 given.1 claims.0 claims.1 grant) }
{
    let (claims, user_info) = claims;
    let made = granted_with(alloc, settings, client, login, given, claims, &user_info);
    drop(user_info);
    made
}
