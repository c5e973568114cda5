//! Answers of implicit and hybrid flows.

use case_lines::{
    Case, CaseError, VerifierKey, algorithms, keys_in, moment, object, ok_form, parse_line,
    reading_in, refused_word, url_of,
};
use oidc_claims::AllOtherClaims;
use oidc_cli::{User, verdict_line};
use oidc_client::{Client, ProviderMetadata};
use oidc_login::{FrontAnswer, FrontError, LoginError, MetadataClient, front_channel};
use oidc_oauth2::Fault;
use oidc_pairs::FormText;
use oidc_tokens::Payload;
use oidc_types::{
    AuthUrl, ClientId, ClientSecret, CoreGenderClaim, CsrfToken, IssuerUrl, JsonWebKeySetUrl, Nonce,
};
use oidc_user_info::EmptyAdditionalProviderMetadata;
use std::alloc::{AllocError, Global};

/// A client whose issuer has the keys of a line.
type FrontClient = MetadataClient<AllOtherClaims, CoreGenderClaim, VerifierKey>;

type Metadata = ProviderMetadata<EmptyAdditionalProviderMetadata, VerifierKey>;

type Answer = FrontAnswer<AllOtherClaims, CoreGenderClaim>;

/// `front`: what an answer that is accepted has, or why it isn't.
pub(crate) fn front(alloc: Global, case: &Case) -> Result<String, CaseError> {
    let required = ["query", "id", "issuer", "algs", "state", "nonce", "now"];
    let optional = ["secret", "reading", "code_hash"];
    case.check_all(&required, &optional, &["key"])?;
    let client = client_in(alloc, case)?;
    let line = front_line(alloc, &client, case);
    drop(client);
    line
}

// ---- the client

fn client_in(alloc: Global, case: &Case) -> Result<FrontClient, CaseError> {
    let id = ClientId::new(String::from_str(alloc, case.value("id"))?);
    let secret = secret_in(alloc, case)?;
    let reading = reading_in(case)?;
    let demanded = demands_code_hash(case)?;
    let metadata = metadata_in(alloc, case)?;
    let client: FrontClient = Client::from_provider_metadata(metadata, id, secret);
    Ok(client.set_reading(reading).require_code_hash(demanded))
}

// Whether the client of a line demands the hash of a code.
fn demands_code_hash(case: &Case) -> Result<bool, CaseError> {
    match case.optional("code_hash") {
        Some("1") => Ok(true),
        Some(_) => Err(CaseError::NoCase),
        None => Ok(false),
    }
}

fn secret_in(alloc: Global, case: &Case) -> Result<Option<ClientSecret>, AllocError> {
    match case.optional("secret") {
        Some(secret) => Ok(Some(ClientSecret::new(String::from_str(alloc, secret)?))),
        None => Ok(None),
    }
}

// What a provider says of itself that signs by these algorithms, and has these keys.
fn metadata_in(alloc: Global, case: &Case) -> Result<Metadata, CaseError> {
    let issuer: IssuerUrl = url_of(alloc, case.value("issuer"))?;
    let auth: AuthUrl = url_of(alloc, "https://example/authorize")?;
    let jwks_uri: JsonWebKeySetUrl = url_of(alloc, "https://example/keys")?;
    let algorithms = algorithms(alloc, case.value("algs"))?;
    let keys = keys_in(alloc, case)?;
    let more = EmptyAdditionalProviderMetadata {};
    let metadata = Metadata::new(alloc, issuer, auth, jwks_uri, algorithms, more);
    Ok(metadata.set_jwks(keys))
}

// ---- the answer

fn front_line(alloc: Global, client: &FrontClient, case: &Case) -> Result<String, CaseError> {
    let query = case.value("query").as_bytes();
    let state = CsrfToken::new(String::from_str(alloc, case.value("state"))?);
    let nonce = Nonce::new(String::from_str(alloc, case.value("nonce"))?);
    let now = moment(case.value("now"))?;
    match front_channel(alloc, client, query, &state, &nonce, now) {
        Ok(answer) => answer_line(alloc, &answer),
        Err(error) => refusal_line(alloc, error),
    }
}

// The claims as they are written again, and what came beside the ID token.
fn answer_line(alloc: Global, answer: &Answer) -> Result<String, CaseError> {
    let members = answer.id_token().token().unverified_payload().write(alloc)?;
    let claims = object(alloc, members.as_slice())?;
    let mut form = FormText::new(alloc);
    form.push("claims", claims.as_str())?;
    if let Some(token) = answer.access_token() {
        form.push("access_token", token.secret())?;
    }
    if let Some(code) = answer.code() {
        form.push("code", code.secret())?;
    }
    ok_form(alloc, form)
}

// ---- refusals

// A provider's error, a check of the claims and a hash are refused in a report's words.
fn refusal_line(alloc: Global, error: FrontError) -> Result<String, CaseError> {
    match error {
        FrontError::TooLong => refused_word(alloc, "too_long"),
        FrontError::State => refused_word(alloc, "state"),
        FrontError::Provider(code) => report_line(alloc, LoginError::Provider(code)),
        FrontError::NoIdToken => refused_word(alloc, "no_id_token"),
        FrontError::Parse(refusal) => parse_line(alloc, &refusal),
        FrontError::Claims(kind) => report_line(alloc, LoginError::Claims(kind)),
        FrontError::Signing(refusal) => report_line(alloc, LoginError::Signing(refusal)),
        FrontError::TokenHash => refused_word(alloc, "token_hash"),
        FrontError::CodeHash => refused_word(alloc, "code_hash"),
        FrontError::Memory => Err(CaseError::Memory),
    }
}

/// What the report says of a callback that is refused so, behind the first two words.
pub(crate) fn report_line(alloc: Global, refusal: LoginError<Fault>) -> Result<String, CaseError> {
    let refused: Result<User, LoginError<Fault>> = Err(refusal);
    let line = verdict_line(alloc, &refused)?;
    match line.as_str().strip_prefix("callback refused ") {
        Some(words) => refused_word(alloc, words.trim_end_matches('\n')),
        None => Err(CaseError::NoCase),
    }
}
