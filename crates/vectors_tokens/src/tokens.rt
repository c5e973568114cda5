//! ID tokens: their headers, their claims, whole tokens, hashes, and tokens that are issued.

use base64::DecodeAllocError;
use base64::engine::general_purpose::URL_SAFE_NO_PAD;
use case_lines::{
    Case, CaseError, algorithm, object, ok_form, ok_pair, reading_in, refused_reading,
    refused_word, text_of,
};
use oidc_claims::{AdditionalClaims, AllOtherClaims};
use oidc_keys::{CoreHmacKey, CoreJsonWebKey, JsonWebKey};
use oidc_members::{FieldName, Members, ParseError, Reading};
use oidc_oauth2::EmptyExtraTokenFields;
use oidc_pairs::FormText;
use oidc_tokens::{
    IdToken, IdTokenClaims, IdTokenFields, JsonWebToken, JsonWebTokenAlgorithm, JsonWebTokenError,
    Payload, TokenHeader, from_code, from_token,
};
use oidc_types::{
    AccessToken, AuthorizationCode, ClosedVocabulary, CoreGenderClaim,
    CoreJweContentEncryptionAlgorithm, CoreJwsSigningAlgorithm, SigningError,
};
use std::alloc::{AllocError, Global};

/// The claims of an ID token, all additional ones among them.
pub(crate) type Claims = IdTokenClaims<AllOtherClaims, CoreGenderClaim>;

/// An ID token of such claims.
pub(crate) type Token = IdToken<
    AllOtherClaims,
    CoreGenderClaim,
    CoreJweContentEncryptionAlgorithm,
    CoreJwsSigningAlgorithm,
>;

/// The same as a JSON Web Token.
type WebToken = JsonWebToken<CoreJweContentEncryptionAlgorithm, CoreJwsSigningAlgorithm, Claims>;

/// The field of a token response that such a token is.
pub(crate) type TokenFields = IdTokenFields<
    AllOtherClaims,
    EmptyExtraTokenFields,
    CoreGenderClaim,
    CoreJweContentEncryptionAlgorithm,
    CoreJwsSigningAlgorithm,
>;

type Algorithm = JsonWebTokenAlgorithm<CoreJweContentEncryptionAlgorithm, CoreJwsSigningAlgorithm>;

type Header = TokenHeader<CoreJweContentEncryptionAlgorithm, CoreJwsSigningAlgorithm>;

// ---- headers

/// `header`: the header of a token.
pub(crate) fn header(alloc: Global, case: &Case) -> Result<String, CaseError> {
    case.check(&["text"])?;
    match header_in(alloc, case.value("text")) {
        Ok(header) => header_line(alloc, &header),
        Err(error) => refused_reading(alloc, &error),
    }
}

fn header_in(alloc: Global, text: &str) -> Result<Header, ParseError> {
    let members = Members::split(alloc, text.as_bytes())?;
    Header::read(alloc, &members)
}

fn header_line(alloc: Global, header: &Header) -> Result<String, CaseError> {
    let mut form = FormText::new(alloc);
    form.push("alg", algorithm_text(&header.alg))?;
    push_name(&mut form, "typ", header.typ.as_ref())?;
    push_name(&mut form, "cty", header.cty.as_ref())?;
    if let Some(kid) = &header.kid {
        form.push("kid", kid.as_str())?;
    }
    if header.crit {
        form.push("crit", "1")?;
    }
    ok_form(alloc, form)
}

fn algorithm_text(alg: &Algorithm) -> &'static str {
    match alg {
        JsonWebTokenAlgorithm::Signature(alg) => alg.as_ref(),
        JsonWebTokenAlgorithm::Encryption(alg) => alg.as_ref(),
        JsonWebTokenAlgorithm::None => "none",
    }
}

fn push_name(form: &mut FormText, name: &str, value: Option<&FieldName>) -> Result<(), AllocError> {
    match value {
        Some(value) => form.push(name, value.as_str()),
        None => Ok(()),
    }
}

// ---- claims

/// `id_claims`: the claims of an ID token, under a reading, written again, and the additional ones among
/// them.
pub(crate) fn id_claims(alloc: Global, case: &Case) -> Result<String, CaseError> {
    case.check_with(&["text"], &["reading"])?;
    let read = claims_in(alloc, case.value("text"), reading_in(case)?);
    let line = read_line(alloc, &read);
    drop(read);
    line
}

fn read_line(alloc: Global, read: &Result<Claims, ParseError>) -> Result<String, CaseError> {
    match read {
        Ok(claims) => claims_line(alloc, claims),
        Err(error) => refused_reading(alloc, error),
    }
}

fn claims_in(alloc: Global, text: &str, reading: Reading) -> Result<Claims, ParseError> {
    let members = Members::split(alloc, text.as_bytes())?.with_reading(reading);
    Claims::read(alloc, &members)
}

fn claims_line(alloc: Global, claims: &Claims) -> Result<String, CaseError> {
    let written = written_claims(alloc, claims)?;
    let additional = claims.additional_claims().write(alloc)?;
    let additional = object(alloc, additional.as_slice())?;
    let mut form = FormText::new(alloc);
    form.push("written", written.as_str())?;
    form.push("additional", additional.as_str())?;
    ok_form(alloc, form)
}

/// The text of the object that claims are written as.
pub(crate) fn written_claims(alloc: Global, claims: &Claims) -> Result<String, CaseError> {
    let members = claims.write(alloc)?;
    object(alloc, members.as_slice())
}

// ---- whole tokens

/// `token`: what stands in an ID token, under a reading. It is the same where the text is read as a JSON Web
/// Token of its claims.
pub(crate) fn token(alloc: Global, case: &Case) -> Result<String, CaseError> {
    case.check_with(&["text"], &["reading"])?;
    let reading = reading_in(case)?;
    let line = id_token_line(alloc, case.value("text"), reading)?;
    let of_web_token = web_token_line(alloc, case.value("text"), reading)?;
    if line.as_str() == of_web_token.as_str() {
        Ok(line)
    } else {
        Err(CaseError::NoCase)
    }
}

fn id_token_line(alloc: Global, text: &str, reading: Reading) -> Result<String, CaseError> {
    let read = read_token(alloc, text, reading);
    let line = match &read {
        Ok(token) => token_line(alloc, token.token()),
        Err(error) => refused_reading(alloc, error),
    };
    drop(read);
    line
}

fn web_token_line(alloc: Global, text: &str, reading: Reading) -> Result<String, CaseError> {
    let read = read_web_token(alloc, text, reading);
    let line = match &read {
        Ok(token) => token_line(alloc, token),
        Err(error) => refused_reading(alloc, error),
    };
    drop(read);
    line
}

// The strict reading goes by the call that takes none.
fn read_web_token(alloc: Global, text: &str, reading: Reading) -> Result<WebToken, ParseError> {
    if reading == Reading::STRICT {
        WebToken::read(alloc, text)
    } else {
        WebToken::read_with(alloc, text, reading)
    }
}

fn token_line(alloc: Global, token: &WebToken) -> Result<String, CaseError> {
    let header = decoded_header(alloc, token.message())?;
    let written = written_claims(alloc, token.unverified_payload())?;
    let signature = hex::encode(alloc, token.signature())?;
    let mut form = FormText::new(alloc);
    form.push("header", header.as_str())?;
    form.push("written", written.as_str())?;
    form.push("message", token.message())?;
    form.push("signature", signature.as_str())?;
    ok_form(alloc, form)
}

// What the first part of a message encodes.
fn decoded_header(alloc: Global, message: &str) -> Result<String, CaseError> {
    let Some((header, _)) = message.split_once('.') else {
        return Err(CaseError::NoCase);
    };
    match URL_SAFE_NO_PAD.decode(alloc, header.as_bytes()) {
        Ok(bytes) => text_of(bytes),
        Err(DecodeAllocError::DecodeError(_)) => Err(CaseError::NoCase),
        Err(DecodeAllocError::OutOfMemory) => Err(CaseError::Memory),
    }
}

// The strict reading goes by the call that takes none.
fn read_token(alloc: Global, text: &str, reading: Reading) -> Result<Token, ParseError> {
    if reading == Reading::STRICT {
        Token::from_str(alloc, text)
    } else {
        Token::from_str_with(alloc, text, reading)
    }
}

/// The ID token of a text that has to be one under a reading.
pub(crate) fn token_of(alloc: Global, text: &str, reading: Reading) -> Result<Token, CaseError> {
    match read_token(alloc, text, reading) {
        Ok(token) => Ok(token),
        Err(error) => Err(unread(&error)),
    }
}

// Why what has to be read first makes the line no case.
fn unread(error: &ParseError) -> CaseError {
    match error {
        ParseError::Refused(_) => CaseError::NoCase,
        ParseError::Memory => CaseError::Memory,
    }
}

// ---- hashes

/// `hash`: the hash of a text as an access token and as a code, which are the same.
pub(crate) fn hash(alloc: Global, case: &Case) -> Result<String, CaseError> {
    case.check(&["alg", "text"])?;
    let alg = algorithm(case.value("alg"))?;
    let of_token = token_hash(alloc, case.value("text"), &alg)?;
    let of_code = code_hash(alloc, case.value("text"), &alg)?;
    if of_token.as_str() == of_code.as_str() {
        Ok(of_token)
    } else {
        Err(CaseError::NoCase)
    }
}

fn token_hash(
    alloc: Global,
    text: &str,
    alg: &CoreJwsSigningAlgorithm,
) -> Result<String, CaseError> {
    let key = CoreJsonWebKey::new_symmetric(Vec::new(alloc));
    let token = AccessToken::new(String::from_str(alloc, text)?);
    match from_token(alloc, &token, alg, &key) {
        Ok(hash) => ok_pair(alloc, "hash", hash.as_str()),
        Err(refusal) => unsigned_line(alloc, &refusal),
    }
}

fn code_hash(
    alloc: Global,
    text: &str,
    alg: &CoreJwsSigningAlgorithm,
) -> Result<String, CaseError> {
    let key = CoreJsonWebKey::new_symmetric(Vec::new(alloc));
    let code = AuthorizationCode::new(String::from_str(alloc, text)?);
    match from_code(alloc, &code, alg, &key) {
        Ok(hash) => ok_pair(alloc, "hash", hash.as_str()),
        Err(refusal) => unsigned_line(alloc, &refusal),
    }
}

/// Why nothing was signed or hashed. No call of the product makes the last two.
pub(crate) fn unsigned_line(alloc: Global, refusal: &SigningError) -> Result<String, CaseError> {
    match refusal {
        SigningError::UnsupportedAlg(_) => refused_word(alloc, "unsupported_alg"),
        SigningError::Memory => Err(CaseError::Memory),
        SigningError::CryptoError | SigningError::Other(_) => Err(CaseError::NoCase),
    }
}

// ---- tokens that are issued

/// `issue`: the ID token of these claims, signed by a secret.
pub(crate) fn issue(alloc: Global, case: &Case) -> Result<String, CaseError> {
    let optional = ["access_token", "code", "reading"];
    case.check_with(&["claims", "secret", "alg"], &optional)?;
    let alg = algorithm(case.value("alg"))?;
    let reading = reading_in(case)?;
    let handed = handed_in(alloc, case)?;
    let line = issued_line(alloc, case.value("claims"), reading, &handed, alg);
    drop(handed);
    line
}

// The signer, and what comes beside the token.
#[derive(Drop)]
struct Handed {
    key: CoreHmacKey,
    access_token: Option<AccessToken>,
    code: Option<AuthorizationCode>,
}

fn handed_in(alloc: Global, case: &Case) -> Result<Handed, AllocError> {
    let key = CoreHmacKey::new(Vec::from_slice(alloc, case.value("secret").as_bytes())?);
    let access_token = access_token_in(alloc, case)?;
    let code = code_in(alloc, case)?;
    Ok(Handed {
        key,
        access_token,
        code,
    })
}

fn issued_line(
    alloc: Global,
    claims: &str,
    reading: Reading,
    handed: &Handed,
    alg: CoreJwsSigningAlgorithm,
) -> Result<String, CaseError> {
    let claims = claims_of(alloc, claims, reading)?;
    let (access_token, code) = (handed.access_token.as_ref(), handed.code.as_ref());
    let issued = Token::new(alloc, claims, &handed.key, alg, access_token, code);
    let line = token_or_refusal(alloc, &issued);
    drop(issued);
    line
}

fn token_or_refusal(
    alloc: Global,
    issued: &Result<Token, JsonWebTokenError>,
) -> Result<String, CaseError> {
    match issued {
        Ok(token) => ok_pair(alloc, "token", token.token().as_str()),
        Err(JsonWebTokenError::SigningError(refusal)) => unsigned_line(alloc, refusal),
        Err(JsonWebTokenError::Memory) => Err(CaseError::Memory),
    }
}

/// The claims of a text that has to hold them under a reading.
pub(crate) fn claims_of(alloc: Global, text: &str, reading: Reading) -> Result<Claims, CaseError> {
    match claims_in(alloc, text, reading) {
        Ok(claims) => Ok(claims),
        Err(error) => Err(unread(&error)),
    }
}

fn access_token_in(alloc: Global, case: &Case) -> Result<Option<AccessToken>, AllocError> {
    match case.optional("access_token") {
        Some(token) => Ok(Some(AccessToken::new(String::from_str(alloc, token)?))),
        None => Ok(None),
    }
}

fn code_in(alloc: Global, case: &Case) -> Result<Option<AuthorizationCode>, AllocError> {
    match case.optional("code") {
        Some(code) => Ok(Some(AuthorizationCode::new(String::from_str(alloc, code)?))),
        None => Ok(None),
    }
}
