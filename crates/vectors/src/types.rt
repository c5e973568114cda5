//! URLs, claims in several languages, and random texts.

use case_lines::{Case, CaseError, number, ok_form, ok_pair, refused};
use oidc_pairs::FormText;
use oidc_types::{
    EndUserName, IssuerUrl, LanguageTag, LocalizedClaim, Nonce, RequestUrl, UrlTextError,
};
use rand_pcg::Pcg32;
use std::alloc::{AllocError, Global};
use url::Url;

/// The stream of the generator of `random`.
const STREAM: u64 = 54;

/// `url`: the URL that a text is.
pub(crate) fn url(alloc: Global, case: &Case) -> Result<String, CaseError> {
    case.check(&["text"])?;
    match RequestUrl::new(alloc, String::from_str(alloc, case.value("text"))?) {
        Ok(made) => url_line(alloc, made.url()),
        Err(UrlTextError::Refused(_)) => refused(alloc),
        Err(UrlTextError::Memory) => Err(CaseError::Memory),
    }
}

/// `join`: an address below an issuer.
pub(crate) fn join(alloc: Global, case: &Case) -> Result<String, CaseError> {
    case.check(&["issuer", "suffix"])?;
    match IssuerUrl::new(alloc, String::from_str(alloc, case.value("issuer"))?) {
        Ok(issuer) => joined(alloc, &issuer, case.value("suffix")),
        Err(UrlTextError::Refused(_)) => Err(CaseError::NoCase),
        Err(UrlTextError::Memory) => Err(CaseError::Memory),
    }
}

fn joined(alloc: Global, issuer: &IssuerUrl, suffix: &str) -> Result<String, CaseError> {
    match issuer.join(alloc, suffix) {
        Ok(url) => url_line(alloc, &url),
        Err(UrlTextError::Refused(_)) => refused(alloc),
        Err(UrlTextError::Memory) => Err(CaseError::Memory),
    }
}

fn url_line(alloc: Global, url: &Url) -> Result<String, CaseError> {
    ok_pair(alloc, "url", url.as_str())
}

/// `random`: a text of random bytes, by PCG32 of this state and stream 54.
pub(crate) fn random(alloc: Global, case: &Case) -> Result<String, CaseError> {
    case.check(&["seed", "bytes"])?;
    let seed = number::<u64>(case.value("seed"))?;
    let bytes = number::<u32>(case.value("bytes"))?;
    let nonce = Nonce::new_random_len(alloc, &mut Pcg32::new(seed, STREAM), bytes)?;
    ok_pair(alloc, "text", nonce.secret())
}

/// `localized`: what stands in a claim after these calls, in its order.
pub(crate) fn localized(alloc: Global, case: &Case) -> Result<String, CaseError> {
    let mut claim = LocalizedClaim::new(alloc);
    for pair in case.pairs() {
        change(alloc, &mut claim, pair.name(), pair.value())?;
    }
    let form = entries(alloc, &claim)?;
    ok_form(alloc, form)
}

// An empty tag is none.
fn tag_of(alloc: Global, tag: &str) -> Result<Option<LanguageTag>, AllocError> {
    if tag.is_empty() {
        Ok(None)
    } else {
        Ok(Some(LanguageTag::new(String::from_str(alloc, tag)?)))
    }
}

// One call of `localized`.
fn change(
    alloc: Global,
    claim: &mut LocalizedClaim<EndUserName>,
    call: &str,
    text: &str,
) -> Result<(), CaseError> {
    match call {
        "insert" => insert(alloc, claim, text),
        "remove" => {
            let tag = tag_of(alloc, text)?;
            let _ = claim.remove(tag.as_ref());
            Ok(())
        }
        _ => Err(CaseError::NoCase),
    }
}

fn insert(
    alloc: Global,
    claim: &mut LocalizedClaim<EndUserName>,
    text: &str,
) -> Result<(), CaseError> {
    let Some((tag, value)) = text.split_once('#') else {
        return Err(CaseError::NoCase);
    };
    let value = EndUserName::new(String::from_str(alloc, value)?);
    let _ = claim.insert(tag_of(alloc, tag)?, value)?;
    Ok(())
}

// A pair for each entry: tag, `#` and value.
fn entries(alloc: Global, claim: &LocalizedClaim<EndUserName>) -> Result<FormText, AllocError> {
    let mut form = FormText::new(alloc);
    for (tag, value) in claim.iter() {
        let tag = match tag {
            Some(tag) => tag.as_str(),
            None => "",
        };
        let entry = format!(in alloc; "{tag}#{}", value.as_str())?;
        form.push(entry.as_str(), "")?;
    }
    Ok(form)
}
