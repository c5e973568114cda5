//! The addresses below an issuer.

ghost use Rattle.oidc_types.specs.UrlText.{ParsesUrl, joined_text};

use crate::url_text::{UrlText, UrlTextError, parse};
use crate::urls::IssuerUrlMarker;
use std::alloc::Global;
use url::Url;

impl UrlText<IssuerUrlMarker> {
    /// The URL of the issuer's text, a slash where the text does not end in one, and the suffix:
    /// `.well-known/openid-configuration` stands below an issuer so (OpenID Connect Discovery 1.0
    /// section 4). Refused as `new` is.
    pub fn join(&self, alloc: Global, suffix: &str) -> Result<Url, UrlTextError>
        ensures reads { ParsesUrl result (joined_text self.now.text suffix.now) }
    {
        let mut text = String::from_str(alloc, self.as_str())?;
        if !self.as_str().ends_with('/') {
            text.push('/')?;
        }
        text.push_str(suffix)?;
        parse(alloc, text.as_str())
    }
}
