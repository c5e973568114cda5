//! A URL beside the text that it was given as.

ghost use Rattle.std.specs.Prelude.{◌≡◌, IfOk, nat_eq, Some};
ghost use Rattle.std.specs.String.{string_bytes};
ghost use Rattle.std.specs.Cmp.{partial_order_from_own_ties};
ghost use Rattle.std.specs.Cmp.Lexicographic.{pointwise, slice_cmp};
ghost use Rattle.std.specs.Cmp.Rules.{comparing, hashing};
ghost use Rattle.std.specs.Hash as fed;
ghost use Rattle.std.specs.Ordering.{nat_cmp, as_partial_cmp};
ghost use Rattle.std.proofs.Common.{rules};
ghost use Rattle.url.specs.Parts.{serialize};
ghost use Rattle.oidc_types.specs.UrlText.{ParsesUrl, ReadsUrl};

use crate::text::Marker;
use std::alloc::{AllocError, Global};
use std::cmp::Ordering;
use std::fmt;
use std::hash::{Hash, Hasher};
use std::marker::{Model, PhantomData};
use url::{ParseError, Url};

/// A URL of the kind `M`, beside the text that it was given as. Contracts see the text and the
/// URL's parts.
#[derive(Drop)]
pub struct UrlText<M> {
    text: String,
    url: Url,
    of: PhantomData<M>,
}

impl<M> Model for UrlText<M> {
    ghost use Rattle.std.specs.String.{string_bytes};
    ghost use Rattle.oidc_types.specs.UrlText.{TextAndUrl, text_and_url_code};

    ghost Value = { TextAndUrl };

    ghost coded = { text_and_url_code };

    ghost view = { λ u. record { text = string_bytes u.text; url = u.url } };
}

/// Why a text gives no URL.
#[derive(Debug, Drop, thiserror::Error)]
pub enum UrlTextError {
    /// The URL Standard refuses the text.
    #[error("a text that is no URL: {0}")]
    Refused(ParseError),
    /// There was no memory.
    #[error("out of memory")]
    Memory,
}

impl From<AllocError> for UrlTextError {
    ghost use Rattle.std.specs.Prelude.{◌≡◌};
    ghost use Rattle.oidc_types.specs.declared.url_text.UrlTextError.TheVariants.{Memory};

    ghost from_gives = { λ _ error. error ≡ Memory };

    fn from(_refused: AllocError) -> UrlTextError {
        UrlTextError::Memory
    }
}

/// The URL that the URL Standard reads of a text with no base.
pub(crate) fn parse(alloc: Global, text: &str) -> Result<Url, UrlTextError>
    ensures { ParsesUrl result text.now }
{
    match Url::parse(alloc, text) {
        Ok(url) => Ok(url),
        Err(ParseError::OutOfMemory) => Err(UrlTextError::Memory),
        Err(ParseError::Overflow) => Err(UrlTextError::Memory),
        Err(error) => Err(UrlTextError::Refused(error)),
    }
}

impl<M: Marker> UrlText<M> {
    /// Keeps the text as it is given, and the URL that the URL Standard reads of it with no base.
    /// `Refused` where the standard refuses the text. A URL that is too long for the parser is
    /// `Memory`.
    pub fn new(alloc: Global, text: String) -> Result<Self, UrlTextError>
        ensures reads { ReadsUrl result (string_bytes text) }
    {
        let url = parse(alloc, text.as_str())?;
        Ok(UrlText {
            text,
            url,
            of: PhantomData,
        })
    }

    /// Keeps the URL, and the text that it is written as. `AllocError` is want of memory, the one
    /// error.
    pub fn from_url(alloc: Global, url: Url) -> Result<Self, AllocError>
        ensures text { IfOk result (λ made. made.text ≡ serialize url) }
        ensures url { IfOk result (λ made. made.url ≡ url) }
    {
        let text = String::from_str(alloc, url.as_str())?;
        Ok(UrlText {
            text,
            url,
            of: PhantomData,
        })
    }

    /// The URL.
    pub fn url(&self) -> &Url
        ensures url { result.now ≡ self.now.url }
    {
        &self.url
    }

    /// The URL, taken out.
    pub fn into_url(self) -> Url
        ensures url { result ≡ self.url }
    {
        self.url
    }

    /// The text.
    pub fn as_str(&self) -> &str
        ensures text { result.now ≡ self.now.text }
    {
        self.text.as_str()
    }

    /// A copy of the text and the URL. `AllocError` is want of memory, the one error.
    pub fn clone_in(&self, alloc: Global) -> Result<Self, AllocError>
        ensures copy { IfOk result (λ copy. copy ≡ self.now) }
    {
        let text = String::from_str(alloc, self.text.as_str())?;
        let url = self.url.clone()?;
        Ok(UrlText {
            text,
            url,
            of: PhantomData,
        })
    }
}

impl<M: Marker> PartialEq for UrlText<M> {
    ghost eq = { λ a b. pointwise nat_eq a.text b.text };

    ghost laws = { Prim.search (comparing, rules) };

    fn eq(&self, other: &UrlText<M>) -> bool {
        self.text == other.text
    }
}

impl<M: Marker> Eq for UrlText<M> {
    ghost laws = { Prim.search (comparing, rules) };
}

impl<M: Marker> Ord for UrlText<M> {
    ghost cmp = { λ a b. slice_cmp nat_cmp a.text b.text };

    ghost total = { Prim.search (comparing, rules) };

    ghost matches_partial_cmp = { Prim.search (comparing, rules) };

    ghost matches_eq = { Prim.search (comparing, rules) };

    fn cmp(&self, other: &UrlText<M>) -> Ordering {
        self.text.cmp(&other.text)
    }
}

impl<M: Marker> PartialOrd for UrlText<M> {
    ghost partial_cmp = { as_partial_cmp (λ a b. slice_cmp nat_cmp a.text b.text) };

    ghost laws = { partial_order_from_own_ties
        (Prim.search (comparing, rules)) (Prim.search (comparing, rules)) };

    fn partial_cmp(&self, other: &UrlText<M>) -> Option<Ordering> {
        Some(self.cmp(other))
    }
}

impl<M: Marker> Hash for UrlText<M> {
    ghost hash_input = { λ a. fed.str a.text };

    ghost respects_eq = { Prim.search (hashing, rules) };

    fn hash<H: Hasher>(&self, state: &mut H) {
        self.text.hash(state);
    }
}

/// Prints the text.
impl<M: Marker> fmt::Display for UrlText<M> {
    ghost output = { λ u. Some u.text };

    fn fmt<W: fmt::Write>(&self, f: &mut fmt::Formatter<W>) -> fmt::Result {
        fmt::Display::fmt(&self.text, f)
    }
}

/// Prints the kind and the text, as `IssuerUrl("https://example")`.
impl<M: Marker> fmt::Debug for UrlText<M> {
    ghost use Rattle.std.specs.Fmt.{debug_str};
    ghost use Rattle.oidc_types.specs.Text.{debug_text};

    ghost debug_output = { λ u. debug_text M.name (debug_str u.text) };

    fn fmt<W: fmt::Write>(&self, f: &mut fmt::Formatter<W>) -> fmt::Result {
        write!(f, "{}({:?})", M::name(), self.text)
    }
}
