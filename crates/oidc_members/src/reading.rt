// Which spellings of values a reader takes.

/// Which values are taken beside those that OpenID Connect Core 1.0 section 5.1 and RFC 7519 section
/// 2 name. Some providers write a boolean as a text, or a moment as a date.
#[derive(Clone, Copy, Debug, Drop, PartialEq, Eq)]
pub struct Reading {
    /// A boolean may be the text `true` or `false`.
    pub string_booleans: bool,
    /// A moment may be a text of RFC 3339.
    pub rfc3339_moments: bool,
}

impl Reading {
    /// No text is a boolean or a moment.
    pub const STRICT: Reading = Reading {
        string_booleans: false,
        rfc3339_moments: false,
    };
}
