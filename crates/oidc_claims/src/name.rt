// A member's name, cut into the base and the language tag (OpenID Connect Core 1.0 section 5.2).
ghost use Rattle.std.specs.Prelude.{◌≡◌};
ghost use Rattle.std.specs.Option.{option_copied};
ghost use Rattle.oidc_claims.specs.Table.{base_of, tag_of};

/// The name up to its first `#`.
pub(crate) fn base_of_name(name: &str) -> &str
    ensures { result.now ≡ base_of name.now }
{
    match name.split_once('#') {
        Some((base, _)) => base,
        None => name,
    }
}

/// What stands behind the first `#` of the name. An empty tag is none.
pub(crate) fn tag_of_name(name: &str) -> Option<&str>
    ensures { option_copied result ≡ tag_of name.now }
{
    match name.split_once('#') {
        Some((_, tag)) => if tag.is_empty() { None } else { Some(tag) },
        None => None,
    }
}
