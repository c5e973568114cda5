// White space around a text (RFC 8259 section 2).
ghost use Rattle.std.specs.Prelude.{◌≡◌};
ghost use Rattle.std.specs.List.{list_all};
ghost use Rattle.oidc_members.specs.Objects.{is_space as is_space_byte, trimmed, without_spaces_before as text_from_first, without_spaces_after as text_to_last};

// Other white space of ASCII, as a form feed, is none in JSON, so std's tests don't serve.
pub(crate) fn is_space(byte: u8) -> bool
    ensures { result ≡ is_space_byte byte }
{
    matches!(byte, b' ' | b'\t' | b'\n' | b'\r')
}

pub(crate) fn is_blank(text: &[u8]) -> bool
    ensures { result ≡ list_all is_space_byte text.now }
{
    text.iter().all(|byte| is_space(*byte))
}

fn without_spaces_before(text: &[u8]) -> &[u8]
    ensures { result.now ≡ text_from_first text.now }
{
    let mut start = 0;
    while start < text.len() && is_space(text[start]) {
        start += 1;
    }
    &text[start..]
}

fn without_spaces_after(text: &[u8]) -> &[u8]
    ensures { result.now ≡ text_to_last text.now }
{
    let mut end = text.len();
    while end > 0 && is_space(text[end - 1]) {
        end -= 1;
    }
    &text[..end]
}

#[tactic(auto, unfolding(crate::specs::Objects::trimmed))]
pub(crate) fn trim(text: &[u8]) -> &[u8]
    ensures { result.now ≡ trimmed text.now }
{
    without_spaces_after(without_spaces_before(text))
}
