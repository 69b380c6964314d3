//! Spaces round a field.

ghost use Rattle.std.specs.Prelude.{◌≡◌, IsTrue};
ghost use Rattle.gtfs_text.specs.Sheets.{without_spaces, without_front_spaces, without_end_spaces};

// The text from its first byte that isn't a space.
fn without_front(text: &[u8]) -> &[u8]
    ensures { result.now ≡ without_front_spaces text.now }
{
    let mut start = 0;
    while start < text.len() && text[start] == b' ' {
        start += 1;
    }
    text.split_at(start).1
}

// The text up to its last byte that isn't a space.
fn without_end(text: &[u8]) -> &[u8]
    ensures { result.now ≡ without_end_spaces text.now }
{
    let mut end = text.len();
    while end > 0 && text[end - 1] == b' ' {
        end -= 1;
    }
    text.split_at(end).0
}

// Whether a text neither begins nor ends with a space.
fn is_bare(text: &[u8]) -> bool
    ensures { IsTrue result → without_spaces text.now ≡ text.now }
{
    text.is_empty() || (text[0] != b' ' && text[text.len() - 1] != b' ')
}

// The text without the spaces at both ends, one by one.
#[cold]
fn stripped(text: &[u8]) -> &[u8]
    ensures { result.now ≡ without_spaces text.now }
{
    without_end(without_front(text))
}

/// The text without the spaces at both ends.
pub(crate) fn without_spaces(text: &[u8]) -> &[u8]
    ensures { result.now ≡ without_spaces text.now }
{
    if is_bare(text) { text } else { stripped(text) }
}
