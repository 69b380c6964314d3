//! Which list a file of the sample feed's trees stands for, only by the layout.

use sample_store::TEXTS;

// What stands after an open gate, the length and the text, if the file has these.
fn behind<'a>(rest: &'a [u8], text: &[u8]) -> Option<&'a [u8]> {
    let (gate, rest) = rest.split_first()?;
    let (size, rest) = rest.split_at_checked(4)?;
    let (found, rest) = rest.split_at_checked(text.len())?;
    let same = *gate == 0xA5
        && size == u32::try_from(text.len()).ok()?.to_be_bytes().as_slice()
        && found == text;
    same.then_some(rest)
}

/// How many of the texts, from the first on, a file stands for; none if it stands for no list of them.
pub fn list_in(bytes: &[u8], header: &[u8]) -> Option<usize> {
    if bytes.len() < 15 || bytes.first() != Some(&0xA5) {
        return Some(0);
    }
    let mut rest = bytes.strip_prefix(header)?;
    for (count, text) in TEXTS.iter().enumerate() {
        if rest.first() != Some(&0xA5) {
            return rest.first().map(|_| count);
        }
        rest = behind(rest, text)?;
    }
    match rest.first() {
        Some(gate) if *gate != 0xA5 => Some(TEXTS.len()),
        _ => None,
    }
}
