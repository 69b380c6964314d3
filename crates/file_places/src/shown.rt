//! What a fault says by itself.

use feed_texts::FaultText;

// A text up to its first space.
fn first_word(text: &str) -> &str {
    match text.split_once(' ') {
        Some((word, _)) => word,
        None => text,
    }
}

// A fault's text without the word for one of the files of a migration, which stands before the rest.
fn without_file(shown: &str) -> &str {
    match shown.split_once(' ') {
        Some(("old" | "new", rest)) => rest,
        _ => shown,
    }
}

// The code in a fault's text, if it has one, and the name, which comes next.
fn words_of(shown: &str) -> (Option<&str>, &str) {
    match shown.split_once(' ') {
        Some((code, rest)) => (Some(code), first_word(rest)),
        None => (None, shown),
    }
}

/// What a fault says by itself, for machines, if it is shown so: its code and its name, and its status.
pub fn text_of<'a>(shown: &'a str, status: u8) -> FaultText<'a> {
    let (code, name) = words_of(without_file(shown));
    FaultText {
        code,
        name,
        file: None,
        row: None,
        id: None,
        status,
        end: None,
        given: &[],
        near: None,
        stops: None,
    }
}
