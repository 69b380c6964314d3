//! An id, as it is shown.

ghost use Rattle.std.specs.Prelude.{Some};
ghost use Rattle.std.specs.Fmt.{WritesOnOk};
ghost use Rattle.std.specs.Str.{encode_utf8_all};
ghost use Rattle.shown_ids.specs.Shown.{shown, shown_char};

use std::fmt;

/// An id of a feed or of a question, which may be any text, as it is shown. A backslash is shown as two, each control character (Unicode
/// category Cc) as `\u{..}` with its number in hexadecimal, and each other character as itself. So an id never ends a line, nor reaches
/// the terminal as a command.
#[derive(Clone, Copy)]
pub struct Shown<'a>(pub &'a str);

impl fmt::Display for Shown<'_> {
    ghost output = { λ id. Some (shown id.0.now) };

    fn fmt<W: fmt::Write>(&self, f: &mut fmt::Formatter<W>) -> fmt::Result {
        for character in self.0.chars() {
            write_shown(f, character)?;
        }
        Ok(())
    }
}

// Writes one character.
#[tactic(auto, unfolding(crate::specs::Shown::shown_char))]
fn write_shown<W: fmt::Write>(f: &mut fmt::Formatter<W>, character: char) -> fmt::Result
    ensures { WritesOnOk W.write_str_gives f.old result (encode_utf8_all (shown_char character)) f.new }
{
    if character == '\\' {
        return f.write_str("\\\\");
    }
    if !character.is_control() {
        return f.write_char(character);
    }
    for part in character.escape_unicode() {
        f.write_char(part)?;
    }
    Ok(())
}
