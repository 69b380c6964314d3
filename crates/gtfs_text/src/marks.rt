//! Byte order marks at the front of a file.

ghost use Rattle.std.specs.Prelude.{◌≡◌};
ghost use Rattle.gtfs_text.specs.Sheets.{without_marks};

/// U+FEFF in UTF-8.
const MARK: &[u8] = b"\xEF\xBB\xBF";

/// The bytes after every byte order mark at the front.
pub(crate) fn after_marks(bytes: &[u8]) -> &[u8]
    ensures { result.now ≡ without_marks bytes.now }
{
    let mut rest = bytes;
    while rest.starts_with(MARK) {
        let (_, after) = rest.split_at(3);
        rest = after;
    }
    rest
}
