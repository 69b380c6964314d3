//! Of which files the trees are put together.

ghost use Rattle.std.specs.Prelude.{◌≡◌, IfNone, IfSome, List, map};
ghost use Rattle.std.specs.List.{list_any};
ghost use Rattle.std.specs.Str.{bytes_eq};
ghost use Rattle.clap.specs.Words.{Text, rows_of, found_of};
ghost use Rattle.option_words.specs.MergeWords.{PutsTogether};

use clap::ArgMatches;
use options::text_of;

// Whether the file is one of these.
fn is_among(files: &[&str], file: &str) -> bool
    ensures { result ≡ list_any (λ one. bytes_eq one.now file.now) files.now }
{
    files.iter().any(|one| *one == file)
}

/// The files of the parts. None if the words name none, or one of them for the store too.
pub fn parts_of<'m, 'a>(found: &'m ArgMatches<'a>) -> Option<&'m [&'a str]>
    ensures parts { IfSome result (λ parts. PutsTogether (rows_of (found_of found.now)) (map (λ part. part.now) parts.now)) }
    ensures none { IfNone result ((parts : List Text) → ¬ PutsTogether (rows_of (found_of found.now)) parts) }
{
    let parts = found.get_strs("part")?;
    match text_of(found, "store") {
        Some(store) if is_among(parts, store) => None,
        _ => Some(parts),
    }
}
