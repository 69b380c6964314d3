//! Texts without regard to case and accents.

ghost use Rattle.std.specs.Prelude.{◌≡◌, IfOk, string_bytes};
ghost use Rattle.stop_search.specs.Folds.{folded, is_mark, unmarked};

use caseless::default_case_fold_str;
use std::alloc::{AllocError, Global};
use ucd_category::GeneralCategory;
use unicode_normalization::to_nfd;

// The number of the category of nonspacing marks, as accents after their letters.
const NONSPACING_MARK: u32 = GeneralCategory::NonspacingMark as u32;

// Whether a character is a nonspacing mark, as an accent that stands after its letter.
fn is_mark(character: char) -> bool
    ensures { result ≡ is_mark character }
{
    GeneralCategory::for_char(character).number() == NONSPACING_MARK
}

// The text without its nonspacing marks.
fn unmarked(alloc: Global, text: &str) -> Result<String, AllocError>
    ensures { IfOk result (λ plain. string_bytes plain ≡ unmarked text.now) }
{
    text.chars()
        .filter(|character| !is_mark(*character))
        .collect(alloc)
}

/// The text without regard to case and accents: two texts that differ only in these give the same. It fails only if memory runs out.
pub fn folded(alloc: Global, text: &str) -> Result<String, AllocError>
    ensures { IfOk result (λ plain. string_bytes plain ≡ folded text.now) }
{
    let decomposed = to_nfd(alloc, text)?;
    let cased = default_case_fold_str(alloc, decomposed.as_str())?;
    let again = to_nfd(alloc, cased.as_str())?;
    unmarked(alloc, again.as_str())
}

/// Whether a text contains a part that is folded already, without regard to case and accents.
pub fn is_part(alloc: Global, part: &str, text: &str) -> Result<bool, AllocError> {
    Ok(folded(alloc, text)?.as_str().contains(part))
}
