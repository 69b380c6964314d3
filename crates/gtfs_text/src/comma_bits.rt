//! Where the commas of a line are, as the bits of a number, 64 bytes of the line at a time.

ghost use Rattle.std.specs.Prelude.{◌≡◌, ◌≢◌, ℕ, ◌+◌, ◌<◌, ◌≤◌, get_or, take, if◌then◌else◌, length};
ghost use Rattle.std.specs.Int.{bit_at};
ghost use Rattle.gtfs_text.specs.Commas.{MarksCommas};
ghost use Rattle.gtfs_text.specs.Lines.{is_comma};

use std::simd::prelude::*;

/// The lowest bit that is set.
pub(crate) fn lowest(marks: u64) -> usize
    requires { marks ≢ 0 }
    ensures bound { result < 64 }
    ensures set { bit_at marks result ≡ 1 }
    ensures below { (k : ℕ) → k < result → bit_at marks k ≡ 0 }
{
    marks.trailing_zeros() as usize
}

/// The marks without this one.
pub(crate) fn without(marks: u64, bit: usize) -> u64
    requires bound { bit < 64 }
    requires set { bit_at marks bit ≡ 1 }
    ensures smaller { result < marks }
    ensures gone { bit_at result bit ≡ 0 }
    ensures kept { (k : ℕ) → k < 64 → k ≢ bit → bit_at result k ≡ bit_at marks k }
{
    marks & !(1 << bit)
}

// The marks below this one.
fn below(marks: u64, bit: usize) -> u64
    requires { bit < 64 }
    ensures kept { (k : ℕ) → k < bit → bit_at result k ≡ bit_at marks k }
    ensures gone { (k : ℕ) → bit ≤ k → bit_at result k ≡ 0 }
{
    marks & ((1 << bit) - 1)
}

// The commas among the 64 bytes of a text from `at` on.
fn commas_in_block(text: &[u8], at: usize) -> u64
    requires { at + 64 ≤ length text.now }
    ensures { (k : ℕ) → k < 64 → bit_at result k ≡ (if is_comma (get_or text.now (at + k) 0) then 1 else 0) }
{
    u8x64::from_slice(&text[at..])
        .simd_eq(u8x64::splat(b','))
        .to_bitmask()
}

/// The commas among the next 64 bytes from `at` on of a line, which is as much of a text as `size` says.
pub(crate) fn commas_from(text: &[u8], size: usize, at: usize) -> u64
    requires room { at + 64 ≤ length text.now }
    requires within { at ≤ size }
    ensures { MarksCommas (take size text.now) at 0 result }
{
    let commas = commas_in_block(text, at);
    if size - at < 64 {
        below(commas, size - at)
    } else {
        commas
    }
}
