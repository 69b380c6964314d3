//! Times as most feeds write them, `HH:MM:SS`, whose eight bytes are tested together.

ghost use Rattle.std.specs.Prelude.{◌≡◌, ◌+◌, ◌-◌, ◌*◌, ◌<◌, ◌≤◌, ℕ, Some, length, slice_index, IfSome, IsTrue};
ghost use Rattle.gtfs_text.specs.Clock.{IsClock, IsDigit};
ghost use Rattle.gtfs_text.specs.Values.{time_of};

use std::simd::prelude::*;

// Whether none of eight bytes is below that of the other eight in its place.
fn none_below(bytes: u8x8, least: u8x8) -> bool
    requires bytes { length bytes ≡ 8 }
    requires least { length least ≡ 8 }
    ensures { IsTrue result → (k : ℕ) → k < 8 → slice_index least k ≤ slice_index bytes k }
{
    bytes.simd_lt(least).to_bitmask() == 0
}

// Whether each byte of a text is at least that of `00:00:00`, and at most that of `99:59:59`.
fn is_clock(text: &[u8]) -> bool
    requires { length text.now ≡ 8 }
    ensures { IsTrue result → IsClock text.now }
{
    let bytes = u8x8::from_slice(text);
    let least = u8x8::from_array([b'0', b'0', b':', b'0', b'0', b':', b'0', b'0']);
    let most = u8x8::from_array([b'9', b'9', b':', b'5', b'9', b':', b'5', b'9']);
    none_below(bytes, least) && none_below(most, bytes)
}

// The number that two digits spell.
fn pair(tens: u8, ones: u8) -> u32
    requires tens { IsDigit tens }
    requires ones { IsDigit ones }
    ensures { result ≡ 10 * (tens - 48) + (ones - 48) }
{
    10 * (tens - b'0') as u32 + (ones - b'0') as u32
}

/// The seconds of a time of the form `HH:MM:SS`; none if the text has another form, or is no time.
pub(crate) fn usual_time(text: &[u8]) -> Option<u32>
    ensures { IfSome result (λ seconds. time_of text.now ≡ Some seconds) }
{
    if text.len() != 8 || !is_clock(text) {
        return None;
    }
    let hours = pair(text[0], text[1]);
    let minutes = pair(text[3], text[4]);
    let seconds = pair(text[6], text[7]);
    Some(3600 * hours + 60 * minutes + seconds)
}
