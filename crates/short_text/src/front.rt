//! The first eight bytes of a text as a number: most texts differ in them, and are ordered as these numbers.
ghost use Rattle.std.specs.Prelude.{◌≡◌, slice_index_or};
ghost use Rattle.std.specs.Cmp.Lexicographic.{slice_cmp};
ghost use Rattle.std.specs.Ordering.{nat_cmp};
ghost use Rattle.short_text.specs.Front.{first_bytes};

use std::cmp::Ordering;

/// The first eight bytes of the text as a big-endian number. A shorter text is padded with zeros.
pub fn front_of(text: &str) -> u64
    ensures { result ≡ first_bytes 8 text.now }
{
    let bytes = text.as_bytes();
    u64::from_be_bytes([
        byte_or_zero(bytes, 0),
        byte_or_zero(bytes, 1),
        byte_or_zero(bytes, 2),
        byte_or_zero(bytes, 3),
        byte_or_zero(bytes, 4),
        byte_or_zero(bytes, 5),
        byte_or_zero(bytes, 6),
        byte_or_zero(bytes, 7),
    ])
}

// The byte at this place, or zero if the text has ended before it.
fn byte_or_zero(bytes: &[u8], place: usize) -> u8
    ensures { result ≡ slice_index_or bytes.now place 0 }
{
    if place < bytes.len() { bytes[place] } else { 0 }
}

// The order of two texts, byte by byte: that of the numbers of their first bytes, if these differ.
#[inline(always)]
pub(crate) fn order(text: &str, front: u64, other: &str, other_front: u64) -> Ordering
    requires front { front ≡ first_bytes 8 text.now }
    requires other_front { other_front ≡ first_bytes 8 other.now }
    ensures { result ≡ slice_cmp nat_cmp text.now other.now }
{
    if front != other_front {
        return front.cmp(&other_front);
    }
    text.cmp(other)
}
