//! Texts of at most 64 bytes.
ghost use Rattle.std.specs.Prelude.{◌≡◌, ℕ, ◌-◌, ◌≤◌, ◌++◌, true, List, IfOk, IsOk, length, replicate, take};
ghost use Rattle.std.specs.Str.{is_utf8};
ghost use Rattle.short_text.specs.Front.{first_bytes};

use crate::front::{front_of, order};
use std::alloc::{AllocError, Global};
use std::cmp::Ordering;
use std::fmt;
use std::marker::Model;
use std::mem::size_of;
use std::str::from_utf8_unchecked;

/// The greatest length of a text, in bytes.
pub const LONGEST: usize = 64;

// The greatest length of a text that is kept inside the value, in bytes.
const INSIDE: usize = 22;

// The greatest length of a text that is kept in the smaller piece of memory, in bytes.
const MIDDLE: usize = 40;

// The bytes of a text, each followed by zeros up to the end of the array.
enum Storage {
    Inside {
        len: u8,
        bytes: [u8; INSIDE],
    },
    // The first eight bytes as a number are kept too, so that a comparison mostly reads no other memory.
    Middle {
        len: u8,
        front: u64,
        bytes: Box<[u8; MIDDLE]>,
    },
    Long {
        len: u8,
        front: u64,
        bytes: Box<[u8; LONGEST]>,
    },
}

// By hand, so that whoever drops a text calls this: a derived one is a `match` in each of these functions.
impl Drop for Storage {
    fn drop(self) {
        match self {
            Storage::Inside { len: _, bytes: _ } => {}
            Storage::Middle {
                len: _,
                front: _,
                bytes: _,
            } => {}
            Storage::Long {
                len: _,
                front: _,
                bytes: _,
            } => {}
        }
    }
}

/// A text of at most 64 bytes of UTF-8, in 24 bytes. Up to 22 bytes are inside the value; a longer text
/// has memory of its own.
///
/// Texts are equal if their bytes are, and are ordered byte by byte. In contracts the value of a text is
/// its bytes.
#[derive(Drop)]
pub struct ShortText {
    storage: Storage,
}

const _: () = prove!(size_of::<ShortText>() == 24);

impl Model for ShortText {
    ghost use Rattle.std.specs.Prelude.{List, ℕ};

    ghost Value = { List ℕ };

    ghost use Rattle.short_text.specs.Storages.{bytes_of};
    ghost use Rattle.short_text.specs.private.Texts.{IsText};

    ghost view = { λ text. bytes_of text.storage };

    ghost invariant = { λ text. IsText text.storage };
}

/// Memory for a text of any length, with which a text can be copied without an allocation.
#[derive(Drop)]
pub struct Spare {
    bytes: Box<[u8; LONGEST]>,
}

impl Spare {
    /// Memory for one text.
    ///
    /// # Errors
    ///
    /// `AllocError` if allocation failed.
    pub fn new(alloc: Global) -> Result<Spare, AllocError> {
        let bytes = Box::new(alloc, [0; LONGEST])?;
        Ok(Spare { bytes })
    }
}

impl ShortText {
    /// The text with these bytes, of which there are at most 64.
    ///
    /// # Errors
    ///
    /// `AllocError` if allocation failed. A text of at most 22 bytes needs none.
    pub fn new(alloc: Global, text: &str) -> Result<ShortText, AllocError>
        requires { length text.now ≤ 64 }
        ensures ok { IfOk result (λ short. short ≡ text.now) }
        ensures inside { length text.now ≤ 22 → IsOk result }
    {
        let len = text.len();
        if len <= INSIDE {
            return Ok(ShortText {
                storage: Storage::Inside {
                    len: len as u8,
                    bytes: padded(text),
                },
            });
        }
        let front = front_of(text);
        if len <= MIDDLE {
            let bytes = Box::new(alloc, padded(text))?;
            return Ok(ShortText {
                storage: Storage::Middle {
                    len: len as u8,
                    front,
                    bytes,
                },
            });
        }
        let bytes = Box::new(alloc, padded(text))?;
        Ok(ShortText {
            storage: Storage::Long {
                len: len as u8,
                front,
                bytes,
            },
        })
    }

    /// The text. It doesn't look at the bytes: they are known to be UTF-8.
    #[inline]
    pub fn as_str(&self) -> &str
        ensures text { result.now ≡ self.now }
        ensures short { length self.now ≤ 64 }
    {
        match &self.storage {
            Storage::Inside { len, bytes } => text_in(bytes, *len),
            Storage::Middle { len, bytes, .. } => text_in(&bytes[..], *len),
            Storage::Long { len, bytes, .. } => text_in(&bytes[..], *len),
        }
    }

    /// The first eight bytes as a big-endian number. A shorter text is padded with zeros.
    #[inline]
    pub fn front(&self) -> u64
        ensures { result ≡ first_bytes 8 self.now }
    {
        match &self.storage {
            Storage::Inside { bytes, .. } => front_in(bytes),
            Storage::Middle { front, .. } => *front,
            Storage::Long { front, .. } => *front,
        }
    }

    /// A copy of the text. That of a longer text has memory of its own.
    ///
    /// # Errors
    ///
    /// `AllocError` if allocation failed.
    pub fn copy(&self, alloc: Global) -> Result<ShortText, AllocError>
        ensures { IfOk result (λ short. short ≡ self.now) }
    {
        match &self.storage {
            Storage::Inside { len, bytes } => Ok(ShortText {
                storage: Storage::Inside {
                    len: *len,
                    bytes: *bytes,
                },
            }),
            Storage::Middle { len, front, bytes } => {
                let bytes = Box::new(alloc, **bytes)?;
                Ok(ShortText {
                    storage: Storage::Middle {
                        len: *len,
                        front: *front,
                        bytes,
                    },
                })
            }
            Storage::Long { len, front, bytes } => {
                let bytes = Box::new(alloc, **bytes)?;
                Ok(ShortText {
                    storage: Storage::Long {
                        len: *len,
                        front: *front,
                        bytes,
                    },
                })
            }
        }
    }
}

impl ShortText {
    /// A copy of the text. That of a longer text is in the memory of `spare`.
    ///
    /// It doesn't allocate and can't fail.
    pub fn copy_into(&self, spare: Spare) -> ShortText
        ensures { result ≡ self.now }
    {
        if let Storage::Inside { len, bytes: inside } = &self.storage {
            return ShortText {
                storage: Storage::Inside {
                    len: *len,
                    bytes: *inside,
                },
            };
        }
        let text = self.as_str();
        let mut bytes = spare.bytes;
        *bytes = padded(text);
        ShortText {
            storage: Storage::Long {
                len: text.len() as u8,
                front: self.front(),
                bytes,
            },
        }
    }
}

// The bytes of the text, followed by zeros.
fn padded<const N: usize>(text: &str) -> [u8; N]
    requires { length text.now ≤ N }
    ensures { result ≡ text.now ++ replicate (N - length text.now) 0 }
{
    let mut bytes = [0; N];
    bytes[..text.len()].copy_from_slice(text.as_bytes());
    bytes
}

// The text of the first bytes.
#[inline(always)]
fn text_in(bytes: &[u8], len: u8) -> &str
    requires within { len ≤ length bytes.now }
    requires utf8 { is_utf8 (take len bytes.now) ≡ true }
    ensures { result.now ≡ take len bytes.now }
{
    unsafe { from_utf8_unchecked(&bytes[..len as usize]) }
}

// The first eight bytes as a big-endian number.
#[inline(always)]
fn front_in(bytes: &[u8; INSIDE]) -> u64
    ensures { result ≡ first_bytes 8 bytes.now }
{
    u64::from_be_bytes([
        bytes[0], bytes[1], bytes[2], bytes[3], bytes[4], bytes[5], bytes[6], bytes[7],
    ])
}

/// As the text in quotes.
impl fmt::Debug for ShortText {
    fn fmt<W: fmt::Write>(&self, f: &mut fmt::Formatter<W>) -> fmt::Result {
        fmt::Debug::fmt(self.as_str(), f)
    }
}

impl PartialEq for ShortText {
    ghost use Rattle.std.specs.Prelude.{nat_eq};
    ghost use Rattle.std.specs.Cmp.{partial_equiv_from_equiv};
    ghost use Rattle.std.specs.Cmp.Lexicographic.{pointwise, nat_list_eq_equiv};

    ghost eq = { pointwise nat_eq };

    ghost laws = { partial_equiv_from_equiv nat_list_eq_equiv };

    fn eq(&self, other: &ShortText) -> bool {
        self.front() == other.front() && self.as_str() == other.as_str()
    }
}

impl Eq for ShortText {
    ghost use Rattle.std.specs.Cmp.Lexicographic.{nat_list_eq_equiv};

    ghost laws = { nat_list_eq_equiv };
}

impl PartialOrd for ShortText {
    ghost use Rattle.std.specs.Prelude.{Some};
    ghost use Rattle.std.specs.Ordering.{nat_cmp};
    ghost use Rattle.std.specs.Cmp.Lexicographic.{slice_cmp, texts_po};

    ghost partial_cmp = { λ x y. Some (slice_cmp nat_cmp x y) };

    ghost laws = { texts_po };

    fn partial_cmp(&self, other: &ShortText) -> Option<Ordering> {
        Some(self.cmp(other))
    }
}

/// Byte by byte.
impl Ord for ShortText {
    ghost use Rattle.std.specs.Prelude.{refl};
    ghost use Rattle.std.specs.Ordering.{nat_cmp};
    ghost use Rattle.std.specs.Cmp.Lexicographic.{slice_cmp, nat_list_cmp_total, texts_ties};

    ghost cmp = { slice_cmp nat_cmp };

    ghost total = { nat_list_cmp_total };

    ghost matches_partial_cmp = { λ _ _. refl };

    ghost matches_eq = { texts_ties };

    fn cmp(&self, other: &ShortText) -> Ordering {
        order(self.as_str(), self.front(), other.as_str(), other.front())
    }
}
