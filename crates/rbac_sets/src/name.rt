//! Names of users, roles, objects, operations, sessions and separation of duty sets.
ghost use Rattle.std.specs.Prelude.{◌≡◌, ◌<◌, ◌⊎◌, ◌&&◌, ◌↔◌, IsTrue, true, false, Err, IfOk, IfErr, nat_le, length};
ghost use Rattle.std.specs.List.{list_all};
ghost use Rattle.std.specs.Ordering.{nat_cmp};
ghost use Rattle.std.specs.Cmp.Lexicographic.{slice_cmp};
ghost use Rattle.rbac_sets.specs.Name.{fingerprint, first_bytes, has_name_length, is_name, is_printable};
ghost use Rattle.rbac_sets.specs.Sets.{same_name};

use crate::borrowed_name::BorrowedName;
use crate::refusal::Refusal;
use short_text::{ShortText, Spare};
use std::alloc::Global;
use std::cmp::Ordering;
use std::marker::Model;

/// The greatest length of a name, in bytes.
const LONGEST_NAME: usize = 64;

/// How many fingerprints there are.
pub const FINGERPRINTS: usize = 4_096;

// 2 to the 64th divided by the golden ratio. The highest bits of a product by it depend on all bits.
const SPREAD: u64 = 11_400_714_819_323_198_485;

/// The name of a user, a role, an object, an operation, a session or a separation of duty set:
/// UTF-8 of 1 to 64 bytes, with no byte below 0x20 and no 0x7F.
///
/// Names are equal if their bytes are, and are ordered byte by byte; there is no normalisation and
/// no case folding. In contracts the value of a name is its bytes.
#[derive(Debug, Drop)]
pub struct Name {
    text: ShortText,
}

impl Model for Name {
    ghost use Rattle.std.specs.Prelude.{◌≡◌, true, List, ℕ};
    ghost use Rattle.rbac_sets.specs.Name.{is_name};

    ghost Value = { List ℕ };

    ghost view = { λ name. name.text };

    ghost invariant = { λ name. is_name name.text ≡ true };
}

impl Name {
    /// The name with this text, which may be any text.
    ///
    /// # Errors
    ///
    /// `BadName` if the text is not a valid name: it is empty, longer than 64 bytes, or has a byte
    /// below 0x20 or a 0x7F. `Memory` if allocation failed.
    pub fn new(alloc: Global, text: &str) -> Result<Name, Refusal>
        ensures ok { IfOk result (λ name. (name ≡ text.now) × (is_name text.now ≡ true)) }
        ensures err { IfErr result (λ refusal. (refusal ≡ Refusal.Memory) ⊎ ((refusal ≡ Refusal.BadName) × (is_name text.now ≡ false))) }
        ensures bad_name { is_name text.now ≡ false → result ≡ Err Refusal.BadName }
    {
        if !is_name(text) {
            return Err(Refusal::BadName);
        }
        let text = ShortText::new(alloc, text)?;
        Ok(Name { text })
    }

    /// The name's text.
    pub fn as_str(&self) -> &str
        ensures text { result.now ≡ self.now }
        ensures is_name { is_name self.now ≡ true }
    {
        self.text.as_str()
    }

    /// The name with its text borrowed. It doesn't allocate.
    #[inline(always)]
    pub fn as_borrowed(&self) -> BorrowedName<'_>
        ensures { result ≡ self.now }
    {
        BorrowedName::of_parts(self.text.front(), self.as_str())
    }

    /// A copy of the name. A name of more than 22 bytes has memory of its own.
    ///
    /// # Errors
    ///
    /// `Memory` if allocation failed.
    pub fn copy(&self, alloc: Global) -> Result<Name, Refusal>
        ensures ok { IfOk result (λ name. name ≡ self.now) }
        ensures cause { IfErr result (λ refusal. refusal ≡ Refusal.Memory) }
    {
        let text = self.text.copy(alloc)?;
        Ok(Name { text })
    }

    /// A copy of the name. That of a name of more than 22 bytes is in the memory of `spare`.
    ///
    /// It doesn't allocate and can't fail.
    pub fn copy_into(&self, spare: Spare) -> Name
        ensures { result ≡ self.now }
    {
        Name {
            text: self.text.copy_into(spare),
        }
    }

    /// A number below `FINGERPRINTS`, computed from the name's first eight bytes. Equal names have the
    /// same fingerprint, so names with different fingerprints are not equal.
    ///
    /// It doesn't allocate, and reads no text.
    #[tactic(auto, unfolding(crate::specs::Name::fingerprint))]
    pub fn fingerprint(&self) -> usize
        ensures value { result ≡ fingerprint self.now }
        ensures within { result < FINGERPRINTS }
    {
        (self.text.front().wrapping_mul(SPREAD) >> 52) as usize
    }
}

impl PartialEq for Name {
    ghost use Rattle.std.specs.Prelude.{nat_eq};
    ghost use Rattle.std.specs.Cmp.{partial_equiv_from_equiv};
    ghost use Rattle.std.specs.Cmp.Lexicographic.{pointwise, nat_list_eq_equiv};

    ghost eq = { pointwise nat_eq };

    ghost laws = { partial_equiv_from_equiv nat_list_eq_equiv };

    fn eq(&self, other: &Name) -> bool {
        self.text == other.text
    }
}

impl Eq for Name {
    ghost use Rattle.std.specs.Cmp.Lexicographic.{nat_list_eq_equiv};

    ghost laws = { nat_list_eq_equiv };
}

impl PartialOrd for Name {
    ghost use Rattle.std.specs.Prelude.{Some};
    ghost use Rattle.std.specs.Ordering.{nat_cmp};
    ghost use Rattle.std.specs.Cmp.Lexicographic.{slice_cmp, texts_po};

    ghost partial_cmp = { λ x y. Some (slice_cmp nat_cmp x y) };

    ghost laws = { texts_po };

    fn partial_cmp(&self, other: &Name) -> Option<Ordering> {
        Some(self.cmp(other))
    }
}

/// Byte by byte.
impl Ord for Name {
    ghost use Rattle.std.specs.Prelude.{refl};
    ghost use Rattle.std.specs.Ordering.{nat_cmp};
    ghost use Rattle.std.specs.Cmp.Lexicographic.{slice_cmp, nat_list_cmp_total, texts_ties};

    ghost cmp = { slice_cmp nat_cmp };

    ghost total = { nat_list_cmp_total };

    ghost matches_partial_cmp = { λ _ _. refl };

    ghost matches_eq = { texts_ties };

    fn cmp(&self, other: &Name) -> Ordering {
        order(
            self.as_str(),
            self.text.front(),
            other.as_str(),
            other.text.front(),
        )
    }
}

/// Whether the two names are equal.
#[tactic(auto, using(crate::proofs::SetLaws::same_bytes))]
pub fn is_same(a: &Name, b: &Name) -> bool
    ensures same { result ≡ same_name a.now b.now }
    ensures equal { IsTrue result ↔ (a.now ≡ b.now) }
{
    a == b
}

// The order of two texts of names, byte by byte: that of the numbers of their first bytes, if these
// differ. If they don't, and their last byte is zero, both texts are shorter than eight bytes and equal.
#[inline(always)]
pub(crate) fn order(text: &str, front: u64, other: &str, other_front: u64) -> Ordering
    requires names { (is_name text.now ≡ true) × (is_name other.now ≡ true) }
    requires front { front ≡ first_bytes 8 text.now }
    requires other_front { other_front ≡ first_bytes 8 other.now }
    ensures { result ≡ slice_cmp nat_cmp text.now other.now }
{
    if front != other_front {
        return front.cmp(&other_front);
    }
    if front % 256 == 0 {
        return Ordering::Equal;
    }
    text.cmp(other)
}

// Whether the text is a valid name. It is UTF-8 already, as every `&str`.
pub(crate) fn is_name(text: &str) -> bool
    ensures { result ≡ is_name text.now }
{
    let bytes = text.as_bytes();
    if !has_name_length(bytes) {
        return false;
    }
    is_printable(bytes)
}

// Whether there is at least one byte, and no more than a name may have.
fn has_name_length(bytes: &[u8]) -> bool
    ensures { result ≡ has_name_length bytes.now }
{
    !bytes.is_empty() && bytes.len() <= LONGEST_NAME
}

// Whether no byte is an ASCII control character.
fn is_printable(bytes: &[u8]) -> bool
    ensures { result ≡ list_all is_printable bytes.now }
{
    bytes.iter().all(|byte| *byte >= 0x20 && *byte != 0x7f)
}
