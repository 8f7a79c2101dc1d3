//! Names whose text somebody else owns, for searches without allocation.
ghost use Rattle.std.specs.Prelude.{◌≡◌, ◌↔◌, IsTrue, true, false, IfOk, IfErr, nat_eq};
ghost use Rattle.std.specs.Cmp.Lexicographic.{pointwise, slice_cmp};
ghost use Rattle.std.specs.Ordering.{nat_cmp};
ghost use Rattle.rbac_sets.specs.Name.{first_bytes, is_name};
ghost use Rattle.rbac_sets.specs.Sets.{same_name};

use crate::name::{Name, is_name, order};
use crate::refusal::Refusal;
use crate::sorted_set::{Prefix, Probe};
use short_text::front_of;
use std::cmp::Ordering;
use std::marker::Model;

/// A name whose text is borrowed: it is as a `Name`, but has no memory of its own.
///
/// Names are searched for by it. In contracts its value is its bytes, as that of a `Name` is.
#[derive(Drop)]
pub struct BorrowedName<'a> {
    // The first eight bytes of the text as a number. Most names differ in them, and then no text is read.
    front: u64,
    text: &'a str,
}

impl<'a> Model for BorrowedName<'a> {
    ghost use Rattle.std.specs.Prelude.{◌≡◌, true, List, ℕ};
    ghost use Rattle.rbac_sets.specs.Name.{first_bytes, is_name};

    ghost Value = { List ℕ };

    ghost view = { λ name. name.text.now };

    ghost invariant = { λ name. (is_name name.text.now ≡ true) × (name.front ≡ first_bytes 8 name.text.now) };
}

impl<'a> BorrowedName<'a> {
    /// The name with this text, which may be any text. It doesn't allocate.
    ///
    /// # Errors
    ///
    /// `BadName` if the text is not a valid name: it is empty, longer than 64 bytes, or has a byte
    /// below 0x20 or a 0x7F.
    pub fn new(text: &'a str) -> Result<BorrowedName<'a>, Refusal>
        ensures ok { IfOk result (λ name. (name ≡ text.now) × (is_name text.now ≡ true)) }
        ensures err { IfErr result (λ refusal. (refusal ≡ Refusal.BadName) × (is_name text.now ≡ false)) }
    {
        if !is_name(text) {
            return Err(Refusal::BadName);
        }
        Ok(BorrowedName {
            front: front_of(text),
            text,
        })
    }

    // The name with this text and these first bytes.
    #[inline(always)]
    pub(crate) fn of_parts(front: u64, text: &'a str) -> BorrowedName<'a>
        requires name { is_name text.now ≡ true }
        requires front { front ≡ first_bytes 8 text.now }
        ensures { result ≡ text.now }
    {
        BorrowedName { front, text }
    }

    /// Whether the two names are equal.
    #[tactic(auto, using(crate::proofs::SetLaws::same_bytes))]
    pub fn is(&self, name: &Name) -> bool
        ensures same { result ≡ same_name name.now self.now }
        ensures equal { IsTrue result ↔ (name.now ≡ self.now) }
    {
        self.has_bytes_of(name)
    }

    // Whether the two names have the same bytes.
    #[inline(always)]
    fn has_bytes_of(&self, name: &Name) -> bool
        ensures { result ≡ pointwise nat_eq name.now self.now }
    {
        let other = name.as_borrowed();
        other.front == self.front && other.text == self.text
    }

    // How the other name compares with this one, byte by byte.
    #[inline(always)]
    fn order_of(&self, name: &Name) -> Ordering
        ensures { result ≡ slice_cmp nat_cmp name.now self.now }
    {
        let other = name.as_borrowed();
        order(other.text, other.front, self.text, self.front)
    }
}

impl Probe<Name> for &BorrowedName<'_> {
    ghost entry = { λ name. name.now };

    fn compare(&self, name: &Name) -> Ordering {
        self.order_of(name)
    }
}

impl Probe<(Name, Name)> for (&BorrowedName<'_>, &BorrowedName<'_>) {
    ghost entry = { λ probe. (probe.0.now, probe.1.now) };

    fn compare(&self, pair: &(Name, Name)) -> Ordering {
        self.0.order_of(&pair.0).then(self.1.order_of(&pair.1))
    }
}

impl Prefix<(Name, Name)> for &BorrowedName<'_> {
    ghost use Rattle.rbac_sets.specs.Sets.{name_cmp};
    ghost use Rattle.rbac_sets.specs.NameOrder.{firsts_rise};

    ghost place = { λ first pair. name_cmp pair.0 first.now };

    fn compare(&self, pair: &(Name, Name)) -> Ordering {
        self.order_of(&pair.0)
    }

    ghost rises = { λ first x y below. firsts_rise x y first.now below };
}

impl Prefix<(Name, Name, Name)> for (&BorrowedName<'_>, &BorrowedName<'_>) {
    ghost use Rattle.rbac_sets.specs.Sets.{pair_cmp};
    ghost use Rattle.rbac_sets.specs.NameOrder.{first_pairs_rise};

    ghost place = { λ parts triple. pair_cmp (triple.0, triple.1) (parts.0.now, parts.1.now) };

    fn compare(&self, triple: &(Name, Name, Name)) -> Ordering {
        self.0.order_of(&triple.0).then(self.1.order_of(&triple.1))
    }

    ghost rises = { λ parts x y below. first_pairs_rise x y (parts.0.now, parts.1.now) below };
}
