//! Sets that are also kept the other way round, so that entries are found by their last name too.
ghost use Rattle.std.specs.Prelude.{◌≡◌, ◌+◌, ◌/◌, ◌≤◌, vec_len, false, OnOk, IfOk, IfErr};
ghost use Rattle.std.specs.List.Sorted.{IsStrictlySortedBy};
ghost use Rattle.rbac_sets.specs.Sets.{empty, contains, insert, remove, image, from_list};
ghost use Rattle.rbac_sets.specs.SortedSet.{set_of};

use crate::chunked_set::ChunkedSet;
use crate::sorting::sorted_once;
use rbac_sets::{Entry, Name, Probe, Refusal};
use short_text::Spare;
use std::alloc::Global;
use std::marker::Model;

/// The greatest number of names that an entry has.
const MOST_NAMES: usize = 3;

/// A set of pairs of names, such as the assignments (user, role), and of the pairs (role, user).
pub type TwoWayPairs = TwoWaySet<(Name, Name)>;

/// A set of triples of names, such as the grants (object, operation, role), and of the triples
/// (role, object, operation).
pub type TwoWayGrants = TwoWaySet<(Name, Name, Name)>;

/// An entry that can be turned, so that its last name comes first.
pub trait Turn: Entry {
    /// What a turned entry is.
    type Turned: Entry;

    // The turned entry.
    ghost turned: { Self → Self.Turned };

    /// A copy of the entry, turned. Its names are in memory of `spares`, of which it takes at most three.
    ///
    /// It doesn't allocate and can't fail.
    fn turn(&self, spares: &mut Vec<Spare>) -> Self::Turned
        requires { 3 ≤ vec_len spares.old }
        ensures turned { result ≡ turned self.now }
        ensures spares { vec_len spares.old ≤ vec_len spares.new + 3 };

    // Turned entries are equal only if the entries are.
    ghost apart: { (x y : Self) → turned x ≡ turned y → x ≡ y };
}

/// To the second name and the first one.
impl Turn for (Name, Name) {
    type Turned = (Name, Name);

    ghost turned = { λ pair. (pair.1, pair.0) };

    fn turn(&self, spares: &mut Vec<Spare>) -> (Name, Name) {
        let first = copy_name(&self.1, spares);
        (first, copy_name(&self.0, spares))
    }

    ghost apart = { λ x y same i. ((same i).1, (same i).0) };
}

/// To the third name, the first one and the second one.
impl Turn for (Name, Name, Name) {
    type Turned = (Name, Name, Name);

    ghost turned = { λ triple. (triple.2, triple.0, triple.1) };

    fn turn(&self, spares: &mut Vec<Spare>) -> (Name, Name, Name) {
        let first = copy_name(&self.2, spares);
        let second = copy_name(&self.0, spares);
        (first, second, copy_name(&self.1, spares))
    }

    ghost apart = { λ x y same i. ((same i).1, (same i).2, (same i).0) };
}

// A copy of the name, with memory of `spares`.
fn copy_name(name: &Name, spares: &mut Vec<Spare>) -> Name
    requires { 1 ≤ vec_len spares.old }
    ensures copy { result ≡ name.now }
    ensures spares { vec_len spares.old ≤ vec_len spares.new + 1 }
{
    name.copy_into(spares.pop().unwrap())
}

// Allocates memory for names until that of `count` entries can be copied into it.
fn add_spares(spares: &mut Vec<Spare>, count: usize) -> Result<(), Refusal>
    ensures ok { OnOk result (count ≤ vec_len spares.new / 3) }
    ensures len { vec_len spares.old ≤ vec_len spares.new }
    ensures cause { IfErr result (λ refusal. refusal ≡ Refusal.Memory) }
{
    let alloc = *spares.allocator();
    while spares.len() / MOST_NAMES < count {
        spares.push(Spare::new(alloc)?)?;
    }
    Ok(())
}

// The entries turned, in their order.
fn turned_entries<K: Turn>(
    alloc: Global,
    entries: &ChunkedSet<K>,
) -> Result<Vec<K::Turned>, Refusal>
    ensures sorted { IfOk result (λ turned. IsStrictlySortedBy K.Turned.cmp turned.items) }
    ensures image { IfOk result (λ turned. from_list {R = K.Turned.cmp} turned.items ≡ image K.turned (set_of K.cmp entries.now)) }
    ensures cause { IfErr result (λ refusal. refusal ≡ Refusal.Memory) }
{
    let mut turned = Vec::new(alloc);
    let mut spares = Vec::new(alloc);
    turned.reserve(entries.len())?;
    for entry in entries.iter() {
        add_spares(&mut spares, 1)?;
        turned.push(entry.turn(&mut spares))?;
    }
    sorted_once(turned)
}

/// A set of entries that also has each of them turned.
///
/// Only `reserve` and `of_forward` allocate: once room is reserved, entries are inserted without allocation, and
/// so without a refusal. In contracts the value is the entries in their order and the room for more, as that of a
/// `ChunkedSet`; what is kept the other way round is the image of the set.
#[derive(Drop)]
pub struct TwoWaySet<K: Turn> {
    forward: ChunkedSet<K>,
    backward: ChunkedSet<K::Turned>,
    // Memory for the names of turned entries.
    spares: Vec<Spare>,
}

impl<K: Turn> Model for TwoWaySet<K> {
    ghost use Rattle.std.specs.Prelude.{◌≡◌, ◌/◌, vec_len, min};
    ghost use Rattle.rbac_sets.specs.Sets.{image};
    ghost use Rattle.rbac_sets.specs.SortedSet.{Stored, stored_code, set_of};

    ghost Value = { Stored K };

    ghost coded = { stored_code K.code };

    ghost view = { λ s. record { in_order = s.forward.in_order; room = min s.forward.room (min s.backward.room (vec_len s.spares / 3)) } };

    ghost invariant = { λ s. set_of K.Turned.cmp s.backward ≡ image K.turned (set_of K.cmp s.forward) };
}

impl<K: Turn> TwoWaySet<K> {
    /// The set without entries. It doesn't allocate yet.
    pub fn new(alloc: Global) -> TwoWaySet<K>
        ensures { set_of K.cmp result ≡ empty }
    {
        TwoWaySet {
            forward: ChunkedSet::new(alloc),
            backward: ChunkedSet::new(alloc),
            spares: Vec::new(alloc),
        }
    }

    /// The set of these entries. The turned ones are sorted once.
    ///
    /// # Errors
    ///
    /// `Memory` if allocation failed.
    pub fn of_forward(alloc: Global, forward: ChunkedSet<K>) -> Result<TwoWaySet<K>, Refusal>
        ensures ok { IfOk result (λ set. set_of K.cmp set ≡ set_of K.cmp forward) }
        ensures cause { IfErr result (λ refusal. refusal ≡ Refusal.Memory) }
    {
        let turned = turned_entries(alloc, &forward)?;
        let backward = ChunkedSet::of_sorted(alloc, turned)?;
        Ok(TwoWaySet {
            forward,
            backward,
            spares: Vec::new(alloc),
        })
    }

    /// Reserves room for at least `count` more entries.
    ///
    /// # Errors
    ///
    /// `Memory` if allocation failed. The entries are kept in any case.
    pub fn reserve(&mut self, count: usize) -> Result<(), Refusal>
        ensures ok { OnOk result (count ≤ self.new.room) }
        ensures keeps { set_of K.cmp self.new ≡ set_of K.cmp self.old }
        ensures room { self.old.room ≤ self.new.room }
        ensures cause { IfErr result (λ refusal. refusal ≡ Refusal.Memory) }
    {
        self.forward.reserve(count)?;
        self.backward.reserve(count)?;
        add_spares(&mut self.spares, count)
    }

    /// Inserts an entry that is not there, into reserved room.
    ///
    /// It doesn't allocate and can't fail.
    pub fn insert_reserved(&mut self, entry: K)
        requires absent { contains (set_of K.cmp self.old) entry ≡ false }
        requires room { 1 ≤ self.old.room }
        ensures inserted { set_of K.cmp self.new ≡ insert (set_of K.cmp self.old) entry }
        ensures room { self.old.room ≤ self.new.room + 1 }
    {
        let turned = entry.turn(&mut self.spares);
        self.backward.insert_reserved(turned);
        self.forward.insert_reserved(entry);
    }

    /// Removes the entry that `probe` looks for, and returns whether it was there. `turned_probe` looks for the
    /// same entry, turned.
    ///
    /// It doesn't allocate.
    pub fn remove<P: Probe<K>, Q: Probe<K::Turned>>(&mut self, probe: P, turned_probe: Q) -> bool
        requires { Q.entry turned_probe ≡ K.turned (P.entry probe) }
        ensures was_there { result ≡ contains (set_of K.cmp self.old) (P.entry probe) }
        ensures removed { set_of K.cmp self.new ≡ remove (set_of K.cmp self.old) (P.entry probe) }
        ensures room { self.old.room ≤ self.new.room }
    {
        self.backward.remove(turned_probe);
        self.forward.remove(probe)
    }

    /// The set of the entries as they are.
    pub fn forward(&self) -> &ChunkedSet<K>
        ensures { set_of K.cmp result.now ≡ set_of K.cmp self.now }
    {
        &self.forward
    }

    /// The set of the turned entries.
    pub fn backward(&self) -> &ChunkedSet<K::Turned>
        ensures { set_of K.Turned.cmp result.now ≡ image K.turned (set_of K.cmp self.now) }
    {
        &self.backward
    }

    /// Gives back the memory that is reserved, so that there is no room for more.
    pub fn release(&mut self)
        ensures keeps { set_of K.cmp self.new ≡ set_of K.cmp self.old }
        ensures room { self.new.room ≡ 0 }
    {
        self.forward.release();
        self.backward.release();
        let alloc = *self.spares.allocator();
        self.spares = Vec::new(alloc);
    }
}
