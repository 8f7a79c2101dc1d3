//! The edges of an order by the numbers of their names, with their closure as rows of bits.
ghost use Rattle.std.specs.Prelude.{◌≡◌, ◌≢◌, ◌↔◌, ◌⊎◌, ◌+◌, ◌≤◌, ℕ, IsTrue, IfSome, IfNone, IfOk, IfErr, OnOk, map};
ghost use Rattle.rbac_sets.specs.Sets.{Bytes, name_cmp, pair_cmp, cardinality_cmp, contains};
ghost use Rattle.rbac_sets.specs.SortedSet.{set_of};
ghost use Rattle.role_order.specs.Order.{HasPair, IsAcyclic, Leads};
ghost use Rattle.role_order.specs.private.Numbered.{AreEdgesOf, HasNumber, HasNamedEdge, number_of};

use crate::building::push;
use rbac_sets::{CountSet, Name, NameSet, PairSet, Refusal, is_same};
use reach_bits::{MOST, Reach};
use std::alloc::Global;
use std::marker::Model;

// The edges by numbers, with what they lead to. A name keeps its number until the numbers are given anew, also if it has no edge any more.
#[derive(Drop)]
pub struct Numbered {
    numbers: CountSet,
    reach: Reach,
    alloc: Global,
}

impl Model for Numbered {
    ghost use Rattle.std.specs.Prelude.{◌≤◌, ◌-◌, length, min};
    ghost use Rattle.rbac_sets.specs.Sets.{cardinality_cmp, len};
    ghost use Rattle.rbac_sets.specs.SortedSet.{set_of};
    ghost use Rattle.role_order.specs.NumberedEdges.{NumberedEdges, coded_edges};
    ghost use Rattle.role_order.specs.private.Numbered.{AreNumbered, IsNumbering};

    ghost Value = { NumberedEdges };

    ghost coded = { coded_edges };

    ghost view = { λ n. record {
      numbers = set_of cardinality_cmp n.numbers;
      graph = n.reach;
      room = min n.numbers.room (length n.reach - len (set_of cardinality_cmp n.numbers));
    } };

    ghost invariant = { λ n. IsNumbering (set_of cardinality_cmp n.numbers) × AreNumbered (set_of cardinality_cmp n.numbers) n.reach
        × (len (set_of cardinality_cmp n.numbers) ≤ length n.reach) × (length n.reach ≤ 8192) };
}

// The number of the name, if it has one.
fn number(numbers: &CountSet, name: &Name) -> Option<usize>
    ensures some { IfSome result (λ n. HasNumber (set_of cardinality_cmp numbers.now) name.now n) }
    ensures none { IfNone result ((n : ℕ) → HasNumber (set_of cardinality_cmp numbers.now) name.now n → ⊥) }
    ensures value { result ≡ number_of (set_of cardinality_cmp numbers.now) name.now }
{
    match numbers.with_first(name).first() {
        Some(entry) => Some(entry.1 as usize),
        None => None,
    }
}

impl Numbered {
    // No edges. It doesn't allocate yet.
    pub fn new(alloc: Global) -> Numbered
        ensures { (a b : Bytes) → HasNamedEdge result a b → ⊥ }
    {
        Numbered {
            numbers: CountSet::new(alloc),
            reach: Reach::new(alloc),
            alloc,
        }
    }

    // Whether edges lead from `a` to `b`, which is another name.
    pub fn leads(&self, a: &Name, b: &Name) -> bool
        ensures { IsTrue result ↔ ((a.now ≢ b.now) × Leads (HasNamedEdge self.now) a.now b.now) }
    {
        let Some(from) = number(&self.numbers, a) else {
            return false;
        };
        let Some(to) = number(&self.numbers, b) else {
            return false;
        };
        self.reach.leads(from, to)
    }

    // Whether `a` is `b`, or edges lead from `a` to `b`.
    pub fn geq(&self, a: &Name, b: &Name) -> bool
        ensures { IsTrue result ↔ Leads (HasNamedEdge self.now) a.now b.now }
    {
        is_same(a, b) || self.leads(a, b)
    }

    // The number of the name, if it has one.
    pub fn number(&self, name: &Name) -> Option<usize>
        ensures { result ≡ number_of self.now.numbers name.now }
    {
        number(&self.numbers, name)
    }

    // The numbers of the names, of those that have one.
    pub fn numbers_of(&self, alloc: Global, names: &[Name]) -> Result<Vec<Option<usize>>, Refusal>
        ensures numbers { IfOk result (λ numbers. numbers.items ≡ map (number_of self.now.numbers) names.now) }
        ensures cause { IfErr result (λ refusal. refusal ≡ Refusal.Memory) }
    {
        let mut numbers = Vec::new(alloc);
        numbers.reserve(names.len())?;
        for name in names {
            numbers.push(self.number(name))?;
        }
        Ok(numbers)
    }

    // Whether `a` is `b`, or edges lead from `a` to `b`, if `from` and `to` are their numbers, or `None` for a name without a number.
    pub fn is_geq(&self, a: &Name, from: Option<usize>, b: &Name, to: Option<usize>) -> bool
        requires from { from ≡ number_of self.now.numbers a.now }
        requires to { to ≡ number_of self.now.numbers b.now }
        ensures { IsTrue result ↔ Leads (HasNamedEdge self.now) a.now b.now }
    {
        let Some(from) = from else {
            return is_same(a, b);
        };
        let Some(to) = to else {
            return false;
        };
        from == to || self.reach.leads(from, to)
    }

    // The names from which edges lead to `r`, without `r` itself.
    pub fn seniors(&self, alloc: Global, r: &Name) -> Result<NameSet, Refusal>
        ensures names { IfOk result (λ names. (p : Bytes) → IsTrue (contains (set_of name_cmp names) p) ↔ ((p ≢ r.now) × Leads (HasNamedEdge self.now) p r.now)) }
        ensures cause { IfErr result (λ refusal. refusal ≡ Refusal.Memory) }
    {
        let mut names = NameSet::new(alloc);
        let Some(to) = number(&self.numbers, r) else {
            return Ok(names);
        };
        for (name, from) in self.numbers.as_slice() {
            if self.reach.leads(*from as usize, to) {
                push(&mut names, name.copy(alloc)?)?;
            }
        }
        Ok(names)
    }

    // The names to which edges lead from `r`, without `r` itself.
    pub fn juniors(&self, alloc: Global, r: &Name) -> Result<NameSet, Refusal>
        ensures names { IfOk result (λ names. (q : Bytes) → IsTrue (contains (set_of name_cmp names) q) ↔ ((r.now ≢ q) × Leads (HasNamedEdge self.now) r.now q)) }
        ensures cause { IfErr result (λ refusal. refusal ≡ Refusal.Memory) }
    {
        let mut names = NameSet::new(alloc);
        let Some(from) = number(&self.numbers, r) else {
            return Ok(names);
        };
        for (name, to) in self.numbers.as_slice() {
            if self.reach.leads(from, *to as usize) {
                push(&mut names, name.copy(alloc)?)?;
            }
        }
        Ok(names)
    }

    // A copy, in memory of its own.
    pub fn copy(&self, alloc: Global) -> Result<Numbered, Refusal>
        ensures edges { IfOk result (λ copy. (a b : Bytes) → HasNamedEdge copy a b ↔ HasNamedEdge self.now a b) }
        ensures cause { IfErr result (λ refusal. refusal ≡ Refusal.Memory) }
    {
        Ok(Numbered {
            numbers: self.numbers.copy(alloc)?,
            reach: self.reach.copy(alloc)?,
            alloc,
        })
    }

    // How many more names can be numbered without allocation.
    pub fn room(&self) -> usize
        ensures { result ≡ self.now.room }
    {
        self.numbers
            .room()
            .min(self.reach.room() - self.numbers.len())
    }

    // Makes room for this many more names, or for fewer if there are not as many numbers left. There are `MOST` numbers at most.
    fn reserve(&mut self, more: usize) -> Result<(), Refusal>
        requires { 2 ≤ more }
        ensures ok { OnOk result (2 ≤ self.new.room) }
        ensures same { (a b : Bytes) → HasNamedEdge self.new a b ↔ HasNamedEdge self.old a b }
        ensures cause { IfErr result (λ refusal. refusal ≡ Refusal.Memory) }
    {
        let count = self.numbers.len();
        if count > MOST - 2 {
            return Err(Refusal::Memory);
        }
        let more = more.min(MOST - count);
        self.numbers.reserve(more)?;
        self.reach.grow(count + more)?;
        Ok(())
    }

    // The number of the name, which gets the next one if it has none.
    fn give_number(&mut self, name: Name) -> usize
        requires { 1 ≤ self.old.room }
        ensures number { HasNumber self.new.numbers name result }
        ensures same { (a b : Bytes) → HasNamedEdge self.new a b ↔ HasNamedEdge self.old a b }
        ensures others { (a : Bytes) (n : ℕ) → HasNumber self.old.numbers a n → HasNumber self.new.numbers a n }
        ensures room { self.old.room ≤ self.new.room + 1 }
    {
        if let Some(number) = number(&self.numbers, &name) {
            return number;
        }
        let number = self.numbers.len();
        self.numbers.insert_reserved((name, number as u32));
        number
    }

    // Adds the edge from `asc` to another name `desc`, which doesn't lead to it.
    pub fn add(&mut self, asc: Name, desc: Name)
        requires room { 2 ≤ self.old.room }
        requires apart { asc ≢ desc }
        requires acyclic { Leads (HasNamedEdge self.old) desc asc → ⊥ }
        ensures { (a b : Bytes) → HasNamedEdge self.new a b ↔ (HasNamedEdge self.old a b ⊎ ((a ≡ asc) × (b ≡ desc))) }
    {
        let from = self.give_number(asc);
        let to = self.give_number(desc);
        self.reach.add(from, to);
    }

    // Removes the edge from `asc` to `desc`, if there is one.
    pub fn remove(&mut self, asc: &Name, desc: &Name)
        ensures edges { (a b : Bytes) → HasNamedEdge self.new a b ↔ (HasNamedEdge self.old a b × ((a ≡ asc.now) × (b ≡ desc.now) → ⊥)) }
        ensures room { self.old.room ≤ self.new.room }
    {
        if let Some(from) = number(&self.numbers, asc)
            && let Some(to) = number(&self.numbers, desc)
        {
            self.reach.remove(from, to);
        }
    }

    // These edges, or `None` if they have a cycle. Whether an edge leads back is known before it is added.
    pub fn of_edges(alloc: Global, edges: &PairSet) -> Result<Option<Numbered>, Refusal>
        ensures some { IfOk result (λ numbered. IfSome numbered (λ n. AreEdgesOf n (set_of pair_cmp edges.now) × IsAcyclic (set_of pair_cmp edges.now))) }
        ensures none { IfOk result (λ numbered. IfNone numbered (IsAcyclic (set_of pair_cmp edges.now) → ⊥)) }
        ensures cause { IfErr result (λ refusal. refusal ≡ Refusal.Memory) }
    {
        let mut numbered = Numbered::new(alloc);
        for (asc, desc) in edges.as_slice() {
            if numbered.geq(desc, asc) {
                return Ok(None);
            }
            numbered.reserve(2)?;
            numbered.add(asc.copy(alloc)?, desc.copy(alloc)?);
        }
        Ok(Some(numbered))
    }

    // Whether edges lead from the first name of each pair to the second, which is another name.
    fn leads_all(&self, pairs: &PairSet) -> bool
        ensures { IsTrue result ↔ ((a b : Bytes) → HasPair (set_of pair_cmp pairs.now) a b → (a ≢ b) × Leads (HasNamedEdge self.now) a b) }
    {
        for (a, b) in pairs.as_slice() {
            if !self.leads(a, b) {
                return false;
            }
        }
        true
    }

    // Whether the pair of `a` and `b`, whose numbers are `from` and `to`, is there if edges lead from `a` to `b`.
    fn has_pair(&self, pairs: &PairSet, a: &Name, from: usize, b: &Name, to: usize) -> bool
        requires from { HasNumber self.now.numbers a.now from }
        requires to { HasNumber self.now.numbers b.now to }
        ensures { IsTrue result ↔ ((a.now ≢ b.now) × Leads (HasNamedEdge self.now) a.now b.now → HasPair (set_of pair_cmp pairs.now) a.now b.now) }
    {
        if !self.reach.leads(from, to) {
            return true;
        }
        pairs.contains((a, b))
    }

    // Whether `a`, whose number is `from`, has a pair with each other name to which edges lead from it.
    fn has_row(&self, pairs: &PairSet, a: &Name, from: usize) -> bool
        requires { HasNumber self.now.numbers a.now from }
        ensures { IsTrue result ↔ ((b : Bytes) → (a.now ≢ b) × Leads (HasNamedEdge self.now) a.now b → HasPair (set_of pair_cmp pairs.now) a.now b) }
    {
        for (b, to) in self.numbers.as_slice() {
            if !self.has_pair(pairs, a, from, b, *to as usize) {
                return false;
            }
        }
        true
    }

    // Whether each name has a pair with each other name to which edges lead from it.
    fn has_rows(&self, pairs: &PairSet) -> bool
        ensures { IsTrue result ↔ ((a b : Bytes) → (a ≢ b) × Leads (HasNamedEdge self.now) a b → HasPair (set_of pair_cmp pairs.now) a b) }
    {
        for (a, from) in self.numbers.as_slice() {
            if !self.has_row(pairs, a, *from as usize) {
                return false;
            }
        }
        true
    }

    // Whether the pairs are those of two names of which edges lead from the first to the second.
    pub fn has_closure(&self, pairs: &PairSet) -> bool
        ensures { IsTrue result ↔ ((a b : Bytes) → HasPair (set_of pair_cmp pairs.now) a b ↔ ((a ≢ b) × Leads (HasNamedEdge self.now) a b)) }
    {
        if !self.leads_all(pairs) {
            return false;
        }
        self.has_rows(pairs)
    }

    // Makes room for one more edge beside these. If there is none, the names get new numbers, only those of edges, and there is room for as many more
    // names, so that this is seldom done.
    pub fn make_room(&mut self, edges: &PairSet) -> Result<(), Refusal>
        requires acyclic { IsAcyclic (set_of pair_cmp edges.now) }
        requires edges { AreEdgesOf self.old (set_of pair_cmp edges.now) }
        ensures ok { OnOk result (2 ≤ self.new.room) }
        ensures edges { AreEdgesOf self.new (set_of pair_cmp edges.now) }
        ensures cause { IfErr result (λ refusal. refusal ≡ Refusal.Memory) }
    {
        if self.room() >= 2 {
            return Ok(());
        }
        let mut renewed = Numbered::of_edges(self.alloc, edges)?.unwrap();
        let count = renewed.numbers.len();
        renewed.reserve(count.max(2))?;
        *self = renewed;
        Ok(())
    }
}
