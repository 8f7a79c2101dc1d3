//! The hierarchy of roles: edges without a cycle, with the closure beside them, as pairs and as bits.
ghost use Rattle.std.specs.Prelude.{◌≡◌, ◌≢◌, ◌*◌, ◌≤◌, ◌↔◌, ◌⊎◌, IsTrue, true, false, Contains, IfOk, IfErr, OnOk, OnErr};
ghost use Rattle.std.specs.List.{IsDistinct};
ghost use Rattle.rbac_sets.specs.Sets.{Bytes, name_cmp, pair_cmp, empty, contains, insert, len, same_name};
ghost use Rattle.rbac_sets.specs.SortedSet.{set_of};
ghost use Rattle.role_order.specs.Order.{HasPair, Geq, geq, IsAcyclic, IsClosure, seniors, juniors};
ghost use Rattle.role_order.specs.Planned.{changed, Fits, IsOrderPlanOf, OrderHasRoom};

use crate::building::missing_pairs;
use crate::numbered::Numbered;
use crate::places::OrderOfNames;
use crate::plan::OrderPlan;
use chunked_sets::ChunkedPairs;
use rbac_sets::{Name, NameSet, PairSet, Refusal};
use std::alloc::Global;
use std::marker::Model;

/// The hierarchy of roles, the relation RH of the standard's general role hierarchies: a set of edges
/// (ascendant, descendant), its immediate inheritances, without a cycle, with its closure, all pairs
/// of two different roles of which the first is senior to the second.
///
/// A role r is senior to q, and q is junior to r, if edges lead from r to q; `r >= q` holds if r is q
/// or senior to it. The roles of edges have numbers, and rows of bits say to which numbers the edges
/// lead, so that `geq` searches for the numbers of two names and reads one bit. The pairs of the closure
/// are kept beside the bits, in chunks. A change of an edge takes three calls: a plan (`plan_add`,
/// `plan_remove`), room for it (`make_room`), and `commit`, which can't fail.
///
/// A plan reads bits too: one for each number to find the seniors or juniors of a role, and one for each
/// pair that it judges. To remove an edge, it does so in a copy of the bits, in which it makes the rows of
/// the ascendant and its seniors anew. `commit` moves the pairs of the chunks that the plan's pairs belong
/// to, and then gives back the room for pairs that is left.
///
/// In contracts the value is the set of the edges, and how many more edges and pairs can be added without
/// allocation.
#[derive(Drop)]
pub struct RoleOrder {
    edges: PairSet,
    // The closure, as pairs and as bits.
    pairs: ChunkedPairs,
    numbered: Numbered,
}

impl Model for RoleOrder {
    ghost use Rattle.std.specs.Prelude.{◌/◌, ◌↔◌, min};
    ghost use Rattle.rbac_sets.specs.Sets.{Bytes, pair_cmp};
    ghost use Rattle.rbac_sets.specs.SortedSet.{set_of};
    ghost use Rattle.role_order.specs.Order.{HasPair, IsAcyclic, IsClosure};
    ghost use Rattle.role_order.specs.Planned.{Order, coded_order};
    ghost use Rattle.role_order.specs.private.Numbered.{AreEdgesOf};

    ghost Value = { Order };

    ghost coded = { coded_order };

    ghost view = { λ o. record { edges = set_of pair_cmp o.edges; edge_room = min o.edges.room (o.numbered.room / 2); pair_room = o.pairs.room } };

    ghost invariant = { λ o. IsAcyclic (set_of pair_cmp o.edges) × IsClosure (set_of pair_cmp o.edges) (set_of pair_cmp o.pairs)
        × AreEdgesOf o.numbered (set_of pair_cmp o.edges) };
}

impl RoleOrder {
    /// The order without edges. It doesn't allocate yet.
    pub fn new(alloc: Global) -> RoleOrder
        ensures { result.edges ≡ empty }
    {
        RoleOrder {
            edges: PairSet::new(alloc),
            pairs: ChunkedPairs::new(alloc),
            numbered: Numbered::new(alloc),
        }
    }

    /// The edges (ascendant, descendant). They have no cycle: no edge leads from a role to itself, and
    /// no two roles are senior to each other.
    ///
    /// It doesn't allocate.
    pub fn edges(&self) -> &PairSet
        ensures edges { set_of pair_cmp result.now ≡ self.now.edges }
        ensures acyclic { IsAcyclic self.now.edges }
    {
        &self.edges
    }

    /// The closure: the pairs (r, q) with `r >= q` and r not q.
    ///
    /// It doesn't allocate.
    pub fn pairs(&self) -> &ChunkedPairs
        ensures { IsClosure self.now.edges (set_of pair_cmp result.now) }
    {
        &self.pairs
    }

    /// Whether `asc` is an immediate ascendant of `desc`.
    ///
    /// It doesn't allocate.
    pub fn has_edge(&self, asc: &Name, desc: &Name) -> bool
        ensures { result ≡ contains self.now.edges (asc.now, desc.now) }
    {
        self.edges.contains((asc, desc))
    }

    /// Whether `a >= b`: `a` is `b`, or edges lead from `a` to `b`, so that `a` inherits from `b`.
    ///
    /// This is the order of the standard's role hierarchy. The names may be any names, including names
    /// that no edge has. It doesn't allocate.
    pub fn geq(&self, a: &Name, b: &Name) -> bool
        ensures reaches { IsTrue result ↔ Geq self.now.edges a.now b.now }
        ensures test { result ≡ geq self.now.edges a.now b.now }
    {
        self.numbered.geq(a, b)
    }

    /// The order of these names by their places in the list. The names may be any names.
    ///
    /// # Errors
    ///
    /// `Memory` if allocation failed.
    pub fn of_names<'a>(
        &'a self,
        alloc: Global,
        names: &'a [Name],
    ) -> Result<OrderOfNames<'a>, Refusal>
        ensures edges { IfOk result (λ order. order.edges ≡ self.now.edges) }
        ensures names { IfOk result (λ order. order.names ≡ names.now) }
        ensures cause { IfErr result (λ refusal. refusal ≡ Refusal.Memory) }
    {
        let order = OrderOfNames::new(alloc, &self.edges, &self.numbered, names)?;
        Ok(order)
    }

    /// The juniors of `r`: the roles to which edges lead from it, without `r` itself.
    ///
    /// # Errors
    ///
    /// `Memory` if allocation failed.
    pub fn juniors(&self, alloc: Global, r: &Name) -> Result<NameSet, Refusal>
        ensures ok { IfOk result (λ names. set_of name_cmp names ≡ juniors self.now.edges r.now) }
        ensures members { IfOk result (λ names. (q : Bytes) → IsTrue (contains (set_of name_cmp names) q) ↔ ((r.now ≢ q) × Geq self.now.edges r.now q)) }
        ensures cause { IfErr result (λ refusal. refusal ≡ Refusal.Memory) }
    {
        let names = self.numbered.juniors(alloc, r)?;
        Ok(names)
    }

    /// The seniors of `r`: the roles from which edges lead to it, without `r` itself.
    ///
    /// # Errors
    ///
    /// `Memory` if allocation failed.
    pub fn seniors(&self, alloc: Global, r: &Name) -> Result<NameSet, Refusal>
        ensures ok { IfOk result (λ names. set_of name_cmp names ≡ seniors self.now.edges r.now) }
        ensures members { IfOk result (λ names. (p : Bytes) → IsTrue (contains (set_of name_cmp names) p) ↔ ((p ≢ r.now) × Geq self.now.edges p r.now)) }
        ensures cause { IfErr result (λ refusal. refusal ≡ Refusal.Memory) }
    {
        let names = self.numbered.seniors(alloc, r)?;
        Ok(names)
    }

    // `r` and its seniors.
    fn at_or_above(&self, alloc: Global, r: &Name) -> Result<NameSet, Refusal>
        ensures members { IfOk result (λ names. (p : Bytes) → IsTrue (contains (set_of name_cmp names) p) ↔ Geq self.now.edges p r.now) }
        ensures ok { IfOk result (λ names. set_of name_cmp names ≡ insert (seniors self.now.edges r.now) r.now) }
        ensures cause { IfErr result (λ refusal. refusal ≡ Refusal.Memory) }
    {
        let mut names = self.seniors(alloc, r)?;
        names.reserve(1)?;
        names.insert_reserved(r.copy(alloc)?);
        Ok(names)
    }

    // `r` and its juniors.
    fn at_or_below(&self, alloc: Global, r: &Name) -> Result<NameSet, Refusal>
        ensures members { IfOk result (λ names. (q : Bytes) → IsTrue (contains (set_of name_cmp names) q) ↔ Geq self.now.edges r.now q) }
        ensures ok { IfOk result (λ names. set_of name_cmp names ≡ insert (juniors self.now.edges r.now) r.now) }
        ensures cause { IfErr result (λ refusal. refusal ≡ Refusal.Memory) }
    {
        let mut names = self.juniors(alloc, r)?;
        names.reserve(1)?;
        names.insert_reserved(r.copy(alloc)?);
        Ok(names)
    }

    /// The plan to add the edge from `asc` to `desc`, which need not be roles of other edges: what
    /// AddInheritance of the standard changes in the hierarchy.
    ///
    /// Its `puts` are the pairs of `asc` or a senior of it and `desc` or a junior of it that the order
    /// doesn't have yet, and its `takes` are empty.
    ///
    /// # Errors
    ///
    /// `EdgeExists` if the edge is there. `Cycle` if it isn't, and `desc` is `asc` or senior to it.
    /// `Memory` if allocation failed. The order is not changed in any case.
    pub fn plan_add(&self, alloc: Global, asc: &Name, desc: &Name) -> Result<OrderPlan, Refusal>
        ensures exists { (result ≡ Err Refusal.EdgeExists) ↔ HasPair self.now.edges asc.now desc.now }
        ensures cycle { (result ≡ Err Refusal.Cycle) ↔ ((HasPair self.now.edges asc.now desc.now → ⊥) × Geq self.now.edges desc.now asc.now) }
        ensures only { OnErr result ((result ≡ Err Refusal.EdgeExists) ⊎ ((result ≡ Err Refusal.Cycle) ⊎ (result ≡ Err Refusal.Memory))) }
        ensures planned { IfOk result (IsOrderPlanOf self.now.edges true asc.now desc.now) }
    {
        if self.has_edge(asc, desc) {
            return Err(Refusal::EdgeExists);
        }
        if self.geq(desc, asc) {
            return Err(Refusal::Cycle);
        }
        let above = self.at_or_above(alloc, asc)?;
        let below = self.at_or_below(alloc, desc)?;
        let puts = missing_pairs(alloc, &self.numbered, &above, &below)?;
        let judged = count_judged(&above, &below)?;
        let takes = PairSet::new(alloc);
        let plan = OrderPlan::new(alloc, true, asc, desc, puts, takes, judged)?;
        Ok(plan)
    }

    /// The plan to remove the edge from `asc` to `desc`: what DeleteInheritance of the standard changes
    /// in the hierarchy.
    ///
    /// Its `takes` are the pairs of `asc` or a senior of it and `desc` or a junior of it between which
    /// no other edges lead, and its `puts` are empty.
    ///
    /// # Errors
    ///
    /// `NoEdge` if the edge isn't there. `Memory` if allocation failed. The order is not changed in any
    /// case.
    pub fn plan_remove(&self, alloc: Global, asc: &Name, desc: &Name) -> Result<OrderPlan, Refusal>
        ensures absent { (result ≡ Err Refusal.NoEdge) ↔ (HasPair self.now.edges asc.now desc.now → ⊥) }
        ensures only { OnErr result ((result ≡ Err Refusal.NoEdge) ⊎ (result ≡ Err Refusal.Memory)) }
        ensures planned { IfOk result (IsOrderPlanOf self.now.edges false asc.now desc.now) }
    {
        if !self.has_edge(asc, desc) {
            return Err(Refusal::NoEdge);
        }
        let above = self.at_or_above(alloc, asc)?;
        let below = self.at_or_below(alloc, desc)?;
        let mut left = self.numbered.copy(alloc)?;
        left.remove(asc, desc);
        let takes = missing_pairs(alloc, &left, &above, &below)?;
        let judged = count_judged(&above, &below)?;
        let puts = PairSet::new(alloc);
        let plan = OrderPlan::new(alloc, false, asc, desc, puts, takes, judged)?;
        Ok(plan)
    }

    /// Reserves room for what a plan adds.
    ///
    /// # Errors
    ///
    /// `Memory` if allocation failed. The edges are kept in any case.
    pub fn make_room(&mut self, plan: &OrderPlan) -> Result<(), Refusal>
        ensures edges { self.new.edges ≡ self.old.edges }
        ensures ok { OnOk result (OrderHasRoom self.new plan.now) }
        ensures cause { IfErr result (λ refusal. refusal ≡ Refusal.Memory) }
    {
        self.pairs.reserve(plan.puts.len())?;
        if plan.adds {
            self.make_edge_room()?;
        }
        Ok(())
    }

    // Makes room for one more edge.
    fn make_edge_room(&mut self) -> Result<(), Refusal>
        ensures edges { self.new.edges ≡ self.old.edges }
        ensures ok { OnOk result (1 ≤ self.new.edge_room) }
        ensures pairs { self.new.pair_room ≡ self.old.pair_room }
        ensures cause { IfErr result (λ refusal. refusal ≡ Refusal.Memory) }
    {
        self.edges.reserve(1)?;
        self.numbered.make_room(&self.edges)?;
        Ok(())
    }

    /// Applies a plan that fits this order, in reserved room.
    ///
    /// A plan fits the order that it was made for as long as the edges are the same. It doesn't allocate
    /// and can't fail.
    pub fn commit(&mut self, plan: OrderPlan)
        requires fits { Fits self.old.edges plan }
        requires room { OrderHasRoom self.old plan }
        ensures { self.new.edges ≡ changed self.old.edges plan }
    {
        let OrderPlan {
            adds,
            asc,
            desc,
            puts,
            takes,
            judged: _,
            ends,
        } = plan;
        self.pairs.merge_reserved(puts.into_entries());
        self.pairs.take_all(takes.as_slice());
        self.pairs.release();
        if adds {
            self.numbered.add(ends.0, ends.1);
            self.edges.insert_reserved((asc, desc));
        } else {
            self.numbered.remove(&asc, &desc);
            self.edges.remove((&asc, &desc));
        }
    }

    /// The order of these edges, if they have no cycle and `pairs` is their closure.
    ///
    /// # Errors
    ///
    /// `Damaged(5)` if the edges have a cycle; an edge from a role to itself is one. `Damaged(6)` if they
    /// have none and `pairs` isn't their closure. `Memory` if allocation failed, or if the edges have more than
    /// 8,192 roles.
    pub fn of_rows(alloc: Global, edges: PairSet, pairs: PairSet) -> Result<RoleOrder, Refusal>
        ensures order { IfOk result (λ order. order.edges ≡ set_of pair_cmp edges) }
        ensures acyclic { OnOk result (IsAcyclic (set_of pair_cmp edges)) }
        ensures closed { OnOk result (IsClosure (set_of pair_cmp edges) (set_of pair_cmp pairs)) }
        ensures cycle { result ≡ Err (Refusal.Damaged 5) → IsAcyclic (set_of pair_cmp edges) → ⊥ }
        ensures differ { result ≡ Err (Refusal.Damaged 6) → IsAcyclic (set_of pair_cmp edges) × (IsClosure (set_of pair_cmp edges) (set_of pair_cmp pairs) → ⊥) }
        ensures only { OnErr result ((result ≡ Err (Refusal.Damaged 5)) ⊎ ((result ≡ Err (Refusal.Damaged 6)) ⊎ (result ≡ Err Refusal.Memory))) }
    {
        let Some(numbered) = Numbered::of_edges(alloc, &edges)? else {
            return Err(Refusal::Damaged(5));
        };
        if !numbered.has_closure(&pairs) {
            return Err(Refusal::Damaged(6));
        }
        let pairs = ChunkedPairs::of_sorted(alloc, pairs.into_entries())?;
        Ok(RoleOrder {
            edges,
            pairs,
            numbered,
        })
    }
}

// How many pairs of a name of each there are. For sets that fit in memory the number fits in a `u64`, but
// no proof knows this: a number that doesn't would be refused with `Memory`.
fn count_judged(above: &NameSet, below: &NameSet) -> Result<u64, Refusal>
    ensures ok { IfOk result (λ judged. judged ≡ len (set_of name_cmp above.now) * len (set_of name_cmp below.now)) }
    ensures cause { IfErr result (λ refusal. refusal ≡ Refusal.Memory) }
{
    let above = above.len() as u64;
    let below = below.len() as u64;
    above.checked_mul(below).ok_or(Refusal::Memory)
}
