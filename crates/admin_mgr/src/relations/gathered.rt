//! The sets that stored rows make, before they are checked.
ghost use Rattle.std.specs.Prelude.{[], Err, ◌≡◌, ◌⊎◌, ◌&&◌, not, true, false, IfOk, IfErr, OnOk};
ghost use Rattle.std.specs.List.{list_all};
ghost use Rattle.rbac_sets.specs.Named.{is_named};
ghost use Rattle.rbac_sets.specs.Sets.{contains, insert, pair_cmp, triple_cmp};
ghost use Rattle.rbac_sets.specs.SortedSet.{set_of};
ghost use Rattle.role_order.specs.Order.{IsAcyclic, IsClosure};
ghost use Rattle.admin_mgr.specs.StoredSets.{gathered, is_known};
ghost use Rattle.admin_mgr.specs.private.OneRow.{has_key, with_stored};
ghost use Rattle.admin_mgr.specs.RowChecks.{AreReadable};

use crate::judge::set_refusals::has_set;
use crate::relations::{LargeSets, Relations};
use rbac_sets::{Entry, PairSet, Refusal, Row, SortedSet};
use role_order::RoleOrder;
use std::alloc::Global;
use std::marker::Model;

mod checks;

// The sets and relations that rows make. Their role hierarchy is empty: its edges, and the closure pairs that are stored
// beside them, are here until they are checked. The sets that are kept in two orders are here in one of them.
#[derive(Drop)]
pub(crate) struct StoredSets {
    relations: Relations,
    large: LargeSets,
    edges: PairSet,
    pairs: PairSet,
}

impl Model for StoredSets {
    ghost use Rattle.admin_mgr.specs.StoredSets.{StoredSets, coded_stored_sets};
    ghost use Rattle.admin_mgr.specs.StoredSetsView.{stored_sets_of};

    ghost Value = { StoredSets };

    ghost coded = { coded_stored_sets };

    ghost view = { stored_sets_of };
}

impl StoredSets {
    // The sets without any row. It doesn't allocate.
    #[tactic(auto, unfolding(crate::specs::StoredSets::gathered, rbac_sets::specs::Sets::from_list))]
    fn new(alloc: Global, version: u32) -> StoredSets
        ensures { result ≡ gathered version [] }
    {
        StoredSets {
            relations: Relations::empty(alloc, version),
            large: LargeSets::new(alloc),
            edges: PairSet::new(alloc),
            pairs: PairSet::new(alloc),
        }
    }

    // The sets that these rows make. Refused by `Damaged(1)` if the version doesn't allow a row, or two rows
    // have the same key.
    pub(crate) fn of_rows(
        alloc: Global,
        version: u32,
        rows: Vec<Row>,
    ) -> Result<StoredSets, Refusal>
        ensures ok { IfOk result (λ made. (made ≡ gathered version rows.items) × AreReadable version rows.items) }
        ensures named { IfOk result (λ made. list_all is_named rows.items ≡ true) }
        ensures err { IfErr result (λ refusal. (refusal ≡ Refusal.Memory) ⊎ ((refusal ≡ Refusal.Damaged 1) × (AreReadable version rows.items → ⊥))) }
    {
        let mut made = StoredSets::new(alloc, version);
        for row in rows {
            row.recall_names();
            made.add(row)?;
        }
        Ok(made)
    }

    // Adds a row. Refused by `Damaged(1)` if the version doesn't allow it, or there is a row with its key.
    fn add(&mut self, row: Row) -> Result<(), Refusal>
        ensures fits { OnOk result ((is_known self.old.facts.version row && not (has_key self.old row)) ≡ true) }
        ensures put { OnOk result (self.new ≡ with_stored self.old row) }
        ensures err { IfErr result (λ refusal. (refusal ≡ Refusal.Memory) ⊎ ((refusal ≡ Refusal.Damaged 1) × ((is_known self.old.facts.version row && not (has_key self.old row)) ≡ false))) }
    {
        if !self.fits(&row) {
            return Err(Refusal::Damaged(1));
        }
        self.put(row)
    }

    // The relations of these sets. Refused by `Damaged(5)` if the edges have a cycle, and then by `Damaged(6)` if
    // the stored pairs aren't their closure.
    pub(crate) fn into_relations(self, alloc: Global) -> Result<Relations, Refusal>
        ensures facts { IfOk result (λ relations. relations.facts ≡ self.facts) }
        ensures order { OnOk result (IsAcyclic self.facts.edges × IsClosure self.facts.edges self.pairs) }
        ensures err { IfErr result (λ refusal. (refusal ≡ Refusal.Memory)
            ⊎ (((refusal ≡ Refusal.Damaged 5) × (IsAcyclic self.facts.edges → ⊥))
            ⊎ ((refusal ≡ Refusal.Damaged 6) × IsAcyclic self.facts.edges × (IsClosure self.facts.edges self.pairs → ⊥)))) }
    {
        let StoredSets {
            relations,
            large,
            edges,
            pairs,
        } = self;
        match RoleOrder::of_rows(alloc, edges, pairs) {
            Ok(order) => with_order(alloc, relations, large, order),
            Err(refusal) => give_up(relations, large, refusal),
        }
    }

    // Whether the version allows the row and there is no row with its key.
    fn fits(&self, row: &Row) -> bool
        ensures { result ≡ (is_known self.now.facts.version row.now && not (has_key self.now row.now)) }
    {
        is_known(self.relations.version, row) && !self.has_key(row)
    }

    // Whether there is a row with the key of this one.
    #[tactic(auto, unfolding(crate::specs::private::OneRow::has_key))]
    fn has_key(&self, row: &Row) -> bool
        ensures { result ≡ has_key self.now row.now }
    {
        match row {
            Row::NameRow(Row::USER, name) => self.relations.users.contains(name),
            Row::NameRow(Row::ROLE, name) => self.relations.roles.contains(name),
            Row::NameRow(Row::OBJECT, name) => self.relations.objects.contains(name),
            Row::PairRow(Row::PERMISSION, a, b) => self.relations.permissions.contains((a, b)),
            Row::PairRow(Row::ASSIGNMENT, a, b) => self.large.assignments.contains((a, b)),
            Row::PairRow(Row::INHERITANCE, a, b) => self.edges.contains((a, b)),
            Row::PairRow(Row::CLOSURE_PAIR, a, b) => self.pairs.contains((a, b)),
            Row::PairRow(Row::STATIC_MEMBER, a, b) => self.relations.ssd_members.contains((a, b)),
            Row::PairRow(Row::DYNAMIC_MEMBER, a, b) => self.relations.dsd_members.contains((a, b)),
            Row::PairRow(Row::SESSION, a, b) => self.large.sessions.contains((a, b)),
            Row::PairRow(Row::ACTIVATED_ROLE, a, b) => self.relations.active.contains((a, b)),
            Row::GrantRow(a, b, c) => self.large.grants.contains((a, b, c)),
            Row::SetRow(Row::STATIC_CARDINALITY, name, _) => has_set(
                &self.relations.ssd_cardinalities,
                name,
            ),
            Row::SetRow(Row::DYNAMIC_CARDINALITY, name, _) => has_set(
                &self.relations.dsd_cardinalities,
                name,
            ),
            Row::LockedRow(name) => self.relations.locked.contains(name),
            _ => false,
        }
    }

    // Adds a row whose key is new. A row of an unknown kind is ignored.
    #[tactic(auto, unfolding(crate::specs::private::OneRow::with_row, crate::specs::private::OneRow::has_key))]
    fn put(&mut self, row: Row) -> Result<(), Refusal>
        requires { has_key self.old row ≡ false }
        ensures ok { OnOk result (self.new ≡ with_stored self.old row) }
        ensures cause { IfErr result (λ refusal. refusal ≡ Refusal.Memory) }
    {
        match row {
            Row::NameRow(Row::USER, name) => self.relations.users.insert(name),
            Row::NameRow(Row::ROLE, name) => put(&mut self.relations.roles, name),
            Row::NameRow(Row::OBJECT, name) => self.relations.objects.insert(name),
            Row::PairRow(Row::PERMISSION, a, b) => self.relations.permissions.insert((a, b)),
            Row::PairRow(Row::ASSIGNMENT, a, b) => self.large.assignments.insert((a, b)),
            Row::PairRow(Row::INHERITANCE, a, b) => put(&mut self.edges, (a, b)),
            Row::PairRow(Row::CLOSURE_PAIR, a, b) => put(&mut self.pairs, (a, b)),
            Row::PairRow(Row::STATIC_MEMBER, a, b) => put(&mut self.relations.ssd_members, (a, b)),
            Row::PairRow(Row::DYNAMIC_MEMBER, a, b) => put(&mut self.relations.dsd_members, (a, b)),
            Row::PairRow(Row::SESSION, a, b) => self.large.sessions.insert((a, b)),
            Row::PairRow(Row::ACTIVATED_ROLE, a, b) => self.relations.active.insert((a, b)),
            Row::GrantRow(a, b, c) => self.large.grants.insert((a, b, c)),
            Row::SetRow(Row::STATIC_CARDINALITY, name, n) => put(
                &mut self.relations.ssd_cardinalities,
                (name, n),
            ),
            Row::SetRow(Row::DYNAMIC_CARDINALITY, name, n) => put(
                &mut self.relations.dsd_cardinalities,
                (name, n),
            ),
            Row::LockedRow(name) => put(&mut self.relations.locked, name),
            _ => Ok(()),
        }
    }
}

// The relations with these large sets and this order.
fn with_order(
    alloc: Global,
    relations: Relations,
    large: LargeSets,
    order: RoleOrder,
) -> Result<Relations, Refusal>
    ensures facts { IfOk result (λ made. made.facts ≡ record relations.facts {
      assignments = set_of pair_cmp large.assignments;
      grants = set_of triple_cmp large.grants;
      sessions = set_of pair_cmp large.sessions;
      edges = order.edges;
    }) }
    ensures cause { IfErr result (λ refusal. refusal ≡ Refusal.Memory) }
{
    let mut made = relations;
    made.set_order(order);
    match made.set_large(alloc, large) {
        Ok(()) => Ok(made),
        Err(refusal) => give_up(made, LargeSets::new(alloc), refusal),
    }
}

// Drops the relations and the sets, which are of no use after the refusal.
fn give_up(_relations: Relations, _large: LargeSets, refusal: Refusal) -> Result<Relations, Refusal>
    ensures { result ≡ Err refusal }
{
    Err(refusal)
}

// Whether an office of this version may have the row.
fn is_known(version: u32, row: &Row) -> bool
    ensures { result ≡ is_known version row.now }
{
    match row {
        Row::LockedRow(_) => version != 1,
        _ => row.table().is_some(),
    }
}

// Adds an entry that the set doesn't have yet, and makes room for it.
fn put<K: Entry>(set: &mut SortedSet<K>, entry: K) -> Result<(), Refusal>
    requires { contains (set_of K.cmp set.old) entry ≡ false }
    ensures ok { OnOk result (set_of K.cmp set.new ≡ insert (set_of K.cmp set.old) entry) }
    ensures cause { IfErr result (λ refusal. refusal ≡ Refusal.Memory) }
{
    set.reserve(1)?;
    set.insert_reserved(entry);
    Ok(())
}
