//! Lists in byte order, collected from the sets of a state.
ghost use Rattle.std.specs.Prelude.{◌≡◌, ◌||◌, ◌++◌, Bool, IfOk, IfErr, OnOk, map};
ghost use Rattle.std.specs.FinSet.{FinSet};
ghost use Rattle.std.specs.Fn.{FnReturnsAt};
ghost use Rattle.std.specs.List.Sorted.{IsStrictlySortedBy};
ghost use Rattle.rbac_sets.specs.Sets.{Bytes, Cardinality, Pair, Triple, cardinality_cmp, contains, from_list, image, insert, members, name_cmp, pair_cmp, retain, same_name, seconds, triple_cmp};
ghost use Rattle.rbac_sets.specs.SortedSet.{set_of};
ghost use Rattle.role_order.specs.Order.{geq};
ghost use Rattle.admin_mgr.specs.private.HolderRoles.{is_reached};
ghost use Rattle.review_mgr.specs.Review.{is_grant_of};

use admin_mgr::is_reached;
use chunked_sets::{ChunkedGrants, ChunkedPairs, EntrySet, Run, sorted_once};
use rbac_sets::{CountSet, Entry, Name, Probe, Refusal, place};
use role_order::RoleOrder;
use std::alloc::Global;

// References to the parts of an entry, from which a copy of it can be made.
trait Part<K: Entry>: Probe<K> {
    // The entry with these parts, in memory of its own.
    fn to_entry(self, alloc: Global) -> Result<K, Refusal>
        ensures ok { IfOk result (λ entry. entry ≡ Self.entry self) }
        ensures cause { IfErr result (λ refusal. refusal ≡ Refusal.Memory) };
}

impl<K: Entry> Part<K> for &K {
    fn to_entry(self, alloc: Global) -> Result<K, Refusal> {
        self.copy(alloc)
    }
}

impl Part<(Name, Name)> for (&Name, &Name) {
    fn to_entry(self, alloc: Global) -> Result<(Name, Name), Refusal> {
        Ok((self.0.copy(alloc)?, self.1.copy(alloc)?))
    }
}

// Inserts a copy of an entry at its place in the order, unless it is there.
fn put<K: Entry, P: Part<K>>(alloc: Global, entries: &mut Vec<K>, part: P) -> Result<(), Refusal>
    requires { IsStrictlySortedBy K.cmp entries.old.items }
    ensures sorted { OnOk result (IsStrictlySortedBy K.cmp entries.new.items) }
    ensures put { OnOk result (from_list {R = K.cmp} entries.new.items ≡ insert (from_list entries.old.items) (P.entry part)) }
    ensures cause { IfErr result (λ refusal. refusal ≡ Refusal.Memory) }
{
    if let Err(at) = place(entries, part) {
        entries.insert(at, part.to_entry(alloc)?)?;
    }
    Ok(())
}

// The values of `part` at the items that pass the test, in order and each once.
fn gather<'a, A: Entry, K: Entry, P: Part<K>, T: Fn(&A) -> bool, F: Fn(&'a A) -> P>(
    alloc: Global,
    items: &Run<'a, A>,
    test: T,
    part: F,
) -> Result<Vec<K>, Refusal>
    requires test { T.IsAlwaysCallable test }
    requires part { F.IsAlwaysCallable part }
    ensures ok { (all : FinSet A.cmp) → items.now ≡ members all → (passes : A → Bool) → (gives : A → K)
        → ((x : A) (b : Bool) → FnReturnsAt T.Fn test x b → b ≡ passes x) → ((x : A) (p : P) → FnReturnsAt F.Fn part x p → P.entry p ≡ gives x)
        → IfOk result (λ entries. entries.items ≡ members (image {Q = K.cmp} gives (retain all passes))) }
    ensures cause { IfErr result (λ refusal. refusal ≡ Refusal.Memory) }
{
    let mut entries = Vec::new(alloc);
    for item in items.iter() {
        if test(item) {
            put(alloc, &mut entries, part(item))?;
        }
    }
    Ok(entries)
}

// The values of `part` at the items, in order and each once.
fn gather_all<'a, A: Entry, K: Entry, P: Part<K>, F: Fn(&'a A) -> P>(
    alloc: Global,
    items: &Run<'a, A>,
    part: F,
) -> Result<Vec<K>, Refusal>
    requires { F.IsAlwaysCallable part }
    ensures ok { (all : FinSet A.cmp) → items.now ≡ members all → (gives : A → K) → ((x : A) (p : P) → FnReturnsAt F.Fn part x p → P.entry p ≡ gives x)
        → IfOk result (λ entries. entries.items ≡ members (image {Q = K.cmp} gives all)) }
    ensures cause { IfErr result (λ refusal. refusal ≡ Refusal.Memory) }
{
    gather(alloc, items, |_| true, part)
}

// The second names of the pairs that have this first name.
pub(crate) fn seconds_of<P: EntrySet<(Name, Name)>>(
    alloc: Global,
    pairs: &P,
    first: &Name,
) -> Result<Vec<Name>, Refusal>
    ensures ok { IfOk result (λ names. names.items ≡ members (seconds (set_of pair_cmp (P.stored pairs.now)) first.now)) }
    ensures cause { IfErr result (λ refusal. refusal ≡ Refusal.Memory) }
{
    gather_all(alloc, &pairs.entries_with_first(first), |pair| &pair.1)
}

// The names of the sets that have a cardinality.
pub(crate) fn names_of(alloc: Global, cardinalities: &CountSet) -> Result<Vec<Name>, Refusal>
    ensures ok { IfOk result (λ names. names.items ≡ members (image {Q = name_cmp} (λ (entry : Cardinality). entry.0) (set_of cardinality_cmp cardinalities.now))) }
    ensures cause { IfErr result (λ refusal. refusal ≡ Refusal.Memory) }
{
    gather_all(alloc, &Run::of(cardinalities.as_slice()), |entry| &entry.0)
}

// Adds the values of `part` at the items, one after the other.
fn push_parts<'a, A: Entry, K: Entry, P: Part<K>, F: Fn(&'a A) -> P>(
    alloc: Global,
    entries: &mut Vec<K>,
    items: &Run<'a, A>,
    part: F,
) -> Result<(), Refusal>
    requires { F.IsAlwaysCallable part }
    ensures pushed { OnOk result ((gives : A → K) → ((x : A) (p : P) → FnReturnsAt F.Fn part x p → P.entry p ≡ gives x)
        → entries.new.items ≡ entries.old.items ++ map gives items.now) }
    ensures cause { IfErr result (λ refusal. refusal ≡ Refusal.Memory) }
{
    for item in items.iter() {
        entries.push(part(item).to_entry(alloc)?)?;
    }
    Ok(())
}

// The users of the roles, by the pairs (role, user).
fn users_of(alloc: Global, by_role: &ChunkedPairs, roles: &[Name]) -> Result<Vec<Name>, Refusal>
    ensures ok { IfOk result (λ names. names.items
        ≡ members (image {Q = name_cmp} (λ (pair : Pair). pair.1) (retain (set_of pair_cmp by_role.now) (λ pair. contains (from_list {R = name_cmp} roles.now) pair.0)))) }
    ensures cause { IfErr result (λ refusal. refusal ≡ Refusal.Memory) }
{
    let mut users = Vec::new(alloc);
    for role in roles {
        push_parts(alloc, &mut users, &by_role.with_first(role), |pair| &pair.1)?;
    }
    sorted_once(users)
}

// The users that are assigned to the role or to a senior of it, by the pairs (role, user).
pub(crate) fn users_above(
    alloc: Global,
    order: &RoleOrder,
    by_role: &ChunkedPairs,
    role: &Name,
) -> Result<Vec<Name>, Refusal>
    ensures ok { IfOk result (λ names. names.items
        ≡ members (image {Q = name_cmp} (λ (pair : Pair). pair.1) (retain (set_of pair_cmp by_role.now) (λ pair. geq order.now.edges pair.0 role.now)))) }
    ensures cause { IfErr result (λ refusal. refusal ≡ Refusal.Memory) }
{
    let mut roles = order.seniors(alloc, role)?.into_entries();
    roles.push(role.copy(alloc)?)?;
    users_of(alloc, by_role, &roles)
}

// Inserts a role and its juniors at their places in byte order, unless they are there.
fn put_below(
    alloc: Global,
    order: &RoleOrder,
    names: &mut Vec<Name>,
    role: &Name,
) -> Result<(), Refusal>
    requires { IsStrictlySortedBy name_cmp names.old.items }
    ensures sorted { OnOk result (IsStrictlySortedBy name_cmp names.new.items) }
    ensures put { OnOk result ((q : Bytes) → contains (from_list {R = name_cmp} names.new.items) q ≡ (geq order.now.edges role.now q || contains (from_list {R = name_cmp} names.old.items) q)) }
    ensures cause { IfErr result (λ refusal. refusal ≡ Refusal.Memory) }
{
    put(alloc, names, role)?;
    let juniors = order.pairs().entries_with_first(role);
    for pair in juniors.iter() {
        put(alloc, names, &pair.1)?;
    }
    Ok(())
}

// The role and its juniors.
fn roles_below(alloc: Global, order: &RoleOrder, role: &Name) -> Result<Vec<Name>, Refusal>
    ensures sorted { IfOk result (λ names. IsStrictlySortedBy name_cmp names.items) }
    ensures below { IfOk result (λ names. (q : Bytes) → contains (from_list {R = name_cmp} names.items) q ≡ geq order.now.edges role.now q) }
    ensures cause { IfErr result (λ refusal. refusal ≡ Refusal.Memory) }
{
    let mut names = Vec::new(alloc);
    put_below(alloc, order, &mut names, role)?;
    Ok(names)
}

// The second names of the pairs, and their juniors.
pub(crate) fn roles_reached(
    alloc: Global,
    order: &RoleOrder,
    held: &Run<'_, (Name, Name)>,
) -> Result<Vec<Name>, Refusal>
    ensures sorted { IfOk result (λ names. IsStrictlySortedBy name_cmp names.items) }
    ensures reached { IfOk result (λ names. (role : Bytes) → contains (from_list {R = name_cmp} names.items) role ≡ is_reached order.now.edges held.now role) }
    ensures cause { IfErr result (λ refusal. refusal ≡ Refusal.Memory) }
{
    let mut names = Vec::new(alloc);
    for pair in held.iter() {
        put_below(alloc, order, &mut names, &pair.1)?;
    }
    Ok(names)
}

// The permissions of the roles, by the triples (role, object, operation).
fn permissions_of(
    alloc: Global,
    by_role: &ChunkedGrants,
    roles: &[Name],
) -> Result<Vec<(Name, Name)>, Refusal>
    ensures ok { IfOk result (λ pairs. pairs.items
        ≡ members (image {Q = pair_cmp} (λ (grant : Triple). (grant.1, grant.2)) (retain (set_of triple_cmp by_role.now) (λ grant. contains (from_list {R = name_cmp} roles.now) grant.0)))) }
    ensures cause { IfErr result (λ refusal. refusal ≡ Refusal.Memory) }
{
    let mut permissions = Vec::new(alloc);
    for role in roles {
        push_parts(
            alloc,
            &mut permissions,
            &by_role.with_first(role),
            |grant| (&grant.1, &grant.2),
        )?;
    }
    sorted_once(permissions)
}

// The permissions that are granted to the role or to a junior of it, by the triples (role, object, operation).
pub(crate) fn permissions_below(
    alloc: Global,
    order: &RoleOrder,
    by_role: &ChunkedGrants,
    role: &Name,
) -> Result<Vec<(Name, Name)>, Refusal>
    ensures ok { IfOk result (λ pairs. pairs.items
        ≡ members (image {Q = pair_cmp} (λ (grant : Triple). (grant.1, grant.2)) (retain (set_of triple_cmp by_role.now) (λ grant. geq order.now.edges role.now grant.0)))) }
    ensures cause { IfErr result (λ refusal. refusal ≡ Refusal.Memory) }
{
    let roles = roles_below(alloc, order, role)?;
    permissions_of(alloc, by_role, &roles)
}

// The permissions that are granted to the second name of a pair or to a junior of one, by the triples (role, object,
// operation).
pub(crate) fn permissions_reached(
    alloc: Global,
    order: &RoleOrder,
    by_role: &ChunkedGrants,
    held: &Run<'_, (Name, Name)>,
) -> Result<Vec<(Name, Name)>, Refusal>
    ensures ok { IfOk result (λ pairs. pairs.items
        ≡ members (image {Q = pair_cmp} (λ (grant : Triple). (grant.1, grant.2)) (retain (set_of triple_cmp by_role.now) (λ grant. is_reached order.now.edges held.now grant.0)))) }
    ensures cause { IfErr result (λ refusal. refusal ≡ Refusal.Memory) }
{
    let roles = roles_reached(alloc, order, held)?;
    permissions_of(alloc, by_role, &roles)
}

// The operations of the grants of the object to the role or to a junior of it.
pub(crate) fn operations_below(
    alloc: Global,
    order: &RoleOrder,
    grants: &ChunkedGrants,
    role: &Name,
    object: &Name,
) -> Result<Vec<Name>, Refusal>
    ensures ok { IfOk result (λ names. names.items ≡ members (image {Q = name_cmp} (λ (grant : Triple). grant.1)
        (retain (retain (set_of triple_cmp grants.now) (λ grant. same_name grant.0 object.now)) (λ grant. geq order.now.edges role.now grant.2)))) }
    ensures cause { IfErr result (λ refusal. refusal ≡ Refusal.Memory) }
{
    gather(
        alloc,
        &grants.with_first(object),
        |grant| order.geq(role, &grant.2),
        |grant| &grant.1,
    )
}

// The operations of the grants of the object to the second name of a pair or to a junior of one.
pub(crate) fn operations_reached(
    alloc: Global,
    order: &RoleOrder,
    grants: &ChunkedGrants,
    held: &Run<'_, (Name, Name)>,
    object: &Name,
) -> Result<Vec<Name>, Refusal>
    ensures ok { IfOk result (λ names. names.items ≡ members (image {Q = name_cmp} (λ (grant : Triple). grant.1)
        (retain (retain (set_of triple_cmp grants.now) (λ grant. same_name grant.0 object.now)) (λ grant. is_reached order.now.edges held.now grant.2)))) }
    ensures cause { IfErr result (λ refusal. refusal ≡ Refusal.Memory) }
{
    gather(
        alloc,
        &grants.with_first(object),
        |grant| is_reached(order, held, &grant.2),
        |grant| &grant.1,
    )
}

// The roles of the grants of the permission.
pub(crate) fn roles_granted(
    alloc: Global,
    grants: &ChunkedGrants,
    object: &Name,
    operation: &Name,
) -> Result<Vec<Name>, Refusal>
    ensures ok { IfOk result (λ names. names.items ≡ members (image {Q = name_cmp} (λ (grant : Triple). grant.2) (retain (set_of triple_cmp grants.now) (is_grant_of object.now operation.now)))) }
    ensures cause { IfErr result (λ refusal. refusal ≡ Refusal.Memory) }
{
    gather_all(
        alloc,
        &grants.with_first((object, operation)),
        |grant| &grant.2,
    )
}
