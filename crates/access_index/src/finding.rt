//! Decisions by the index.
ghost use Rattle.std.specs.Prelude.{◌≡◌, ◌↔◌, ◌⊎◌, ◌&&◌, not, ℕ, IsTrue, None, Some, false, IfSome, IfNone};
ghost use Rattle.rbac_sets.specs.Sets.{Bytes, contains};
ghost use Rattle.bit_rows.specs.Rows.{has};
ghost use Rattle.bit_tables.specs.Tables.{holds, holds_without};
ghost use Rattle.admin_mgr.specs.RbacState.{RbacState};
ghost use Rattle.admin_mgr.specs.Good.{IsGood};
ghost use Rattle.access_index.specs.Decision.{HasNothing, HasNothingAssigned, IsDecision, IsUserDecision};
ghost use Rattle.access_index.specs.private.Reaching.{Reaches};
ghost use Rattle.access_index.specs.Index.{Indexes, Keeps, Rows, assigned_bits, is_below};

use crate::index::AccessIndex;
use bit_rows::BitRow;
use bit_tables::Numbers;

impl AccessIndex {
    /// CheckAccess: whether the session may do the operation on the object, if some role was activated in the session and the
    /// permission is granted to some role. Otherwise there is no decision. The three may be any texts.
    ///
    /// It doesn't allocate, and takes no longer if there are many users, sessions or permissions.
    pub fn find(&self, session: &str, operation: &str, object: &str) -> Option<bool>
        ensures found { IfSome result (λ access. (S : RbacState) → IsGood S → Indexes self.now S → IsDecision S session.now operation.now object.now access) }
        ensures none { IfNone result ((S : RbacState) → Indexes self.now S → HasNothing S session.now operation.now object.now) }
    {
        let Some(active) = self.sessions.row(session) else {
            return None;
        };
        let Some(granted) = self.grants.row(object, operation) else {
            return None;
        };
        if active.is_empty() {
            return None;
        }
        if granted.is_empty() {
            return None;
        }
        Some(self.reaches(active, granted, None))
    }

    /// Whether the user could do the operation on the object in some session, whether or not the user is locked. There is a
    /// decision if some role is assigned to the user, the permission is granted to some role, and it is known which roles are
    /// barred. The three may be any texts.
    ///
    /// It doesn't allocate, and takes no longer if there are many users, sessions or permissions.
    pub fn find_for_user(&self, user: &str, operation: &str, object: &str) -> Option<bool>
        ensures found { IfSome result (λ usable. (S : RbacState) → IsGood S → Indexes self.now S → IsUserDecision S user.now operation.now object.now usable) }
        ensures none { IfNone result ((self.now.barred ≡ None) ⊎ ((S : RbacState) → Indexes self.now S → HasNothingAssigned S user.now operation.now object.now)) }
    {
        let Some(barred) = &self.barred else {
            return None;
        };
        let Some(assigned) = self.assigned.row(user) else {
            return None;
        };
        let Some(roles) = self.grants.row(object, operation) else {
            return None;
        };
        if assigned.is_empty() {
            return None;
        }
        if roles.is_empty() {
            return None;
        }
        Some(self.user_reaches(user, assigned, roles, barred))
    }

    // Whether one of the granted roles that aren't barred is one of the user's assigned ones, or a junior of one.
    fn user_reaches(
        &self,
        user: &str,
        assigned: &Numbers,
        granted: &Numbers,
        barred: &BitRow,
    ) -> bool
        requires { (n : ℕ) → holds assigned.now n ≡ assigned_bits self.now user.now n }
        ensures { (rows : Rows) → Keeps self.now rows → IsTrue result ↔ Reaches self.now.juniors.items (holds assigned.now) (λ n. holds granted.now n && not (has barred.now n)) }
    {
        if self.authorized.is_empty() {
            return self.reaches(assigned, granted, Some(barred));
        }
        match self.authorized.get(user) {
            Some(authorized) => granted.meets_without(authorized, Some(barred)),
            None => self.reaches(assigned, granted, Some(barred)),
        }
    }

    // Whether one of the granted roles is one of the active ones, or a junior of one, and not barred, if the barred ones are given.
    fn reaches(&self, active: &Numbers, granted: &Numbers, barred: Option<&BitRow>) -> bool
        ensures { IsTrue result ↔ Reaches self.now.juniors.items (holds active.now) (holds_without granted.now barred.entry) }
    {
        let mut from = 0;
        while let Some(number) = active.next(from) {
            if granted.has_without(number, barred) {
                return true;
            }
            if self.has_junior(number, granted, barred) {
                return true;
            }
            from = number + 1;
        }
        false
    }

    // Whether one of the granted roles is a junior of the role with the number, and not barred, if the barred ones are given.
    fn has_junior(&self, number: usize, granted: &Numbers, barred: Option<&BitRow>) -> bool
        ensures { IsTrue result ↔ ((n : ℕ) × IsTrue (is_below self.now.juniors.items number n) × IsTrue (holds_without granted.now barred.entry n)) }
    {
        match self.juniors.get(number) {
            Some(row) => granted.meets_without(row, barred),
            None => false,
        }
    }
}
