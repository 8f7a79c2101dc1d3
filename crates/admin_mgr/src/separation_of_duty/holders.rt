//! Who a kind of separation of duty applies to: users with their assignments, or sessions with their
//! activated roles.
ghost use Rattle.std.specs.Iterator.{YieldsFirst, YieldsFirstRef, item_count};

use chunked_sets::{ChunkedPairs, Entries, Run};
use rbac_sets::Name;

// An iterator over the names of users or sessions in byte order.
#[derive(Drop)]
pub(crate) enum Holders<'a> {
    // The users still to come.
    Users(Entries<'a, Name>),
    // The sessions still to come, with their users.
    Sessions(Entries<'a, (Name, Name)>),
}

impl<'a> Iterator for Holders<'a> {
    type Item = &'a Name;

    ghost use Rattle.admin_mgr.specs.private.Holders.{holders_left};

    ghost next_gives = { YieldsFirstRef holders_left };

    ghost remaining = { item_count holders_left };

    fn next(&mut self) -> Option<&'a Name> {
        match self {
            Holders::Users(users) => users.next(),
            Holders::Sessions(sessions) => {
                let session = sessions.next()?;
                Some(&session.0)
            }
        }
    }
}

// An iterator over users or sessions in byte order. For each it yields the run of its pairs (holder, role),
// which may be empty.
#[derive(Drop)]
pub(crate) struct Runs<'a> {
    pub(crate) holders: Holders<'a>,
    // The assignments of the users, or the activated roles of the sessions.
    pub(crate) pairs: &'a ChunkedPairs,
}

impl<'a> Iterator for Runs<'a> {
    type Item = Run<'a, (Name, Name)>;

    ghost use Rattle.admin_mgr.specs.private.Holders.{runs_left};

    ghost next_gives = { YieldsFirst runs_left };

    ghost remaining = { item_count runs_left };

    fn next(&mut self) -> Option<Run<'a, (Name, Name)>> {
        let holder = self.holders.next()?;
        Some(self.pairs.with_first(holder))
    }
}
