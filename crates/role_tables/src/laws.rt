//! The laws of an office: what holds over every list of its runs, whatever crashes end them; what it means
//! that an opening is refused; and that the next connection holds what a crash left. The headline theorem,
//! with the steps of its argument, is the last law, `recovers`.
ghost use Rattle.sqlite.specs.Held.{state};
ghost use Rattle.role_tables.specs.OfficeHistory.{CreatedRunsAreFromGood, OpeningsAreGood, OpeningsFollow, LastIsSound, DeassignedStays, RevokedStays};
ghost use Rattle.role_tables.specs.OfficeHistory.{OneCall, EarlierArePossible, SoFarIsLeft, OpenLeavesSoFar, OpenGoesOn, ClosedStays, SoFarGoesOn};
ghost use Rattle.role_tables.specs.OpeningChecks.{StateIsUnique, GoodContentsAreRead, RefusedHaveNoState};
ghost use Rattle.role_tables.specs.Runs.{RecoversRun};
ghost use Rattle.role_tables.specs.Durability.{HoldsWhatWasLeft, SameTreesHoldSame};

use admin_mgr::laws::{accepted_good, effects, empty_states, migrated_good};
use sqlite::{Alter, Connection};

/// Over every list of runs of one office, which are the lives of the name, the first of which begins with
/// some good state, as that of an office that was created empty does: each run begins with a good
/// state. For each run but the first this is, except for the version, the state after a prefix of the
/// accepted commands of the run before, and the prefix has every acknowledged one. The same holds of the
/// last run's state so far and of each state that a next opening may give. In these, an assignment or a
/// grant is not there if its removal was acknowledged and no later command may have restored it:
/// sessions have their roles through other assignments, and access through other grants.
pub fn lives()
    ensures created { CreatedRunsAreFromGood }
    ensures good { OpeningsAreGood }
    ensures follow { OpeningsFollow }
    ensures last { LastIsSound }
    ensures deassigned { DeassignedStays }
    ensures revoked { RevokedStays }
{
    accepted_good();
    effects();
    empty_states();
    migrated_good();
}

/// The answer of one call is one event of a run, and a crash after it leaves exactly the states that the
/// answer allows. The run of an open office goes on from its state so far. A closed office answers
/// `Closed` alone, and a crash then leaves what it could leave before.
pub fn calls()
    ensures one { OneCall }
    ensures earlier { EarlierArePossible }
    ensures left { SoFarIsLeft }
    ensures open { OpenLeavesSoFar }
    ensures goes_on { OpenGoesOn }
    ensures closed { ClosedStays }
    ensures so_far { SoFarGoesOn }
{}

/// If an opening is refused because of what the database holds, and not by `Memory` or `Store`, no good state
/// has exactly the rows that are there, each once, under the one row of its version, however the tables
/// were created.
///
/// The other way round: if each table has its rows of a good state whose texts are valid names, each once,
/// and `meta_row` the one row of the version, these rows are refused by `Memory` at most, and no other
/// state is read from them.
pub fn refused_openings()
    ensures none { RefusedHaveNoState }
    ensures good { GoodContentsAreRead }
    ensures alone { StateIsUnique }
{}

/// The trees of a database alone determine the states that it holds: two databases with the same trees,
/// whatever schemas were read from them, hold the same states.
pub fn same_trees()
    ensures { SameTreesHoldSame }
{}

/// What a crash left is durable on the next connection: if it left the trees of a database that holds a
/// state, that state is durable on each connection that is open outside a transaction on these trees.
/// So if the state is good and its texts are valid names, `open` gives it there while the disk returns
/// what was written, or is refused by `Memory` or `Store`.
pub fn reopened<S: Alter>(conn: &Connection<S>)
    ensures { HoldsWhatWasLeft (state S.Store conn.now) }
{
    conn.is_autocommit();
    conn.schema();
}

/// The headline theorem: while nobody else writes the file and the disk returns what was written, each
/// opening that succeeds gives a good state, however often the office crashes, before or within a write.
/// Except for the version, which never falls, this is the state after a prefix of the accepted commands
/// of the run before, and the prefix has every acknowledged one.
///
/// The argument, each step with the clause that states it:
///
/// 1. `create`, `create_v1`, `migrate` and `open` begin a run of the office (their clause `run`).
/// 2. `Office::apply` adds one event to the run, its command with its answer (`run`). If the disk is clean
///    after the call, it was clean before (`clean`).
/// 3. In a run, a crash leaves the trees of a database that holds a state which the events allow
///    (`IsInRun`, field `left`).
/// 4. That state is durable on the next connection on these trees (`reopened`).
/// 5. It is good, and it is the state after such a prefix (`lives`, clause `last`); its texts are valid
///    names (`IsInRun`, field `names`).
/// 6. So `open` gives it on that connection, or is refused by `Memory` or `Store` (its clauses `run` and
///    `refused`). The next run begins with it, which is step 1.
pub fn recovers<S: Alter>(conn: &Connection<S>)
    ensures { RecoversRun (state S.Store) (state S.Store conn.now) }
{
    reopened(conn);
    lives();
}
