//! What a command changes in a state, as changes of rows.
ghost use Rattle.std.specs.Prelude.{◌≡◌, true};
ghost use Rattle.rbac_sets.specs.Named.{are_named};

use rbac_sets::Change;
use role_order::OrderPlan;

/// The report of an import: how many of its records were assigned, how many had been assigned before, and
/// which were refused for another reason. It is zero and empty for any other command.
#[derive(Drop)]
pub struct Report {
    /// How many records were assigned.
    pub assigned: u32,
    /// How many records were refused by `AlreadyAssigned`.
    pub already: u32,
    /// The records that were refused otherwise: the number of each, from 1, with the code of its
    /// refusal, in their order.
    pub refused: Vec<(u32, u32)>,
}

/// The rows that an accepted command removes and adds, and its report.
///
/// `State::plan` makes it, and `State::commit` makes its changes.
#[derive(Drop)]
pub struct Plan {
    pub(crate) changes: Vec<Change>,
    pub(crate) report: Report,
    pub(crate) order: Option<OrderPlan>,
}

impl Plan {
    /// The rows to take, and then the rows to put. The state for which the plan was made has each row to take
    /// and no row to put, and no row is listed twice. It doesn't allocate.
    pub fn changes(&self) -> &[Change]
        ensures { result.now ≡ self.now.changes.items }
    {
        &self.changes
    }

    /// Each name in the plan's rows is valid, which holds of every plan. It doesn't allocate.
    pub fn recall_names(&self)
        ensures { are_named self.now.changes.items ≡ true }
    {
        for change in self.changes() {
            change.recall_names();
        }
    }

    /// The report of an import; zero and empty for any other command. It doesn't allocate.
    pub fn report(&self) -> &Report
        ensures { result.now ≡ self.now.report }
    {
        &self.report
    }
}
