//! Counting by the numbers of roles. A run is the numbers of the roles of one user, or of one permission.
ghost use Rattle.std.specs.Prelude.{◌≡◌, nat_eq, count_by};
ghost use Rattle.std.specs.List.{list_any};
ghost use Rattle.order_matrix.specs.Table.{entry};

use order_matrix::OrderMatrix;

// Whether the role is one of the run's.
fn has_number(numbers: &[usize], role: usize) -> bool
    ensures { result ≡ list_any (λ number. nat_eq number role) numbers.now }
{
    numbers.iter().any(|number| *number == role)
}

// Whether the role equals or dominates one of the run's.
fn has_below(table: &OrderMatrix<'_>, numbers: &[usize], role: usize) -> bool
    ensures { result ≡ list_any (λ number. entry table.now role number) numbers.now }
{
    numbers.iter().any(|number| table.geq(role, *number))
}

// How many of the numbers are that of the role.
pub(super) fn count_number(numbers: &[usize], role: usize) -> u64
    ensures { result ≡ count_by (λ number. nat_eq number role) numbers.now }
{
    numbers.iter().filter(|number| **number == role).count() as u64
}

// How many of the runs have the role.
pub(super) fn count_runs_with(runs: &[Vec<usize>], role: usize) -> u64
    ensures { result ≡ count_by (λ run. list_any (λ number. nat_eq number role) run.items) runs.now }
{
    runs.iter().filter(|run| has_number(run, role)).count() as u64
}

// How many of the runs have the role, or a senior of it.
pub(super) fn count_runs_above(table: &OrderMatrix<'_>, runs: &[Vec<usize>], role: usize) -> u64
    ensures { result ≡ count_by (λ run. list_any (λ number. entry table.now number role) run.items) runs.now }
{
    runs.iter().filter(|run| table.reaches(run, role)).count() as u64
}

// How many of the runs have the role, or a junior of it.
pub(super) fn count_runs_below(table: &OrderMatrix<'_>, runs: &[Vec<usize>], role: usize) -> u64
    ensures { result ≡ count_by (λ run. list_any (λ number. entry table.now role number) run.items) runs.now }
{
    runs.iter()
        .filter(|run| has_below(table, run, role))
        .count() as u64
}
