// A plan by portions: some of its cells filled, and its outcome read from all of them.
ghost use Rattle.std.specs.Prelude.{◌≡◌, true, ◌++◌, ◌≤◌, ◌<◌, length, drop, replicate};
ghost use Rattle.tables.specs.Stored.{tables_of, keeps_limits};
ghost use Rattle.meaning.specs.Cells.{cells_of};
ghost use Rattle.engine.specs.Portion.{PartFilled, ReadFrom, in_range};

use crate::plan::{outlined, read_back};
use cells::fill::fill;
use cells::outline::OUTLINE;
use cells::problem::plan_problem;
use runs::outcome::{RunRange, StoredOutcome};
use runs::run::Run;
use tables::tables::StoredTables;

// The cells from .. to of the tables' plan are filled in the lent work.
pub fn fill_part(t: StoredTables, work: &mut [u32], from: usize, to: usize)
    requires t_value { keeps_limits t ≡ true }
    requires count_nonzero { (0 < t.loads.count) × (cells_of (tables_of t) ≤ length work.old) × (from ≤ to) × (to ≤ cells_of (tables_of t)) }
    ensures { PartFilled (tables_of t) work.old work.new from to }
{
    let p = plan_problem(t);
    let mut outline = [0u16; OUTLINE];
    let sh = outlined(p, &mut outline[..]);
    fill(sh, &outline[..], work, from, to);
}

// The run that was read, where it is in range for the tables. (Work that others wrote in may say anything.)
fn in_range(t: StoredTables, found: Option<Run>) -> Option<Run>
    ensures { result ≡ in_range t found }
{
    let outcome = StoredOutcome::of(found);
    if outcome.keeps_limits(RunRange::of(t)) {
        return found;
    }
    None
}

// The run of the tables' plan is read from its cells, which are 0 afterwards.
pub fn read_all(t: StoredTables, work: &mut [u32]) -> Option<Run>
    requires t_value { keeps_limits t ≡ true }
    requires count_nonzero { (0 < t.loads.count) × (cells_of (tables_of t) ≤ length work.old) }
    ensures read { ReadFrom t work.old result }
    ensures cleared { work.new ≡ replicate (cells_of (tables_of t)) 0 ++ drop (cells_of (tables_of t)) work.old }
{
    let p = plan_problem(t);
    let mut outline = [0u16; OUTLINE];
    let sh = outlined(p, &mut outline[..]);
    let found = read_back(sh, &outline[..], work);
    in_range(t, found)
}
