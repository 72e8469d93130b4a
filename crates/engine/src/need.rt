// How little supply would do: the least budget for a worth, read from the filled cells of a plan.
ghost use Rattle.std.specs.Prelude.{◌≡◌, true, ◌++◌, ltb, unwrap_or, length, drop, replicate, ◌*◌, ◌≤◌, ◌<◌};
ghost use Rattle.lists.specs.Tests.{first_from};
ghost use Rattle.tables.specs.Limits.{max_loads, max_worth};
ghost use Rattle.tables.specs.Stored.{tables_of, keeps_limits};
ghost use Rattle.meaning.specs.Cells.{cells_of};
ghost use Rattle.engine.specs.Search.{root_best};
ghost use Rattle.engine.specs.Need.{need_of, need_by};

use crate::figures::figures_of;
use crate::filled::Filled;
use crate::plan::fill_cells;
use cells::cell;
use cells::outline::OUTLINE;
use cells::problem::plan_problem;
use cells::work::{cells_needed, clear};
use runs::run::Run;
use tables::load::LoadList;
use tables::refusal::Refusal;
use tables::tables::StoredTables;

impl<'a> Filled<'a> {
    // The first allowance below the budget whose best exceeds the floor.
    fn first_above(&self, floor: u32) -> Option<usize>
        ensures { unwrap_or result self.now.shape.budget ≡ first_from (λ c. ltb floor (root_best self.now.shape self.now.cells.now c).value) 0 self.now.shape.budget }
    {
        (0..self.shape.budget).find(|&c| floor < self.best_start(c).value)
    }
}

// What `need` says, by what the plan found, and by the least budget for the worth.
fn said(found: Option<Run>, loads: LoadList, worth: u32, least: u32) -> Result<u32, Refusal>
    requires { loads.count ≤ max_loads }
    ensures { result ≡ need_by found loads worth least }
{
    let Some(run) = found else {
        return Err(Refusal::NoneFits);
    };
    let figures = figures_of(loads, run.set);
    if figures.worth < worth {
        return Err(Refusal::TooPoor);
    }
    Ok(least)
}

// How little supply would do for a worth, worked out in the lent cells, which are 0 afterwards. One filling serves: the root's cells hold the best for
// every allowance.
pub fn least_budget(t: StoredTables, worth: u32, work: &mut [u32]) -> Result<u32, Refusal>
    requires t_value { (keeps_limits t ≡ true) × (worth ≤ max_loads * max_worth) }
    requires count_nonzero { (0 < t.loads.count) × (cells_of (tables_of t) ≤ length work.old) }
    ensures value { result ≡ need_of (tables_of t) worth }
    ensures work_after { work.new ≡ replicate (cells_of (tables_of t)) 0 ++ drop (cells_of (tables_of t)) work.old }
{
    let p = plan_problem(t);
    let mut outline = [0u16; OUTLINE];
    let sh = fill_cells(p, &mut outline[..], &mut *work);
    let filled = Filled {
        shape: sh,
        outline: &outline[..],
        cells: &work[..],
    };
    let found = filled.trace();
    let floor = cell::floor_of(worth);
    let least = filled.first_above(floor).unwrap_or(sh.budget) as u32;
    let n = cells_needed(sh);
    clear(work, n);
    said(found, t.loads, worth, least)
}
