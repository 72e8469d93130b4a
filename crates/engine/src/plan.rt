// The whole plan, and the check of a set.
ghost use Rattle.std.specs.Prelude.{◌≡◌, true, ◌++◌, ◌≤◌, ◌<◌, length, drop, replicate};
ghost use Rattle.tables.specs.Limits.{max_loads};
ghost use Rattle.tables.specs.Stored.{tables_of, keeps_limits};
ghost use Rattle.meaning.specs.Best.{best_plan, best_check};
ghost use Rattle.meaning.specs.Choice.{plan_entries, check_entries};
ghost use Rattle.marks.specs.Sets.{mark_in};
ghost use Rattle.runs.specs.Outcome.{found, stored_outcome, stored_found};
ghost use Rattle.meaning.specs.Cells.{cells_of};
ghost use Rattle.cells.specs.Problem.{shape_of, Lawful};
ghost use Rattle.cells.specs.Outline.{outline_size, Outlines};
ghost use Rattle.cells.specs.Work.{cells_needed};
ghost use Rattle.engine.specs.Pass.{answer_to, check_cells, Complete, Readable, Traced};

use crate::filled::Filled;
use cells::fill::fill;
use cells::outline::{OUTLINE, put_outline};
use cells::problem::{Problem, Shape, check_problem, plan_problem, shape_of};
use cells::work::{cells_needed, clear};
use marks::LoadSet;
use runs::run::Run;
use tables::load::MAX_LOADS;
use tables::tables::StoredTables;

// The cells of a check: every load with 8 states and 8 stages, one allowance.
const CHECK_CELLS: usize = MAX_LOADS * 16;

// The outline of a problem is written. The answer is its shape.
pub(crate) fn outlined(p: Problem, outline: &mut [u16]) -> Shape
    requires { Lawful p × (outline.old ≡ replicate outline_size 0) }
    ensures { Outlines p result outline.new }
{
    put_outline(outline, p);
    shape_of(p)
}

// The cells of a problem are filled, over the outline that is written for it. Its shape is that of both.
pub(crate) fn fill_cells(p: Problem, outline: &mut [u16], work: &mut [u32]) -> Shape
    requires lawful { Lawful p × (outline.old ≡ replicate outline_size 0) }
    requires count_nonzero { (0 < p.tables.loads.count) × (cells_needed (shape_of p) ≤ length work.old) }
    ensures shape { result ≡ shape_of p }
    ensures filled { Complete p result outline.new work.new }
    ensures rest { drop (cells_needed (shape_of p)) work.new ≡ drop (cells_needed (shape_of p)) work.old }
{
    let sh = outlined(p, &mut *outline);
    let n = cells_needed(sh);
    fill(sh, &outline[..], work, 0, n);
    sh
}

// The run is read back from the cells of an outline, which are 0 afterwards.
pub(crate) fn read_back(sh: Shape, o: &[u16], work: &mut [u32]) -> Option<Run>
    requires { Readable sh o.now work.old }
    ensures read { Traced sh o.now work.old result }
    ensures cleared { work.new ≡ replicate (cells_needed sh) 0 ++ drop (cells_needed sh) work.old }
{
    let filled = Filled {
        shape: sh,
        outline: o,
        cells: &work[..],
    };
    let found = filled.trace();
    let n = cells_needed(sh);
    clear(work, n);
    found
}

// A problem is searched: its cells are filled, the run is read back from them, and they are cleared.
fn search(p: Problem, work: &mut [u32]) -> Option<Run>
    requires lawful { Lawful p }
    requires count_nonzero { (0 < p.tables.loads.count) × (cells_needed (shape_of p) ≤ length work.old) }
    ensures answer { stored_found result ≡ answer_to p }
    ensures cleared { work.new ≡ replicate (cells_needed (shape_of p)) 0 ++ drop (cells_needed (shape_of p)) work.old }
{
    let mut outline = [0u16; OUTLINE];
    let sh = fill_cells(p, &mut outline[..], &mut *work);
    read_back(sh, &outline[..], work)
}

// The plan of the tables, worked out in the lent cells, which are 0 afterwards.
pub fn plan(t: StoredTables, work: &mut [u32]) -> Option<Run>
    requires t_value { keeps_limits t ≡ true }
    requires count_nonzero { (0 < t.loads.count) × (cells_of (tables_of t) ≤ length work.old) }
    ensures value { stored_found result ≡ stored_outcome max_loads (found (best_plan (tables_of t)) (plan_entries (tables_of t))) }
    ensures work_after { work.new ≡ replicate (cells_of (tables_of t)) 0 ++ drop (cells_of (tables_of t)) work.old }
{
    let p = plan_problem(t);
    search(p, work)
}

// A problem is searched in cells of its own, over the outline that is written for it. The case in which it would call itself does not arise: a function
// that may call itself keeps a frame to itself, so that these cells are on the stack of a check alone. (`inline(never)` is a hint that one of the two
// compilers alone reads.)
fn search_alone(p: Problem, outline: &mut [u16]) -> Option<Run>
    requires lawful { Lawful p × (outline.old ≡ replicate outline_size 0) }
    requires count_nonzero { (0 < p.tables.loads.count) × (cells_needed (shape_of p) ≤ check_cells) }
    ensures { stored_found result ≡ answer_to p }
{
    if CHECK_CELLS < cells_needed(shape_of(p)) {
        return search_alone(p, outline);
    }
    let mut work = [0u32; CHECK_CELLS];
    let sh = fill_cells(p, &mut *outline, &mut work[..]);
    let filled = Filled {
        shape: sh,
        outline: &outline[..],
        cells: &work[..],
    };
    filled.trace()
}

// The run of a checked set, worked out in cells of its own.
pub fn check(t: StoredTables, set: LoadSet) -> Option<Run>
    requires t_value { keeps_limits t ≡ true }
    requires count_nonzero { 0 < t.loads.count }
    ensures { stored_found result ≡ stored_outcome max_loads (found (best_check (tables_of t) (mark_in set)) (check_entries (tables_of t) (mark_in set))) }
{
    let p = check_problem(t, set);
    let mut outline = [0u16; OUTLINE];
    search_alone(p, &mut outline[..])
}
