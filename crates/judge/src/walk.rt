// The walk of the judge: a load's branch is judged through its row, and a row through its branches. It is lent the steps of the loads.
// Load 0 stands for no load. From a branch to its row and from load to load in a row, the number of loads not yet reached falls.
ghost use Rattle.std.specs.Prelude.{◌≤◌, ◌<◌, ◌≡◌, List, length};
ghost use Rattle.tables.specs.declared.load.Load.{Load};
ghost use Rattle.tables.specs.Limits.{max_loads};
ghost use Rattle.meaning.specs.Forest.{after};
ghost use Rattle.meaning.specs.Cells.{first_child, next_sibling};
ghost use Rattle.judge.specs.Figures.{ParentsOf};
ghost use Rattle.judge.specs.Walk.{left, JudgesBranch, JudgesRow};

use crate::figures::Step;
use marks::Marks;

// The first load with parent p after load k; 0 where there is none, as the definitions of a tree have it, so that `find` over the range would give an
// option only to turn it back into a number.
fn child_after(steps: &[Step], k: usize, p: u8) -> usize
    requires { (0 < k) × (k ≤ length steps.now) }
    ensures found { (ls : List Load) → ParentsOf ls steps.now → result ≡ after ls k p }
    ensures falls { (result ≤ length steps.now) × (left (length steps.now) result < left (length steps.now) k) }
{
    for i in k..steps.len() {
        if steps[i].parent == p {
            return i + 1;
        }
    }
    0
}

// The first child of load k.
fn first_child(steps: &[Step], k: usize) -> usize
    requires { (0 < k) × (k ≤ length steps.now) × (length steps.now ≤ max_loads) }
    ensures found { (ls : List Load) → ParentsOf ls steps.now → result ≡ first_child ls k }
    ensures falls { (result ≤ length steps.now) × (left (length steps.now) result < left (length steps.now) k) }
{
    child_after(steps, k, k as u8)
}

// The next child of the parent of load k.
fn next_sibling(steps: &[Step], k: usize) -> usize
    requires { (0 < k) × (k ≤ length steps.now) }
    ensures found { (ls : List Load) → ParentsOf ls steps.now → result ≡ next_sibling ls k }
    ensures falls { (result ≤ length steps.now) × (left (length steps.now) result < left (length steps.now) k) }
{
    child_after(steps, k, steps[k - 1].parent)
}

// Is the branch of load k run by the rules? Its row of children begins at the stage of its load rule.
#[cycle(branch_runs_row_runs)]
pub(crate) fn branch_runs(steps: &[Step], k: usize, ends: Marks) -> bool
    requires { (0 < k) × (k ≤ length steps.now) × (length steps.now ≤ max_loads) }
    ensures { JudgesBranch ends steps.now k result }
{
    let g = steps[k - 1].begin;
    if g == 0 {
        return false;
    }
    row_runs(steps, first_child(steps, k), g, ends)
}

// Is the row from load k onward run by the rules, when it has reached stage g? The last stage reached is an end stage.
#[cycle(branch_runs_row_runs)]
fn row_runs(steps: &[Step], k: usize, g: u8, ends: Marks) -> bool
    requires { (k ≤ length steps.now) × (length steps.now ≤ max_loads) }
    ensures { JudgesRow ends steps.now k g result }
{
    if k == 0 {
        return ends.has(usize::from(g));
    }
    let step = steps[k - 1];
    if step.stage != g {
        return false;
    }
    if branch_runs(steps, k, ends) {
        return row_runs(steps, next_sibling(steps, k), step.next, ends);
    }
    false
}
