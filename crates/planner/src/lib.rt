// The planner: the tables, the latest outcome and the count of filled cells by value, the commands, a call on a line, a portion of a plan, and the judge.
#![tactic(auto)]

ghost use Rattle.std.specs.Prelude.{◌≡◌, true};
ghost use Rattle.calls.specs.State.{keeps};
ghost use Rattle.planner.specs.Planner.{held, fresh, Lawful};
ghost use Rattle.planner.specs.Verdict.{judged_by};

use crate::search::cells_of;
use runs::outcome::{RunRange, StoredOutcome};
use tables::refusal::Refusal;
use tables::tables::StoredTables;

mod answers;
pub mod call;
mod changes;
mod need;
pub mod portion;
mod search;

// A planner. It goes in and comes back by value. `filled` counts the cells that portions have filled of the next plan.
#[repr(C)]
#[derive(Clone, Copy)]
pub struct Planner {
    pub tables: StoredTables,
    pub outcome: StoredOutcome,
    pub filled: u32,
}

// The commands ask by a `requires` for what `keeps_limits` tests: a type with that invariant would be a second planner beside C's, made of it and turned
// back into it at every call.
impl Planner {
    // A fresh planner: 0 states and stages, no rules, no loads and budget 0, no current plan, and no cell filled.
    pub fn fresh() -> Planner
        ensures { result ≡ fresh }
    {
        Planner {
            tables: StoredTables::fresh(),
            outcome: StoredOutcome::NONE,
            filled: 0,
        }
    }

    // Does a planner that is handed in keep the limits: those of the tables, the figures of the outcome in range for them, and no more cells filled
    // than there are?
    pub fn keeps_limits(self) -> bool
        ensures test { result ≡ keeps (held self) }
        ensures kept { result ≡ true → Lawful self }
    {
        self.tables.keeps_limits()
            && self.outcome.keeps_limits(RunRange::of(self.tables))
            && self.filled as usize <= cells_of(self.tables)
    }

    // Are these numbers, three for each load, a run?
    pub fn judge(self, run: &[u32]) -> Result<bool, Refusal>
        ensures { result ≡ judged_by (held self) run.now }
    {
        if !self.keeps_limits() {
            return Err(Refusal::Unusable);
        }
        judge::judge(self.tables, run)
    }
}
