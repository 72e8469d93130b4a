// The outcome of a plan as the planner keeps it, and the test of one that is handed in.
ghost use Rattle.std.specs.Prelude.{◌≡◌, ◌≤◌};
ghost use Rattle.tables.specs.Limits.{between, max_loads};
ghost use Rattle.meaning.specs.Runs.{row_rule_in};
ghost use Rattle.runs.specs.Outcome.{figures_in, held_range, used_by, stored_found, latest_by, keeps_outcome};
ghost use Rattle.runs.specs.Places.{figures_keep};

use crate::run::Run;
use tables::entry::Entry;
use tables::load::MAX_LOADS;
use tables::refusal::Refusal;
use tables::tables::StoredTables;

// What is stored: nothing, that no allowed set fits, or a plan.
pub const NOTHING: u8 = 0;

pub const NO_SET: u8 = 1;

pub const PLANNED: u8 = 2;

// What a search found, or what a planner keeps of its latest plan. Where it is no plan, the run is empty. The worth, the power and the number
// on are worked out from the set of the run. C hands in any bytes as a planner: so the status is a number, and `latest` is what others match on.
#[repr(C)]
#[derive(Clone, Copy, PartialEq, Eq)]
pub struct StoredOutcome {
    pub status: u8,
    pub run: Run,
}

// Is the number that of one of so many?
fn names(number: u8, count: usize) -> bool
    ensures { result ≡ between 1 count number }
{
    (1..=count).contains(&usize::from(number))
}

// What the figures of a run range over: so many loads, states, load rules and row rules.
#[derive(Clone, Copy, PartialEq, Eq)]
pub struct RunRange {
    pub loads: usize,
    pub states: usize,
    pub load_rules: usize,
    pub row_rules: usize,
}

impl RunRange {
    // That of the runs of these tables.
    pub fn of(t: StoredTables) -> RunRange
        ensures { result ≡ held_range t }
    {
        RunRange {
            loads: t.loads.count,
            states: usize::from(t.book.states),
            load_rules: t.book.load_rules.count,
            row_rules: t.book.row_rules.count,
        }
    }

    // The root has row rule 0, a later load one that is in the book.
    fn row_holds(self, load: u8, row: u8) -> bool
        ensures { result ≡ row_rule_in self.row_rules load row }
    {
        match load {
            0 => false,
            1 => row == 0,
            _ => names(row, self.row_rules),
        }
    }

    // Are the figures of an entry in range?
    #[tactic(auto, unfolding(crate::specs::Outcome::figures_in))]
    fn holds(self, e: Entry) -> bool
        ensures { result ≡ figures_in self e }
    {
        names(e.state, self.states)
            && names(e.rule, self.load_rules)
            && self.row_holds(e.number, e.row)
    }
}

impl Run {
    // Are the figures of the first n loads in range?
    fn figures_keep(&self, range: RunRange, n: usize) -> bool
        ensures { result ≡ figures_keep range self.now n }
    {
        n <= MAX_LOADS && (0..n).all(|i| range.holds(self.entry(i)))
    }
}

impl StoredOutcome {
    // No current plan.
    pub const NONE: StoredOutcome = StoredOutcome {
        status: NOTHING,
        run: Run::EMPTY,
    };

    // What a search found: the plan of its run, or that no allowed set fits.
    pub fn of(found: Option<Run>) -> StoredOutcome
        ensures { result ≡ stored_found found }
    {
        match found {
            Some(run) => StoredOutcome {
                status: PLANNED,
                run,
            },
            None => StoredOutcome {
                status: NO_SET,
                run: Run::EMPTY,
            },
        }
    }

    // The run of the latest plan; where there is none, the refusal that says why.
    pub fn latest(self) -> Result<Run, Refusal>
        ensures { result ≡ latest_by self.status self.run }
    {
        match self.status {
            NOTHING => Err(Refusal::NoPlan),
            NO_SET => Err(Refusal::NoneFits),
            _ => Ok(self.run),
        }
    }

    // How many places of the run are in use: one for each load, where there is a plan.
    fn used(self, loads: usize) -> usize
        ensures { result ≡ used_by loads self.status }
    {
        if PLANNED <= self.status { loads } else { 0 }
    }

    // Are its figures in range, and its unused places 0?
    #[tactic(auto, using(crate::proofs::Places::placed), unfolding(crate::specs::Outcome::keeps_outcome))]
    pub fn keeps_limits(self, range: RunRange) -> bool
        ensures { result ≡ keeps_outcome range self }
    {
        let used = self.used(range.loads);
        self.status <= PLANNED && self.run.free_from(used) && self.run.figures_keep(range, used)
    }
}
