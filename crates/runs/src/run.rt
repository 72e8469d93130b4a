// A run with the set of its loads.
ghost use Rattle.std.specs.Prelude.{◌≡◌, ◌≤◌, ◌<◌};
ghost use Rattle.marks.specs.Sets.{mark_in};
ghost use Rattle.tables.specs.Limits.{max_loads};
ghost use Rattle.runs.specs.Runs.{entry_at, with_entry};
ghost use Rattle.runs.specs.Outcome.{zero_from, run_free};

use marks::LoadSet;
use tables::entry::Entry;
use tables::load::MAX_LOADS;

// A state, a load rule and a row rule for each load, in load order, and the loads that are on. Unused places hold 0. C has the planner's layout: so
// they lie in columns, and `entry` and `with` have them load by load.
#[repr(C)]
#[derive(Clone, Copy, PartialEq, Eq)]
pub struct Run {
    pub states: [u8; MAX_LOADS],
    pub load_rules: [u8; MAX_LOADS],
    pub row_rules: [u8; MAX_LOADS],
    pub set: LoadSet,
}

// The mark of a load in a set.
fn mark_in(set: LoadSet, number: usize) -> u8
    ensures { result ≡ mark_in set number }
{
    u8::from(set.has(number))
}

// Do all places of a column from place n on hold 0? Without branches many of them are looked at at once.
fn zero_from(column: &[u8; MAX_LOADS], n: usize) -> bool
    ensures { result ≡ zero_from n column.now }
{
    column[n.min(MAX_LOADS)..]
        .iter()
        .fold(true, |zero, number| zero & (*number == 0))
}

impl Run {
    pub const EMPTY: Run = Run {
        states: [0; MAX_LOADS],
        load_rules: [0; MAX_LOADS],
        row_rules: [0; MAX_LOADS],
        set: LoadSet::EMPTY,
    };

    // The entry of the load at place i.
    pub fn entry(&self, i: usize) -> Entry
        requires { i < max_loads }
        ensures { result ≡ entry_at self.now i }
    {
        Entry {
            number: (i + 1) as u8,
            mark: mark_in(self.set, i + 1),
            state: self.states[i],
            rule: self.load_rules[i],
            row: self.row_rules[i],
        }
    }

    // Do all places from place n on hold 0, and is no load past the n-th on?
    #[tactic(auto, unfolding(crate::specs::Outcome::run_free))]
    pub(crate) fn free_from(self, n: usize) -> bool
        ensures { result ≡ run_free n self }
    {
        zero_from(&self.states, n)
            && zero_from(&self.load_rules, n)
            && zero_from(&self.row_rules, n)
            && self.set.up_to(n)
    }

    // The run with the line of a load.
    #[tactic(auto, unfolding(crate::specs::Runs::with_entry))]
    pub fn with(self, e: Entry) -> Run
        requires { (0 < e.number) × (e.number ≤ max_loads) }
        ensures { result ≡ with_entry self e }
    {
        let number = usize::from(e.number);
        let at = number - 1;
        let mut next = self;
        next.states[at] = e.state;
        next.load_rules[at] = e.rule;
        next.row_rules[at] = e.row;
        if e.mark == 1 {
            next.set = next.set.with(number);
        }
        next
    }
}
