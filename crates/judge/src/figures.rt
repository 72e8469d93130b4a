// What the walk needs of each load, looked up once: its parent, and the numbers of a run turned into stages.
// The walk is lent these steps in one list, so that no call in it copies the book or the loads, or hands on more than one reference: it may
// be two calls deep for each load, and book and loads are more than 1,000 bytes.
ghost use Rattle.std.specs.Prelude.{◌*◌, ◌≤◌, ◌≡◌, true, length, take};
ghost use Rattle.lists.specs.Argmax.{guard};
ghost use Rattle.tables.specs.Limits.{max_rules};
ghost use Rattle.tables.specs.Stored.{rules_of, tables_of, keeps_limits};
ghost use Rattle.meaning.specs.Runs.{rule};
ghost use Rattle.judge.specs.Verdict.{proposed};
ghost use Rattle.judge.specs.Figures.{step_of, LookedUp};

use tables::load::{Load, MAX_LOADS};
use tables::rule::{Transition, TransitionList};
use tables::tables::{StoredBook, StoredTables};

// Of one load: the stage at which the row of its children begins, the stage at which its row rule begins, the stage at which its row goes on,
// and its parent. A stage is 0 where the rule names nothing or does not fit the load's state, or its kind.
#[derive(Clone, Copy)]
pub struct Step {
    pub begin: u8,
    pub stage: u8,
    pub next: u8,
    pub parent: u8,
}

impl Step {
    // What an unused place holds.
    const NONE: Step = Step {
        begin: 0,
        stage: 0,
        next: 0,
        parent: 0,
    };
}

// The rule with number n, counted from 1. A number that names nothing gives the rule of zeros.
fn rule_at(rules: &TransitionList, n: u32) -> Transition
    requires { rules.now.count ≤ max_rules }
    ensures { result ≡ rule (rules_of rules.now) n }
{
    let number = n as usize;
    if !(1..=rules.count).contains(&number) {
        return Transition::NONE;
    }
    rules.items[number - 1]
}

// The stage x where the test passes, else none.
fn only(test: bool, x: u8) -> u8
    ensures { result ≡ guard test x }
{
    if test { x } else { 0 }
}

// The step of a load with these three numbers.
#[tactic(auto, unfolding(crate::specs::Figures::step_of))]
fn step_of(book: &StoredBook, load: Load, state: u32, load_rule: u32, row_rule: u32) -> Step
    requires { (book.now.load_rules.count ≤ max_rules) × (book.now.row_rules.count ≤ max_rules) }
    ensures { result ≡ step_of (rules_of book.now.load_rules) (rules_of book.now.row_rules) load (record { state = state; load_rule = load_rule; row_rule = row_rule }) }
{
    let l = rule_at(&book.load_rules, load_rule);
    let r = rule_at(&book.row_rules, row_rule);
    Step {
        begin: only(u32::from(l.from) == state && l.kind == load.kind, l.to),
        stage: only(u32::from(r.label) == state, r.from),
        next: r.to,
        parent: load.parent,
    }
}

// The steps of the loads, by the numbers that the run gives them. The first places are in use, one for each load.
pub(crate) fn look_up(t: StoredTables, run: &[u32]) -> [Step; MAX_LOADS]
    requires { (keeps_limits t ≡ true) × (length run.now ≡ 3 * t.loads.count) }
    ensures { LookedUp (tables_of t) (proposed run.now) t.book.ends (take t.loads.count result) }
{
    let mut steps = [Step::NONE; MAX_LOADS];
    // The index is a place in three lists, of which one has three numbers for each load.
    for i in 0..t.loads.count {
        let at = 3 * i;
        steps[i] = step_of(&t.book, t.loads.items[i], run[at], run[at + 1], run[at + 2]);
    }
    steps
}
