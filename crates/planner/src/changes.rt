// The commands that change the tables: methods that take the planner. What they tell comes to the answer and the next planner in `change`.
ghost use Rattle.std.specs.Prelude.{◌≡◌, ◌+◌, ◌≤◌};
ghost use Rattle.lines.specs.declared.Change.TheVariants as to;
ghost use Rattle.tables.specs.Limits.{between, max_loads};
ghost use Rattle.calls.specs.Rows.{rule, load, marking, adding, setting};
ghost use Rattle.planner.specs.Planner.{state_in, Lawful};
ghost use Rattle.tables.specs.Refusals.{numbered};
ghost use Rattle.planner.specs.Changes.{named_rule, named_load, told_by, told_for, ChangedBy};

use crate::Planner;
use lines::Change;
use lines::answer::Answer;
use runs::outcome::StoredOutcome;
use tables::limits::{MAX_BUDGET, MAX_STATES};
use tables::load::{Figure, Load, MAX_KIND, MAX_POWER, MAX_WORTH};
use tables::refusal::Refusal;
use tables::rule::{RuleRange, Sort, Transition};
use tables::tables::StoredTables;

// The answer to a change, and the next planner.
#[derive(Clone, Copy)]
pub struct Changed {
    pub answer: Result<Answer, Refusal>,
    pub planner: Planner,
}

// Is x from low to high?
pub(crate) fn between(low: usize, high: usize, x: usize) -> bool
    ensures { result ≡ between low high x }
{
    (low..=high).contains(&x)
}

// The rule that a line names, if its numbers are in their ranges.
#[tactic(auto, unfolding(crate::specs::Changes::named_rule, tables::specs::Limits::rule_in))]
fn named_rule(
    range: RuleRange,
    from: u32,
    label: u32,
    to: u32,
    kind: u32,
) -> Result<Transition, Refusal>
    ensures { result ≡ named_rule range (rule from label to kind) }
{
    let fits = between(1, usize::from(range.from), from as usize)
        && between(
            usize::from(range.low),
            usize::from(range.high),
            label as usize,
        )
        && between(1, usize::from(range.to), to as usize)
        && kind <= u32::from(range.kind);
    if !fits {
        return Err(Refusal::OutOfRange);
    }
    Ok(Transition {
        from: from as u8,
        label: label as u8,
        to: to as u8,
        kind: kind as u8,
    })
}

// The load that a line names, if its figures are in their ranges for the load of this number.
#[tactic(auto, using(tables::proofs::Places::parent_test), unfolding(crate::specs::Changes::named_load, tables::specs::Limits::load_in))]
fn named_load(
    number: usize,
    parent: u32,
    power: u32,
    worth: u32,
    kind: u32,
) -> Result<Load, Refusal>
    requires { number ≤ max_loads + 1 }
    ensures { result ≡ named_load number (load parent power worth kind) }
{
    let root = number == 1 && parent == 0;
    let child = (1..number).contains(&(parent as usize));
    let fits = (root || child)
        && power <= u32::from(MAX_POWER)
        && worth <= u32::from(MAX_WORTH)
        && kind <= u32::from(MAX_KIND);
    if !fits {
        return Err(Refusal::OutOfRange);
    }
    Ok(Load {
        parent: parent as u8,
        kind: kind as u8,
        power: power as u16,
        worth: worth as u16,
    })
}

// Each command takes the planner, and gives the next tables. (A whole planner for each would cost stack: `change` makes it once.)
impl Planner {
    fn clear(self) -> Result<StoredTables, Refusal>
        requires { Lawful self }
        ensures { numbered result ≡ told_for (state_in self) to.Clear }
    {
        Ok(StoredTables::fresh())
    }

    fn book(self, states: u32, stages: u32) -> Result<StoredTables, Refusal>
        requires { Lawful self }
        ensures { numbered result ≡ told_for (state_in self) (to.Book states stages) }
    {
        let most = usize::from(MAX_STATES);
        if !(between(1, most, states as usize) && between(1, most, stages as usize)) {
            return Err(Refusal::OutOfRange);
        }
        Ok(self.tables.new_book(states as u8, stages as u8))
    }

    // A state is marked as a start state, or a stage as an end stage.
    fn mark(self, sort: Sort, number: u32) -> Result<StoredTables, Refusal>
        requires { Lawful self }
        ensures { numbered result ≡ told_by (state_in self) (marking (state_in self).tables sort number) }
    {
        let size = self.tables.book.size(sort);
        if !between(1, usize::from(size), number as usize) {
            return Err(Refusal::OutOfRange);
        }
        Ok(self.tables.mark(sort, number as usize))
    }

    fn add_rule(
        self,
        sort: Sort,
        from: u32,
        label: u32,
        to: u32,
        kind: u32,
    ) -> Result<StoredTables, Refusal>
        requires { Lawful self }
        ensures { numbered result ≡ told_by (state_in self) (adding (state_in self).tables sort (rule from label to kind)) }
    {
        let range = RuleRange::of(sort, self.tables.book.states, self.tables.book.stages);
        let rule = named_rule(range, from, label, to, kind)?;
        self.tables.add_rule(sort, rule)
    }

    fn load(self, parent: u32, power: u32, worth: u32, kind: u32) -> Result<StoredTables, Refusal>
        requires { Lawful self }
        ensures { numbered result ≡ told_for (state_in self) (to.Load parent power worth kind) }
    {
        let load = named_load(self.tables.loads.count + 1, parent, power, worth, kind)?;
        self.tables.add_load(load)
    }

    fn set_figure(self, figure: Figure, number: u32, value: u32) -> Result<StoredTables, Refusal>
        requires { Lawful self }
        ensures { numbered result ≡ told_by (state_in self) (setting (state_in self).tables figure number value) }
    {
        let there = between(1, self.tables.loads.count, number as usize);
        if !(there && value <= u32::from(figure.most())) {
            return Err(Refusal::OutOfRange);
        }
        Ok(
            self.tables
                .set_figure(figure, number as usize, value as u16),
        )
    }

    fn budget(self, watts: u32) -> Result<StoredTables, Refusal>
        requires { Lawful self }
        ensures { numbered result ≡ told_for (state_in self) (to.Budget watts) }
    {
        if u32::from(MAX_BUDGET) < watts {
            return Err(Refusal::OutOfRange);
        }
        Ok(self.tables.set_budget(watts as u16))
    }

    // A load without children leaves.
    fn drop_load(self, number: u32) -> Result<StoredTables, Refusal>
        requires { Lawful self }
        ensures { numbered result ≡ told_for (state_in self) (to.Drop number) }
    {
        let k = number as usize;
        if !between(1, self.tables.loads.count, k) {
            return Err(Refusal::OutOfRange);
        }
        if self.tables.loads.has_children(k) {
            return Err(Refusal::HasChildren);
        }
        Ok(self.tables.drop_load(k))
    }

    // What a change tells.
    fn made(self, c: Change) -> Result<StoredTables, Refusal>
        requires { Lawful self }
        ensures { numbered result ≡ told_for (state_in self) c }
    {
        match c {
            Change::Clear => self.clear(),
            Change::Book(states, stages) => self.book(states, stages),
            Change::Start(state) => self.mark(Sort::Load, state),
            Change::End(stage) => self.mark(Sort::Row, stage),
            Change::Rule(state, mark, stage, kind) => {
                self.add_rule(Sort::Load, state, mark, stage, kind)
            }
            Change::Row(stage, state, next) => self.add_rule(Sort::Row, stage, state, next, 0),
            Change::Load(parent, power, worth, kind) => self.load(parent, power, worth, kind),
            Change::Power(number, watts) => self.set_figure(Figure::Power, number, watts),
            Change::Worth(number, worth) => self.set_figure(Figure::Worth, number, worth),
            Change::Budget(watts) => self.budget(watts),
            Change::Drop(number) => self.drop_load(number),
        }
    }

    // What a change answers, and the next planner. An accepted one wipes the outcome, and starts the filling over.
    pub(crate) fn change(self, c: Change) -> Changed
        requires { Lawful self }
        ensures { ChangedBy (state_in self) c result }
    {
        match self.made(c) {
            Ok(tables) => Changed {
                answer: Ok(Answer::Accepted),
                planner: Planner {
                    tables,
                    outcome: StoredOutcome::NONE,
                    filled: 0,
                },
            },
            Err(refusal) => Changed {
                answer: Err(refusal),
                planner: self,
            },
        }
    }
}
