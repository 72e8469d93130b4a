// The commands that show a run: `plan` and `check`, which search, and `last`.
ghost use Rattle.std.specs.Prelude.{◌≡◌, ◌≤◌, Err};
ghost use Rattle.lines.specs.declared.Command.TheVariants as line;
ghost use Rattle.tables.specs.Limits.{max_loads};
ghost use Rattle.tables.specs.Stored.{tables_of, Holds};
ghost use Rattle.meaning.specs.Cells.{cells_of};
ghost use Rattle.calls.specs.Rows.{row};
ghost use Rattle.planner.specs.Planner.{state_in, Lawful};
ghost use Rattle.planner.specs.Decided.{plan_answer, unshown, allowed, decision, decided, Decides};

use crate::Planner;
use engine::figures::figures_of;
use lines::answer::Answer;
use marks::LoadSet;
use runs::outcome::StoredOutcome;
use runs::run::Run;
use tables::load::LoadList;
use tables::refusal::Refusal;
use tables::tables::StoredTables;

// The answer to a line, the run that it shows, and the next planner.
#[derive(Clone, Copy)]
pub struct Decided {
    pub answer: Result<Answer, Refusal>,
    pub run: Option<Run>,
    pub planner: Planner,
}

// An answer that shows no run.
pub(crate) fn unshown(answer: Result<Answer, Refusal>, planner: Planner) -> Decided
    ensures { result ≡ unshown answer planner }
{
    Decided {
        answer,
        run: None,
        planner,
    }
}

// How many cells a plan needs.
pub(crate) fn cells_of(tables: StoredTables) -> usize
    requires { Holds max_loads tables }
    ensures { result ≡ cells_of (tables_of tables) }
{
    let across = usize::from(tables.book.states) + usize::from(tables.book.stages);
    tables.loads.count * across * (usize::from(tables.budget) + 1)
}

// What a plan is answered that found this run, or none: with the figures of its set.
#[tactic(auto, unfolding(crate::specs::Decided::plan_answer))]
pub(crate) fn plan_answer(loads: LoadList, found: Option<Run>) -> Result<Answer, Refusal>
    requires { loads.count ≤ max_loads }
    ensures { result ≡ plan_answer loads found }
{
    let run = found.ok_or(Refusal::NoneFits)?;
    let set = run.set;
    let figures = figures_of(loads, set);
    Ok(Answer::Planned {
        worth: figures.worth,
        power: figures.power,
        on: set.count(),
    })
}

impl Planner {
    pub(crate) fn refused(self, refusal: Refusal) -> Decided
        ensures { result ≡ unshown (Err refusal) self }
    {
        unshown(Err(refusal), self)
    }

    // The latest outcome is shown, with the figures of its set.
    pub(crate) fn last(self) -> Decided
        requires { Lawful self }
        ensures { decision result ≡ decided (state_in self) 0 (row (state_in self) line.Last) }
    {
        match self.outcome.latest() {
            Ok(run) => Decided {
                answer: plan_answer(self.tables.loads, Some(run)),
                run: Some(run),
                planner: self,
            },
            Err(missing) => self.refused(missing),
        }
    }

    // A plan stores its outcome, and shows it as `last` does.
    pub(crate) fn plan(self, work: &mut [u32]) -> Decided
        requires { Lawful self }
        ensures { Decides (state_in self) (row (state_in self) line.Plan) work.old work.new result }
    {
        let tables = self.tables;
        if tables.loads.count == 0 {
            return self.refused(Refusal::NoLoads);
        }
        if work.len() < cells_of(tables) {
            return self.refused(Refusal::TooFewCells);
        }
        let outcome = StoredOutcome::of(engine::plan::plan(tables, work));
        Planner { outcome, ..self }.last()
    }

    // The run of a set that is allowed.
    fn checked(self, set: LoadSet, count: usize) -> Result<Run, Refusal>
        requires { Lawful self }
        ensures { decision (allowed self result) ≡ decided (state_in self) 0 (row (state_in self) (line.Check set count)) }
    {
        let tables = self.tables;
        if tables.loads.count == 0 {
            return Err(Refusal::NoLoads);
        }
        if count != tables.loads.count {
            return Err(Refusal::OutOfRange);
        }
        engine::plan::check(tables, set).ok_or(Refusal::NotAllowed)
    }

    pub(crate) fn check(self, set: LoadSet, count: usize) -> Decided
        requires { Lawful self }
        ensures { decision result ≡ decided (state_in self) 0 (row (state_in self) (line.Check set count)) }
    {
        match self.checked(set, count) {
            Ok(run) => Decided {
                answer: Ok(Answer::Allowed),
                run: Some(run),
                planner: self,
            },
            Err(refusal) => self.refused(refusal),
        }
    }
}
