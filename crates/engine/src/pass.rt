// The pass over the loads in number order that reads the run back from the filled cells.
ghost use Rattle.std.specs.Prelude.{◌≡◌, ◌≤◌, ◌<◌};
ghost use Rattle.tables.specs.Limits.{max_loads};
ghost use Rattle.meaning.specs.Cell.{power_limit};
ghost use Rattle.engine.specs.Pass.{entered, passed_load, within, PassedOn, Traced};

use crate::choice::Choice;
use crate::filled::Filled;
use runs::run::Run;
use tables::entry::Entry;
use tables::load::MAX_LOADS;

// The stage and the allowance at which a row is entered.
#[derive(Clone, Copy)]
pub struct Entrance {
    pub stage: u8,
    pub left: u16,
}

// The run of the loads that were passed, and where the row from each load onward is entered. That of a load that no row was led to yet means nothing.
#[derive(Clone, Copy)]
pub struct Pass {
    pub run: Run,
    pub rows: [Entrance; MAX_LOADS],
}

impl Pass {
    pub const START: Pass = Pass {
        run: Run::EMPTY,
        rows: [Entrance { stage: 0, left: 0 }; MAX_LOADS],
    };

    // The row that follows a choice is entered. Load 0 stands for no load, as in the outline.
    fn entering(self, c: Choice) -> Pass
        requires { (c.rest ≤ max_loads) × (c.left < power_limit) }
        ensures { result ≡ entered self c }
    {
        if c.rest == 0 {
            return self;
        }
        let mut next = self;
        next.rows[c.rest - 1] = Entrance {
            stage: c.stage,
            left: c.left as u16,
        };
        next
    }

    // Load k is passed: what was chosen for it goes into the run, and the row below it is entered.
    fn with(self, k: usize, row: u8, state: u8, c: Choice) -> Pass
        requires { (0 < k) × (k ≤ max_loads) × (c.rest ≤ max_loads) × (c.left < power_limit) }
        ensures { result ≡ passed_load self k row state c }
    {
        let mut next = self.entering(c);
        next.run = self.run.with(Entry {
            number: k as u8,
            mark: c.label,
            state,
            rule: c.rule,
            row,
        });
        next
    }
}

// A number from 1 to high, less 1.
fn within(x: u8, high: usize) -> Option<usize>
    ensures { result ≡ within x high }
{
    let number = usize::from(x);
    if 1 <= number && number <= high {
        return Some(number - 1);
    }
    None
}

impl<'a> Filled<'a> {
    // Load n + 1 is passed. Where its row is entered and the cells hold what they are to hold, it is passed as the definitions choose; else somehow,
    // or not at all.
    fn pass_next(&self, s: Pass, n: usize) -> Option<Pass>
        requires { n < self.now.shape.loads }
        ensures { PassedOn self.now.shape self.now.outline.now self.now.cells.now n s result }
    {
        let sh = self.shape;
        let entrance = s.rows[n];
        let stage = within(entrance.stage, sh.stages)?;
        let left = usize::from(entrance.left).min(sh.budget);
        let r = self.choose(n + 1, sh.states + stage, left)?;
        let state = within(r.label, sh.states)?;
        let share = r.share.min(sh.budget);
        let c = self.choose(n + 1, state, share)?;
        let later = s.entering(r);
        Some(later.with(n + 1, r.rule, r.label, c))
    }

    // Reads the run back: none where no start state is possible. Whatever the cells hold, it ends.
    pub(crate) fn trace(&self) -> Option<Run>
        ensures { Traced self.now.shape self.now.outline.now self.now.cells.now result }
    {
        let budget = self.shape.budget;
        let b = self.best_start(budget);
        if b.value == 0 {
            return None;
        }
        let root = self.choose(1, b.index, budget)?;
        let mut s = Pass::START.with(1, 0, (b.index + 1) as u8, root);
        for i in 1..self.shape.loads {
            s = self.pass_next(s, i)?;
        }
        Some(s.run)
    }
}
