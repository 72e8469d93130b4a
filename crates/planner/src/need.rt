// The command `need`: how little supply would do.
ghost use Rattle.std.specs.Prelude.{◌≡◌};
ghost use Rattle.lines.specs.declared.Command.TheVariants as line;
ghost use Rattle.calls.specs.Rows.{row};
ghost use Rattle.planner.specs.Planner.{state_in, Lawful};
ghost use Rattle.planner.specs.Decided.{need_answer, unshown, Decides};

use crate::Planner;
use crate::search::{Decided, cells_of, unshown};
use lines::answer::Answer;
use tables::load::{MAX_LOADS, MAX_WORTH};
use tables::refusal::Refusal;

// No set of loads is worth more.
const MAX_NEED: usize = MAX_LOADS * (MAX_WORTH as usize);

impl Planner {
    // The least budget whose plan has that worth.
    fn needed(self, worth: u32, work: &mut [u32]) -> Result<u32, Refusal>
        requires { Lawful self }
        ensures { Decides (state_in self) (row (state_in self) (line.Need worth)) work.old work.new (unshown (need_answer result) self) }
    {
        let tables = self.tables;
        if tables.loads.count == 0 {
            return Err(Refusal::NoLoads);
        }
        if MAX_NEED < worth as usize {
            return Err(Refusal::OutOfRange);
        }
        if work.len() < cells_of(tables) {
            return Err(Refusal::TooFewCells);
        }
        engine::need::least_budget(tables, worth, work)
    }

    // What `need` is answered. It stores nothing.
    pub(crate) fn need(self, worth: u32, work: &mut [u32]) -> Decided
        requires { Lawful self }
        ensures { Decides (state_in self) (row (state_in self) (line.Need worth)) work.old work.new result }
    {
        let least = self.needed(worth, work);
        unshown(least.map(|budget| Answer::Needed { budget }), self)
    }
}
