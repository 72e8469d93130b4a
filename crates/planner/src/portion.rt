// A plan by portions: a call fills some of its cells, and the call after the last of them gives the answer.
ghost use Rattle.std.specs.Prelude.{◌≡◌, ◌+◌, ◌≤◌, ◌<◌, length};
ghost use Rattle.lines.specs.Answers.{run_bytes};
ghost use Rattle.tables.specs.Refusals.{number_in};
ghost use Rattle.tables.specs.Stored.{tables_of};
ghost use Rattle.meaning.specs.Cells.{cells_of};
ghost use Rattle.calls.specs.Causes.{lowest};
ghost use Rattle.calls.specs.Portions.{plan_call, portion_causes, Portions};
ghost use Rattle.planner.specs.Planner.{held, state_in, Lawful};
ghost use Rattle.planner.specs.Portions.{portion_of, portion_done, with_filled, refused_by, Answered};

use crate::Planner;
use crate::answers::write_answer;
use crate::call::{RUN_BYTES, told};
use crate::changes::between;
use crate::search::{cells_of, plan_answer};
use tables::refusal::Refusal;

// "n from 1 to 16,384".
pub const MOST_PORTION: usize = 16384;

// What a portion returns: the next planner, whether it was accepted, and the counts of cells filled and of bytes written.
#[derive(Clone, Copy)]
pub struct Portion {
    pub planner: Planner,
    pub told: Result<(), Refusal>,
    pub filled: u32,
    pub count: usize,
}

impl Planner {
    // The planner with so many cells filled.
    fn with_filled(self, n: usize) -> Planner
        requires { n < 4294967296 }
        ensures { result ≡ with_filled self n }
    {
        Planner {
            filled: n as u32,
            ..self
        }
    }

    // Nothing is written or filled, and everything is left as it was.
    fn portion_refused(self, refusal: Refusal) -> Portion
        ensures { result ≡ refused_by self refusal }
    {
        Portion {
            planner: self,
            told: Err(refusal),
            filled: 0,
            count: 0,
        }
    }

    // What refuses a portion of at most n cells, with so many bytes of output from the place on, and so many cells of work.
    fn portion_refusal(
        self,
        n: usize,
        room: usize,
        place: usize,
        cells: usize,
    ) -> Result<(), Refusal>
        requires { Lawful self }
        ensures { number_in result ≡ lowest (portion_causes (state_in self) n room place cells) }
    {
        if room < place {
            return Err(Refusal::Unusable);
        }
        if room - place < RUN_BYTES {
            return Err(Refusal::Unusable);
        }
        if self.tables.loads.count == 0 {
            return Err(Refusal::NoLoads);
        }
        if !between(1, MOST_PORTION, n) {
            return Err(Refusal::OutOfRange);
        }
        if cells < cells_of(self.tables) {
            return Err(Refusal::TooFewCells);
        }
        Ok(())
    }

    // The answer, when every cell is filled: that of the plan. It is not stored.
    fn portion_answer(self, out: &mut [u8], place: usize, work: &mut [u32]) -> Portion
        requires lawful { Lawful self × (0 < self.tables.loads.count) }
        requires run_bytes_in_bounds { (place + run_bytes ≤ length out.old) × (cells_of (tables_of self.tables) ≤ length work.old) }
        ensures { Answered self (plan_call (portion_of 0 out.old place work.old)) result out.new work.new }
    {
        let tables = self.tables;
        let found = engine::portion::read_all(tables, work);
        let answer = plan_answer(tables.loads, found);
        let count = write_answer(&mut out[place..], answer, found, tables);
        Portion {
            planner: self.with_filled(0),
            told: told(answer),
            filled: 0,
            count,
        }
    }

    // At most n cells of the next plan are filled, from the first that is open on, in the lent work; where none is open, the answer is written from a place
    // in the output on.
    pub fn portion(self, n: usize, out: &mut [u8], place: usize, work: &mut [u32]) -> Portion
        ensures { Portions (held self) (portion_of n out.old place work.old) (portion_done result out.new work.new) }
    {
        if !self.keeps_limits() {
            return self.portion_refused(Refusal::Unusable);
        }
        if let Err(refusal) = self.portion_refusal(n, out.len(), place, work.len()) {
            return self.portion_refused(refusal);
        }
        let from = self.filled as usize;
        let cells = cells_of(self.tables);
        if cells <= from {
            return self.portion_answer(out, place, work);
        }
        let count = n.min(cells - from);
        engine::portion::fill_part(self.tables, work, from, from + count);
        Portion {
            planner: self.with_filled(from + count),
            told: Ok(()),
            filled: count as u32,
            count: 0,
        }
    }
}
