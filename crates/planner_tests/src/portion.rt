// Portions of a plan, in a work that goes on from one to the next, and their report: n, the number, the counts of cells filled and of bytes written,
// the cells that were filled, and the rest as of a call.
use crate::memory::{UNTOUCHED_OUT, part, print_left};
use crate::script::Test;
use crate::text::{MOST_NUMBERS, numbers};
use std::io;
use std::io::Write;
use tables::refusal::number_in;

// The cells that were filled.
fn print_cells(report: &mut impl Write, cells: &[u32]) -> io::Result<()> {
    for cell in cells {
        write!(report, " {cell}")?;
    }
    Ok(())
}

impl<W: Write> Test<'_, W> {
    // A portion of at most so many cells.
    fn fill(&mut self, most: usize) -> io::Result<()> {
        let lent = self.lent;
        let mut out = UNTOUCHED_OUT;
        let mut work = self.work;
        let from = self.planner.filled as usize;
        let portion = self.planner.portion(
            most,
            &mut out[..lent.bytes],
            lent.place,
            &mut work[..lent.cells],
        );
        self.planner = portion.planner;
        self.work = work;
        let number = number_in(portion.told);
        let filled = portion.filled as usize;
        let count = portion.count;
        write!(self.report, "most {most} | {number} {filled} {count} |")?;
        print_cells(self.report, part(&work, from, filled))?;
        print_left(self.report, &out, &work, part(&out, lent.place, count))
    }

    // `most 100 1 ..`: portions of at most so many cells, each on what the one before left.
    pub(crate) fn fill_all(&mut self, rest: &[u8]) -> io::Result<()> {
        let mut room = [0; MOST_NUMBERS];
        for &most in numbers(rest, &mut room) {
            self.fill(most as usize)?;
        }
        Ok(())
    }
}
