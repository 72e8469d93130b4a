// Calls on lines, and their report: the line, its number and count, how many bytes and cells still hold what they held before, how many cells are 0, and
// the answer.
ghost use Rattle.std.specs.Prelude.{◌≡◌};

use crate::memory::{Lent, ROOM, UNTOUCHED_OUT, UNTOUCHED_WORK, part, print_left};
use crate::script::Test;
use crate::text::is_blank;
use planner::call::Called;
use std::io;
use std::io::Write;
use tables::refusal::number_in;

impl<W: Write> Test<'_, W> {
    // The call on a line, with as much lent as is said, and its report if it is to be reported.
    fn call<F: Fn(&Called) -> bool>(
        &mut self,
        line: &[u8],
        lent: Lent,
        is_reported: &F,
    ) -> io::Result<()>
        requires { F.IsAlwaysCallable is_reported.now }
    {
        let mut out = UNTOUCHED_OUT;
        let mut work = UNTOUCHED_WORK;
        let called = self.planner.call(
            line,
            &mut out[..lent.bytes],
            lent.place,
            &mut work[..lent.cells],
        );
        self.planner = called.planner;
        if is_reported(&called) {
            self.report.write_all(line)?;
            let number = number_in(called.told);
            let count = called.count;
            write!(self.report, " | {number} {count}")?;
            print_left(self.report, &out, &work, part(&out, lent.place, count))?;
        }
        Ok(())
    }

    // The lines are parted by blanks. Each is on the planner that the one before left.
    fn call_on_each<F: Fn(&Called) -> bool>(
        &mut self,
        lines: &[u8],
        lent: Lent,
        is_reported: F,
    ) -> io::Result<()>
        requires { F.IsAlwaysCallable is_reported }
    {
        for word in lines.split_inclusive(is_blank) {
            let line = word.strip_suffix(b" ").unwrap_or(word);
            self.call(line, lent, &is_reported)?;
        }
        Ok(())
    }

    // `call LINE LINE ..`: calls, each of which is reported.
    pub(crate) fn call_all(&mut self, lines: &[u8]) -> io::Result<()> {
        self.call_on_each(lines, self.lent, |_| true)
    }

    // `told LINE LINE ..`: calls with room enough, of which a refused one is reported.
    pub(crate) fn tell_all(&mut self, lines: &[u8]) -> io::Result<()> {
        self.call_on_each(lines, ROOM, |called| called.told.is_err())
    }
}
