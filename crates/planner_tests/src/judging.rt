// The judge on a run, and one line of report: the step, and yes, no or the number of the refusal.
use crate::script::Test;
use crate::text::{MOST_NUMBERS, numbers};
use std::io;
use std::io::Write;

impl<W: Write> Test<'_, W> {
    // `judge 1 2 0 ..`: a run.
    pub(crate) fn judge(&mut self, line: &[u8], rest: &[u8]) -> io::Result<()> {
        let mut room = [0; MOST_NUMBERS];
        let verdict = self.planner.judge(numbers(rest, &mut room));
        self.report.write_all(line)?;
        match verdict {
            Ok(true) => self.report.write_all(b": yes\n"),
            Ok(false) => self.report.write_all(b": no\n"),
            Err(refusal) => writeln!(self.report, ": {}", u8::from(refusal)),
        }
    }
}
