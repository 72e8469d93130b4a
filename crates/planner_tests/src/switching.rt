// The steps from one set of loads to another, and their report: the step of the script, the number, the count, each load with its new mark, and how
// many places hold no step.
use crate::script::Test;
use crate::text::{number, split_at_blank};
use changeover::order::{Order, Step, order_of};
use std::io;
use std::io::Write;
use tables::refusal::number_in;

impl<W: Write> Test<'_, W> {
    // `steps 1110 1101 2`: the steps from one set to another, for a list of so many places.
    pub(crate) fn switch_over(&mut self, line: &[u8], rest: &[u8]) -> io::Result<()> {
        let (old, rest) = split_at_blank(rest);
        let (new, rest) = split_at_blank(rest);
        let places = number(rest).unwrap_or(0) as usize;
        let told = order_of(self.planner, old, new, places);
        let number = number_in(told);
        let order = told.unwrap_or(Order::EMPTY);
        self.report.write_all(line)?;
        let count = order.count;
        write!(self.report, " | {number} {count} |")?;
        for step in order.items.iter().take(count) {
            write!(self.report, " {},{}", step.load, step.mark)?;
        }
        let is_none = |step: &&Step| step.load == Step::NONE.load && step.mark == Step::NONE.mark;
        let unused = order.items.iter().filter(is_none).count();
        writeln!(self.report, " | {unused} places unused")
    }
}
