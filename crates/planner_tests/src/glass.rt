// The handheld: a page is drawn, and what the glass does not show yet goes to the glass. Its report: the step, the number of the drawing, how
// many of its 200 bytes still hold what they held before, the stretch, and, where a page was drawn, the rows that the glass shows then.
use crate::memory::{RUBBISH_BYTE, count_of};
use crate::script::Test;
use crate::text::numbers;
use page::drawing::draw;
use page::stretch::{beginning, stretch};
use page::{PAGE_BYTES, ROW_BYTES};
use std::io;
use std::io::Write;
use tables::refusal::number_in;

// The length of what is drawn on, of which a part is lent: a script can lend no more.
const ALL_BYTES: usize = 200;

// The bytes on the glass.
#[derive(Clone, Copy)]
pub struct Glass {
    pub bytes: [u8; PAGE_BYTES],
}

impl Glass {
    // It shows nothing that a page shows.
    pub const DARK: Glass = Glass {
        bytes: [RUBBISH_BYTE; PAGE_BYTES],
    };

    // Takes a stretch, from a row on. An empty one changes nothing.
    fn take(&mut self, stretch: &[u8], row: usize) {
        let start = row.saturating_sub(1).saturating_mul(ROW_BYTES);
        for (old, new) in self.bytes.iter_mut().skip(start).zip(stretch) {
            *old = *new;
        }
    }

    // Its rows, each on a line of its own.
    fn print(&self, report: &mut impl Write) -> io::Result<()> {
        for row in self.bytes.chunks(ROW_BYTES) {
            report.write_all(row)?;
            report.write_all(b"\n")?;
        }
        Ok(())
    }
}

impl<W: Write> Test<'_, W> {
    // `page 1 160`: the page from load 1 on, drawn on 160 bytes.
    pub(crate) fn draw(&mut self, line: &[u8], rest: &[u8]) -> io::Result<()> {
        let mut found = [0; 2];
        numbers(rest, &mut found);
        let [load, size] = found;
        let mut bytes = [RUBBISH_BYTE; ALL_BYTES];
        let end = (size as usize).min(ALL_BYTES);
        let told = draw(self.planner, load as usize, &mut bytes[..end]);
        let number = number_in(told);
        let kept = count_of(&bytes, RUBBISH_BYTE);
        let page = &bytes[..end];
        let row = beginning(&self.glass.bytes, page);
        let stretch = stretch(&self.glass.bytes, page);
        let count = stretch.len();
        self.report.write_all(line)?;
        writeln!(
            self.report,
            " | {number} | {kept} bytes kept | row {row}, {count} bytes"
        )?;
        if told.is_ok() {
            self.glass.take(stretch, row);
            self.glass.print(self.report)?;
        }
        Ok(())
    }
}
