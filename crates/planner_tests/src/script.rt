// A script: each line is one step. The head of tests/script.py lists the steps.
use crate::glass::Glass;
use crate::memory::{ALL_CELLS, Lent, ROOM, UNTOUCHED_WORK};
use crate::text::split_at_blank;
use planner::Planner;
use std::io;
use std::io::Write;

// The steps that do more than to be reported. The first letter of its word tells a step from the others.
#[derive(Clone, Copy)]
enum Step {
    Fresh,
    Lent,
    Told,
    Call,
    Judge,
    Page,
    Most,
    Steps,
    Other,
}

impl From<u8> for Step {
    fn from(letter: u8) -> Step {
        match letter {
            b'f' => Step::Fresh,
            b'l' => Step::Lent,
            b't' => Step::Told,
            b'c' => Step::Call,
            b'j' => Step::Judge,
            b'p' => Step::Page,
            b'm' => Step::Most,
            b's' => Step::Steps,
            _ => Step::Other,
        }
    }
}

// A script under way: the report, the planner that the steps so far left, what is lent to its calls, what the glass shows, and the work of its portions.
#[derive(Drop)]
pub struct Test<'a, W> {
    pub report: &'a mut W,
    pub planner: Planner,
    pub lent: Lent,
    pub glass: Glass,
    pub work: [u32; ALL_CELLS],
}

impl<W: Write> Test<'_, W> {
    // The planner, the glass and the work of portions begin anew.
    fn freshen(&mut self) {
        self.planner = Planner::fresh();
        self.glass = Glass::DARK;
        self.work = UNTOUCHED_WORK;
    }

    fn print_line(&mut self, line: &[u8]) -> io::Result<()> {
        self.report.write_all(line)?;
        self.report.write_all(b"\n")
    }

    // One step. An empty line is none.
    fn obey(&mut self, line: &[u8]) -> io::Result<()> {
        let Some(&letter) = line.first() else {
            return Ok(());
        };
        let (_, rest) = split_at_blank(line);
        match Step::from(letter) {
            Step::Fresh => {
                self.freshen();
                self.print_line(line)
            }
            Step::Lent => {
                self.lent = Lent::read(rest);
                self.print_line(line)
            }
            Step::Told => {
                self.print_line(line)?;
                self.tell_all(rest)
            }
            Step::Call => self.call_all(rest),
            Step::Judge => self.judge(line, rest),
            Step::Page => self.draw(line, rest),
            Step::Most => self.fill_all(rest),
            Step::Steps => self.switch_over(line, rest),
            Step::Other => self.print_line(line),
        }
    }
}

// Every step of a script, from a fresh planner on.
pub(crate) fn follow(report: &mut impl Write, script: &[u8]) -> io::Result<()> {
    let mut test = Test {
        report,
        planner: Planner::fresh(),
        lent: ROOM,
        glass: Glass::DARK,
        work: UNTOUCHED_WORK,
    };
    for line in script.split(|&byte| byte == b'\n') {
        test.obey(line)?;
    }
    Ok(())
}
