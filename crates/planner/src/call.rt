// A call on a line.
ghost use Rattle.std.specs.Prelude.{◌≡◌};
ghost use Rattle.lines.specs.Saved.{loses};
ghost use Rattle.tables.specs.Refusals.{number_in};
ghost use Rattle.calls.specs.Rows.{row};
ghost use Rattle.calls.specs.Calls.{called};
ghost use Rattle.calls.specs.Demand1.{bytes_for};
ghost use Rattle.planner.specs.Planner.{held, state_in, Lawful};
ghost use Rattle.planner.specs.Decided.{save_answer, unshown, Decides};
ghost use Rattle.planner.specs.Calls.{call_of, done_of, turned_away};

use crate::Planner;
use crate::answers::write_answer;
use crate::changes::Changed;
use crate::search::{Decided, unshown};
use lines::answer::Answer;
use lines::reading::read;
use lines::{Command, SaveForm};
use tables::refusal::Refusal;

// "1,024 bytes must be free from there."
pub const FREE_BYTES: usize = 1024;

// "`plan`, `last` and `check` need 2,048 free bytes, saves 4,096".
pub const RUN_BYTES: usize = 2048;

pub const SAVE_BYTES: usize = 4096;

// What a call returns: the next planner, whether the line was accepted, and the count of bytes written.
#[derive(Clone, Copy)]
pub struct Called {
    pub planner: Planner,
    pub told: Result<(), Refusal>,
    pub count: usize,
}

// The bytes that must be free for the answer to a command.
fn bytes_for(c: Command) -> usize
    ensures { result ≡ bytes_for c }
{
    match c {
        Command::Plan | Command::Check { .. } | Command::Last => RUN_BYTES,
        Command::Save(_) => SAVE_BYTES,
        Command::Change(_) | Command::Need(_) | Command::Broken | Command::TooLong => FREE_BYTES,
    }
}

// Would a save in this form lose a kind, where some are in use?
fn loses(form: SaveForm, in_use: bool) -> bool
    ensures { result ≡ loses form in_use }
{
    match form {
        SaveForm::Kinds => false,
        SaveForm::Plain => in_use,
    }
}

// What a save in this form is answered, where kinds are in use or not. It changes nothing.
fn save_answer(form: SaveForm, in_use: bool) -> Result<Answer, Refusal>
    ensures { result ≡ save_answer form in_use }
{
    if loses(form, in_use) {
        return Err(Refusal::KindsInUse);
    }
    Ok(Answer::Saved { form })
}

// Was a line accepted? What it was answered besides does not count.
pub(crate) fn told(answer: Result<Answer, Refusal>) -> Result<(), Refusal>
    ensures { number_in result ≡ number_in answer }
{
    answer.map(|_| ())
}

// A change shows no run.
fn changed(c: Changed) -> Decided
    ensures { result ≡ unshown c.answer c.planner }
{
    unshown(c.answer, c.planner)
}

impl Planner {
    // What a command answers.
    fn decide(self, c: Command, work: &mut [u32]) -> Decided
        requires { Lawful self }
        ensures { Decides (state_in self) (row (state_in self) c) work.old work.new result }
    {
        match c {
            Command::Change(change) => changed(self.change(change)),
            Command::Plan => self.plan(work),
            Command::Check { set, count } => self.check(set, count),
            Command::Save(form) => unshown(save_answer(form, self.tables.has_kinds()), self),
            Command::Last => self.last(),
            Command::Need(worth) => self.need(worth, work),
            Command::Broken => self.refused(Refusal::Broken),
            Command::TooLong => self.refused(Refusal::TooLong),
        }
    }

    // Nothing is written, and everything is left as it was.
    fn turned_away(self) -> Called
        ensures { result ≡ turned_away self }
    {
        Called {
            planner: self,
            told: Err(Refusal::Unusable),
            count: 0,
        }
    }

    // A line handed to a planner: the answer is written from a place in the output on, and `plan` and `need` work in the lent
    // cells.
    pub fn call(self, line: &[u8], out: &mut [u8], place: usize, work: &mut [u32]) -> Called
        ensures { done_of result out.new work.new ≡ called (held self) (call_of line.now out.old place work.old) }
    {
        if !self.keeps_limits() {
            return self.turned_away();
        }
        if out.len() < place {
            return self.turned_away();
        }
        let command = read(line);
        if out.len() - place < bytes_for(command) {
            return self.turned_away();
        }
        let d = self.decide(command, work);
        let count = write_answer(&mut out[place..], d.answer, d.run, self.tables);
        Called {
            planner: d.planner,
            told: told(d.answer),
            count,
        }
    }
}
