// Writing answers into the free part of the lent output, which the caller lends on.
ghost use Rattle.std.specs.Prelude.{[], ◌∷◌, ◌++◌};
ghost use Rattle.tables.specs.Refusals.{number_of};
ghost use Rattle.lines.specs.Text.{line_feed, decimal};
ghost use Rattle.lines.specs.Written.{line};
ghost use Rattle.lines.specs.Answers.{ok, yes, refused, plan_line, need_line, entry_line};
ghost use Rattle.lines.specs.Writing.{HasRoom, Writes};

use crate::{COMMA, LINE_FEED, NOUGHT};
use tables::entry::Entry;
use tables::refusal::Refusal;

// The free part, and the place in it where the next byte is written. All other bytes keep their values.
#[derive(Drop)]
pub struct Writer<'a> {
    pub out: &'a mut [u8],
    pub at: usize,
}

impl Writer<'_> {
    // One byte.
    pub fn put(&mut self, b: u8)
        requires { HasRoom self.old (b ∷ []) }
        ensures { Writes self.old self.new (b ∷ []) }
    {
        self.out[self.at] = b;
        self.at += 1;
    }

    // A text.
    pub fn put_text(&mut self, text: &[u8])
        requires { HasRoom self.old text.now }
        ensures { Writes self.old self.new text.now }
    {
        let end = self.at + text.len();
        self.out[self.at..end].copy_from_slice(text);
        self.at = end;
    }

    // A number in decimal. It calls itself once for each digit but the last.
    fn put_decimal(&mut self, n: u32)
        requires { HasRoom self.old (decimal n) }
        ensures { Writes self.old self.new (decimal n) }
    {
        if n < 10 {
            return self.put(NOUGHT + (n as u8));
        }
        self.put_decimal(n / 10);
        self.put(NOUGHT + ((n % 10) as u8));
    }

    // Numbers, with a comma before each.
    fn put_numbers(&mut self, numbers: &[u32])
        requires { HasRoom self.old (line [] numbers.now) }
        ensures { Writes self.old self.new (line [] numbers.now) }
    {
        for n in numbers {
            self.put(COMMA);
            self.put_decimal(*n);
        }
    }

    // The last numbers of a line, and its end.
    fn end_line(&mut self, numbers: &[u32])
        requires { HasRoom self.old (line [] numbers.now ++ (line_feed ∷ [])) }
        ensures { Writes self.old self.new (line [] numbers.now ++ (line_feed ∷ [])) }
    {
        self.put_numbers(numbers);
        self.put(LINE_FEED);
    }

    // A word and numbers, in a line of their own.
    pub(crate) fn write_line(&mut self, word: &[u8], numbers: &[u32])
        requires { HasRoom self.old (line word.now numbers.now ++ (line_feed ∷ [])) }
        ensures { Writes self.old self.new (line word.now numbers.now ++ (line_feed ∷ [])) }
    {
        self.put_text(word);
        self.end_line(numbers);
    }
}

#[tactic(auto, unfolding(crate::specs::Written::parted, crate::specs::Answers::need_line, crate::specs::Answers::refused, crate::specs::Text::field))]
impl Writer<'_> {
    // The answer to an accepted change.
    pub fn write_ok(&mut self)
        requires { HasRoom self.old ok }
        ensures { Writes self.old self.new ok }
    {
        self.write_line(b"ok", &[]);
    }

    // The first line of the answer to an allowed check.
    pub fn write_yes(&mut self)
        requires { HasRoom self.old yes }
        ensures { Writes self.old self.new yes }
    {
        self.write_line(b"yes", &[]);
    }

    // A refusal, by its number.
    pub fn write_no(&mut self, refusal: Refusal)
        requires { HasRoom self.old (refused (number_of refusal)) }
        ensures { Writes self.old self.new (refused (number_of refusal)) }
    {
        self.write_line(b"no", &[u32::from(refusal)]);
    }

    // The first line of a plan: worth, power and the number of loads on.
    pub fn write_plan(&mut self, worth: u32, power: u32, n: u32)
        requires { HasRoom self.old (plan_line worth power n) }
        ensures { Writes self.old self.new (plan_line worth power n) }
    {
        self.write_line(b"plan", &[worth, power, n]);
    }

    // The answer to a need: the least budget.
    pub fn write_need(&mut self, budget: u32)
        requires { HasRoom self.old (need_line budget) }
        ensures { Writes self.old self.new (need_line budget) }
    {
        self.write_line(b"need", &[budget]);
    }

    // The line of one load.
    pub fn write_entry(&mut self, e: Entry)
        requires { HasRoom self.old (entry_line e) }
        ensures { Writes self.old self.new (entry_line e) }
    {
        self.put_decimal(u32::from(e.number));
        self.end_line(&[
            u32::from(e.mark),
            u32::from(e.state),
            u32::from(e.rule),
            u32::from(e.row),
        ]);
    }
}
