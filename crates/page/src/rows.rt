// Writing the rows of a page.
ghost use Rattle.std.specs.Prelude.{◌≡◌, ◌+◌, ◌*◌, ◌-◌, ◌%◌, ◌≤◌, ◌<◌, length, replicate};
ghost use Rattle.lists.specs.Argmax.{guard};
ghost use Rattle.marks.specs.Sets.{mark_in};
ghost use Rattle.lines.specs.Text.{nought};
ghost use Rattle.lines.specs.Writing.{HasRoom, Writes};
ghost use Rattle.tables.specs.Limits.{max_loads};
ghost use Rattle.tables.specs.Stored.{loads_of};
ghost use Rattle.page.specs.Rows.{row_bytes, load_row_count, blank, digits, watts, on_off, plan_row, no_plan_row, load_row, row_of, load_rows};

use crate::{ROW_BYTES, ROW_COUNT};
use lines::NOUGHT;
use lines::writing::Writer;
use marks::LoadSet;
use tables::load::LoadList;

const BLANK: u8 = b' ';

// The digits of a worth, of a power and of a load's number.
const WORTH_DIGITS: usize = 6;

const POWER_DIGITS: usize = 3;

const NUMBER_DIGITS: usize = 3;

// The rows behind row one.
const LOAD_ROW_COUNT: usize = ROW_COUNT - 1;

// The byte of the lowest digit of a number.
fn lowest_digit(n: u32) -> u8
    ensures { result ≡ nought + n % 10 }
{
    NOUGHT + ((n % 10) as u8)
}

// The lowest digits of a number, so many, with zeros in front. It calls itself once for each digit.
fn put_digits(w: &mut Writer, count: usize, n: u32)
    requires { HasRoom w.old (digits count n) }
    ensures { Writes w.old w.new (digits count n) }
{
    if 0 < count {
        put_digits(w, count - 1, n / 10);
        w.put(lowest_digit(n));
    }
}

// Blanks up to a place.
pub(crate) fn put_blanks(w: &mut Writer, end: usize)
    requires { (w.old.at ≤ end) × (end ≤ length w.old.out.now) }
    ensures { Writes w.old w.new (replicate (end - w.old.at) blank) }
{
    w.out[w.at..end].fill(BLANK);
    w.at = end;
}

// A power, with the blank before it.
fn put_watts(w: &mut Writer, power: u32)
    requires { HasRoom w.old (watts power) }
    ensures { Writes w.old w.new (watts power) }
{
    w.put(BLANK);
    put_digits(w, POWER_DIGITS, power);
    w.put_text(b"W");
}

// Row one of a plan.
pub(crate) fn put_plan(w: &mut Writer, worth: u32, power: u32)
    requires { HasRoom w.old (plan_row worth power) }
    ensures { Writes w.old w.new (plan_row worth power) }
{
    let end = w.at + ROW_BYTES;
    w.put_text(b"worth ");
    put_digits(w, WORTH_DIGITS, worth);
    put_watts(w, power);
    put_blanks(w, end);
}

// Row one after refusal 9.
pub(crate) fn put_no_plan(w: &mut Writer)
    requires { HasRoom w.old no_plan_row }
    ensures { Writes w.old w.new no_plan_row }
{
    let end = w.at + ROW_BYTES;
    w.put_text(b"no plan");
    put_blanks(w, end);
}

// The mark of a load, in a word.
fn put_mark(w: &mut Writer, on: bool)
    requires { HasRoom w.old (on_off (guard on 1)) }
    ensures { Writes w.old w.new (on_off (guard on 1)) }
{
    if on {
        w.put_text(b"on ");
    } else {
        w.put_text(b"off");
    }
}

// The row of a load.
fn put_load(w: &mut Writer, number: usize, on: bool, power: u16)
    requires { HasRoom w.old (load_row number (guard on 1) power) × (number ≤ max_loads) }
    ensures { Writes w.old w.new (load_row number (guard on 1) power) }
{
    let end = w.at + ROW_BYTES;
    put_digits(w, NUMBER_DIGITS, number as u32);
    w.put(BLANK);
    put_mark(w, on);
    put_watts(w, u32::from(power));
    put_blanks(w, end);
}

// The row of this number: blank where there is no such load. (In the archive it is one with its caller, and no list is copied for a row.)
fn put_row(w: &mut Writer, loads: LoadList, set: LoadSet, number: usize)
    requires { HasRoom w.old (row_of (loads_of loads) (mark_in set) number) × (1 ≤ number) × (loads.count ≤ max_loads) }
    ensures { Writes w.old w.new (row_of (loads_of loads) (mark_in set) number) }
{
    if loads.count < number {
        let end = w.at + ROW_BYTES;
        put_blanks(w, end);
        return;
    }
    let load = loads.items[number - 1];
    put_load(w, number, set.has(number), load.power);
}

// The rows of the loads from this number on.
pub(crate) fn put_loads(w: &mut Writer, loads: LoadList, set: LoadSet, first: usize)
    requires { HasRoom w.old (load_rows (loads_of loads) (mark_in set) first load_row_count) × (1 ≤ first) × (first ≤ max_loads) × (loads.count ≤ max_loads) }
    ensures { Writes w.old w.new (load_rows (loads_of loads) (mark_in set) first load_row_count) }
{
    for i in 0..LOAD_ROW_COUNT {
        put_row(w, loads, set, first + i);
    }
}
