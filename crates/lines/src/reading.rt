// Reading a line, left to right: its word, then its numbers or its bits. Reading stops at the first byte that breaks the form.
ghost use Rattle.std.specs.Prelude.{◌≤◌, ◌≡◌, drop};
ghost use Rattle.lines.specs.Text.{comma, before};
ghost use Rattle.lines.specs.Grammar.{table, parse, line_command};
ghost use Rattle.lines.specs.Reading.{may_follow, most_numbers, fields_after, numbers_in, bits_of, most_after, requested, row_command};

use crate::{COMMA, Change, Command, MOST_BYTES, MOST_NUMBERS, NOUGHT, SaveForm};
use marks::LoadSet;

const MOST_DIGITS: u32 = 6;

// What a row of the table asks for. A rule and a load have two rows: without a kind and with it.
#[derive(Clone, Copy)]
enum Request {
    Clear,
    Book,
    Start,
    End,
    Rule,
    RuleOfKind,
    Row,
    Load,
    LoadOfKind,
    Power,
    Worth,
    Budget,
    Plan,
    Save,
    Save1,
    Drop,
    Last,
    Need,
}

// A row of the table: a word, the count of the numbers after it, and what both ask for.
#[derive(Clone, Copy)]
struct Row(&'static [u8], usize, Request);

// The rows with numbers.
const ROWS: [Row; 18] = [
    Row(b"clear", 0, Request::Clear),
    Row(b"book", 2, Request::Book),
    Row(b"start", 1, Request::Start),
    Row(b"end", 1, Request::End),
    Row(b"rule", 3, Request::Rule),
    Row(b"rule", 4, Request::RuleOfKind),
    Row(b"row", 3, Request::Row),
    Row(b"load", 3, Request::Load),
    Row(b"load", 4, Request::LoadOfKind),
    Row(b"power", 2, Request::Power),
    Row(b"worth", 2, Request::Worth),
    Row(b"budget", 1, Request::Budget),
    Row(b"plan", 0, Request::Plan),
    Row(b"save", 0, Request::Save),
    Row(b"save1", 0, Request::Save1),
    Row(b"drop", 1, Request::Drop),
    Row(b"last", 0, Request::Last),
    Row(b"need", 1, Request::Need),
];

// The word before bits.
const CHECK: &'static [u8] = b"check";

// The numbers after a word, in their order.
#[derive(Clone, Copy)]
struct Numbers {
    count: usize,
    values: [u32; MOST_NUMBERS],
}

impl Request {
    // The command, with the numbers of its line.
    fn command(self, values: [u32; MOST_NUMBERS]) -> Command
        ensures { result ≡ requested self values }
    {
        let [a, b, c, d] = values;
        match self {
            Request::Clear => Command::Change(Change::Clear),
            Request::Book => Command::Change(Change::Book(a, b)),
            Request::Start => Command::Change(Change::Start(a)),
            Request::End => Command::Change(Change::End(a)),
            Request::Rule => Command::Change(Change::Rule(a, b, c, 0)),
            Request::RuleOfKind => Command::Change(Change::Rule(a, b, c, d)),
            Request::Row => Command::Change(Change::Row(a, b, c)),
            Request::Load => Command::Change(Change::Load(a, b, c, 0)),
            Request::LoadOfKind => Command::Change(Change::Load(a, b, c, d)),
            Request::Power => Command::Change(Change::Power(a, b)),
            Request::Worth => Command::Change(Change::Worth(a, b)),
            Request::Budget => Command::Change(Change::Budget(a)),
            Request::Plan => Command::Plan,
            Request::Save => Command::Save(SaveForm::Kinds),
            Request::Save1 => Command::Save(SaveForm::Plain),
            Request::Drop => Command::Change(Change::Drop(a)),
            Request::Last => Command::Last,
            Request::Need => Command::Need(a),
        }
    }
}

// Where the word that a line begins with ends: at the first comma, or with the line.
fn word_end(line: &[u8]) -> usize
    ensures { result ≡ before comma line.now }
{
    line.iter().position(|b| *b == COMMA).unwrap_or(line.len())
}

// How many numbers the table has at most after a word; 0 where it has no such word before numbers.
fn most_after(word: &[u8]) -> usize
    ensures { result ≡ most_after word.now table }
{
    let rows = ROWS;
    rows.iter().fold(
        0,
        |most, row| if row.0 == word { row.1.max(most) } else { most },
    )
}

// The command of a word and the numbers after it.
fn command_of(word: &[u8], numbers: Numbers) -> Command
    ensures { result ≡ row_command table word.now numbers }
{
    let rows = ROWS;
    match rows.iter().find(|r| r.0 == word && numbers.count == r.1) {
        Some(row) => row.2.command(numbers.values),
        None => Command::Broken,
    }
}

// May b be the next digit of a number with this many digits so far?
fn may_follow(digits: u32, b: u8) -> bool
    ensures { result ≡ may_follow digits b }
{
    NOUGHT <= b && b <= NOUGHT + 9 && digits < MOST_DIGITS
}

// The numbers after a word that ends at a place, where there are at most so many. Each has a comma before it. "It .. stops at the first byte
// that breaks its form": the paper names nested loops over fields and digits for this, left by a label at the first bad byte.
// One place runs through both loops, so neither is a `for`.
fn read_numbers(s: &[u8], end: usize, most: usize) -> Option<Numbers>
    requires { most ≤ most_numbers }
    ensures { result ≡ numbers_in most (fields_after end s.now) }
{
    let mut values = [0u32; MOST_NUMBERS];
    let mut count: usize = 0;
    let mut at = end;
    'fields: loop {
        if s.len() <= at {
            return Some(Numbers { count, values });
        }
        if most <= count {
            break 'fields;
        }
        at += 1;
        let mut value: u32 = 0;
        let mut digits: u32 = 0;
        while at < s.len() {
            let b = s[at];
            if b == COMMA {
                break;
            }
            if !may_follow(digits, b) {
                break 'fields;
            }
            value = value * 10 + u32::from(b - NOUGHT);
            digits += 1;
            at += 1;
        }
        if digits == 0 {
            break 'fields;
        }
        values[count] = value;
        count += 1;
    }
    None
}

// The bits that stand from a place on to the end of the line: `Check` with their loads and their count, or `Broken`.
pub fn read_bits(s: &[u8], start: usize) -> Command
    ensures { result ≡ bits_of (drop start s.now) }
{
    let bits = &s[start.min(s.len())..];
    let mut set = LoadSet::EMPTY;
    let mut count: usize = 0;
    for b in bits {
        count += 1;
        match *b {
            b'0' => {}
            b'1' => set = set.with(count),
            _ => return Command::Broken,
        }
    }
    if count == 0 {
        return Command::Broken;
    }
    Command::Check { set, count }
}

// The command of a line by its form. No byte after a word that is not in the table is read.
fn read_form(line: &[u8]) -> Command
    ensures { result ≡ parse line.now }
{
    let end = word_end(line);
    let word = &line[..end];
    if word == CHECK {
        return read_bits(line, end + 1);
    }
    match read_numbers(line, end, most_after(word)) {
        Some(numbers) => command_of(word, numbers),
        None => Command::Broken,
    }
}

// What a line asks for. Its length is judged before its form.
pub fn read(line: &[u8]) -> Command
    ensures { result ≡ line_command line.now }
{
    if MOST_BYTES < line.len() {
        return Command::TooLong;
    }
    read_form(line)
}
