// Lines in, lines out: the border between bytes and tables.
#![tactic(auto)]

pub mod answer;
pub mod reading;
pub mod saving;
pub mod splitting;
pub mod writing;

use marks::LoadSet;

const COMMA: u8 = 44;

const LINE_FEED: u8 = 10;

// The byte of the digit 0. Those of 1 to 9 follow it.
pub const NOUGHT: u8 = 48;

// A line has at most so many bytes, its line feed not counted.
const MOST_BYTES: usize = 144;

// No line has more numbers.
const MOST_NUMBERS: usize = 4;

// What a change asks for: a line that can print `ok`. The numbers of a line stand in its order.
#[derive(Clone, Copy)]
pub enum Change {
    Clear,
    // States and stages.
    Book(u32, u32),
    // A state.
    Start(u32),
    // A stage.
    End(u32),
    // State, mark, stage, kind.
    Rule(u32, u32, u32, u32),
    // Stage, state, next stage.
    Row(u32, u32, u32),
    // Parent, power, worth, kind.
    Load(u32, u32, u32, u32),
    // The number of a load, and its power.
    Power(u32, u32),
    // The number of a load, and its worth.
    Worth(u32, u32),
    // Watts.
    Budget(u32),
    // The number of a load.
    Drop(u32),
}

// The form of a save: with the kind of every load and load rule, or that of request Two, which has none.
#[derive(Clone, Copy)]
pub enum SaveForm {
    Kinds,
    Plain,
}

// What a line asks for. `Broken` is a line that is no command of the table, or breaks its form; `TooLong` one with more bytes than a line may
// have, whatever they are.
#[derive(Clone, Copy)]
pub enum Command {
    Change(Change),
    Plan,
    // The loads whose bit is 1, as far as a set of loads goes, and the count of all bits.
    Check { set: LoadSet, count: usize },
    Save(SaveForm),
    Last,
    // A worth.
    Need(u32),
    Broken,
    TooLong,
}
