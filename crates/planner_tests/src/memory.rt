// The memory that is lent to calls and portions, and the report on it.
ghost use Rattle.std.specs.Prelude.{◌≤◌};
ghost use Rattle.planner_tests.specs.declared.memory.TheConstants.{ALL_BYTES, ALL_CELLS};

use crate::text::numbers;
use std::io;
use std::io::Write;

// What output and work hold before each call. No byte of an answer is this one.
pub const RUBBISH_BYTE: u8 = 0xaa;

pub const RUBBISH_CELL: u32 = 0xaaaa_aaaa;

// The lengths of output and work, of which a part is lent: a script can lend no more.
pub const ALL_BYTES: usize = 4200;

pub const ALL_CELLS: usize = 620;

pub const UNTOUCHED_OUT: [u8; ALL_BYTES] = [RUBBISH_BYTE; ALL_BYTES];

pub const UNTOUCHED_WORK: [u32; ALL_CELLS] = [RUBBISH_CELL; ALL_CELLS];

// How many bytes and cells are lent, and the place of the answer.
#[derive(Clone, Copy)]
pub struct Lent {
    pub bytes: usize,
    pub cells: usize,
    pub place: usize,
    ghost bytes_there: { bytes ≤ ALL_BYTES },
    ghost cells_there: { cells ≤ ALL_CELLS },
}

// More than enough, with bytes before the place.
pub const ROOM: Lent = Lent {
    bytes: 4190,
    cells: 610,
    place: 20,
};

impl Lent {
    // `1024 bytes, 496 cells, place 0`.
    pub(crate) fn read(text: &[u8]) -> Lent {
        let mut found = [0; 3];
        numbers(text, &mut found);
        let [bytes, cells, place] = found;
        Lent {
            bytes: (bytes as usize).min(ALL_BYTES),
            cells: (cells as usize).min(ALL_CELLS),
            place: place as usize,
        }
    }
}

// So many of these items from one on, as far as there are any.
pub(crate) fn part<T>(items: &[T], from: usize, count: usize) -> &[T] {
    let rest = &items[from.min(items.len())..];
    &rest[..count.min(rest.len())]
}

// How many of these items are this one?
pub(crate) fn count_of<T: Copy + PartialEq>(items: &[T], wanted: T) -> usize {
    items.iter().filter(|&&item| item == wanted).count()
}

// What is left after a call: how many bytes and cells still hold what they held before, how many cells are 0, and the answer, which ends its last line
// itself. Where there is none, the line of the report is ended here.
pub(crate) fn print_left(
    report: &mut impl Write,
    out: &[u8],
    work: &[u32],
    answer: &[u8],
) -> io::Result<()> {
    let bytes = count_of(out, RUBBISH_BYTE);
    let zeros = count_of(work, 0);
    let cells = count_of(work, RUBBISH_CELL);
    write!(
        report,
        " | {bytes} bytes kept, {zeros} cells 0, {cells} kept | "
    )?;
    report.write_all(if answer.is_empty() { b"\n" } else { answer })
}
