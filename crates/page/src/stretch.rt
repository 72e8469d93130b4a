// What of a drawn page the glass does not show yet.
ghost use Rattle.std.specs.Prelude.{◌≡◌, ◌<◌, length};
ghost use Rattle.lines.specs.Text.{same};
ghost use Rattle.page.specs.Rows.{row_count, page_bytes};
ghost use Rattle.page.specs.Stretch.{row_at, differing, place, stretch, beginning};

use crate::{PAGE_BYTES, ROW_BYTES, ROW_COUNT};

// Rows of a page: the first, the topmost of the page being row 0, and the one after the last. Of no rows both are 0, as of an empty range.
#[derive(Clone, Copy)]
struct Rows {
    first: usize,
    end: usize,
}

// A part of a page: the place of its first byte, and how many bytes it has. C gets it so.
#[repr(C)]
#[derive(Clone, Copy)]
pub struct Part {
    pub start: usize,
    pub count: usize,
}

// Do two pages show the same in this row?
fn same_row(glass: &[u8], drawn: &[u8], row: usize) -> bool
    requires { (length glass.now ≡ page_bytes) × (length drawn.now ≡ page_bytes) × (row < row_count) }
    ensures { result ≡ same (row_at glass.now row) (row_at drawn.now row) }
{
    let start = row * ROW_BYTES;
    let end = start + ROW_BYTES;
    // With no branch between the bytes this is a few instructions. `==` on the slices would be a call.
    glass[start..end]
        .iter()
        .zip(&drawn[start..end])
        .fold(true, |same, (g, d)| same & (g == d))
}

// The rows from the first in which they differ to the last; none where either is no page.
fn differing(glass: &[u8], drawn: &[u8]) -> Rows
    ensures { result ≡ differing glass.now drawn.now }
{
    let mut first: usize = 0;
    let mut end: usize = 0;
    if (glass.len() != PAGE_BYTES) | (drawn.len() != PAGE_BYTES) {
        return Rows { first, end };
    }
    for row in 0..ROW_COUNT {
        if !same_row(glass, drawn, row) {
            if end == 0 {
                first = row;
            }
            end = row + 1;
        }
    }
    Rows { first, end }
}

// Where in the drawn page the stretch lies: from the first row that differs from the glass to the last. It has no bytes where none does, and
// where either is no page.
pub fn place(glass: &[u8], drawn: &[u8]) -> Part
    ensures { result ≡ place glass.now drawn.now }
{
    let rows = differing(glass, drawn);
    Part {
        start: rows.first * ROW_BYTES,
        count: (rows.end - rows.first) * ROW_BYTES,
    }
}

// The stretch itself: that part of the drawn page.
pub fn stretch<'g, 'd>(glass: &'g [u8], drawn: &'d [u8]) -> &'d [u8]
    ensures { result.now ≡ stretch glass.now drawn.now }
{
    let part = place(glass, drawn);
    let start = part.start;
    let end = start + part.count;
    &drawn[start..end]
}

// The row of the page at which the stretch begins, from 1 to 8; 0 where it is empty.
pub fn beginning(glass: &[u8], drawn: &[u8]) -> usize
    ensures { result ≡ beginning glass.now drawn.now }
{
    let rows = differing(glass, drawn);
    if rows.end == 0 {
        return 0;
    }
    rows.first + 1
}
