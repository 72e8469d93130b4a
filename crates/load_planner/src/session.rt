// What the line program keeps from chunk to chunk.
ghost use Rattle.std.specs.Prelude.{◌≤◌};
ghost use Rattle.lines.specs.Input.{most_kept};

use lines::splitting::MOST_KEPT;
use planner::Planner;
use planner::call::SAVE_BYTES;

// "The line program lends .. 16,384 cells" and, since request Ten, the 4,096 bytes that a save needs.
pub const LENT_BYTES: usize = SAVE_BYTES;

pub const LENT_CELLS: usize = 16384;

// What is kept from chunk to chunk: the planner, the bytes held of a line begun, what is lent for its answer, and whether output can still be
// written.
#[derive(Drop)]
pub struct Session {
    pub planner: Planner,
    pub line: [u8; MOST_KEPT],
    pub held: usize,
    pub out: [u8; LENT_BYTES],
    pub work: [u32; LENT_CELLS],
    pub open: bool,
    ghost few: { held ≤ most_kept },
}
