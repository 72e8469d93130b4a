// Cutting input into lines, chunk by chunk.
ghost use Rattle.lines.specs.Input.{Took};

use crate::{LINE_FEED, MOST_BYTES};

// One more than a line may have: enough to see that it is too long.
pub const MOST_KEPT: usize = MOST_BYTES + 1;

// How many bytes of a chunk were taken, how many bytes of the line are held now, and whether the line ended.
#[derive(Clone, Copy)]
pub struct Taken {
    pub count: usize,
    pub held: usize,
    pub ended: bool,
}

// Takes bytes to the line of which some are held, up to its line feed or to the end of the chunk. Bytes past the most that are kept are dropped.
pub fn take_line(chunk: &[u8], line: &mut [u8; MOST_KEPT], held: usize) -> Taken
    ensures { Took chunk.now line.old line.new held result }
{
    let end = chunk.iter().position(|b| *b == LINE_FEED);
    let bytes = &chunk[..end.unwrap_or(chunk.len())];
    let start = held.min(MOST_KEPT);
    let kept = &bytes[..bytes.len().min(MOST_KEPT - start)];
    line[start..start + kept.len()].copy_from_slice(kept);
    let held = held + kept.len();
    match end {
        Some(at) => Taken {
            count: at + 1,
            held,
            ended: true,
        },
        None => Taken {
            count: chunk.len(),
            held,
            ended: false,
        },
    }
}
