// The cells of a search, filled in their order.
ghost use Rattle.std.specs.Prelude.{◌≤◌};
ghost use Rattle.cells.specs.Outline.{OutlineFits};
ghost use Rattle.cells.specs.Work.{cells_needed, Ready};
ghost use Rattle.cells.specs.Stretch.{FilledBy};

use crate::problem::Shape;
use crate::stretch::stretch;

// Fills the cells from .. to, a stretch a turn: after it the cells below `to` hold the best of their branch or row if those below `from`
// did, and every other cell is as it was. Whatever the work holds, it ends. A turn goes on where its stretch ended: no range has such steps.
pub fn fill(sh: Shape, o: &[u16], work: &mut [u32], from: usize, to: usize)
    requires ready { Ready sh work.old × OutlineFits sh o.now }
    requires from_le_to { (from ≤ to) × (to ≤ cells_needed sh) }
    ensures { FilledBy sh o.now work.old work.new from to }
{
    let width = sh.budget + 1;
    let across = sh.states + sh.stages;
    let mut i = from;
    while i < to {
        let rank = i / width;
        let a = i % width;
        let at = i - a;
        let end = width.min(to - at);
        stretch(
            sh,
            o,
            &mut *work,
            sh.loads - rank / across,
            rank % across,
            a,
            end,
        );
        i = at + end;
    }
}
