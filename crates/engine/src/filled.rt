// The filled cells of a search, as they are read.
ghost use Rattle.std.specs.Prelude.{◌<◌};
ghost use Rattle.cells.specs.Outline.{OutlineFits};
ghost use Rattle.cells.specs.Work.{Ready};

use cells::cell;
use cells::problem::Shape;
use cells::work::place;

// The shape of a problem with a load or more, its outline, and the work that has its cells. Whatever these hold, what is read is in range.
#[derive(Clone, Copy)]
pub(crate) struct Filled<'a> {
    pub shape: Shape,
    pub outline: &'a [u16],
    pub cells: &'a [u32],
    pub ghost ready: { Ready shape cells.now },
    pub ghost fits: { OutlineFits shape outline.now },
    pub ghost some: { 0 < shape.loads },
}

impl<'a> Filled<'a> {
    ghost use Rattle.std.specs.Prelude.{◌≡◌, ◌+◌, ◌≤◌, ◌<◌};
    ghost use Rattle.cells.specs.Work.{cell_limit, place_of, cells_from, held_branch, held_row};

    // The cell of load k and state or stage x with allowance c.
    pub(crate) fn cell(&self, k: usize, x: usize, c: usize) -> u32
        requires { (0 < k) × (k ≤ self.now.shape.loads) × (x < self.now.shape.states + self.now.shape.stages) × (c ≤ self.now.shape.budget) }
        ensures { (result ≡ cells_from self.now.cells.now (place_of self.now.shape k x) c) × (result ≤ cell_limit) }
    {
        let at = place(self.shape, k, x);
        cell::held(self.cells[at + c])
    }

    // The cell of the row from load k onward at stage g with allowance c. Load 0 stands for no load, as in the outline.
    pub(crate) fn row_at(&self, k: usize, g: usize, c: usize) -> u32
        requires { (k ≤ self.now.shape.loads) × (0 < g) × (g ≤ self.now.shape.stages) × (c ≤ self.now.shape.budget) }
        ensures { (result ≡ held_row self.now.shape self.now.cells.now k g c) × (result ≤ cell_limit) }
    {
        if k != 0 {
            return self.cell(k, self.shape.states + (g - 1), c);
        }
        if self.shape.ends.has(g) {
            cell::EMPTY
        } else {
            0
        }
    }

    // The cell of the branch of load k in state q with allowance c.
    pub(crate) fn branch_at(&self, k: usize, q: usize, c: usize) -> u32
        requires { (0 < k) × (k ≤ self.now.shape.loads) × (0 < q) × (q ≤ self.now.shape.states) × (c ≤ self.now.shape.budget) }
        ensures { (result ≡ held_branch self.now.shape self.now.cells.now k q c) × (result ≤ cell_limit) }
    {
        self.cell(k, q - 1, c)
    }
}
