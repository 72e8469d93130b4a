// The cells in the lent work: how many, where each stands, and all of them cleared.
ghost use Rattle.std.specs.Prelude.{◌≡◌, ◌++◌, ◌+◌, ◌≤◌, ◌<◌, length, drop, replicate};
ghost use Rattle.cells.specs.Problem.{Sane};
ghost use Rattle.cells.specs.Work.{place_of, cells_needed};

use crate::problem::Shape;

// The number of cells.
pub fn cells_needed(sh: Shape) -> usize
    requires { Sane sh }
    ensures { result ≡ cells_needed sh }
{
    sh.loads * (sh.states + sh.stages) * (sh.budget + 1)
}

// Where the cells of load k and state or stage x begin.
pub fn place(sh: Shape, k: usize, x: usize) -> usize
    requires sane { Sane sh }
    requires k_le_loads { (k ≤ sh.loads) × (x < sh.states + sh.stages) }
    ensures { result ≡ place_of sh k x }
{
    ((sh.loads - k) * (sh.states + sh.stages) + x) * (sh.budget + 1)
}

// The first n cells become 0, and the others keep their values.
pub fn clear(work: &mut [u32], n: usize)
    requires { n ≤ length work.old }
    ensures { work.new ≡ replicate n 0 ++ drop n work.old }
{
    work[..n].fill(0);
}
