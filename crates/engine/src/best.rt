// The search for the start state: the greatest value, and the lowest number that has it.
ghost use Rattle.std.specs.Prelude.{◌≡◌, suc, ◌≤◌, ◌<◌};
ghost use Rattle.lists.specs.Argmax.{guard, improve};
ghost use Rattle.marks.specs.Bits.{has_mark};
ghost use Rattle.cells.specs.Work.{held_branch};
ghost use Rattle.engine.specs.Search.{greatest_of, root_best};

use crate::filled::Filled;

// A greatest value, and the lowest number that has it. Where nothing exceeds 0, both are 0: a cell of 0 says by itself that there is none.
#[derive(Clone, Copy)]
pub struct Best {
    pub value: u32,
    pub index: usize,
}

impl Best {
    const NONE: Best = Best { value: 0, index: 0 };

    // One more value, at number i: taken only if it is greater.
    fn improved(self, index: usize, value: u32) -> Best
        ensures { greatest_of result ≡ improve (greatest_of self) index value }
    {
        if self.value < value {
            return Best { value, index };
        }
        self
    }
}

impl<'a> Filled<'a> {
    // The cell of the root's branch in state s + 1 with allowance c, if that is a start state.
    fn start_at(&self, s: usize, c: usize) -> u32
        requires { (s < self.now.shape.states) × (c ≤ self.now.shape.budget) }
        ensures { result ≡ guard (has_mark self.now.shape.starts.0 (suc s)) (held_branch self.now.shape self.now.cells.now 1 (suc s) c) }
    {
        if self.shape.starts.has(s + 1) {
            return self.branch_at(1, s + 1, c);
        }
        0
    }

    // The best start state, less 1, with allowance c.
    pub(crate) fn best_start(&self, c: usize) -> Best
        requires { c ≤ self.now.shape.budget }
        ensures { greatest_of result ≡ root_best self.now.shape self.now.cells.now c }
    {
        let mut best = Best::NONE;
        for s in 0..self.shape.states {
            best = best.improved(s, self.start_at(s, c));
        }
        best
    }
}
