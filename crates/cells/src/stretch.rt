// A stretch: the cells of one load and one state or stage, made in a strip of their own, rule by rule, and stored.
ghost use Rattle.std.specs.Prelude.{◌≡◌, ◌+◌, ◌≤◌, ◌<◌, length};
ghost use Rattle.cells.specs.Outline.{OutlineFits};
ghost use Rattle.cells.specs.Work.{Ready};
ghost use Rattle.cells.specs.Stretch.{Worked};

use crate::cell::EMPTY;
use crate::outline::{Joint, Lead, joint_at, lead_of, next_rule, rules_at};
use crate::problem::{Shape, draw_of, own_of, serves};
use crate::strip::{flat, lift, share, store};
use crate::work::place;

// The cells of a strip: one for each allowance from 0 to 500, and more.
const STRIP: usize = 512;

// A place in a row: a load, 0 for none as in the outline, and the stage at which the row goes on with it.
#[derive(Clone, Copy)]
struct Spot {
    load: usize,
    stage: usize,
}

// What a stretch is made from: the shape of a problem, its outline, and the work that has its cells.
#[derive(Clone, Copy)]
struct Search<'a> {
    shape: Shape,
    outline: &'a [u16],
    work: &'a [u32],
    ghost ready: { Ready shape work.now },
    ghost fits: { OutlineFits shape outline.now },
}

impl<'a> Search<'a> {
    ghost use Rattle.std.specs.Prelude.{◌≡◌, ◌+◌, ◌≤◌, ◌<◌, length};
    ghost use Rattle.meaning.specs.Best.{shares};
    ghost use Rattle.cells.specs.Outline.{joint_in, JointFits, RuleFits};
    ghost use Rattle.cells.specs.Work.{cell_limit, place_of, cells_in, cells_from, held_branch, held_row, Agrees};
    ghost use Rattle.cells.specs.Strip.{moved, Raised, Rising};
    ghost use Rattle.cells.specs.Stretch.{leading, reach_of, reached, Sound};

    // The cells of load k and state or stage x, below an allowance.
    fn cells(&self, k: usize, x: usize, to: usize) -> &'a [u32]
        requires { (0 < k) × (k ≤ self.now.shape.loads) × (x < self.now.shape.states + self.now.shape.stages) × (to ≤ self.now.shape.budget + 1) }
        ensures long { length result.now ≡ to }
        ensures same { Agrees (cells_in result.now) (cells_from self.now.work.now (place_of self.now.shape k x)) to }
    {
        let at = place(self.shape, k, x);
        &self.work[at..at + to]
    }

    // The strip raised to a row, joined with `own` and moved up by `shift`.
    fn lift_row(&self, strip: &mut [u32], from: usize, row: Spot, shift: usize, own: u32)
        requires { (row.load ≤ self.now.shape.loads) × (0 < row.stage) × (row.stage ≤ self.now.shape.stages) × (length strip.old ≤ self.now.shape.budget + 1) × (own ≤ cell_limit) }
        ensures { Raised strip.old strip.new from (length strip.old) (moved shift own (held_row self.now.shape self.now.work.now row.load row.stage)) }
    {
        if row.load == 0 {
            if self.shape.ends.has(row.stage) {
                flat(strip, from, shift, own);
            }
            return;
        }
        let cells = self.cells(row.load, self.shape.states + (row.stage - 1), strip.len());
        lift(strip, from, cells, shift, own);
    }

    // The strip raised to the splits between the branch of load k in state q and a row.
    fn raise_split(&self, strip: &mut [u32], from: usize, k: usize, q: usize, row: Spot)
        requires k_nonzero { (0 < k) × (k ≤ self.now.shape.loads) × (row.load ≤ self.now.shape.loads) × (length strip.old ≤ self.now.shape.budget + 1) }
        requires q_nonzero { (0 < q) × (q ≤ self.now.shape.states) × (0 < row.stage) × (row.stage ≤ self.now.shape.stages) }
        ensures { Rising (held_branch self.now.shape self.now.work.now k q) (length strip.old) → Rising (held_row self.now.shape self.now.work.now row.load row.stage) (length strip.old) → Raised strip.old strip.new from (length strip.old) (λ a. (shares (held_branch self.now.shape self.now.work.now k q) (held_row self.now.shape self.now.work.now row.load row.stage) a).value) }
    {
        let branch = self.cells(k, q - 1, strip.len());
        if row.load == 0 {
            if self.shape.ends.has(row.stage) {
                lift(strip, from, branch, 0, EMPTY);
            }
            return;
        }
        let later = self.cells(row.load, self.shape.states + (row.stage - 1), strip.len());
        share(strip, from, branch, later);
    }

    // The strip raised to what a rule reaches that leads there.
    fn by_rule(&self, strip: &mut [u32], from: usize, t: Joint, lead: Lead)
        requires fits { JointFits self.now.shape t × RuleFits self.now.shape t.branch (leading lead) }
        requires to_bound { length strip.old ≤ self.now.shape.budget + 1 }
        ensures { Sound self.now.shape self.now.work.now t (length strip.old) → Raised strip.old strip.new from (length strip.old) (λ a. reach_of self.now.shape self.now.work.now t a (leading lead)) }
    {
        let row = Spot {
            load: t.rest,
            stage: lead.stage,
        };
        let label = lead.label;
        if t.branch {
            self.raise_split(strip, from, t.load, label, row);
        } else if serves(t.item, lead.kind, label) {
            let shift = draw_of(t.item, label);
            let own = own_of(t.item, label);
            self.lift_row(strip, from, row, shift, own);
        }
    }

    // The strip raised to the best that the rules of load k and state or stage x reach, one after the other.
    fn raise(&self, strip: &mut [u32], from: usize, k: usize, x: usize)
        requires k_nonzero { (0 < k) × (k ≤ self.now.shape.loads) × (x < self.now.shape.states + self.now.shape.stages) }
        requires to_bound { length strip.old ≤ self.now.shape.budget + 1 }
        ensures { Sound self.now.shape self.now.work.now (joint_in self.now.shape self.now.outline.now k x) (length strip.old) → Raised strip.old strip.new from (length strip.old) (reached self.now.shape self.now.outline.now self.now.work.now k x) }
    {
        let o = self.outline;
        let t = joint_at(self.shape, o, k, x);
        let r = rules_at(self.shape, o, x);
        let mut next = next_rule(o, r, 0);
        while let Some(j) = next {
            let lead = lead_of(o, r, j);
            self.by_rule(&mut *strip, from, t, lead);
            next = next_rule(o, r, j + 1);
        }
    }
}

// Fills the allowances from .. to of load k and state or stage x.
pub(crate) fn stretch(
    sh: Shape,
    o: &[u16],
    work: &mut [u32],
    k: usize,
    x: usize,
    from: usize,
    to: usize,
)
    requires ready { Ready sh work.old × OutlineFits sh o.now }
    requires k_nonzero { (0 < k) × (k ≤ sh.loads) × (x < sh.states + sh.stages) × (from ≤ to) × (to ≤ sh.budget + 1) }
    ensures { Worked sh o.now work.old work.new k x from to }
{
    let mut zeros = [0u32; STRIP];
    let strip = &mut zeros[..to];
    let search = Search {
        shape: sh,
        outline: o,
        work: &work[..],
    };
    search.raise(&mut *strip, from, k, x);
    let at = place(sh, k, x);
    store(work, strip, at, from);
}
