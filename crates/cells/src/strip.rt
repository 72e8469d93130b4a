// A strip: cells by allowance, raised rule by rule as far as it goes, and stored.
ghost use Rattle.std.specs.Prelude.{◌≡◌, ℕ, ◌+◌, ◌-◌, ◌≤◌, ◌<◌, length};
ghost use Rattle.meaning.specs.Cell.{empty};
ghost use Rattle.meaning.specs.Best.{shares};
ghost use Rattle.cells.specs.Work.{cell_limit, cells_in};
ghost use Rattle.cells.specs.Strip.{moved, Raised, Tells, Rising, Starts, Passed, NextStep, Stored};

use crate::cell::{EMPTY, held, join, raised};

// The strides in which allowances are passed over.
const FAR: usize = 64;

const NEAR: usize = 8;

// The strip raised, from an allowance on, to what `cell` says of each.
fn raise_to<F: Fn(usize) -> u32>(strip: &mut [u32], from: usize, cell: F)
    requires { (a : ℕ) → from ≤ a → a < length strip.old → F.pre cell a }
    ensures { (f : ℕ → ℕ) → Tells (F.post cell) f from (length strip.old) → Raised strip.old strip.new from (length strip.old) f }
{
    for a in from..strip.len() {
        strip[a] = raised(strip[a], cell(a));
    }
}

// The strip raised to v from the allowance `shift` on.
pub(crate) fn flat(strip: &mut [u32], from: usize, shift: usize, v: u32)
    requires { v ≤ cell_limit }
    ensures { Raised strip.old strip.new from (length strip.old) (moved shift v (λ _. empty)) }
{
    raise_to(strip, from.max(shift), |_| v);
}

// The strip raised to cells, each joined with `own` and moved up by `shift`.
pub(crate) fn lift(strip: &mut [u32], from: usize, cells: &[u32], shift: usize, own: u32)
    requires { (length strip.old ≤ length cells.now) × (own ≤ cell_limit) }
    ensures { Raised strip.old strip.new from (length strip.old) (moved shift own (cells_in cells.now)) }
{
    raise_to(
        strip,
        from.max(shift),
        |a| join(own, held(cells[a - shift])),
    );
}

// The same where every cell says that there is a set: `more` is added to each, with no test.
fn rise(strip: &mut [u32], from: usize, cells: &[u32], shift: usize, more: u32)
    requires { (length strip.old ≤ length cells.now) × (shift ≤ from) × (more ≤ cell_limit) }
    ensures { Raised strip.old strip.new from (length strip.old) (λ a. cells_in cells.now (a - shift) + more) }
{
    raise_to(strip, from, |a| held(cells[a - shift]) + more);
}

// The strip raised to cells, which say that there is a set from `first` on, each joined with the cell v of the other side and moved up by its
// allowance c.
fn lift_step(strip: &mut [u32], from: usize, cells: &[u32], first: usize, c: usize, v: u32)
    requires { (length strip.old ≤ length cells.now) × (first ≤ length strip.old) × (c ≤ length strip.old) × (v ≤ cell_limit) }
    ensures { Starts (cells_in cells.now) first (length strip.old) → Raised strip.old strip.new from (length strip.old) (moved c v (cells_in cells.now)) }
{
    if v < EMPTY {
        lift(strip, from, cells, c, v);
    } else {
        rise(strip, from.max(c + first), cells, c, v - EMPTY);
    }
}

// An allowance from `from` on up to which the cells say `last`, in whole strides: of cells that do not fall only the last of a stride is read.
// A chain over chunks would have its count made an allowance again.
fn passed(cells: &[u32], from: usize, last: u32, stride: usize) -> usize
    requires { (from ≤ length cells.now) × (0 < stride) }
    ensures over { Passed (cells_in cells.now) last from (length cells.now) result }
    ensures far { stride ≤ length cells.now - result → cells_in cells.now (result + (stride - 1)) ≡ last → ⊥ }
{
    let mut c = from;
    while stride <= cells.len() - c {
        if held(cells[c + (stride - 1)]) != last {
            return c;
        }
        c += stride;
    }
    c
}

// The first allowance from `from` on at which the cells step up from `last`, if there is one.
fn next_step(cells: &[u32], from: usize, last: u32) -> Option<usize>
    requires { from ≤ length cells.now }
    ensures { NextStep (cells_in cells.now) last from (length cells.now) result }
{
    let far = passed(cells, from, last, FAR);
    let near = passed(cells, far, last, NEAR);
    (near..cells.len()).find(|&c| held(cells[c]) != last)
}

// Do the cells x step up less often than y? The work of an answer grows with the fewer steps.
// Nothing depends on the answer but the time.
fn lighter(x: &[u32], y: &[u32]) -> bool {
    let mut a = next_step(x, 0, 0);
    let mut b = next_step(y, 0, 0);
    while let (Some(i), Some(j)) = (a, b) {
        a = next_step(x, i + 1, held(x[i]));
        b = next_step(y, j + 1, held(y[j]));
    }
    b.is_some()
}

// The strip raised to the best splits between the cells x and y, by the steps of the first.
// An allowance that gives the first no more than a smaller one did is passed over: what is left for the second does not grow.
fn split(strip: &mut [u32], from: usize, x: &[u32], y: &[u32])
    requires { (length x.now ≡ length strip.old) × (length y.now ≡ length strip.old) }
    ensures { Rising (cells_in x.now) (length strip.old) → Rising (cells_in y.now) (length strip.old) → Raised strip.old strip.new from (length strip.old) (λ a. (shares (cells_in x.now) (cells_in y.now) a).value) }
{
    let first = next_step(y, 0, 0).unwrap_or(y.len());
    let mut step = next_step(x, 0, 0);
    while let Some(c) = step {
        let v = held(x[c]);
        lift_step(&mut *strip, from, y, first, c, v);
        step = next_step(x, c + 1, v);
    }
}

// The same, by the steps of the one that has fewer.
pub(crate) fn share(strip: &mut [u32], from: usize, x: &[u32], y: &[u32])
    requires { (length x.now ≡ length strip.old) × (length y.now ≡ length strip.old) }
    ensures { Rising (cells_in x.now) (length strip.old) → Rising (cells_in y.now) (length strip.old) → Raised strip.old strip.new from (length strip.old) (λ a. (shares (cells_in x.now) (cells_in y.now) a).value) }
{
    if lighter(y, x) {
        split(strip, from, y, x);
    } else {
        split(strip, from, x, y);
    }
}

// The strip's cells from an allowance on stored at their places.
pub(crate) fn store(work: &mut [u32], strip: &[u32], at: usize, from: usize)
    requires { (from ≤ length strip.now) × (at + length strip.now ≤ length work.old) }
    ensures { Stored work.old strip.now work.new at from (length strip.now) }
{
    work[at + from..at + strip.len()].copy_from_slice(&strip[from..]);
}
