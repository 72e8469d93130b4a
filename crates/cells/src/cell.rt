// Cells as 32-bit numbers. A request that changes what is best changes this file.
ghost use Rattle.std.specs.Prelude.{◌≡◌, max, ◌*◌, ◌%◌, ◌≤◌, ◌<◌};
ghost use Rattle.meaning.specs.Cell.{cell, floor, power_limit, ◌⊕◌};
ghost use Rattle.tables.specs.Limits.{max_loads, max_worth};
ghost use Rattle.cells.specs.Work.{cell_limit, held_in};
ghost use Rattle.cells.specs.Strip.{strip_limit};

// The cell of the empty set. A load's worth counts in units of it, and its power against it.
pub const EMPTY: u32 = 512;

// No cell of a search passes this, and two numbers below it fit 32 bits together.
const CELL_LIMIT: u32 = 1073741824;

// No number of a strip passes this: two cells together are below it.
const STRIP_LIMIT: u32 = 2147483648;

// What a cell says, whatever it holds.
pub fn held(x: u32) -> u32
    ensures { result ≡ held_in x }
{
    x % CELL_LIMIT
}

// A number of a strip, raised to y. Numbers below the limit compare alike with and without a sign, and with a sign it is cheaper.
pub(crate) fn raised(x: u32, y: u32) -> u32
    ensures { result ≡ max (x % strip_limit) y }
{
    (x % STRIP_LIMIT).max(y)
}

// The cell of two disjoint sets together. Where x stays the same a loop over y has no branch.
pub fn join(x: u32, y: u32) -> u32
    requires { (x ≤ cell_limit) × (y ≤ cell_limit) }
    ensures { result ≡ x ⊕ y }
{
    if x == EMPTY {
        return y;
    }
    if x > EMPTY {
        let more = if y == 0 { 0 } else { x - EMPTY };
        return y + more;
    }
    // No set, or one that is worth nothing and draws power.
    if x == 0 {
        return 0;
    }
    (x + y).saturating_sub(EMPTY)
}

// The cell of one load that is on.
pub(crate) fn cell_of(power: usize, worth: u32) -> u32
    requires { (power < power_limit) × (worth ≤ max_worth) }
    ensures { (result ≡ cell power worth) × (result ≤ cell_limit) }
{
    worth * EMPTY + EMPTY - power as u32
}

// The cells of sets that are worth so much, and of no others, exceed this.
pub fn floor_of(worth: u32) -> u32
    requires { worth ≤ max_loads * max_worth }
    ensures { result ≡ floor worth }
{
    EMPTY * worth
}
