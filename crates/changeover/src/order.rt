// The steps from one set of loads to another, by value, in their order.
ghost use Rattle.std.specs.Prelude.{◌≡◌, ◌≤◌, ◌<◌, true, [], get_or};
ghost use Rattle.tables.specs.Refusals.{numbered};
ghost use Rattle.lists.specs.Tests.{pick};
ghost use Rattle.marks.specs.Sets.{has_load};
ghost use Rattle.tables.specs.Limits.{max_loads};
ghost use Rattle.planner.specs.Planner.{held};
ghost use Rattle.changeover.specs.Steps.{no_step, off_steps, steps};
ghost use Rattle.changeover.specs.Order.{laid_order, one_more};
ghost use Rattle.changeover.specs.Changeover.{order_of};

use crate::sets::{carries, read_set};
use marks::LoadSet;
use planner::Planner;
use tables::load::MAX_LOADS;
use tables::refusal::Refusal;

// A step: the number of a load, and its new mark, 0 off or 1 on. C gets it so.
#[repr(C)]
#[derive(Clone, Copy)]
pub struct Step {
    pub load: u8,
    pub mark: u8,
}

// What is told of a changeover: its number, 0 if accepted, and the count of its steps. C gets it so.
#[repr(C)]
#[derive(Clone, Copy)]
pub struct Switched {
    pub number: u32,
    pub count: usize,
}

// The steps of a changeover. The first `count` places are in use. (There is no heap: a fixed list has its length beside it.)
#[derive(Clone, Copy)]
pub struct Order {
    pub count: usize,
    pub items: [Step; MAX_LOADS],
}

impl Step {
    // What an unused place holds.
    pub const NONE: Step = Step { load: 0, mark: 0 };
}

impl Order {
    // No steps.
    pub const EMPTY: Order = Order {
        count: 0,
        items: [Step::NONE; MAX_LOADS],
    };

    // With one step more for a load that changes, as it was for another.
    fn with(self, changes: bool, load: usize, mark: u8) -> Order
        requires { (changes ≡ true → self.count < max_loads) × (load ≤ max_loads) }
        ensures { result ≡ pick changes (one_more self load mark) self }
    {
        if !changes {
            return self;
        }
        let at = self.count;
        let mut next = self;
        next.items[at] = Step {
            load: load as u8,
            mark,
        };
        next.count = at + 1;
        next
    }

    // The step at a place. Past the last place there is none.
    pub fn step(self, i: usize) -> Step
        ensures { result ≡ get_or self.items i no_step }
    {
        if MAX_LOADS <= i {
            return Step::NONE;
        }
        self.items[i]
    }
}

// The steps of the loads that go off, the highest number first.
fn off_steps(old: LoadSet, new: LoadSet, loads: usize) -> Order
    requires { loads ≤ max_loads }
    ensures { result ≡ laid_order (off_steps (has_load old) (has_load new) loads) }
{
    let mut order = Order::EMPTY;
    for i in (0..loads).rev() {
        let load = i + 1;
        order = order.with(old.has(load) & !new.has(load), load, 0);
    }
    order
}

// All steps: behind those, the steps of the loads that go on, the lowest number first.
fn steps(old: LoadSet, new: LoadSet, loads: usize) -> Order
    requires { loads ≤ max_loads }
    ensures { result ≡ laid_order (steps (has_load old) (has_load new) loads) }
{
    let mut order = off_steps(old, new, loads);
    for i in 0..loads {
        let k = i + 1;
        order = order.with(!old.has(k) & new.has(k), k, 1);
    }
    order
}

// The steps of a changeover to a list of so many places. It serves callers that cannot lend a list of structs.
#[tactic(auto, using(crate::proofs::Refused::refusals))]
pub fn order_of(planner: Planner, old: &[u8], new: &[u8], places: usize) -> Result<Order, Refusal>
    ensures { numbered result ≡ order_of (held planner) old.now new.now places }
{
    if !planner.keeps_limits() {
        return Err(Refusal::Unusable);
    }
    let loads = planner.tables.loads.count;
    if loads == 0 {
        return Err(Refusal::NoLoads);
    }
    let from = read_set(old, loads).ok_or(Refusal::OutOfRange)?;
    let to = read_set(new, loads).ok_or(Refusal::OutOfRange)?;
    if !carries(planner.tables, from) || !carries(planner.tables, to) {
        return Err(Refusal::NotCarried);
    }
    let order = steps(from, to, loads);
    if places < order.count {
        return Err(Refusal::ShortList);
    }
    Ok(order)
}
