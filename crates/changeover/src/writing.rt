// The steps written to a lent list.
ghost use Rattle.std.specs.Prelude.{◌≡◌};
ghost use Rattle.planner.specs.Planner.{held};
ghost use Rattle.changeover.specs.Changeover.{changed_to, changeover};

use crate::order::{Step, Switched, order_of};
use planner::Planner;

// Switches over from an old set to a new one, each written as for `check`: the steps go to the list, and the number, 0 if accepted, and their count come
// back. A refusal has no steps and writes nothing. The place serves two lists, and the writer stays as thin as that.
#[tactic(auto, using(crate::proofs::Listed::lists))]
pub fn switch_over(planner: Planner, old: &[u8], new: &[u8], list: &mut [Step]) -> Switched
    ensures { changed_to result.number result.count list.new ≡ changeover (held planner) old.now new.now list.old }
{
    let order = match order_of(planner, old, new, list.len()) {
        Ok(order) => order,
        Err(refusal) => {
            return Switched {
                number: u32::from(refusal),
                count: 0,
            };
        }
    };
    for i in 0..order.count {
        list[i] = order.step(i);
    }
    Switched {
        number: 0,
        count: order.count,
    }
}
