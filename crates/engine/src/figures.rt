// The figures of a set of loads. How many loads are on is `LoadSet::count`.
ghost use Rattle.std.specs.Prelude.{◌≡◌, ◌≤◌};
ghost use Rattle.lists.specs.Argmax.{guard};
ghost use Rattle.tables.specs.Limits.{max_loads};
ghost use Rattle.tables.specs.Stored.{loads_of};
ghost use Rattle.meaning.specs.Sets.{counted};
ghost use Rattle.marks.specs.Sets.{mark_in};
ghost use Rattle.engine.specs.Figures.{figures_of};

use marks::LoadSet;
use tables::load::LoadList;

// The power and the worth of a set.
#[derive(Clone, Copy)]
pub struct Figures {
    pub power: u32,
    pub worth: u32,
}

// A figure counts where the load is on.
fn counted_if(on: bool, figure: u16) -> u32
    ensures { (result ≡ counted (guard on 1) figure) × (result ≤ 65535) }
{
    if on { u32::from(figure) } else { 0 }
}

// The sums of the figures of the loads that are in the set.
pub fn figures_of(loads: LoadList, set: LoadSet) -> Figures
    requires { loads.count ≤ max_loads }
    ensures { result ≡ figures_of (loads_of loads) (mark_in set) }
{
    let used = &loads.items[..loads.count];
    let mut power = 0;
    let mut worth = 0;
    for (i, load) in used.iter().enumerate() {
        let on = set.has(i + 1);
        power += counted_if(on, load.power);
        worth += counted_if(on, load.worth);
    }
    Figures { power, worth }
}
