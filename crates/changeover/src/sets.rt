// A set of loads that is handed in as bytes, and whether the supply carries it.
ghost use Rattle.std.specs.Prelude.{◌≡◌, ◌≤◌};
ghost use Rattle.marks.specs.Sets.{has_load};
ghost use Rattle.tables.specs.Limits.{max_loads};
ghost use Rattle.tables.specs.Stored.{loads_of, tables_of, Holds};
ghost use Rattle.changeover.specs.Sets.{is_fed, all_fed, carries, ReadAs};

use engine::figures::figures_of;
use lines::Command;
use lines::reading::read_bits;
use marks::LoadSet;
use tables::load::{Load, LoadList};
use tables::tables::StoredTables;

// A set that is written as for `check`, one 0 or 1 for each load.
pub(crate) fn read_set(s: &[u8], loads: usize) -> Option<LoadSet>
    ensures { ReadAs loads s.now result }
{
    match read_bits(s, 0) {
        Command::Check { set, count } => (count == loads).then_some(set),
        _ => None,
    }
}

// Is a load off, or the root, or its parent on?
#[tactic(auto, unfolding(crate::specs::Sets::is_fed))]
fn is_fed(set: LoadSet, number: usize, load: Load) -> bool
    ensures { result ≡ is_fed (has_load set) number load }
{
    let parent = usize::from(load.parent);
    !set.has(number) || parent == 0 || set.has(parent)
}

// Does no load of the set hang below one that is off?
fn all_fed(loads: LoadList, set: LoadSet) -> bool
    requires { loads.count ≤ max_loads }
    ensures { result ≡ all_fed (has_load set) (loads_of loads) }
{
    loads
        .items
        .iter()
        .take(loads.count)
        .enumerate()
        .all(|(place, load)| is_fed(set, place + 1, *load))
}

// Is the power of the set within the budget, and no load of it below one that is off?
pub(crate) fn carries(tables: StoredTables, set: LoadSet) -> bool
    requires { Holds max_loads tables }
    ensures { result ≡ carries (tables_of tables) (has_load set) }
{
    let figures = figures_of(tables.loads, set);
    (figures.power <= u32::from(tables.budget)) & all_fed(tables.loads, set)
}
