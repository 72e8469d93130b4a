// What planning and checking a set have in common, and what is looked up in it.
ghost use Rattle.std.specs.Prelude.{◌≡◌, true, ◌≤◌, ◌<◌};
ghost use Rattle.tables.specs.Limits.{max_worth};
ghost use Rattle.tables.specs.Stored.{keeps_limits};
ghost use Rattle.meaning.specs.Cell.{power_limit, draw, score};
ghost use Rattle.cells.specs.Problem.{plan_problem, check_problem, item_of, serves_if, shape_of, Lawful};
ghost use Rattle.cells.specs.Work.{cell_limit};

use crate::cell;
use marks::{LoadSet, Marks};
use tables::tables::StoredTables;

// The tables of a search. Where there is a set, only the load rules with its marks serve, and no power or worth counts.
#[derive(Clone, Copy)]
pub struct Problem {
    pub tables: StoredTables,
    pub set: Option<LoadSet>,
}

// The numbers of loads, states and stages, the budget, the start states and the end stages.
#[derive(Clone, Copy)]
pub struct Shape {
    pub loads: usize,
    pub states: usize,
    pub stages: usize,
    pub budget: usize,
    pub starts: Marks,
    pub ends: Marks,
}

// The mark of a load that every load rule of its kind serves: a number, since the outline holds numbers.
pub const ANY_MARK: u16 = 2;

// What counts of a load. Only the load rules of its kind with its mark serve it.
#[derive(Clone, Copy)]
pub struct StoredItem {
    pub power: usize,
    pub worth: u32,
    pub mark: u16,
    pub kind: u16,
}

// The problem of a plan.
pub fn plan_problem(tables: StoredTables) -> Problem
    requires { keeps_limits tables ≡ true }
    ensures { (result ≡ plan_problem tables) × Lawful result }
{
    Problem { tables, set: None }
}

// The problem of a checked set.
pub fn check_problem(tables: StoredTables, set: LoadSet) -> Problem
    requires { keeps_limits tables ≡ true }
    ensures { (result ≡ check_problem tables set) × Lawful result }
{
    let unbudgeted = StoredTables {
        budget: 0,
        ..tables
    };
    Problem {
        tables: unbudgeted,
        set: Some(set),
    }
}

pub fn shape_of(p: Problem) -> Shape
    ensures { result ≡ shape_of p }
{
    let book = p.tables.book;
    Shape {
        loads: p.tables.loads.count,
        states: usize::from(book.states),
        stages: usize::from(book.stages),
        budget: usize::from(p.tables.budget),
        starts: book.starts,
        ends: book.ends,
    }
}

// Does a load rule of this kind with this mark serve the load?
pub fn serves(i: StoredItem, kind: usize, mark: usize) -> bool
    ensures { result ≡ serves_if i.kind i.mark kind mark }
{
    kind == usize::from(i.kind) && (i.mark == ANY_MARK || mark == usize::from(i.mark))
}

// The power of a load with this mark.
pub fn draw_of(i: StoredItem, mark: usize) -> usize
    ensures { result ≡ draw (item_of i) mark }
{
    if mark == 0 { 0 } else { i.power }
}

// The cell of a load with this mark.
pub fn own_of(i: StoredItem, mark: usize) -> u32
    requires { (i.power < power_limit) × (i.worth ≤ max_worth) }
    ensures { (result ≡ score (item_of i) mark) × (result ≤ cell_limit) }
{
    if mark == 0 {
        return cell::EMPTY;
    }
    cell::cell_of(i.power, i.worth)
}
