// The outline of a problem: what a search reads of the tables, looked up once and lent as numbers.
ghost use Rattle.std.specs.Prelude.{◌≡◌, ◌+◌, ◌*◌, ◌≤◌, ◌<◌, length, get_or, replicate};
ghost use Rattle.tables.specs.Limits.{max_loads, max_rules, max_worth};
ghost use Rattle.meaning.specs.Cell.{power_limit};
ghost use Rattle.cells.specs.Problem.{items_if, item_of, shape_of, Lawful};
ghost use Rattle.cells.specs.Outline.{outline_size, rule_numbers, lead_in, rules_in, joint_in, with_load, with_rule, LoadsPut, RulesPut, Outlines, NextRule};

use crate::problem::{ANY_MARK, Problem, Shape, StoredItem};
use marks::LoadSet;
use tables::load::{Load, MAX_LOADS};
use tables::rule::{MAX_RULES, Transition, TransitionList};

// The numbers of a load: its first child, its next sibling, its power, its worth, its mark and its kind. Load 0 is the parent of the root.
const LOAD_NUMBERS: usize = 6;

// The numbers of a rule.
const RULE_NUMBERS: usize = 4;

// Where the load rules stand, where the row rules, and how many there are of either.
const LOAD_RULES: usize = LOAD_NUMBERS * (MAX_LOADS + 1);

const ROW_RULES: usize = LOAD_RULES + RULE_NUMBERS * MAX_RULES;

const COUNTS: usize = ROW_RULES + RULE_NUMBERS * MAX_RULES;

// The numbers of an outline.
pub const OUTLINE: usize = COUNTS + 2;

// Rules of one sort that begin at one state or stage: where those of their sort stand, how many these are, and the state or stage.
#[derive(Clone, Copy)]
pub struct Rules {
    pub at: usize,
    pub count: usize,
    pub from: u16,
}

// What a rule leads to, wherever it begins: its label, its stage and its kind.
#[derive(Clone, Copy)]
pub struct Lead {
    pub label: usize,
    pub stage: usize,
    pub kind: usize,
}

// What a rule joins with the row from load `rest` onward, 0 for none as in the outline: a row rule the branch of a load, a load rule the load alone.
// Two cases of an enum would each hold the load and the row, and every use would take them apart.
#[derive(Clone, Copy)]
pub struct Joint {
    pub branch: bool,
    pub load: usize,
    pub item: StoredItem,
    pub rest: usize,
}

// What counts of load k: of a load in a set only its kind and its mark there do.
fn item_of(set: Option<LoadSet>, k: usize, l: Load) -> StoredItem
    requires { (l.power < power_limit) × (l.worth ≤ max_worth) }
    ensures { (item_of result ≡ items_if set k l) × (result.power < power_limit) × (result.worth ≤ max_worth) }
{
    match set {
        None => StoredItem {
            power: usize::from(l.power),
            worth: u32::from(l.worth),
            mark: ANY_MARK,
            kind: u16::from(l.kind),
        },
        Some(set) => StoredItem {
            power: 0,
            worth: 0,
            mark: u16::from(set.has(k)),
            kind: u16::from(l.kind),
        },
    }
}

// Load k, below load q, is written: the child of q till now comes after it. A slice would hide which number goes to which place.
fn put_load(o: &mut [u16], k: usize, q: usize, i: StoredItem)
    requires { (length o.old ≡ outline_size) × (k ≤ max_loads) × (q ≤ max_loads) × (i.power < power_limit) × (i.worth ≤ max_worth) }
    ensures { o.new ≡ with_load o.old k q i }
{
    let at = LOAD_NUMBERS * k;
    o[at + 1] = o[LOAD_NUMBERS * q];
    o[at + 2] = i.power as u16;
    o[at + 3] = i.worth as u16;
    o[at + 4] = i.mark;
    o[at + 5] = i.kind;
    o[LOAD_NUMBERS * q] = k as u16;
}

// The loads are written, from last to first.
fn put_loads(o: &mut [u16], p: Problem)
    requires lawful { Lawful p }
    requires o_value { o.old ≡ replicate outline_size 0 }
    ensures { LoadsPut p o.old 0 o.new }
{
    let loads = p.tables.loads;
    for i in (0..loads.count).rev() {
        let l = loads.items[i];
        let item = item_of(p.set, i + 1, l);
        put_load(&mut *o, i + 1, usize::from(l.parent), item);
    }
}

// A rule is written, number by number as a load is.
fn put_rule(o: &mut [u16], at: usize, t: Transition)
    requires { at + rule_numbers ≤ length o.old }
    ensures { o.new ≡ with_rule o.old at t }
{
    o[at] = u16::from(t.from);
    o[at + 1] = u16::from(t.label);
    o[at + 2] = u16::from(t.to);
    o[at + 3] = u16::from(t.kind);
}

// Rules of one sort are written from a place on.
fn put_rules(o: &mut [u16], rules: TransitionList, at: usize)
    requires { (rules.count ≤ max_rules) × (length rules.items ≡ max_rules) × (at + rule_numbers * max_rules ≤ length o.old) }
    ensures { RulesPut rules o.old at rules.count o.new }
{
    for (j, &t) in rules.items[..rules.count].iter().enumerate() {
        put_rule(&mut *o, at + RULE_NUMBERS * j, t);
    }
}

// The outline of a problem.
pub fn put_outline(o: &mut [u16], p: Problem)
    requires lawful { Lawful p }
    requires o_value { o.old ≡ replicate outline_size 0 }
    ensures { Outlines p (shape_of p) o.new }
{
    let book = p.tables.book;
    put_loads(&mut *o, p);
    put_rules(&mut *o, book.load_rules, LOAD_RULES);
    put_rules(&mut *o, book.row_rules, ROW_RULES);
    o[COUNTS] = book.load_rules.count as u16;
    o[COUNTS + 1] = book.row_rules.count as u16;
}

// The rules that begin at state or stage x.
pub fn rules_at(sh: Shape, o: &[u16], x: usize) -> Rules
    requires { (length o.now ≡ outline_size) × (x < 65535) }
    ensures { result ≡ rules_in sh o.now x }
{
    if sh.states <= x {
        return Rules {
            at: ROW_RULES,
            count: usize::from(o[COUNTS + 1]),
            from: (x - sh.states + 1) as u16,
        };
    }
    Rules {
        at: LOAD_RULES,
        count: usize::from(o[COUNTS]),
        from: (x + 1) as u16,
    }
}

// What these rules join at load k.
pub fn joint_at(sh: Shape, o: &[u16], k: usize, x: usize) -> Joint
    requires { (length o.now ≡ outline_size) × (k ≤ max_loads) }
    ensures { result ≡ joint_in sh o.now k x }
{
    let at = LOAD_NUMBERS * k;
    let branch = sh.states <= x;
    let rest = if branch { o[at + 1] } else { o[at] };
    Joint {
        branch,
        load: k,
        item: StoredItem {
            power: usize::from(o[at + 2]),
            worth: u32::from(o[at + 3]),
            mark: o[at + 4],
            kind: o[at + 5],
        },
        rest: usize::from(rest),
    }
}

// The next of these rules from rule j on, if there is one. The rules of a book are reached through this function alone.
pub fn next_rule(o: &[u16], r: Rules, j: usize) -> Option<usize>
    requires { (r.count ≤ max_rules) × (r.at + rule_numbers * max_rules ≤ length o.now) × (j ≤ r.count) }
    ensures { NextRule o.now r j result }
{
    (j..r.count).find(|&i| o[r.at + RULE_NUMBERS * i] == r.from)
}

// What one of these rules leads to.
pub fn lead_of(o: &[u16], r: Rules, j: usize) -> Lead
    requires { (j < max_rules) × (r.at + rule_numbers * max_rules ≤ length o.now) }
    ensures { result ≡ lead_in o.now r.at j }
{
    let at = r.at + RULE_NUMBERS * j;
    Lead {
        label: usize::from(o[at + 1]),
        stage: usize::from(o[at + 2]),
        kind: usize::from(o[at + 3]),
    }
}
