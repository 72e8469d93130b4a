// The test of tables that are handed in: do they keep the limits?
ghost use Rattle.std.specs.Prelude.{◌≡◌, true, ◌↔◌, drop};
ghost use Rattle.lists.specs.Tests.{distinct, every, every_from};
ghost use Rattle.tables.specs.Limits.{size_in, rule_in, same_rule, load_in, max_loads};
ghost use Rattle.tables.specs.Stored.{rules_of, loads_of, zero_rule, zero_load, keeps_limits, Holds};
ghost use Rattle.tables.specs.Places.{rules_held, loads_held, sort_held, book_held};

use crate::load::{Load, LoadList, MAX_LOADS};
use crate::rule::{MAX_RULES, RuleRange, Sort, Transition, TransitionList};
use crate::tables::{StoredBook, StoredTables};

pub const MAX_STATES: u8 = 8;

pub const MAX_BUDGET: u16 = 500;

// Are there 1 to 8 states and stages, or none of either?
pub(crate) fn size_in(states: u8, stages: u8) -> bool
    ensures { result ≡ size_in states stages }
{
    let none = states == 0 && stages == 0;
    let some = (1..=MAX_STATES).contains(&states) && (1..=MAX_STATES).contains(&stages);
    none || some
}

impl TransitionList {
    // Is each rule in its range?
    fn all_in(&self, range: RuleRange) -> bool
        ensures { result ≡ every (rule_in range) (rules_of self.now) }
    {
        self.items.iter().take(self.count).all(|t| range.holds(*t))
    }

    // Is no rule there twice?
    fn is_distinct(&self) -> bool
        ensures { result ≡ distinct same_rule (rules_of self.now) }
    {
        self.items
            .iter()
            .take(self.count)
            .enumerate()
            .all(|(i, t)| !self.found_from(*t, i + 1))
    }

    // Do the places that are not in use hold 0?
    fn rest_is_free(&self) -> bool
        ensures { result ≡ every zero_rule (drop self.now.count self.now.items) }
    {
        self.items
            .iter()
            .skip(self.count)
            .all(|t| *t == Transition::NONE)
    }

    #[tactic(auto, using(crate::proofs::Places::rules_tested))]
    pub(crate) fn keeps_limits(&self, range: RuleRange) -> bool
        ensures { result ≡ rules_held range self.now }
    {
        self.count <= MAX_RULES && self.all_in(range) && self.is_distinct() && self.rest_is_free()
    }
}

impl LoadList {
    // Is each load in range for its number?
    fn all_in_range(&self) -> bool
        ensures { result ≡ every_from load_in 1 (loads_of self.now) }
    {
        self.items
            .iter()
            .take(self.count)
            .enumerate()
            .all(|(place, load)| load.in_range(place + 1))
    }

    // Do the places that are not in use hold 0?
    fn rest_is_free(&self) -> bool
        ensures { result ≡ every zero_load (drop self.now.count self.now.items) }
    {
        self.items
            .iter()
            .skip(self.count)
            .all(|load| *load == Load::NONE)
    }

    #[tactic(auto, using(crate::proofs::Places::loads_tested))]
    pub(crate) fn keeps_limits(&self) -> bool
        ensures { result ≡ loads_held self.now }
    {
        self.count <= MAX_LOADS && self.all_in_range() && self.rest_is_free()
    }
}

impl StoredBook {
    // Do the marks and the rules of this sort keep the limits?
    #[tactic(auto, using(crate::proofs::Places::sort_placed))]
    fn sort_keeps(&self, sort: Sort) -> bool
        ensures { result ≡ sort_held sort self.now }
    {
        let range = RuleRange::of(sort, self.states, self.stages);
        let rules = self.rules(sort);
        self.marks(sort).up_to(usize::from(self.size(sort))) && rules.keeps_limits(range)
    }

    #[tactic(auto, using(crate::proofs::Places::book_placed))]
    pub(crate) fn keeps_limits(&self) -> bool
        ensures { result ≡ book_held self.now }
    {
        size_in(self.states, self.stages)
            && self.sort_keeps(Sort::Load)
            && self.sort_keeps(Sort::Row)
    }
}

impl StoredTables {
    // Exactly if these are tables that keep the limits, laid out, with 0 at every unused place.
    pub fn keeps_limits(self) -> bool
        ensures equation { result ≡ keeps_limits self }
        ensures exactly { (result ≡ true) ↔ Holds max_loads self }
    {
        self.book.keeps_limits() && self.loads.keeps_limits() && self.budget <= MAX_BUDGET
    }
}
