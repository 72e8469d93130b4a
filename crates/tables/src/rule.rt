// Rules of both sorts, and lists of them.
ghost use Rattle.std.specs.Prelude.{◌≡◌};
ghost use Rattle.lists.specs.Tests.{some};
ghost use Rattle.lists.specs.Arrays.{rest};
ghost use Rattle.tables.specs.Limits.{rule_in, rule_range, same_rule};
ghost use Rattle.tables.specs.Stored.{rules_of};
ghost use Rattle.tables.specs.Kinds.{rule_kinded};
ghost use Rattle.tables.specs.Operations.{appended};

use crate::load::MAX_KIND;
use crate::refusal::Refusal;

pub const MAX_RULES: usize = 32;

// "A state belongs to a load, a stage to a place in a row of children": what a book has of either sort, a number of states with start marks
// and load rules, a number of stages with end marks and row rules.
#[derive(Clone, Copy)]
pub enum Sort {
    Load,
    Row,
}

// A transition of the tree automaton. A load rule is (state, mark, stage) with the kind of the loads that it serves, a row rule (stage, state,
// next stage), with kind 0.
#[repr(C)]
#[derive(Clone, Copy, PartialEq, Eq)]
pub struct Transition {
    pub from: u8,
    pub label: u8,
    pub to: u8,
    pub kind: u8,
}

// Rules in order of entry. The first `count` places are in use.
// It stands beside `LoadList` as a type of its own, since C takes no generic struct.
#[repr(C)]
#[derive(Clone, Copy)]
pub struct TransitionList {
    pub items: [Transition; MAX_RULES],
    pub count: usize,
}

// The ranges of a rule's numbers: 1 to `from`, `low` to `high`, 1 to `to`, and a kind of 0 to `kind`.
#[derive(Clone, Copy)]
pub struct RuleRange {
    pub from: u8,
    pub low: u8,
    pub high: u8,
    pub to: u8,
    pub kind: u8,
}

impl Transition {
    // What an unused place holds.
    pub const NONE: Transition = Transition {
        from: 0,
        label: 0,
        to: 0,
        kind: 0,
    };

    // Is it the rule u? Without branches, so that many are compared at once.
    #[tactic(auto, unfolding(crate::specs::Limits::same_rule))]
    fn same(self, u: Transition) -> bool
        ensures { result ≡ same_rule self u }
    {
        (self.from == u.from) & (self.label == u.label) & (self.to == u.to) & (self.kind == u.kind)
    }
}

impl RuleRange {
    // A load rule is state, mark 0 or 1, stage and kind; a row rule is stage, state, next stage, and has no kind.
    pub fn of(sort: Sort, states: u8, stages: u8) -> RuleRange
        ensures { result ≡ rule_range states stages sort }
    {
        match sort {
            Sort::Load => RuleRange {
                from: states,
                low: 0,
                high: 1,
                to: stages,
                kind: MAX_KIND,
            },
            Sort::Row => RuleRange {
                from: stages,
                low: 1,
                high: states,
                to: stages,
                kind: 0,
            },
        }
    }

    // Is each number of t in its range?
    #[tactic(auto, unfolding(crate::specs::Limits::rule_in))]
    pub(crate) fn holds(self, t: Transition) -> bool
        ensures { result ≡ rule_in self t }
    {
        (1..=self.from).contains(&t.from)
            && (self.low..=self.high).contains(&t.label)
            && (1..=self.to).contains(&t.to)
            && t.kind <= self.kind
    }
}

impl TransitionList {
    pub const EMPTY: TransitionList = TransitionList {
        items: [Transition::NONE; MAX_RULES],
        count: 0,
    };

    // Is the rule t in the list, from place `start` on? It looks at each place to the end: without branches that is quicker than to stop where it is.
    pub(crate) fn found_from(&self, t: Transition, start: usize) -> bool
        ensures { result ≡ some (same_rule t) (rest self.now.items self.now.count start) }
    {
        let end = self.count.min(MAX_RULES);
        self.items[start.min(end)..end]
            .iter()
            .fold(false, |found, u| found | t.same(*u))
    }

    // Has some rule a kind other than 0?
    pub(crate) fn has_kinds(self) -> bool
        ensures { result ≡ some rule_kinded (rules_of self) }
    {
        self.items.iter().take(self.count).any(|t| 0 < t.kind)
    }

    // The list with t at its end, unless it is full or has t already.
    pub(crate) fn append(self, t: Transition) -> Result<TransitionList, Refusal>
        ensures { result ≡ appended self t }
    {
        if MAX_RULES <= self.count {
            return Err(Refusal::Full);
        }
        if self.found_from(t, 0) {
            return Err(Refusal::SameRule);
        }
        let mut next = self;
        next.items[self.count] = t;
        next.count = self.count + 1;
        Ok(next)
    }
}
