// The tables as the planner holds them, and the changes that the commands make.
ghost use Rattle.std.specs.Prelude.{◌≡◌};
ghost use Rattle.tables.specs.Tables.{fresh, empty_book};
ghost use Rattle.tables.specs.Limits.{max_loads};
ghost use Rattle.tables.specs.Stored.{stored_book, stored, tables_of, held_size, held_marks, held_rules};
ghost use Rattle.tables.specs.Kinds.{has_kinds};
ghost use Rattle.tables.specs.Operations.{put_book, put_loads, put_marks, put_rules, book_begun, mark_set, rule_added, load_added, figure_changed, load_dropped, budget_changed};

use crate::load::{Figure, Load, LoadList};
use crate::refusal::Refusal;
use crate::rule::{Sort, Transition, TransitionList};
use marks::Marks;

// The rule book: a tree automaton with its start states and end stages.
#[repr(C)]
#[derive(Clone, Copy)]
pub struct StoredBook {
    pub states: u8,
    pub stages: u8,
    pub starts: Marks,
    pub ends: Marks,
    pub load_rules: TransitionList,
    pub row_rules: TransitionList,
}

// The book, the loads and the budget in watts.
#[repr(C)]
#[derive(Clone, Copy)]
pub struct StoredTables {
    pub book: StoredBook,
    pub loads: LoadList,
    pub budget: u16,
}

impl StoredBook {
    // A book with no rules and no marks.
    pub(crate) fn empty(states: u8, stages: u8) -> StoredBook
        ensures { result ≡ stored_book (empty_book states stages) }
    {
        StoredBook {
            states,
            stages,
            starts: Marks::EMPTY,
            ends: Marks::EMPTY,
            load_rules: TransitionList::EMPTY,
            row_rules: TransitionList::EMPTY,
        }
    }

    // How many states, or stages.
    pub fn size(self, sort: Sort) -> u8
        ensures { result ≡ held_size self sort }
    {
        match sort {
            Sort::Load => self.states,
            Sort::Row => self.stages,
        }
    }

    // The start states, or the end stages.
    pub(crate) fn marks(&self, sort: Sort) -> Marks
        ensures { result ≡ held_marks self.now sort }
    {
        match sort {
            Sort::Load => self.starts,
            Sort::Row => self.ends,
        }
    }

    // The load rules, or the row rules.
    pub(crate) fn rules(&self, sort: Sort) -> &TransitionList
        ensures { result.now ≡ held_rules self.now sort }
    {
        match sort {
            Sort::Load => &self.load_rules,
            Sort::Row => &self.row_rules,
        }
    }

    fn with_marks(self, sort: Sort, marks: Marks) -> StoredBook
        ensures { result ≡ put_marks sort self marks }
    {
        match sort {
            Sort::Load => StoredBook {
                starts: marks,
                ..self
            },
            Sort::Row => StoredBook {
                ends: marks,
                ..self
            },
        }
    }

    fn with_rules(self, sort: Sort, rules: TransitionList) -> StoredBook
        ensures { result ≡ put_rules sort self rules }
    {
        match sort {
            Sort::Load => StoredBook {
                load_rules: rules,
                ..self
            },
            Sort::Row => StoredBook {
                row_rules: rules,
                ..self
            },
        }
    }
}

impl StoredTables {
    // The tables of a fresh planner.
    pub fn fresh() -> StoredTables
        ensures { result ≡ stored (fresh max_loads) }
    {
        StoredTables {
            book: StoredBook::empty(0, 0),
            loads: LoadList::EMPTY,
            budget: 0,
        }
    }

    // Has some load or load rule a kind other than 0?
    #[tactic(auto, unfolding(crate::specs::Kinds::has_kinds, crate::specs::Stored::tables_of, crate::specs::Stored::book_of))]
    pub fn has_kinds(self) -> bool
        ensures { result ≡ has_kinds (tables_of self) }
    {
        self.book.load_rules.has_kinds() || self.loads.has_kinds()
    }

    fn with_book(self, book: StoredBook) -> StoredTables
        ensures { result ≡ put_book self book }
    {
        StoredTables { book, ..self }
    }

    fn with_loads(self, loads: LoadList) -> StoredTables
        ensures { result ≡ put_loads self loads }
    {
        StoredTables { loads, ..self }
    }

    // A new book: no rules, no marks. Loads and budget stay.
    #[tactic(auto, unfolding(crate::specs::Operations::book_begun))]
    pub fn new_book(self, states: u8, stages: u8) -> StoredTables
        ensures { result ≡ book_begun self states stages }
    {
        self.with_book(StoredBook::empty(states, stages))
    }

    // One more start state, or end stage.
    #[tactic(auto, unfolding(crate::specs::Operations::mark_set))]
    pub fn mark(self, sort: Sort, number: usize) -> StoredTables
        ensures { result ≡ mark_set self sort number }
    {
        let marks = self.book.marks(sort).with(number);
        self.with_book(self.book.with_marks(sort, marks))
    }

    // One more load rule, or row rule.
    #[tactic(auto, unfolding(crate::specs::Operations::rule_added))]
    pub fn add_rule(self, sort: Sort, t: Transition) -> Result<StoredTables, Refusal>
        ensures { result ≡ rule_added self sort t }
    {
        let rules = (*self.book.rules(sort)).append(t)?;
        Ok(self.with_book(self.book.with_rules(sort, rules)))
    }

    #[tactic(auto, unfolding(crate::specs::Operations::load_added))]
    pub fn add_load(self, l: Load) -> Result<StoredTables, Refusal>
        ensures { result ≡ load_added self l }
    {
        let loads = self.loads.append(l)?;
        Ok(self.with_loads(loads))
    }

    // Another figure of the load of this number.
    #[tactic(auto, unfolding(crate::specs::Operations::figure_changed))]
    pub fn set_figure(self, figure: Figure, number: usize, value: u16) -> StoredTables
        ensures { result ≡ figure_changed self figure number value }
    {
        self.with_loads(self.loads.set_figure(figure, number, value))
    }

    // The tables without the load of this number. A number of no load changes nothing.
    #[tactic(auto, unfolding(crate::specs::Operations::load_dropped))]
    pub fn drop_load(self, number: usize) -> StoredTables
        ensures { result ≡ load_dropped self number }
    {
        self.with_loads(self.loads.remove(number))
    }

    #[tactic(auto, unfolding(crate::specs::Operations::budget_changed))]
    pub fn set_budget(self, watts: u16) -> StoredTables
        ensures { result ≡ budget_changed self watts }
    {
        StoredTables {
            budget: watts,
            ..self
        }
    }
}
