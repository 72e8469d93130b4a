// A save: the lines that rebuild the tables, in the free part of the lent output.
ghost use Rattle.std.specs.Prelude.{◌≡◌, ◌≤◌, map};
ghost use Rattle.tables.specs.Limits.{max_rules, max_loads};
ghost use Rattle.tables.specs.declared.rule.Sort.{Sort};
ghost use Rattle.tables.specs.Stored.{held_rules, book_of, tables_of, Holds};
ghost use Rattle.lines.specs.declared.SaveForm.TheVariants.{Kinds};
ghost use Rattle.lines.specs.Written.{change_line};
ghost use Rattle.lines.specs.Writing.{HasRoom, Writes};
ghost use Rattle.lines.specs.Grammar.{number_count};
ghost use Rattle.lines.specs.Saved.{mark_change, mark_if_set, mark_changes, rule_change, load_change, size_change, book_changes, changes_text, save_text};

use crate::SaveForm;
use crate::writing::Writer;
use marks::Marks;
use tables::load::Load;
use tables::rule::{Sort, Transition};
use tables::tables::{StoredBook, StoredTables};

// How many numbers the line of a load rule and that of a load have.
fn number_count(form: SaveForm) -> usize
    ensures { result ≡ number_count form }
{
    match form {
        SaveForm::Kinds => 4,
        SaveForm::Plain => 3,
    }
}

impl Writer<'_> {
    // The line that marks a state, or a stage.
    fn write_mark(&mut self, sort: Sort, number: u8)
        requires { HasRoom self.old (change_line Kinds (mark_change sort number)) }
        ensures { Writes self.old self.new (change_line Kinds (mark_change sort number)) }
    {
        match sort {
            Sort::Load => self.write_line(b"start", &[u32::from(number)]),
            Sort::Row => self.write_line(b"end", &[u32::from(number)]),
        }
    }

    // The line that adds a rule of this sort.
    fn write_rule(&mut self, form: SaveForm, sort: Sort, t: Transition)
        requires { HasRoom self.old (change_line form (rule_change sort t)) }
        ensures { Writes self.old self.new (change_line form (rule_change sort t)) }
    {
        let numbers = [
            u32::from(t.from),
            u32::from(t.label),
            u32::from(t.to),
            u32::from(t.kind),
        ];
        match sort {
            Sort::Load => self.write_line(b"rule", &numbers[..number_count(form)]),
            Sort::Row => self.write_line(b"row", &numbers[..3]),
        }
    }

    // The line that adds a load.
    fn write_load(&mut self, form: SaveForm, l: Load)
        requires { HasRoom self.old (change_line form (load_change l)) }
        ensures { Writes self.old self.new (change_line form (load_change l)) }
    {
        let numbers = [
            u32::from(l.parent),
            u32::from(l.power),
            u32::from(l.worth),
            u32::from(l.kind),
        ];
        self.write_line(b"load", &numbers[..number_count(form)])
    }

    // The line of a book, if there are states.
    fn write_size(&mut self, states: u8, stages: u8)
        requires { HasRoom self.old (changes_text Kinds (size_change states stages)) }
        ensures { Writes self.old self.new (changes_text Kinds (size_change states stages)) }
    {
        if states != 0 {
            self.write_line(b"book", &[u32::from(states), u32::from(stages)]);
        }
    }

    // The line of a mark, if it is set.
    fn write_if_set(&mut self, sort: Sort, marks: Marks, number: u8)
        requires { HasRoom self.old (changes_text Kinds (mark_if_set sort marks number)) }
        ensures { Writes self.old self.new (changes_text Kinds (mark_if_set sort marks number)) }
    {
        if marks.has(usize::from(number)) {
            self.write_mark(sort, number);
        }
    }

    // The lines of the start states, or of the end stages, ascending.
    fn write_marks(&mut self, sort: Sort, marks: Marks, size: u8)
        requires { HasRoom self.old (changes_text Kinds (mark_changes sort marks size)) }
        ensures { Writes self.old self.new (changes_text Kinds (mark_changes sort marks size)) }
    {
        for i in 0..size {
            self.write_if_set(sort, marks, i + 1);
        }
    }

    // The lines of rules of one sort, in order.
    fn write_rules(&mut self, form: SaveForm, sort: Sort, rules: &[Transition])
        requires { HasRoom self.old (changes_text form (map (rule_change sort) rules.now)) }
        ensures { Writes self.old self.new (changes_text form (map (rule_change sort) rules.now)) }
    {
        for t in rules {
            self.write_rule(form, sort, *t);
        }
    }

    // The lines of the loads, in order.
    fn write_loads(&mut self, form: SaveForm, loads: &[Load])
        requires { HasRoom self.old (changes_text form (map load_change loads.now)) }
        ensures { Writes self.old self.new (changes_text form (map load_change loads.now)) }
    {
        for l in loads {
            self.write_load(form, *l);
        }
    }

    // The lines of a book: its size, its marks and its rules.
    fn write_book(&mut self, form: SaveForm, book: StoredBook)
        requires { ((k : Sort) → (held_rules book k).count ≤ max_rules) × HasRoom self.old (changes_text form (book_changes (book_of book))) }
        ensures { Writes self.old self.new (changes_text form (book_changes (book_of book))) }
    {
        let rules = &book.load_rules.items[..book.load_rules.count];
        let rows = &book.row_rules.items[..book.row_rules.count];
        self.write_size(book.states, book.stages);
        self.write_marks(Sort::Load, book.starts, book.states);
        self.write_marks(Sort::Row, book.ends, book.stages);
        self.write_rules(form, Sort::Load, rules);
        self.write_rules(form, Sort::Row, rows);
    }

    // The save of tables in a form: the lines that rebuild them.
    pub fn write_save(&mut self, form: SaveForm, tables: StoredTables)
        requires { Holds max_loads tables × HasRoom self.old (save_text form (tables_of tables)) }
        ensures { Writes self.old self.new (save_text form (tables_of tables)) }
    {
        let loads = &tables.loads.items[..tables.loads.count];
        self.write_line(b"clear", &[]);
        self.write_book(form, tables.book);
        self.write_loads(form, loads);
        self.write_line(b"budget", &[u32::from(tables.budget)]);
    }
}
