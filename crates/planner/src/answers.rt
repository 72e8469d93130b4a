// The text of an answer, in the free part of the output.
ghost use Rattle.std.specs.Prelude.{◌≡◌, ◌≤◌, length};
ghost use Rattle.lines.specs.Answers.{Wrote, answer_text, entry_lines, text_of, numbered};
ghost use Rattle.lines.specs.Saved.{saved};
ghost use Rattle.lines.specs.Writing.{HasRoom, Writes};
ghost use Rattle.tables.specs.Limits.{max_loads};
ghost use Rattle.tables.specs.Stored.{tables_of, Holds};
ghost use Rattle.runs.specs.Runs.{entries_to};
ghost use Rattle.planner.specs.Decided.{entries_shown};

use lines::answer::Answer;
use lines::writing::Writer;
use runs::run::Run;
use tables::refusal::Refusal;
use tables::tables::StoredTables;

// The lines of the first n loads. (A run holds columns: an entry of it is made from its number.)
fn write_loads(w: &mut Writer, run: Run, n: usize)
    requires { (n ≤ max_loads) × HasRoom w.old (entry_lines (entries_to run n)) }
    ensures { Writes w.old w.new (entry_lines (entries_to run n)) }
{
    for i in 0..n {
        w.write_entry(run.entry(i));
    }
}

// The lines of the run that an answer shows, where it shows one.
fn write_run(w: &mut Writer, run: Option<Run>, n: usize)
    requires { (n ≤ max_loads) × HasRoom w.old (entry_lines (entries_shown run n)) }
    ensures { Writes w.old w.new (entry_lines (entries_shown run n)) }
{
    if let Some(run) = run {
        write_loads(w, run, n);
    }
}

// The text of an answer on tables, with the run of their loads beside it.
fn write_accepted(w: &mut Writer, answer: Answer, run: Option<Run>, tables: StoredTables)
    requires { Holds max_loads tables × HasRoom w.old (answer_text answer (entries_shown run tables.loads.count) (saved (tables_of tables))) }
    ensures { Writes w.old w.new (answer_text answer (entries_shown run tables.loads.count) (saved (tables_of tables))) }
{
    match answer {
        Answer::Accepted => w.write_ok(),
        Answer::Planned { worth, power, on } => {
            w.write_plan(worth, power, on);
            write_run(w, run, tables.loads.count)
        }
        Answer::Allowed => {
            w.write_yes();
            write_run(w, run, tables.loads.count)
        }
        Answer::Saved { form } => w.write_save(form, tables),
        Answer::Needed { budget } => w.write_need(budget),
    }
}

// That of an answer or of a refusal.
fn write_told(w: &mut Writer, told: Result<Answer, Refusal>, run: Option<Run>, tables: StoredTables)
    requires { Holds max_loads tables × HasRoom w.old (text_of (numbered told) (entries_shown run tables.loads.count) (saved (tables_of tables))) }
    ensures { Writes w.old w.new (text_of (numbered told) (entries_shown run tables.loads.count) (saved (tables_of tables))) }
{
    match told {
        Ok(answer) => write_accepted(w, answer, run, tables),
        Err(refusal) => w.write_no(refusal),
    }
}

// The answer is written from the start of the output on; the count of its bytes.
pub(crate) fn write_answer(
    out: &mut [u8],
    told: Result<Answer, Refusal>,
    run: Option<Run>,
    tables: StoredTables,
) -> usize
    requires { Holds max_loads tables × (length (text_of (numbered told) (entries_shown run tables.loads.count) (saved (tables_of tables))) ≤ length out.old) }
    ensures { Wrote out.old out.new 0 result (text_of (numbered told) (entries_shown run tables.loads.count) (saved (tables_of tables))) }
{
    let mut w = Writer { out, at: 0 };
    write_told(&mut w, told, run, tables);
    w.at
}
