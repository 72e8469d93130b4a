// The judge of proposed runs: three numbers for each load, in load order.
#![tactic(auto)]

ghost use Rattle.std.specs.Prelude.{◌*◌, ◌<◌, ◌≡◌, true, length};
ghost use Rattle.tables.specs.Stored.{book_of, tables_of, keeps_limits};
ghost use Rattle.meaning.specs.Judge.{starts};
ghost use Rattle.judge.specs.Verdict.{is_run, judged};

use tables::refusal::Refusal;
use tables::tables::{StoredBook, StoredTables};

mod figures;
mod walk;

// Is q the number of a start state?
fn is_start(book: StoredBook, q: u32) -> bool
    ensures { result ≡ starts (book_of book) q }
{
    let state = q as usize;
    state <= usize::from(book.states) && book.starts.has(state)
}

// Are the numbers a run? The root is in a start state and has row rule 0, and its branch is run by the rules.
fn tree_runs(t: StoredTables, run: &[u32]) -> bool
    requires { (keeps_limits t ≡ true) × (0 < t.loads.count) × (length run.now ≡ 3 * t.loads.count) }
    ensures { result ≡ is_run (tables_of t) run.now }
{
    if !is_start(t.book, run[0]) {
        return false;
    }
    if run[2] != 0 {
        return false;
    }
    let steps = figures::look_up(t, run);
    walk::branch_runs(&steps[..t.loads.count], 1, t.book.ends)
}

// Is the run proposed for these tables a run: yes, no, or a refusal?
pub fn judge(t: StoredTables, run: &[u32]) -> Result<bool, Refusal>
    ensures { result ≡ judged t run.now }
{
    if !t.keeps_limits() {
        return Err(Refusal::Unusable);
    }
    let n = t.loads.count;
    if n == 0 {
        return Err(Refusal::NoLoads);
    }
    if run.len() != 3 * n {
        return Err(Refusal::OutOfRange);
    }
    Ok(tree_runs(t, run))
}
