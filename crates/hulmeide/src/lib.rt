// The planner for the switch's firmware: the functions that C calls. The planner stands behind a reference, where the caller keeps it.
// C may hand in any bytes as a planner: a planner that breaks a limit is refusal 1.
// Each function with a planner leaves the work to a function on values, copies the planner for it, and stores a planner that comes back.
#![tactic(auto)]

ghost use Rattle.std.specs.Prelude.{◌≡◌};
ghost use Rattle.calls.specs.Calls.{called};
ghost use Rattle.calls.specs.Portions.{Portions};
ghost use Rattle.planner.specs.Planner.{held, fresh};
ghost use Rattle.planner.specs.Calls.{call_of};
ghost use Rattle.planner.specs.Portions.{portion_of};
ghost use Rattle.planner.specs.Verdict.{judged_by};
ghost use Rattle.changeover.specs.Changeover.{changed_to, changeover};
ghost use Rattle.page.specs.Drawing.{drawn_of, drawing};
ghost use Rattle.page.specs.Stretch.{place, beginning};
ghost use Rattle.hulmeide.specs.Calls.{done_of, portion_done};
ghost use Rattle.hulmeide.specs.Verdict.{verdict_number};
ghost use Rattle.hulmeide.specs.Version.{version};

use changeover::order::{Step, Switched};
use changeover::writing::switch_over;
use page::drawing::draw;
use page::stretch::{Part, beginning, place};
use planner::Planner;
use tables::refusal::{Refusal, number_in};

// The version, as HULMEIDE_VERSION of the header has it: major * 10000 + minor * 100 + patch.
const VERSION: u32 = 11100;

// The judge's "no". It lies above every number of a refusal.
const NOT_A_RUN: u32 = 255;

// What C is told of a call on a line: its number, 0 if accepted, and the count of bytes written. It is returned by value: the calling
// convention hands its 16 bytes back in two registers.
#[repr(C)]
#[derive(Clone, Copy)]
pub struct Reply {
    pub number: u32,
    pub count: usize,
}

// The planner after a call, and what C is told.
#[derive(Clone, Copy)]
struct Handled<T> {
    planner: Planner,
    told: T,
}

fn handle(
    planner: Planner,
    line: &[u8],
    out: &mut [u8],
    place: usize,
    work: &mut [u32],
) -> Handled<Reply>
    ensures { done_of result.planner result.told out.new work.new ≡ called (held planner) (call_of line.now out.old place work.old) }
{
    let called = planner.call(line, out, place, work);
    Handled {
        planner: called.planner,
        told: Reply {
            number: u32::from(number_in(called.told)),
            count: called.count,
        },
    }
}

// What C is told of a portion: its number, 0 if accepted, and the counts of cells filled and of bytes written, in 16 bytes as well.
#[repr(C)]
#[derive(Clone, Copy)]
pub struct Portion {
    pub number: u32,
    pub filled: u32,
    pub count: usize,
}

fn fill(
    planner: Planner,
    most: usize,
    out: &mut [u8],
    place: usize,
    work: &mut [u32],
) -> Handled<Portion>
    ensures { Portions (held planner) (portion_of most out.old place work.old) (portion_done result.planner result.told out.new work.new) }
{
    let portion = planner.portion(most, out, place, work);
    Handled {
        planner: portion.planner,
        told: Portion {
            number: u32::from(number_in(portion.told)),
            filled: portion.filled,
            count: portion.count,
        },
    }
}

// The number of the judge's answer: 0 for yes, one of its own for no, else that of the refusal.
fn number_of(judged: Result<bool, Refusal>) -> u32
    ensures { result ≡ verdict_number judged }
{
    match judged {
        Ok(true) => 0,
        Ok(false) => NOT_A_RUN,
        Err(refusal) => u32::from(refusal),
    }
}

fn judge_run(planner: Planner, run: &[u32]) -> u32
    ensures { result ≡ verdict_number (judged_by (held planner) run.now) }
{
    number_of(planner.judge(run))
}

fn draw_page(planner: Planner, load: usize, page: &mut [u8]) -> u32
    ensures { drawn_of result page.new ≡ drawing (held planner) load page.old }
{
    u32::from(number_in(draw(planner, load, page)))
}

fn made_fresh() -> Planner
    ensures { result ≡ fresh }
{
    Planner::fresh()
}

// The version of the archive: C compares it with that of its header.
#[unsafe(no_mangle)]
pub extern "C" fn hulmeide_version() -> u32
    ensures { result ≡ version }
{
    VERSION
}

// Makes the planner fresh, whatever it was.
#[unsafe(no_mangle)]
pub extern "C" fn hulmeide_fresh(planner: &mut Planner)
    ensures { planner.new ≡ fresh }
{
    *planner = made_fresh();
}

// Are these numbers, three for each load, a run? 0 for yes, 255 for no, or the number of the refusal.
#[unsafe(no_mangle)]
pub extern "C" fn hulmeide_judge(planner: &Planner, run: &[u32]) -> u32
    ensures { result ≡ verdict_number (judged_by (held planner.now) run.now) }
{
    judge_run(*planner, run)
}

// A line handed to the planner: the answer is written from a place in the output on, and a plan works in the lent cells.
#[unsafe(no_mangle)]
pub extern "C" fn hulmeide_call(
    planner: &mut Planner,
    line: &[u8],
    out: &mut [u8],
    place: usize,
    work: &mut [u32],
) -> Reply
    ensures { done_of planner.new result out.new work.new ≡ called (held planner.old) (call_of line.now out.old place work.old) }
{
    let handled = handle(*planner, line, out, place, work);
    *planner = handled.planner;
    handled.told
}

// At most so many cells of the next plan are filled in the lent work; when every cell is filled, the answer is written from a place in the output on.
#[unsafe(no_mangle)]
pub extern "C" fn hulmeide_portion(
    planner: &mut Planner,
    most: usize,
    out: &mut [u8],
    place: usize,
    work: &mut [u32],
) -> Portion
    ensures { Portions (held planner.old) (portion_of most out.old place work.old) (portion_done planner.new result out.new work.new) }
{
    let filled = fill(*planner, most, out, place, work);
    *planner = filled.planner;
    filled.told
}

// The steps from an old set of loads to a new one, each written as for `check`, go to a lent list: the number, 0 if accepted, and their count.
#[unsafe(no_mangle)]
pub extern "C" fn hulmeide_changeover(
    planner: &Planner,
    old: &[u8],
    new: &[u8],
    list: &mut [Step],
) -> Switched
    ensures { changed_to result.number result.count list.new ≡ changeover (held planner.now) old.now new.now list.old }
{
    switch_over(*planner, old, new, list)
}

// Draws the page of the planner's latest plan, from a load on: 0, or the number of the refusal, which leaves the page as it was.
#[unsafe(no_mangle)]
pub extern "C" fn hulmeide_draw(planner: &Planner, load: usize, page: &mut [u8]) -> u32
    ensures { drawn_of result page.new ≡ drawing (held planner.now) load page.old }
{
    draw_page(*planner, load, page)
}

// Where in the drawn page the stretch lies that the glass does not show yet. (An exported function returns no reference: the header makes the
// pointer.)
#[unsafe(no_mangle)]
pub extern "C" fn hulmeide_stretch(glass: &[u8], drawn: &[u8]) -> Part
    ensures { result ≡ place glass.now drawn.now }
{
    place(glass, drawn)
}

// The row at which it begins, from 1 to 8; 0 where it is empty.
#[unsafe(no_mangle)]
pub extern "C" fn hulmeide_stretch_row(glass: &[u8], drawn: &[u8]) -> usize
    ensures { result ≡ beginning glass.now drawn.now }
{
    beginning(glass, drawn)
}
