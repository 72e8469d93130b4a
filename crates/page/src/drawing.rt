// Drawing the latest plan of a planner.
ghost use Rattle.std.specs.Prelude.{◌≡◌, OnOk, length};
ghost use Rattle.tables.specs.Refusals.{number_in};
ghost use Rattle.planner.specs.Planner.{held, state_in};
ghost use Rattle.page.specs.Drawing.{page_of, refusal_of, drawn_of, drawing, Drawable};

use crate::PAGE_BYTES;
use crate::rows::{put_blanks, put_loads, put_no_plan, put_plan};
use engine::figures::figures_of;
use lines::writing::Writer;
use planner::Planner;
use runs::outcome::{NO_SET, NOTHING};
use tables::refusal::Refusal;

// What refuses a drawing, the page first.
#[tactic(auto, using(crate::proofs::Drawn::refusals))]
fn refusal(planner: Planner, load: usize, bytes: usize) -> Result<(), Refusal>
    ensures number { number_in result ≡ refusal_of (held planner) load bytes }
    ensures drawn { OnOk result (Drawable planner load bytes) }
{
    if bytes != PAGE_BYTES {
        return Err(Refusal::NotAPage);
    }
    if !planner.keeps_limits() {
        return Err(Refusal::Unusable);
    }
    if load < 1 || planner.tables.loads.count < load {
        return Err(Refusal::OutOfRange);
    }
    if planner.outcome.status == NOTHING {
        return Err(Refusal::NoPlan);
    }
    Ok(())
}

// The page of a planner whose plan is current, from the start of the output on.
fn write_page(w: &mut Writer, planner: Planner, load: usize)
    requires { Drawable planner load (length w.old.out.now) × (w.old.at ≡ 0) }
    ensures lent { w.new.out.ghost_name ≡ w.old.out.ghost_name }
    ensures page { w.new.out.now ≡ page_of (state_in planner) load }
{
    if planner.outcome.status == NO_SET {
        put_no_plan(w);
        put_blanks(w, PAGE_BYTES);
        return;
    }
    let loads = planner.tables.loads;
    let run = planner.outcome.run;
    let set = run.set;
    let figures = figures_of(loads, set);
    put_plan(w, figures.worth, figures.power);
    put_loads(w, loads, set, load);
}

fn draw_rows(planner: Planner, load: usize, page: &mut [u8])
    requires { Drawable planner load (length page.old) }
    ensures { page.new ≡ page_of (state_in planner) load }
{
    let mut w = Writer { out: page, at: 0 };
    write_page(&mut w, planner, load);
}

// Draws the page of a planner from a load on. A refusal leaves the page as it was.
#[tactic(auto, using(crate::proofs::Drawn::drawings))]
pub fn draw(planner: Planner, load: usize, page: &mut [u8]) -> Result<(), Refusal>
    ensures { drawn_of (number_in result) page.new ≡ drawing (held planner) load page.old }
{
    refusal(planner, load, page.len())?;
    draw_rows(planner, load, page);
    Ok(())
}
