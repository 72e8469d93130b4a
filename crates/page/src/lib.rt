// The page of the electrician's handheld: `draw` shows the latest plan of a planner, and `stretch` what of a page has to go to the glass.
#![tactic(auto)]

pub mod drawing;
mod rows;
pub mod stretch;

// "A page is 8 rows of 20 ASCII bytes."
pub const ROW_BYTES: usize = 20;

pub const ROW_COUNT: usize = 8;

pub const PAGE_BYTES: usize = ROW_COUNT * ROW_BYTES;
