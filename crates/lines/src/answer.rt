// What a line is answered that is accepted.
use crate::SaveForm;

// The answer to a line. The run of a plan or of an allowed check stands beside it, and the tables that a save writes.
#[derive(Clone, Copy)]
pub enum Answer {
    Accepted,
    Planned { worth: u32, power: u32, on: u32 },
    Allowed,
    Saved { form: SaveForm },
    Needed { budget: u32 },
}
