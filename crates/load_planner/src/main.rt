// The line program: reads lines from standard input, and prints each answer as soon as its line is complete.
#![tactic(auto)]

ghost use Rattle.std.specs.Prelude.{◌+◌, ◌-◌, ◌≤◌, ◌<◌, ◌≡◌, true, false, length, take, drop, Ok};
ghost use Rattle.calls.specs.Rows.{most_bytes};
ghost use Rattle.calls.specs.Program.{done_on, answered, after_chunk, at_end, started, lent_cells};
ghost use Rattle.planner.specs.Calls.{done_of};
ghost use Rattle.load_planner.specs.Session.{lent, left_of, carried_of, count_of, Stepped};

mod session;

use lines::splitting::{MOST_KEPT, take_line};
use planner::Planner;
use planner::call::Called;
use session::{LENT_BYTES, LENT_CELLS, Session};
use std::io;
use std::io::{ErrorKind, Read, Write};

// As many bytes are read at once.
const CHUNK_BYTES: usize = 4096;

// Says on standard error what failed, and how. Where that fails too, nothing is left to say it on.
fn complain(rt: &HostRuntime, what: &str, error: &io::Error) {
    let _ = eprintln!(rt; "load_planner: {what}: {error}");
}

// Prints the first bytes of the output. A write that was interrupted is tried again; another that takes nothing or fails ends it.
fn show(rt: &HostRuntime, out: &[u8]) -> bool {
    match rt.stdout().write_all(out) {
        Ok(()) => true,
        Err(e) => {
            complain(rt, "standard output", &e);
            false
        }
    }
}

// The call on a line, with what is lent for its answer, which has room for the longest.
fn call(
    planner: Planner,
    line: &[u8],
    out: &mut [u8; LENT_BYTES],
    work: &mut [u32; LENT_CELLS],
) -> Called
    ensures call { done_of result out.new work.new ≡ done_on (lent planner out.old work.old) line.now }
    ensures fits { result.count ≤ most_bytes }
{
    planner.call(line, out, 0, work)
}

impl Session {
    fn start() -> Session
        ensures start { carried_of result ≡ started lent_cells }
        ensures ready { result.open ≡ true }
    {
        Session {
            planner: Planner::fresh(),
            line: [0; MOST_KEPT],
            held: 0,
            out: [0; LENT_BYTES],
            work: [0; LENT_CELLS],
            open: true,
        }
    }

    // Answers the line whose bytes are held.
    fn answer(&mut self, rt: &HostRuntime)
        ensures { carried_of self.new ≡ answered (carried_of self.old) }
    {
        let line = &self.line[..self.held];
        let called = call(self.planner, line, &mut self.out, &mut self.work);
        self.planner = called.planner;
        self.held = 0;
        self.open = show(rt, &self.out[..called.count]);
    }

    // Takes the next line of a chunk, or what the chunk has of it, and answers it where it ended: how many bytes it took.
    fn take_part(&mut self, rt: &HostRuntime, chunk: &[u8]) -> usize
        requires { 0 < length chunk.now }
        ensures taken { (0 < result) × (result ≤ length chunk.now) }
        ensures rest { after_chunk (carried_of self.new) (drop result chunk.now) ≡ after_chunk (carried_of self.old) chunk.now }
    {
        let taken = take_line(chunk, &mut self.line, self.held);
        self.held = taken.held;
        if taken.ended {
            self.answer(rt);
        }
        taken.count
    }

    // Answers each line that ends in the chunk, and holds what is left of it. How long a part is, is known when it was taken: no iterator over parts has that.
    fn take_chunk(&mut self, rt: &HostRuntime, chunk: &[u8])
        ensures { self.new.open ≡ true → carried_of self.new ≡ after_chunk (carried_of self.old) chunk.now }
    {
        let mut at = 0;
        while at < chunk.len() && self.open {
            at += self.take_part(rt, &chunk[at..]);
        }
    }

    // The end of the input: a line without line feed counts.
    fn finish(&mut self, rt: &HostRuntime)
        ensures end { left_of self.new ≡ at_end (carried_of self.old) }
        ensures shut { self.new.open ≡ false }
    {
        if 0 < self.held {
            self.answer(rt);
        }
        self.open = false;
    }

    // What a read led to, by what it answered: it failed, or was interrupted and is tried again; at 0 the input has ended; else so many bytes of the
    // chunk are new.
    fn take_read(&mut self, rt: &HostRuntime, got: io::Result<usize>, chunk: &[u8])
        ensures chunk { self.new.open ≡ true → carried_of self.new ≡ after_chunk (carried_of self.old) (take (count_of got) chunk.now) }
        ensures end { got ≡ Ok 0 → left_of self.new ≡ at_end (carried_of self.old) }
    {
        match got {
            Ok(0) => self.finish(rt),
            Ok(n) => self.take_chunk(rt, &chunk[..n.min(chunk.len())]),
            Err(e) if e.kind() == ErrorKind::Interrupted => {}
            Err(e) => {
                complain(rt, "standard input", &e);
                self.open = false;
            }
        }
    }

    // One read and its answers.
    fn step(&mut self, rt: &HostRuntime, chunk: &mut [u8])
        ensures { self.new.open ≡ true → Stepped (carried_of self.old) (carried_of self.new) chunk.new }
    {
        let got = rt.stdin().read(&mut *chunk);
        self.take_read(rt, got, chunk);
    }
}

fn main(rt: HostRuntime) {
    let mut chunk = [0u8; CHUNK_BYTES];
    let mut session = Session::start();
    // A proved loop has to end, and nothing says that the input does: the turns are more than any run uses up.
    for _ in 0..u64::MAX {
        if !session.open {
            break;
        }
        session.step(&rt, &mut chunk);
    }
}
