// The tests of the planner's calls, of its judge, of the handheld's pages, of portions and of changeovers. Standard input is the script of the tests;
// what is written is the report on them. The report is held to the file `stdout`, which tests/expected.py derives from the same script by plain
// enumeration.
#![tactic(auto)]

mod call;
mod glass;
mod judging;
mod memory;
mod portion;
mod script;
mod switching;
mod text;

ghost use Rattle.std.specs.Prelude.{◌≤◌, IfOk, length};

use std::io;
use std::io::Read;

// The room for a script.
const SCRIPT_BYTES: usize = 131072;

// Reads until the buffer is full or the input ends, and returns how many bytes were read. Where the next read begins is what the last one gave.
fn read_full(input: &mut impl Read, buffer: &mut [u8]) -> io::Result<usize>
    ensures { IfOk result (λ count. count ≤ length buffer.new) }
{
    let mut count: usize = 0;
    while count < buffer.len() {
        let n = input.read(&mut buffer[count..])?;
        if n == 0 {
            break;
        }
        count += n;
    }
    Ok(count)
}

fn main(rt: HostRuntime) -> io::Result<()> {
    let mut input = [0; SCRIPT_BYTES];
    let count = read_full(&mut rt.stdin(), &mut input)?;
    script::follow(&mut rt.stdout(), &input[..count])
}
