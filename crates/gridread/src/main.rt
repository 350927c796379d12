// gridread: reads a two-byte plan length, the plan and a grid from standard input, and writes the payload that made the grid to
// standard output, or why the input is refused to standard error.
#![tactic(auto)]

ghost use Rattle.std.specs.Prelude.{◌≤◌, length};

use plan::Refusal;
use std::io;

// The payload of the input's plan and grid, in the front of a buffer.
fn payload_in<'a>(input: &[u8], buffer: &'a mut [u8]) -> Result<&'a [u8], Refusal>
    requires { 17000 ≤ length buffer.old }
{
    let end = counted::plan_end(input).ok_or(Refusal::Unreadable)?;
    let plan = &input[2..end];
    let n = mapper::payload_length(plan)?;
    let payload = &mut buffer[..n];
    mapper::read_grid(plan, &input[end..], payload)?;
    Ok(payload)
}

fn answer(rt: &(impl Print + Eprint), input: &[u8]) -> io::Result<()> {
    // No plan has a longer payload: 16,800 places of eight bits, PBCH, 200 HIs, and the spare bits of 100 users.
    let mut buffer = [0u8; 17000];
    match payload_in(input, &mut buffer) {
        Ok(payload) => words::output(rt, payload),
        Err(r) => words::refusal(rt, r),
    }
}

// Two length bytes, the longest plan (65,535 bytes) and the largest grid (201,600 bytes) leave bytes over, so a full buffer is an
// input with a longer grid than any plan has.
fn main(rt: HostRuntime) -> io::Result<()> {
    let mut buffer = [0u8; 270000];
    let n = input::read_full(&mut rt.stdin(), &mut buffer)?;
    answer(&rt, &buffer[..n])
}
