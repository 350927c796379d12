// gridbuild: reads a two-byte plan length, the plan and the payload from standard input, and writes the grid to standard output, or
// why the input is refused to standard error.
#![tactic(auto)]

ghost use Rattle.std.specs.Prelude.{◌≤◌, length};

use plan::Refusal;
use std::io;

// The grid of the input's plan and payload, in the front of a buffer.
fn grid_in<'a>(input: &[u8], buffer: &'a mut [u8]) -> Result<&'a [u8], Refusal>
    requires { 201600 ≤ length buffer.old }
{
    let end = counted::plan_end(input).ok_or(Refusal::Unreadable)?;
    let plan = &input[2..end];
    let n = mapper::grid_length(plan)?;
    let grid = &mut buffer[..n];
    mapper::build_grid(plan, &input[end..], grid)?;
    Ok(grid)
}

fn answer(rt: &(impl Print + Eprint), input: &[u8]) -> io::Result<()> {
    // The largest grid has 36 bytes for each of 100 blocks, 14 symbols and four ports.
    let mut buffer = [0u8; 201600];
    match grid_in(input, &mut buffer) {
        Ok(grid) => words::output(rt, grid),
        Err(r) => words::refusal(rt, r),
    }
}

// Two length bytes, the longest plan (65,535 bytes) and the longest payload (below 17,000 bytes) leave bytes over, so a full
// buffer is an input with more payload than any plan asks for.
fn main(rt: HostRuntime) -> io::Result<()> {
    let mut buffer = [0u8; 90000];
    let n = input::read_full(&mut rt.stdin(), &mut buffer)?;
    answer(&rt, &buffer[..n])
}
