// Calls of build: reads them from standard input and prints of each its number, from 1, the count or "refused" and the number, and
// a digest of the grid after the call. Every byte of the grid is 165 before it, so that a refusal shows that no byte changed.
#![tactic(auto)]

use records::{Answer, Digest};
use std::io;

// A call. `lent` says how many bytes are lent for the grid.
#[derive(Clone, Copy)]
struct Call<'a> {
    lent: u8,
    plan: &'a [u8],
    payload: &'a [u8],
}

impl<'a> Call<'a> {
    // The call that the bytes start with, and what follows it; none for one that is cut off. It stands there as a byte for the length to lend,
    // the plan's length in two bytes, the plan, the payload's length in four bytes, the payload.
    fn read(bytes: &'a [u8]) -> Option<(Call<'a>, &'a [u8])> {
        let (lent, rest) = bytes.split_first()?;
        let (plan, rest) = records::counted(rest, 2)?;
        let (payload, rest) = records::counted(rest, 4)?;
        let call = Call {
            lent: *lent,
            plan,
            payload,
        };
        Some((call, rest))
    }

    // Performs it on the front of a buffer.
    fn perform(self, rt: &impl Print, number: usize, buffer: &mut [u8]) -> io::Result<()> {
        let n = records::lent(records::wanted(self.plan), self.lent);
        let Some(grid) = buffer.get_mut(..n) else {
            return Ok(());
        };
        records::fill(grid);
        let answer = Answer(build::build(self.plan, self.payload, grid));
        let digest = Digest::EMPTY.added(grid);
        println!(rt; "{number} {answer} {digest}")
    }
}

// Performs the call that the bytes start with, and answers with what follows it.
fn record<'a>(rt: &impl Print, number: usize, bytes: &'a [u8]) -> io::Result<Option<&'a [u8]>> {
    let Some((call, rest)) = Call::read(bytes) else {
        return Ok(None);
    };
    let mut buffer = [0u8; 201601];
    call.perform(rt, number, &mut buffer)?;
    Ok(Some(rest))
}

fn answer(rt: &impl Print, input: &[u8]) -> io::Result<()> {
    records::walk(input, |number, bytes| record(rt, number, bytes))
}

fn main(rt: HostRuntime) -> io::Result<()> {
    let mut buffer = [0u8; 400000];
    let n = input::read_full(&mut rt.stdin(), &mut buffer)?;
    answer(&rt, &buffer[..n])
}
