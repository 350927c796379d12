// Calls of read: reads plans, payloads and changes of the built grid from standard input. Of each call it prints the record's number, from
// 1, the count or "refused" and the number, and a digest of the payload after it; of a sweep, which changes every byte of the grid
// in turn, how many grids were refused and read, how many of those read are built again by what was read, and a digest of all.
#![tactic(auto)]

mod sweep;

use records::{Answer, Digest};
use std::io;
use sweep::Tally;

// What a record asks for, calls or a sweep, on a grid that the payload builds. `whole` is that grid's length, `lent` how many bytes of it are
// lent, `lists` has the changes.
#[derive(Clone, Copy)]
struct Request<'a> {
    kind: u8,
    whole: usize,
    lent: usize,
    of_payload: u8,
    plan: &'a [u8],
    payload: &'a [u8],
    lists: &'a [u8],
}

impl<'a> Request<'a> {
    // The request that the bytes start with, and what follows it; none for one that is cut off. It stands there as a byte for the kind, one for
    // the grid's length and one for the payload's, the plan's length in two bytes, the plan, the payload's length in four bytes, the payload,
    // the length of the lists of changes in two bytes, the lists.
    fn read(bytes: &'a [u8]) -> Option<(Request<'a>, &'a [u8])> {
        let (kind, rest) = bytes.split_first()?;
        let (of_grid, rest) = rest.split_first()?;
        let (of_payload, rest) = rest.split_first()?;
        let (plan, rest) = records::counted(rest, 2)?;
        let (payload, rest) = records::counted(rest, 4)?;
        let (lists, rest) = records::counted(rest, 2)?;
        let whole = records::wanted(plan);
        let request = Request {
            kind: *kind,
            whole,
            lent: records::lent(whole, *of_grid),
            of_payload: *of_payload,
            plan,
            payload,
            lists,
        };
        Some((request, rest))
    }

    // The grid, built in the front of a buffer.
    fn build_in(self, buffer: &mut [u8]) {
        if let Some(grid) = buffer.get_mut(..self.whole) {
            let _ = build::build(self.plan, self.payload, grid);
        }
    }

    // One call, on a grid that is built and changed.
    fn call(
        self,
        rt: &impl Print,
        number: usize,
        changes: &[u8],
        buffer: &mut [u8],
        out: &mut [u8],
    ) -> io::Result<()> {
        records::fill(buffer);
        self.build_in(buffer);
        change(changes, buffer);
        let Some(grid) = buffer.get(..self.lent) else {
            return Ok(());
        };
        records::fill(out);
        let answer = Answer(read::read(self.plan, grid, out));
        let digest = Digest::EMPTY.added(out);
        println!(rt; "{number} {answer} {digest}")
    }

    // A call for each list of changes. A list has a byte at least.
    fn calls(
        self,
        rt: &impl Print,
        number: usize,
        buffer: &mut [u8],
        out: &mut [u8],
    ) -> io::Result<()> {
        let mut rest = self.lists;
        for _ in 0..self.lists.len() {
            let Some((changes, next)) = first_list(rest) else {
                return Ok(());
            };
            self.call(rt, number, changes, buffer, out)?;
            rest = next;
        }
        Ok(())
    }

    // A sweep of the grid in the front of a buffer; what is read is built again in the other.
    fn sweep(
        self,
        rt: &impl Print,
        number: usize,
        buffer: &mut [u8],
        other: &mut [u8],
        out: &mut [u8],
    ) -> io::Result<()> {
        self.build_in(buffer);
        let Some(grid) = buffer.get_mut(..self.whole) else {
            return Ok(());
        };
        let Some(again) = other.get_mut(..self.whole) else {
            return Ok(());
        };
        let tally = Tally::of_sweep(self.plan, grid, again, out);
        println!(rt; "{number} {tally}")
    }

    // A sweep for kind 1, calls for any other.
    fn perform(self, rt: &impl Print, number: usize, payload: &mut [u8]) -> io::Result<()> {
        let Some(out) = payload.get_mut(..records::lent(self.payload.len(), self.of_payload)) else {
            return Ok(());
        };
        let mut grid = [0u8; 201601];
        if self.kind == 1 {
            let mut again = [0u8; 201600];
            return self.sweep(rt, number, &mut grid, &mut again, out);
        }
        self.calls(rt, number, &mut grid, out)
    }
}

// Changes of a grid, five bytes each: the byte's number and its new value. What the grid hasn't is passed over.
fn change(changes: &[u8], grid: &mut [u8]) {
    for one in changes.chunks_exact(5) {
        if let Some((new, place)) = one.split_last() {
            if let Some(byte) = grid.get_mut(records::value(place)) {
                *byte = *new;
            }
        }
    }
}

// The list of changes that the lists start with, after the number of its changes, and what follows it.
fn first_list(lists: &[u8]) -> Option<(&[u8], &[u8])> {
    let (changes, rest) = lists.split_first()?;
    rest.split_at_checked(5 * usize::from(*changes))
}

// Does what the record asks for that the bytes start with, and answers with what follows it.
fn record<'a>(rt: &impl Print, number: usize, bytes: &'a [u8]) -> io::Result<Option<&'a [u8]>> {
    let Some((request, rest)) = Request::read(bytes) else {
        return Ok(None);
    };
    let mut payload = [0u8; 20000];
    request.perform(rt, number, &mut payload)?;
    Ok(Some(rest))
}

fn answer(rt: &impl Print, input: &[u8]) -> io::Result<()> {
    records::walk(input, |number, bytes| record(rt, number, bytes))
}

fn main(rt: HostRuntime) -> io::Result<()> {
    let mut buffer = [0u8; 500000];
    let n = input::read_full(&mut rt.stdin(), &mut buffer)?;
    answer(&rt, &buffer[..n])
}
