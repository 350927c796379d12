// gridcount: reads a two-byte plan length, the plan and the payload from standard input, and prints how many elements each
// kind of owner has, or why the input is refused.
#![tactic(auto)]

use std::io;

// The kinds of owners, in the order of their counts.
const KINDS: [&str; 9] = [
    "CRS", "PSS", "SSS", "PBCH", "PCFICH", "PHICH", "PDSCH", "held", "idle",
];

fn answer(rt: &impl Print, input: &[u8]) -> io::Result<()> {
    match mapper::gridcount(input) {
        Ok(counts) => {
            for (kind, count) in KINDS.iter().zip(counts.iter()) {
                println!(rt; "{kind} {count}")?;
            }
            Ok(())
        }
        Err(r) => println!(rt; "refused {}", u8::from(r)),
    }
}

// Two length bytes, the longest plan (65,535 bytes) and the longest payload (below 17,000 bytes) leave bytes over, so a full
// buffer is an input with more payload than any plan asks for.
fn main(rt: HostRuntime) -> io::Result<()> {
    let mut buffer = [0u8; 90000];
    let n = input::read_full(&mut rt.stdin(), &mut buffer)?;
    answer(&rt, &buffer[..n])
}
