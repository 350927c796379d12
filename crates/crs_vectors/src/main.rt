// Prints values of the cell-specific reference signals, to be compared with another implementation's.
#![tactic(auto)]

ghost use Rattle.std.specs.Prelude.{◌<◌, ◌≤◌};

use base::Pair;
use std::io;

// 0 for (1, 1), 1 for (1, -1), 2 for (-1, 1), 3 for (-1, -1).
fn digit(rt: &impl Print, d: Pair) -> io::Result<()> {
    print::number(rt, 2 * u64::from(d.re < 0) + u64::from(d.im < 0))
}

// The n values of a word of 2n bits of the sequence.
fn values(rt: &impl Print, word: u32, n: u32) -> io::Result<()>
    requires { n ≤ 14 }
{
    for m in (0..n).rev() {
        digit(rt, crs::value((word >> (2 * m)) % 4))?;
    }
    Ok(())
}

fn field(rt: &impl Print, n: u64) -> io::Result<()> {
    print::number(rt, n)?;
    print::space(rt)
}

// The first twelve values of a symbol and its last four. Value m stands at bit 2(m + 110 - N).
fn symbol(rt: &impl Print, prefix: u8, blocks: u8, cell: u16, slot: u8, l: u8) -> io::Result<()>
    requires { (cell ≤ 503) × (blocks ≤ 110) × (slot < 20) × (l < 7) }
{
    let c_init = crs::c_init(prefix, cell, slot, l);
    let first = 2 * (110 - usize::from(blocks));
    let last = first + 4 * usize::from(blocks) - 8;
    print::text(rt, b"crs ")?;
    field(rt, prefix as u64)?;
    field(rt, blocks as u64)?;
    field(rt, cell as u64)?;
    field(rt, slot as u64)?;
    field(rt, l as u64)?;
    field(rt, c_init as u64)?;
    values(rt, gold::word(gold::pair_at(c_init, first), 24), 12)?;
    print::space(rt)?;
    values(rt, gold::word(gold::pair_at(c_init, last), 8), 4)?;
    print::line(rt)
}

fn slots(rt: &impl Print, prefix: u8, blocks: u8, cell: u16, slot: u8) -> io::Result<()>
    requires { (cell ≤ 503) × (blocks ≤ 110) × (slot < 20) }
{
    symbol(rt, prefix, blocks, cell, slot, 0)?;
    symbol(rt, prefix, blocks, cell, slot, 1)?;
    if prefix == 0 {
        symbol(rt, prefix, blocks, cell, slot, 4)
    } else {
        symbol(rt, prefix, blocks, cell, slot, 3)
    }
}

fn cells(rt: &impl Print, prefix: u8, blocks: u8, cell: u16) -> io::Result<()>
    requires { (cell ≤ 503) × (blocks ≤ 110) }
{
    slots(rt, prefix, blocks, cell, 0)?;
    slots(rt, prefix, blocks, cell, 7)?;
    slots(rt, prefix, blocks, cell, 19)
}

fn widths(rt: &impl Print, prefix: u8, blocks: u8) -> io::Result<()>
    requires { blocks ≤ 110 }
{
    cells(rt, prefix, blocks, 0)?;
    cells(rt, prefix, blocks, 1)?;
    cells(rt, prefix, blocks, 167)?;
    cells(rt, prefix, blocks, 503)
}

fn prefixes(rt: &impl Print, prefix: u8) -> io::Result<()> {
    widths(rt, prefix, 6)?;
    widths(rt, prefix, 15)?;
    widths(rt, prefix, 25)?;
    widths(rt, prefix, 50)?;
    widths(rt, prefix, 75)?;
    widths(rt, prefix, 100)
}

fn main(rt: HostRuntime) -> io::Result<()> {
    prefixes(&rt, 0)?;
    prefixes(&rt, 1)
}
