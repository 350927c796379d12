// Prints values of the pseudo-random sequence, to be compared with another implementation's.
#![tactic(auto)]

ghost use Rattle.std.specs.Prelude.{◌≤◌};

use gold::Registers;
use std::io;

// x1(1600), .., x1(1630): the register of x1 at c(0).
fn first_register(rt: &impl Print) -> io::Result<()> {
    let r = gold::pair_at(0, 0);
    print::text(rt, b"x1 ")?;
    show::bits(rt, r.x1, 31)?;
    print::line(rt)
}

// c(first), .., c(first+27) of a c_init, from the pair at c(first).
fn part(rt: &impl Print, c_init: u32, first: usize, r: Registers) -> io::Result<()> {
    print::text(rt, b"c ")?;
    print::number(rt, c_init as u64)?;
    print::space(rt)?;
    print::number(rt, first as u64)?;
    print::space(rt)?;
    show::bits(rt, gold::word(r, 28), 28)?;
    print::line(rt)
}

// The first four parts one after the other, then two further on.
fn parts(rt: &impl Print, c_init: u32) -> io::Result<()> {
    let mut r = gold::pair_at(c_init, 0);
    for k in 0..4usize {
        part(rt, c_init, 28 * k, r)?;
        r = gold::advance(r, 28);
    }
    part(rt, c_init, 5000, gold::pair_at(c_init, 5000))?;
    part(rt, c_init, 20001, gold::pair_at(c_init, 20001))
}

// The word c(7), .., c(7+n-1). The loop of `words` goes from 1 to 28.
fn word(rt: &impl Print, n: u32) -> io::Result<()>
    requires { (1 ≤ n) × (n ≤ 28) }
{
    print::text(rt, b"n ")?;
    print::number(rt, n as u64)?;
    print::space(rt)?;
    print::number(rt, gold::word(gold::pair_at(1000000, 7), n) as u64)?;
    print::line(rt)
}

fn words(rt: &impl Print) -> io::Result<()> {
    for n in 1..=28 {
        word(rt, n)?;
    }
    Ok(())
}

fn main(rt: HostRuntime) -> io::Result<()> {
    first_register(&rt)?;
    parts(&rt, 0)?;
    parts(&rt, 1)?;
    parts(&rt, 2)?;
    parts(&rt, 503)?;
    parts(&rt, 16384)?;
    parts(&rt, 123456789)?;
    parts(&rt, 1431655765)?;
    parts(&rt, 1610612736)?;
    parts(&rt, 2147483647)?;
    words(&rt)
}
