// gridtext: reads a two-byte plan length and the plan from standard input, and prints the owner of every resource element for a
// terminal of 80 columns, two characters for each; or the refusal on standard error.
#![tactic(auto)]

ghost use Rattle.std.specs.Prelude.{◌≤◌};

use layout::{Mark, Owner};
use plan::{Cell, Plan};
use std::{fmt, io};

// The two characters of the owner with a number.
#[derive(Clone, Copy)]
struct Sign(u16);

// A PHICH unit's second character: digits, then letters. A cell has at most 25 units.
fn unit_digit(unit: u8) -> char {
    char::from(if unit < 10 {
        b'0' + unit
    } else {
        b'A' + (unit - 10) % 26
    })
}

// A plan has at most 100 users.
impl fmt::Display for Sign {
    fn fmt<W: fmt::Write>(&self, f: &mut fmt::Formatter<W>) -> fmt::Result {
        match legend::owner(self.0) {
            Some(Owner::Crs(port)) => write!(f, "R{port}"),
            Some(Owner::Sync(Mark::Primary)) => f.write_str("PS"),
            Some(Owner::Sync(Mark::Secondary)) => f.write_str("SS"),
            Some(Owner::Pbch) => f.write_str("BC"),
            Some(Owner::Pcfich) => f.write_str("CF"),
            Some(Owner::Phich(unit)) => write!(f, "H{}", unit_digit(unit)),
            Some(Owner::User(i)) => write!(f, "{i:02}"),
            Some(Owner::Held) => f.write_str("--"),
            Some(Owner::Idle) | None => f.write_str(" ."),
        }
    }
}

// The signs of places side by side. A row is written as a whole: sign by sign each would have a buffer of its own.
#[derive(Clone, Copy)]
struct Signs<'a>(&'a [u16]);

impl<'a> fmt::Display for Signs<'a> {
    fn fmt<W: fmt::Write>(&self, f: &mut fmt::Formatter<W>) -> fmt::Result {
        for n in self.0 {
            Sign(*n).fmt(f)?;
        }
        Ok(())
    }
}

// Symbol s of a band.
fn symbol_line(
    rt: &impl Print,
    plan: &[u8],
    s: usize,
    first: usize,
    places: usize,
) -> io::Result<()>
    requires { (first ≤ 4000) × (places ≤ 36) }
{
    let mut row = [513u16; 36];
    legend::owner_row(plan, s, first, &mut row);
    println!(rt; "{s:>2} |{}", Signs(&row[..places]))
}

// The numbers of the subcarriers that the band's blocks start with, each above the 24 columns of its block.
fn header(rt: &impl Print, first: usize, places: usize) -> io::Result<()>
    requires { first ≤ 4000 }
{
    let second = first + 12;
    let third = first + 24;
    if places <= 12 {
        println!(rt; "  k {first}")
    } else if places <= 24 {
        println!(rt; "  k {first:<24}{second}")
    } else {
        println!(rt; "  k {first:<24}{second:<24}{third}")
    }
}

// Three blocks, or those that are left.
fn band(rt: &impl Print, plan: &[u8], cell: Cell, first: usize, places: usize) -> io::Result<()>
    requires { (first ≤ 4000) × (places ≤ 36) }
{
    header(rt, first, places)?;
    let slot = legend::slot_symbols(cell);
    for s in 0..2 * slot {
        if s == slot {
            println!(rt; "   +")?;
        }
        symbol_line(rt, plan, s, first, places)?;
    }
    println!(rt)
}

fn bands(rt: &impl Print, plan: &[u8], cell: Cell) -> io::Result<()> {
    let end = 12 * usize::from(cell.blocks);
    for k in 0..end.div_ceil(36) {
        let first = 36 * k;
        band(rt, plan, cell, first, (end - first).min(36))?;
    }
    Ok(())
}

// The signs that occur, with their owners' names.
fn entries(rt: &impl Print, plan: &[u8], p: Plan) -> io::Result<()> {
    for n in 0..legend::NUMBERS {
        if legend::has(plan, p, n) {
            print!(rt; "{} ", Sign(n))?;
            legend::name(rt, plan, p, n)?;
            println!(rt)?;
        }
    }
    Ok(())
}

fn show(rt: &impl Print, plan: &[u8], p: Plan) -> io::Result<()> {
    legend::title(rt, p)?;
    print!(rt; "\n\n")?;
    bands(rt, plan, p.cell)?;
    entries(rt, plan, p)
}

fn answer(rt: &(impl Print + Eprint), input: &[u8]) -> io::Result<()> {
    match legend::plan_of(input) {
        Ok((plan, p)) => show(rt, plan, p),
        Err(r) => words::refusal(rt, r),
    }
}

// The buffer holds two length bytes and the longest plan; what follows the plan is not looked at.
fn main(rt: HostRuntime) -> io::Result<()> {
    let mut buffer = [0u8; 65537];
    let n = input::read_full(&mut rt.stdin(), &mut buffer)?;
    answer(&rt, &buffer[..n])
}
