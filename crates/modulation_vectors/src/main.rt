// Prints every symbol of every order, and what each level pair near 0 stands for, by the tables that build and read go by.
#![tactic(auto)]

ghost use Rattle.modulation.specs.Symbols.{Order};

use base::Pair;
use std::io;

// The byte of an order's unit on one port.
fn unit_byte(q: u32) -> u8 {
    precoding::unit_byte_on(1, modulation::unit(q))
}

// A line: what is printed, and the order.
fn start(rt: &impl Print, name: &[u8], q: u32) -> io::Result<()> {
    print::text(rt, name)?;
    print::space(rt)?;
    print::number(rt, q as u64)?;
    print::space(rt)
}

// The levels of an element that is a number: its bytes are the unit's, I and J.
fn levels(rt: &impl Print, v: u64) -> io::Result<()> {
    let [_, i, j, ..] = v.to_le_bytes();
    show::pair(
        rt,
        Pair {
            re: base::signed(i),
            im: base::signed(j),
        },
    )?;
    print::space(rt)
}

fn map_line(rt: &impl Print, q: u32, t: &[u32; 256], w: u32) -> io::Result<()> {
    let v = constellation::number(t, w as u64);
    start(rt, b"map", q)?;
    print::number(rt, w as u64)?;
    print::space(rt)?;
    levels(rt, v)?;
    print::number(rt, v % 256)?;
    print::line(rt)
}

fn map_lines(rt: &impl Print, q: u32, words: u32) -> io::Result<()>
    requires { Order q }
{
    let mut t: [u32; 256] = [0; 256];
    constellation::set_elements(&mut t, q, unit_byte(q));
    for w in 0..words {
        map_line(rt, q, &t, w)?;
    }
    Ok(())
}

// The word of an element's levels, where that word's element is this one.
fn back_line(rt: &impl Print, q: u32, t: &[u32; 256], d: &[u8; 32], v: u64) -> io::Result<()> {
    start(rt, b"back", q)?;
    levels(rt, v)?;
    let w = constellation::symbol_of(d, v);
    if constellation::number(t, w) == v {
        print::number(rt, w)?;
    } else {
        print::text(rt, b"none")?;
    }
    print::line(rt)
}

fn back_row(rt: &impl Print, q: u32, t: &[u32; 256], d: &[u8; 32], i: i8) -> io::Result<()> {
    for j in -16..=16 {
        let bytes = [unit_byte(q), base::byte_of(i), base::byte_of(j), 0];
        back_line(rt, q, t, d, u64::from(u32::from_le_bytes(bytes)))?;
    }
    Ok(())
}

fn back_lines(rt: &impl Print, q: u32) -> io::Result<()>
    requires { Order q }
{
    let mut t: [u32; 256] = [0; 256];
    constellation::set_elements(&mut t, q, unit_byte(q));
    let mut d: [u8; 32] = [0; 32];
    constellation::set_axis(&mut d, q);
    for i in -16..=16 {
        back_row(rt, q, &t, &d, i)?;
    }
    Ok(())
}

fn main(rt: HostRuntime) -> io::Result<()> {
    map_lines(&rt, 2, 4)?;
    map_lines(&rt, 4, 16)?;
    map_lines(&rt, 6, 64)?;
    map_lines(&rt, 8, 256)?;
    back_lines(&rt, 2)?;
    back_lines(&rt, 4)?;
    back_lines(&rt, 6)?;
    back_lines(&rt, 8)
}
