// Vectors of the sample: the gains, every level to ±16 of every unit, and how many pairs of bytes each unit byte takes.
#![tactic(auto)]

use sample::Sample;
use std::io;

// The bytes of the units of levels.
const BYTES: [u8; 9] = [1, 2, 4, 10, 20, 42, 84, 170, 255];

// How many answers of each kind.
#[derive(Clone, Copy, Default)]
struct Counts {
    silence: u32,
    phase: u32,
    point: u32,
    refused: u32,
}

// The bits of a float that is a number.
fn bits(x: f32) -> u32 {
    if x.is_nan() { 0 } else { x.to_bits() }
}

// The sample of a level, and the line's end.
fn level_bits(rt: &impl Print, byte: u8, i: u8) -> io::Result<()> {
    match sample::sample_at(byte, i, 0) {
        Some(Sample::At(p)) => show::hex(rt, bits(p.re))?,
        Some(_) => {}
        None => print::text(rt, b"refused")?,
    }
    print::line(rt)
}

// The gain is the sample of level 1.
fn gain_line(rt: &impl Print, byte: u8) -> io::Result<()> {
    print::text(rt, b"gain ")?;
    print::number(rt, byte as u64)?;
    print::space(rt)?;
    level_bits(rt, byte, 1)
}

fn level_line(rt: &impl Print, byte: u8, i: i8) -> io::Result<()> {
    print::text(rt, b"level ")?;
    print::number(rt, byte as u64)?;
    print::space(rt)?;
    show::level(rt, i)?;
    print::space(rt)?;
    level_bits(rt, byte, base::byte_of(i))
}

fn gains(rt: &impl Print) -> io::Result<()> {
    for byte in BYTES {
        gain_line(rt, byte)?;
    }
    Ok(())
}

fn unit_levels(rt: &impl Print, byte: u8) -> io::Result<()> {
    for i in -16..=16 {
        level_line(rt, byte, i)?;
    }
    Ok(())
}

fn levels(rt: &impl Print) -> io::Result<()> {
    for byte in BYTES {
        unit_levels(rt, byte)?;
    }
    Ok(())
}

impl Counts {
    fn count(&mut self, a: Option<Sample>) {
        let kind = match a {
            Some(Sample::Silence) => &mut self.silence,
            Some(Sample::Phase(_)) => &mut self.phase,
            Some(Sample::At(_)) => &mut self.point,
            None => &mut self.refused,
        };
        *kind = kind.wrapping_add(1);
    }
}

// Over all pairs of bytes.
fn tally(byte: u8) -> Counts {
    let mut c = Counts::default();
    for n in 0..=u16::MAX {
        let [i, j] = n.to_be_bytes();
        c.count(sample::sample_at(byte, i, j));
    }
    c
}

fn unit_line(rt: &impl Print, byte: u8) -> io::Result<()> {
    let c = tally(byte);
    print::text(rt, b"unit ")?;
    print::number(rt, byte as u64)?;
    print::space(rt)?;
    print::number(rt, c.silence as u64)?;
    print::space(rt)?;
    print::number(rt, c.phase as u64)?;
    print::space(rt)?;
    print::number(rt, c.point as u64)?;
    print::space(rt)?;
    print::number(rt, c.refused as u64)?;
    print::line(rt)
}

fn units(rt: &impl Print) -> io::Result<()> {
    for byte in 0..=u8::MAX {
        unit_line(rt, byte)?;
    }
    Ok(())
}

fn main(rt: HostRuntime) -> io::Result<()> {
    gains(&rt)?;
    levels(&rt)?;
    units(&rt)
}
