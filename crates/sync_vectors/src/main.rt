// Prints the synchronisation signals: the primary's phase numbers, the index pairs of the 168 groups, the secondary's signs.
#![tactic(auto)]

use std::io;

fn phases(rt: &impl Print, r: u16) -> io::Result<()> {
    for i in 0..62 {
        print::space(rt)?;
        print::number(rt, sync::pss_phase(r, i) as u64)?;
    }
    Ok(())
}

fn primary(rt: &impl Print, r: u16) -> io::Result<()> {
    print::text(rt, b"pss ")?;
    print::number(rt, r as u64)?;
    phases(rt, r)?;
    print::line(rt)
}

fn pair(rt: &impl Print, d: u16) -> io::Result<()> {
    let p = sync::sss_pair(d);
    print::text(rt, b"pair ")?;
    print::number(rt, d as u64)?;
    print::space(rt)?;
    print::number(rt, p.m0 as u64)?;
    print::space(rt)?;
    print::number(rt, p.m1 as u64)?;
    print::line(rt)
}

fn pairs(rt: &impl Print) -> io::Result<()> {
    for d in 0..168 {
        pair(rt, d)?;
    }
    Ok(())
}

fn sign(rt: &impl Print, z: i8) -> io::Result<()> {
    print::text(rt, if z == 1 { b"+" } else { b"-" })
}

fn signs(rt: &impl Print, s: sync::Sss) -> io::Result<()> {
    for i in 0..62 {
        sign(rt, sync::sss_level(s, i))?;
    }
    Ok(())
}

fn secondary(rt: &impl Print, cell: u16, subframe: u8) -> io::Result<()> {
    print::text(rt, b"sss ")?;
    print::number(rt, cell as u64)?;
    print::space(rt)?;
    print::number(rt, subframe as u64)?;
    print::space(rt)?;
    signs(rt, sync::sss_for(cell, subframe))?;
    print::line(rt)
}

fn both(rt: &impl Print, cell: u16) -> io::Result<()> {
    secondary(rt, cell, 0)?;
    secondary(rt, cell, 5)
}

fn cells(rt: &impl Print) -> io::Result<()> {
    for k in 0..=100 {
        both(rt, 5 * k)?;
    }
    Ok(())
}

fn main(rt: HostRuntime) -> io::Result<()> {
    primary(&rt, 0)?;
    primary(&rt, 1)?;
    primary(&rt, 2)?;
    pairs(&rt)?;
    cells(&rt)?;
    both(&rt, 503)
}
