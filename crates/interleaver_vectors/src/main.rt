// Prints the quads in the order in which they are sent, 32 on a line, for several numbers of quads and cells: by the cursor from the
// cell's position on.
#![tactic(auto)]

ghost use Rattle.std.specs.Prelude.{◌≤◌};

use std::io;

// The start of a line: how many quads, the cell, and how many were sent before.
fn heading(rt: &impl Print, quads: usize, cell: usize, n: usize) -> io::Result<()> {
    print::text(rt, b"sent ")?;
    print::number(rt, quads as u64)?;
    print::space(rt)?;
    print::number(rt, cell as u64)?;
    print::space(rt)?;
    print::number(rt, n as u64)
}

fn break_line(rt: &impl Print, quads: usize, cell: usize, n: usize) -> io::Result<()> {
    if n % 32 == 0 {
        if 0 < n {
            print::line(rt)?;
        }
        heading(rt, quads, cell, n)?;
    }
    Ok(())
}

fn sent(rt: &impl Print, quads: usize, cell: usize) -> io::Result<()>
    requires { (1 ≤ quads) × (quads ≤ 1024) }
{
    let mut c = interleaver::start(quads, cell % quads);
    for n in 0..quads {
        break_line(rt, quads, cell, n)?;
        print::space(rt)?;
        print::number(rt, interleaver::quad(c) as u64)?;
        c = interleaver::step(c);
    }
    print::line(rt)
}

fn cells(rt: &impl Print, quads: usize) -> io::Result<()>
    requires { (1 ≤ quads) × (quads ≤ 1024) }
{
    for cell in [0, 1, 17, 503] {
        sent(rt, quads, cell)?;
    }
    Ok(())
}

fn main(rt: HostRuntime) -> io::Result<()> {
    cells(&rt, 1)?;
    cells(&rt, 2)?;
    cells(&rt, 9)?;
    cells(&rt, 14)?;
    cells(&rt, 31)?;
    cells(&rt, 32)?;
    cells(&rt, 33)?;
    cells(&rt, 40)?;
    cells(&rt, 63)?;
    cells(&rt, 64)?;
    cells(&rt, 65)?;
    cells(&rt, 100)?;
    cells(&rt, 250)?;
    cells(&rt, 333)?;
    cells(&rt, 512)?;
    cells(&rt, 700)?;
    cells(&rt, 787)
}
