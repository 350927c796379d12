// Prints what each port sends for known symbols, with transmit diversity and in PHICH, to be compared with another
// implementation. The places are written into a small grid as build writes them, and the elements read back from it.
#![tactic(auto)]

ghost use Rattle.std.specs.Prelude.{◌≤◌, ◌<◌, nat_abs};
ghost use Rattle.base.specs.Pairs.{Small};
ghost use Rattle.grid.specs.Writing.{Room};

use base::{Element, Pair};
use std::io;

// n mod 15 as a level from -7 to 7.
fn level(n: usize) -> i8
    ensures { nat_abs result ≤ 127 }
{
    (n % 15) as i8 - 7
}

// The symbol d(j).
fn symbol(j: usize) -> Pair
    ensures { Small 127 result }
{
    let n = j % 15;
    Pair {
        re: level(3 * n),
        im: level(5 * n + 4),
    }
}

// The other place of place j's pair.
fn beside(j: usize) -> usize
    requires { j < 12 }
{
    if j % 2 == 0 { j + 1 } else { j - 1 }
}

// Which two of four ports send place j.
fn pair(phich: bool, m: usize, j: usize) -> u8
    requires { (m ≤ 12) × (j < 12) }
{
    if phich {
        ((j / 4 + m) % 2) as u8
    } else {
        (j / 2 % 2) as u8
    }
}

// Every place of a grid.
fn fill(phich: bool, ports: u8, places: usize, m: usize, unit: u8, grid: &mut [u8])
    requires { Room ports places grid.old × (places ≤ 12) × (m ≤ 12) }
    ensures { Room ports places grid.new }
{
    grid::silence(grid);
    for j in 0..places {
        let odd = (j % 2) as u8;
        let d = symbol(j);
        let e = symbol(beside(j));
        grid::put_place(grid, ports, places, j, pair(phich, m, j), unit, odd, d, e);
    }
}

fn field(rt: &impl Print, n: usize) -> io::Result<()> {
    print::space(rt)?;
    print::number(rt, n as u64)
}

fn element(rt: &impl Print, e: Element) -> io::Result<()> {
    field(rt, usize::from(e.byte))?;
    print::space(rt)?;
    show::pair(
        rt,
        Pair {
            re: base::signed(e.i),
            im: base::signed(e.j),
        },
    )?;
    print::line(rt)
}

// The start of a line: place j of a channel of m, or of PHICH unit m, where it is place j mod 4 of a quad.
fn name(rt: &impl Print, phich: bool, ports: u8, m: usize, j: usize) -> io::Result<()> {
    if phich {
        print::text(rt, b"phich")?;
        field(rt, usize::from(ports))?;
        field(rt, m)?;
        field(rt, j / 4)?;
        field(rt, j % 4)?;
        return Ok(());
    }
    print::text(rt, b"td")?;
    field(rt, usize::from(ports))?;
    field(rt, m)?;
    field(rt, j)
}

// A line for each port.
fn place(
    rt: &impl Print,
    phich: bool,
    ports: u8,
    places: usize,
    m: usize,
    j: usize,
    grid: &[u8],
) -> io::Result<()>
    requires { Room ports places grid.now × (j < places) }
{
    for port in 0..ports {
        name(rt, phich, ports, m, j)?;
        field(rt, usize::from(port))?;
        element(rt, grid::get(grid, usize::from(port) * places + j))?;
    }
    Ok(())
}

fn lines(
    rt: &impl Print,
    phich: bool,
    ports: u8,
    places: usize,
    m: usize,
    grid: &[u8],
) -> io::Result<()>
    requires { Room ports places grid.now }
{
    for j in 0..places {
        place(rt, phich, ports, places, m, j, grid)?;
    }
    Ok(())
}

// A channel of m places in unit 170.
fn td(rt: &impl Print, ports: u8, m: usize, grid: &mut [u8]) -> io::Result<()>
    requires { Room ports m grid.old × (m ≤ 12) }
{
    fill(false, ports, m, m, 170, grid);
    lines(rt, false, ports, m, m, grid)
}

// PHICH unit m: twelve places in unit 2.
fn unit(rt: &impl Print, ports: u8, m: usize, grid: &mut [u8]) -> io::Result<()>
    requires { Room ports 12 grid.old × (m ≤ 2) }
{
    fill(true, ports, 12, m, 2, grid);
    lines(rt, true, ports, 12, m, grid)
}

fn phich(rt: &impl Print, ports: u8, grid: &mut [u8]) -> io::Result<()>
    requires { Room ports 12 grid.old }
{
    unit(rt, ports, 0, grid)?;
    unit(rt, ports, 1, grid)?;
    unit(rt, ports, 2, grid)
}

fn main(rt: HostRuntime) -> io::Result<()> {
    td(&rt, 1, 5, &mut [0; 15])?;
    td(&rt, 2, 6, &mut [0; 36])?;
    td(&rt, 4, 8, &mut [0; 96])?;
    td(&rt, 4, 6, &mut [0; 72])?;
    phich(&rt, 1, &mut [0; 36])?;
    phich(&rt, 2, &mut [0; 72])?;
    phich(&rt, 4, &mut [0; 144])
}
