// A grid's elements compared with the values that are due there, in place: the number of their bytes that are not 0, or a
// difference. When the numbers of all channels make up that of the grid, every other element is silent.
#![tactic(auto)]

ghost use Rattle.std.specs.Prelude.{◌≡◌, ℕ, ◌+◌, ◌*◌, ◌/◌, ◌≤◌, ◌<◌, length};
ghost use Rattle.base.specs.Pairs.{Small};
ghost use Rattle.precoding.specs.Places.{on_port};
ghost use Rattle.grid.specs.Elements.{element_in};
ghost use Rattle.grid.specs.Writing.{sent_at, Room};
ghost use Rattle.compare.specs.Comparing.{nonzero, nonzeros, seen_of, both_of, Few, Compared};

use base::{Element, Pair};

// How many of at most 224 bytes are not 0, counted in a u8 so that many bytes are compared at once: a chain's `count` is a usize.
fn nonzeros_in(part: &[u8]) -> u8
    requires { length part.now ≤ 224 }
    ensures { result ≡ nonzeros part.now }
{
    let mut n: u8 = 0;
    for b in part {
        if *b != 0 {
            n += 1;
        }
    }
    n
}

// How many bytes of a grid are not 0, in parts of one length that the compiler knows, and the rest.
pub fn weight(grid: &[u8]) -> usize
    ensures { result ≡ nonzeros grid.now }
{
    let mut n: usize = 0;
    let mut i: usize = 0;
    // A `while`: with `as_chunks` no edit of one value makes the rest alone too long (must-fail/rest_too_long).
    while 224 <= grid.len() - i {
        let end = i + 224;
        n += usize::from(nonzeros_in(&grid[i..end]));
        i = end;
    }
    n + usize::from(nonzeros_in(&grid[i..]))
}

// One element compared with the value that is due: how many of its bytes are not 0, or None where they differ.
fn compare_element(a: Element, b: Element) -> Option<usize>
    ensures { result ≡ seen_of a b }
{
    if a == b {
        Some(usize::from(a.byte != 0) + usize::from(a.i != 0) + usize::from(a.j != 0))
    } else {
        None
    }
}

// The element with a number, beside its value. Callers number the elements of a grid whose length they have compared.
pub fn compare_at(grid: &[u8], e: usize, el: Element) -> Option<usize>
    requires { 3 * e + 2 < length grid.now }
    ensures { result ≡ seen_of (element_in grid.now e) el }
{
    compare_element(grid::get(grid, e), el)
}

// Both of two comparisons. Callers compare elements of one grid, so that the numbers are small.
pub fn together(a: Option<usize>, b: Option<usize>) -> Option<usize>
    requires { Few a × Few b }
    ensures { result ≡ both_of a b }
{
    Some(a? + b?)
}

// What transmit diversity sends at place t, on the ports with a term, as `grid::put_place` writes it. Callers have compared the
// grid's length, and take levels from the modulation tables or PHICH's sums. Plain parameters: as one struct by value they were timed, and
// cost speed (docs/DECISIONS.md, "Speed and size").
pub fn compare_place(
    grid: &[u8],
    ports: u8,
    places: usize,
    t: usize,
    pair: u8,
    unit: u8,
    odd: u8,
    d: Pair,
    e: Pair,
) -> Option<usize>
    requires { Room ports places grid.now × (t < places) × Small 127 e }
    ensures { Compared (sent_at ports places pair t) (λ (x : ℕ). on_port ports pair unit odd d e (x / places)) grid.now result }
{
    let byte = precoding::unit_byte_on(ports, unit);
    let own = usize::from(precoding::own_port(ports, pair)) * places + t;
    let seen = compare_at(grid, own, base::element_of(byte, d));
    if ports == 1 {
        return seen;
    }
    let other = usize::from(precoding::other_port(ports, pair)) * places + t;
    together(
        seen,
        compare_at(
            grid,
            other,
            base::element_of(byte, precoding::partner(odd, e)),
        ),
    )
}
