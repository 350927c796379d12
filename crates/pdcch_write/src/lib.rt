// The control channel written into a grid (TS 36.211 6.8): the quads of the given control elements, each at its group's four places.
#![tactic(auto)]

ghost use Rattle.std.specs.Prelude.{◌≡◌, ◌*◌, ◌≤◌, ◌<◌, length};
ghost use Rattle.std.specs.Int.Bits.{bit_xor};
ghost use Rattle.gold.specs.Steps.{after, word_of};
ghost use Rattle.plan.specs.Fields.{control_elements};
ghost use Rattle.grid.specs.Writing.{Written};
ghost use Rattle.element_pairs.specs.Numbers.{TwoPut};
ghost use Rattle.pdcch.specs.Block.{block_sends, block_sent};
ghost use Rattle.pdcch_write.specs.Quads.{pairs_of, QuadIn, SingleIn, SinglePut, QuadPut};
ghost use Rattle.pdcch_write.specs.Filling.{ElementIn, ElementPut, GivenPut, FillIn};

use constellation::{joint, number};
use data_write::round;
use element_pairs::put_elements;
use gold::Registers;
use plan::{Cell, Frame};

// The four places of a group, in ascending order two pairs: the first place of each, and how far the second place of a pair is from it.
#[derive(Clone, Copy)]
struct GroupPairs {
    first: usize,
    second: usize,
    gap: usize,
}

// The places of a group by its entry in the table of groups; the four of four subcarriers are side by side.
fn pairs_of(entry: u16, six: usize) -> GroupPairs
    ensures { result ≡ pairs_of entry six }
{
    let e = usize::from(entry);
    if e % 2 == 1 {
        return GroupPairs {
            first: e / 2,
            second: e / 2 + 2,
            gap: 1,
        };
    }
    GroupPairs {
        first: e / 2,
        second: e / 2 + 3,
        gap: six,
    }
}

// Two elements as one number, at byte `at` and beside it or with one between.
fn put_two(grid: &mut [u8], at: usize, gap: usize, v: u64)
    requires { SingleIn at gap grid.old }
    ensures { TwoPut gap at v grid.old grid.new }
{
    if gap == 2 {
        put_elements::<2>(grid, at, v);
        return;
    }
    put_elements::<1>(grid, at, v);
}

// The four symbols of a quad's byte z on one port.
fn put_single(x: GroupPairs, z: u64, t: &[u32; 256], grid: &mut [u8])
    requires { (x.first < 16800) × (x.second < 16800) × SingleIn (3 * x.first) x.gap grid.old × SingleIn (3 * x.second) x.gap grid.old }
    ensures { SinglePut x z t.now grid.old grid.new }
{
    let y = z >> 2;
    let w = y >> 2;
    let a = number(t, w >> 2);
    let b = number(t, w);
    let c = number(t, y);
    let d = number(t, z);
    put_two(grid, 3 * x.first, x.gap, joint(a, b));
    put_two(grid, 3 * x.second, x.gap, joint(c, d));
}

// The four symbols of a quad's byte z at its group's places.
fn put_quad(ports: u8, places: usize, x: GroupPairs, z: u64, t: &[u32; 256], grid: &mut [u8])
    requires { QuadIn ports places x t.now grid.old }
    ensures { QuadPut ports places x z grid.old grid.new }
{
    if ports == 1 {
        put_single(x, z, t, grid);
        return;
    }
    let o = walk::port_offsets(ports, places, 0);
    let at = 3 * (o.own + x.first);
    let next = 3 * (o.next + x.second);
    let across = 3 * o.across;
    if x.gap == 2 {
        round::<2>(z, 2, t, grid, at, next, across);
        return;
    }
    round::<1>(z, 2, t, grid, at, next, across);
}

// A byte scrambled by the sequence's next eight bits.
fn scrambled(b: u8, s: Registers) -> u64
    ensures { (result ≡ bit_xor b (word_of s 8)) × (b < 256) }
{
    u64::from(b) ^ u64::from(gold::word(s, 8))
}

// The nine quads of control element e, whose bits are nine bytes, scrambled by the pair r; the pair after them.
fn put_element(
    r: Registers,
    cell: Cell,
    groups: &[u16; 800],
    e: usize,
    t: &[u32; 256],
    bits: &[u8],
    grid: &mut [u8],
) -> Registers
    requires { ElementIn cell groups.now e t.now grid.old × (length bits.now ≡ 9) }
    ensures { ElementPut cell groups.now e bits.now r grid.old grid.new × (result ≡ after r 72) }
{
    let places = layout::places(cell);
    let six = pdcch::gap_of(cell, 0);
    let mut s = r;
    for (i, b) in bits.iter().enumerate() {
        let q = 9 * e + i;
        let x = pairs_of(groups[q], six);
        put_quad(cell.ports, places, x, scrambled(*b, s), t, grid);
        s = gold::advance(s, 8);
    }
    s
}

// Control element e, whose nine bytes are number `given` of those that the bits have, counted from 1. With 0 it is not given, and its bits of the
// sequence are passed over. The pair after them. (0 and not None: `is_given` of pdcch/specs/Block.antt says so of the table `from`.)
fn put_given(
    r: Registers,
    cell: Cell,
    groups: &[u16; 800],
    e: usize,
    given: u8,
    t: &[u32; 256],
    bits: &[u8],
    grid: &mut [u8],
) -> Registers
    requires { ElementIn cell groups.now e t.now grid.old × (9 * given ≤ length bits.now) }
    ensures { GivenPut cell groups.now e given bits.now r grid.old grid.new × (result ≡ after r 72) }
{
    let Some(before) = given.checked_sub(1) else {
        return gold::skip(r, 72);
    };
    let at = 9 * usize::from(before);
    put_element(r, cell, groups, e, t, &bits[at..at + 9], grid)
}

// The given control elements of the block, scrambled by the pair r; the pair after all of the block's elements. `groups` has the block's groups by
// quad, `from` says which nine bytes each element has, t has the elements of QPSK. Callers pass the cell and the frame of an accepted plan.
pub fn fill(
    r: Registers,
    cell: Cell,
    frame: Frame,
    elements: usize,
    groups: &[u16; 800],
    from: &[u8; 88],
    t: &[u32; 256],
    bits: &[u8],
    grid: &mut [u8],
) -> Registers
    requires { FillIn cell frame elements groups.now from.now t.now bits.now grid.old }
    ensures { Written (block_sends cell frame from.now) (block_sent cell frame from.now bits.now r) grid.old grid.new
        × (result ≡ after r (72 * control_elements cell frame)) }
{
    let mut s = r;
    for (e, given) in from[..elements].iter().enumerate() {
        s = put_given(s, cell, groups, e, *given, t, bits, grid);
    }
    s
}
