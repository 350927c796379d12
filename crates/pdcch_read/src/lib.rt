// The bits of given control elements, read from a grid (TS 36.211 6.8, 6.3): a quad's four symbols are a byte of the payload.
#![tactic(auto)]

ghost use Rattle.std.specs.Prelude.{◌≡◌, ◌+◌, ◌*◌, ◌≤◌, ◌<◌, length};
ghost use Rattle.std.specs.Int.Bits.{bit_xor};
ghost use Rattle.gold.specs.Steps.{word_of};
ghost use Rattle.constellation.specs.Axis.{Axis};
ghost use Rattle.places.specs.Places.{places_of};
ghost use Rattle.pdcch_compare.specs.Quads.{EntryIn};
ghost use Rattle.pdcch_read.specs.Reading.{BlockRead, ReadIn};
ghost use Rattle.pdcch_read.specs.Bytes.{EntryRead, ElementIn, ElementPut, ChosenPut, GivenIn, GivenPut};

use gold::Registers;
use pdcch_compare::pair_at;
use plan::{Cell, Frame};

// The byte of the quad whose entry in the table of groups is x, still scrambled.
fn read_entry(cell: Cell, places: usize, d: &[u8; 32], grid: &[u8], x: usize) -> u64
    requires { EntryIn cell x grid.now × (places ≡ places_of cell) × Axis 2 d.now }
    ensures { EntryRead cell x d.now grid.now result }
{
    let small = x % 2;
    let gap = pdcch::gap_of(cell, small);
    let p = walk::port_offsets(cell.ports, places, 0);
    let start = x / 2;
    let first = pair_at(grid, 3 * (p.own + start), gap);
    let second = pair_at(grid, 3 * (p.next + (start + (3 - small))), gap);
    data_read::four(d, 2, first, second)
}

// A byte with the next eight bits of the sequence taken off.
fn unscrambled(w: u64, s: Registers) -> u8
    requires { w < 256 }
    ensures { result ≡ bit_xor w (word_of s 8) }
{
    let y = w ^ u64::from(gold::word(s, 8));
    (y % 256) as u8
}

// The nine bytes of control element e, from byte `at` on; the pair after them. Parameters stand one by one, as in `data_read`.
fn read_quads(
    r: Registers,
    cell: Cell,
    groups: &[u16; 800],
    d: &[u8; 32],
    grid: &[u8],
    e: usize,
    at: usize,
    part: &mut [u8],
) -> Registers
    requires { ElementIn cell groups.now e d.now grid.now × (at + 9 ≤ length part.old) }
    ensures { ElementPut cell groups.now e d.now grid.now at r part.old 9 result part.new }
{
    let places = layout::places(cell);
    let mut s = r;
    for i in 0..9 {
        let w = read_entry(cell, places, d, grid, usize::from(groups[9 * e + i]));
        part[at + i] = unscrambled(w, s);
        s = gold::advance(s, 8);
    }
    s
}

// Control element e, if it is given: its bytes are the nine of number n − 1, and n is 0 where it is not, since an Option for each element
// would double the table.
fn read_chosen(
    r: Registers,
    cell: Cell,
    groups: &[u16; 800],
    d: &[u8; 32],
    grid: &[u8],
    e: usize,
    n: usize,
    part: &mut [u8],
) -> Registers
    requires { ElementIn cell groups.now e d.now grid.now × (9 * n ≤ length part.old) }
    ensures { ChosenPut cell groups.now e d.now grid.now n r part.old result part.new }
{
    let Some(k) = n.checked_sub(1) else {
        return gold::skip(r, 72);
    };
    read_quads(r, cell, groups, d, grid, e, 9 * k, part)
}

// All given elements.
fn read_given(
    r: Registers,
    cell: Cell,
    elements: usize,
    groups: &[u16; 800],
    from: &[u8; 88],
    d: &[u8; 32],
    grid: &[u8],
    part: &mut [u8],
)
    requires { GivenIn cell elements groups.now from.now d.now grid.now part.old }
    ensures { GivenPut cell groups.now from.now d.now grid.now r part.old elements part.new }
{
    let mut s = r;
    for (e, n) in from[..elements].iter().enumerate() {
        s = read_chosen(s, cell, groups, d, grid, e, usize::from(*n), part);
    }
}

// The given elements of a subframe, scrambled by the pair r: the nine bytes of each. Callers have the cell, the frame and `from` from an
// accepted plan, the table of the groups that the block's quads take and that of two bits a symbol, and a grid that was compared.
pub fn read(
    r: Registers,
    cell: Cell,
    frame: Frame,
    elements: usize,
    groups: &[u16; 800],
    from: &[u8; 88],
    d: &[u8; 32],
    grid: &[u8],
    part: &mut [u8],
)
    requires { ReadIn cell frame elements groups.now from.now d.now grid.now part.old }
    ensures { BlockRead cell frame from.now grid.now r part.old part.new }
{
    read_given(r, cell, elements, groups, from, d, grid, part);
}
