// The control channel's elements in a grid, compared in place (TS 36.211 6.8, 6.3): quad by quad of the given elements, whether each place
// holds a QPSK symbol, and the other port its partner. The bits themselves are read later, when the whole grid is known to be some payload's.
#![tactic(auto)]

ghost use Rattle.std.specs.Prelude.{◌≡◌, ◌+◌, ◌*◌, ◌≤◌, ◌<◌, length, ltb};
ghost use Rattle.element_pairs.specs.Numbers.{TwoRead};
ghost use Rattle.walk.specs.Addresses.{PairsIn};
ghost use Rattle.places.specs.Places.{places_of};
ghost use Rattle.data_compare.specs.Places.{PairsSeen};
ghost use Rattle.pdcch_compare.specs.Symbols.{BlockCompared, CompareIn};
ghost use Rattle.pdcch_compare.specs.Quads.{QuadIn, EntryIn, TableIn, EntrySeen, ElementSeen, GivenTold};

use data_compare::{Form, Starts, Sums};
use element_pairs::three_at;
use plan::{Cell, Frame};

// Two elements as one number, the second `gap` places on. The gap is no constant as in `element_pairs`: it is that of the group in the table.
pub fn pair_at(grid: &[u8], at: usize, gap: usize) -> u64
    requires { at + 3 * gap + 2 < length grid.now }
    ensures { TwoRead gap at grid.now result }
{
    let a = three_at(grid, at);
    a + three_at(grid, at + 3 * gap) * 16777216
}

// A quad's two pairs of places on two ports or four, the second `step` places on; 0 where they are right. Parameters stand one by one, as in
// `data_compare`.
fn two_pairs(
    f: Form,
    grid: &[u8],
    ports: u8,
    places: usize,
    start: usize,
    step: usize,
    gap: usize,
) -> u64
    requires { PairsIn ports places gap 0 start step 2 grid.now }
    ensures { PairsSeen ports places gap 0 start step 2 f grid.now result }
{
    let p = Starts::of(ports, places, 0, start, step);
    let at = p.at;
    let next = p.next;
    let across = p.across;
    let none = Sums::default();
    let x = pair_at(grid, at, gap);
    let y = pair_at(grid, at + across, gap);
    let one = none.with_pair(f, x, y);
    let z = pair_at(grid, next, gap);
    let w = pair_at(grid, next + across, gap);
    f.told(one.with_pair(f, z, w))
}

// The same on any number of ports.
fn compare_quad(
    f: Form,
    grid: &[u8],
    ports: u8,
    places: usize,
    start: usize,
    step: usize,
    gap: usize,
) -> u64
    requires { QuadIn ports places start step gap grid.now }
    ensures { PairsSeen ports places gap 0 start step 2 f grid.now result }
{
    if ports == 1 {
        let one = f.wrong(pair_at(grid, 3 * start, gap));
        return one | f.wrong(pair_at(grid, 3 * (start + step), gap));
    }
    two_pairs(f, grid, ports, places, start, step, gap)
}

// The quad whose entry in the table of groups is x.
fn compare_entry(f: Form, grid: &[u8], cell: Cell, places: usize, x: usize) -> u64
    requires { EntryIn cell x grid.now × (places ≡ places_of cell) }
    ensures { EntrySeen cell x f grid.now result }
{
    let four = x % 2;
    let gap = pdcch::gap_of(cell, four);
    compare_quad(f, grid, cell.ports, places, x / 2, 3 - four, gap)
}

// The nine quads of control element e.
fn compare_quads(f: Form, grid: &[u8], cell: Cell, groups: &[u16; 800], e: usize) -> u64
    requires { TableIn cell groups.now (9 * e + 9) grid.now }
    ensures { ElementSeen cell groups.now e f grid.now 36 result }
{
    let places = layout::places(cell);
    let mut bad: u64 = 0;
    for x in &groups[9 * e..9 * e + 9] {
        bad |= compare_entry(f, grid, cell, places, usize::from(*x));
    }
    bad
}

// Whether a control element is given: n says which nine bytes are its bits, 0 that it is not.
fn is_given(n: u8) -> bool
    ensures { result ≡ ltb 0 n }
{
    n != 0
}

// All given elements: how many they are, or None where one of them is wrong.
fn compare_given(
    f: Form,
    grid: &[u8],
    cell: Cell,
    elements: usize,
    groups: &[u16; 800],
    from: &[u8; 88],
) -> Option<usize>
    requires { TableIn cell groups.now (9 * elements) grid.now × (elements ≤ 88) }
    ensures { GivenTold cell groups.now from.now f grid.now elements result }
{
    let mut given: usize = 0;
    let mut bad: u64 = 0;
    for (e, n) in from[..elements].iter().enumerate() {
        if is_given(*n) {
            given += 1;
            bad |= compare_quads(f, grid, cell, groups, e);
        }
    }
    if bad == 0 { Some(given) } else { None }
}

// The given elements of a subframe. Callers have the cell, the frame and `from` from an accepted plan, the table of the groups that the
// block's quads take, and have compared the grid's length.
pub fn compare(
    cell: Cell,
    frame: Frame,
    elements: usize,
    groups: &[u16; 800],
    from: &[u8; 88],
    grid: &[u8],
) -> Option<usize>
    requires { CompareIn cell frame elements groups.now from.now grid.now }
    ensures { BlockCompared cell frame from.now grid.now result }
{
    let f = Form::of(2, precoding::unit_byte_on(cell.ports, 2));
    let given = compare_given(f, grid, cell, elements, groups, from)?;
    Some(data_compare::weight_of(cell.ports, 36 * given))
}
