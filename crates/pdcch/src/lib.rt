// The control channel's groups (TS 36.211 6.8.5).
#![tactic(auto)]

ghost use Rattle.std.specs.Prelude.{◌≡◌, false, ℕ, ◌+◌, ◌*◌, ◌%◌, ◌≤◌, ◌<◌, length};
ghost use Rattle.bitset.specs.Sets.{member};
ghost use Rattle.plan.specs.Fields.{mapping_units};
ghost use Rattle.plan.specs.Valid.{CellIn};
ghost use Rattle.layout.specs.Rules.{format_group, quad_symbol, quad_group};
ghost use Rattle.pdcch.specs.Groups.{RegionOf, GroupTable, gap_of};
ghost use Rattle.pdcch.specs.Walk.{spot_of, MarkedBy, group_of, TakenSet, start_list, start_count, StartsTo, PutIn, next_cursor, next_table, BlockIn, BlockOut};

use interleaver::Cursor;
use plan::{Cell, Frame};

// The number after n around a ring of h, without a division.
fn around(n: usize, h: usize) -> usize
    requires { n < h }
    ensures { result ≡ (n + 1) % h }
{
    if n + 1 == h { 0 } else { n + 1 }
}

// PCFICH's groups, all of symbol 0.
#[derive(Clone, Copy)]
struct FormatGroups {
    first: usize,
    second: usize,
    third: usize,
    fourth: usize,
}

impl FormatGroups {
    fn of(cell: Cell) -> Self
        requires { CellIn cell }
        ensures { (result.first ≡ format_group cell 0) × (result.second ≡ format_group cell 1) × (result.third ≡ format_group cell 2)
            × (result.fourth ≡ format_group cell 3) }
    {
        Self {
            first: layout::format_group(cell, 0),
            second: layout::format_group(cell, 1),
            third: layout::format_group(cell, 2),
            fourth: layout::format_group(cell, 3),
        }
    }

    // The group of symbol s that is left with number n.
    fn left(self, s: usize, n: usize) -> usize
        requires { n < 1024 }
        ensures { result ≡ group_of s self.first self.second self.third self.fourth n }
    {
        if s == 0 {
            return places::left_group(self.first, self.second, self.third, self.fourth, n);
        }
        n
    }
}

// Adds the groups that the PHICH units' quads i have. PCFICH's groups are worked out once, and so is all that has a division.
fn mark_quads(cell: Cell, i: usize, taken: &mut [u64])
    requires { CellIn cell × (i < 3) × (length taken.old ≡ 32) }
    ensures { MarkedBy (λ (m : ℕ). spot_of cell (quad_symbol cell i) (quad_group cell m i)) (mapping_units cell) taken.old taken.new }
{
    let s = layout::quad_symbol(cell, i);
    let format = FormatGroups::of(cell);
    let first = s * (6 * usize::from(cell.blocks));
    let pairs = plan::group_size(cell, s) / 2;
    let units = plan::units(cell);
    let h = layout::groups_left(cell, s);
    let mut n = (layout::start_number(cell, s) + i * h / 3) % h;
    for m in 0..units {
        bitset::add(taken, first + pairs * format.left(s, n));
        n = around(n, h);
    }
}

// Adds PCFICH's group i, which is of symbol 0.
fn mark_format(cell: Cell, i: usize, taken: &mut [u64])
    requires { CellIn cell × (i < 4) × (length taken.old ≡ 32) }
    ensures { MarkedBy (λ (m : ℕ). spot_of cell 0 (format_group cell i)) 1 taken.old taken.new }
{
    bitset::add(taken, 3 * layout::format_group(cell, i));
}

// Makes an empty set that of the groups that PCFICH and PHICH have.
fn set_taken(cell: Cell, taken: &mut [u64])
    requires { CellIn cell × (length taken.old ≡ 32) × ((x : ℕ) → member taken.old x ≡ false) }
    ensures { TakenSet cell taken.new }
{
    mark_format(cell, 0, taken);
    mark_format(cell, 1, taken);
    mark_format(cell, 2, taken);
    mark_format(cell, 3, taken);
    mark_quads(cell, 0, taken);
    mark_quads(cell, 1, taken);
    mark_quads(cell, 2, taken);
}

// One entry more in the list, after n others, where a group of symbol s starts at subcarrier k of block 0; how many there are then. An entry is
// one number of two bytes, since the table of 800 of them stands on the stack.
fn put_start(cell: Cell, k: usize, s: usize, n: usize, starts: &mut [u16; 16]) -> usize
    requires { CellIn cell × (k < 12) × (s < 4) × (n < 16) × (length starts.old ≡ 16) }
    ensures { (result ≡ start_count cell k s n) × (starts.new ≡ start_list cell k s n starts.old) }
{
    if plan::group_size(cell, s) == 4 {
        if k % 4 != 0 {
            return n;
        }
        starts[n] = (2 * places::quad_place(cell, s, k / 4, 0) + 1) as u16;
        return n + 1;
    }
    if k % 6 != 0 {
        return n;
    }
    starts[n] = (2 * places::quad_place(cell, s, k / 6, 0)) as u16;
    n + 1
}

// The entries of the groups that start at the even subcarrier k of block 0, symbol by symbol, after n others; how many there are then.
fn put_starts(cell: Cell, k: usize, symbols: usize, n: usize, starts: &mut [u16; 16]) -> usize
    requires { CellIn cell × (k < 12) × (symbols ≤ 4) × StartsTo cell symbols (k * symbols) n starts.old }
    ensures { StartsTo cell symbols (k * symbols + symbols) result starts.new }
{
    let mut count = n;
    for s in 0..symbols {
        count = put_start(cell, k, s, count, starts);
    }
    count
}

// The entries of the groups that start in block 0, in the order of 6.8.5, and their number. A group starts at an even subcarrier.
fn set_starts(cell: Cell, symbols: usize, starts: &mut [u16; 16]) -> usize
    requires { CellIn cell × (0 < symbols) × (symbols ≤ 4) × (length starts.old ≡ 16) }
    ensures { StartsTo cell symbols (12 * symbols) result starts.new }
{
    let mut n: usize = 0;
    for half in 0..6 {
        n = put_starts(cell, 2 * half, symbols, n, starts);
    }
    n
}

// One group, of entry v: where it is vacant, the quad at the cursor has it, and the next group's is one position on.
fn put_group(taken: &[u64], v: u16, c: Cursor, groups: &mut [u16; 800]) -> Cursor
    requires { PutIn taken.now v c groups.old }
    ensures { (result ≡ next_cursor taken.now v c) × (groups.new ≡ next_table taken.now v c groups.old) }
{
    if bitset::has(taken, usize::from(v) / 4) {
        return c;
    }
    let q = interleaver::quad(c);
    groups[q] = v;
    interleaver::step(c)
}

// The groups of a block, whose entries are base more than those of the list.
fn put_block(taken: &[u64], starts: &[u16], base: u16, c: Cursor, groups: &mut [u16; 800]) -> Cursor
    requires { BlockIn taken.now starts.now base (length starts.now) c groups.old }
    ensures { BlockOut taken.now starts.now base (length starts.now) c groups.old result groups.new }
{
    let mut cursor = c;
    for v in starts {
        cursor = put_group(taken, *v + base, cursor, groups);
    }
    cursor
}

// The table of the groups by quad. In each block of twelve subcarriers the same groups start, and an entry is 24 more than in the block before.
pub fn set_groups(cell: Cell, frame: Frame, groups: &mut [u16; 800])
    requires { RegionOf cell frame × (length groups.old ≡ 800) }
    ensures { GroupTable cell frame groups.new }
{
    let symbols = plan::control_symbols(cell, frame);
    let quads = plan::region_groups(cell, frame);
    let mut taken: [u64; 32] = [0; 32];
    set_taken(cell, &mut taken);
    let mut starts: [u16; 16] = [0; 16];
    let count = set_starts(cell, symbols, &mut starts);
    let mut cursor = interleaver::start(quads, usize::from(cell.identity) % quads);
    for block in 0..cell.blocks {
        cursor = put_block(
            &taken,
            &starts[..count],
            24 * u16::from(block),
            cursor,
            groups,
        );
    }
}

// How far the places of a pair are apart in a group: of four subcarriers where `four`, an entry's last bit, is 1, of six where it is 0. One of each three
// subcarriers of a group of six is left out, the one in the middle where the identity is 1 modulo 3.
pub fn gap_of(cell: Cell, four: usize) -> usize
    ensures { result ≡ gap_of cell four }
{
    if four != 1 && cell.identity % 3 == 1 {
        return 2;
    }
    1
}
