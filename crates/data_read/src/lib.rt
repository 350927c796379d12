// The bits of PBCH and of the users, read from a grid (TS 36.211 6.6, 6.3): each channel's section of the payload. Its places go run by run, on
// two ports or four two pairs of places at a time, and bits come from an order's table of levels.
#![tactic(auto)]

ghost use Rattle.std.specs.Prelude.{◌≡◌, ◌+◌, ◌*◌, ◌≤◌, ◌<◌, ◌^◌, length};
ghost use Rattle.payload.specs.Sections.{section_bytes};
ghost use Rattle.recovery.specs.Recovery.{section_of};
ghost use Rattle.walk.specs.Addresses.{PairsIn, RunIn, RunOpen, SinglesIn, HolesIn};
ghost use Rattle.walk.specs.Forms.{HolesOf, holed_place};
ghost use Rattle.walk.specs.Runs.{run_count};
ghost use Rattle.areas.specs.Areas.{area_count};
ghost use Rattle.data_read.specs.Reading.{area_bit, AreaReads};
ghost use Rattle.data_read.specs.Runs.{both_of, Table, Reading, ReadOn, pair_element, run_element, BeforePairs, RunRead};
ghost use Rattle.data_read.specs.Areas.{symbol_element, RunsIn};

use areas::Area;
use constellation::symbol_of;
use element_pairs::{pair_at, three_at};
use gold::Registers;
use section_bits::SectionBits;
use walk::{Holes, Run, Tables, port_offsets};

// The bits of two symbols, whose elements are one number.
fn two_symbols(d: &[u8; 32], q: u64, v: u64) -> u64
    requires { Table q d.now }
    ensures { (result ≡ both_of q d.now v) × (result < 2 ^ (2 * q)) }
{
    (symbol_of(d, v) << q) + symbol_of(d, v / 16777216)
}

// The bits of two pairs of symbols.
pub fn four(d: &[u8; 32], q: u64, x: u64, y: u64) -> u64
    requires { Table q d.now }
    ensures { (result ≡ both_of q d.now x * 2 ^ (2 * q) + both_of q d.now y) × (result < 2 ^ (4 * q)) }
{
    (two_symbols(d, q, x) << (2 * q)) + two_symbols(d, q, y)
}

// Twice n pairs of places, two in each round: pair i at `start` + `step` × i, its second place `GAP` after the first.
// Parameters one by one here and below: ports, places, index and first place as one struct by value were timed and are slower (docs/DECISIONS.md).
fn rounds<const GAP: usize>(
    st: &mut SectionBits,
    q: u64,
    d: &[u8; 32],
    grid: &[u8],
    part: &mut [u8],
    ports: u8,
    places: usize,
    j: usize,
    start: usize,
    step: usize,
    n: usize,
)
    requires { PairsIn ports places GAP j start step (2 * n) grid.now × Reading q j (4 * n) d.now st.old part.old }
    ensures { ReadOn q j (4 * n) (pair_element ports places j start step GAP) d.now grid.now st.old part.old st.new part.new }
{
    let p = port_offsets(ports, places, j);
    let at = 3 * (p.own + start);
    let next = 3 * (p.next + start + step);
    for i in 0..n {
        let on = 6 * step * i;
        let x = pair_at::<GAP>(grid, at + on);
        let y = pair_at::<GAP>(grid, next + on);
        st.give(4 * q, four(d, q, x, y), part);
    }
}

// One pair, side by side.
fn pair(
    st: &mut SectionBits,
    q: u64,
    d: &[u8; 32],
    grid: &[u8],
    part: &mut [u8],
    ports: u8,
    places: usize,
    j: usize,
    start: usize,
)
    requires { PairsIn ports places 1 j start 2 1 grid.now × Reading q j 2 d.now st.old part.old }
    ensures { ReadOn q j 2 (pair_element ports places j start 2 1) d.now grid.now st.old part.old st.new part.new }
{
    let p = port_offsets(ports, places, j);
    let x = pair_at::<1>(grid, 3 * (p.own + start));
    st.give(2 * q, two_symbols(d, q, x), part);
}

// Half blocks with all six places open: where their number is odd, one pair is left after those read two by two.
fn all_six(
    st: &mut SectionBits,
    q: u64,
    d: &[u8; 32],
    grid: &[u8],
    part: &mut [u8],
    ports: u8,
    places: usize,
    j: usize,
    first: usize,
    halves: usize,
)
    requires { PairsIn ports places 1 j first 2 (3 * halves) grid.now × Reading q j (6 * halves) d.now st.old part.old }
    ensures { ReadOn q j (6 * halves) (pair_element ports places j first 2 1) d.now grid.now st.old part.old st.new part.new }
{
    let n = 3 * halves / 2;
    rounds::<1>(st, q, d, grid, part, ports, places, j, first, 2, n);
    if 3 * halves % 2 == 1 {
        pair(
            st,
            q,
            d,
            grid,
            part,
            ports,
            places,
            j + 4 * n,
            first + 4 * n,
        );
    }
}

// How many holes are before the first place of a half block with two pairs side by side.
fn before_pairs(mask: usize) -> usize
    ensures { BeforePairs mask result }
{
    usize::from(mask == 54)
}

// A run on two ports or four, from the channel's index j on.
fn read_pairs(
    st: &mut SectionBits,
    q: u64,
    d: &[u8; 32],
    grid: &[u8],
    part: &mut [u8],
    run: Run,
    j: usize,
    ports: u8,
    places: usize,
)
    requires { RunIn ports places j run grid.now × Reading q j (run_count run) d.now st.old part.old }
    ensures { ReadOn q j (run_count run) (run_element ports places j run) d.now grid.now st.old part.old st.new part.new }
{
    let Run {
        first,
        halves,
        mask,
    } = run;
    match mask {
        63 => all_six(st, q, d, grid, part, ports, places, j, first, halves),
        45 => rounds::<2>(st, q, d, grid, part, ports, places, j, first, 3, halves),
        _ => {
            let start = first + before_pairs(mask);
            rounds::<1>(st, q, d, grid, part, ports, places, j, start, 3, halves);
        }
    }
}

// n places side by side on one port.
fn singles(
    st: &mut SectionBits,
    q: u64,
    d: &[u8; 32],
    grid: &[u8],
    part: &mut [u8],
    j: usize,
    start: usize,
    n: usize,
)
    requires { SinglesIn start n grid.now × Reading q j n d.now st.old part.old }
    ensures { ReadOn q j n (◌+◌ start) d.now grid.now st.old part.old st.new part.new }
{
    for i in 0..n {
        let x = three_at(grid, 3 * (start + i));
        st.give(q, symbol_of(d, x), part);
    }
}

// Twice n places side by side on one port, two in each round.
fn doubles(
    st: &mut SectionBits,
    q: u64,
    d: &[u8; 32],
    grid: &[u8],
    part: &mut [u8],
    j: usize,
    start: usize,
    n: usize,
)
    requires { SinglesIn start (2 * n) grid.now × Reading q j (2 * n) d.now st.old part.old }
    ensures { ReadOn q j (2 * n) (◌+◌ start) d.now grid.now st.old part.old st.new part.new }
{
    for i in 0..n {
        let x = pair_at::<1>(grid, 3 * (start + 2 * i));
        st.give(2 * q, two_symbols(d, q, x), part);
    }
}

// The places of a run with holes on one port, stretch after stretch between them: `lead` places before the first hole, then `each`.
fn between(
    st: &mut SectionBits,
    q: u64,
    d: &[u8; 32],
    grid: &[u8],
    part: &mut [u8],
    first: usize,
    j: usize,
    lead: usize,
    each: usize,
    total: usize,
)
    requires { HolesIn first lead each total grid.now × (j + total ≤ 16800) × Reading q j total d.now st.old part.old }
    ensures { ReadOn q j total (holed_place first lead each) d.now grid.now st.old part.old st.new part.new }
{
    let s = walk::first_stretch(first, lead, each);
    let mut at = s.at;
    let mut left = s.left;
    let mut k: usize = 0;
    // not a `for`: a stretch is as long as the holes leave it
    while k < total {
        let n = left.min(total - k);
        singles(st, q, d, grid, part, j + k, at, n);
        k += n;
        at += n + 1;
        left = each;
    }
}

// A run on one port, from the channel's index j on, by its holes.
fn read_single(
    st: &mut SectionBits,
    q: u64,
    d: &[u8; 32],
    grid: &[u8],
    part: &mut [u8],
    run: Run,
    j: usize,
    h: Holes,
    places: usize,
)
    requires { RunOpen 1 places j run grid.now × HolesOf run.mask h × Reading q j (run_count run) d.now st.old part.old }
    ensures { ReadOn q j (run_count run) (run_element 1 places j run) d.now grid.now st.old part.old st.new part.new }
{
    let first = run.first;
    let halves = run.halves;
    if h.each == 0 {
        doubles(st, q, d, grid, part, j, first, 3 * halves);
        return;
    }
    let total = h.count * halves;
    between(st, q, d, grid, part, first, j, h.lead, h.each, total);
}

// A run of half blocks, from the channel's index j on; the index after it.
fn read_run(
    st: &mut SectionBits,
    q: u64,
    d: &[u8; 32],
    grid: &[u8],
    part: &mut [u8],
    run: Run,
    j: usize,
    ports: u8,
    places: usize,
) -> usize
    requires { RunOpen ports places j run grid.now × Reading q j (run_count run) d.now st.old part.old }
    ensures { RunRead q ports places j run d.now grid.now st.old part.old result st.new part.new }
{
    let h = walk::holes_of(run.mask);
    let next = j + h.count * run.halves;
    if ports == 1 {
        read_single(st, q, d, grid, part, run, j, h, places);
        return next;
    }
    read_pairs(st, q, d, grid, part, run, j, ports, places);
    next
}

// All runs of an area, by its tables.
fn read_runs(
    st: &mut SectionBits,
    q: u64,
    d: &[u8; 32],
    grid: &[u8],
    part: &mut [u8],
    a: Area,
    tables: &Tables,
)
    requires { RunsIn a q tables.now.rows tables.now.spans d.now grid.now st.old part.old }
    ensures { ReadOn q 0 (area_count a) (symbol_element a) d.now grid.now st.old part.old st.new part.new }
{
    let symbols = layout::symbols(a.cell);
    let carriers = layout::carriers(a.cell);
    let places = layout::places(a.cell);
    let mut c = tables.start();
    let mut j: usize = 0;
    // not a `for`: a row has as many runs as its spans say
    while c.s < symbols {
        let run = tables.run_at(c, carriers);
        j = read_run(st, q, d, grid, part, run, j, a.cell.ports, places);
        c = tables.next(c);
    }
}

// The section of an area's bits, with symbols of q bits scrambled by what the register pair gives. The table is that of
// `constellation::set_axis`, and the masks are those of `areas::row_masks`. Callers have compared the area: each symbol is a constellation point of
// the order.
pub fn read_area(
    r: Registers,
    a: Area,
    q: u32,
    d: &[u8; 32],
    masks: &[u8; 14],
    grid: &[u8],
    part: &mut [u8],
)
    requires { AreaReads a q d.now masks.now grid.now × (length part.old ≡ section_bytes (q * area_count a)) }
    ensures { part.new ≡ section_of (area_bit a q grid.now r) (q * area_count a) }
{
    let mut tables = Tables::new();
    areas::set_tables(a, masks, &mut tables);
    let mut st = SectionBits::begin(r);
    read_runs(&mut st, u64::from(q), d, grid, part, a, &tables);
    st.flush(part);
}
