// PBCH and the users written into a grid (TS 36.211 6.3.5, 6.6.4): their places run by run, on two ports or four a pair of places at a time,
// with elements from an order's table.
#![tactic(auto)]

ghost use Rattle.std.specs.Prelude.{◌≡◌, ◌+◌, ◌*◌, ◌≤◌, ◌<◌, length};
ghost use Rattle.modulation.specs.Symbols.{Order, unit_of};
ghost use Rattle.walk.specs.Addresses.{PairsIn, PairsFit, RunIn, RunOpen, SinglesIn, HolesIn};
ghost use Rattle.walk.specs.Forms.{holed_place};
ghost use Rattle.data_write.specs.Sent.{bits_at_once, TableOf, Sending};
ghost use Rattle.data_write.specs.Pairs.{RoundIn, RoundDone, FirstAt, PairsDone, RunFilled};
ghost use Rattle.data_write.specs.OnePort.{PlacesDone};
ghost use Rattle.data_write.specs.Areas.{RunsIn, RunsDone, FillIn, AreaFilled};

use areas::Area;
use codeword::ScrambledBits;
use constellation::{joint, number, partners};
use element_pairs::{put_pair, put_six, put_three};
use gold::Registers;
use walk::{Run, Tables, port_offsets};

// Ports, places, index and first place stay parameters of their own: as one struct by value they cost 0.02 to 0.05 of the plain mapper's time.

// Four symbols, those of the lowest 4q bits of z, at two pairs of places, at bytes `at` and `next` of their own ports and `across` further on the
// others, a pair's second place GAP after its first. The table is read before the grid is written, since the compiler cannot tell the two apart.
pub fn round<const GAP: usize>(
    z: u64,
    q: u64,
    t: &[u32; 256],
    grid: &mut [u8],
    at: usize,
    next: usize,
    across: usize,
)
    requires { (0 < GAP) × RoundIn GAP q at next across grid.old }
    ensures { RoundDone GAP z q t.now at next across grid.old grid.new }
{
    let y = z >> q;
    let x = y >> q;
    let a = number(t, x >> q);
    let b = number(t, x);
    let c = number(t, y);
    let d = number(t, z);
    put_pair::<GAP>(grid, at, across, joint(a, b), partners(a, b));
    put_pair::<GAP>(grid, next, across, joint(c, d), partners(c, d));
}

// The bytes of the first round's pairs on their own ports, and how much further their other ports are.
#[derive(Clone, Copy)]
struct FirstRound {
    at: usize,
    next: usize,
    across: usize,
}

// Where rounds from place `start` and from index j on begin, pairs `step` places apart.
fn first_round(ports: u8, places: usize, j: usize, start: usize, step: usize) -> FirstRound
    requires { PairsFit ports places j start step }
    ensures { FirstAt ports places j start step result }
{
    let p = port_offsets(ports, places, j);
    FirstRound {
        at: 3 * (p.own + start),
        next: 3 * (p.next + start + step),
        across: 3 * p.across,
    }
}

// Twice n pairs, two in each round: pair i at `start` + STEP i and GAP further. Each GAP and STEP is a loop of its own: with one for all, the
// processor foresees its end less often.
fn pairs<const GAP: usize, const STEP: usize>(
    st: &mut ScrambledBits,
    q: u64,
    t: &[u32; 256],
    bits: &[u8],
    grid: &mut [u8],
    ports: u8,
    places: usize,
    j: usize,
    start: usize,
    n: usize,
)
    requires { (0 < GAP) × PairsIn ports places GAP j start STEP (2 * n) grid.old × Sending (2 * q) q j t.now bits.now st.old }
    ensures { PairsDone ports places GAP j start STEP (2 * n) (2 * n) q t.now bits.now st.old grid.old st.new grid.new }
{
    let f = first_round(ports, places, j, start, STEP);
    let mut h = st.rest;
    for i in 0..n {
        let on = 6 * STEP * i;
        h = st.take_rest(h, 4 * q, bits);
        round::<GAP>(
            h.word >> h.left,
            q,
            t,
            grid,
            f.at + on,
            f.next + on,
            f.across,
        );
    }
    st.rest = h;
}

// One pair, side by side.
fn pair(
    st: &mut ScrambledBits,
    q: u64,
    t: &[u32; 256],
    bits: &[u8],
    grid: &mut [u8],
    ports: u8,
    places: usize,
    j: usize,
    start: usize,
)
    requires { PairsIn ports places 1 j start 2 1 grid.old × Sending (2 * q) q j t.now bits.now st.old }
    ensures { PairsDone ports places 1 j start 2 1 1 q t.now bits.now st.old grid.old st.new grid.new }
{
    let p = port_offsets(ports, places, j);
    let y = st.take(2 * q, bits);
    let a = number(t, y >> q);
    let b = number(t, y);
    put_pair::<1>(
        grid,
        3 * (p.own + start),
        3 * p.across,
        joint(a, b),
        partners(a, b),
    );
}

// Half blocks with all six places open: where their number is odd, one pair is left after the rounds.
fn all_six(
    st: &mut ScrambledBits,
    q: u64,
    t: &[u32; 256],
    bits: &[u8],
    grid: &mut [u8],
    ports: u8,
    places: usize,
    j: usize,
    first: usize,
    halves: usize,
)
    requires { PairsIn ports places 1 j first 2 (3 * halves) grid.old × Sending (2 * q) q j t.now bits.now st.old }
    ensures { PairsDone ports places 1 j first 2 (3 * halves) (3 * halves) q t.now bits.now st.old grid.old st.new grid.new }
{
    let n = 3 * halves / 2;
    pairs::<1, 2>(st, q, t, bits, grid, ports, places, j, first, n);
    if 3 * halves % 2 == 1 {
        pair(
            st,
            q,
            t,
            bits,
            grid,
            ports,
            places,
            j + 4 * n,
            first + 4 * n,
        );
    }
}

// A run on two ports or four, from the channel's index j on; the index after it.
fn fill_pairs(
    st: &mut ScrambledBits,
    q: u64,
    t: &[u32; 256],
    bits: &[u8],
    grid: &mut [u8],
    run: Run,
    j: usize,
    ports: u8,
    places: usize,
) -> usize
    requires { RunIn ports places j run grid.old × Sending (2 * q) q j t.now bits.now st.old }
    ensures { RunFilled (2 * q) ports places j run q t.now bits.now st.old grid.old result st.new grid.new }
{
    let Run {
        first,
        halves,
        mask,
    } = run;
    match mask {
        63 => {
            all_six(st, q, t, bits, grid, ports, places, j, first, halves);
            j + 6 * halves
        }
        27 => {
            pairs::<1, 3>(st, q, t, bits, grid, ports, places, j, first, halves);
            j + 4 * halves
        }
        54 => {
            pairs::<1, 3>(st, q, t, bits, grid, ports, places, j, first + 1, halves);
            j + 4 * halves
        }
        _ => {
            pairs::<2, 3>(st, q, t, bits, grid, ports, places, j, first, halves);
            j + 4 * halves
        }
    }
}

// n places side by side on one port.
fn singles(
    st: &mut ScrambledBits,
    q: u64,
    t: &[u32; 256],
    bits: &[u8],
    grid: &mut [u8],
    j: usize,
    start: usize,
    n: usize,
)
    requires { SinglesIn start n grid.old × (j + n ≤ 16800) × Sending q q j t.now bits.now st.old }
    ensures { PlacesDone j n (◌+◌ start) n q t.now bits.now st.old grid.old st.new grid.new }
{
    for i in 0..n {
        let x = st.take(q, bits);
        put_three(grid, 3 * (start + i), number(t, x));
    }
}

// Twice n places side by side on one port, two in each round.
fn doubles(
    st: &mut ScrambledBits,
    q: u64,
    t: &[u32; 256],
    bits: &[u8],
    grid: &mut [u8],
    j: usize,
    start: usize,
    n: usize,
)
    requires { SinglesIn start (2 * n) grid.old × (j + 2 * n ≤ 16800) × Sending q q j t.now bits.now st.old }
    ensures { PlacesDone j (2 * n) (◌+◌ start) (2 * n) q t.now bits.now st.old grid.old st.new grid.new }
{
    for i in 0..n {
        let x = st.take(2 * q, bits);
        let a = number(t, x >> q);
        let b = number(t, x);
        put_six(grid, 3 * (start + 2 * i), joint(a, b));
    }
}

// The places of a run with holes on one port, stretch after stretch between them: `lead` places before the first hole, then `each`.
fn between(
    st: &mut ScrambledBits,
    q: u64,
    t: &[u32; 256],
    bits: &[u8],
    grid: &mut [u8],
    first: usize,
    j: usize,
    lead: usize,
    each: usize,
    total: usize,
)
    requires { HolesIn first lead each total grid.old × (j + total ≤ 16800) × Sending q q j t.now bits.now st.old }
    ensures { PlacesDone j total (holed_place first lead each) total q t.now bits.now st.old grid.old st.new grid.new }
{
    let s = walk::first_stretch(first, lead, each);
    let mut at = s.at;
    let mut left = s.left;
    let mut k: usize = 0;
    // A `while`: each stretch has a length of its own.
    while k < total {
        let n = left.min(total - k);
        singles(st, q, t, bits, grid, j + k, at, n);
        k += n;
        at += n + 1;
        left = each;
    }
}

// A run on one port, from the channel's index j on; the index after it.
fn fill_single(
    st: &mut ScrambledBits,
    q: u64,
    t: &[u32; 256],
    bits: &[u8],
    grid: &mut [u8],
    run: Run,
    j: usize,
    places: usize,
) -> usize
    requires { RunOpen 1 places j run grid.old × Sending q q j t.now bits.now st.old }
    ensures { RunFilled q 1 places j run q t.now bits.now st.old grid.old result st.new grid.new }
{
    let first = run.first;
    let halves = run.halves;
    let h = walk::holes_of(run.mask);
    let total = h.count * halves;
    if h.each == 0 {
        doubles(st, q, t, bits, grid, j, first, 3 * halves);
        return j + total;
    }
    between(st, q, t, bits, grid, first, j, h.lead, h.each, total);
    j + total
}

// A run of half blocks, from the channel's index j on; the index after it.
fn fill_run(
    st: &mut ScrambledBits,
    q: u64,
    t: &[u32; 256],
    bits: &[u8],
    grid: &mut [u8],
    run: Run,
    j: usize,
    ports: u8,
    places: usize,
) -> usize
    requires { RunOpen ports places j run grid.old × Sending (bits_at_once ports q) q j t.now bits.now st.old }
    ensures { RunFilled (bits_at_once ports q) ports places j run q t.now bits.now st.old grid.old result st.new grid.new }
{
    if ports == 1 {
        return fill_single(st, q, t, bits, grid, run, j, places);
    }
    fill_pairs(st, q, t, bits, grid, run, j, ports, places)
}

// All runs of an area, by its tables.
fn fill_runs(
    st: &mut ScrambledBits,
    q: u64,
    t: &[u32; 256],
    bits: &[u8],
    grid: &mut [u8],
    a: Area,
    tables: &Tables,
)
    requires { RunsIn a q tables.now.rows tables.now.spans t.now bits.now st.old grid.old }
    ensures { RunsDone a q tables.now.rows tables.now.spans t.now bits.now st.old grid.old st.new grid.new }
{
    let symbols = layout::symbols(a.cell);
    let carriers = layout::carriers(a.cell);
    let places = layout::places(a.cell);
    let mut c = tables.start();
    let mut j: usize = 0;
    // A `while`: where the cursor goes next stands in the tables.
    while c.s < symbols {
        let run = tables.run_at(c, carriers);
        j = fill_run(st, q, t, bits, grid, run, j, a.cell.ports, places);
        c = tables.next(c);
    }
}

// An area's places, with symbols of q bits whose elements are in the order's table, from a slice's bits scrambled by what the pair gives; the
// pair after them, at the bit after the last that was used. The masks are those of `areas::row_masks`.
pub fn fill_by_tables(
    r: Registers,
    a: Area,
    q: u32,
    t: &[u32; 256],
    masks: &[u8; 14],
    bits: &[u8],
    grid: &mut [u8],
) -> Registers
    requires { FillIn a q t.now masks.now grid.old }
    ensures { AreaFilled a q t.now bits.now r grid.old result grid.new }
{
    let mut tables = Tables::new();
    areas::set_tables(a, masks, &mut tables);
    let mut st = ScrambledBits::begin(r, bits);
    fill_runs(&mut st, u64::from(q), t, bits, grid, a, &tables);
    st.end(r)
}

// The table of an order's elements in the unit that the ports have.
pub fn set_table(t: &mut [u32; 256], q: u32, ports: u8)
    requires { (length t.old ≡ 256) × Order q }
    ensures { TableOf ports q (unit_of q) t.new }
{
    constellation::set_elements(t, q, precoding::unit_byte_on(ports, modulation::unit(q)));
}
