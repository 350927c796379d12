// PBCH and the users in a grid, compared in place (TS 36.211 6.6, 6.3): run by run, whether each place holds a constellation point, and
// the other port its partner. The bits themselves are read later, when the whole grid is known to be some payload's.
#![tactic(auto)]

ghost use Rattle.std.specs.Prelude.{◌≡◌, cond, ◌+◌, ◌*◌, ◌≤◌, ◌<◌, eqb};
ghost use Rattle.modulation.specs.Symbols.{Order};
ghost use Rattle.walk.specs.Addresses.{PairsIn, PairsFit, RunIn, RunOpen, SinglesIn, HolesIn};
ghost use Rattle.walk.specs.Forms.{SingleForm, holed_place};
ghost use Rattle.walk.specs.Runs.{run_count};
ghost use Rattle.areas.specs.Runs.{AreaRuns};
ghost use Rattle.data_compare.specs.Symbols.{AreaCompared, CompareIn};
ghost use Rattle.data_compare.specs.Tests.{FormOf, wrong_of, sums_with, told_by};
ghost use Rattle.data_compare.specs.Places.{Starting, PairsSeen, PlacesSeen, RunSeen, RunsSeen};

use areas::Area;
use element_pairs::{pair_at, three_at};
use walk::{Run, Tables};

// What elements of an order and a unit have in common, for two elements as one number: `fixed` where `fixes` has bits, that is the
// unit's byte and that levels are odd; and a level's bits from `same` on are alike, so that it is one of the order.
#[derive(Clone, Copy)]
pub struct Form {
    pub same: u64,
    pub fixed: u64,
    pub fixes: u64,
}

impl Form {
    pub fn of(q: u32, byte: u8) -> Self
        requires { Order q }
        ensures { FormOf q byte result }
    {
        let levels: u64 = 1 << (q / 2);
        Self {
            same: (128 - levels) * 0x010100010100,
            fixed: u64::from(byte) * 16777217 + 0x010100010100,
            fixes: 0x0101FF0101FF,
        }
    }

    // The bits in which two elements are not of a form.
    pub fn wrong(self, x: u64) -> u64
        ensures { result ≡ wrong_of self x }
    {
        (x ^ x / 2) & self.same | (x ^ self.fixed) & self.fixes
    }

    // The bits in which pairs are wrong.
    pub fn told(self, s: Sums) -> u64
        ensures { result ≡ told_by self s }
    {
        s.bad | s.same & self.same | s.fixed & self.fixes
    }
}

// Bits that were found in pairs, before those of the form are taken.
#[derive(Clone, Copy, Default)]
pub struct Sums {
    pub fixed: u64,
    pub same: u64,
    pub bad: u64,
}

impl Sums {
    // One pair more: x on its own port, y on the other, where the partners must stand.
    pub fn with_pair(self, f: Form, x: u64, y: u64) -> Self
        requires { x < 281474976710656 }
        ensures { result ≡ sums_with f self x y }
    {
        let crossed = constellation::partners(x % 16777216, x / 16777216);
        Self {
            fixed: self.fixed | x ^ f.fixed,
            same: self.same | x ^ x / 2,
            bad: self.bad | y ^ crossed,
        }
    }
}

// Where the first pair and the next one begin, in bytes, and how far the other port is.
#[derive(Clone, Copy)]
pub struct Starts {
    pub at: usize,
    pub next: usize,
    pub across: usize,
}

impl Starts {
    pub fn of(ports: u8, places: usize, j: usize, start: usize, step: usize) -> Self
        requires { PairsFit ports places j start step }
        ensures { Starting ports places j start step result }
    {
        let p = walk::port_offsets(ports, places, j);
        Self {
            at: 3 * (p.own + start),
            next: 3 * (p.next + start + step),
            across: 3 * p.across,
        }
    }
}

// n pairs of places, pair i at `start` + `step` × i with its second place `GAP` after the first, on the own ports in turn; 0 where they are right.
// Parameters one by one here and below: ports, places, index and first place as one struct by value were timed and are slower (docs/DECISIONS.md).
fn rounds<const GAP: usize>(
    f: Form,
    grid: &[u8],
    ports: u8,
    places: usize,
    j: usize,
    start: usize,
    step: usize,
    n: usize,
) -> u64
    requires { PairsIn ports places GAP j start step n grid.now }
    ensures { PairsSeen ports places GAP j start step n f grid.now result }
{
    let p = Starts::of(ports, places, j, start, step);
    let across = p.across;
    let mut at = p.at;
    let mut next = p.next;
    let mut s = Sums::default();
    for i in 0..n {
        s = s.with_pair(
            f,
            pair_at::<GAP>(grid, at),
            pair_at::<GAP>(grid, at + across),
        );
        let then = at + 6 * step;
        at = next;
        next = then;
    }
    f.told(s)
}

// A run on two ports or four, from the channel's index j on.
fn compare_pairs(f: Form, grid: &[u8], run: Run, j: usize, ports: u8, places: usize) -> u64
    requires { RunIn ports places j run grid.now }
    ensures { RunSeen ports places j run f grid.now result }
{
    let Run {
        first,
        halves,
        mask,
    } = run;
    match mask {
        63 => rounds::<1>(f, grid, ports, places, j, first, 2, 3 * halves),
        27 => rounds::<1>(f, grid, ports, places, j, first, 3, 2 * halves),
        54 => rounds::<1>(f, grid, ports, places, j, first + 1, 3, 2 * halves),
        _ => rounds::<2>(f, grid, ports, places, j, first, 3, 2 * halves),
    }
}

// n places side by side on one port.
fn singles(f: Form, grid: &[u8], start: usize, n: usize) -> u64
    requires { SinglesIn start n grid.now }
    ensures { PlacesSeen n (◌+◌ start) f grid.now result }
{
    let mut bad: u64 = 0;
    for i in 0..n {
        bad |= f.wrong(three_at(grid, 3 * (start + i))) % 16777216;
    }
    bad
}

// Twice n places, two at a time.
fn doubles(f: Form, grid: &[u8], start: usize, n: usize) -> u64
    requires { SinglesIn start (2 * n) grid.now }
    ensures { PlacesSeen (2 * n) (◌+◌ start) f grid.now result }
{
    let mut bad: u64 = 0;
    for i in 0..n {
        bad |= f.wrong(pair_at::<1>(grid, 3 * (start + 2 * i)));
    }
    bad
}

// `total` places of a run with holes, stretch after stretch between them: `lead` places before the first hole, then `each`.
fn between(f: Form, grid: &[u8], first: usize, lead: usize, each: usize, total: usize) -> u64
    requires { HolesIn first lead each total grid.now }
    ensures { PlacesSeen total (holed_place first lead each) f grid.now result }
{
    let s = walk::first_stretch(first, lead, each);
    let mut bad: u64 = 0;
    let mut at = s.at;
    let mut left = s.left;
    let mut k: usize = 0;
    // not a `for`: a stretch is as long as the holes leave it
    while k < total {
        let n = left.min(total - k);
        bad |= singles(f, grid, at, n);
        k += n;
        at += n + 1;
        left = each;
    }
    bad
}

// A run on one port.
fn compare_single(f: Form, grid: &[u8], run: Run, j: usize, places: usize) -> u64
    requires { RunOpen 1 places j run grid.now }
    ensures { RunSeen 1 places j run f grid.now result }
{
    let first = run.first;
    let halves = run.halves;
    let h = walk::holes_of(run.mask);
    if h.each == 0 {
        return doubles(f, grid, first, 3 * halves);
    }
    between(f, grid, first, h.lead, h.each, h.count * halves)
}

// A run of half blocks, from the channel's index j on.
fn compare_run(f: Form, grid: &[u8], run: Run, j: usize, ports: u8, places: usize) -> u64
    requires { RunOpen ports places j run grid.now }
    ensures { RunSeen ports places j run f grid.now result }
{
    if ports == 1 {
        return compare_single(f, grid, run, j, places);
    }
    compare_pairs(f, grid, run, j, ports, places)
}

// How many places a run has.
fn places_of(run: Run) -> usize
    requires { SingleForm run.mask × (run.halves ≤ 255) }
    ensures { result ≡ run_count run }
{
    let h = walk::holes_of(run.mask);
    h.count * run.halves
}

// All runs of an area, by its tables: how many places they have, or None where one of them is wrong.
fn compare_runs(f: Form, grid: &[u8], a: Area, tables: &Tables) -> Option<usize>
    requires { AreaRuns a tables.now.rows tables.now.spans grid.now }
    ensures { RunsSeen a f grid.now result }
{
    let symbols = layout::symbols(a.cell);
    let carriers = layout::carriers(a.cell);
    let places = layout::places(a.cell);
    let mut c = tables.start();
    let mut j: usize = 0;
    let mut bad: u64 = 0;
    // not a `for`: a row has as many runs as its spans say
    while c.s < symbols {
        let run = tables.run_at(c, carriers);
        bad |= compare_run(f, grid, run, j, a.cell.ports, places);
        j += places_of(run);
        c = tables.next(c);
    }
    if bad == 0 { Some(j) } else { None }
}

// The bytes of n places that are not 0, where no level is 0: three on each port with a term.
pub fn weight_of(ports: u8, n: usize) -> usize
    requires { n ≤ 16800 }
    ensures { result ≡ cond (eqb ports 1) 3 6 * n }
{
    if ports == 1 { 3 * n } else { 6 * n }
}

// An area's places, with symbols of q bits in a unit. Callers have the area from an accepted plan, its masks from `areas::row_masks`,
// and have compared the grid's length.
pub fn compare_area(a: Area, q: u32, unit: u8, masks: &[u8; 14], grid: &[u8]) -> Option<usize>
    requires { CompareIn a q unit masks.now grid.now }
    ensures { AreaCompared a q unit grid.now result }
{
    let mut tables = Tables::new();
    areas::set_tables(a, masks, &mut tables);
    let f = Form::of(q, precoding::unit_byte_on(a.cell.ports, unit));
    let n = compare_runs(f, grid, a, &tables)?;
    Some(weight_of(a.cell.ports, n))
}
