// How many places a user has, by products with numbers that are summed up once for all users (document 01: "its element count (a user's
// G) is the number of its places, ports not multiplied"), and all users together: what build and read return.
#![tactic(auto)]

ghost use Rattle.std.specs.Prelude.{◌≡◌, ◌+◌, ◌-◌, ◌*◌, ◌≤◌, ◌<◌, ltb, Ok as accepted};
ghost use Rattle.base.specs.Choice.{indicator};
ghost use Rattle.plan.specs.Check.{check_of};
ghost use Rattle.counts.specs.Users.{signals, taken as taken_at, centre_halves};
ghost use Rattle.counts.specs.Shape.{row_places, centre_places, slot_shape, shape_of, slot_count, count_by, SlotIn, ShapeIn};
ghost use Rattle.counts.specs.Counts.{kinds, kind_count};
ghost use Rattle.counts.specs.Kinds.{crs_elements, sync_elements, pbch_elements, holes as holes_of, held_elements};
ghost use Rattle.base.specs.Tables.{table};

use layout::slot_length;
use plan::{Cell, Frame, Plan, User};

// Of one slot, the places of six subcarriers that users can have: in all of its symbols, and in those whose centre is taken.
#[derive(Clone, Copy)]
pub struct SlotShape {
    pub whole: usize,
    pub centre: usize,
}

// What a user's count needs of the cell and the frame: of the even slot, 2f, and of the odd one.
#[derive(Clone, Copy)]
pub struct Shape {
    pub even: SlotShape,
    pub odd: SlotShape,
}

// The places of six subcarriers that the reference signals of the ports p and p + 1, of n, leave.
fn pair_places(n: usize, p: usize) -> usize
    requires { p < 4 }
    ensures { result ≡ 6 - (indicator (ltb p n) + indicator (ltb (p + 1) n)) }
{
    6 - (base::one_below(p, n) + base::one_below(p + 1, n))
}

// The places of six subcarriers in symbol s that no reference signal has: a port that uses the symbol has one of the six.
fn half_places(cell: Cell, s: usize) -> usize
    ensures { result ≡ 6 - signals cell cell.ports s }
{
    let n = base::wide(cell.ports);
    if layout::crs_uses(cell, 0, s) {
        return pair_places(n, 0);
    }
    if layout::crs_uses(cell, 2, s) {
        return pair_places(n, 2);
    }
    6
}

// Whether symbol s has synchronisation marks or PBCH in its centre.
pub fn taken(cell: Cell, frame: Frame, s: usize) -> bool
    requires { s < 14 }
    ensures { result ≡ taken_at cell frame s }
{
    let length = slot_length(cell);
    if s < length {
        if s + 2 < length {
            return false;
        }
        return layout::is_marked(frame);
    }
    if frame.subframe == 0 {
        return s < length + 4;
    }
    false
}

// How many of a user's half blocks are the centre's. All is shifted by six: the centre's first half block, N - 6, is N here.
fn centre_halves(cell: Cell, first: u8, count: u8) -> usize
    ensures { result ≡ centre_halves cell first count }
{
    let n = cell.blocks as usize;
    let start = 2 * (first as usize) + 6;
    let low = start.max(n);
    let high = (start + 2 * (count as usize)).min(n + 12);
    if low < high {
        return high - low;
    }
    0
}

// The places of six subcarriers in symbol s that users can have: none in the control region.
fn row_places(cell: Cell, frame: Frame, s: usize) -> usize
    ensures { result ≡ row_places cell frame s }
{
    if s < plan::control_symbols(cell, frame) {
        return 0;
    }
    half_places(cell, s)
}

// The same of a symbol whose centre is taken, and 0 of any other.
fn centre_places(cell: Cell, frame: Frame, s: usize) -> usize
    requires { s < 14 }
    ensures { result ≡ centre_places cell frame s }
{
    if taken(cell, frame, s) {
        return row_places(cell, frame, s);
    }
    0
}

// The sums of both over the slot whose first symbol is start.
fn slot_shape(cell: Cell, frame: Frame, start: usize) -> SlotShape
    requires { start ≤ 7 }
    ensures { result ≡ slot_shape cell frame start }
{
    let symbols = slot_length(cell);
    let mut whole: usize = 0;
    let mut centre: usize = 0;
    for l in 0..symbols {
        whole = whole + row_places(cell, frame, start + l);
        centre = centre + centre_places(cell, frame, start + l);
    }
    SlotShape {
        whole: whole,
        centre: centre,
    }
}

// Both slots: made once for all users of a plan, since it takes a step for each symbol.
pub fn shape_of(cell: Cell, frame: Frame) -> Shape
    ensures { result ≡ shape_of cell frame }
{
    let even = slot_shape(cell, frame, 0);
    let odd = slot_shape(cell, frame, slot_length(cell));
    Shape {
        even: even,
        odd: odd,
    }
}

// A user's places in a slot: in every symbol's half blocks, less the centre's where it is taken.
fn slot_count(cell: Cell, slot: SlotShape, first: u8, count: u8) -> usize
    requires { SlotIn slot }
    ensures { result ≡ slot_count cell slot first count }
{
    slot.whole * (2 * (count as usize)) - slot.centre * centre_halves(cell, first, count)
}

// A user's G. The caller has the shape from shape_of.
pub fn user_count(cell: Cell, shape: Shape, u: User) -> usize
    requires { ShapeIn shape }
    ensures { result ≡ count_by cell shape u }
{
    let even = shape.even;
    let odd = shape.odd;
    slot_count(cell, even, u.first, u.count) + slot_count(cell, odd, u.first, u.count)
}

// The count of user elements, ports not multiplied. The caller has the plan from the plan check.
pub fn users_count(plan: &[u8], p: Plan) -> usize
    requires { check_of plan.now ≡ accepted p }
    ensures { result ≡ kind_count plan.now p 6 }
{
    let shape = shape_of(p.cell, p.frame);
    let mut n: usize = 0;
    let mut at = p.users.at;
    for _ in 0..p.users.count {
        n += user_count(p.cell, shape, plan::user_at(plan, at));
        at = plan::next_at(plan, at);
    }
    n
}

fn crs_count(cell: Cell) -> usize
    ensures { result ≡ crs_elements cell }
{
    let n = cell.blocks as usize;
    if cell.ports == 1 {
        return 8 * n;
    }
    if cell.ports == 2 {
        return 16 * n;
    }
    24 * n
}

// The count of each synchronisation mark.
fn sync_count(frame: Frame) -> usize
    ensures { result ≡ sync_elements frame }
{
    if layout::is_marked(frame) {
        return 62;
    }
    0
}

// PBCH's count.
pub fn pbch_count(cell: Cell, frame: Frame) -> usize
    ensures { result ≡ pbch_elements cell frame }
{
    if frame.subframe == 0 {
        if cell.prefix == 1 {
            return 216;
        }
        return 240;
    }
    0
}

// The places that PBCH skips for ports that the cell lacks.
fn holes(cell: Cell) -> usize
    ensures { result ≡ holes_of cell }
{
    if cell.ports == 1 {
        if cell.prefix == 1 {
            return 48;
        }
        return 36;
    }
    if cell.ports == 2 {
        return 24;
    }
    0
}

fn held_count(cell: Cell, frame: Frame) -> usize
    ensures { result ≡ held_elements cell frame }
{
    if frame.subframe == 0 {
        return 20 + holes(cell);
    }
    if frame.subframe == 5 {
        return 20;
    }
    0
}

// The counts of the nine kinds, in the order of gridcount's lines; idle's is what the others leave. The caller has the plan from the
// plan check.
pub fn kind_counts(plan: &[u8], p: Plan) -> [usize; 9]
    requires { check_of plan.now ≡ accepted p }
    ensures { result ≡ table kinds (kind_count plan.now p) }
{
    let crs = crs_count(p.cell);
    let sync = sync_count(p.frame);
    let pbch = pbch_count(p.cell, p.frame);
    let phich = 12 * plan::units(p.cell);
    let users = users_count(plan, p);
    let held = held_count(p.cell, p.frame);
    let owned = crs + sync + sync + pbch + 16 + phich + users + held;
    let idle = layout::places(p.cell) - owned;
    [crs, sync, sync, pbch, 16, phich, users, held, idle]
}
