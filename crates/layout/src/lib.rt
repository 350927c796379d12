// The owner of each place of the grid (document 01, Owners), and the owner query.
#![tactic(auto)]

ghost use Rattle.std.specs.Prelude.{◌≡◌, ℕ, ◌+◌, ◌-◌, ◌*◌, ◌/◌, ◌%◌, ◌≤◌, ◌<◌, true, ◌&&◌, drop, leb, ltb, Ok as accepted};
ghost use Rattle.plan.specs.Check.{check_of};
ghost use Rattle.plan.specs.CommandLists.{users_from};
ghost use Rattle.plan.specs.Fields.{control_symbols, symbol_groups};
ghost use Rattle.plan.specs.Valid.{CellIn, FrameIn};
ghost use Rattle.layout.specs.Rules.{slot_length, in_slot, crs_symbol, crs_shift, middle, marked, in_sync_area, in_pbch_area, format_group, groups_left, quad_symbol, start_number};
ghost use Rattle.layout.specs.Owners.{owner_number, symbols as symbols_of, carriers as carriers_of, GridPlace, blocks_have, owner_of};
ghost use Rattle.layout.specs.Chain.{pilot_of, pilot, number as number_of, quad_in, unit_at, number_at, group_at, control_at, fixed_at, user_from, below_of, quads_below, vacant_below, vacant_before};
ghost use Rattle.layout.specs.Region.{is_vacant, group_quad};
ghost use Rattle.base.specs.Ring.{between as between_of, ring_below};
ghost use Rattle.layout.specs.Query.{in_grid, owner_query_of};

use plan::{Cell, Frame, Plan, Refusal, User};

// The synchronisation marks.
#[derive(Clone, Copy)]
pub enum Mark {
    Primary,
    Secondary,
}

// A reference signal with its port, a mark, PBCH, PCFICH, a PHICH unit, a user by its position in the plan, held, or idle.
#[derive(Clone, Copy)]
pub enum Owner {
    Crs(u8),
    Sync(Mark),
    Pbch,
    Pcfich,
    Phich(u8),
    User(u8),
    Held,
    Idle,
}

// The owner's number.
impl From<Owner> for u16 {
    ghost from_gives = { λ o n. n ≡ owner_number o };

    fn from(o: Owner) -> u16 {
        match o {
            Owner::Crs(port) => port as u16,
            Owner::Sync(Mark::Primary) => 16,
            Owner::Sync(Mark::Secondary) => 17,
            Owner::Pbch => 32,
            Owner::Pcfich => 33,
            Owner::Phich(unit) => 64 + (unit as u16),
            Owner::User(i) => 256 + (i as u16),
            Owner::Held => 512,
            Owner::Idle => 513,
        }
    }
}

// Symbols of a slot.
pub fn slot_length(cell: Cell) -> usize
    ensures { result ≡ slot_length cell }
{
    if cell.prefix == 1 { 6 } else { 7 }
}

// A symbol's number in its slot.
pub fn in_slot(cell: Cell, s: usize) -> usize
    ensures { result ≡ in_slot cell s }
{
    let slot = slot_length(cell);
    if s < slot { s } else { s - slot }
}

// The symbols of a subframe.
pub fn symbols(cell: Cell) -> usize
    ensures { (result ≡ symbols_of cell) × (result ≤ 14) }
{
    2 * slot_length(cell)
}

// The subcarriers.
pub fn carriers(cell: Cell) -> usize
    ensures { result ≡ carriers_of cell }
{
    12 * base::wide(cell.blocks)
}

// The places of the grid.
pub fn places(cell: Cell) -> usize
    ensures { result ≡ symbols_of cell * carriers_of cell }
{
    symbols(cell) * carriers(cell)
}

// Whether the port's reference signal uses symbol s.
pub fn crs_uses(cell: Cell, port: u8, s: usize) -> bool
    ensures { result ≡ crs_symbol cell port s }
{
    let l = in_slot(cell, s);
    if port < 2 {
        return l == 0 || l == slot_length(cell) - 3;
    }
    l == 1
}

// The shift v of the port's reference signal in symbol s. No cell has more than four ports.
fn crs_shift(cell: Cell, port: u8, s: usize) -> u8
    requires { port < 4 }
    ensures { result ≡ crs_shift cell port s }
{
    if port < 2 {
        if in_slot(cell, s) == 0 {
            return 3 * port;
        }
        return 3 * (1 - port);
    }
    if s < slot_length(cell) {
        3 * (port - 2)
    } else {
        3 * (port - 1)
    }
}

// The first subcarrier of the port's reference signal in symbol s.
pub fn crs_first(cell: Cell, port: u8, s: usize) -> usize
    requires { port < 4 }
    ensures { result ≡ (crs_shift cell port s + cell.identity) % 6 }
{
    (base::wide(crs_shift(cell, port, s)) + (cell.identity as usize)) % 6
}

// Of the ports p and p + 1 the one whose reference signal, in a symbol that both use, stands at the place, 4 for none.
fn pilot_of(cell: Cell, p: u8, s: usize, k: usize) -> u8
    requires { p < 3 }
    ensures { result ≡ pilot_of cell p s k }
{
    if k % 6 == crs_first(cell, p, s) {
        return p;
    }
    if k % 6 == crs_first(cell, p + 1, s) {
        return p + 1;
    }
    4
}

// The port below 4 whose reference signal a four-port cell has at the place, 4 for none. 4 and no Option: both questions that are asked of it, whether
// the port is one of the cell's and whether there is one, are then one comparison (and the laws of `pilot` are about that order).
fn pilot_at(cell: Cell, s: usize, k: usize) -> u8
    ensures { result ≡ pilot cell s k }
{
    if crs_uses(cell, 0, s) {
        return pilot_of(cell, 0, s, k);
    }
    if crs_uses(cell, 2, s) {
        return pilot_of(cell, 2, s, k);
    }
    4
}

fn within(a: usize, b: usize, d: usize) -> bool
    ensures { result ≡ leb a d && ltb d b }
{
    if a <= d { d < b } else { false }
}

// Whether k is one of the d subcarriers on either side of 6N, which is no block's edge where N is odd.
fn in_middle(cell: Cell, d: usize, k: usize) -> bool
    requires { (d ≤ 36) × (k < 12 * cell.blocks) }
    ensures { result ≡ middle cell d k }
{
    let half = 6 * (cell.blocks as usize);
    if half <= k + d { k < half + d } else { false }
}

// Whether the subframe has the synchronisation marks.
pub fn is_marked(frame: Frame) -> bool
    ensures { result ≡ marked frame }
{
    if frame.subframe == 0 {
        return true;
    }
    frame.subframe == 5
}

// Whether the place lies in the centre of a symbol with a synchronisation mark.
fn in_sync(cell: Cell, frame: Frame, s: usize, k: usize) -> bool
    requires { (s < 14) × (k < 12 * cell.blocks) }
    ensures { result ≡ in_sync_area cell frame s k }
{
    let slot = slot_length(cell);
    if is_marked(frame) {
        if s + 1 == slot {
            return in_middle(cell, 36, k);
        }
        if s + 2 == slot {
            in_middle(cell, 36, k)
        } else {
            false
        }
    } else {
        false
    }
}

// Whether the place lies in PBCH's area, skipped positions included.
fn in_broadcast(cell: Cell, frame: Frame, s: usize, k: usize) -> bool
    requires { (s < 14) × (k < 12 * cell.blocks) }
    ensures { result ≡ in_pbch_area cell frame s k }
{
    if frame.subframe != 0 {
        return false;
    }
    let slot = slot_length(cell);
    if s < slot {
        return false;
    }
    if s < slot + 4 {
        in_middle(cell, 36, k)
    } else {
        false
    }
}

// The group of PCFICH's quad i. Every accepted plan has six blocks or more.
pub fn format_group(cell: Cell, i: usize) -> usize
    requires { (6 ≤ cell.blocks) × (i < 4) }
    ensures { result ≡ format_group cell i }
{
    let blocks = cell.blocks as usize;
    ((cell.identity as usize) + i * blocks / 2) % (2 * blocks)
}

// How many of PCFICH's groups, a, b, c and d, stand below group t.
pub fn formats_below(a: usize, b: usize, c: usize, d: usize, t: usize) -> usize
    ensures { (result ≡ below_of a b c d t) × (result ≤ 4) }
{
    base::one_below(a, t) + base::one_below(b, t) + base::one_below(c, t) + base::one_below(d, t)
}

// The number of the groups that PCFICH leaves in control symbol s: all but four of symbol 0.
pub fn groups_left(cell: Cell, s: usize) -> usize
    requires { (6 ≤ cell.blocks) × (s < 3) }
    ensures { (result ≡ groups_left cell s) × (0 < result) × (result < 1024) }
{
    let n = base::wide(cell.blocks);
    if s == 0 {
        return 2 * n - 4;
    }
    if plan::group_size(cell, s) == 4 {
        3 * n
    } else {
        2 * n
    }
}

// The symbol of a PHICH unit's quad i: with the extended duration each has its own.
pub fn quad_symbol(cell: Cell, i: usize) -> usize
    ensures { result ≡ quad_symbol cell i }
{
    if cell.duration == 1 { i } else { 0 }
}

// The number, of the groups left in symbol s, that the units' are counted from: in symbol 0, with nothing to divide, the identity.
pub fn start_number(cell: Cell, s: usize) -> usize
    requires { (6 ≤ cell.blocks) × (s < 3) }
    ensures { (result ≡ start_number cell s) × (result < 67108864) }
{
    let identity = cell.identity as usize;
    if s == 0 {
        return identity;
    }
    identity * groups_left(cell, s) / groups_left(cell, 0)
}

// Whether quad i lies in symbol s, and a unit's there takes the number d past the start.
fn quad_in(cell: Cell, s: usize, d: usize, i: usize) -> bool
    requires { (6 ≤ cell.blocks) × (s < 3) × (i < 3) }
    ensures { result ≡ quad_in cell s d i }
{
    if quad_symbol(cell, i) != s {
        return false;
    }
    let a = i * groups_left(cell, s) / 3;
    within(a, a + plan::units(cell), d)
}

// The unit that takes the number d past the start in symbol s, or idle.
fn unit_in(cell: Cell, s: usize, d: usize) -> Owner
    requires { (6 ≤ cell.blocks) × (cell.sixths ≤ 12) × (s < 3) }
    ensures { result ≡ unit_at cell s d 3 }
{
    let h = groups_left(cell, s);
    for i in (0..3).rev() {
        if quad_in(cell, s, d, i) {
            return Owner::Phich((d - i * h / 3) as u8);
        }
    }
    Owner::Idle
}

// The unit that has the group left with number n in symbol s, or idle.
fn number_at(cell: Cell, s: usize, n: usize) -> Owner
    requires { (6 ≤ cell.blocks) × (cell.sixths ≤ 12) × (s < 3) × (n < 1024) }
    ensures { result ≡ number_at cell s n }
{
    let h = groups_left(cell, s);
    let far = (n + (h - start_number(cell, s) % h)) % h;
    unit_in(cell, s, far)
}

// The owner of group t's four places in symbol s. PCFICH has groups of symbol 0 alone.
fn group_at(cell: Cell, s: usize, t: usize) -> Owner
    requires { (6 ≤ cell.blocks) × (cell.sixths ≤ 12) × (s < 3) × (t < 1024) }
    ensures { result ≡ group_at cell s t }
{
    if 0 < s {
        return number_at(cell, s, t);
    }
    let a = format_group(cell, 0);
    let b = format_group(cell, 1);
    let c = format_group(cell, 2);
    let d = format_group(cell, 3);
    if t == a || t == b || t == c || t == d {
        return Owner::Pcfich;
    }
    number_at(cell, s, t - formats_below(a, b, c, d, t))
}

// a less b, or 0 where b is greater.
fn less(a: usize, b: usize) -> usize
    ensures { result ≡ a - b }
{
    a.saturating_sub(b)
}

// How many numbers from lo to hi - 1 stand below x.
fn between(lo: usize, hi: usize, x: usize) -> usize
    ensures { (result ≡ between_of lo hi x) × (result ≤ x) }
{
    less(less(x, lo), less(x, hi))
}

// Of a ring of h numbers, how many of the m from p on stand below x.
fn ring_below(h: usize, p: usize, m: usize, x: usize) -> usize
    requires { (p < 4096) × (m < 4096) × (x < 4096) }
    ensures { result ≡ ring_below h p m x }
{
    let end = p + m;
    between(p, end, x) + between(less(p, h), less(end, h), x)
}

// Of the groups left in symbol s with a number below n, those of the units' quads i.
fn quads_below(cell: Cell, s: usize, n: usize, i: usize) -> usize
    requires { (6 ≤ cell.blocks) × (cell.sixths ≤ 12) × (n < 1024) × (i < 3) }
    ensures { result ≡ quads_below cell s n i }
{
    if quad_symbol(cell, i) != s {
        return 0;
    }
    let h = groups_left(cell, s);
    let from = start_number(cell, s) % h + i * h / 3;
    ring_below(h, from, plan::units(cell), n)
}

// The groups left in symbol s below group t.
fn left_below(cell: Cell, s: usize, t: usize) -> usize
    requires { 6 ≤ cell.blocks }
    ensures { result ≡ number_of cell s t }
{
    if 0 < s {
        return t;
    }
    let a = format_group(cell, 0);
    let b = format_group(cell, 1);
    let c = format_group(cell, 2);
    let d = format_group(cell, 3);
    t - formats_below(a, b, c, d, t)
}

// The vacant groups of symbol s below group t.
fn vacant_below(cell: Cell, s: usize, t: usize) -> usize
    requires { (6 ≤ cell.blocks) × (cell.sixths ≤ 12) × (t ≤ symbol_groups cell s) × (t < 1024) }
    ensures { (result ≡ vacant_below cell s t) × (result < 1024) }
{
    let n = left_below(cell, s, t);
    let first = quads_below(cell, s, n, 0);
    let second = quads_below(cell, s, n, 1);
    n - (first + second + quads_below(cell, s, n, 2))
}

// The vacant groups of the region's symbols that come before subcarrier k of symbol s.
fn vacant_before(cell: Cell, symbols: usize, k: usize, s: usize) -> usize
    requires { (6 ≤ cell.blocks) × (cell.sixths ≤ 12) × (symbols ≤ 4) × (k < 12 * cell.blocks) }
    ensures { (result ≡ vacant_before cell symbols k s) × (result < 4096) }
{
    let mut sum: usize = 0;
    for n in 0..symbols {
        let size = plan::group_size(cell, n);
        let starts = (k + base::one_below(n, s) + (size - 1)) / size;
        sum = sum + vacant_below(cell, n, starts);
    }
    sum
}

// The quad of the block that a vacant group t of control symbol s takes.
pub fn group_quad(cell: Cell, frame: Frame, s: usize, t: usize) -> usize
    requires { CellIn cell × FrameIn frame × (cell.duration ≡ 1 → 3 ≤ control_symbols cell frame) × (s < control_symbols cell frame) × (is_vacant cell s t ≡ true) }
    ensures { result ≡ group_quad cell frame s t }
{
    let symbols = plan::control_symbols(cell, frame);
    let n = vacant_before(cell, symbols, t * plan::group_size(cell, s), s);
    let quads = plan::region_groups(cell, frame);
    interleaver::quad(interleaver::start(quads, ((cell.identity as usize) + n) % quads))
}

// The owner of subcarrier k in control symbol s beside the cell's reference signals. A group of six skips two places, also with one port.
fn control_at(cell: Cell, s: usize, k: usize) -> Owner
    requires { (6 ≤ cell.blocks) × (cell.sixths ≤ 12) × (s < 3) × (k < 12 * cell.blocks) }
    ensures { result ≡ control_at cell s k }
{
    if plan::group_size(cell, s) == 4 {
        return group_at(cell, s, k / 4);
    }
    if k % 3 == (cell.identity as usize) % 3 {
        return Owner::Idle;
    }
    group_at(cell, s, k / 6)
}

// The owner above the users, or idle.
fn fixed_at(cell: Cell, frame: Frame, s: usize, k: usize) -> Owner
    requires { (6 ≤ cell.blocks) × (cell.ports ≤ 4) × (cell.sixths ≤ 12) × (s < 14) × (k < 12 * cell.blocks) }
    ensures { result ≡ fixed_at cell frame s k }
{
    let q = pilot_at(cell, s, k);
    if q < cell.ports {
        return Owner::Crs(q);
    }
    if s < 3 {
        return control_at(cell, s, k);
    }
    if in_sync(cell, frame, s, k) {
        if in_middle(cell, 31, k) {
            if s + 1 == slot_length(cell) {
                return Owner::Sync(Mark::Primary);
            }
            return Owner::Sync(Mark::Secondary);
        }
        return Owner::Held;
    }
    if in_broadcast(cell, frame, s, k) {
        if q < 4 {
            return Owner::Held;
        }
        return Owner::Pbch;
    }
    Owner::Idle
}

// Whether subcarrier k lies in the user's blocks, which are the same in both slots.
fn blocks_have(u: User, k: usize) -> bool
    ensures { (n : ℕ) → result ≡ blocks_have u n k }
{
    let first = u.first as usize;
    let end = first + (u.count as usize);
    within(12 * first, 12 * end, k)
}

// The first of count users from a position on that has subcarrier k, numbered from 0, or idle.
fn user_from(plan: &[u8], start: usize, count: usize, k: usize) -> Owner
    requires { count < 256 }
    ensures { (n : ℕ) → result ≡ user_from 0 (users_from (drop start plan.now) count) n k }
{
    let mut at = start;
    for i in 0..count {
        if blocks_have(plan::user_at(plan, at), k) {
            return Owner::User(i as u8);
        }
        at = plan::next_at(plan, at);
    }
    Owner::Idle
}

// The owner of a place, for whoever asks for many. Whoever calls has p from the plan check of these bytes, and asks inside the grid.
pub fn owner_at(plan: &[u8], p: Plan, s: usize, k: usize) -> Owner
    requires { (check_of plan.now ≡ accepted p) × GridPlace p.cell s k }
    ensures { result ≡ owner_of plan.now p s k }
{
    let cell = p.cell;
    let frame = p.frame;
    let users = p.users;
    let o = fixed_at(cell, frame, s, k);
    if let Owner::Idle = o {
        if s < plan::control_symbols(cell, frame) {
            return Owner::Idle;
        }
        user_from(plan, users.at, users.count, k)
    } else {
        o
    }
}

// Whether the element (s, k) of a port lies in the grid.
fn in_grid(cell: Cell, s: usize, k: usize, port: usize) -> bool
    ensures { result ≡ in_grid cell s k port }
{
    if s < symbols(cell) {
        if k < carriers(cell) {
            port < (cell.ports as usize)
        } else {
            false
        }
    } else {
        false
    }
}

// The owner query: the owner of the element (s, k) of a port.
pub fn owner_query(plan: &[u8], s: usize, k: usize, port: usize) -> Result<Owner, Refusal>
    ensures { result ≡ owner_query_of plan.now s k port }
{
    let checked = plan::check(plan);
    let Ok(p) = checked else {
        return Err(plan::refusal_in(checked));
    };
    if in_grid(p.cell, s, k, port) {
        Ok(owner_at(plan, p, s, k))
    } else {
        Err(Refusal::Outside)
    }
}
