// The HIs' bits back from a grid (TS 36.211 6.9): each from the first quad of its PHICH unit.
#![tactic(auto)]

ghost use Rattle.std.specs.Prelude.{◌≡◌, ◌+◌, ◌*◌, drop};
ghost use Rattle.gold.specs.Steps.{after};
ghost use Rattle.plan.specs.Fields.{mapping_units};
ghost use Rattle.plan.specs.CommandLists.{his_from};
ghost use Rattle.phich.specs.Spreading.{spread_length};
ghost use Rattle.recovery.specs.Recovery.{section_of};
ghost use Rattle.control_read.specs.Reading.{ack_from, pushed, PushIn, UnitRead, FirstRead, QuadsIn, ReadIn};

use gold::Registers;
use plan::{Cell, CommandList};

// The first quad of unit m as it stands, on the port that sends the sums themselves: four pairs of levels, as bytes of the unit's places.
fn read_quad(cell: Cell, m: usize, grid: &[u8], first: &mut [u8; 200])
    requires { UnitRead cell m grid.now × FirstRead cell grid.now (4 * m) first.old }
    ensures { FirstRead cell grid.now (4 * m + 4) first.new }
{
    let g = places::unit_group(cell, m, 0);
    let port = precoding::own_port(cell.ports, (m % 2) as u8);
    let own = usize::from(port) * layout::places(cell);
    for i in 0..4 {
        let e = grid::get(grid, own + places::quad_place(cell, 0, g, i));
        let at = 2 * (4 * m + i);
        first[at] = e.i;
        first[at + 1] = e.j;
    }
}

// The first quads of all units. Callers pass a cell and a grid of an accepted plan.
pub fn first_sums(cell: Cell, grid: &[u8], first: &mut [u8; 200])
    requires { QuadsIn cell grid.now first.old }
    ensures { FirstRead cell grid.now (4 * mapping_units cell) first.new }
{
    for m in 0..plan::units(cell) {
        read_quad(cell, m, grid, first);
    }
}

// Bit n of a section, after those before it: the first bit of a byte clears the others.
fn push(part: &mut [u8], n: usize, bit: u8)
    requires { PushIn part.old n bit }
    ensures { part.new ≡ pushed part.old n bit }
{
    let m = n / 8;
    let k = n % 8;
    let weight: u8 = 128 >> k;
    if k == 0 {
        part[m] = bit * weight;
        return;
    }
    part[m] += bit * weight;
}

// The section of the HIs' bits, each from the first quad of its unit, scrambled by the pair r. Callers pass the cell, the HIs and a grid
// of an accepted plan, and the section's bytes.
pub fn read_his(
    r: Registers,
    cell: Cell,
    his: CommandList,
    plan: &[u8],
    grid: &[u8],
    part: &mut [u8],
) -> Registers
    requires { ReadIn cell his plan.now grid.now part.old }
    ensures { (part.new ≡ section_of (ack_from cell r (his_from (drop his.at plan.now) his.count) grid.now) his.count)
        × (result ≡ after r (3 * spread_length cell)) }
{
    let w = gold::word(r, 12);
    let l = control::spread_length(cell);
    let mut first = [0; 200];
    first_sums(cell, grid, &mut first);
    let mut at = his.at;
    for n in 0..his.count {
        let bit = phich::bit_of(l, w, plan::hi_at(plan, at), &first);
        push(part, n, bit);
        at = plan::next_at(plan, at);
    }
    gold::skip(r, 3 * l)
}
