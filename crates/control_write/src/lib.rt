// PCFICH and the PHICH units written into a grid (TS 36.211 6.7, 6.9): two places at a time.
#![tactic(auto)]

ghost use Rattle.std.specs.Prelude.{◌≡◌, ◌*◌};
ghost use Rattle.gold.specs.Steps.{after};
ghost use Rattle.phich.specs.Spreading.{spread_length};
ghost use Rattle.places.specs.Places.{places_of};
ghost use Rattle.grid.specs.Writing.{Written, Room};
ghost use Rattle.control.specs.Control.{pcfich_sends, pcfich_sent, phich_sends, unit_sent, phich_sent};
ghost use Rattle.control.specs.Pairs.{PairIn, pair_sends, pair_sent};
ghost use Rattle.control.specs.Filling.{PcfichIn, PhichIn, UnitIn};

use base::Pair;
use control::PairAt;
use gold::Registers;
use plan::Cell;

// Two symbols, each beside the other. Callers have compared the grid's length.
fn put_pair(cell: Cell, x: PairAt, grid: &mut [u8])
    requires { PairIn cell x × Room cell.ports (places_of cell) grid.old }
    ensures { Written (pair_sends cell x) (pair_sent cell x) grid.old grid.new }
{
    let places = layout::places(cell);
    grid::put_place(
        grid,
        cell.ports,
        places,
        x.first_place,
        x.port_pair,
        2,
        0,
        x.first,
        x.second,
    );
    grid::put_place(
        grid,
        cell.ports,
        places,
        x.second_place,
        x.port_pair,
        2,
        1,
        x.second,
        x.first,
    );
}

// PCFICH: the CFI's codeword, scrambled by the pair r. Callers pass a cell, a CFI and a grid of an accepted plan.
pub fn fill_pcfich(r: Registers, cell: Cell, cfi: u8, grid: &mut [u8]) -> Registers
    requires { PcfichIn cell cfi grid.old }
    ensures { Written (pcfich_sends cell) (pcfich_sent cell cfi r) grid.old grid.new × (result ≡ after r 32) }
{
    let mut s = r;
    for n in 0..8 {
        put_pair(cell, control::pcfich_pair(cell, cfi, s, n), grid);
        s = gold::advance(s, 4);
    }
    s
}

// The twelve sums of unit m at its places, two pairs of each quad.
fn put_unit(cell: Cell, m: usize, sums: [Pair; 12], grid: &mut [u8])
    requires { UnitIn cell m sums × Room cell.ports (places_of cell) grid.old }
    ensures { Written (phich_sends cell m) (unit_sent cell m sums) grid.old grid.new }
{
    for n in 0..3 {
        let s = layout::quad_symbol(cell, n);
        let g = places::unit_group(cell, m, n);
        put_pair(cell, control::unit_pair(cell, m, s, g, sums, 2 * n), grid);
        put_pair(
            cell,
            control::unit_pair(cell, m, s, g, sums, 2 * n + 1),
            grid,
        );
    }
}

// Unit m of the PHICH, scrambled by the pair r: `part` has the sums at the four places of its quads before that. Callers pass the cell,
// the bytes of sums over the HIs and a grid of an accepted plan.
pub fn fill_phich(r: Registers, cell: Cell, m: usize, part: &[u8], grid: &mut [u8]) -> Registers
    requires { PhichIn cell m part.now grid.old }
    ensures { Written (phich_sends cell m) (phich_sent cell m r part.now) grid.old grid.new × (result ≡ after r (3 * spread_length cell)) }
{
    let w = gold::word(r, 12);
    let l = control::spread_length(cell);
    put_unit(cell, m, phich::unit_sums(l, w, part), grid);
    gold::skip(r, 3 * l)
}
