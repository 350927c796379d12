// What writing and comparing the reference and synchronisation signals of a subframe share (TS 36.211 6.10.1.2, 6.11.1.2, 6.11.2.2): the
// numbers of their first elements, and the elements of the synchronisation signals.
#![tactic(auto)]

ghost use Rattle.std.specs.Prelude.{◌≡◌, ◌+◌, ◌-◌, ◌*◌, ◌≤◌, ◌<◌};
ghost use Rattle.plan.specs.Valid.{CellIn};
ghost use Rattle.layout.specs.Rules.{slot_length};
ghost use Rattle.layout.specs.Owners.{symbols, carriers};
ghost use Rattle.places.specs.Places.{places_of};
ghost use Rattle.signals.specs.Signals.{crs_port};
ghost use Rattle.signals.specs.Rows.{crs_place, phase_element, level_element};

use base::{Element, Pair};
use plan::Cell;
use sync::Sss;

// The number of the first element of symbol s on a port. Callers ask inside a grid: at most 14 symbols.
fn row_at(cell: Cell, s: usize, port: u8) -> usize
    requires { s < 14 }
    ensures { result ≡ port * places_of cell + s * carriers cell }
{
    let rows = usize::from(port) * layout::symbols(cell) + s;
    rows * layout::carriers(cell)
}

// The first of the ports whose reference signals stand in symbol s.
pub fn crs_port(cell: Cell, s: usize) -> u8
    ensures { result ≡ crs_port cell s }
{
    if layout::crs_uses(cell, 0, s) { 0 } else { 2 }
}

// The number of the first element of a port's reference signal in symbol s. Callers have the cell from an accepted plan.
pub fn crs_at(cell: Cell, s: usize, port: u8) -> usize
    requires { CellIn cell × (s < symbols cell) × (port < cell.ports) }
    ensures { result ≡ crs_place cell s port }
{
    row_at(cell, s, port) + layout::crs_first(cell, port, s)
}

// How many of the values left go into one word of the sequence: two bits each, 28 bits at most.
pub fn at_once(left: usize) -> usize
    requires { 0 < left }
    ensures { (0 < result) × (result ≤ 14) × (result ≤ left) }
{
    left.min(14)
}

// The number of the first of 62 elements in the middle of the symbol that stands y from the first slot's end, on port 0.
pub fn mark_at(cell: Cell, y: usize) -> usize
    requires { CellIn cell × (y ≤ 2) }
    ensures { result ≡ (slot_length cell - y) * carriers cell + (6 * cell.blocks - 31) }
{
    let s = layout::slot_length(cell) - y;
    row_at(cell, s, 0) + (6 * usize::from(cell.blocks) - 31)
}

// Number i of the primary signal's 62 elements, unit 63.
pub fn phase_element(identity: u16, i: usize) -> Element
    requires { i < 62 }
    ensures { result ≡ phase_element identity i }
{
    Element {
        byte: 63,
        i: sync::pss_phase(identity, i),
        j: 0,
    }
}

// Number i of the secondary signal's 62 elements, unit 1.
pub fn level_element(d: Sss, i: usize) -> Element
    requires { i < 62 }
    ensures { result ≡ level_element d i }
{
    let level = sync::sss_level(d, i);
    base::element_of(1, Pair { re: level, im: 0 })
}
