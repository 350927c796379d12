// The places of each channel in the order in which its values fill them (document 01, Owners). The specs say it for every owner; the
// functions here are for the channels whose order is not that of the grid: PCFICH and the PHICH units, which go quad by quad.
#![tactic(auto)]

ghost use Rattle.std.specs.Prelude.{◌≡◌, ◌+◌, ◌*◌, ◌≤◌, ◌<◌};
ghost use Rattle.plan.specs.Fields.{symbol_groups};
ghost use Rattle.layout.specs.Rules.{quad_number, quad_group};
ghost use Rattle.places.specs.Quads.{quad_place};
ghost use Rattle.places.specs.Places.{place_number};
ghost use Rattle.places.specs.Steps.{step_of, left_of};

use plan::Cell;

// The number that quad i of PHICH unit m takes, of the groups left in its symbol.
fn unit_number(cell: Cell, m: usize, i: usize) -> usize
    requires { (6 ≤ cell.blocks) × (m < 256) × (i < 3) }
    ensures { (result ≡ quad_number cell m i) × (result < 1024) }
{
    let s = layout::quad_symbol(cell, i);
    let h = layout::groups_left(cell, s);
    (layout::start_number(cell, s) + m + i * h / 3) % h
}

// 1 where group t, one of PCFICH's a, b, c, d, stands below the group left with number n.
fn step(a: usize, b: usize, c: usize, d: usize, n: usize, t: usize) -> usize
    requires { n < 1024 }
    ensures { (result ≡ step_of a b c d n t) × (result ≤ 1) }
{
    base::one_below(t, n + 1 + layout::formats_below(a, b, c, d, t))
}

// The group left with number n in symbol 0, where PCFICH has groups a, b, c, d.
pub fn left_group(a: usize, b: usize, c: usize, d: usize, n: usize) -> usize
    requires { n < 1024 }
    ensures { result ≡ left_of a b c d n }
{
    n + (step(a, b, c, d, n, a)
        + step(a, b, c, d, n, b)
        + step(a, b, c, d, n, c)
        + step(a, b, c, d, n, d))
}

// The group of quad i of PHICH unit m, in the quad's symbol: beyond symbol 0 all groups are left, and a group is its number. Every accepted
// plan has six blocks or more, and 25 units at most.
pub fn unit_group(cell: Cell, m: usize, i: usize) -> usize
    requires { (6 ≤ cell.blocks) × (m < 256) × (i < 3) }
    ensures { result ≡ quad_group cell m i }
{
    let n = unit_number(cell, m, i);
    if 0 < layout::quad_symbol(cell, i) {
        return n;
    }
    let a = layout::format_group(cell, 0);
    let b = layout::format_group(cell, 1);
    let c = layout::format_group(cell, 2);
    let d = layout::format_group(cell, 3);
    left_group(a, b, c, d, n)
}

// The number of the j-th place of group g in symbol s: of six subcarriers all but those of the identity's remainder by three.
pub fn quad_place(cell: Cell, s: usize, g: usize, j: usize) -> usize
    requires { (s < 4) × (g < symbol_groups cell s) × (j < 4) }
    ensures { result ≡ place_number cell s (quad_place cell s g j) }
{
    let start = s * layout::carriers(cell);
    if plan::group_size(cell, s) == 4 {
        return start + (4 * g + j);
    }
    let rest = (cell.identity as usize) % 3;
    start + (6 * g + (3 * (j / 2) + j % 2 + base::one_below(rest, j % 2 + 1)))
}
