// The reference and synchronisation signals of a subframe, compared with those in a grid (TS 36.211 6.10.1.2, 6.11.1.2, 6.11.2.2). The
// functions are no twins of those in `signals_write`: one lends the grid to be written, the other gathers bits or a number.
#![tactic(auto)]

ghost use Rattle.std.specs.Prelude.{◌≡◌, ℕ, ◌+◌, ◌*◌, ◌%◌, ◌≤◌, ◌<◌, eqb, length};
ghost use Rattle.base.specs.Bytes.{element_of};
ghost use Rattle.crs.specs.Crs.{word_value};
ghost use Rattle.element_pairs.specs.Numbers.{element_from};
ghost use Rattle.compare.specs.Comparing.{Compared};
ghost use Rattle.signals.specs.Signals.{crs_sends, crs_sent, mark_sends, pss_sent, sss_sent};
ghost use Rattle.signals.specs.Rows.{MarkIn, SymbolIn, every_sixth, word_sent, pair_sent, first_of, on_each, EachIn, in_row, Gives};
ghost use Rattle.signals_compare.specs.Differing.{Differing};

use base::Element;
use gold::Registers;
use plan::{Cell, Frame};

// The element of two bits of the sequence as a number: unit 2, and levels 1 or, 254 more, minus 1.
fn number_of(two: u32) -> u64
    ensures { (element_from result ≡ element_of 2 (word_value (two % 4))) × (result < 16777216) }
{
    (65794 + two / 2 % 2 * 65024 + two % 2 * 16646144) as u64
}

// The bits in which value i differs on the ports that send it, at every sixth element from these on.
fn differ_each<const PORTS: usize>(firsts: [usize; PORTS], i: usize, v: u64, grid: &[u8]) -> u64
    requires { EachIn firsts (i + 1) grid.now × (v < 16777216) }
    ensures { Differing (on_each firsts.entry (eqb (first_of firsts.entry + 6 * i))) (λ (e : ℕ). element_from v) grid.now result }
{
    let mut differ: u64 = 0;
    for first in firsts {
        differ |= element_pairs::three_at(grid, 3 * (first + 6 * i)) ^ v;
    }
    differ
}

// The bits in which every sixth element differs from the n values of a word of 2n bits, from value m on.
fn compare_word<const PORTS: usize>(
    word: u32,
    n: usize,
    firsts: [usize; PORTS],
    m: usize,
    grid: &[u8],
) -> u64
    requires { (n ≤ 14) × EachIn firsts (m + n) grid.now }
    ensures { let first = first_of firsts.entry + 6 * m in
        Differing (on_each firsts.entry (every_sixth first n)) (on_each firsts.entry (word_sent word n first)) grid.now result }
{
    let mut differ: u64 = 0;
    for i in 0..n {
        let low = 2 * (n - 1 - i);
        differ |= differ_each(firsts, m + i, number_of(word >> low), grid);
    }
    differ
}

// The first n values that the pair gives, at every sixth element: the sequence does not depend on the port (6.10.1.1), so it is made
// once for all ports that send it. None of their bytes is 0.
fn compare_values<const PORTS: usize>(
    r: Registers,
    n: usize,
    firsts: [usize; PORTS],
    grid: &[u8],
) -> Option<usize>
    requires { EachIn firsts n grid.now }
    ensures { Compared (on_each firsts.entry (every_sixth (first_of firsts.entry) n)) (on_each firsts.entry (pair_sent r (first_of firsts.entry))) grid.now result }
{
    let mut differ: u64 = 0;
    let mut pair = r;
    let mut m: usize = 0;
    // A `while`: the step is what a word holds of the values left.
    while m < n {
        let count = signals::at_once(n - m);
        let bits = (2 * count) as u32;
        let word = gold::word(pair, bits);
        differ |= compare_word(word, count, firsts, m, grid);
        pair = gold::advance(pair, bits);
        m += count;
    }
    if differ == 0 {
        Some(3 * n * PORTS)
    } else {
        None
    }
}

// The reference signals of symbol s on all ports that send there, from the pair that stands at the symbol's first value. Callers have
// the cell from an accepted plan, and have compared the grid's length.
pub fn compare_crs(r: Registers, cell: Cell, s: usize, grid: &[u8]) -> Option<usize>
    requires { SymbolIn cell s grid.now }
    ensures { Compared (crs_sends cell s) (crs_sent cell r) grid.now result }
{
    let n = 2 * usize::from(cell.blocks);
    let port = signals::crs_port(cell, s);
    let first = signals::crs_at(cell, s, port);
    if cell.ports == 1 {
        return compare_values(r, n, [first], grid);
    }
    let second = signals::crs_at(cell, s, port + 1);
    compare_values(r, n, [first, second], grid)
}

// A synchronisation signal's 62 elements, side by side.
fn compare_row<F: Fn(usize) -> Element>(element: F, first: usize, grid: &[u8]) -> Option<usize>
    requires called { (i : ℕ) → i < 62 → F.pre element i }
    requires inside { 3 * (first + 62) ≤ length grid.now }
    ensures { (W : ℕ → Element) → Gives (F.post element) first W → Compared (in_row first 62) W grid.now result }
{
    let mut weight: usize = 0;
    for i in 0..62 {
        weight += compare::compare_at(grid, first + i, element(i))?;
    }
    Some(weight)
}

// PSS, in the last symbol of the first slot. Callers have the cell from an accepted plan whose subframe has the signal, and have
// compared the grid's length.
pub fn compare_pss(cell: Cell, grid: &[u8]) -> Option<usize>
    requires { MarkIn cell grid.now }
    ensures { Compared (mark_sends cell 1) (pss_sent cell) grid.now result }
{
    compare_row(
        |i| signals::phase_element(cell.identity, i),
        signals::mark_at(cell, 1),
        grid,
    )
}

// SSS, one symbol earlier. Callers as for PSS.
pub fn compare_sss(cell: Cell, frame: Frame, grid: &[u8]) -> Option<usize>
    requires { MarkIn cell grid.now }
    ensures { Compared (mark_sends cell 2) (sss_sent cell frame) grid.now result }
{
    let d = sync::sss_for(cell.identity, frame.subframe);
    compare_row(
        |i| signals::level_element(d, i),
        signals::mark_at(cell, 2),
        grid,
    )
}
