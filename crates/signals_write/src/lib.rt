// The reference and synchronisation signals of a subframe, written into its grid (TS 36.211 6.10.1.2, 6.11.1.2, 6.11.2.2).
#![tactic(auto)]

ghost use Rattle.std.specs.Prelude.{◌≡◌, ℕ, ◌+◌, ◌*◌, ◌≤◌, ◌<◌, eqb, length};
ghost use Rattle.gold.specs.Steps.{after};
ghost use Rattle.grid.specs.Writing.{Written};
ghost use Rattle.signals.specs.Signals.{crs_sends, crs_sent, mark_sends, pss_sent, sss_sent};
ghost use Rattle.signals.specs.Rows.{MarkIn, SymbolIn, every_sixth, word_sent, pair_sent, first_of, on_each, EachIn, in_row, Gives};

use base::Element;
use gold::Registers;
use plan::{Cell, Frame};

// Value i on each port that sends it, at every sixth element from these on.
fn put_each<const PORTS: usize>(firsts: [usize; PORTS], i: usize, el: Element, grid: &mut [u8])
    requires { EachIn firsts (i + 1) grid.old }
    ensures { Written (on_each firsts.entry (eqb (first_of firsts.entry + 6 * i))) (λ (e : ℕ). el) grid.old grid.new }
{
    for first in firsts {
        grid::put(grid, first + 6 * i, el);
    }
}

// The n values of a word of 2n bits, from value m on, at every sixth element. Callers take n from `signals::at_once`.
fn fill_word<const PORTS: usize>(
    word: u32,
    n: usize,
    firsts: [usize; PORTS],
    m: usize,
    grid: &mut [u8],
)
    requires { (n ≤ 14) × EachIn firsts (m + n) grid.old }
    ensures { let first = first_of firsts.entry + 6 * m in
        Written (on_each firsts.entry (every_sixth first n)) (on_each firsts.entry (word_sent word n first)) grid.old grid.new }
{
    for i in 0..n {
        let low = 2 * (n - 1 - i);
        let d = crs::value((word >> low) % 4);
        put_each(firsts, m + i, base::element_of(2, d), grid);
    }
}

// The first n values that the pair gives, at every sixth element, and the pair after them: the sequence does not depend on the port
// (6.10.1.1), so it is made once for all ports that send it.
fn fill_values<const PORTS: usize>(
    r: Registers,
    n: usize,
    firsts: [usize; PORTS],
    grid: &mut [u8],
) -> Registers
    requires { EachIn firsts n grid.old }
    ensures { Written (on_each firsts.entry (every_sixth (first_of firsts.entry) n)) (on_each firsts.entry (pair_sent r (first_of firsts.entry))) grid.old grid.new
        × (result ≡ after r (2 * n)) }
{
    let mut pair = r;
    let mut m: usize = 0;
    // A `while`: the step is what a word holds of the values left.
    while m < n {
        let count = signals::at_once(n - m);
        let bits = (2 * count) as u32;
        fill_word(gold::word(pair, bits), count, firsts, m, grid);
        pair = gold::advance(pair, bits);
        m += count;
    }
    pair
}

// The reference signals of symbol s on all ports that send there, from the pair that stands at the symbol's first value; the pair
// after them. Callers have the cell from an accepted plan, and have compared the grid's length.
pub fn fill_crs(r: Registers, cell: Cell, s: usize, grid: &mut [u8]) -> Registers
    requires { SymbolIn cell s grid.old }
    ensures { Written (crs_sends cell s) (crs_sent cell r) grid.old grid.new × (result ≡ after r (4 * cell.blocks)) }
{
    let n = 2 * usize::from(cell.blocks);
    let port = signals::crs_port(cell, s);
    let first = signals::crs_at(cell, s, port);
    if cell.ports == 1 {
        return fill_values(r, n, [first], grid);
    }
    let second = signals::crs_at(cell, s, port + 1);
    fill_values(r, n, [first, second], grid)
}

// A synchronisation signal's 62 elements, side by side.
fn fill_row<F: Fn(usize) -> Element>(element: F, first: usize, grid: &mut [u8])
    requires called { (i : ℕ) → i < 62 → F.pre element i }
    requires inside { 3 * (first + 62) ≤ length grid.old }
    ensures { (W : ℕ → Element) → Gives (F.post element) first W → Written (in_row first 62) W grid.old grid.new }
{
    for i in 0..62 {
        grid::put(grid, first + i, element(i));
    }
}

// PSS, in the last symbol of the first slot. Callers have the cell from an accepted plan whose subframe has the signal, and have
// compared the grid's length.
pub fn fill_pss(cell: Cell, grid: &mut [u8])
    requires { MarkIn cell grid.old }
    ensures { Written (mark_sends cell 1) (pss_sent cell) grid.old grid.new }
{
    fill_row(
        |i| signals::phase_element(cell.identity, i),
        signals::mark_at(cell, 1),
        grid,
    );
}

// SSS, one symbol earlier. Callers as for PSS.
pub fn fill_sss(cell: Cell, frame: Frame, grid: &mut [u8])
    requires { MarkIn cell grid.old }
    ensures { Written (mark_sends cell 2) (sss_sent cell frame) grid.old grid.new }
{
    let d = sync::sss_for(cell.identity, frame.subframe);
    fill_row(
        |i| signals::level_element(d, i),
        signals::mark_at(cell, 2),
        grid,
    );
}
