// What writing, comparing and reading the control channels share (TS 36.211 6.7, 6.9): the pairs of symbols of PCFICH and of a PHICH
// unit with their places, and the length of the spreading sequences.
#![tactic(auto)]

ghost use Rattle.std.specs.Prelude.{◌≡◌, ◌≤◌, ◌<◌};
ghost use Rattle.gold.specs.Sequence.{binary};
ghost use Rattle.codeword.specs.Codewords.{cfi_bit};
ghost use Rattle.plan.specs.Valid.{CellIn};
ghost use Rattle.phich.specs.Spreading.{spread_length};
ghost use Rattle.plan.specs.Fields.{symbol_groups};
ghost use Rattle.control.specs.Pairs.{PairIn, PcfichPair, unit_pair};

use base::Pair;
use gold::Registers;
use plan::Cell;

// Two symbols that are sent beside each other, the numbers of their places, two of a group's four, and which pair of antenna ports sends
// them (6.3.4.3, 6.9.2).
#[derive(Clone, Copy)]
pub struct PairAt {
    pub first_place: usize,
    pub second_place: usize,
    pub port_pair: u8,
    pub first: Pair,
    pub second: Pair,
}

// Bit i of the CFI's codeword (TS 36.212 table 5.3.4-1): those of CFI 1, 2 and 3 repeat 011, 101 and 110, so it is 0 at every third place from
// place CFI - 1 on.
fn cfi_bit(cfi: u8, i: usize) -> u32
    requires { (1 ≤ cfi) × (cfi ≤ 3) }
    ensures { (result ≡ cfi_bit cfi i) × (result < 2) }
{
    u32::from(i % 3 + 1 != usize::from(cfi))
}

// Its four bits from bit i on.
fn cfi_word(cfi: u8, i: usize) -> u32
    requires { (1 ≤ cfi) × (cfi ≤ 3) × (i < 32) }
    ensures { result ≡ binary (cfi_bit cfi) i 4 }
{
    let a = cfi_bit(cfi, i);
    let b = cfi_bit(cfi, i + 1);
    let c = cfi_bit(cfi, i + 2);
    let d = cfi_bit(cfi, i + 3);
    ((a * 2 + b) * 2 + c) * 2 + d
}

// Pair n of PCFICH's symbols: four bits of the CFI's codeword, scrambled by the next four of the sequence, from a pair of registers that
// has given those before. Callers pass a cell and a CFI of an accepted plan.
pub fn pcfich_pair(cell: Cell, cfi: u8, s: Registers, n: usize) -> PairAt
    requires { CellIn cell × (1 ≤ cfi) × (cfi ≤ 3) × (n < 8) }
    ensures { PcfichPair cell cfi s n result × PairIn cell result }
{
    let w = cfi_word(cfi, 4 * n) ^ gold::word(s, 4);
    let group = layout::format_group(cell, n / 2);
    PairAt {
        first_place: places::quad_place(cell, 0, group, 2 * (n % 2)),
        second_place: places::quad_place(cell, 0, group, 2 * (n % 2) + 1),
        port_pair: (n % 2) as u8,
        first: modulation::qpsk(w / 4),
        second: modulation::qpsk(w % 4),
    }
}

// The length of the spreading sequences.
pub fn spread_length(cell: Cell) -> usize
    ensures { result ≡ spread_length cell }
{
    if cell.prefix == 1 { 2 } else { 4 }
}

// Pair n of the twelve sums of unit m: half n % 2 of quad n / 2, whose symbol and group callers know. An accepted plan has 25 units at
// most.
pub fn unit_pair(
    cell: Cell,
    m: usize,
    symbol: usize,
    group: usize,
    sums: [Pair; 12],
    n: usize,
) -> PairAt
    requires { (m < 256) × (symbol < 3) × (group < symbol_groups cell symbol) × (n < 6) }
    ensures { result ≡ unit_pair cell m symbol group sums n }
{
    PairAt {
        first_place: places::quad_place(cell, symbol, group, 2 * (n % 2)),
        second_place: places::quad_place(cell, symbol, group, 2 * (n % 2) + 1),
        port_pair: ((n / 2 + m) % 2) as u8,
        first: sums[2 * n],
        second: sums[2 * n + 1],
    }
}
