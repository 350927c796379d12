// PHICH: the sums of the acknowledgement units, and each bit back from them (TS 36.211 6.9.1 to 6.9.3). The length l is that
// of the spreading sequences, 4 with the normal prefix and 2 with the extended one; the word w has the scrambling bits
// c(0), .., c(11) as its twelve low bits, c(0) the most significant. A buffer of 200 bytes has the levels I and J of 25 units'
// first quads, unit by unit: place y of them is place y % 4 of unit y / 4, and its levels are bytes 2y and 2y + 1.
#![tactic(auto)]

ghost use Rattle.std.specs.Prelude.{◌≡◌, ℕ, ◌+◌, ◌*◌, ◌/◌, ◌%◌, ◌<◌, ◌≤◌, length, drop, unsigned_abs};
ghost use Rattle.base.specs.Signs.{flip, by as by_sign};
ghost use Rattle.base.specs.Pairs.{Small};
ghost use Rattle.base.specs.Bits.{bit_at};
ghost use Rattle.base.specs.Tables.{table};
ghost use Rattle.plan.specs.CommandLists.{his_from};
ghost use Rattle.phich.specs.Spreading.{Length, plain_chip, word_bit};
ghost use Rattle.plan.specs.declared.Hi.{Hi};
ghost use Rattle.phich.specs.His.{hi_number};
ghost use Rattle.phich.specs.Units.{mapping_unit};
ghost use Rattle.phich.specs.Recovery.{dot as dot_of, bit_in};
ghost use Rattle.phich.specs.Loops.{HiIn, HisIn, Sequence, chip_of, only, own_part, levels_at, quad_of, bits_from, Adds, QuadSums, Levels, scrambled_sums};

use base::Pair;
use plan::{Hi, hi_at, next_at};

// An entry of a spreading sequence: re + j im, one of them 0 and the other 1 or -1.
#[derive(Clone, Copy)]
pub struct SignPair {
    pub re: i8,
    pub im: i8,
}

// 1, -1, j, -j
const P: SignPair = SignPair { re: 1, im: 0 };

const M: SignPair = SignPair { re: -1, im: 0 };

const U: SignPair = SignPair { re: 0, im: 1 };

const D: SignPair = SignPair { re: 0, im: -1 };

// Table 6.9.1-2, a row for each sequence.
const NORMAL: [[SignPair; 4]; 8] = [
    [P, P, P, P],
    [P, M, P, M],
    [P, P, M, M],
    [P, M, M, P],
    [U, U, U, U],
    [U, D, U, D],
    [U, U, D, D],
    [U, D, D, U],
];

const EXTENDED: [[SignPair; 2]; 4] = [[P, P], [P, M], [U, U], [U, D]];

// The sequence q of length l, and again where it has two entries: a row is taken once for all its chips, as a constant is stored
// wherever it is named.
fn sequence(l: usize, q: usize) -> [SignPair; 4]
    requires { Length l × (q < 2 * l) }
    ensures { Sequence l q result }
{
    if l == 4 {
        return NORMAL[q];
    }
    let [a, b] = EXTENDED[q];
    [a, b, a, b]
}

// w (1 + j): the bit 0 by BPSK, spread.
fn plain_chip(w: SignPair) -> Pair
    requires { unsigned_abs w.re + unsigned_abs w.im ≤ 1 }
    ensures { result ≡ plain_chip w }
{
    Pair {
        re: w.re - w.im,
        im: w.re + w.im,
    }
}

// c(e)
fn scrambling(w: u32, e: usize) -> u8
    requires { e < 12 }
    ensures { result ≡ word_bit w e }
{
    ((w >> (11 - e)) % 2) as u8
}

// The number of the chip at place i of a unit, whichever of the unit's groups has the place.
fn chip_of(l: usize, i: usize) -> usize
    requires { Length l × (i < 12) }
    ensures { (result ≡ chip_of l i) × (result < 12) }
{
    if l == 4 { i } else { i / 4 * 2 + i % 2 }
}

// The levels of place y.
fn levels_at(s: &[u8], y: usize) -> Pair
    requires { 2 * y + 1 < length s.now }
    ensures { result ≡ levels_at s.now y }
{
    let at = 2 * y;
    Pair {
        re: base::signed(s[at]),
        im: base::signed(s[at + 1]),
    }
}

// The levels of d added to those of place y, as bytes modulo 256: no bound is needed until a byte is taken as a level.
fn add_at(sums: &mut [u8; 200], y: usize, d: Pair)
    requires { (length sums.old ≡ 200) × (y < 100) × Small 127 d }
    ensures { Adds (only y d) sums.old sums.new }
{
    let at = 2 * y;
    sums[at] = sums[at].wrapping_add(base::byte_of(d.re));
    sums[at + 1] = sums[at + 1].wrapping_add(base::byte_of(d.im));
}

// The chips of the HI h with the bit b, not scrambled, added to the sums: its group has l places of its unit's quad, and groups lie
// side by side.
fn add_hi(sums: &mut [u8; 200], l: usize, h: Hi, b: u8)
    requires { (length sums.old ≡ 200) × HiIn l h }
    ensures { Adds (own_part l h b) sums.old sums.new }
{
    let row = sequence(l, usize::from(h.sequence));
    for n in 0..l {
        let chip = plain_chip(row[n]);
        add_at(sums, usize::from(h.group) * l + n, base::flipped(b, chip));
    }
}

// The sums of all units before scrambling, over `count` HIs, whose commands start at `at` of the plan; `bit` gives that of HI k. Callers
// pass the HIs of an accepted plan, and bytes of 0.
fn sum_his<F: Fn(usize, Hi) -> u8>(
    l: usize,
    plan: &[u8],
    at: usize,
    count: usize,
    bit: F,
    sums: &mut [u8; 200],
)
    ghost bits: { ℕ → ℕ }
    requires known { HisIn l plan.now at count }
    requires blank { sums.old ≡ table 200 (λ (i : ℕ). 0) }
    requires callable { (k : ℕ) (h : Hi) → HiIn l h → F.pre bit k h }
    requires gives { (k r : ℕ) → k < count → F.post bit k (hi_number (his_from (drop at plan.now) count) k) r → r ≡ bits k }
    ensures { QuadSums l bits (his_from (drop at plan.now) count) sums.new }
{
    let mut from = at;
    for k in 0..count {
        let h = hi_at(plan, from);
        add_hi(sums, l, h, bit(k, h));
        from = next_at(plan, from);
    }
}

// The same; bit k of `bits` is that of HI k.
pub fn quad_sums(l: usize, plan: &[u8], at: usize, count: usize, bits: &[u8], sums: &mut [u8; 200])
    requires { HisIn l plan.now at count × (sums.old ≡ table 200 (λ (i : ℕ). 0)) }
    ensures { QuadSums l (bit_at bits.now) (his_from (drop at plan.now) count) sums.new }
{
    sum_his(l, plan, at, count, |k, _| base::bit_at(bits, k), sums);
}

// The twelve sums of a unit, scrambled: `part` has the levels of its four places, the same in each quad. Callers take it from
// sums over the HIs of an accepted plan: pairs used once leave at most eight HIs to a unit.
pub fn unit_sums(l: usize, w: u32, part: &[u8]) -> [Pair; 12]
    requires { Length l × Levels 127 part.now }
    ensures { result ≡ scrambled_sums l (word_bit w) part.now }
{
    let mut sums = [Pair { re: 0, im: 0 }; 12];
    for i in 0..12 {
        let s = scrambling(w, chip_of(l, i));
        let d = levels_at(part, i % 4);
        sums[i] = base::flipped(s, d);
    }
    sums
}

// z with the sign of s.
fn by(s: i8, z: i8) -> i16
    ensures { (result ≡ by_sign s z) × (unsigned_abs result ≤ 128) }
{
    let x = z as i16;
    if s == 0 {
        return 0;
    }
    if s < 0 { -x } else { x }
}

fn dot(s: Pair, p: Pair) -> i16
    ensures { (result ≡ dot_of s p) × (unsigned_abs result ≤ 256) }
{
    by(s.re, p.re) + by(s.im, p.im)
}

// A product, its sign flipped by its scrambling bit. It is of sixteen bits, as a level of -128 in a grid has no negative of eight.
fn flipped_by(b: u8, z: i16) -> i16
    requires { unsigned_abs z ≤ 256 }
    ensures { (result ≡ flip b z) × (unsigned_abs result ≤ 256) }
{
    if b == 0 { z } else { -z }
}

// The bit of the HI h from the first quads' sums: its own places along its own chips. Callers pass an HI of an accepted plan.
pub fn bit_of(l: usize, w: u32, h: Hi, first: &[u8; 200]) -> u8
    requires { HiIn l h }
    ensures { result ≡ bit_in l (word_bit w) h (quad_of first.now (mapping_unit l h)) }
{
    let row = sequence(l, usize::from(h.sequence));
    let mut t: i16 = 0;
    for n in 0..l {
        let chip = plain_chip(row[n]);
        let p = levels_at(first, usize::from(h.group) * l + n);
        let d = flipped_by(scrambling(w, n), dot(chip, p));
        t += d;
    }
    if t < 0 { 1 } else { 0 }
}

// The sums of all units before scrambling that the bits read from the first quads' sums make. Callers pass the HIs of an accepted
// plan, and bytes of 0.
#[tactic(auto, unfolding(crate::specs::Loops::bits_from))]
pub fn sums_again(
    l: usize,
    w: u32,
    plan: &[u8],
    at: usize,
    count: usize,
    first: &[u8; 200],
    sums: &mut [u8; 200],
)
    requires { HisIn l plan.now at count × (sums.old ≡ table 200 (λ (i : ℕ). 0)) }
    ensures { QuadSums l (bits_from l (word_bit w) (his_from (drop at plan.now) count) first.now) (his_from (drop at plan.now) count) sums.new }
{
    sum_his(l, plan, at, count, |_, h| bit_of(l, w, h, first), sums);
}
