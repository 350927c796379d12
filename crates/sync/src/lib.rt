// The synchronisation signals of TS 36.211 6.11: the primary signal's phase numbers, the secondary signal's signs.
#![tactic(auto)]

ghost use Rattle.std.specs.Prelude.{◌≡◌, ◌+◌, ◌*◌, ◌/◌, ◌%◌, ◌^◌, ◌<◌, ◌≤◌};
ghost use Rattle.sync.specs.Pss.{pss_root, pss_t, pss_phase};
ghost use Rattle.sync.specs.Inner.{Sequences, pushed_of, around_of, signs_of, indices_of, sss_of, bit_in, level_in};

// The two indices that a cell-identity group stands for, each below 31.
#[derive(Clone, Copy)]
pub struct Indices {
    pub m0: u32,
    pub m1: u32,
}

// The secondary signal of one cell and subframe: bit n of `even` is set where d(2n) is -1, of `odd` where d(2n+1) is.
#[derive(Clone, Copy)]
pub struct Sss {
    pub even: u32,
    pub odd: u32,
}

// The three sequences of length 31, x(i) at bit i.
#[derive(Clone, Copy)]
struct Words {
    s: u32,
    c: u32,
    z: u32,
}

// Both signals go by such numbers. Callers' n is far below the bound, which keeps the product in 64 bits.
fn triangle(n: u64) -> u64
    requires { n < 2 ^ 31 }
    ensures { result ≡ n * (n + 1) / 2 }
{
    n * (n + 1) / 2
}

// Table 6.11.1.1-1: the root index u of C mod 3.
fn root(cell: u16) -> u64
    ensures { result ≡ pss_root (cell % 3) }
{
    match cell % 3 {
        0 => 25,
        1 => 29,
        _ => 34,
    }
}

// i(i+1)/2, and past the middle subcarrier, which is left out, (i+1)(i+2)/2.
fn pss_t(i: usize) -> u64
    requires { i < 62 }
    ensures { result ≡ pss_t i }
{
    if i <= 30 {
        triangle(i as u64)
    } else {
        triangle(i as u64 + 1)
    }
}

// The phase number I of d(i): the phase is -2 pi I / 63. Callers count the signal's 62 places by i, so it is below 62.
pub fn pss_phase(cell: u16, i: usize) -> u8
    requires { i < 62 }
    ensures { result ≡ pss_phase cell i }
{
    (root(cell) * pss_t(i) % 63) as u8
}

// The indices m0, m1 of the group D, a third of the cell identity.
pub fn sss_pair(d: u16) -> Indices
    ensures { result ≡ indices_of d }
{
    let n = d as u64;
    let q = (n + triangle(n / 30)) / 30;
    let e = n + triangle(q);
    let m0 = e % 31;
    Indices {
        m0: m0 as u32,
        m1: ((m0 + e / 31 + 1) % 31) as u32,
    }
}

// A word of 31 bits moves down by one, and the parity of `sum` comes in at the top.
fn pushed(w: u32, sum: u32) -> u32
    requires { w < 2 ^ 31 }
    ensures { result ≡ pushed_of w sum }
{
    w / 2 + sum % 2 * 0x4000_0000
}

// The recurrences: after i steps bits 26 to 30 of each word are x(i), .., x(i+4). To start with, x(4) alone is 1.
fn sequences() -> Words
    ensures { Sequences result }
{
    let mut s: u32 = 0x4000_0000;
    let mut c: u32 = 0x4000_0000;
    let mut z: u32 = 0x4000_0000;
    for _ in 0..26u32 {
        s = pushed(s, (s >> 28) + (s >> 26));
        c = pushed(c, (c >> 29) + (c >> 26));
        z = pushed(z, (z >> 30) + (z >> 28) + (z >> 27) + (z >> 26));
    }
    Words { s, c, z }
}

// A cyclic shift: bit n of the answer is bit (n + k) mod 31 of w. The product is w written twice.
fn around(w: u32, k: u32) -> u32
    requires { (w < 2 ^ 31) × (k ≤ 31) }
    ensures { result ≡ around_of w k }
{
    (((w as u64 * 0x8000_0001) >> k) % 0x8000_0000) as u32
}

// The signal with s shifted by a at even places and by b at odd ones. A product of signs is a sum of bits mod 2.
fn signs(a: u32, b: u32, n2: u32) -> Sss
    requires { (a < 31) × (b < 31) × (n2 < 3) }
    ensures { result ≡ signs_of a b n2 }
{
    let x = sequences();
    Sss {
        even: around(x.s, a) ^ around(x.c, n2),
        odd: around(x.s, b) ^ around(x.c, n2 + 3) ^ around(x.z, a % 8),
    }
}

// The secondary signal of a cell in subframe 5, or for any other number in subframe 0.
pub fn sss_for(cell: u16, subframe: u8) -> Sss
    ensures { result ≡ sss_of cell subframe }
{
    let p = sss_pair(cell / 3);
    let n2 = (cell % 3) as u32;
    if subframe == 5 {
        signs(p.m1, p.m0, n2)
    } else {
        signs(p.m0, p.m1, n2)
    }
}

// The bit of d(i), 0 for 1 and 1 for -1.
fn sign_bit(s: Sss, i: usize) -> u32
    requires { i < 62 }
    ensures { result ≡ bit_in s i }
{
    let w = if i % 2 == 0 { s.even } else { s.odd };
    (w >> (i / 2)) % 2
}

// d(i), 1 or -1. Callers count the signal's 62 places by i, so it is below 62.
pub fn sss_level(s: Sss, i: usize) -> i8
    requires { i < 62 }
    ensures { result ≡ level_in s i }
{
    base::level_of(sign_bit(s, i))
}
