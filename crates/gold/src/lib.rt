// The pseudo-random sequence c(n) of TS 36.211 7.2, up to 28 bits at a time, or 48. A register holds the next 31 values of
// its sequence as a number, the first most significant (bit 30), and so does a word.
#![tactic(auto)]

ghost use Rattle.std.specs.Prelude.{◌≡◌, ◌≤◌, ◌-◌, ◌/◌, ◌%◌, ◌^◌};
ghost use Rattle.gold.specs.Sequence.{binary, start2, pair_at};
ghost use Rattle.gold.specs.Steps.{after, word_of};
ghost use Rattle.gold.specs.Window.{window, sums, offsets1, offsets2};
ghost use Rattle.gold.specs.Wide.{wide_of, Narrows, Gives48, Goes48};

// The register pair of document 01: the next 31 values of x1 and of x2.
#[derive(Clone, Copy)]
pub struct Registers {
    pub x1: u32,
    pub x2: u32,
}

// 59 values of a sequence in one number: the register, and the 28 that come next.
fn windowed(x: u32, y: u32) -> u64
    ensures { result ≡ window x y }
{
    (x as u64) * 268435456 + ((y % 268435456) as u64)
}

// The sums x1(n+3) + x1(n), 28 of them at once.
fn fed1(x: u32) -> u32
    ensures { result ≡ sums x 3 offsets1 }
{
    x ^ x / 8
}

// The sums x2(n+3) + x2(n+2) + x2(n+1) + x2(n), 28 of them at once.
fn fed2(x: u32) -> u32
    ensures { result ≡ sums x 3 offsets2 }
{
    x ^ x / 2 ^ x / 4 ^ x / 8
}

// The register n steps on: 31 bits of the 59.
fn moved(z: u64, n: u32) -> u32
    requires { n ≤ 28 }
    ensures { result ≡ z / 2 ^ (28 - n) % 2 ^ 31 }
{
    ((z >> (28 - n)) % 2147483648) as u32
}

// The first n of 31 bits.
fn top(v: u32, n: u32) -> u32
    requires { n ≤ 28 }
    ensures { result ≡ v % 2 ^ 31 / 2 ^ (31 - n) }
{
    (v % 2147483648) >> (31 - n)
}

// The pair n steps on, all at once. Callers pass a constant or a modulation order for n, so that a type for numbers to 28 would be no plainer.
pub fn advance(r: Registers, n: u32) -> Registers
    requires { (1 ≤ n) × (n ≤ 28) }
    ensures { result ≡ after r n }
{
    let a = r.x1;
    let b = r.x2;
    Registers {
        x1: moved(windowed(a, fed1(a)), n),
        x2: moved(windowed(b, fed2(b)), n),
    }
}

// The next n bits as a word, the first most significant. Callers pass a constant or a modulation order for n.
pub fn word(r: Registers, n: u32) -> u32
    requires { (1 ≤ n) × (n ≤ 28) }
    ensures { result ≡ word_of r n }
{
    top(r.x1 ^ r.x2, n)
}

// The pair any number of steps on.
pub fn skip(r: Registers, n: usize) -> Registers
    ensures { result ≡ after r n }
{
    let mut s = r;
    for _ in 0..n / 28 {
        s = advance(s, 28);
    }
    match (n % 28) as u32 {
        0 => s,
        rest => advance(s, rest),
    }
}

// The 31 low bits of c, the lowest most significant: a register that holds the start of x2.
fn mirrored(c: u32) -> u32
    ensures { result ≡ binary (start2 c) 0 31 }
{
    let mut x: u32 = 0;
    for k in 0..31u32 {
        x = x * 2 + (c >> k) % 2;
    }
    x
}

// The pair at c(0), 1600 steps on from the start of x1 and x2. The values of x1 there are always the same, and x2(n+1600) is the sum of nine
// of the values from x2(n) on. Bit 31 of c_init does not count.
fn start(c_init: u32) -> Registers
    ensures { result ≡ pair_at c_init 0 }
{
    let b = mirrored(c_init);
    let z = windowed(b, fed2(b));
    let near = z / 134217728 ^ z / 67108864 ^ z / 33554432 ^ z / 1048576;
    let all = near ^ z / 65536 ^ z / 4096 ^ z / 512 ^ z / 256 ^ z / 32;
    Registers {
        x1: 17631549,
        x2: (all % 2147483648) as u32,
    }
}

// The pair at c(first).
pub fn pair_at(c_init: u32, first: usize) -> Registers
    ensures { result ≡ pair_at c_init first }
{
    skip(start(c_init), first)
}

// 64 values of x1 and of x2, each as a number, the first most significant: for whoever takes many bits, 48 at a time.
#[derive(Clone, Copy)]
pub struct Wide {
    pub x1: u64,
    pub x2: u64,
}

// The pair's 64 values: of each register its window, and five more.
pub fn widen(r: Registers) -> Wide
    ensures { result ≡ wide_of r }
{
    let a = windowed(r.x1, fed1(r.x1));
    let b = windowed(r.x2, fed2(r.x2));
    Wide {
        x1: a % 576460752303423488 * 32 + (a / 8388608 ^ a / 67108864) % 32,
        x2: b % 576460752303423488 * 32
            + (b / 8388608 ^ b / 16777216 ^ b / 33554432 ^ b / 67108864) % 32,
    }
}

// The pair again: the first 31 values of each.
pub fn narrow(w: Wide) -> Registers
    ensures { Narrows w result }
{
    Registers {
        x1: (w.x1 / 8589934592) as u32,
        x2: (w.x2 / 8589934592) as u32,
    }
}

// The next 48 bits as a word, the first most significant.
pub fn word48(w: Wide) -> u64
    ensures { Gives48 w result }
{
    (w.x1 ^ w.x2) / 65536
}

// The values 48 steps on: x1(n+62) = x1(n+6) + x1(n), and x2(n+62) = x2(n+6) + x2(n+4) + x2(n+2) + x2(n), where y has the sums of the
// values two apart.
pub fn advance48(w: Wide) -> Wide
    ensures { Goes48 w result }
{
    let a = w.x1;
    let b = w.x2;
    let y = b / 4 ^ b;
    Wide {
        x1: a % 65536 * 281474976710656 + (a / 16384 ^ a / 256) % 281474976710656,
        x2: b % 65536 * 281474976710656 + (y / 4096 ^ y / 256) % 281474976710656,
    }
}
