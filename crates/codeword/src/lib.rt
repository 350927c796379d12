// Scrambling of a channel's bits (TS 36.211 6.3.1): its scrambled bits, 48 at a time from the sequence and as many at a time as are asked for.
#![tactic(auto)]

ghost use Rattle.std.specs.Prelude.{◌≡◌, ◌+◌, ◌*◌, ◌%◌, ◌<◌, ◌≤◌, ◌^◌, length, get_or};
ghost use Rattle.base.specs.Bits.{bit_at};
ghost use Rattle.gold.specs.Sequence.{binary};
ghost use Rattle.codeword.specs.Bits48.{last_at, WordAt, Begins48, Next48, with_rest, CanTake, Takes, TakesRest, Ends};

use gold::{Registers, Wide};

// A byte of the bits, 0 past their end.
fn byte_at(bits: &[u8], i: usize) -> u64
    ensures { (result ≡ get_or bits.now i 0) × (result < 256) }
{
    match bits.get(i) {
        Some(b) => u64::from(*b),
        None => 0,
    }
}

// A byte that the bits have.
fn byte_within(bits: &[u8], i: usize) -> u64
    requires { i < length bits.now }
    ensures { (result ≡ get_or bits.now i 0) × (result < 256) }
{
    u64::from(bits[i])
}

// The 32 bits from a byte on, where there are so many.
fn bits32(bits: &[u8], at: usize) -> u64
    requires { at + 4 ≤ length bits.now }
    ensures { result ≡ binary (bit_at bits.now) (8 * at) 32 }
{
    let a = byte_within(bits, at);
    let b = byte_within(bits, at + 1);
    let c = byte_within(bits, at + 2);
    let d = byte_within(bits, at + 3);
    a * 16777216 + b * 65536 + c * 256 + d
}

// The 48 bits from a byte on, 0 past the end, byte by byte.
fn last_bits(bits: &[u8], from: usize) -> u64
    requires { from ≤ 2 ^ 63 }
    ensures { result ≡ binary (bit_at bits.now) (8 * from) 48 }
{
    let mut w: u64 = 0;
    for i in 0..6 {
        w = w * 256 + byte_at(bits, from + i);
    }
    w
}

// Of n bytes, where the last of the words of six begins that has two or more.
fn last_at(n: usize) -> usize
    ensures { result ≡ last_at n }
{
    n.saturating_sub(2) / 6 * 6
}

// The 48 bits of the word of six bytes from a byte on, of which `last` is the last that has two bytes or more. The words before it have
// eight bytes to read at once, and one after it has one byte or none.
fn bits48(bits: &[u8], at: usize, last: u64) -> u64
    requires { at ≤ 2 ^ 32 }
    ensures { WordAt bits.now at last result }
{
    if at + 8 <= bits.len() {
        let a = bits32(bits, at);
        let b = bits32(bits, at + 4);
        return (a * 4294967296 + b) / 65536;
    }
    if at + 2 <= bits.len() {
        return last;
    }
    byte_at(bits, at) * 1099511627776
}

// The 16 lowest bits of a word, and 48 more below them.
fn joined(word: u64, next: u64) -> u64
    requires { next < 2 ^ 48 }
    ensures { result ≡ word % 2 ^ 16 * 2 ^ 48 + next }
{
    word % 65536 * 281474976710656 + next
}

// The word in use, and how many of its lowest bits are not taken. A loop has them in locals, since the compiler cannot tell the state from a
// grid that is written.
#[derive(Clone, Copy)]
pub struct Rest {
    pub word: u64,
    pub left: u64,
}

// A channel's scrambled bits as they are taken: the 64 values of x1 and of x2 where the word in use begins, the byte after it, the bits of the
// last word, and the word in use. It is lent: by value it would be copied at each call that is not inlined.
#[derive(Clone, Copy)]
pub struct ScrambledBits {
    pub wide: Wide,
    pub at: usize,
    pub last: u64,
    pub rest: Rest,
}

impl ScrambledBits {
    pub fn begin(r: Registers, bits: &[u8]) -> Self
        ensures { Begins48 bits.now r result }
    {
        let wide = gold::widen(r);
        let last = last_bits(bits, last_at(bits.len()));
        let word = bits48(bits, 0, last) ^ gold::word48(wide);
        Self {
            wide,
            at: 6,
            last,
            rest: Rest { word, left: 48 },
        }
    }

    // The next 48 scrambled bits.
    fn next48(&mut self, bits: &[u8]) -> u64
        requires { self.old.at ≤ 2 ^ 32 }
        ensures { Next48 bits.now self.old result self.new }
    {
        let at = self.at;
        let w = gold::advance48(self.wide);
        self.wide = w;
        self.at = at + 6;
        bits48(bits, at, self.last) ^ gold::word48(w)
    }

    // What is left after the next n scrambled bits: these are the lowest n of the word without the bits that are left. Callers pass a state that
    // `begin` or `take` gave for the same bits, and take them in groups, one or some at a time, that 48 bits are whole groups of.
    pub fn take_rest(&mut self, h: Rest, n: u64, bits: &[u8]) -> Rest
        requires { CanTake n bits.now (with_rest self.old h) }
        ensures { TakesRest n bits.now self.old h self.new result }
    {
        let Rest { word, left } = h;
        if n <= left {
            return Rest {
                word,
                left: left - n,
            };
        }
        let next = self.next48(bits);
        Rest {
            word: joined(word, next),
            left: left + 48 - n,
        }
    }

    // The next n scrambled bits, the lowest n of the result.
    pub fn take(&mut self, n: u64, bits: &[u8]) -> u64
        requires { CanTake n bits.now self.old }
        ensures { Takes n bits.now self.old result self.new }
    {
        let h = self.take_rest(self.rest, n, bits);
        self.rest = h;
        h.word >> h.left
    }

    // The pair after the bits that were taken, where r is the pair that the state was begun with: at the bit after the last that was taken.
    pub fn end(&self, r: Registers) -> Registers
        requires { self.now.rest.left ≤ 48 }
        ensures { Ends r self.now result }
    {
        let left = self.rest.left;
        let p = gold::narrow(self.wide);
        if left < 48 {
            return gold::skip(p, (48 - left) as usize);
        }
        if self.at == 6 {
            return r;
        }
        p
    }
}
