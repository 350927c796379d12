// A section of the payload from a channel's bits as they are read, still scrambled (TS 36.211 6.3.1): the sequence is taken off 48 bits at a
// time.
#![tactic(auto)]

ghost use Rattle.std.specs.Prelude.{◌≡◌, ◌+◌, ◌^◌, ◌≤◌, ◌<◌, length};
ghost use Rattle.section_bits.specs.Gathering.{with_four, with_two, Puts48, Begun, GiveIn, Gives, PutLast, State, Flushed};

use gold::{Registers, Wide};

// Bytes of a word, its highest first: `to_be_bytes` with a store for each byte is no plainer.
fn put_two(part: &mut [u8], at: usize, v: u32)
    requires { at + 1 < length part.old }
    ensures { part.new ≡ with_two v at part.old }
{
    part[at] = (v / 256 % 256) as u8;
    part[at + 1] = (v % 256) as u8;
}

fn put_four(part: &mut [u8], at: usize, v: u32)
    requires { at + 3 < length part.old }
    ensures { part.new ≡ with_four v at part.old }
{
    put_two(part, at, v / 65536);
    put_two(part, at + 2, v);
}

// A section that is being filled: the 64 values of x1 and of x2 where the next byte begins, that byte, and a word whose lowest bits are read and
// not put, and how many they are. It is lent: by value it would be copied at each call that is not inlined.
#[derive(Clone, Copy)]
pub struct SectionBits {
    pub wide: Wide,
    pub at: usize,
    pub word: u64,
    pub held: u64,
}

impl SectionBits {
    pub fn begin(r: Registers) -> Self
        ensures { Begun r result }
    {
        Self {
            wide: gold::widen(r),
            at: 0,
            word: 0,
            held: 0,
        }
    }

    // The next 48 bits, as six bytes.
    fn put48(&mut self, v: u64, part: &mut [u8])
        requires { self.old.at + 6 ≤ length part.old }
        ensures { Puts48 v self.old part.old self.new part.new }
    {
        let at = self.at;
        let x = v ^ gold::word48(self.wide);
        self.wide = gold::advance48(self.wide);
        put_four(part, at, (x / 65536 % 4294967296) as u32);
        self.at = at + 6;
        put_two(part, at + 4, (x % 65536) as u32);
    }

    // n bits more, which are v. Callers have so many bits left in the section, and give them in groups that 48 bits are whole groups of.
    pub fn give(&mut self, n: u64, v: u64, part: &mut [u8])
        requires { GiveIn n v self.old part.old }
        ensures { Gives n v self.old part.old self.new part.new }
    {
        let word = (self.word << n) + v;
        let got = self.held + n;
        self.word = word;
        if got < 48 {
            self.held = got;
            return;
        }
        let left = got - 48;
        self.held = left;
        self.put48((word >> left) % 281474976710656, part);
    }

    // The bits that are still held, as the last bytes, filled with zeros.
    pub fn flush(&self, part: &mut [u8])
        requires { State self.now }
        ensures { Flushed self.now part.old part.new }
    {
        let got = self.held;
        if got == 0 {
            return;
        }
        let sequence = gold::word48(self.wide) >> (48 - got);
        let bits = self.word % power(got) ^ sequence;
        put_last(part, self.at, bits << (48 - got));
    }
}

// 2 to the power n.
fn power(n: u64) -> u64
    requires { n ≤ 48 }
    ensures { result ≡ 2 ^ n }
{
    281474976710656 >> (48 - n)
}

// All bytes from a byte on: 48 bits, and zeros after them.
fn put_last(part: &mut [u8], start: usize, bits: u64)
    ensures { PutLast bits start part.old part.new }
{
    let mut v = bits;
    for at in start..part.len() {
        part[at] = (v / 1099511627776 % 256) as u8;
        v = v % 1099511627776 * 256;
    }
}
