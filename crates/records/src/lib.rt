// What the test programs of plan, build and read share: the records of their input, the lengths that they lend, and what they print of a call.
#![tactic(auto)]

ghost use Rattle.std.specs.Prelude.{◌≡◌, ◌++◌, ◌≤◌, ◌<◌, length, drop, IfSome};

use plan::Refusal;
use std::{fmt, io};

// Two numbers that depend on every byte and its position.
#[derive(Clone, Copy, PartialEq, Eq)]
pub struct Digest {
    pub a: u64,
    pub b: u64,
}

impl Digest {
    // That of no bytes.
    pub const EMPTY: Digest = Digest { a: 1, b: 7 };

    pub fn added(self, bytes: &[u8]) -> Digest {
        let Digest { mut a, mut b } = self;
        for x in bytes {
            let x = u64::from(*x);
            a = (a % 4294967291 * 31 + x + 1) % 4294967291;
            b = (b % 4294967279 * 131 + x + 7) % 4294967279;
        }
        Digest { a, b }
    }
}

impl fmt::Display for Digest {
    fn fmt<W: fmt::Write>(&self, f: &mut fmt::Formatter<W>) -> fmt::Result {
        write!(f, "{} {}", self.a, self.b)
    }
}

// What a call answers: a count, or its refusal.
#[derive(Clone, Copy)]
pub struct Answer(pub Result<usize, Refusal>);

impl fmt::Display for Answer {
    fn fmt<W: fmt::Write>(&self, f: &mut fmt::Formatter<W>) -> fmt::Result {
        match self.0 {
            Ok(n) => write!(f, "{n}"),
            Err(r) => write!(f, "refused {}", u8::from(r)),
        }
    }
}

// Every byte 165, so that a refusal shows that no byte changed.
pub fn fill(bytes: &mut [u8]) {
    bytes.fill(165);
}

// A big-endian number of up to four bytes.
pub fn value(bytes: &[u8]) -> usize
    ensures { result < 4294967296 }
{
    let mut v: usize = 0;
    for x in bytes {
        v = v % 16777216 * 256 + usize::from(*x);
    }
    v
}

// The part that the bytes start with, after its length in `width` bytes, and what follows it; none where it is cut off.
pub fn counted(bytes: &[u8], width: usize) -> Option<(&[u8], &[u8])>
    ensures { IfSome result (λ parts. parts.0.now ++ parts.1.now ≡ drop width bytes.now) }
{
    let (length, rest) = bytes.split_at_checked(width)?;
    rest.split_at_checked(value(length))
}

// The bytes that a plan's grid needs; 36 for a plan that is refused.
pub fn wanted(plan: &[u8]) -> usize {
    plan::check(plan).map_or(36, payload::grid_length)
}

// The bytes to lend of n: all, one less for 1, one more for 2. No buffer of the programs is longer than four million bytes.
pub fn lent(n: usize, difference: u8) -> usize {
    match difference {
        1 if 1 <= n && n <= 4000000 => n - 1,
        2 if 1 <= n && n <= 4000000 => n + 1,
        _ => n,
    }
}

// Where the record after the one at `at` stands, of which `used` bytes are known; the input's end after one that is cut off.
pub fn next_at(input: &[u8], at: usize, used: usize) -> usize
    requires { at < length input.now }
    ensures { (at < result) × (result ≤ length input.now) }
{
    if used == 0 || input.len() - at < used {
        return input.len();
    }
    at + used
}

// Hands each record of the input on with its number, from 1, and all that follows it. `each` answers with what is behind it, or with none for
// one that is cut off, which ends the walk. A record has a byte at least.
pub fn walk<F: Fn(usize, &[u8]) -> io::Result<Option<&[u8]>>>(
    input: &[u8],
    each: F,
) -> io::Result<()>
    requires { F.IsAlwaysCallable each }
{
    let mut at = 0;
    for number in 1..=input.len() {
        if at == input.len() {
            return Ok(());
        }
        let record = &input[at..];
        let Some(rest) = each(number, record)? else {
            return Ok(());
        };
        at = next_at(input, at, record.len().saturating_sub(rest.len()));
    }
    Ok(())
}
