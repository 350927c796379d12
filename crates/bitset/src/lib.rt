// Sets of numbers as words of 64 bits: n is a member where bit n % 64 of word n / 64 is 1. A set of two words has the numbers below 128.
// Words, and none of the library's sets, since the project has no heap.
#![tactic(auto)]

ghost use Rattle.std.specs.Prelude.{◌≡◌, ◌-◌, ◌/◌, ◌<◌, length};
ghost use Rattle.bitset.specs.Sets.{member, added, ones_of, run_of, meet, joined};

// Whether n is a member.
pub fn has(set: &[u64], n: usize) -> bool
    requires { n / 64 < length set.now }
    ensures { result ≡ member set.now n }
{
    (set[n / 64] >> (n % 64)) % 2 == 1
}

// Makes n a member.
pub fn add(set: &mut [u64], n: usize)
    requires { n / 64 < length set.old }
    ensures { set.new ≡ added set.old n }
{
    set[n / 64] |= 1 << (n % 64);
}

// The word of the numbers below n, counted from least on.
fn ones(n: usize, least: usize) -> u64
    ensures { result ≡ ones_of (n - least) }
{
    let k = n.saturating_sub(least);
    if k < 64 { (1 << k) - 1 } else { u64::MAX }
}

// The set of the count numbers from first on, those below 128.
pub fn run_of(first: u8, count: u8) -> [u64; 2]
    ensures { result ≡ run_of first count }
{
    let from = first as usize;
    let to = from + (count as usize);
    [ones(to, 0) ^ ones(from, 0), ones(to, 64) ^ ones(from, 64)]
}

// Whether two sets have a number in common.
pub fn meets(a: &[u64; 2], b: &[u64; 2]) -> bool
    ensures { result ≡ meet a.now b.now }
{
    (a[0] & b[0]) | (a[1] & b[1]) != 0
}

// The numbers of either set.
pub fn join(a: &[u64; 2], b: &[u64; 2]) -> [u64; 2]
    ensures { result ≡ joined a.now b.now }
{
    [a[0] | b[0], a[1] | b[1]]
}
