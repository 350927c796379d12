// Prints, for sets of HIs that a generator draws, the sums of units 0 and 1 and the bits that they give back, with both
// prefixes.
#![tactic(auto)]

ghost use Rattle.std.specs.Prelude.{◌≡◌, true, ℕ, ◌≤◌, ◌<◌, length};
ghost use Rattle.base.specs.Tables.{table};
ghost use Rattle.phich.specs.Spreading.{Length};
ghost use Rattle.phich.specs.Loops.{HiIn, HisIn, Levels};

use base::Pair;
use plan::Hi;
use std::io;

// What draws the sets: a generator by its state.
#[derive(Drop)]
struct Generator {
    x: u64,
}

impl Generator {
    fn draw(&mut self) -> u64 {
        self.x = (1103515245 * (self.x % 2147483648) + 12345) % 2147483648;
        self.x / 65536
    }
}

// HI number n of the sixteen of units 0 and 1, group by group.
fn hi_of(l: usize, n: usize) -> Hi
    requires { n < 16 }
{
    let sequences = if l == 4 { 8 } else { 4 };
    Hi {
        group: (n / sequences) as u8,
        sequence: (n % sequences) as u8,
    }
}

// The command of HI number `count`.
fn put(plan: &mut [u8; 48], count: usize, h: Hi)
    requires { count < 16 }
{
    let at = 3 * count;
    plan[at] = 32;
    plan[at + 1] = h.group;
    plan[at + 2] = h.sequence;
}

// The set of HIs: each of the sixteen by a draw. How many there are.
fn draw_set(g: &mut Generator, l: usize, k: u64, plan: &mut [u8; 48]) -> usize
    ensures { result ≤ 16 }
{
    let mut count: usize = 0;
    for n in 0..16 {
        if g.draw() % 4 < k % 5 {
            put(plan, count, hi_of(l, n));
            count += 1;
        }
    }
    count
}

// A bit for each of `count` HIs, the first the most significant of sixteen.
fn draw_bits(g: &mut Generator, count: usize) -> [u8; 2] {
    let mut word: u16 = 0;
    for n in 0..16 {
        word = word % 32768 * 2;
        if n < count {
            word += (g.draw() % 2) as u16;
        }
    }
    word.to_be_bytes()
}

// Whether the HI has a sequence of the length and is in one of 25 units.
fn known(l: usize, h: Hi) -> bool
    requires { Length l }
    ensures { result ≡ true → HiIn l h }
{
    usize::from(h.sequence) < 2 * l && usize::from(h.group) * l < 100
}

// Whether the HIs can be summed.
fn ready(l: usize, plan: &[u8], count: usize) -> bool
    requires { Length l }
    ensures { result ≡ true → HisIn l plan.now 0 count }
{
    let mut from: usize = 0;
    for k in 0..count {
        if !known(l, plan::hi_at(plan, from)) {
            return false;
        }
        from = plan::next_at(plan, from);
    }
    true
}

// The sums of all units, or 0.
fn sum(l: usize, plan: &[u8], count: usize, bits: &[u8], sums: &mut [u8; 200])
    requires { Length l × (sums.old ≡ table 200 (λ (i : ℕ). 0)) }
    ensures { length sums.new ≡ 200 }
{
    if ready(l, plan, count) {
        phich::quad_sums(l, plan, 0, count, bits, sums);
    }
}

// Whether the eight bytes of a unit can be flipped: none of them is -128.
fn flips(part: &[u8]) -> bool
    ensures { result ≡ true → Levels 127 part.now }
{
    if part.len() != 8 {
        return false;
    }
    for i in 0..8 {
        if part[i] == 128 {
            return false;
        }
    }
    true
}

fn unit(l: usize, w: u32, part: &[u8]) -> [Pair; 12]
    requires { Length l }
{
    if flips(part) {
        return phich::unit_sums(l, w, part);
    }
    [Pair { re: 0, im: 0 }; 12]
}

// The first quad of unit m, as it stands in a grid.
fn put_quad(first: &mut [u8; 200], m: usize, sums: [Pair; 12])
    requires { m < 25 }
{
    for i in 0..4 {
        let d = sums[i];
        let at = 8 * m + 2 * i;
        first[at] = base::byte_of(d.re);
        first[at + 1] = base::byte_of(d.im);
    }
}

fn print_sums(rt: &impl Print, sums: [Pair; 12]) -> io::Result<()> {
    for d in sums {
        print::space(rt)?;
        show::pair(rt, d)?;
    }
    print::line(rt)
}

fn bit(l: usize, w: u32, h: Hi, first: &[u8; 200]) -> Option<u8>
    requires { Length l }
{
    if known(l, h) {
        Some(phich::bit_of(l, w, h, first))
    } else {
        None
    }
}

// An HI that has no bit prints 2.
fn print_bits(
    rt: &impl Print,
    l: usize,
    w: u32,
    plan: &[u8],
    count: usize,
    first: &[u8; 200],
) -> io::Result<()>
    requires { Length l }
{
    print::text(rt, b"bits")?;
    let mut from: usize = 0;
    for k in 0..count {
        let h = plan::hi_at(plan, from);
        print::space(rt)?;
        print::number(rt, bit(l, w, h, first).map_or(2, u64::from))?;
        from = plan::next_at(plan, from);
    }
    print::line(rt)
}

fn print_head(rt: &impl Print, prefix: u64, k: u64, w: u32) -> io::Result<()> {
    print::text(rt, b"set ")?;
    print::number(rt, prefix)?;
    print::space(rt)?;
    print::number(rt, k)?;
    print::space(rt)?;
    show::bits(rt, w, 12)?;
    print::line(rt)
}

fn print_set(
    rt: &impl Print,
    l: usize,
    w: u32,
    plan: &[u8; 48],
    count: usize,
    bits: &[u8; 2],
) -> io::Result<()>
    requires { Length l × (count ≤ 16) }
{
    let mut sums = [0; 200];
    sum(l, plan, count, bits, &mut sums);
    let mut first = [0; 200];
    let a = unit(l, w, &sums[0..8]);
    print::text(rt, b"unit 0")?;
    print_sums(rt, a)?;
    put_quad(&mut first, 0, a);
    let b = unit(l, w, &sums[8..16]);
    print::text(rt, b"unit 1")?;
    print_sums(rt, b)?;
    put_quad(&mut first, 1, b);
    print_bits(rt, l, w, plan, count, &first)
}

// One set.
fn set(rt: &impl Print, prefix: u64, l: usize, k: u64, g: &mut Generator) -> io::Result<()>
    requires { Length l }
{
    let w = (g.draw() % 4096) as u32;
    let mut plan = [0; 48];
    let count = draw_set(g, l, k, &mut plan);
    let bits = draw_bits(g, count);
    print_head(rt, prefix, k, w)?;
    print_set(rt, l, w, &plan, count, &bits)
}

fn sets(rt: &impl Print, prefix: u64, l: usize, g: &mut Generator) -> io::Result<()>
    requires { Length l }
{
    for k in 0..24 {
        set(rt, prefix, l, k, g)?;
    }
    Ok(())
}

fn main(rt: HostRuntime) -> io::Result<()> {
    let mut g = Generator { x: 1 };
    sets(&rt, 0, 4, &mut g)?;
    sets(&rt, 1, 2, &mut g)
}
