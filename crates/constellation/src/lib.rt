// TS 36.211 7.1: the elements of a modulation order's symbols as numbers, the unit's byte + 256 I + 65536 J, in a table by the word of their bits.
#![tactic(auto)]

ghost use Rattle.std.specs.Prelude.{◌≡◌, ◌+◌, ◌*◌, ◌%◌, ◌^◌, ◌≤◌, ◌<◌, nat_abs, length, get_or};
ghost use Rattle.base.specs.Bytes.{signed_of};
ghost use Rattle.constellation.specs.Entries.{three_bytes, byte_less, four_set, Entries, Elements, Widened};
ghost use Rattle.constellation.specs.Pairs.{joint_of, partners_of};
ghost use Rattle.constellation.specs.Axis.{axis_of, byte_from, Axis, word_of};

fn power(k: u32) -> usize
    requires { k ≤ 8 }
    ensures { (result ≡ 2 ^ k) × (result ≤ 256) }
{
    1 << k
}

// h less the level of a byte, as a byte.
fn less(h: usize, b: u32) -> u32
    requires { (h ≤ 256) × (b < 256) }
    ensures { (result ≡ byte_less h b) × (result < 256) }
{
    ((h + 256 - b as usize) % 256) as u32
}

fn three(u: u32, i: u32, j: u32) -> u32
    requires { (u < 256) × (i < 256) × (j < 256) }
    ensures { result ≡ three_bytes u i j }
{
    u + 256 * i + 65536 * j
}

fn set_four(t: &mut [u32; 256], n: usize, x: usize, a: u32, b: u32, c: u32, d: u32)
    requires { (length t.old ≡ 256) × (3 * n + x < 256) }
    ensures { t.new ≡ four_set n x a b c d t.old }
{
    t[x] = a;
    t[n + x] = b;
    t[2 * n + x] = c;
    t[3 * n + x] = d;
}

// From the entry of a word of k bits those of the four words with two bits more in front: 2 ^ (k / 2) less each level, with the sign of
// its bit.
fn widen(t: &mut [u32; 256], k: u32, byte: u8, x: usize)
    requires { Widened k byte x t.old × (x < 2 ^ k) × (k % 2 ≡ 0) × (k ≤ 6) }
    ensures { Widened k byte (x + 1) t.new }
{
    let n = power(k);
    let h = power(k / 2);
    let u = u32::from(byte);
    let v = t[x];
    let i = less(h, v / 256 % 256);
    let j = less(h, v / 65536 % 256);
    let minus_i = less(0, i);
    let minus_j = less(0, j);
    let a = three(u, i, j);
    let b = three(u, i, minus_j);
    let c = three(u, minus_i, j);
    let d = three(u, minus_i, minus_j);
    set_four(t, n, x, a, b, c, d);
}

fn widen_all(t: &mut [u32; 256], k: u32, byte: u8)
    requires { Entries k byte (2 ^ k) t.old × (k % 2 ≡ 0) × (k ≤ 6) }
    ensures { Entries (k + 2) byte (2 ^ (k + 2)) t.new }
{
    let n = power(k);
    for x in 0..n {
        widen(t, k, byte, x);
    }
}

// The entries of the words of q bits, from those of no bits, with levels 0.
fn set_words(t: &mut [u32; 256], q: u32, byte: u8)
    requires { (length t.old ≡ 256) × (q % 2 ≡ 0) × (q ≤ 8) }
    ensures { Entries q byte (2 ^ q) t.new }
{
    t[0] = u32::from(byte);
    for pairs in 0..q / 2 {
        widen_all(t, 2 * pairs, byte);
    }
}

// The table of an order. Its entries repeat, so that the eight lowest bits of a word are an index, whatever the order.
pub fn set_elements(t: &mut [u32; 256], q: u32, byte: u8)
    requires { (length t.old ≡ 256) × (q % 2 ≡ 0) × (q ≤ 8) }
    ensures { Elements q byte t.new }
{
    set_words(t, q, byte);
    let n = power(q);
    for x in n..256 {
        t[x] = t[x - n];
    }
}

// The element of the symbol of a word's lowest bits.
pub fn number(t: &[u32; 256], w: u64) -> u64
    ensures { (result ≡ get_or t.now (w % 256) 0) × (result < 4294967296) }
{
    let x = (w % 256) as usize;
    u64::from(t[x])
}

// Two elements as one number.
pub fn joint(a: u64, b: u64) -> u64
    requires { (a < 4294967296) × (b < 4294967296) }
    ensures { result ≡ joint_of a b }
{
    a + b * 16777216
}

// What the other port sends beside two symbols: minus the conjugate of the second, then the conjugate of the first. Their levels are
// odd, so that minus a level exchanges all bits of its byte but the lowest.
pub fn partners(a: u64, b: u64) -> u64
    requires { (a < 4294967296) × (b < 4294967296) }
    ensures { result ≡ partners_of a b }
{
    joint(b, a) ^ 0xFE000000FE00
}

fn size(b: u32) -> u32
    requires { b < 256 }
    ensures { (result ≡ nat_abs (signed_of b)) × (result ≤ 128) }
{
    if b < 128 { b } else { 256 - b }
}

// The n bits of a level, given as a byte, at every second place of a word. First the sign, then the bits of 2 ^ (n - 1) less its size; a
// level that no bits have gets some bits.
fn axis_bits(n: u32, b: u32) -> u8
    requires { (n ≤ 4) × (b < 256) × (nat_abs (signed_of b) ≤ 16) }
    ensures { result ≡ axis_of n b }
{
    let mut m: u32 = 0;
    let mut z = b;
    for k in (0..n).rev() {
        m = 4 * m + z / 128;
        z = less(power(k), size(z));
    }
    m as u8
}

// The byte of a level from -16 to 15 by its five lowest bits.
fn byte_from(x: u32) -> u32
    requires { x < 32 }
    ensures { (result ≡ byte_from x) × (result < 256) × (nat_abs (signed_of result) ≤ 16) }
{
    if x < 16 { x } else { x + 224 }
}

// For each level of an order its bits, at every second place of a word, by the level's five lowest bits.
pub fn set_axis(d: &mut [u8; 32], q: u32)
    requires { (length d.old ≡ 32) × (q ≤ 8) }
    ensures { Axis q d.new }
{
    for (x, bits) in d.iter_mut().enumerate() {
        *bits = axis_bits(q / 2, byte_from(x as u32));
    }
}

// The word of an element's symbol. An element that no symbol has gets some word: its number is not that word's.
pub fn symbol_of(d: &[u8; 32], v: u64) -> u64
    ensures { result ≡ word_of d.now v }
{
    let i = (v / 256 % 32) as usize;
    let j = (v / 65536 % 32) as usize;
    let a = u64::from(d[i]);
    2 * a + u64::from(d[j])
}
