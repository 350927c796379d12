// How the test programs write levels, level pairs and bits, to be compared with what other implementations print.
#![tactic(auto)]

use std::io;

// A level in decimal, with a minus sign below 0.
pub fn level(rt: &impl Print, z: i8) -> io::Result<()> {
    rt.print(z)
}

// A level pair as I,J.
pub fn pair(rt: &impl Print, d: base::Pair) -> io::Result<()> {
    let base::Pair { re, im } = d;
    print!(rt; "{re},{im}")
}

// Eight hexadecimal digits.
pub fn hex(rt: &impl Print, n: u32) -> io::Result<()> {
    print!(rt; "{n:08x}")
}

// The n lowest bits of a word, n at most 32, the most significant first.
pub fn bits(rt: &impl Print, word: u32, n: u32) -> io::Result<()> {
    for k in (0..n % 33).rev() {
        let bit = (word >> k) % 2;
        print!(rt; "{bit}")?;
    }
    Ok(())
}
