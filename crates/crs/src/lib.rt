// Cell-specific reference signals, TS 36.211 6.10.1: the c_init of a symbol, and a value from two bits of its sequence.
#![tactic(auto)]

ghost use Rattle.std.specs.Prelude.{◌≡◌, ◌<◌, ◌≤◌};
ghost use Rattle.crs.specs.Crs.{normal_prefix, crs_init, word_value};

use base::Pair;

// The prefix is the plan's byte, 0 for the normal one, as the paper counts them.
fn n_cp(prefix: u8) -> u32
    ensures { result ≡ normal_prefix prefix }
{
    u32::from(prefix == 0)
}

// c_init of symbol l of slot n. The plan check gives a cell up to 503, a slot is below 20, and l below 7.
pub fn c_init(prefix: u8, cell: u16, slot: u8, l: u8) -> u32
    requires { (cell ≤ 503) × (slot < 20) × (l < 7) }
    ensures { result ≡ crs_init prefix cell slot l }
{
    let twice = 2 * (cell as u32);
    1024 * (7 * (slot as u32 + 1) + l as u32 + 1) * (twice + 1) + twice + n_cp(prefix)
}

// The value of two bits of the sequence, the first more significant.
pub fn value(word: u32) -> Pair
    requires { word < 4 }
    ensures { result ≡ word_value word }
{
    Pair {
        re: base::level_of(word / 2),
        im: base::level_of(word),
    }
}
