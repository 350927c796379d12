// TS 36.211 7.1: the symbol of two bits, for the control channels, and the unit of an order. The symbols of a data channel's order are in a
// table that `constellation` fills.
#![tactic(auto)]

ghost use Rattle.std.specs.Prelude.{◌≡◌};
ghost use Rattle.modulation.specs.Symbols.{modulation_symbol, unit_of};

use base::Pair;

// The QPSK symbol of the two lowest bits of w, the first more significant.
pub fn qpsk(w: u32) -> Pair
    ensures { result ≡ modulation_symbol 2 w }
{
    Pair {
        re: base::level_of(w / 2),
        im: base::level_of(w),
    }
}

// The unit of an order, and 0 of no order (`unit_of`, which contracts above cite: the plan's check lets no other number through).
pub fn unit(q: u32) -> u8
    ensures { result ≡ unit_of q }
{
    match q {
        2 => 2,
        4 => 10,
        6 => 42,
        8 => 170,
        _ => 0,
    }
}
