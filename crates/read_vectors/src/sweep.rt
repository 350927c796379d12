// A sweep: every byte of a grid is changed in turn, four ways, and each changed grid read.

ghost use Rattle.std.specs.Prelude.{◌<◌, length};

use records::Digest;
use std::fmt;

// What a sweep has seen. No count comes near its limit.
#[derive(Clone, Copy)]
pub struct Tally {
    refused: usize,
    read: usize,
    built: usize,
    digest: Digest,
}

impl fmt::Display for Tally {
    fn fmt<W: fmt::Write>(&self, f: &mut fmt::Formatter<W>) -> fmt::Result {
        write!(
            f,
            "refused {} read {} built {} {}",
            self.refused, self.read, self.built, self.digest
        )
    }
}

impl Tally {
    // One changed grid.
    fn seen(self, plan: &[u8], grid: &[u8], again: &mut [u8], out: &mut [u8]) -> Tally {
        records::fill(out);
        match read::read(plan, grid, out) {
            Ok(_) => {
                // Whether building what was read makes the grid.
                let built = build::build(plan, out, again).is_ok() && grid == &*again;
                Tally {
                    read: self.read.saturating_add(1),
                    built: self.built.saturating_add(usize::from(built)),
                    digest: self.digest.added(out),
                    ..self
                }
            }
            Err(_) => Tally {
                refused: self.refused.saturating_add(1),
                digest: self.digest.added(out),
                ..self
            },
        }
    }

    // Byte i of the grid with its changes.
    fn of_byte(
        self,
        i: usize,
        plan: &[u8],
        grid: &mut [u8],
        again: &mut [u8],
        out: &mut [u8],
    ) -> Tally
        requires { i < length grid.old }
    {
        let mut tally = self;
        let old = grid[i];
        for new in others(i, old) {
            if new != old {
                grid[i] = new;
                tally = tally.seen(plan, grid, again, out);
                grid[i] = old;
            }
        }
        tally
    }

    pub fn of_sweep(plan: &[u8], grid: &mut [u8], again: &mut [u8], out: &mut [u8]) -> Tally {
        let mut tally = Tally {
            refused: 0,
            read: 0,
            built: 0,
            digest: Digest::EMPTY,
        };
        for i in 0..grid.len() {
            tally = tally.of_byte(i, plan, grid, again, out);
        }
        tally
    }
}

// What byte i of the grid is changed to: 0, one more, one less, and another unit or the opposite level.
fn others(i: usize, b: u8) -> [u8; 4] {
    let last = if i % 3 == 0 {
        next_unit_byte(b)
    } else {
        b.wrapping_neg()
    };
    [0, b.wrapping_add(1), b.wrapping_sub(1), last]
}

// The unit byte after this one, of those that elements have.
fn next_unit_byte(b: u8) -> u8 {
    match b {
        0 => 1,
        1 => 2,
        2 => 4,
        4 => 10,
        10 => 20,
        20 => 42,
        42 => 63,
        63 => 84,
        84 => 170,
        170 => 255,
        _ => 0,
    }
}
