// Elements of a grid as numbers, the unit's byte + 256 I + 65536 J, and two of them as one number, the second 24 bits on: written and read by
// wide stores and loads.
#![tactic(auto)]

ghost use Rattle.std.specs.Prelude.{◌≡◌, ◌+◌, ◌*◌, ◌<◌, length};
ghost use Rattle.element_pairs.specs.Numbers.{Put, OnePut, TwoPut, PairPut, HalfRead, OneRead, TwoRead};

// Bytes of a number, its lowest first, in twos that the compiler makes one store or load: `to_le_bytes` with a store for each byte is no plainer.
fn put_two(grid: &mut [u8], at: usize, v: u32)
    requires { at + 1 < length grid.old }
    ensures { Put at 2 v grid.old grid.new }
{
    grid[at] = (v % 256) as u8;
    grid[at + 1] = (v / 256 % 256) as u8;
}

fn put_four(grid: &mut [u8], at: usize, v: u32)
    requires { at + 3 < length grid.old }
    ensures { Put at 4 v grid.old grid.new }
{
    put_two(grid, at, v);
    put_two(grid, at + 2, v / 65536);
}

fn put_bytes(grid: &mut [u8], at: usize, v: u32)
    requires { at + 2 < length grid.old }
    ensures { Put at 3 v grid.old grid.new }
{
    put_two(grid, at, v);
    grid[at + 2] = (v / 65536 % 256) as u8;
}

// One element, at byte `at`.
pub fn put_three(grid: &mut [u8], at: usize, v: u64)
    requires { at + 2 < length grid.old }
    ensures { OnePut at v grid.old grid.new }
{
    put_bytes(grid, at, (v % 16777216) as u32);
}

// Two elements side by side.
pub fn put_six(grid: &mut [u8], at: usize, v: u64)
    requires { at + 5 < length grid.old }
    ensures { TwoPut 1 at v grid.old grid.new }
{
    put_four(grid, at, (v % 4294967296) as u32);
    put_two(grid, at + 4, (v / 4294967296 % 65536) as u32);
}

// Two elements, the second `GAP` after the first: side by side, as the compiler stores them four bytes and two; else three bytes and three.
pub fn put_elements<const GAP: usize>(grid: &mut [u8], at: usize, v: u64)
    requires { (0 < GAP) × (at + 3 * GAP + 2 < length grid.old) }
    ensures { TwoPut GAP at v grid.old grid.new }
{
    if GAP == 1 {
        put_six(grid, at, v);
        return;
    }
    put_bytes(grid, at, (v % 16777216) as u32);
    put_bytes(grid, at + 3 * GAP, (v / 16777216 % 16777216) as u32);
}

// A pair of places on two ports, `across` bytes from one to the other, the second place `GAP` after the first.
pub fn put_pair<const GAP: usize>(grid: &mut [u8], at: usize, across: usize, v: u64, w: u64)
    requires { (0 < GAP) × (at + across + 3 * GAP + 2 < length grid.old) }
    ensures { PairPut GAP at across v w grid.old grid.new }
{
    put_elements::<GAP>(grid, at, v);
    put_elements::<GAP>(grid, at + across, w);
}

fn two_at(grid: &[u8], at: usize) -> u64
    requires { at + 1 < length grid.now }
    ensures { HalfRead at grid.now result }
{
    let a = u64::from(grid[at]);
    a + u64::from(grid[at + 1]) * 256
}

// One element as a number.
pub fn three_at(grid: &[u8], at: usize) -> u64
    requires { at + 2 < length grid.now }
    ensures { OneRead at grid.now result }
{
    let a = two_at(grid, at);
    a + u64::from(grid[at + 2]) * 65536
}

// Two elements side by side, as the compiler loads them: four bytes and two.
fn six_at(grid: &[u8], at: usize) -> u64
    requires { at + 5 < length grid.now }
    ensures { TwoRead 1 at grid.now result }
{
    let a = two_at(grid, at);
    let b = two_at(grid, at + 2);
    a + b * 65536 + two_at(grid, at + 4) * 4294967296
}

// Two elements as one number, the second `GAP` after the first.
pub fn pair_at<const GAP: usize>(grid: &[u8], at: usize) -> u64
    requires { at + 3 * GAP + 2 < length grid.now }
    ensures { TwoRead GAP at grid.now result }
{
    if GAP == 1 {
        return six_at(grid, at);
    }
    let a = three_at(grid, at);
    a + three_at(grid, at + 3 * GAP) * 16777216
}
