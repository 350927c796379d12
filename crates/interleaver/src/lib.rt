// The sub-block interleaver of TS 36.212 5.1.4.2.1 on quads: a cursor that goes through the output positions in order, from any of them
// around to it again.
#![tactic(auto)]

ghost use Rattle.std.specs.Prelude.{◌≡◌, ◌+◌, ◌≤◌, ◌<◌, cond};
ghost use Rattle.interleaver.specs.Matrix.{column_at, quad_at};
ghost use Rattle.interleaver.specs.Cursor.{cursor_at, step_of, Stands, Seeks, empty_in, next_of};

// A cursor at output position `at` of `quads`: at `place` of the matrix, whose first `empty` places are empty, in the column that is read
// `order`-th.
#[derive(Clone, Copy)]
pub struct Cursor {
    pub quads: usize,
    pub at: usize,
    pub empty: usize,
    pub order: usize,
    pub place: usize,
}

// The column that is read j-th: five bits, reversed. (The library's `reverse_bits` is a loop over the type's bits, and longer here.)
fn column_at(j: usize) -> usize
    requires { j ≤ 32 }
    ensures { (result ≡ column_at j) × (result < 32) }
{
    let x = (j + 16) % 32;
    x % 2 * 16 + x / 2 % 2 * 8 + x / 4 % 2 * 4 + x / 8 % 2 * 2 + x / 16 % 2
}

// How many of the empty places are in the column that is read j-th, 1 or 0: they are all in the first row.
fn empty_in(j: usize, empty: usize) -> usize
    requires { j < 32 }
    ensures { (result ≡ cond (empty_in empty j) 1 0) × (result ≤ 1) }
{
    usize::from(column_at(j) < empty)
}

// The cursor at an output position: the columns before its own are passed one by one.
pub fn start(quads: usize, at: usize) -> Cursor
    requires { (at < quads) × (quads ≤ 4096) }
    ensures { result ≡ cursor_at quads at }
{
    let rows = quads.div_ceil(32);
    let empty = 32 * rows - quads;
    let mut left = at;
    for order in 0..32 {
        let row = left + empty_in(order, empty);
        if row < rows {
            let place = 32 * row + column_at(order);
            return Cursor {
                quads,
                at,
                empty,
                order,
                place,
            };
        }
        left = row - rows;
    }
    unreachable!()
}

// The quad at a cursor.
pub fn quad(c: Cursor) -> usize
    requires { Stands c }
    ensures { result ≡ quad_at c.quads c.at }
{
    c.place - c.empty
}

// The next read, one row down or at the top of the column that is read next, for output position `at`.
fn pass(c: Cursor, at: usize) -> Cursor
    requires { (c.place + c.empty < 8192) × (c.quads ≤ 4096) × (c.order < 32) }
    ensures { result ≡ next_of c at }
{
    if c.place + 32 < c.quads + c.empty {
        return Cursor {
            at,
            place: c.place + 32,
            ..c
        };
    }
    let order = c.order + 1;
    Cursor {
        at,
        order,
        place: column_at(order),
        ..c
    }
}

// On over empty places: one at most where there is more than one row.
fn seek(c: Cursor) -> Cursor
    requires { Seeks c.quads c.at c }
    ensures { result ≡ cursor_at c.quads c.at }
{
    let mut s = c;
    // How many steps there are depends on the places.
    while s.place < s.empty {
        s = pass(s, s.at);
    }
    s
}

// One output position on, and from the last to the first. Most steps are a row down, where no place is empty, and one test tells these.
pub fn step(c: Cursor) -> Cursor
    requires { Stands c }
    ensures { result ≡ step_of c }
{
    if c.place + 32 < c.quads + c.empty {
        return Cursor {
            at: c.at + 1,
            place: c.place + 32,
            ..c
        };
    }
    if c.at + 1 == c.quads {
        return seek(Cursor {
            at: 0,
            order: 0,
            place: column_at(0),
            ..c
        });
    }
    seek(pass(c, c.at + 1))
}
