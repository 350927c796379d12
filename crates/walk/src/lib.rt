// The places of a channel that fills its places k first, then s, as runs of half blocks (six subcarriers each). A row has one form,
// a bit for each of six subcarriers that is open, and a list of spans of half blocks: any set, one for each row.
#![tactic(auto)]

ghost use Rattle.std.specs.Prelude.{◌≡◌, ℕ, ◌+◌, ◌*◌, ◌≤◌, ◌<◌, length};
ghost use Rattle.base.specs.Tables.{table};
ghost use Rattle.walk.specs.Forms.{SingleForm, HolesOf, holes_with, Stretch};
ghost use Rattle.walk.specs.Addresses.{OffsetsAt};
ghost use Rattle.walk.specs.Tables.{cursor_start, cursor_run, cursor_next, row_end, CursorIn};
ghost use Rattle.walk.specs.Spans.{SpanPut, RowPut};

// A row and the next of its spans.
#[derive(Clone, Copy)]
pub struct Cursor {
    pub s: usize,
    pub i: usize,
}

// Half blocks one after another: the number of the first place, how many, and the row's form.
#[derive(Clone, Copy)]
pub struct Run {
    pub first: usize,
    pub halves: usize,
    pub mask: usize,
}

// A byte of a table as a number: that it is below 256 a proof knows of an argument, and not of a field in an array.
fn byte(x: u8) -> usize
    ensures { (result ≡ x) × (result ≤ 255) }
{
    usize::from(x)
}

// A row: its form, its first span, and the one after its last.
#[derive(Clone, Copy)]
pub struct Row {
    pub mask: u8,
    pub first: u8,
    pub end: u8,
}

// The half blocks `from` to `to` - 1 of a row.
#[derive(Clone, Copy)]
pub struct Span {
    pub from: u8,
    pub to: u8,
}

// A channel's places: its rows and one row more, and their spans. It is lent: by value it would be copied.
#[derive(Drop)]
pub struct Tables {
    pub rows: [Row; 15],
    pub spans: [Span; 256],
}

impl Tables {
    // Rows without places.
    pub fn new() -> Self
        ensures rows { result.rows ≡ table 15 (λ (i : ℕ). record { mask = 0; first = 0; end = 0 }) }
        ensures spans { result.spans ≡ table 256 (λ (i : ℕ). record { from = 0; to = 0 }) }
    {
        Self {
            rows: [Row {
                mask: 0,
                first: 0,
                end: 0,
            }; 15],
            spans: [Span { from: 0, to: 0 }; 256],
        }
    }

    pub fn start(&self) -> Cursor
        ensures { result ≡ cursor_start self.now.rows }
    {
        let row = self.rows[0];
        Cursor {
            s: 0,
            i: byte(row.first),
        }
    }

    // The run at a cursor; one of no half blocks in a row that has no spans.
    pub fn run_at(&self, c: Cursor, carriers: usize) -> Run
        requires { CursorIn carriers self.now.rows self.now.spans c }
        ensures { (result ≡ cursor_run carriers self.now.rows self.now.spans c) × (result.halves ≤ 255) }
    {
        let Cursor { s, i } = c;
        let row = self.rows[s];
        let start = s * carriers;
        let mask = byte(row.mask);
        let end = byte(row.end);
        if i < end {
            let span = self.spans[i];
            let from = byte(span.from);
            let to = byte(span.to);
            return Run {
                first: start + 6 * from,
                halves: to - from,
                mask,
            };
        }
        Run {
            first: start,
            halves: 0,
            mask,
        }
    }

    // The cursor after its run: at the row's next span, or at the next row's first where that was the last.
    pub fn next(&self, c: Cursor) -> Cursor
        requires { c.s < 14 }
        ensures { (result ≡ cursor_next self.now.rows c) × (row_end self.now.rows c.s ≤ 255) }
    {
        let Cursor { s, i } = c;
        let row = self.rows[s];
        let end = byte(row.end);
        if i < end && i + 1 < end {
            return Cursor { s, i: i + 1 };
        }
        let after = self.rows[s + 1];
        Cursor {
            s: s + 1,
            i: byte(after.first),
        }
    }

    // Span n, if it has half blocks; the number of the span after it.
    pub fn put_span(&mut self, n: usize, from: usize, to: usize) -> usize
        requires { (n < 256) × (to ≤ 255) }
        ensures { SpanPut n from to self.old.spans result self.new.spans × (self.new.rows ≡ self.old.rows) }
    {
        if from < to {
            self.spans[n] = Span {
                from: from as u8,
                to: to as u8,
            };
            return n + 1;
        }
        n
    }

    // Row s: its form, its first span, and the one after its last.
    pub fn put_row(&mut self, s: usize, mask: u8, first: usize, end: usize)
        requires { (s ≤ 14) × (first ≤ 255) × (end ≤ 255) }
        ensures { RowPut s mask first end self.old.rows self.new.rows × (self.new.spans ≡ self.old.spans) }
    {
        self.rows[s] = Row {
            mask,
            first: first as u8,
            end: end as u8,
        };
    }
}

// Where the own ports of a pair and of the next one begin, in elements, and how far the other port is.
#[derive(Clone, Copy)]
pub struct PortOffsets {
    pub own: usize,
    pub next: usize,
    pub across: usize,
}

pub fn port_offsets(ports: u8, places: usize, j: usize) -> PortOffsets
    requires { places ≤ 16800 }
    ensures { OffsetsAt ports places j result }
{
    let pair = (j / 2 % 2) as u8;
    PortOffsets {
        own: usize::from(precoding::own_port(ports, pair)) * places,
        next: usize::from(precoding::own_port(ports, pair + 1)) * places,
        across: usize::from(ports / 2) * places,
    }
}

// The holes of a form on one port: the places before the first, the places from one to the next, or 0 where there is none, and the places
// of six.
#[derive(Clone, Copy)]
pub struct Holes {
    pub lead: usize,
    pub each: usize,
    pub count: usize,
}

// One hole in six, or two of them three apart, after `lead` places.
fn one_hole(lead: usize) -> Holes
    ensures { result ≡ holes_with lead 5 5 }
{
    Holes {
        lead,
        each: 5,
        count: 5,
    }
}

fn two_holes(lead: usize) -> Holes
    ensures { result ≡ holes_with lead 2 4 }
{
    Holes {
        lead,
        each: 2,
        count: 4,
    }
}

pub fn holes_of(mask: usize) -> Holes
    requires { SingleForm mask }
    ensures { HolesOf mask result }
{
    match mask {
        63 => Holes {
            lead: 0,
            each: 0,
            count: 6,
        },
        27 => two_holes(2),
        54 => two_holes(0),
        45 => two_holes(1),
        62 => one_hole(0),
        61 => one_hole(1),
        59 => one_hole(2),
        55 => one_hole(3),
        47 => one_hole(4),
        _ => one_hole(5),
    }
}

// The places before the first hole: where they begin, and how many they are.
#[derive(Clone, Copy)]
pub struct FirstStretch {
    pub at: usize,
    pub left: usize,
}

// If the first place is a hole, those from it to the next one.
pub fn first_stretch(first: usize, lead: usize, each: usize) -> FirstStretch
    requires { (first ≤ 16800) × (lead ≤ each) × (0 < each) }
    ensures { Stretch first lead each 0 result.at result.left }
{
    if lead == 0 {
        return FirstStretch {
            at: first + 1,
            left: each,
        };
    }
    FirstStretch {
        at: first,
        left: lead,
    }
}
