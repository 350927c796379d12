// One grid element, three bytes, as a modem sample: silence, a phase step, or a pair of f32 (document 01, Samples).
// A level I of unit u stands for I / √u: I as an f32, exactly, times the gain, the f32 nearest 1 / √u, rounded once.
#![tactic(auto)]

ghost use Rattle.std.specs.Prelude.{◌≡◌};
ghost use Rattle.std.specs.Float.{binary32};
ghost use Rattle.std.specs.Float.Ieee.{of_int};
ghost use Rattle.base.specs.Bytes.{signed_of};
ghost use Rattle.sample.specs.Units.{scale_of};
ghost use Rattle.sample.specs.Answer.{part_of, point_of};
ghost use Rattle.sample.specs.Cases.{silent_of, phase_of, scaled_of};
ghost use Rattle.sample.specs.Promise.{Exact, Sampled};

// The pair of f32 of an element's I and J.
#[derive(Clone, Copy)]
pub struct Point {
    pub re: f32,
    pub im: f32,
}

// What an element means: `Phase` holds I of the phase −2πI/63.
#[derive(Clone, Copy)]
pub enum Sample {
    Silence,
    Phase(u8),
    At(Point),
}

// A unit of levels: its byte in the grid, the unit u itself, the largest level either way, and the f32 nearest 1 / √u.
// Nothing computes with u: it is what the contracts hold the gain and the samples to. Public for the laws of crates above.
#[derive(Clone, Copy)]
pub struct UnitRow {
    pub byte: u8,
    pub unit: u16,
    pub limit: u8,
    pub gain: f32,
}

// The largest level either way: in document 01's units, and in the two of 256QAM.
const LIMIT: u8 = 8;

const LIMIT_256QAM: u8 = 15;

// The table of units. A new unit is a new row here and in specs/Units.antt.
const ROWS: [UnitRow; 9] = [
    UnitRow {
        byte: 1,
        unit: 1,
        limit: LIMIT,
        gain: 1.0,
    },
    UnitRow {
        byte: 2,
        unit: 2,
        limit: LIMIT,
        gain: 0.70710677,
    },
    UnitRow {
        byte: 4,
        unit: 4,
        limit: LIMIT,
        gain: 0.5,
    },
    UnitRow {
        byte: 10,
        unit: 10,
        limit: LIMIT,
        gain: 0.31622776,
    },
    UnitRow {
        byte: 20,
        unit: 20,
        limit: LIMIT,
        gain: 0.2236068,
    },
    UnitRow {
        byte: 42,
        unit: 42,
        limit: LIMIT,
        gain: 0.15430336,
    },
    UnitRow {
        byte: 84,
        unit: 84,
        limit: LIMIT,
        gain: 0.10910895,
    },
    UnitRow {
        byte: 170,
        unit: 170,
        limit: LIMIT_256QAM,
        gain: 0.0766965,
    },
    UnitRow {
        byte: 255,
        unit: 340,
        limit: LIMIT_256QAM,
        gain: 0.054232616,
    },
];

// The row of a unit's byte, if it has one.
fn scale_of(byte: u8) -> Option<UnitRow>
    ensures { result ≡ scale_of byte }
{
    ROWS.iter().find(|row| row.byte == byte).copied()
}

// A level as an f32, exactly.
fn level(i: i8) -> f32
    ensures { (result ≡ of_int binary32 i) × Exact i }
{
    i as f32
}

// The sample of a level: one product.
fn part(gain: f32, b: u8) -> f32
    ensures { result ≡ part_of gain (signed_of b) }
{
    level(base::signed(b)) * gain
}

fn point_of(gain: f32, i: u8, j: u8) -> Point
    ensures { result ≡ point_of gain (signed_of i) (signed_of j) }
{
    Point {
        re: part(gain, i),
        im: part(gain, j),
    }
}

fn silent(i: u8, j: u8) -> Option<Sample>
    ensures { result ≡ silent_of i j }
{
    (i == 0 && j == 0).then_some(Sample::Silence)
}

fn phase(i: u8, j: u8) -> Option<Sample>
    ensures { result ≡ phase_of i j }
{
    (i <= 62 && j == 0).then_some(Sample::Phase(i))
}

fn scaled(s: Option<UnitRow>, i: u8, j: u8) -> Option<Sample>
    ensures { result ≡ scaled_of s (signed_of i) (signed_of j) }
{
    let row = s?;
    if row.limit < base::signed(i).unsigned_abs() || row.limit < base::signed(j).unsigned_abs() {
        return None;
    }
    Some(Sample::At(point_of(row.gain, i, j)))
}

// The sample of any three bytes of a grid: a unit's byte, I, J. `None` is document 01's refusal 9: they are no element.
pub fn sample_at(byte: u8, i: u8, j: u8) -> Option<Sample>
    ensures { Sampled byte i j result }
{
    match byte {
        0 => silent(i, j),
        63 => phase(i, j),
        _ => scaled(scale_of(byte), i, j),
    }
}
