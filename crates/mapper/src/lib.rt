// THE PUBLIC CALLS, for Rattle and for C. None asks anything of its caller. Each has one equation for its answer, in document 01's numbers and those
// that it leaves to us (owners, kinds, samples), and for every byte that it leaves; the sample has its level, gain and bound beside it, and read the
// record `Reads`, which says the same as its equation. The functions for C answer with a number: a count, a length or a value, or minus the refusal's
// number; include/mapper.h describes them.
#![tactic(auto)]

ghost use Rattle.std.specs.Prelude.{◌≡◌, ◌<◌, ◌^◌, [], ◌∷◌, get_or, not, T, pos, neg_ℤ, Ok as accepted};
ghost use Rattle.std.specs.Float.{binary32};
ghost use Rattle.std.specs.Float.Ieee.{is_nan, to_bits};
ghost use Rattle.plan.specs.Check.{refusal_number, check_of, number_answer};
ghost use Rattle.layout.specs.Query.{owner_query_of, owner_answer};
ghost use Rattle.sample.specs.Promise.{Sampled};
ghost use Rattle.counted.specs.Gridcount.{gridcount_of, numbers_of, numbers_by};
ghost use Rattle.build.specs.Build.{built_of, grid_after};
ghost use Rattle.read.specs.Read.{Reads};
ghost use Rattle.read.specs.Equation.{read_of, payload_after};
ghost use Rattle.mapper.specs.Calls.{kind_elements, check_answer_of, grid_length_of, payload_length_of, kind_count_of, owner_answer_of, sample_answer_of};
ghost use Rattle.mapper.specs.Calls.{checked_answer, sample_answer, in_c};
ghost use Rattle.mapper.specs.Sizes.{Small};

use layout::Owner;
use plan::{Plan, Refusal};
use sample::Sample;

// CHECK: the plan that the bytes are, or its refusal.
pub fn check(plan: &[u8]) -> Result<Plan, Refusal>
    ensures { (result ≡ check_of plan.now) × (checked_answer result ≡ check_answer_of plan.now) }
{
    plan::check(plan)
}

// The length of a plan's grid.
pub fn grid_length(plan: &[u8]) -> Result<usize, Refusal>
    ensures { number_answer result ≡ grid_length_of plan.now }
{
    let p = plan::check(plan)?;
    Ok(payload::grid_length(p))
}

// The length of its payload.
pub fn payload_length(plan: &[u8]) -> Result<usize, Refusal>
    ensures { number_answer result ≡ payload_length_of plan.now }
{
    let p = plan::check(plan)?;
    Ok(payload::payload_length(plan, p))
}

// The elements of a kind of owners. The caller has the plan from the plan check.
fn count_of(plan: &[u8], p: Plan, kind: usize) -> usize
    requires { check_of plan.now ≡ accepted p }
    ensures { result ≡ kind_elements plan.now kind p }
{
    if kind < 9 {
        let counts = counts::kind_counts(plan, p);
        return counts[kind];
    }
    0
}

// COUNT: the elements of a kind of owners, in the order of gridcount's lines.
pub fn count(plan: &[u8], kind: usize) -> Result<usize, Refusal>
    ensures { number_answer result ≡ kind_count_of plan.now kind }
{
    let p = plan::check(plan)?;
    Ok(count_of(plan, p, kind))
}

// GRIDCOUNT: the counts of all kinds for an input of plan length, plan and payload.
pub fn gridcount(input: &[u8]) -> Result<[usize; 9], Refusal>
    ensures { (result ≡ gridcount_of input.now) × (numbers_of result ≡ numbers_by input.now) }
{
    counted::gridcount(input)
}

// OWNER: the owner of a place.
pub fn owner(plan: &[u8], s: usize, k: usize, port: usize) -> Result<Owner, Refusal>
    ensures { (result ≡ owner_query_of plan.now s k port) × (owner_answer result ≡ owner_answer_of plan.now s k port) }
{
    layout::owner_query(plan, s, k, port)
}

// SAMPLE: what an element's three bytes mean.
pub fn sample_at(byte: u8, i: u8, j: u8) -> Option<Sample>
    ensures { (sample_answer 0 result ≡ sample_answer_of 0 byte i j)
        × (sample_answer 1 result ≡ sample_answer_of 1 byte i j)
        × (sample_answer 2 result ≡ sample_answer_of 2 byte i j)
        × Sampled byte i j result }
{
    sample::sample_at(byte, i, j)
}

// BUILD: the grid of a plan and a payload.
pub fn build_grid(plan: &[u8], payload: &[u8], grid: &mut [u8]) -> Result<usize, Refusal>
    ensures { (number_answer result ≡ built_of plan.now payload.now grid.old)
        × (grid.new ≡ grid_after plan.now payload.now grid.old) }
{
    build::build(plan, payload, grid)
}

// READ: the payload of a grid.
pub fn read_grid(plan: &[u8], grid: &[u8], payload: &mut [u8]) -> Result<usize, Refusal>
    ensures { (number_answer result ≡ read_of plan.now grid.now payload.old)
        × (payload.new ≡ payload_after plan.now grid.now payload.old)
        × Reads plan.now grid.now payload.old (number_answer result) payload.new }
{
    read::read(plan, grid, payload)
}

// ---- for C

// A number as it is.
fn plus(n: usize) -> i64
    requires { n < 2 ^ 63 }
    ensures { result ≡ pos n }
{
    n as i64
}

// Minus a refusal's number.
fn minus(r: Refusal) -> i64
    ensures { result ≡ neg_ℤ (pos (refusal_number r)) }
{
    -(u8::from(r) as i64)
}

// The bits of an f32.
fn bits(x: f32) -> u32
    requires { T (not (is_nan x)) }
    ensures { result ≡ to_bits binary32 x }
{
    f32::to_bits(x)
}

fn number_in_c(n: Result<usize, Refusal>) -> i64
    requires { Small n }
    ensures { result ≡ in_c (number_answer n) }
{
    match n {
        Ok(v) => plus(v),
        Err(r) => minus(r),
    }
}

// The n-th of three numbers, and 0 for a fourth.
fn nth(n: usize, a: u32, b: u32, c: u32) -> u32
    ensures { result ≡ get_or (a ∷ b ∷ c ∷ []) n 0 }
{
    if n < 3 {
        let numbers = [a, b, c];
        return numbers[n];
    }
    0
}

// Number n of an element's sample, its kind and then its values, or refusal 9.
fn sample_number(byte: u8, i: u8, j: u8, n: usize) -> i64
    ensures { result ≡ in_c (sample_answer_of n byte i j) }
{
    match sample::sample_at(byte, i, j) {
        Some(Sample::Silence) => 0,
        Some(Sample::Phase(x)) => plus(nth(n, 1, x as u32, 0) as usize),
        Some(Sample::At(p)) => plus(nth(n, 2, bits(p.re), bits(p.im)) as usize),
        None => minus(Refusal::NoElement),
    }
}

pub fn mapper_check(plan: &[u8]) -> i64
    ensures { result ≡ in_c (check_answer_of plan.now) }
{
    match plan::check(plan) {
        Ok(_) => 0,
        Err(r) => minus(r),
    }
}

pub fn mapper_grid_len(plan: &[u8]) -> i64
    ensures { result ≡ in_c (grid_length_of plan.now) }
{
    number_in_c(grid_length(plan))
}

pub fn mapper_payload_len(plan: &[u8]) -> i64
    ensures { result ≡ in_c (payload_length_of plan.now) }
{
    number_in_c(payload_length(plan))
}

pub fn mapper_count(plan: &[u8], kind: usize) -> i64
    ensures { result ≡ in_c (kind_count_of plan.now kind) }
{
    number_in_c(count(plan, kind))
}

pub fn mapper_build(plan: &[u8], payload: &[u8], grid: &mut [u8]) -> i64
    ensures { (result ≡ in_c (built_of plan.now payload.now grid.old))
        × (grid.new ≡ grid_after plan.now payload.now grid.old) }
{
    match build::build(plan, payload, grid) {
        Ok(n) => plus(n),
        Err(r) => minus(r),
    }
}

pub fn mapper_read(plan: &[u8], grid: &[u8], payload: &mut [u8]) -> i64
    ensures { (result ≡ in_c (read_of plan.now grid.now payload.old))
        × (payload.new ≡ payload_after plan.now grid.now payload.old)
        × Reads plan.now grid.now payload.old (read_of plan.now grid.now payload.old) payload.new }
{
    match read::read(plan, grid, payload) {
        Ok(n) => plus(n),
        Err(r) => minus(r),
    }
}

pub fn mapper_owner(plan: &[u8], s: usize, k: usize, port: usize) -> i64
    ensures { result ≡ in_c (owner_answer_of plan.now s k port) }
{
    match layout::owner_query(plan, s, k, port) {
        Ok(o) => plus(usize::from(u16::from(o))),
        Err(r) => minus(r),
    }
}

// The kind of an element's sample: 0 silence, 1 phase, 2 a pair of f32.
pub fn mapper_sample_kind(byte: u8, i: u8, j: u8) -> i64
    ensures { result ≡ in_c (sample_answer_of 0 byte i j) }
{
    sample_number(byte, i, j, 0)
}

// The phase, or the bits of the f32 of I; 0 for silence.
pub fn mapper_sample_i(byte: u8, i: u8, j: u8) -> i64
    ensures { result ≡ in_c (sample_answer_of 1 byte i j) }
{
    sample_number(byte, i, j, 1)
}

// The bits of the f32 of J; 0 for silence and for a phase.
pub fn mapper_sample_j(byte: u8, i: u8, j: u8) -> i64
    ensures { result ≡ in_c (sample_answer_of 2 byte i j) }
{
    sample_number(byte, i, j, 2)
}
