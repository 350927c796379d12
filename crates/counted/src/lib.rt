// What gridcount answers for an input: the counts of the nine kinds of owners, or a refusal (document 01, Known elements).
#![tactic(auto)]

ghost use Rattle.std.specs.Prelude.{◌≡◌, Ok as accepted};
ghost use Rattle.plan.specs.Check.{check_of};
ghost use Rattle.counted.specs.Gridcount.{accepted_with, counted_of, gridcount_of};
ghost use Rattle.counted.specs.Framing.{PlanEnd};

use plan::{Plan, Refusal};

// An accepted plan: the payload's length and spare bits are left to look at.
fn with_payload(plan: &[u8], p: Plan, payload: &[u8]) -> Result<[usize; 9], Refusal>
    requires { check_of plan.now ≡ accepted p }
    ensures { result ≡ accepted_with plan.now p payload.now }
{
    if payload.len() != payload::payload_length(plan, p) {
        return Err(Refusal::PayloadLength);
    }
    if !payload::spare_clear(plan, p, payload) {
        return Err(Refusal::SpareBit);
    }
    Ok(counts::kind_counts(plan, p))
}

fn with_plan(plan: &[u8], payload: &[u8]) -> Result<[usize; 9], Refusal>
    ensures { result ≡ counted_of plan.now payload.now }
{
    let p = plan::check(plan)?;
    with_payload(plan, p, payload)
}

// Where the plan ends in an input of a two-byte plan length, the plan and more; none for an input that is cut off (refusal 1).
pub fn plan_end(input: &[u8]) -> Option<usize>
    ensures { PlanEnd input.now result }
{
    if input.len() < 2 {
        return None;
    }
    let end = 2 + (usize::from(input[0]) * 256 + usize::from(input[1]));
    if input.len() < end { None } else { Some(end) }
}

// The whole input: a two-byte plan length, the plan, the payload. The counts are in the order of the lines: CRS, PSS, SSS, PBCH, PCFICH, PHICH,
// PDSCH, held, idle.
pub fn gridcount(input: &[u8]) -> Result<[usize; 9], Refusal>
    ensures { result ≡ gridcount_of input.now }
{
    let Some(end) = plan_end(input) else {
        return Err(Refusal::Unreadable);
    };
    with_plan(&input[2..end], &input[end..])
}
