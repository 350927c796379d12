// two_builds: two payloads built under one plan, for the regulator's second question (demand 3 of docs/APPROVAL.md).
#![tactic(auto)]

ghost use Rattle.std.specs.Prelude.{◌≡◌};
ghost use Rattle.plan.specs.Check.{number_answer};
ghost use Rattle.two_builds.specs.Both.{both_built, first_after, second_after, Separate};

use plan::Refusal;

// BUILD BOTH: the grids of one plan and two payloads. Neither grid is written unless all that is lent is right.
pub fn build_both(
    plan: &[u8],
    a: &[u8],
    b: &[u8],
    grid_a: &mut [u8],
    grid_b: &mut [u8],
) -> Result<usize, Refusal>
    ensures { (number_answer result ≡ both_built plan.now a.now b.now grid_a.old grid_b.old)
        × (grid_a.new ≡ first_after plan.now a.now b.now grid_a.old grid_b.old)
        × (grid_b.new ≡ second_after plan.now a.now b.now grid_a.old grid_b.old)
        × Separate plan.now a.now b.now grid_a.old grid_b.old grid_a.new grid_b.new }
{
    let checked = plan::check(plan);
    let Ok(p) = checked else {
        return Err(plan::refusal_in(checked));
    };
    let room = payload::grid_length(p);
    if grid_a.len() != room {
        return Err(Refusal::GridLength);
    }
    if grid_b.len() != room {
        return Err(Refusal::GridLength);
    }
    let size = payload::payload_length(plan, p);
    if a.len() != size {
        return Err(Refusal::PayloadLength);
    }
    if b.len() != size {
        return Err(Refusal::PayloadLength);
    }
    if !payload::spare_clear(plan, p, a) {
        return Err(Refusal::SpareBit);
    }
    if !payload::spare_clear(plan, p, b) {
        return Err(Refusal::SpareBit);
    }
    build::fill(plan, p, a, grid_a);
    build::fill(plan, p, b, grid_b);
    Ok(counts::users_count(plan, p))
}
