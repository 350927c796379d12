// build: the grid of a plan and a payload, channel by channel in the schedule's turns (document 01).
#![tactic(auto)]

ghost use Rattle.std.specs.Prelude.{◌≡◌, ℕ, length, Ok as accepted};
ghost use Rattle.base.specs.Tables.{table};
ghost use Rattle.plan.specs.Check.{check_of, number_answer};
ghost use Rattle.payload.specs.Payload.{payload_length};
ghost use Rattle.modulation.specs.Symbols.{Order, unit_of};
ghost use Rattle.data_write.specs.Sent.{TableOf};
ghost use Rattle.grid.specs.Writing.{Written};
ghost use Rattle.subframe.specs.Grid.{element_numbered, grid_of};
ghost use Rattle.schedule.specs.declared.Channel.TheVariants.{Pcfich};
ghost use Rattle.schedule.specs.Schedule.{start_pair, sends_of, sent_of, all_send, lent_to, SumsOf};
ghost use Rattle.build.specs.Filling.{Ready, Shared, Having, order_of, TurnReady};
ghost use Rattle.build.specs.Build.{built_of, grid_after};

use data_write::set_table;
use gold::Registers;
use plan::{Plan, Refusal};
use schedule::{Channel, Section};

// The order whose table of elements the channel reads, if it reads one.
#[tactic(auto, unfolding(crate::specs::Filling::order_of))]
fn order_of(ch: Channel) -> Option<u8>
    ensures { result ≡ order_of ch }
{
    match ch {
        Channel::Pbch => Some(2),
        Channel::User(u) => Some(u.order),
        Channel::Crs(_) | Channel::Sync(_) | Channel::Pcfich | Channel::Phich(_) => None,
    }
}

// The table of an order on the ports, made anew unless it is there: `have` is the order of the table that is there.
fn renew(t: &mut [u32; 256], have: Option<u8>, order: u8, ports: u8)
    requires { Having ports have t.old × Order order }
    ensures { TableOf ports order (unit_of order) t.new }
{
    if have != Some(order) {
        set_table(t, order as u32, ports);
    }
}

// A turn: its channel written where the subframe has it, and the order of the table after it. Users of one order in turn share the table;
// PCFICH and the PHICH units share `control`, the pair at the start of their bits.
fn fill_turn(
    control: Registers,
    p: Plan,
    ch: Channel,
    have: Option<u8>,
    t: &mut [u32; 256],
    masks: &[u8; 14],
    sums: &[u8],
    bits: &[u8],
    grid: &mut [u8],
) -> Option<u8>
    requires { TurnReady p ch have t.old masks.now sums.now bits.now grid.old × (control ≡ start_pair p Pcfich) }
    ensures { Written (sends_of p ch) (sent_of p (lent_to ch sums.now bits.now) (start_pair p ch) ch) grid.old grid.new
        × Having p.cell.ports result t.new }
{
    if !schedule::present(p, ch) {
        return have;
    }
    let order = order_of(ch);
    if let Some(q) = order {
        renew(t, have, q, p.cell.ports);
    }
    channel_write::write(control, p, ch, t, masks, sums, bits, grid);
    order.or(have)
}

// Every turn of the schedule, each channel with its section of the payload.
fn fill_turns(
    plan: &[u8],
    p: Plan,
    payload: &[u8],
    t: &mut [u32; 256],
    masks: &[u8; 14],
    sums: &[u8],
    grid: &mut [u8],
)
    requires { Ready plan.now p payload.now grid.old × Shared plan.now p payload.now masks.now sums.now × (length t.old ≡ 256) }
    ensures { Written (all_send plan.now p) (element_numbered plan.now p payload.now) grid.old grid.new }
{
    let shape = counts::shape_of(p.cell, p.frame);
    let control = schedule::started(p, Channel::Pcfich);
    let turns = schedule::count(p);
    let mut have = None;
    let mut turn = schedule::first(p);
    // The cursor counts its turns itself, and where the next one stands depends on the plan.
    while turn.number < turns {
        let ch = schedule::channel_at(plan, p, turn);
        let Section { start, end } = schedule::section_of(p, shape, turn.start, ch);
        have = fill_turn(
            control,
            p,
            ch,
            have,
            t,
            masks,
            sums,
            &payload[start..end],
            grid,
        );
        turn = schedule::next(plan, turn, ch, end);
    }
}

// The sums of all PHICH units, in one pass over the HIs.
fn sum_units(plan: &[u8], p: Plan, payload: &[u8], sums: &mut [u8; 200])
    requires { (check_of plan.now ≡ accepted p) × (length payload.now ≡ payload_length plan.now p) × (sums.old ≡ table 200 (λ (i : ℕ). 0)) }
    ensures { SumsOf plan.now p payload.now sums.new }
{
    let start = payload::section_bytes(payload::pbch_bits(p.cell, p.frame));
    let end = payload::users_start(p);
    let l = control::spread_length(p.cell);
    phich::quad_sums(l, plan, p.his.at, p.his.count, &payload[start..end], sums);
}

// Every channel over silence. What its turns share is made once: the masks of the users' rows, the sums of the units, and room for one table of
// elements, since the stack is small. Whoever calls has the plan from the plan check, and has compared the lengths and the spare bits.
pub fn fill(plan: &[u8], p: Plan, payload: &[u8], grid: &mut [u8])
    requires { Ready plan.now p payload.now grid.old }
    ensures { grid.new ≡ grid_of plan.now p payload.now }
{
    grid::silence(grid);
    let mut t: [u32; 256] = [0; 256];
    let mut masks: [u8; 14] = [0; 14];
    let mut sums: [u8; 200] = [0; 200];
    areas::row_masks(p.cell, p.frame, p.cell.ports, true, &mut masks);
    sum_units(plan, p, payload, &mut sums);
    fill_turns(plan, p, payload, &mut t, &masks, &sums[..], grid);
}

// BUILD: the grid of a plan and a payload; the count of user elements, ports not multiplied. It goes on only if the plan check answers
// with a plan.
pub fn build(plan: &[u8], payload: &[u8], grid: &mut [u8]) -> Result<usize, Refusal>
    ensures { (number_answer result ≡ built_of plan.now payload.now grid.old)
        × (grid.new ≡ grid_after plan.now payload.now grid.old) }
{
    let checked = plan::check(plan);
    let Ok(p) = checked else {
        return Err(plan::refusal_in(checked));
    };
    if grid.len() != payload::grid_length(p) {
        return Err(Refusal::GridLength);
    }
    if payload.len() != payload::payload_length(plan, p) {
        return Err(Refusal::PayloadLength);
    }
    if !payload::spare_clear(plan, p, payload) {
        return Err(Refusal::SpareBit);
    }
    fill(plan, p, payload, grid);
    Ok(counts::users_count(plan, p))
}
