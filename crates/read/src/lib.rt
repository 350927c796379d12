// read: the payload from which building makes a grid, or 13 (document 01). The whole grid is verified in place before a byte of the
// payload is written; then each section is read into its part of the payload.
#![tactic(auto)]

ghost use Rattle.std.specs.Prelude.{◌≡◌, ◌≤◌, ◌<◌};
ghost use Rattle.plan.specs.Check.{number_answer};
ghost use Rattle.recovery.specs.Recovery.{payload_in};
ghost use Rattle.areas.specs.Areas.{pbch_area};
ghost use Rattle.constellation.specs.Axis.{Axis};
ghost use Rattle.schedule.specs.declared.Channel.TheVariants.{Pbch};
ghost use Rattle.read.specs.Read.{Reads};
ghost use Rattle.read.specs.Equation.{read_of, payload_after};
ghost use Rattle.read.specs.Reading.{Readable, PartIn, part_read, part_after, AxisOf, ChannelIn};

use plan::{Plan, Refusal};
use schedule::{Channel, Section, started};

// The table of an order's levels, made anew unless it is there: `have` is the order of the table that is there.
fn axis_for(d: &mut [u8; 32], have: Option<u8>, order: u8)
    requires { AxisOf have d.old × (order ≤ 8) }
    ensures { Axis order d.new }
{
    if have != Some(order) {
        constellation::set_axis(d, order as u32);
    }
}

// PBCH's section, with masks of its own: it leaves out the reference signals of four ports, whatever the cell has.
fn read_pbch(p: Plan, grid: &[u8], part: &mut [u8])
    requires { PartIn p Pbch (pbch_area p.cell p.frame) 2 grid.now part.old }
    ensures { part.new ≡ part_read p Pbch (pbch_area p.cell p.frame) 2 grid.now }
{
    let area = areas::pbch_area(p.cell, p.frame);
    let mut masks: [u8; 14] = [0; 14];
    areas::row_masks(area.cell, area.frame, area.signals, area.leaves, &mut masks);
    let mut d: [u8; 32] = [0; 32];
    constellation::set_axis(&mut d, 2);
    data_read::read_area(started(p, Channel::Pbch), area, 2, &d, &masks, grid, part);
}

// The section of a channel that the subframe has, if the channel has one of its own. The users share the masks, and users of one order in turn
// the table: `have` is its order, if it is made, and so is the answer.
fn read_channel(
    p: Plan,
    ch: Channel,
    have: Option<u8>,
    d: &mut [u8; 32],
    masks: &[u8; 14],
    grid: &[u8],
    part: &mut [u8],
) -> Option<u8>
    requires { ChannelIn p ch have d.old masks.now grid.now part.old }
    ensures { AxisOf result d.new × (part.new ≡ part_after p ch grid.now part.old) }
{
    if !schedule::present(p, ch) {
        return have;
    }
    match ch {
        Channel::Pbch => {
            read_pbch(p, grid, part);
            have
        }
        Channel::User(u) => {
            axis_for(d, have, u.order);
            let area = areas::user_area(p.cell, p.frame, u);
            data_read::read_area(started(p, ch), area, u.order as u32, d, masks, grid, part);
            Some(u.order)
        }
        _ => have,
    }
}

// The section of the HIs' bits, which all PHICH units share; then turn after turn behind the reference signals, each section lent on for
// writing. Whoever calls has the plan from the plan check, has verified the grid, and has compared the payload's length.
fn read_sections(plan: &[u8], p: Plan, grid: &[u8], payload: &mut [u8])
    requires { Readable plan.now p grid.now payload.old }
    ensures { payload.new ≡ payload_in plan.now p grid.now }
{
    let shape = counts::shape_of(p.cell, p.frame);
    let Section {
        start: from,
        end: to,
    } = schedule::section_of(p, shape, 0, Channel::Phich(0));
    let r = started(p, Channel::Phich(0));
    control_read::read_his(r, p.cell, p.his, plan, grid, &mut payload[from..to]);
    let mut masks: [u8; 14] = [0; 14];
    areas::row_masks(p.cell, p.frame, p.cell.ports, true, &mut masks);
    let mut d: [u8; 32] = [0; 32];
    let mut have = None;
    let turns = schedule::count(p);
    let mut turn = schedule::after_signals(p);
    // The cursor counts its turns itself, and where the next one stands depends on the plan.
    while turn.number < turns {
        let ch = schedule::channel_at(plan, p, turn);
        let Section { start, end } = schedule::section_of(p, shape, turn.start, ch);
        have = read_channel(p, ch, have, &mut d, &masks, grid, &mut payload[start..end]);
        turn = schedule::next(plan, turn, ch, end);
    }
}

// READ: the payload of a grid; the count of user elements, ports not multiplied. It goes on only if the plan check answers with a plan.
pub fn read(plan: &[u8], grid: &[u8], payload: &mut [u8]) -> Result<usize, Refusal>
    ensures { (number_answer result ≡ read_of plan.now grid.now payload.old)
        × (payload.new ≡ payload_after plan.now grid.now payload.old)
        × Reads plan.now grid.now payload.old (number_answer result) payload.new }
{
    let checked = plan::check(plan);
    let Ok(p) = checked else {
        return Err(plan::refusal_in(checked));
    };
    if grid.len() != payload::grid_length(p) {
        return Err(Refusal::GridLength);
    }
    if payload.len() != payload::payload_length(plan, p) {
        return Err(Refusal::PayloadLength);
    }
    if !verify::has_payload(plan, p, grid) {
        return Err(Refusal::NoPayload);
    }
    read_sections(plan, p, grid, payload);
    Ok(counts::users_count(plan, p))
}
