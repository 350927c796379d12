// Whether some accepted payload makes a grid, found in place: every channel's elements are compared with what the payload read from
// them would give, and the bytes that are not 0 are counted: by their number every other element is silent (document 01, refusal 13).
#![tactic(auto)]

ghost use Rattle.std.specs.Prelude.{ℕ, List};
ghost use Rattle.compare.specs.Comparing.{Compared};
ghost use Rattle.areas.specs.Areas.{pbch_area};
ghost use Rattle.data_compare.specs.Symbols.{AreaCompared};
ghost use Rattle.schedule.specs.declared.Channel.TheVariants.{Pbch};
ghost use Rattle.schedule.specs.Schedule.{all_send};
ghost use Rattle.verify.specs.Made.{element_due, Given, Planned, Shared, ChannelSeen, Made};

use gold::Registers;
use layout::Mark;
use plan::Plan;
use schedule::Channel;

// PBCH. It leaves out the reference signals of four ports, whatever the cell has, so its masks are its own.
fn compare_pbch(p: Plan, grid: &[u8]) -> Option<usize>
    requires { (w : List ℕ) × Planned w p grid.now Pbch }
    ensures { AreaCompared (pbch_area p.cell p.frame) 2 2 grid.now result }
{
    let area = areas::pbch_area(p.cell, p.frame);
    let mut masks: [u8; 14] = [0; 14];
    areas::row_masks(area.cell, area.frame, area.signals, area.leaves, &mut masks);
    data_compare::compare_area(area, 2, 2, &masks, grid)
}

// A channel of the plan that the subframe has. What several channels share is lent: the pair at the start of PCFICH's and PHICH's bits,
// the sums of all units, the masks of the users' rows.
fn compare_channel(
    p: Plan,
    ch: Channel,
    control: Registers,
    sums: &[u8; 200],
    masks: &[u8; 14],
    grid: &[u8],
) -> Option<usize>
    requires { (w : List ℕ) × Planned w p grid.now ch × Shared w p grid.now control sums.now masks.now }
    ensures { ChannelSeen p ch sums.now grid.now result }
{
    match ch {
        Channel::Crs(s) => {
            let r = schedule::started(p, ch);
            signals_compare::compare_crs(r, p.cell, usize::from(s), grid)
        }
        Channel::Sync(Mark::Primary) => signals_compare::compare_pss(p.cell, grid),
        Channel::Sync(Mark::Secondary) => signals_compare::compare_sss(p.cell, p.frame, grid),
        Channel::Pbch => compare_pbch(p, grid),
        Channel::Pcfich => control_compare::compare_pcfich(control, p.cell, p.frame.cfi, grid),
        Channel::Phich(m) => {
            let unit = usize::from(m);
            let part = &sums[8 * unit..8 * unit + 8];
            control_compare::compare_phich(control, p.cell, unit, part, grid)
        }
        Channel::User(u) => {
            let area = areas::user_area(p.cell, p.frame, u);
            let order = u32::from(u.order);
            data_compare::compare_area(area, order, modulation::unit(order), masks, grid)
        }
    }
}

// Every channel, turn after turn. A PHICH unit is compared with the sums that the bits read from the grid make.
fn compare_all(plan: &[u8], p: Plan, grid: &[u8]) -> Option<usize>
    requires { Given plan.now p grid.now }
    ensures { Compared (all_send plan.now p) (element_due plan.now p grid.now) grid.now result }
{
    let control = schedule::started(p, Channel::Pcfich);
    let mut sums = [0; 200];
    control_compare::sums_again(control, p.cell, p.his, plan, grid, &mut sums);
    let mut masks: [u8; 14] = [0; 14];
    areas::row_masks(p.cell, p.frame, p.cell.ports, true, &mut masks);
    let shape = counts::shape_of(p.cell, p.frame);
    let turns = schedule::count(p);
    let mut turn = schedule::first(p);
    let mut seen: Option<usize> = Some(0);
    // A `while`, since a `for` is no plainer: the cursor counts the turns itself, and what comes next is the plan's. No `?`: with it no edit of one
    // value leaves out what a channel's comparison found (must-fail/channel_unseen).
    while turn.number < turns {
        let ch = schedule::channel_at(plan, p, turn);
        let section = schedule::section_of(p, shape, turn.start, ch);
        let end = section.end;
        if schedule::present(p, ch) {
            seen = compare::together(seen, compare_channel(p, ch, control, &sums, &masks, grid));
        }
        turn = schedule::next(plan, turn, ch, end);
    }
    seen
}

// Whether some accepted payload makes the grid. Whoever calls has the plan from the plan check, and has compared the grid's length.
pub fn has_payload(plan: &[u8], p: Plan, grid: &[u8]) -> bool
    requires { Given plan.now p grid.now }
    ensures { Made plan.now p grid.now result }
{
    compare_all(plan, p, grid).is_some_and(|n| n == compare::weight(grid))
}
