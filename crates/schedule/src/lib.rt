// The schedule of a plan's channels: which channel has which turn, with its parameters, its sequence and its section of the payload. Building,
// verifying and reading go over it, each in one loop.
#![tactic(auto)]

ghost use Rattle.std.specs.Prelude.{◌≡◌, ◌+◌, ◌*◌, ◌<◌, ◌≤◌};
ghost use Rattle.gold.specs.Sequence.{pair_at};
ghost use Rattle.crs.specs.Crs.{crs_init};
ghost use Rattle.plan.specs.Valid.{CellIn, FrameIn};
ghost use Rattle.layout.specs.Rules.{slot_of, in_slot};
ghost use Rattle.layout.specs.Owners.{symbols};
ghost use Rattle.counts.specs.Shape.{shape_of};
ghost use Rattle.subframe.specs.Elements.{pbch_first, control_init, user_init};
ghost use Rattle.signals.specs.Signals.{signalled};
ghost use Rattle.schedule.specs.Schedule.{signal_turns, channel_count, later_at, channel_at, init_of, first_bit, Among, present_in, section_of};
ghost use Rattle.plan.specs.declared.Plan.{Plan as PlanOf};
ghost use Rattle.schedule.specs.Cursor.{first_turn, later_turn, Due, Passing, Follows};

use counts::Shape;
use gold::Registers;
use layout::Mark;
use plan::{Cell, Frame, Plan, User};

// Which channel: the reference signals of a symbol, a synchronisation mark, PBCH, PCFICH, a PHICH unit, a user.
#[derive(Clone, Copy)]
pub enum Channel {
    Crs(u8),
    Sync(Mark),
    Pbch,
    Pcfich,
    Phich(u8),
    User(User),
}

// A cursor over the schedule: the turn's number, the position of the next user's command in the plan, and the byte of the payload at which
// the next user's section starts.
#[derive(Clone, Copy)]
pub struct Turn {
    pub number: usize,
    pub at: usize,
    pub start: usize,
}

// A part of the payload.
#[derive(Clone, Copy)]
pub struct Section {
    pub start: usize,
    pub end: usize,
}

// How many turns a plan has. A plan from the plan check has at most 100 users.
pub fn count(p: Plan) -> usize
    requires { CellIn p.cell × (p.users.count ≤ 100) }
    ensures { result ≡ channel_count p }
{
    layout::symbols(p.cell) + 4 + plan::units(p.cell) + p.users.count
}

// The first turn.
#[tactic(auto, unfolding(crate::specs::Cursor::first_turn))]
pub fn first(p: Plan) -> Turn
    ensures { result ≡ first_turn p }
{
    Turn {
        number: 0,
        at: p.users.at,
        start: payload::users_start(p),
    }
}

// The first turn after the reference signals.
#[tactic(auto, unfolding(crate::specs::Cursor::later_turn))]
pub fn after_signals(p: Plan) -> Turn
    ensures { result ≡ later_turn p }
{
    Turn {
        number: layout::symbols(p.cell),
        ..first(p)
    }
}

// The channels after the reference signals, by their number among these.
fn later_at(plan: &[u8], p: Plan, turn: Turn, n: usize) -> Channel
    requires { Due plan.now p turn × (turn.number ≡ signal_turns p.cell + n) }
    ensures { result ≡ later_at plan.now p n }
{
    match n {
        0 => Channel::Sync(Mark::Primary),
        1 => Channel::Sync(Mark::Secondary),
        2 => Channel::Pbch,
        3 => Channel::Pcfich,
        _ => {
            if n - 4 < plan::units(p.cell) {
                return Channel::Phich((n - 4) as u8);
            }
            Channel::User(plan::user_at(plan, turn.at))
        }
    }
}

// The channel of a turn.
pub fn channel_at(plan: &[u8], p: Plan, turn: Turn) -> Channel
    requires { Due plan.now p turn }
    ensures { result ≡ channel_at plan.now p turn.number }
{
    let signals = layout::symbols(p.cell);
    let number = turn.number;
    if number < signals {
        return Channel::Crs(number as u8);
    }
    later_at(plan, p, turn, number - signals)
}

// Whether a reference signal stands in symbol s: that of ports 0 and 1 or, with four ports, that of ports 2 and 3.
#[tactic(auto, unfolding(signals::specs::Signals::signalled))]
fn is_signalled(cell: Cell, s: usize) -> bool
    ensures { result ≡ signalled cell s }
{
    layout::crs_uses(cell, 0, s) || (cell.ports == 4 && layout::crs_uses(cell, 2, s))
}

// Whether the subframe has the channel.
#[tactic(auto, unfolding(crate::specs::Schedule::present_in))]
pub fn present(p: Plan, ch: Channel) -> bool
    ensures { result ≡ present_in p ch }
{
    match ch {
        Channel::Crs(s) => is_signalled(p.cell, base::wide(s)),
        Channel::Sync(_) => layout::is_marked(p.frame),
        Channel::Pbch => p.frame.subframe == 0,
        Channel::Pcfich | Channel::Phich(_) | Channel::User(_) => true,
    }
}

// The section of a channel, empty for one without bits. All PHICH units share the HIs' section. No payload is longer than the bound.
#[tactic(auto, unfolding(crate::specs::Schedule::section_of))]
pub fn section_of(p: Plan, shape: Shape, start: usize, ch: Channel) -> Section
    requires { (shape ≡ shape_of p.cell p.frame) × (start ≤ 4294967296) }
    ensures { result ≡ section_of p start ch }
{
    match ch {
        Channel::Crs(_) | Channel::Sync(_) | Channel::Pcfich => Section { start: 0, end: 0 },
        Channel::Pbch => Section {
            start: 0,
            end: payload::section_bytes(payload::pbch_bits(p.cell, p.frame)),
        },
        Channel::Phich(_) => Section {
            start: payload::section_bytes(payload::pbch_bits(p.cell, p.frame)),
            end: payload::users_start(p),
        },
        Channel::User(u) => Section {
            start,
            end: start + payload::section_bytes(payload::user_bits(p.cell, shape, u)),
        },
    }
}

// The turn after one whose channel is ch, and whose section ends at `end`. A user's moves on to the next command and the next section. It is
// short, so that the compiler puts it into the loops.
pub fn next(plan: &[u8], turn: Turn, ch: Channel, end: usize) -> Turn
    requires { (p : PlanOf) × Passing plan.now p turn ch end }
    ensures { Follows plan.now turn ch end result }
{
    let Channel::User(_) = ch else {
        return Turn {
            number: turn.number + 1,
            ..turn
        };
    };
    Turn {
        number: turn.number + 1,
        at: plan::next_at(plan, turn.at),
        start: end,
    }
}

// c_init of the reference signals in symbol s. The plan check gives an identity up to 503 and a subframe up to 9.
fn crs_init(cell: Cell, frame: Frame, s: u8) -> u32
    requires { CellIn cell × FrameIn frame × (s < symbols cell) }
    ensures { result ≡ crs_init cell.prefix cell.identity (2 * frame.subframe + slot_of cell s) (in_slot cell s) }
{
    let slot = layout::slot_length(cell) as u8;
    let n = 2 * frame.subframe;
    if s < slot {
        return crs::c_init(cell.prefix, cell.identity, n, s);
    }
    crs::c_init(cell.prefix, cell.identity, n + 1, s - slot)
}

// PCFICH's c_init, and PHICH's.
fn control_init(cell: Cell, frame: Frame) -> u32
    requires { CellIn cell × FrameIn frame }
    ensures { result ≡ control_init cell frame }
{
    let identity = cell.identity as u32;
    (frame.subframe as u32 + 1) * (2 * identity + 1) * 512 + identity
}

// A user's c_init.
fn user_init(cell: Cell, frame: Frame, u: User) -> u32
    requires { CellIn cell × FrameIn frame }
    ensures { result ≡ user_init cell frame u }
{
    (u.rnti as u32) * 16384 + 512 * (frame.subframe as u32) + (cell.identity as u32)
}

// The bit of its sequence at which PBCH starts: a quarter of its codeword for each of four frames.
fn pbch_first(cell: Cell, frame: Frame) -> usize
    ensures { result ≡ pbch_first cell frame }
{
    let quarter = (frame.number % 4) as usize;
    if cell.prefix == 1 {
        432 * quarter
    } else {
        480 * quarter
    }
}

// The c_init of a channel. Callers have the plan from the plan check.
#[tactic(auto, unfolding(crate::specs::Schedule::init_of))]
fn c_init(p: Plan, ch: Channel) -> u32
    requires { CellIn p.cell × FrameIn p.frame × Among p ch }
    ensures { result ≡ init_of p ch }
{
    let cell = p.cell;
    let frame = p.frame;
    match ch {
        Channel::Crs(s) => crs_init(cell, frame, s),
        Channel::Sync(_) => 0,
        Channel::Pbch => cell.identity as u32,
        Channel::Pcfich | Channel::Phich(_) => control_init(cell, frame),
        Channel::User(u) => user_init(cell, frame, u),
    }
}

// The bit of its sequence at which the channel starts. Callers have the plan from the plan check: at most 100 blocks.
#[tactic(auto, unfolding(crate::specs::Schedule::first_bit))]
fn first_bit(p: Plan, ch: Channel) -> usize
    requires { CellIn p.cell }
    ensures { result ≡ first_bit p ch }
{
    let cell = p.cell;
    let frame = p.frame;
    match ch {
        Channel::Crs(_) => 2 * (110 - base::wide(cell.blocks)),
        Channel::Pbch => pbch_first(cell, frame),
        Channel::Sync(_) | Channel::Pcfich | Channel::Phich(_) | Channel::User(_) => 0,
    }
}

// The pair at the start of the channel's bits.
pub fn started(p: Plan, ch: Channel) -> Registers
    requires { CellIn p.cell × FrameIn p.frame × Among p ch }
    ensures { result ≡ pair_at (init_of p ch) (first_bit p ch) }
{
    gold::pair_at(c_init(p, ch), first_bit(p, ch))
}
