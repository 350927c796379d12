// The plan check (document 01, Plan and payload; Refusals 1 to 7; document 02, #108, 18): reads a plan's commands from left to right and answers
// with the plan, or with the first fault: which command, at which byte of the plan, the first of its fields that has the fault,
// and so the refusal; and the command before that it clashes with.
#![tactic(auto)]

ghost use Rattle.std.specs.Prelude.{◌≡◌, ◌+◌, ◌*◌, ◌≤◌, ◌<◌, List, length, drop};
ghost use Rattle.plan.specs.Lists.{one_of};
ghost use Rattle.plan.specs.Commands.{byte, cell_with, cell_of, cellx_of, frame_of, hi_of, user_of, entry_for, command_of};
ghost use Rattle.plan.specs.Fields.{mapping_units, phich_groups, sequences_of, same_pair, control_symbols, phich_fits, group_size, symbol_groups, region_groups};
ghost use Rattle.plan.specs.Check.{refusal_number, check_of, refusal_of};
ghost use Rattle.plan.specs.CommandLists.{next_of};
ghost use Rattle.plan.specs.Valid.{CellIn, FrameIn};
ghost use Rattle.plan.specs.Finding.{cause_refusal, demand as demand_of, cell_cause, frame_cause, hi_cause, user_cause, found_at, walk_of};
ghost use Rattle.plan.specs.Finding.{same_rnti, shares_block, shared_by, in_common, earlier_of, finding_at, finding_of};
ghost use Rattle.plan.specs.Loops.{broken_for, late_cause, celled, cell_rest, rest_from, body_rest, plan_rest, stands_at, pair_of, blocks_of, PairsUsed, UsersUsed, HisPast, HisRead, EndDue};

use std::fmt;

// 10 CELL: the identity C, the width in blocks N, the prefix (1 extended), the antenna ports P, and N_g in sixths. 12 CELLX has also PHICH's
// duration (1 extended); that of CELL is normal. A field holds the plan's byte, whatever it is: 3 refuses it
// later. So prefix and duration are numbers, and no enums.
#[derive(Clone, Copy)]
pub struct Cell {
    pub identity: u16,
    pub blocks: u8,
    pub prefix: u8,
    pub ports: u8,
    pub sixths: u8,
    pub duration: u8,
}

// 11 FRAME.
#[derive(Clone, Copy)]
pub struct Frame {
    pub number: u16,
    pub subframe: u8,
    pub cfi: u8,
}

// 20 HI: an acknowledgement's place in the PHICH.
#[derive(Clone, Copy, PartialEq, Eq)]
pub struct Hi {
    pub group: u8,
    pub sequence: u8,
}

// 30 USER: order is the modulation's Q, the bits of a symbol.
#[derive(Clone, Copy)]
pub struct User {
    pub rnti: u16,
    pub order: u8,
    pub first: u8,
    pub count: u8,
}

// A command with its operands. Broken: an unknown command, or the plan ends before its operands.
#[derive(Clone, Copy)]
pub enum Command {
    Cell(Cell),
    Cellx(Cell),
    Frame(Frame),
    Hi(Hi),
    User(User),
    End,
    Broken,
}

// The plan check's refusals 1 to 7, in their order, those of the calls above it, 8 to 13, and the plan check's 18: a control region too
// short for the extended PHICH duration.
#[derive(Clone, Copy)]
pub enum Refusal {
    Unreadable,
    Order,
    CellField,
    FrameField,
    HiField,
    UserField,
    Used,
    Outside,
    NoElement,
    GridLength,
    PayloadLength,
    SpareBit,
    NoPayload,
    ShortRegion,
}

// Commands of one kind in a row: the first one's position in the plan, and how many.
#[derive(Clone, Copy)]
pub struct CommandList {
    pub at: usize,
    pub count: usize,
}

#[derive(Clone, Copy)]
pub struct Plan {
    pub cell: Cell,
    pub frame: Frame,
    pub his: CommandList,
    pub users: CommandList,
}

// The first reason for which a command is refused, in the order of its fields.
#[derive(Clone, Copy)]
pub enum Cause {
    // Refusal 1: a byte that is no command; the plan ends before a command's operands; the plan ends before END.
    Unknown,
    CutOff,
    NoEnd,
    // Refusal 2.
    OutOfOrder,
    AfterEnd,
    // Refusal 3.
    Identity,
    Blocks,
    Prefix,
    Ports,
    Sixths,
    Duration,
    // Refusal 4.
    FrameNumber,
    Subframe,
    Cfi,
    // Refusal 18.
    Region,
    // Refusal 5.
    Group,
    Sequence,
    PairUsed,
    // Refusal 6. LastBlock: first + count is beyond the cell's blocks.
    Rnti,
    Modulation,
    Count,
    LastBlock,
    // Refusal 7.
    RntiUsed,
    BlockUsed,
}

// Where the walk over the commands stops, and why. The command is counted from 1. The offset is the position of its command byte in the plan,
// from 0; that of a missing END is the plan's length.
#[derive(Clone, Copy)]
struct Stop {
    command: usize,
    offset: usize,
    cause: Cause,
}

// What a command has in common with one before it.
#[derive(Clone, Copy)]
enum Shared {
    Nothing,
    Pair,
    Rnti,
    Block,
}

// A command of the plan by its number, counted from 1, and the position of its command byte.
#[derive(Clone, Copy)]
pub struct Numbered {
    pub command: usize,
    pub offset: usize,
}

// Why a plan is refused: the command's number and offset as in Stop; earlier: of PairUsed, RntiUsed and BlockUsed the first command that has the
// pair, the RNTI or one of the blocks.
#[derive(Clone, Copy)]
pub struct Finding {
    pub refusal: Refusal,
    pub command: usize,
    pub offset: usize,
    pub cause: Cause,
    pub earlier: Option<Numbered>,
}

// The values of a cell's blocks, ports and sixths, and of a user's order.
const WIDTHS: [u8; 6] = [6, 15, 25, 50, 75, 100];

const PORT_COUNTS: [u8; 3] = [1, 2, 4];

const SIXTH_COUNTS: [u8; 4] = [1, 3, 6, 12];

const ORDERS: [u8; 4] = [2, 4, 6, 8];

const COMMAND_BYTES: [u8; 6] = [0x10, 0x12, 0x11, 0x20, 0x30, 0x00];

// The refusal's number in documents 01 and 02.
impl From<Refusal> for u8 {
    ghost from_gives = { λ r n. n ≡ refusal_number r };

    fn from(r: Refusal) -> u8 {
        match r {
            Refusal::Unreadable => 1,
            Refusal::Order => 2,
            Refusal::CellField => 3,
            Refusal::FrameField => 4,
            Refusal::HiField => 5,
            Refusal::UserField => 6,
            Refusal::Used => 7,
            Refusal::Outside => 8,
            Refusal::NoElement => 9,
            Refusal::GridLength => 10,
            Refusal::PayloadLength => 11,
            Refusal::SpareBit => 12,
            Refusal::NoPayload => 13,
            Refusal::ShortRegion => 18,
        }
    }
}

// What a refusal means (document 01, Refusals; document 02, #108).
impl fmt::Display for Refusal {
    fn fmt<W: fmt::Write>(&self, f: &mut fmt::Formatter<W>) -> fmt::Result {
        f.write_str(match self {
            Refusal::Unreadable => "a command is unknown, or the plan ends too early",
            Refusal::Order => "a command is out of order, or a byte follows END",
            Refusal::CellField => "a field of CELL or CELLX is not allowed",
            Refusal::FrameField => "a field of FRAME is not allowed",
            Refusal::HiField =>
                "an HI's group or sequence is beyond the count, or the pair was used before",
            Refusal::UserField => "a field of USER is not allowed",
            Refusal::Used => "an RNTI or a block was used before",
            Refusal::Outside => "the subcarrier, symbol or port is outside the grid",
            Refusal::NoElement => "the three bytes are no element",
            Refusal::GridLength => "the grid's length is not the plan's",
            Refusal::PayloadLength => "the payload's length is not the plan's",
            Refusal::SpareBit => "a spare bit of the payload is set",
            Refusal::NoPayload => "no payload makes this grid",
            Refusal::ShortRegion =>
                "the control region is shorter than the three symbols of the extended PHICH duration",
        })
    }
}

// The refusal that a cause belongs to.
impl From<Cause> for Refusal {
    ghost from_gives = { λ c r. r ≡ cause_refusal c };

    fn from(c: Cause) -> Refusal {
        match c {
            Cause::Unknown | Cause::CutOff | Cause::NoEnd => Refusal::Unreadable,
            Cause::OutOfOrder | Cause::AfterEnd => Refusal::Order,
            Cause::Identity
            | Cause::Blocks
            | Cause::Prefix
            | Cause::Ports
            | Cause::Sixths
            | Cause::Duration => Refusal::CellField,
            Cause::FrameNumber | Cause::Subframe | Cause::Cfi => Refusal::FrameField,
            Cause::Region => Refusal::ShortRegion,
            Cause::Group | Cause::Sequence | Cause::PairUsed => Refusal::HiField,
            Cause::Rnti | Cause::Modulation | Cause::Count | Cause::LastBlock => Refusal::UserField,
            Cause::RntiUsed | Cause::BlockUsed => Refusal::Used,
        }
    }
}

// Command number n, at position at, is refused for the cause.
fn found(n: usize, at: usize, cause: Cause) -> Stop
    ensures { result ≡ found_at n at cause }
{
    Stop {
        command: n,
        offset: at,
        cause,
    }
}

fn word(upper: u8, lower: u8) -> u16
    ensures { result ≡ upper * 256 + lower }
{
    (upper as u16) * 256 + (lower as u16)
}

// Byte i from a position on, 0 past the plan's end.
pub fn byte_at(plan: &[u8], at: usize, i: usize) -> u8
    ensures { result ≡ byte (drop at plan.now) i }
{
    if plan.len() <= at {
        return 0;
    }
    if plan.len() - at <= i {
        return 0;
    }
    plan[at + i]
}

// What CELL and CELLX have in common at a position, with a PHICH duration.
fn cell_with(plan: &[u8], at: usize, duration: u8) -> Cell
    ensures { result ≡ cell_with duration (drop at plan.now) }
{
    Cell {
        identity: word(byte_at(plan, at, 1), byte_at(plan, at, 2)),
        blocks: byte_at(plan, at, 3),
        prefix: byte_at(plan, at, 4),
        ports: byte_at(plan, at, 5),
        sixths: byte_at(plan, at, 6),
        duration,
    }
}

// The CELL at a position.
pub fn cell_at(plan: &[u8], at: usize) -> Cell
    ensures { result ≡ cell_of (drop at plan.now) }
{
    cell_with(plan, at, 0)
}

// The CELLX at a position.
fn cellx_at(plan: &[u8], at: usize) -> Cell
    ensures { result ≡ cellx_of (drop at plan.now) }
{
    cell_with(plan, at, byte_at(plan, at, 7))
}

fn frame_at(plan: &[u8], at: usize) -> Frame
    ensures { result ≡ frame_of (drop at plan.now) }
{
    Frame {
        number: word(byte_at(plan, at, 1), byte_at(plan, at, 2)),
        subframe: byte_at(plan, at, 3),
        cfi: byte_at(plan, at, 4),
    }
}

// The HI at a position.
pub fn hi_at(plan: &[u8], at: usize) -> Hi
    ensures { result ≡ hi_of (drop at plan.now) }
{
    Hi {
        group: byte_at(plan, at, 1),
        sequence: byte_at(plan, at, 2),
    }
}

// The USER at a position.
pub fn user_at(plan: &[u8], at: usize) -> User
    ensures { result ≡ user_of (drop at plan.now) }
{
    User {
        rnti: word(byte_at(plan, at, 1), byte_at(plan, at, 2)),
        order: byte_at(plan, at, 3),
        first: byte_at(plan, at, 4),
        count: byte_at(plan, at, 5),
    }
}

// The size of the command with the byte b, which is its first.
fn size_of(b: u8) -> usize
    ensures { result ≡ (entry_for b).size }
{
    match b {
        0x10 => 7,
        0x12 => 8,
        0x11 => 5,
        0x20 => 3,
        0x30 => 6,
        _ => 1,
    }
}

// The position after the command at a position, at most the plan's end: how a caller goes from one HI or USER to the next.
pub fn next_at(plan: &[u8], at: usize) -> usize
    ensures { result ≡ next_of plan.now at }
{
    let size = size_of(byte_at(plan, at, 0));
    if plan.len() < size {
        return plan.len();
    }
    if plan.len() - size < at {
        return plan.len();
    }
    at + size
}

// The command at a position, Broken past the end.
pub fn command_at(plan: &[u8], at: usize) -> Command
    ensures { result ≡ command_of (drop at plan.now) }
{
    if plan.len() <= at {
        return Command::Broken;
    }
    let b = byte_at(plan, at, 0);
    if plan.len() - at < size_of(b) {
        return Command::Broken;
    }
    match b {
        0x10 => Command::Cell(cell_at(plan, at)),
        0x12 => Command::Cellx(cellx_at(plan, at)),
        0x11 => Command::Frame(frame_at(plan, at)),
        0x20 => Command::Hi(hi_at(plan, at)),
        0x30 => Command::User(user_at(plan, at)),
        0 => Command::End,
        _ => Command::Broken,
    }
}

// Whether n is one of the list.
fn one_of(n: u8, list: &[u8]) -> bool
    ensures { result ≡ one_of n list.now }
{
    list.contains(&n)
}

// The cause unless the test holds.
fn demand(test: bool, cause: Cause) -> Result<(), Cause>
    ensures { result ≡ demand_of test cause (Ok tt) }
{
    if test { Ok(()) } else { Err(cause) }
}

// The first cause of a CELL or CELLX.
#[tactic(auto, unfolding(crate::specs::Finding::cell_cause))]
fn cell_cause(c: Cell) -> Result<(), Cause>
    ensures { result ≡ cell_cause c }
{
    demand(c.identity <= 503, Cause::Identity)?;
    demand(one_of(c.blocks, &WIDTHS), Cause::Blocks)?;
    demand(c.prefix <= 1, Cause::Prefix)?;
    demand(one_of(c.ports, &PORT_COUNTS), Cause::Ports)?;
    demand(one_of(c.sixths, &SIXTH_COUNTS), Cause::Sixths)?;
    demand(c.duration <= 1, Cause::Duration)
}

// The number of symbols of the control region, one more than the CFI where the cell has six blocks.
pub fn control_symbols(cell: Cell, frame: Frame) -> usize
    ensures { result ≡ control_symbols cell frame }
{
    let cfi = frame.cfi as usize;
    if cell.blocks == 6 { cfi + 1 } else { cfi }
}

// Whether the control region has the symbols of the PHICH: three with the extended duration.
fn phich_fits(c: Cell, f: Frame) -> bool
    ensures { result ≡ phich_fits c f }
{
    if c.duration == 1 {
        3 <= control_symbols(c, f)
    } else {
        true
    }
}

// The first cause of a FRAME after the cell.
#[tactic(auto, unfolding(crate::specs::Finding::frame_cause))]
fn frame_cause(c: Cell, f: Frame) -> Result<(), Cause>
    ensures { result ≡ frame_cause c f }
{
    demand(f.number <= 1023, Cause::FrameNumber)?;
    demand(f.subframe <= 9, Cause::Subframe)?;
    demand((1 <= f.cfi) & (f.cfi <= 3), Cause::Cfi)?;
    demand(phich_fits(c, f), Cause::Region)
}

// The command at a position cannot be read.
fn broken_cause(plan: &[u8], at: usize) -> Cause
    ensures { result ≡ broken_for (drop at plan.now) }
{
    if one_of(byte_at(plan, at, 0), &COMMAND_BYTES) {
        Cause::CutOff
    } else {
        Cause::Unknown
    }
}

// The number of PHICH units of a cell.
pub fn units(c: Cell) -> usize
    ensures { result ≡ mapping_units c }
{
    ((c.sixths as usize) * (c.blocks as usize) + 47) / 48
}

// The number of PHICH groups of a cell.
pub fn groups(c: Cell) -> usize
    ensures { result ≡ phich_groups c }
{
    if c.prefix == 1 {
        2 * units(c)
    } else {
        units(c)
    }
}

// The number of sequences in a PHICH group.
pub fn sequences(c: Cell) -> u8
    ensures { result ≡ sequences_of c }
{
    if c.prefix == 1 { 4 } else { 8 }
}

// The subcarriers of a group of control symbol s.
pub fn group_size(cell: Cell, s: usize) -> usize
    requires { s < 4 }
    ensures { result ≡ group_size cell s }
{
    if s == 0 {
        return 6;
    }
    if s == 1 {
        return if cell.ports == 4 { 6 } else { 4 };
    }
    if s == 3 {
        return if cell.prefix == 1 { 6 } else { 4 };
    }
    4
}

// The groups of control symbol s, of six subcarriers or of four: two or three a block.
fn symbol_groups(cell: Cell, s: usize) -> usize
    requires { s < 4 }
    ensures { (result ≡ symbol_groups cell s) × (result ≤ 3 * cell.blocks) }
{
    let blocks = cell.blocks as usize;
    if group_size(cell, s) == 4 {
        3 * blocks
    } else {
        2 * blocks
    }
}

// The groups of the control region that PCFICH, with four, and the PHICH units, with three each, leave.
pub fn region_groups(cell: Cell, frame: Frame) -> usize
    requires { CellIn cell × FrameIn frame }
    ensures { (result ≡ region_groups cell frame) × (result < 1024) }
{
    let symbols = control_symbols(cell, frame);
    let mut all: usize = 0;
    for s in 0..symbols {
        all = all + symbol_groups(cell, s);
    }
    all - 4 - 3 * units(cell)
}

// Whether an RNTI is in a table, with no early exit, so that several places are looked at together.
fn has_rnti(table: &[u16], rnti: u16) -> bool
    ensures { result ≡ one_of rnti table.now }
{
    let mut found = false;
    for x in table {
        found |= rnti == *x;
    }
    found
}

// Whether the command with the byte code stands whole at a position.
fn stands(plan: &[u8], at: usize, code: u8) -> bool
    requires { at ≤ length plan.now }
    ensures { result ≡ stands_at code (drop at plan.now) }
{
    (size_of(code) <= plan.len() - at) & (byte_at(plan, at, 0) == code)
}

// An HI's pair as one number.
fn pair_of(h: Hi) -> usize
    ensures { result ≡ pair_of h }
{
    (h.group as usize) * 8 + (h.sequence as usize)
}

// The first cause of an HI after HIs that have the pairs.
fn hi_cause(cell: Cell, pairs: &[u64; 7], h: Hi) -> Result<(), Cause>
    requires { CellIn cell }
    ensures { (hs : List Hi) → PairsUsed cell pairs.now hs → result ≡ hi_cause cell hs h }
{
    demand((h.group as usize) < groups(cell), Cause::Group)?;
    demand(h.sequence < sequences(cell), Cause::Sequence)?;
    demand(!bitset::has(pairs, pair_of(h)), Cause::PairUsed)
}

// The HIs from position start on: how many, or the first fault.
fn his_from(plan: &[u8], cell: Cell, start: usize) -> Result<usize, Stop>
    requires { (start ≤ length plan.now) × CellIn cell }
    ensures { HisRead plan.now cell start result }
{
    let mut pairs = [0u64; 7];
    let mut count: usize = 0;
    let mut at = start;
    // The commands tell how many there are and where the next one stands: no count to go over.
    while stands(plan, at, 0x20) {
        let h = hi_at(plan, at);
        match hi_cause(cell, &pairs, h) {
            Ok(()) => {
                bitset::add(&mut pairs, pair_of(h));
                count += 1;
                at = next_at(plan, at);
            }
            Err(cause) => return Err(found(count + 3, at, cause)),
        }
    }
    Ok(count)
}

// A user's blocks as a set.
fn blocks_of(u: User) -> [u64; 2]
    ensures { result ≡ blocks_of u }
{
    bitset::run_of(u.first, u.count)
}

// The first cause of a USER after USERs that have the RNTIs and the blocks.
fn user_cause(cell: Cell, rntis: &[u16; 104], blocks: &[u64; 2], u: User) -> Result<(), Cause>
    ensures { (us : List User) → UsersUsed cell rntis.now blocks.now us → result ≡ user_cause cell us u }
{
    let end = (u.first as usize) + (u.count as usize);
    demand(1 <= u.rnti, Cause::Rnti)?;
    demand(one_of(u.order, &ORDERS), Cause::Modulation)?;
    demand(1 <= u.count, Cause::Count)?;
    demand(end <= cell.blocks as usize, Cause::LastBlock)?;
    demand(!has_rnti(rntis, u.rnti), Cause::RntiUsed)?;
    demand(!bitset::meets(blocks, &blocks_of(u)), Cause::BlockUsed)
}

// The cause of a command that is not due, at a position before END: it is missing, cannot be read or is out of order.
fn late_cause(plan: &[u8], at: usize) -> Cause
    ensures { result ≡ late_cause (drop at plan.now) }
{
    if plan.len() <= at {
        return Cause::NoEnd;
    }
    match command_at(plan, at) {
        Command::Broken => broken_cause(plan, at),
        _ => Cause::OutOfOrder,
    }
}

// After the HIs and the USERs of p: END is due at position at, and nothing after it.
fn finish(plan: &[u8], p: Plan, at: usize) -> Result<Plan, Stop>
    requires { EndDue plan.now p at }
    ensures { result ≡ plan_rest plan.now p at }
{
    let number = p.his.count + p.users.count + 3;
    match command_at(plan, at) {
        Command::End => {
            if at + 1 < plan.len() {
                return Err(found(number + 1, at + 1, Cause::AfterEnd));
            }
            Ok(p)
        }
        _ => Err(found(number, at, late_cause(plan, at))),
    }
}

// The commands after his HIs from position start on: USERs and END.
fn users_from(plan: &[u8], cell: Cell, frame: Frame, start: usize, his: usize) -> Result<Plan, Stop>
    requires { (HisPast plan.now start his (start + 3 * his)) × CellIn cell }
    ensures { result ≡ body_rest plan.now cell frame start his (start + 3 * his) 0 (start + 3 * his) }
{
    let mid = start + 3 * his;
    let mut rntis = [0u16; 104];
    let mut blocks = [0u64; 2];
    let mut users: usize = 0;
    let mut at = mid;
    // As with the HIs: the commands tell.
    while stands(plan, at, 0x30) {
        let u = user_at(plan, at);
        match user_cause(cell, &rntis, &blocks, u) {
            Ok(()) => {
                rntis[users] = u.rnti;
                blocks = bitset::join(&blocks, &blocks_of(u));
                users += 1;
                at = next_at(plan, at);
            }
            Err(cause) => return Err(found(his + users + 3, at, cause)),
        }
    }
    let p = Plan {
        cell,
        frame,
        his: CommandList {
            at: start,
            count: his,
        },
        users: CommandList {
            at: mid,
            count: users,
        },
    };
    finish(plan, p, at)
}

// The commands after FRAME: HIs, USERs and END, from position start on.
fn body(plan: &[u8], cell: Cell, frame: Frame, start: usize) -> Result<Plan, Stop>
    requires { (start ≤ length plan.now) × CellIn cell }
    ensures { result ≡ body_rest plan.now cell frame start 0 start 0 start }
{
    let his = his_from(plan, cell, start)?;
    users_from(plan, cell, frame, start, his)
}

// The commands after CELL or CELLX, from position at on.
fn after_cell(plan: &[u8], c: Cell, at: usize) -> Result<Plan, Stop>
    requires { CellIn c }
    ensures { result ≡ rest_from plan.now (celled c at) 2 at }
{
    match command_at(plan, at) {
        Command::Frame(f) => match frame_cause(c, f) {
            Ok(()) => body(plan, c, f, at + 5),
            Err(cause) => Err(found(2, at, cause)),
        },
        _ => Err(found(2, at, late_cause(plan, at))),
    }
}

// The plan whose first command is the cell c, with the next one at position at.
fn cell_then(plan: &[u8], c: Cell, at: usize) -> Result<Plan, Stop>
    ensures { result ≡ cell_rest plan.now c at }
{
    match cell_cause(c) {
        Ok(()) => after_cell(plan, c, at),
        Err(cause) => Err(found(1, 0, cause)),
    }
}

// The plan, or the first command that has a fault and the first cause of it.
fn walk(plan: &[u8]) -> Result<Plan, Stop>
    ensures { result ≡ walk_of plan.now }
{
    match command_at(plan, 0) {
        Command::Cell(c) => cell_then(plan, c, 7),
        Command::Cellx(c) => cell_then(plan, c, 8),
        _ => Err(found(1, 0, late_cause(plan, 0))),
    }
}

// The plan check: the refusal alone.
pub fn check(plan: &[u8]) -> Result<Plan, Refusal>
    ensures { result ≡ check_of plan.now }
{
    match walk(plan) {
        Ok(p) => Ok(p),
        Err(s) => Err(Refusal::from(s.cause)),
    }
}

// The refusal of a check that has no plan; nobody asks for that of a plan.
pub fn refusal_in(checked: Result<Plan, Refusal>) -> Refusal
    ensures { result ≡ refusal_of checked }
{
    match checked {
        Ok(_) => Refusal::Unreadable,
        Err(r) => r,
    }
}

// What a cause says that the command has in common with one before it.
fn shared_by(c: Cause) -> Shared
    ensures { result ≡ shared_by c }
{
    match c {
        Cause::PairUsed => Shared::Pair,
        Cause::RntiUsed => Shared::Rnti,
        Cause::BlockUsed => Shared::Block,
        _ => Shared::Nothing,
    }
}

#[tactic(auto, unfolding(crate::specs::Fields::same_pair))]
fn same_pair(h: Hi, e: Hi) -> bool
    ensures { result ≡ same_pair h e }
{
    h == e
}

fn same_rnti(u: User, v: User) -> bool
    ensures { result ≡ same_rnti u v }
{
    u.rnti == v.rnti
}

fn shares_block(u: User, v: User) -> bool
    ensures { result ≡ shares_block u v }
{
    let u_end = (u.first as usize) + (u.count as usize);
    let v_end = (v.first as usize) + (v.count as usize);
    ((u.first as usize) < v_end) & ((v.first as usize) < u_end)
}

// Whether the commands at two positions have it in common.
fn in_common(plan: &[u8], s: Shared, at: usize, before: usize) -> bool
    ensures { result ≡ in_common s (drop at plan.now) (drop before plan.now) }
{
    match s {
        Shared::Nothing => false,
        Shared::Pair => same_pair(hi_at(plan, at), hi_at(plan, before)),
        Shared::Rnti => same_rnti(user_at(plan, at), user_at(plan, before)),
        Shared::Block => shares_block(user_at(plan, at), user_at(plan, before)),
    }
}

// The first command before number n, at position at, that is of its kind and has it in common.
fn earlier_of(plan: &[u8], n: usize, at: usize, s: Shared) -> Option<Numbered>
    ensures { result ≡ earlier_of plan.now n at s }
{
    if let Shared::Nothing = s {
        return None;
    }
    let code = byte_at(plan, at, 0);
    let mut before: usize = 0;
    for number in 1..n {
        if (byte_at(plan, before, 0) == code) & in_common(plan, s, at, before) {
            return Some(Numbered {
                command: number,
                offset: before,
            });
        }
        before = next_at(plan, before);
    }
    None
}

fn finding_at(plan: &[u8], s: Stop) -> Finding
    ensures { result ≡ finding_at plan.now s }
{
    let cause = s.cause;
    Finding {
        refusal: Refusal::from(cause),
        command: s.command,
        offset: s.offset,
        cause,
        earlier: earlier_of(plan, s.command, s.offset, shared_by(cause)),
    }
}

// The plan, or why it is refused. The earlier command is looked for here alone, so that the plan check does not wait for it.
pub fn explain(plan: &[u8]) -> Result<Plan, Finding>
    ensures { result ≡ finding_of plan.now }
{
    match walk(plan) {
        Ok(p) => Ok(p),
        Err(s) => Err(finding_at(plan, s)),
    }
}
