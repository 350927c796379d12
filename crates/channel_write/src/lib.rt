// A channel written into a grid. Every channel with a sequence is filled through a lent register pair (document 01, Sequence: "The register
// pair is lent to the channel being filled and advanced in place").
#![tactic(auto)]

ghost use Rattle.std.specs.Prelude.{◌≡◌, length};
ghost use Rattle.gold.specs.Steps.{after};
ghost use Rattle.grid.specs.Writing.{Written};
ghost use Rattle.signals.specs.Rows.{MarkIn};
ghost use Rattle.signals.specs.Signals.{mark_sends};
ghost use Rattle.schedule.specs.declared.Channel.TheVariants.{Pcfich};
ghost use Rattle.schedule.specs.Schedule.{start_pair, sends_of, mark_row, mark_sent, sent_of, lent_to};
ghost use Rattle.channel_write.specs.Channels.{bits_used, ChannelIn, SequenceIn};

use gold::Registers;
use layout::Mark;
use plan::Plan;
use schedule::Channel;

// The channel filled with the pair r, and the pair after it. PBCH has masks of its own: it leaves out the reference signals of four ports,
// whatever the cell has. Callers have the plan from the plan check, and have compared the grid's length.
fn filled(
    r: Registers,
    p: Plan,
    ch: Channel,
    t: &[u32; 256],
    masks: &[u8; 14],
    bits: &[u8],
    grid: &mut [u8],
) -> Registers
    requires { SequenceIn p ch t.now masks.now bits.now grid.old }
    ensures { Written (sends_of p ch) (sent_of p bits.now r ch) grid.old grid.new × (result ≡ after r (bits_used p ch)) }
{
    let cell = p.cell;
    let frame = p.frame;
    match ch {
        Channel::Crs(s) => signals_write::fill_crs(r, cell, base::wide(s), grid),
        Channel::Sync(_) => r,
        Channel::Pbch => {
            let mut own: [u8; 14] = [0; 14];
            areas::row_masks(cell, frame, 4, false, &mut own);
            let area = areas::pbch_area(cell, frame);
            data_write::fill_by_tables(r, area, 2, t, &own, bits, grid)
        }
        Channel::Pcfich => control_write::fill_pcfich(r, cell, frame.cfi, grid),
        Channel::Phich(m) => control_write::fill_phich(r, cell, base::wide(m), bits, grid),
        Channel::User(u) => {
            let area = areas::user_area(cell, frame, u);
            data_write::fill_by_tables(r, area, u.order as u32, t, masks, bits, grid)
        }
    }
}

// The pair is lent to the channel being filled and advanced in place, by the bits that the channel uses.
pub fn fill(
    r: &mut Registers,
    p: Plan,
    ch: Channel,
    t: &[u32; 256],
    masks: &[u8; 14],
    bits: &[u8],
    grid: &mut [u8],
)
    requires { SequenceIn p ch t.now masks.now bits.now grid.old }
    ensures { Written (sends_of p ch) (sent_of p bits.now r.old ch) grid.old grid.new × (r.new ≡ after r.old (bits_used p ch)) }
{
    let was = *r;
    *r = filled(was, p, ch, t, masks, bits, grid);
}

// The channel filled, from the pair at the start of its bits, by a pair of its own that it lends.
fn map(
    start: Registers,
    p: Plan,
    ch: Channel,
    t: &[u32; 256],
    masks: &[u8; 14],
    bits: &[u8],
    grid: &mut [u8],
)
    requires { SequenceIn p ch t.now masks.now bits.now grid.old }
    ensures { Written (sends_of p ch) (sent_of p bits.now start ch) grid.old grid.new }
{
    let mut r = start;
    fill(&mut r, p, ch, t, masks, bits, grid);
}

// A synchronisation mark.
fn write_mark(p: Plan, m: Mark, grid: &mut [u8])
    requires { MarkIn p.cell grid.old }
    ensures { Written (mark_sends p.cell (mark_row m)) (mark_sent p m) grid.old grid.new }
{
    match m {
        Mark::Primary => signals_write::fill_pss(p.cell, grid),
        Mark::Secondary => signals_write::fill_sss(p.cell, p.frame, grid),
    }
}

// A channel that the subframe has: a mark, a PHICH unit with its part of all units' sums, or another one with its section's bits. `control` is
// the pair at the start of PCFICH's bits, which is every PHICH unit's too, so that it is made once for all.
pub fn write(
    control: Registers,
    p: Plan,
    ch: Channel,
    t: &[u32; 256],
    masks: &[u8; 14],
    sums: &[u8],
    bits: &[u8],
    grid: &mut [u8],
)
    requires { ChannelIn p ch t.now masks.now (lent_to ch sums.now bits.now) grid.old × (length sums.now ≡ 200) × (control ≡ start_pair p Pcfich) }
    ensures { Written (sends_of p ch) (sent_of p (lent_to ch sums.now bits.now) (start_pair p ch) ch) grid.old grid.new }
{
    match ch {
        Channel::Sync(m) => write_mark(p, m, grid),
        Channel::Pcfich => map(control, p, ch, t, masks, bits, grid),
        Channel::Phich(m) => {
            let from = 8 * base::wide(m);
            let to = from + 8;
            map(control, p, ch, t, masks, &sums[from..to], grid);
        }
        _ => map(schedule::started(p, ch), p, ch, t, masks, bits, grid),
    }
}
