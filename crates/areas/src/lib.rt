// The places of the channels that fill them k first, then s, PBCH and the users (TS 36.211 6.6.4, 6.3.5): rows, half blocks of six subcarriers,
// and the subcarriers of six that have no reference signal.
#![tactic(auto)]

ghost use Rattle.std.specs.Prelude.{◌≡◌, ◌*◌, ◌≤◌, ◌<◌, length};
ghost use Rattle.areas.specs.Areas.{pbch_area, user_area};
ghost use Rattle.areas.specs.Masks.{bit_if, mask_but, Masks};
ghost use Rattle.areas.specs.Tables.{RowMask, RowMasks, ListsOf, row_spans, RowsSet, TablesIn, AreaTables};

use plan::{Cell, Frame, User};
use walk::Tables;

// The places of such a channel by half blocks of six subcarriers: rows `first` to `last` - 1, half blocks `from` to `to` - 1, without
// the reference signals of the ports below `signals` and, if `leaves`, without synchronisation's and PBCH's half blocks.
#[derive(Clone, Copy)]
pub struct Area {
    pub cell: Cell,
    pub frame: Frame,
    pub first: usize,
    pub last: usize,
    pub from: usize,
    pub to: usize,
    pub signals: u8,
    pub leaves: bool,
}

// Spans `first` to `whole` - 1 of a table have all half blocks of an area, and `whole` to `end` - 1 those without the centre's.
#[derive(Clone, Copy)]
struct SpanLists {
    first: usize,
    whole: usize,
    end: usize,
}

// The spans of a row: `first` to `end` - 1.
#[derive(Clone, Copy)]
struct RowSpans {
    first: usize,
    end: usize,
}

// PBCH's places. Every accepted plan has six blocks or more.
pub fn pbch_area(cell: Cell, frame: Frame) -> Area
    requires { 6 ≤ cell.blocks }
    ensures { result ≡ pbch_area cell frame }
{
    let slot = layout::slot_length(cell);
    let blocks = usize::from(cell.blocks);
    Area {
        cell,
        frame,
        first: slot,
        last: slot + 4,
        from: blocks - 6,
        to: blocks + 6,
        signals: 4,
        leaves: false,
    }
}

// A user's places.
pub fn user_area(cell: Cell, frame: Frame, u: User) -> Area
    ensures { result ≡ user_area cell frame u }
{
    let first = usize::from(u.first);
    let count = usize::from(u.count);
    Area {
        cell,
        frame,
        first: plan::control_symbols(cell, frame),
        last: layout::symbols(cell),
        from: 2 * first,
        to: 2 * (first + count),
        signals: cell.ports,
        leaves: true,
    }
}

// Bit v of six, if it is named.
fn bit_if(t: bool, v: usize) -> u8
    requires { v < 6 }
    ensures { result ≡ bit_if t v }
{
    if t { 32 >> (5 - v) } else { 0 }
}

// All six but bit v, if a, and the bit three further, if b.
fn mask_but(v: usize, a: bool, b: bool) -> u8
    requires { v < 6 }
    ensures { result ≡ mask_but v a b }
{
    63 - bit_if(a, v) - bit_if(b, (v + 3) % 6)
}

// The subcarriers of six in symbol s that have no reference signal of the ports below `signals`.
pub fn row_mask(cell: Cell, signals: u8, s: usize) -> u8
    ensures { Masks cell signals s result }
{
    if layout::crs_uses(cell, 0, s) {
        return mask_but(layout::crs_first(cell, 0, s), 0 < signals, 1 < signals);
    }
    if layout::crs_uses(cell, 2, s) {
        return mask_but(layout::crs_first(cell, 2, s), 2 < signals, 3 < signals);
    }
    63
}

// A symbol's mask, with one bit more, 64, where its centre is left out.
fn row_byte(cell: Cell, frame: Frame, signals: u8, leaves: bool, s: usize) -> u8
    requires { s < 14 }
    ensures { RowMask cell frame signals leaves s result }
{
    let mask = row_mask(cell, signals, s);
    if leaves && counts::taken(cell, frame, s) {
        return mask + 64;
    }
    mask
}

// Such a byte for each symbol: the same for all users of a frame, so that it is made once.
pub fn row_masks(cell: Cell, frame: Frame, signals: u8, leaves: bool, masks: &mut [u8; 14])
    requires { length masks.old ≡ 14 }
    ensures { RowMasks cell frame signals leaves 14 masks.new }
{
    for (s, mask) in masks.iter_mut().enumerate() {
        *mask = row_byte(cell, frame, signals, leaves, s);
    }
}

// The spans of the half blocks `from` to `to` - 1, from span n on: whole, and on both sides of the centre's twelve.
fn span_lists(blocks: usize, from: usize, to: usize, n: usize, tables: &mut Tables) -> SpanLists
    requires { (n ≤ 250) × (6 ≤ blocks) × (blocks ≤ 127) × (to ≤ 2 * blocks) }
    ensures { ListsOf blocks from to tables.new.spans result × (result.first ≡ n) }
{
    let whole = tables.put_span(n, from, to);
    let left = tables.put_span(whole, from, to.min(blocks - 6));
    let end = tables.put_span(left, from.max(blocks + 6), to);
    SpanLists {
        first: n,
        whole,
        end,
    }
}

fn row_spans(first: usize, last: usize, lists: SpanLists, s: usize, x: u8) -> RowSpans
    ensures { result ≡ row_spans first last lists s x }
{
    if s < first || last <= s {
        return RowSpans { first: 0, end: 0 };
    }
    if x < 64 {
        return RowSpans {
            first: lists.first,
            end: lists.whole,
        };
    }
    RowSpans {
        first: lists.whole,
        end: lists.end,
    }
}

// The rows of an area of the symbols `first` to `last` - 1: the other symbols have no spans.
fn set_rows(first: usize, last: usize, lists: SpanLists, masks: &[u8; 14], tables: &mut Tables)
    requires { (lists.first ≤ 255) × (lists.whole ≤ 255) × (lists.end ≤ 255) }
    ensures { RowsSet first last lists masks.now 14 tables.new.rows × (tables.new.spans ≡ tables.old.spans) }
{
    tables.put_row(14, 0, 0, 0);
    for (s, x) in masks.iter().enumerate() {
        let r = row_spans(first, last, lists, s, *x);
        tables.put_row(s, *x % 64, r.first, r.end);
    }
}

// The tables of an area, with its symbols' bytes of `row_masks`.
pub fn set_tables(a: Area, masks: &[u8; 14], tables: &mut Tables)
    requires { TablesIn a masks.now }
    ensures { AreaTables a tables.new.rows tables.new.spans }
{
    let blocks = usize::from(a.cell.blocks);
    let lists = span_lists(blocks, a.from, a.to, 0, tables);
    set_rows(a.first, a.last, lists, masks, tables);
}
