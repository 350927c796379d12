// The payload of a plan (document 01, Plan and payload; Refusals 10 to 12): its sections, its length, and its spare bits.
#![tactic(auto)]

ghost use Rattle.std.specs.Prelude.{◌≡◌, ◌+◌, ◌*◌, ◌≤◌, length, drop, Ok as accepted};
ghost use Rattle.plan.specs.Check.{check_of};
ghost use Rattle.plan.specs.CommandLists.{users_from};
ghost use Rattle.counts.specs.Shape.{count_by, ShapeIn};
ghost use Rattle.payload.specs.Sections.{section_bytes, bytes_of, spare_at, spares_from};
ghost use Rattle.payload.specs.Payload.{pbch_bit_count, heads, payload_length, users_start, grid_length, none_set, spare_clear};
ghost use Rattle.payload.specs.Loops.{computed_sections};

use base::wide;
use counts::{Shape, shape_of, user_count};
use plan::{Cell, Frame, Plan, User, next_at, user_at};

// The bytes of a section, written so that no sum wraps.
pub fn section_bytes(bits: usize) -> usize
    ensures { result ≡ section_bytes bits }
{
    bits / 8 + (bits % 8 + 7) / 8
}

// The bits of the PBCH section, two for each place: 0 where the subframe has none.
pub fn pbch_bits(c: Cell, f: Frame) -> usize
    ensures { result ≡ pbch_bit_count c f }
{
    2 * counts::pbch_count(c, f)
}

// The bits of a user's section. Whoever calls has the shape from shape_of.
pub fn user_bits(c: Cell, shape: Shape, u: User) -> usize
    requires { ShapeIn shape }
    ensures { result ≡ u.order * count_by c shape u }
{
    wide(u.order) * user_count(c, shape, u)
}

// The bytes of a plan's grid.
pub fn grid_length(p: Plan) -> usize
    ensures { result ≡ grid_length p }
{
    let c = p.cell;
    36 * wide(c.blocks) * layout::symbols(c) * wide(c.ports)
}

// The byte at which the first user's section starts.
pub fn users_start(p: Plan) -> usize
    ensures { result ≡ users_start p }
{
    section_bytes(pbch_bits(p.cell, p.frame)) + section_bytes(p.his.count)
}

// The bytes of the users' sections.
fn users_length(plan: &[u8], p: Plan) -> usize
    requires { check_of plan.now ≡ accepted p }
    ensures { result ≡ bytes_of (computed_sections p.cell p.frame (users_from (drop p.users.at plan.now) p.users.count)) }
{
    let shape = shape_of(p.cell, p.frame);
    let mut bytes: usize = 0;
    let mut at = p.users.at;
    'sections: for _ in 0..p.users.count {
        bytes += section_bytes(user_bits(p.cell, shape, user_at(plan, at)));
        at = next_at(plan, at);
    }
    bytes
}

// The bytes of a plan's payload. Whoever calls has p from the plan check.
pub fn payload_length(plan: &[u8], p: Plan) -> usize
    requires { check_of plan.now ≡ accepted p }
    ensures { result ≡ payload_length plan.now p }
{
    users_start(p) + users_length(plan, p)
}

// Whether the spare bits of a section of so many bits are 0. They are the lowest bits of its last byte.
fn section_clear(payload: &[u8], at: usize, bits: usize) -> bool
    requires { at + section_bytes bits ≤ length payload.now }
    ensures { result ≡ none_set payload.now (spare_at at bits) }
{
    let used = bits % 8;
    if used == 0 {
        return true;
    }
    let last = at + bits / 8;
    wide(payload[last]) % (256 >> used) == 0
}

// The same of the sections before the users'.
fn heads_clear(p: Plan, payload: &[u8]) -> bool
    requires { users_start p ≤ length payload.now }
    ensures { result ≡ none_set payload.now (spares_from 0 (heads p)) }
{
    let pbch = pbch_bits(p.cell, p.frame);
    if section_clear(payload, 0, pbch) {
        section_clear(payload, section_bytes(pbch), p.his.count)
    } else {
        false
    }
}

// The same of the users' sections, which stand from byte first on.
fn users_clear(plan: &[u8], p: Plan, payload: &[u8], first: usize) -> bool
    requires { first + bytes_of (computed_sections p.cell p.frame (users_from (drop p.users.at plan.now) p.users.count)) ≤ length payload.now }
    ensures { result ≡ none_set payload.now (spares_from first (computed_sections p.cell p.frame (users_from (drop p.users.at plan.now) p.users.count))) }
{
    let shape = shape_of(p.cell, p.frame);
    let mut byte = first;
    let mut at = p.users.at;
    for _ in 0..p.users.count {
        let bits = user_bits(p.cell, shape, user_at(plan, at));
        if !section_clear(payload, byte, bits) {
            return false;
        }
        byte += section_bytes(bits);
        at = next_at(plan, at);
    }
    true
}

// Whether every spare bit of a payload is 0. Whoever calls has p from the plan check, and has compared the payload's length.
pub fn spare_clear(plan: &[u8], p: Plan, payload: &[u8]) -> bool
    requires { (check_of plan.now ≡ accepted p) × (length payload.now ≡ payload_length plan.now p) }
    ensures { result ≡ spare_clear plan.now p payload.now }
{
    if heads_clear(p, payload) {
        users_clear(plan, p, payload, users_start(p))
    } else {
        false
    }
}
