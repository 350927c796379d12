// What gridpicture and gridtext share: the plan that they read, the owners of places in a row, which owners a plan has, and their names.
#![tactic(auto)]

ghost use Rattle.std.specs.Prelude.{◌≡◌, ◌+◌, ◌≤◌, length, IfOk, IfSome, Ok as accepted};
ghost use Rattle.plan.specs.Check.{check_of};
ghost use Rattle.layout.specs.Owners.{owner_number};
ghost use Rattle.legend.specs.Shown.{shown_at, shown_from, row_after};

use layout::{Mark, Owner};
use plan::{Cell, Plan, Refusal, User};
use std::io;

// The number of owners' numbers: idle's is the last.
pub const NUMBERS: u16 = 514;

// The plan of an input that begins with its length in two bytes: its bytes, and the plan check's answer.
pub fn plan_of(input: &[u8]) -> Result<(&[u8], Plan), Refusal>
    ensures { IfOk result (λ found. check_of found.0.now ≡ accepted found.1) }
{
    let end = counted::plan_end(input).ok_or(Refusal::Unreadable)?;
    let plan = &input[2..end];
    let p = plan::check(plan)?;
    Ok((plan, p))
}

// Symbols of a slot, with the bound that callers count on.
pub fn slot_symbols(cell: Cell) -> usize
    ensures { result ≤ 7 }
{
    layout::slot_length(cell)
}

// The number shown at a place. The caller has the plan from the plan check.
fn number_at(plan: &[u8], p: Plan, s: usize, k: usize) -> u16
    requires { check_of plan.now ≡ accepted p }
    ensures { result ≡ shown_at plan.now s k }
{
    let cell = p.cell;
    // Two tests and not one with `&&`: each way out has its law, and the joined goal wasn't proved.
    if s < layout::symbols(cell) {
        if k < layout::carriers(cell) {
            return u16::from(layout::owner_at(plan, p, s, k));
        }
    }
    513
}

// The numbers shown from subcarrier first on.
fn fill(plan: &[u8], p: Plan, s: usize, first: usize, row: &mut [u16])
    requires { (check_of plan.now ≡ accepted p) × (first + length row.old ≤ 4096) }
    ensures { row.new ≡ shown_from plan.now s first row.old }
{
    for (i, place) in row.iter_mut().enumerate() {
        *place = number_at(plan, p, s, first + i);
    }
}

// The owners' numbers in symbol s from subcarrier first on. The plan is checked once for all places of the row: a check
// of a long plan takes longer than all else.
pub fn owner_row(plan: &[u8], s: usize, first: usize, row: &mut [u16])
    requires { first + length row.old ≤ 4096 }
    ensures { row.new ≡ row_after plan.now s first row.old }
{
    if let Ok(p) = plan::check(plan) {
        fill(plan, p, s, first, row);
    }
}

// The owner with this number.
pub fn owner(n: u16) -> Option<Owner>
    ensures { IfSome result (λ o. n ≡ owner_number o) }
{
    match n {
        0..=15 => Some(Owner::Crs(n as u8)),
        16 => Some(Owner::Sync(Mark::Primary)),
        17 => Some(Owner::Sync(Mark::Secondary)),
        32 => Some(Owner::Pbch),
        33 => Some(Owner::Pcfich),
        64..=255 => Some(Owner::Phich((n - 64) as u8)),
        256..=511 => Some(Owner::User((n - 256) as u8)),
        512 => Some(Owner::Held),
        513 => Some(Owner::Idle),
        _ => None,
    }
}

// Whether a kind of owners has a place.
fn occurs(plan: &[u8], kind: usize) -> bool {
    mapper::count(plan, kind).is_ok_and(|n| 0 < n)
}

// Whether the plan has the owner with this number. Every port's reference signal, PHICH unit and user has places.
pub fn has(plan: &[u8], p: Plan, n: u16) -> bool {
    match owner(n) {
        Some(Owner::Crs(port)) => port < p.cell.ports,
        Some(Owner::Sync(Mark::Primary)) => occurs(plan, 1),
        Some(Owner::Sync(Mark::Secondary)) => occurs(plan, 2),
        Some(Owner::Pbch) => occurs(plan, 3),
        Some(Owner::Pcfich) => occurs(plan, 4),
        Some(Owner::Phich(unit)) => usize::from(unit) < plan::units(p.cell),
        Some(Owner::User(i)) => usize::from(i) < p.users.count,
        Some(Owner::Held) => occurs(plan, 7),
        Some(Owner::Idle) => occurs(plan, 8),
        None => false,
    }
}

// The user that comes i users after the one at a position.
fn user_after(plan: &[u8], first: usize, i: u8) -> User {
    let mut at = first;
    for _ in 0..i {
        at = plan::next_at(plan, at);
    }
    plan::user_at(plan, at)
}

fn modulation(order: u8) -> &'static str {
    match order {
        2 => "QPSK",
        4 => "16QAM",
        6 => "64QAM",
        _ => "256QAM",
    }
}

// Prints the name of the owner with this number.
pub fn name(rt: &impl Print, plan: &[u8], p: Plan, n: u16) -> io::Result<()> {
    match owner(n) {
        Some(Owner::Crs(port)) => print!(rt; "CRS port {port}"),
        Some(Owner::Sync(Mark::Primary)) => print!(rt; "PSS"),
        Some(Owner::Sync(Mark::Secondary)) => print!(rt; "SSS"),
        Some(Owner::Pbch) => print!(rt; "PBCH"),
        Some(Owner::Pcfich) => print!(rt; "PCFICH"),
        Some(Owner::Phich(unit)) => print!(rt; "PHICH unit {unit}"),
        Some(Owner::User(i)) => {
            let u = user_after(plan, p.users.at, i);
            print!(rt; "user {i}, RNTI {}, {}", u.rnti, modulation(u.order))
        }
        Some(Owner::Held) => print!(rt; "held"),
        Some(Owner::Idle) | None => print!(rt; "idle"),
    }
}

// Prints what the plan says of cell and frame, in words.
pub fn title(rt: &impl Print, p: Plan) -> io::Result<()> {
    let Plan { cell, frame, .. } = p;
    let prefix = if cell.prefix == 1 {
        "extended"
    } else {
        "normal"
    };
    let ports = if cell.ports == 1 { "port" } else { "ports" };
    print!(rt;
        "Cell {}, {} blocks, {prefix} prefix, {} {ports}",
        cell.identity, cell.blocks, cell.ports
    )?;
    print!(rt;
        ", frame {}, subframe {}, CFI {}",
        frame.number, frame.subframe, frame.cfi
    )
}
