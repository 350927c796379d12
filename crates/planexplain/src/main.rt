// planexplain: reads a two-byte plan length and the plan from standard input, prints each command of the plan in words up to the one that is
// refused, and says which field of it is refused and what is allowed there, or which command before has used it. What follows the plan is not
// looked at.
#![tactic(auto)]

mod commands;

use commands::Step;
use plan::{Cause, Cell, Command, Finding, Frame, Hi, Numbered, Refusal, User};
use std::io;

// The commands that start at byte last at the latest. A plan has no more commands than bytes.
fn rows(rt: &impl Print, plan: &[u8], last: usize) -> io::Result<()> {
    let mut at = 0;
    for number in 1..=plan.len() {
        if plan.len() <= at || last < at {
            return Ok(());
        }
        let step = Step::at(plan, at);
        println!(rt; "{number:<4}  byte {at:<4}  {step}")?;
        at = plan::next_at(plan, at);
    }
    Ok(())
}

// The field of a CELL or CELLX that is refused, its value, and what is allowed. The other fields alike.
fn cell_field(rt: &impl Print, cause: Cause, c: Cell) -> io::Result<()> {
    match cause {
        Cause::Identity => print!(rt; ", field identity: {}; 0 to 503", c.identity),
        Cause::Blocks => print!(rt; ", field blocks: {}; 6, 15, 25, 50, 75 or 100", c.blocks),
        Cause::Prefix => print!(rt; ", field prefix: {}; 0 (normal) or 1 (extended)", c.prefix),
        Cause::Ports => print!(rt; ", field ports: {}; 1, 2 or 4", c.ports),
        Cause::Sixths => print!(rt; ", field g: {}; 1, 3, 6 or 12 sixths", c.sixths),
        _ => print!(rt;
            ", field duration: {}; 0 (normal) or 1 (extended)",
            c.duration
        ),
    }
}

fn frame_field(rt: &impl Print, cause: Cause, c: Cell, f: Frame) -> io::Result<()> {
    match cause {
        Cause::FrameNumber => print!(rt; ", field frame: {}; 0 to 1023", f.number),
        Cause::Subframe => print!(rt; ", field subframe: {}; 0 to 9", f.subframe),
        Cause::Cfi => print!(rt; ", field CFI: {}; 1 to 3", f.cfi),
        _ => {
            let symbols = plan::control_symbols(c, f);
            print!(rt;
                ", field CFI: {}; symbols of the control region: {symbols}; the extended PHICH duration needs 3",
                f.cfi
            )
        }
    }
}

fn hi_field(rt: &impl Print, cause: Cause, c: Cell, h: Hi) -> io::Result<()> {
    let Hi { group, sequence } = h;
    match cause {
        Cause::Group => print!(rt; ", field group: {group}; below {}", plan::groups(c)),
        Cause::Sequence => print!(rt;
            ", field sequence: {sequence}; below {}",
            plan::sequences(c)
        ),
        _ => {
            print!(rt;
                ", field group and sequence: {group} and {sequence}; the pair was used before"
            )
        }
    }
}

fn user_field(rt: &impl Print, cause: Cause, c: Cell, u: User) -> io::Result<()> {
    let User {
        rnti,
        order,
        first,
        count,
    } = u;
    match cause {
        Cause::Rnti => print!(rt; ", field RNTI: {rnti}; 1 to 65535"),
        Cause::Modulation => print!(rt; ", field modulation: {order}; 2, 4, 6 or 8"),
        Cause::Count => print!(rt; ", field count: {count}; at least 1"),
        Cause::LastBlock => {
            let sum = u16::from(first) + u16::from(count);
            print!(rt; ", field first block + count: {sum}; at most {}", c.blocks)
        }
        Cause::RntiUsed => print!(rt; ", field RNTI: {rnti}; used before"),
        _ => {
            print!(rt;
                ", field first block and count: {first} and {count}; a block was used before"
            )
        }
    }
}

// The plan's CELL or CELLX stands first.
fn first_cell(plan: &[u8]) -> Cell {
    match plan::command_at(plan, 0) {
        Command::Cellx(c) => c,
        _ => plan::cell_at(plan, 0),
    }
}

// The field of the command at a position.
fn field(rt: &impl Print, plan: &[u8], cause: Cause, at: usize) -> io::Result<()> {
    let first = first_cell(plan);
    match plan::command_at(plan, at) {
        Command::Cell(c) | Command::Cellx(c) => cell_field(rt, cause, c),
        Command::Frame(f) => frame_field(rt, cause, first, f),
        Command::Hi(h) => hi_field(rt, cause, first, h),
        Command::User(u) => user_field(rt, cause, first, u),
        Command::End | Command::Broken => Ok(()),
    }
}

fn because(rt: &impl Print, plan: &[u8], cause: Cause, at: usize) -> io::Result<()> {
    match cause {
        Cause::Unknown => {
            let b = plan::byte_at(plan, at, 0);
            print!(rt; ": {b:02x} is no command; 10, 12, 11, 20, 30 or 00")
        }
        Cause::CutOff => print!(rt; ": the plan ends before the command's operands"),
        Cause::NoEnd => print!(rt; ": the plan ends before END"),
        Cause::OutOfOrder => {
            print!(rt; ": out of order; CELL or CELLX, FRAME, any HIs, any USERs, END")
        }
        Cause::AfterEnd => print!(rt; ": a byte after END; END is the last"),
        _ => field(rt, plan, cause, at),
    }
}

fn refusal_line(rt: &impl Print, refusal: Refusal) -> io::Result<()> {
    let number = u8::from(refusal);
    println!(rt; "refused {number}: {refusal}")
}

fn refused(rt: &impl Print, plan: &[u8], f: Finding) -> io::Result<()> {
    refusal_line(rt, f.refusal)?;
    print!(rt; "command {}, byte {} of the plan", f.command, f.offset)?;
    because(rt, plan, f.cause, f.offset)?;
    if let Some(Numbered { command, offset }) = f.earlier {
        print!(rt; "; clashes with command {command} at byte {offset}")?;
    }
    println!(rt)
}

fn show(rt: &impl Print, plan: &[u8]) -> io::Result<()> {
    match plan::explain(plan) {
        Ok(_) => {
            rows(rt, plan, plan.len())?;
            println!(rt; "accepted")
        }
        Err(f) => {
            rows(rt, plan, f.offset)?;
            refused(rt, plan, f)
        }
    }
}

fn cut_off(rt: &impl Print, n: usize) -> io::Result<()> {
    refusal_line(rt, Refusal::Unreadable)?;
    println!(rt; "the input ends after {n} bytes, before the plan does")
}

// Two length bytes and the longest plan (65,535 bytes) fit.
fn main(rt: HostRuntime) -> io::Result<()> {
    let mut buffer = [0u8; 65537];
    let n = input::read_full(&mut rt.stdin(), &mut buffer)?;
    let input = &buffer[..n];
    let Some(end) = counted::plan_end(input) else {
        return cut_off(&rt, n);
    };
    show(&rt, &input[2..end])
}
