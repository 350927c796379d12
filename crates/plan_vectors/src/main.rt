// Plans and what the check answers: reads them from standard input and prints of each a line `plan K N`, K its number from 1, N 0 for an
// accepted plan, else the refusal's number. After 0 stand the plan's fields, command by command.
#![tactic(auto)]

use plan::{Cell, CommandList, Frame, Plan};
use std::io;

fn cell(rt: &impl Print, c: Cell) -> io::Result<()> {
    print!(rt;
        " cell {} {} {} {} {} {}",
        c.identity, c.blocks, c.prefix, c.ports, c.sixths, c.duration
    )
}

fn frame(rt: &impl Print, f: Frame) -> io::Result<()> {
    print!(rt; " frame {} {} {}", f.number, f.subframe, f.cfi)
}

fn hi(rt: &impl Print, plan: &[u8], at: usize) -> io::Result<()> {
    let h = plan::hi_at(plan, at);
    print!(rt; " hi {} {}", h.group, h.sequence)
}

fn user(rt: &impl Print, plan: &[u8], at: usize) -> io::Result<()> {
    let u = plan::user_at(plan, at);
    print!(rt; " user {} {} {} {}", u.rnti, u.order, u.first, u.count)
}

// Shows each command of a list, by its position in the plan.
fn each<F: Fn(usize) -> io::Result<()>>(plan: &[u8], list: CommandList, show: F) -> io::Result<()>
    requires { F.IsAlwaysCallable show }
{
    let mut at = list.at;
    for _ in 0..list.count {
        show(at)?;
        at = plan::next_at(plan, at);
    }
    Ok(())
}

fn accepted(rt: &impl Print, plan: &[u8], p: Plan) -> io::Result<()> {
    print!(rt; "0")?;
    cell(rt, p.cell)?;
    frame(rt, p.frame)?;
    each(plan, p.his, |at| hi(rt, plan, at))?;
    each(plan, p.users, |at| user(rt, plan, at))
}

// What the check answers of a plan: 0 and its fields, or the refusal's number.
fn verdict(rt: &impl Print, plan: &[u8]) -> io::Result<()> {
    match plan::check(plan) {
        Ok(p) => accepted(rt, plan, p),
        Err(r) => print!(rt; "{}", u8::from(r)),
    }
}

// The record that the bytes start with: the plan's length in four bytes, the plan. Answers with what follows it, none for one that is cut off.
fn record<'a>(rt: &impl Print, number: usize, bytes: &'a [u8]) -> io::Result<Option<&'a [u8]>> {
    let Some((plan, rest)) = records::counted(bytes, 4) else {
        return Ok(None);
    };
    print!(rt; "plan {number} ")?;
    verdict(rt, plan)?;
    println!(rt)?;
    Ok(Some(rest))
}

fn answer(rt: &impl Print, input: &[u8]) -> io::Result<()> {
    records::walk(input, |number, bytes| record(rt, number, bytes))
}

fn main(rt: HostRuntime) -> io::Result<()> {
    let mut buffer = [0u8; 600000];
    let n = input::read_full(&mut rt.stdin(), &mut buffer)?;
    answer(&rt, &buffer[..n])
}
