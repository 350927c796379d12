// What the programs for engineers share: refusals in words.
#![tactic(auto)]

ghost use Rattle.std.specs.Prelude.{◌≡◌, IfSome};
ghost use Rattle.plan.specs.Check.{refusal_number};

use plan::Refusal;
use std::io;

const REFUSALS: [Refusal; 14] = [
    Refusal::Unreadable,
    Refusal::Order,
    Refusal::CellField,
    Refusal::FrameField,
    Refusal::HiField,
    Refusal::UserField,
    Refusal::Used,
    Refusal::Outside,
    Refusal::NoElement,
    Refusal::GridLength,
    Refusal::PayloadLength,
    Refusal::SpareBit,
    Refusal::NoPayload,
    Refusal::ShortRegion,
];

// The refusal with a number.
fn numbered(number: u8) -> Option<Refusal>
    ensures { IfSome result (λ r. refusal_number r ≡ number) }
{
    for r in REFUSALS {
        if u8::from(r) == number {
            return Some(r);
        }
    }
    None
}

// The sentence for a refusal's number, written to standard output or to another stream.
pub fn meaning(out: &impl Print, number: u8) -> io::Result<()> {
    match numbered(number) {
        Some(r) => print!(out; "{r}"),
        None => print!(out; "no refusal has this number"),
    }
}

// A refusal on standard error, so that standard output stays empty.
pub fn refusal(rt: &impl Eprint, refusal: Refusal) -> io::Result<()> {
    let number = u8::from(refusal);
    eprintln!(rt; "refused {number}: {refusal}")
}

// The same by the refusal's number.
pub fn refused(rt: &impl Eprint, number: u8) -> io::Result<()> {
    match numbered(number) {
        Some(r) => refusal(rt, r),
        None => eprintln!(rt; "refused {number}: no refusal has this number"),
    }
}

// Bytes on standard output; where they cannot all be written, a line on standard error says so.
pub fn output(rt: &(impl Print + Eprint), bytes: &[u8]) -> io::Result<()> {
    if rt.write_all(bytes).is_err() {
        return eprintln!(rt; "standard output is cut off");
    }
    Ok(())
}
