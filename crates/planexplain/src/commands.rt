// A plan's commands in words. Their types belong to `plan`, a part of the sealed library, so each has its `Display` on a type of this program.

use plan::{Cell, Command};
use std::fmt;

#[derive(Clone, Copy)]
struct Prefix(u8);

impl fmt::Display for Prefix {
    fn fmt<W: fmt::Write>(&self, f: &mut fmt::Formatter<W>) -> fmt::Result {
        match self.0 {
            0 => f.write_str("normal prefix"),
            1 => f.write_str("extended prefix"),
            n => write!(f, "prefix {n}"),
        }
    }
}

#[derive(Clone, Copy)]
struct Ports(u8);

impl fmt::Display for Ports {
    fn fmt<W: fmt::Write>(&self, f: &mut fmt::Formatter<W>) -> fmt::Result {
        match self.0 {
            1 => f.write_str("1 port"),
            n => write!(f, "{n} ports"),
        }
    }
}

// N_g, of which the plan has the sixths.
#[derive(Clone, Copy)]
struct Sixths(u8);

impl fmt::Display for Sixths {
    fn fmt<W: fmt::Write>(&self, f: &mut fmt::Formatter<W>) -> fmt::Result {
        match self.0 {
            3 => f.write_str("1/2"),
            6 => f.write_str("1"),
            12 => f.write_str("2"),
            n => write!(f, "{n}/6"),
        }
    }
}

// What CELL and CELLX have in common.
#[derive(Clone, Copy)]
struct Common(Cell);

impl fmt::Display for Common {
    fn fmt<W: fmt::Write>(&self, f: &mut fmt::Formatter<W>) -> fmt::Result {
        let c = self.0;
        write!(
            f,
            "identity {}, {} blocks, {}, {}, N_g {}",
            c.identity,
            c.blocks,
            Prefix(c.prefix),
            Ports(c.ports),
            Sixths(c.sixths)
        )
    }
}

#[derive(Clone, Copy)]
struct Duration(u8);

impl fmt::Display for Duration {
    fn fmt<W: fmt::Write>(&self, f: &mut fmt::Formatter<W>) -> fmt::Result {
        match self.0 {
            0 => f.write_str("normal PHICH duration"),
            1 => f.write_str("extended PHICH duration"),
            n => write!(f, "PHICH duration {n}"),
        }
    }
}

#[derive(Clone, Copy)]
struct Modulation(u8);

impl fmt::Display for Modulation {
    fn fmt<W: fmt::Write>(&self, f: &mut fmt::Formatter<W>) -> fmt::Result {
        match self.0 {
            2 => f.write_str("QPSK"),
            4 => f.write_str("16QAM"),
            6 => f.write_str("64QAM"),
            8 => f.write_str("256QAM"),
            n => write!(f, "modulation {n}"),
        }
    }
}

// A user's blocks: the first one, and how many.
#[derive(Clone, Copy)]
struct Blocks(u8, u8);

impl fmt::Display for Blocks {
    fn fmt<W: fmt::Write>(&self, f: &mut fmt::Formatter<W>) -> fmt::Result {
        let first = self.0;
        match self.1 {
            0 => write!(f, "no block from {first}"),
            1 => write!(f, "block {first}"),
            n => {
                let last = u16::from(first) + u16::from(n - 1);
                write!(f, "blocks {first} to {last}")
            }
        }
    }
}

// A command byte without its operands, or a byte that is no command.
#[derive(Clone, Copy)]
struct Broken(u8);

impl fmt::Display for Broken {
    fn fmt<W: fmt::Write>(&self, f: &mut fmt::Formatter<W>) -> fmt::Result {
        match self.0 {
            0x10 => f.write_str("CELL   cut off"),
            0x12 => f.write_str("CELLX  cut off"),
            0x11 => f.write_str("FRAME  cut off"),
            0x20 => f.write_str("HI     cut off"),
            0x30 => f.write_str("USER   cut off"),
            b => write!(f, "{b:02x}     no command"),
        }
    }
}

// A command of a plan, and its first byte.
#[derive(Clone, Copy)]
pub struct Step {
    command: Command,
    byte: u8,
}

impl Step {
    pub fn at(plan: &[u8], at: usize) -> Step {
        Step {
            command: plan::command_at(plan, at),
            byte: plan::byte_at(plan, at, 0),
        }
    }
}

impl fmt::Display for Step {
    fn fmt<W: fmt::Write>(&self, f: &mut fmt::Formatter<W>) -> fmt::Result {
        match self.command {
            Command::Cell(c) => write!(f, "CELL   {}", Common(c)),
            Command::Cellx(c) => write!(f, "CELLX  {}, {}", Common(c), Duration(c.duration)),
            Command::Frame(r) => {
                write!(
                    f,
                    "FRAME  frame {}, subframe {}, CFI {}",
                    r.number, r.subframe, r.cfi
                )
            }
            Command::Hi(h) => write!(f, "HI     group {}, sequence {}", h.group, h.sequence),
            Command::User(u) => {
                let blocks = Blocks(u.first, u.count);
                write!(
                    f,
                    "USER   RNTI {}, {}, {blocks}",
                    u.rnti,
                    Modulation(u.order)
                )
            }
            Command::End => f.write_str("END"),
            Command::Broken => Broken(self.byte).fmt(f),
        }
    }
}
