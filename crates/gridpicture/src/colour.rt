// The colour of each owner, as the number 0xrrggbb.
ghost use Rattle.std.specs.Prelude.{◌≤◌};

use layout::{Mark, Owner};

// A part of a pure hue, from 0 to 255, taken into a narrower range: 0 to 3 are the users' ranges, 4 to 6 those of PHICH units.
fn part(v: u32, range: u32) -> u32
    requires { v ≤ 255 }
    ensures { result ≤ 255 }
{
    match range {
        0 => 140 + v * 110 / 255,
        1 => 120 + v * 80 / 255,
        2 => 165 + v * 90 / 255,
        3 => 95 + v * 95 / 255,
        4 => 80 + v * 120 / 255,
        5 => 70 + v * 100 / 255,
        _ => 30 + v * 220 / 255,
    }
}

fn mixed(red: u32, green: u32, blue: u32, range: u32) -> u32
    requires { (red ≤ 255) × (green ≤ 255) × (blue ≤ 255) }
{
    part(red, range) * 65536 + part(green, range) * 256 + part(blue, range)
}

// The hue at h of 1536 on the circle from red by yellow, green, cyan, blue and magenta.
fn of_hue(h: u32, range: u32) -> u32 {
    let x = h % 256;
    match h / 256 {
        0 => mixed(255, x, 0, range),
        1 => mixed(255 - x, 255, 0, range),
        2 => mixed(0, 255, x, range),
        3 => mixed(0, 255 - x, 255, range),
        4 => mixed(x, 0, 255, range),
        _ => mixed(255, 0, 255 - x, range),
    }
}

fn of_port(port: u8) -> u32 {
    match port {
        0 => 0xd00000,
        1 => 0x0000b0,
        2 => 0x005000,
        3 => 0x780098,
        _ => 0x000000,
    }
}

// The colour of the owner with a number. Signals have dark or pure colours, which neither units nor users have. Hues of neighbours lie far
// apart (599 of 1536 is near the golden angle), and their ranges differ.
pub fn of_owner(n: u16) -> u32 {
    match legend::owner(n) {
        Some(Owner::Crs(port)) => of_port(port),
        Some(Owner::Sync(Mark::Primary)) => 0xff00ff,
        Some(Owner::Sync(Mark::Secondary)) => 0x00e0e0,
        Some(Owner::Pbch) => 0xffb000,
        Some(Owner::Pcfich) | None => 0x000000,
        Some(Owner::Phich(unit)) => {
            let m = u32::from(unit);
            of_hue((m * 187 + 128) % 1536, 4 + m % 3)
        }
        Some(Owner::User(i)) => {
            let i = u32::from(i);
            of_hue((i * 599 + 560) % 1536, i % 4)
        }
        Some(Owner::Held) => 0x505050,
        Some(Owner::Idle) => 0xececec,
    }
}
