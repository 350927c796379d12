// gridpicture: reads a two-byte plan length and the plan from standard input, and writes a picture (SVG) of the owner of every
// resource element to standard output; or the refusal to standard error.
#![tactic(auto)]

mod colour;
mod sheet;

ghost use Rattle.std.specs.Prelude.{◌+◌, ◌≤◌, ◌<◌, IfOk};

use plan::Plan;
use sheet::{Sheet, Spot};
use std::io;

fn rect(
    rt: &impl Print,
    x: usize,
    y: usize,
    width: usize,
    height: usize,
    owner: u16,
) -> io::Result<()> {
    let colour = colour::of_owner(owner);
    println!(rt;
        "<rect x=\"{x}\" y=\"{y}\" width=\"{width}\" height=\"{height}\" fill=\"#{colour:06x}\"/>"
    )
}

fn number_at(rt: &impl Print, x: usize, y: usize, n: usize) -> io::Result<()> {
    println!(rt; "<text x=\"{x}\" y=\"{y}\">{n}</text>")
}

// The end of the run of equal owners that starts at a position, among the first n places.
fn run_end(row: &[u16; 300], n: usize, at: usize) -> usize
    requires { (at < n) × (n ≤ 300) }
    ensures { (at < result) × (result ≤ n) }
{
    let owner = row[at];
    for end in at + 1..n {
        if row[end] != owner {
            return end;
        }
    }
    n
}

// One rectangle for each run among the first n places of a row. A run's length is the step, so this is no `for`.
fn runs(rt: &impl Print, sheet: Sheet, y: usize, row: &[u16; 300], n: usize) -> io::Result<()>
    requires { n ≤ 300 }
{
    let mut at = 0;
    while at < n {
        let end = run_end(row, n, at);
        rect(rt, sheet.column(at), y, sheet.across(end - at), 14, row[at])?;
        at = end;
    }
    Ok(())
}

fn symbol_row(rt: &impl Print, plan: &[u8], sheet: Sheet, band: usize, s: usize) -> io::Result<()>
    requires { (band ≤ 11) × (s ≤ 14) }
{
    let mut row = [513u16; 300];
    legend::owner_row(plan, s, 300 * band, &mut row);
    runs(
        rt,
        sheet,
        sheet.row_top(band, s),
        &row,
        12 * sheet.band_blocks(),
    )
}

fn symbol_rows(rt: &impl Print, plan: &[u8], sheet: Sheet, band: usize) -> io::Result<()>
    requires { band ≤ 11 }
{
    println!(rt; "<g class=\"band\" shape-rendering=\"crispEdges\">")?;
    for s in 0..sheet.symbols() {
        symbol_row(rt, plan, sheet, band, s)?;
    }
    println!(rt; "</g>")
}

fn symbol_labels(rt: &impl Print, sheet: Sheet, band: usize) -> io::Result<()>
    requires { band ≤ 11 }
{
    println!(rt; "<g text-anchor=\"end\">")?;
    for s in 0..sheet.symbols() {
        number_at(rt, 58, sheet.row_top(band, s) + 11, s)?;
    }
    println!(rt; "</g>")
}

// Ticks through the band at the blocks' left edges, each from the block's number above to its first subcarrier's below.
fn block_lines(rt: &impl Print, sheet: Sheet, band: usize) -> io::Result<()>
    requires { band ≤ 11 }
{
    let top = sheet.band_top(band) - 4;
    let bottom = sheet.band_bottom(band) + 4;
    println!(rt; "<g stroke=\"#000000\" stroke-opacity=\"0.4\" shape-rendering=\"crispEdges\">")?;
    for b in 0..sheet.band_blocks() + 1 {
        let x = sheet.column(12 * b);
        println!(rt; "<path d=\"M{x} {top}V{bottom}\"/>")?;
    }
    println!(rt; "</g>")
}

// Above each block its number, below its left edge its first subcarrier's.
fn block_labels(rt: &impl Print, sheet: Sheet, band: usize) -> io::Result<()>
    requires { band ≤ 11 }
{
    let top = sheet.band_top(band) - 8;
    let bottom = sheet.band_bottom(band) + 16;
    println!(rt; "<g text-anchor=\"middle\">")?;
    for b in 0..sheet.band_blocks() {
        number_at(rt, sheet.column(12 * b + 6), top, 25 * band + b)?;
        number_at(rt, sheet.column(12 * b), bottom, 300 * band + 12 * b)?;
    }
    println!(rt; "</g>")
}

fn axis_titles(rt: &impl Print, sheet: Sheet, band: usize) -> io::Result<()>
    requires { band ≤ 11 }
{
    let top = sheet.band_top(band);
    let bottom = sheet.band_bottom(band);
    let above = top - 8;
    println!(rt; "<text text-anchor=\"end\" x=\"58\" y=\"{above}\">block</text>")?;
    let x = sheet.column(6 * sheet.band_blocks());
    let below = bottom + 32;
    println!(rt; "<text text-anchor=\"middle\" x=\"{x}\" y=\"{below}\">subcarrier k</text>")?;
    let middle = (top + bottom) / 2;
    println!(rt;
        "<text text-anchor=\"middle\" transform=\"translate(26,{middle}) rotate(-90)\">symbol s</text>"
    )
}

fn bands(rt: &impl Print, plan: &[u8], sheet: Sheet) -> io::Result<()> {
    println!(rt; "<g font-size=\"11\" fill=\"#202020\">")?;
    for band in 0..sheet.bands() {
        symbol_rows(rt, plan, sheet, band)?;
        symbol_labels(rt, sheet, band)?;
        block_lines(rt, sheet, band)?;
        block_labels(rt, sheet, band)?;
        axis_titles(rt, sheet, band)?;
    }
    println!(rt; "</g>")
}

// How many owners the plan has.
fn count(plan: &[u8], p: Plan) -> usize
    ensures { result ≤ 514 }
{
    (0..legend::NUMBERS)
        .filter(|n| legend::has(plan, p, *n))
        .count()
}

fn entry(rt: &impl Print, plan: &[u8], p: Plan, n: u16, spot: Spot) -> io::Result<()>
    requires { (spot.column ≤ 1000) × (spot.down ≤ 1000) }
{
    let sheet = Sheet { cell: p.cell };
    let x = sheet.legend_column(spot.column);
    let y = sheet.legend_top() + 18 * spot.down - 20;
    rect(rt, x, y, 14, 12, n)?;
    print!(rt; "<text x=\"{}\" y=\"{}\">", x + 20, y + 10)?;
    legend::name(rt, plan, p, n)?;
    println!(rt; "</text>")
}

// The owners' colours and names, in columns.
fn entries(rt: &impl Print, plan: &[u8], p: Plan, rows: usize) -> io::Result<()> {
    println!(rt; "<g class=\"legend\" font-size=\"12\" fill=\"#202020\">")?;
    let mut spot = Spot::default();
    for n in 0..legend::NUMBERS {
        if legend::has(plan, p, n) {
            entry(rt, plan, p, n, spot)?;
            spot = spot.next(rows);
        }
    }
    println!(rt; "</g>")
}

// The root, the background, and the start of the title; its end is </text>.
fn head(rt: &impl Print, width: usize, height: usize) -> io::Result<()> {
    print!(rt;
        "<svg xmlns=\"http://www.w3.org/2000/svg\" font-family=\"sans-serif\" width=\"{width}\" "
    )?;
    println!(rt; "height=\"{height}\" viewBox=\"0 0 {width} {height}\">")?;
    println!(rt; "<rect width=\"100%\" height=\"100%\" fill=\"#ffffff\"/>")?;
    print!(rt; "<text x=\"64\" y=\"30\" font-size=\"16\" fill=\"#202020\">")
}

fn picture(rt: &impl Print, plan: &[u8], p: Plan) -> io::Result<()> {
    let sheet = Sheet { cell: p.cell };
    let rows = sheet::legend_rows(count(plan, p));
    head(rt, sheet.width(), sheet.legend_top() + 18 * rows)?;
    legend::title(rt, p)?;
    println!(rt; "</text>")?;
    bands(rt, plan, sheet)?;
    entries(rt, plan, p, rows)?;
    println!(rt; "</svg>")
}

fn answer(rt: &(impl Print + Eprint), input: &[u8]) -> io::Result<()> {
    match legend::plan_of(input) {
        Ok((plan, p)) => picture(rt, plan, p),
        Err(r) => words::refusal(rt, r),
    }
}

// The buffer holds two length bytes and the longest plan; what follows the plan is not looked at.
fn main(rt: HostRuntime) -> io::Result<()> {
    let mut buffer = [0u8; 65537];
    let n = input::read_full(&mut rt.stdin(), &mut buffer)?;
    answer(&rt, &buffer[..n])
}
