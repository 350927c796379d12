// Where things stand on the sheet, in pixels. A band shows at most 25 blocks.
ghost use Rattle.std.specs.Prelude.{◌+◌, ◌≤◌};

use plan::Cell;

// The sheet of a cell.
#[derive(Clone, Copy)]
pub struct Sheet {
    pub cell: Cell,
}

impl Sheet {
    // Blocks in a band.
    pub fn band_blocks(self) -> usize
        ensures { result ≤ 25 }
    {
        usize::from(self.cell.blocks).min(25)
    }

    pub fn bands(self) -> usize
        ensures { result ≤ 11 }
    {
        usize::from(self.cell.blocks).div_ceil(25)
    }

    // The width of n subcarriers.
    pub fn across(self, n: usize) -> usize
        requires { n ≤ 300 }
        ensures { result ≤ 1800 }
    {
        if self.cell.blocks < 25 { 6 * n } else { 4 * n }
    }

    // The left edge of a band's subcarrier k.
    pub fn column(self, k: usize) -> usize
        requires { k ≤ 300 }
        ensures { result ≤ 1864 }
    {
        64 + self.across(k)
    }

    // The upper edge of a band's first row: above it stand the blocks' numbers, below the last row those of the subcarriers.
    pub fn band_top(self, band: usize) -> usize
        requires { band ≤ 11 }
        ensures { (70 ≤ result) × (result ≤ 4000) }
    {
        let height = if self.cell.prefix == 1 { 244 } else { 272 };
        70 + height * band
    }

    // The upper edge of symbol s; the second slot stands six pixels lower.
    pub fn row_top(self, band: usize, s: usize) -> usize
        requires { (band ≤ 11) × (s ≤ 14) }
        ensures { result ≤ 4400 }
    {
        let top = self.band_top(band) + 14 * s;
        if s < legend::slot_symbols(self.cell) {
            top
        } else {
            top + 6
        }
    }

    // The upper edge of the row that would come after a band's last.
    pub fn band_bottom(self, band: usize) -> usize
        requires { band ≤ 11 }
        ensures { result ≤ 4400 }
    {
        self.row_top(band, self.symbols())
    }

    pub fn symbols(self) -> usize
        ensures { result ≤ 14 }
    {
        2 * legend::slot_symbols(self.cell)
    }

    pub fn width(self) -> usize {
        if self.cell.blocks < 25 { 1176 } else { 1296 }
    }

    pub fn legend_top(self) -> usize
        ensures { (70 ≤ result) × (result ≤ 4000) }
    {
        self.band_top(self.bands())
    }

    pub fn legend_column(self, column: usize) -> usize
        requires { column ≤ 1000 }
        ensures { result ≤ 300000 }
    {
        let width = if self.cell.blocks < 25 { 216 } else { 240 };
        64 + width * column
    }
}

// Entries of the legend in a column, which has a fifth of them.
pub fn legend_rows(entries: usize) -> usize
    requires { entries ≤ 1000 }
    ensures { result ≤ 200 }
{
    entries.div_ceil(5)
}

// A place of the legend.
#[derive(Clone, Copy, Default)]
pub struct Spot {
    pub column: usize,
    pub down: usize,
}

impl Spot {
    // The next one, in columns of this many rows.
    pub fn next(self, rows: usize) -> Spot
        requires { (self.column ≤ 1000) × (self.down ≤ 1000) }
        ensures { (result.column ≤ self.column + 1) × (result.down ≤ self.down + 1) }
    {
        if self.down + 1 < rows {
            Spot {
                down: self.down + 1,
                ..self
            }
        } else {
            Spot {
                column: self.column + 1,
                down: 0,
            }
        }
    }
}
