// Where the cells of a sheet lie: row after row, a cell for each column; first a row for each place of a design, then the friction rows,
// the base row and the total rows. specs/Layout says the same for the definitions. No other place says how many there are.
ghost use Rattle.std.specs.Prelude.{◌≡◌, ◌≤◌};
ghost use Rattle.sheet_data.specs.Layout.{most_finishes, most_columns, base_row, total_row, all_rows, needed};

// The most parts of a design, and the most columns of a sheet.
pub const PARTS: usize = 16;

pub const COLUMNS: usize = 32;

// The most finishes of a sheet, each with a friction row and a total row.
pub const FINISHES: usize = 4;

// The most rows of a sheet, and the cells of one with the most rows and columns.
pub const ROWS: usize = PARTS + 1 + 2 * FINISHES;

pub const CELLS: usize = ROWS * COLUMNS;

// The friction row of the first finish.
pub const FRICTION_ROW: usize = PARTS;

// How many finishes and columns a sheet has, and with that where its rows lie.
#[derive(Clone, Copy, Debug, PartialEq)]
pub struct Layout {
    pub finishes: usize,
    pub columns: usize,
    pub ghost few: { (finishes ≤ most_finishes) × (columns ≤ most_columns) },
}

impl Layout {
    pub fn base_row(self) -> usize
        ensures { result ≡ base_row self.finishes }
    {
        PARTS + self.finishes
    }

    // The total row of the first finish.
    pub fn total_row(self) -> usize
        ensures { result ≡ total_row self.finishes 0 }
    {
        self.base_row() + 1
    }

    pub fn rows(self) -> usize
        ensures { result ≡ all_rows self.finishes }
    {
        PARTS + 1 + 2 * self.finishes
    }

    // The cells that a sheet laid out so needs.
    #[tactic(auto, using(crate::specs::Layout::needed_few))]
    pub fn cells(self) -> usize
        ensures { result ≡ needed self.finishes self.columns }
    {
        self.rows() * self.columns
    }
}
