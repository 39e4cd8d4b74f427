// The cells of a sheet, or their marks, read by row: how it is laid out, and the cells, row after row. A sheet may have no columns, so its rows are no chunks.
ghost use Rattle.std.specs.Prelude.{◌≡◌, [], ◌≤◌, ◌<◌, length};
ghost use Rattle.sheet_data.specs.Layout.{all_rows, needed};
ghost use Rattle.sheet_data.specs.Rows.{row_at};

use crate::layout::Layout;
use std::alloc::AllocError;

#[derive(Drop)]
pub struct Rows<'a, T> {
    pub layout: Layout,
    pub cells: &'a [T],
    pub ghost there: { needed layout.finishes layout.columns ≤ length cells.now },
}

impl<T> Copy for Rows<'_, T> {}

impl<T> Clone for Rows<'_, T> {
    fn clone(&self) -> Result<Self, AllocError> {
        Ok(*self)
    }
}

impl<'a, T> Rows<'a, T> {
    // The cells of a row, one for each column; past the last row none.
    pub fn row(self, row: usize) -> &'a [T]
        ensures cells { row < all_rows self.entry.layout.finishes → result.now ≡ row_at self.entry.layout.columns self.entry.cells.now row }
        ensures wide { row < all_rows self.entry.layout.finishes → length result.now ≡ self.entry.layout.columns }
        ensures past { all_rows self.entry.layout.finishes ≤ row → result.now ≡ [] }
    {
        if self.layout.rows() <= row {
            return &[];
        }
        let columns = self.layout.columns;
        let from = row * columns;
        let end = from + columns;
        &self.cells[from..end]
    }
}

// Both planes of a sheet: its cells, and their marks.
#[derive(Clone, Copy, Drop)]
pub struct Planes<'a> {
    pub layout: Layout,
    pub cells: &'a [f64],
    pub marks: &'a [u8],
    pub ghost there: { (needed layout.finishes layout.columns ≤ length cells.now) × (needed layout.finishes layout.columns ≤ length marks.now) },
}

impl<'a> Planes<'a> {
    // The cells of a row, and their marks; past the last row none.
    pub fn row(self, row: usize) -> (&'a [f64], &'a [u8])
        ensures cells { row < all_rows self.entry.layout.finishes → result.0.now ≡ row_at self.entry.layout.columns self.entry.cells.now row }
        ensures marks { row < all_rows self.entry.layout.finishes → result.1.now ≡ row_at self.entry.layout.columns self.entry.marks.now row }
        ensures wide { row < all_rows self.entry.layout.finishes → length result.0.now ≡ self.entry.layout.columns }
    {
        let cells = Rows {
            layout: self.layout,
            cells: self.cells,
        };
        let marks = Rows {
            layout: self.layout,
            cells: self.marks,
        };
        (cells.row(row), marks.row(row))
    }
}
