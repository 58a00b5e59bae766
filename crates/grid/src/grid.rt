// A table with a cell for each row below ROWS and each column from FIRST up to END, row by row in one flat array.
ghost use Rattle.std.specs.Prelude.{◌≡◌, ◌-◌, ◌*◌};
ghost use Rattle.std.specs.Option.{unwrap_or};
ghost use Rattle.model.specs.Tables.{put2};
ghost use Rattle.grid.specs.Grids.{grid_at};

use crate::number::Number;

#[derive(Drop)]
pub struct Grid<
    T: Copy,
    const ROWS: usize,
    const FIRST: usize,
    const END: usize,
    const CELLS: usize,
> {
    // one flat array, as the project's rules name it: no memory is taken for it
    pub(crate) cells: [T; CELLS],
    ghost fits: { ROWS * (END - FIRST) ≡ CELLS },
}

impl<T: Copy, const ROWS: usize, const FIRST: usize, const END: usize, const CELLS: usize> Grid<
    T,
    ROWS,
    FIRST,
    END,
    CELLS,
> {
    // All cells have one value.
    pub fn filled(value: T) -> Self
        requires { ROWS * (END - FIRST) ≡ CELLS }
        ensures { grid_at ROWS FIRST END value result.cells ≡ (λ _ _. value) }
    {
        Grid {
            cells: [value; CELLS],
        }
    }

    // The value of a cell; None outside.
    pub fn get(&self, row: usize, column: usize) -> Option<T>
        ensures { (d : T) → unwrap_or result d ≡ grid_at ROWS FIRST END d self.now.cells row column }
    {
        if row < ROWS && column >= FIRST && column < END {
            Some(self.cells[row * (END - FIRST) + (column - FIRST)])
        } else {
            None
        }
    }

    // One cell gets another value.
    pub fn set(&mut self, row: Number<0, ROWS>, column: Number<FIRST, END>, value: T)
        ensures { (d : T) → grid_at ROWS FIRST END d self.new.cells
            ≡ put2 (grid_at ROWS FIRST END d self.old.cells) row.entry column.entry value }
    {
        let row = row.number();
        let column = column.number();
        self.cells[row * (END - FIRST) + (column - FIRST)] = value;
    }
}
