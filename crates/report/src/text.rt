// A report as one text.
ghost use Rattle.std.specs.Prelude.{◌≡◌, [], ◌∷◌, ◌++◌, IfOk, string_bytes};
ghost use Rattle.report.specs.Text.{row_text, report_text};

use crate::row::Row;
use std::alloc::{AllocError, Global};

// A row, ended by a newline.
fn row_line(heap: Global, row: &Row) -> Result<String, AllocError>
    ensures { IfOk result (λ s. string_bytes s ≡ row_text row.now ++ 10 ∷ []) }
{
    format!(in heap; "{row}\n")
}

// Each row, ended by a newline.
pub fn report(heap: Global, rows: &[Row]) -> Result<String, AllocError>
    ensures { IfOk result (λ s. string_bytes s ≡ report_text rows.now) }
{
    let mut text = String::new(heap);
    for row in rows {
        let line = row_line(heap, row)?;
        text.push_str(line.as_str())?;
    }
    Ok(text)
}
