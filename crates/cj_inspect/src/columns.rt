// Rows of cells in columns, as kubectl prints them.
use std::alloc::{AllocError, Global};

// How many blanks are between two columns.
const GAP: usize = 3;

// The widths with this row of cells.
fn widen(widths: &mut Vec<usize>, row: &[String]) -> Result<(), AllocError> {
    for (place, cell) in row.iter().enumerate() {
        let width = cell.as_str().len();
        if place < widths.len() {
            widths[place] = widths[place].max(width);
        } else {
            widths.push(width).map_err(AllocError::from)?;
        }
    }
    Ok(())
}

// How wide each column is: as wide as its widest cell.
fn widths_of(alloc: Global, rows: &[Vec<String>]) -> Result<Vec<usize>, AllocError> {
    let mut widths = Vec::new(alloc);
    for row in rows {
        widen(&mut widths, row.as_slice())?;
    }
    Ok(widths)
}

fn push_blanks(text: &mut String, count: usize) -> Result<(), AllocError> {
    for _ in 0..count {
        text.push_str(" ")?;
    }
    Ok(())
}

// A row on a line of its own; its last cell is followed by no blank.
fn push_row(text: &mut String, widths: &[usize], row: &[String]) -> Result<(), AllocError> {
    let last = row.len().saturating_sub(1);
    for (place, cell) in row.iter().enumerate() {
        let cell = cell.as_str();
        text.push_str(cell)?;
        if place < last {
            let width = widths.get(place).copied().unwrap_or(0);
            push_blanks(text, width.saturating_sub(cell.len()).saturating_add(GAP))?;
        }
    }
    text.push_str("\n")
}

/// A line for each row, its cells one below the other.
pub(crate) fn columns_text(alloc: Global, rows: &[Vec<String>]) -> Result<String, AllocError> {
    let widths = widths_of(alloc, rows)?;
    let mut text = String::new(alloc);
    for row in rows {
        push_row(&mut text, widths.as_slice(), row.as_slice())?;
    }
    Ok(text)
}

fn push_cell(alloc: Global, row: &mut Vec<String>, cell: &str) -> Result<(), AllocError> {
    let cell = String::from_str(alloc, cell)?;
    row.push(cell).map_err(AllocError::from)
}

/// A row of these cells.
pub(crate) fn row_of(alloc: Global, cells: &[&str]) -> Result<Vec<String>, AllocError> {
    let mut row = Vec::new(alloc);
    for cell in cells {
        push_cell(alloc, &mut row, cell)?;
    }
    Ok(row)
}
