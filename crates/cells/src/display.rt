//! Cells and rows as they are printed.
ghost use Rattle.std.specs.Prelude.{map, Some};
ghost use Rattle.std.specs.List.{flat_map};
ghost use Rattle.std.specs.Fmt.{WritesOnOk};
ghost use Rattle.cells.specs.Held.{tuple, value};
ghost use Rattle.cells.specs.Printed.{printed, spaced, printed_row};

use crate::rows::Row;
use crate::values::Cell;
use std::fmt;

// A number in decimal, a text in quotes.
impl fmt::Display for Cell {
    ghost output = { λ c. Some (printed (value c)) };

    fn fmt<W: fmt::Write>(&self, f: &mut fmt::Formatter<W>) -> fmt::Result {
        match self {
            Cell::Num(n) => write!(f, "{n}"),
            Cell::Text(s) => {
                let text = s.as_str();
                write!(f, "\"{text}\"")
            }
        }
    }
}

// The cells, separated by a space.
impl fmt::Display for Row {
    ghost output = { λ r. Some (printed_row (tuple r)) };

    fn fmt<W: fmt::Write>(&self, f: &mut fmt::Formatter<W>) -> fmt::Result {
        if let [first, rest @ ..] = self.cells.as_slice() {
            write!(f, "{first}")?;
            print_rest(rest, f)?;
        }
        Ok(())
    }
}

fn print_rest<W: fmt::Write>(cells: &[Cell], f: &mut fmt::Formatter<W>) -> fmt::Result
    ensures { WritesOnOk W.write_str_gives f.old result (flat_map spaced (map value cells.now)) f.new }
{
    for cell in cells {
        write!(f, " {cell}")?;
    }
    Ok(())
}
