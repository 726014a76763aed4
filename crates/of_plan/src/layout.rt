//! The shape of a table, from the plot of its data cells.

ghost use Rattle.std.specs.Prelude.{◌≡◌};
ghost use Rattle.of_mem.specs.Plots.{data_cell_count};

use of_cell::Shape;
use of_mem::Plot;

/// The shape of a table with the data cells of this plot.
#[tactic(auto, using(crate::proofs::Layouts::cells_fit))]
pub fn table_shape(plot: &Plot) -> Shape
    ensures callers { result.callers ≡ plot.now.callers }
    ensures instrs { result.instrs ≡ plot.now.instrs }
    ensures cells { result.cells ≡ data_cell_count plot.now }
{
    Shape {
        callers: plot.callers,
        instrs: plot.instrs,
        cells: plot.cells(),
    }
}
