//! The shape of tables for scripts.

ghost use Rattle.std.specs.Prelude.{◌≡◌};
ghost use Rattle.of_mem.specs.declared.work.TheConstants.{MOST_INSTRS};
ghost use Rattle.of_eval.specs.Scripts.{scripts_data_cells};

use crate::scripts::Scripts;
use of_cell::Shape;
use of_plan::table_shape;

/// The shape of a table on which these scripts run.
pub fn shape_of(scripts: Scripts) -> Shape
    ensures callers { result.callers ≡ scripts.callers }
    ensures instrs { result.instrs ≡ MOST_INSTRS }
    ensures cells { result.cells ≡ scripts_data_cells scripts }
{
    table_shape(&scripts.plot())
}
