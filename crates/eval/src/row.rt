//! The rows and groups that expressions read.

ghost use Rattle.std.specs.Prelude.{◌≡◌};
ghost use Rattle.value.specs.Datum.{datum_of};
ghost use Rattle.eval.specs.Meaning.{Cells};

use expr::ColumnId;
use memory::Heap;
use value::Val;

/// A row that an expression is evaluated on: a row of each entry of FROM, or a group of them.
pub trait Row<A: Heap> {
    ghost cells: { Self → Cells };

    /// The cell in a column.
    fn cell(&self, id: ColumnId) -> Val<'_, A>
        ensures { datum_of result ≡ (cells self.now).column id };

    /// The value of the aggregate whose name is at this offset; null on a row, which has none.
    fn aggregate(&self, offset: u32) -> Val<'_, A>
        ensures { datum_of result ≡ (cells self.now).aggregate offset };
}
