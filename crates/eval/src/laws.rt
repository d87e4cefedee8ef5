//! Laws of every expression.

ghost use Rattle.eval.specs.Laws.{MovableNeverFaults, ReadsItsAggregates, ReadsItsColumns};

/// A movable expression never faults.
pub fn law_movable_never_faults()
    ensures { MovableNeverFaults }
{}

/// The outcome of an expression depends on no column that it does not name.
pub fn law_reads_its_columns()
    ensures { ReadsItsColumns }
{}

/// The outcome of an expression depends on no aggregate that is not among its own.
pub fn law_reads_its_aggregates()
    ensures { ReadsItsAggregates }
{}
