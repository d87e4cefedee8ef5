//! The laws of named conditions.

ghost use Rattle.bound_plans.specs.Found.{ColumnsAreFound, NamesBindBack};
ghost use Rattle.bound_plans.specs.LeftJoins.{MarksAreRight};

/// A condition whose columns are found by their names is bound again from its tree.
pub fn law_names_bind_back()
    ensures { NamesBindBack }
{}

/// Where aliases differ, and the names of the columns of each table, each column of a condition is found by its name.
pub fn law_columns_are_found()
    ensures { ColumnsAreFound }
{}

/// A code with the words of left joins has them on the steps of left entries alone, and without them it is the code.
pub fn law_marks_are_right()
    ensures { MarksAreRight }
{}
