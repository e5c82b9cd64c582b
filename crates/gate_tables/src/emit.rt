//! The loop that adds the clauses of a table to a list, as a macro, since the list's type stands in a higher crate.

/// Pushes one clause for each row of the table onto the list of clauses `out`, over the literals of the inputs and the
/// output. The list has methods `allocator` and `push`, whose error the function answers.
#[macro_export]
macro_rules! emit {
    ($out:expr, $table:expr, $inputs:expr, $output:expr) => {
        for row in $table.rows().iter().copied() {
            let clause = $crate::clause_of_row($out.allocator(), &row, $inputs, $output)?;
            $out.push(clause.as_slice())?;
        }
    };
}
