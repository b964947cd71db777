//! Laws of generated files.
ghost use Rattle.rio_gen.specs.Laws.{GeneratedRowsFit, SumIsKnown, TreeIsStated};

/// A line of a script can state the tree.
pub fn generated_tree_is_stated()
    ensures { TreeIsStated }
{}

/// The rows of the first 1,000,000 entries fit the tree.
pub fn generated_rows_fit()
    ensures { GeneratedRowsFit }
{}

/// The rows of `n` entries have the integers from 0 to `20 * n - 1`, so their sum is `10 * n * (20 * n - 1)`.
pub fn generated_sum_is_known()
    ensures { SumIsKnown }
{}
