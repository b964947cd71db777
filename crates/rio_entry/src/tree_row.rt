//! The row of a tree at an entry.
use rio_format::Values;
use rio_num::{Items, NoMemory};
use rio_tree::BranchRefusal;
use std::alloc::Global;

/// The values of each branch at an entry.
pub type BranchRows = Items<Values>;

/// Why each branch isn't read.
pub type BranchRefusals = Items<Option<BranchRefusal>>;

/// A row: why each branch isn't read, and the values of those that are.
#[derive(Drop)]
pub struct TreeRow {
    pub refusals: BranchRefusals,
    pub values: BranchRows,
}

impl TreeRow {
    ghost use Rattle.std.specs.Prelude.{◌≡◌, [], ◌∷◌, ◌++◌, OnOk};
    ghost use Rattle.rio_entry.specs.Sweeps.{empty_row};

    /// A row of no branches.
    pub fn new(alloc: Global) -> TreeRow
        ensures { result ≡ empty_row }
    {
        TreeRow {
            refusals: BranchRefusals::new(alloc),
            values: BranchRows::new(alloc),
        }
    }

    /// Puts a branch at the end.
    pub fn push(&mut self, refusal: Option<BranchRefusal>, values: Values) -> Result<(), NoMemory>
        ensures refusals { OnOk result (self.new.refusals ≡ self.old.refusals ++ refusal ∷ []) }
        ensures values { OnOk result (self.new.values ≡ self.old.values ++ values ∷ []) }
    {
        self.refusals.push(refusal)?;
        self.values.push(values)
    }
}
