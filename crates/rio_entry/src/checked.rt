//! What is made of the entries while the branches that aren't read are looked for.
ghost use Rattle.std.specs.Prelude.{◌≡◌, IfOk, replicate};
ghost use Rattle.rio_entry.specs.Checked.{counters_alone, made_there, with_numbers};
ghost use Rattle.rio_entry.specs.declared.checked.Made.TheVariants.{Nothing as NoValue};

use rio_num::NoMemory;
use rio_tree::Branch;
use std::alloc::Global;

/// What is made of an entry's values: all of them, the number that each says, or nothing, where it is only checked.
#[derive(Clone, Copy, Debug, PartialEq, Eq)]
pub enum Made {
    Whole,
    Numbers,
    Nothing,
}

/// What is made of the entries of the branch at `k`.
pub(crate) fn made_there(made: &[Made], k: usize) -> Made
    ensures { result ≡ made_there made.now k }
{
    match made.get(k) {
        Some(one) => *one,
        None => Made::Whole,
    }
}

// So many branches, nothing made of any.
fn nothing_made(alloc: Global, n: usize) -> Result<Vec<Made>, NoMemory>
    ensures { IfOk result (λ made. made.items ≡ replicate n NoValue) }
{
    let mut made = Vec::new(alloc);
    for _k in 0..n {
        made.push(Made::Nothing)?;
    }
    Ok(made)
}

// Of the branches at these places the numbers are made.
fn set_numbers(made: &mut Vec<Made>, numbers: &[usize])
    ensures { made.new.items ≡ with_numbers made.old.items numbers.now }
{
    for k in numbers {
        if *k < made.len() {
            made[*k] = Made::Numbers;
        }
    }
}

/// For each branch what is made of its entries: the numbers where it counts leaves of another, and else nothing.
pub(crate) fn counters_alone(alloc: Global, branches: &[Branch]) -> Result<Vec<Made>, NoMemory>
    ensures { IfOk result (λ made. made.items ≡ counters_alone branches.now) }
{
    let mut made = nothing_made(alloc, branches.len())?;
    for branch in branches {
        set_numbers(&mut made, branch.counted_by.as_slice());
    }
    Ok(made)
}
