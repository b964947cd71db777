//! The commands of a generated file.
ghost use Rattle.std.specs.Prelude.{◌≡◌, ◌<◌, [], ◌∷◌, IfOk, OnErr};
ghost use Rattle.rio_gen.specs.Generated.{TakesFirst, branch_name, fills_from, gen_script, generated_branch, generated_branches, generated_row, generated_value, integer_leaf, tree_command, tree_name};
ghost use Rattle.rio_machine.specs.declared.command.Command.TheVariants.{Fill as FillOf};

use rio_format::{Value, Values};
use rio_leaf::{BranchDef, BranchDefs, Dim, Leaf, Leaves, Shape};
use rio_machine::{Command, Commands};
use rio_num::{Name, NoMemory};
use std::alloc::Global;
use std::marker::Model;

// The tree has so many branches.
const BRANCHES: u8 = 20;

// `b00` to `b19`.
fn branch_name(alloc: Global, number: u8) -> Result<Name, NoMemory>
    requires { number < 20 }
    ensures { IfOk result (λ name. name ≡ branch_name number) }
{
    Name::from_slice(alloc, &[b'b', b'0' + number / 10, b'0' + number % 10])
}

fn integer_leaves(alloc: Global, name: Name) -> Result<Leaves, NoMemory>
    ensures { IfOk result (λ leaves. leaves ≡ integer_leaf name ∷ []) }
{
    let mut leaves = Leaves::new(alloc);
    leaves.push(Leaf {
        name,
        letter: b'I',
        dim: Dim::One,
    })?;
    Ok(leaves)
}

fn generated_branch(alloc: Global, number: u8) -> Result<BranchDef, NoMemory>
    requires { number < 20 }
    ensures { IfOk result (λ branch. branch ≡ generated_branch number) }
{
    let name = branch_name(alloc, number)?;
    let leaves = integer_leaves(alloc, name.copy()?)?;
    Ok(BranchDef {
        name,
        shape: Shape::Leaves(leaves),
    })
}

fn generated_branches(alloc: Global) -> Result<BranchDefs, NoMemory>
    ensures { IfOk result (λ branches. branches ≡ generated_branches) }
{
    let mut branches = BranchDefs::new(alloc);
    for number in 0..BRANCHES {
        branches.push(generated_branch(alloc, number)?)?;
    }
    Ok(branches)
}

// What an entry has in a branch.
fn generated_value(entry: u32, number: u8) -> Value
    ensures { result ≡ generated_value entry number }
{
    Value::Int(i128::from(20 * u64::from(entry) + u64::from(number)))
}

// The values of an entry, one for each branch.
fn generated_row(alloc: Global, entry: u32) -> Result<Values, NoMemory>
    ensures { IfOk result (λ row. row ≡ generated_row entry) }
{
    let mut row = Values::with_capacity(alloc, 20)?;
    for number in 0..BRANCHES {
        row.push(generated_value(entry, number))?;
    }
    Ok(row)
}

fn tree_command(alloc: Global) -> Result<Command, NoMemory>
    ensures { IfOk result (λ command. command ≡ tree_command) }
{
    Ok(Command::Tree {
        name: Name::from_slice(alloc, b"G")?,
        branches: generated_branches(alloc)?,
    })
}

fn fill_command(alloc: Global, entry: u32) -> Result<Command, NoMemory>
    ensures { IfOk result (λ command. command ≡ FillOf tree_name (generated_row entry)) }
{
    Ok(Command::Fill {
        name: Name::from_slice(alloc, b"G")?,
        row: generated_row(alloc, entry)?,
    })
}

/// The commands of a generated file, one by one. Contracts see those that are left.
#[derive(Drop)]
pub struct GeneratedScript {
    alloc: Global,
    has_tree: bool,
    done: u32,
    entries: u32,
}

impl Model for GeneratedScript {
    ghost use Rattle.std.specs.Coded.{codes};
    ghost use Rattle.std.specs.Prelude.{◌≤◌, List};
    ghost use Rattle.rio_format.specs.contracts.value.Value as values;
    ghost use Rattle.rio_gen.specs.Generated.{commands_left};
    ghost use Rattle.rio_machine.specs.declared.command.Command.{Command as ScriptCommand};

    ghost Value = { List ScriptCommand };

    ghost coded = { Prim.hlevel (codes, values.the_row.coded) };

    ghost view = { λ script. commands_left script.has_tree script.done script.entries };

    ghost invariant = { λ script. script.done ≤ script.entries };
}

/// The script that makes the tree `G` and fills it with so many entries. The tree has 20 branches `b00` to `b19`, each with
/// one leaf of letter I and the branch's name. Entry `e` has in branch `j` the value `20 * e + j`.
#[tactic(auto, using(crate::proofs::ScriptLaws::all_left))]
pub fn generated_script(alloc: Global, entries: u32) -> GeneratedScript
    ensures { result ≡ gen_script entries }
{
    GeneratedScript {
        alloc,
        has_tree: false,
        done: 0,
        entries,
    }
}

impl GeneratedScript {
    /// The next command, or None after the last one. Without memory none is taken.
    #[tactic(auto, using(crate::proofs::ScriptLaws::fill_left, crate::proofs::ScriptLaws::nothing_left))]
    pub fn next_command(&mut self) -> Result<Option<Command>, NoMemory>
        ensures command { IfOk result (λ command. TakesFirst self.old command self.new) }
        ensures err { OnErr result (self.new ≡ self.old) }
    {
        if !self.has_tree {
            let command = tree_command(self.alloc)?;
            self.has_tree = true;
            return Ok(Some(command));
        }
        if self.done == self.entries {
            return Ok(None);
        }
        let command = fill_command(self.alloc, self.done)?;
        self.done += 1;
        Ok(Some(command))
    }
}

/// All commands of a generated file with so many entries.
#[tactic(auto, using(crate::proofs::ScriptLaws::one_put))]
pub fn generated(alloc: Global, entries: u32) -> Result<Commands, NoMemory>
    ensures { IfOk result (λ commands. commands ≡ gen_script entries) }
{
    let mut script = generated_script(alloc, entries);
    let mut commands = Commands::new(alloc);
    while let Some(command) = script.next_command()? {
        commands.push(command)?;
    }
    Ok(commands)
}
