//! The words of the command line behind the file, of an import and of a generated file.
ghost use Rattle.std.specs.Prelude.{◌≡◌, ◌++◌, codes, IfOk, OnOk};
ghost use Rattle.std.specs.List.{list_all, list_any};
ghost use Rattle.rio_leaf.specs.Leaves.{is_one};
ghost use Rattle.rio_cmd.specs.ImportWords.{ImportsAreStated, are_plain, branches_made, gen_of, has_blank, import_of, is_plain_shape, spec_word, specs_of, tree_line};

use crate::script::read_line;
use rio_leaf::{BranchDef, BranchDefs, Dim, Leaf, Shape};
use rio_machine::Command;
use rio_num::{Bytes, Name, NoMemory, is_item};
use rio_token::parse_num_between;
use std::alloc::Global;

/// What an import is asked for.
#[derive(Drop)]
pub struct ImportWords {
    /// The name of the tree that is made.
    pub tree: Name,
    /// The tree is saved after each so many rows, or not before the end where this is 0.
    pub every: u32,
    /// The branches of the tree.
    pub branches: BranchDefs,
}

fn are_single(leaves: &[Leaf]) -> bool
    ensures { result ≡ list_all (λ leaf. is_one leaf.dim) leaves.now }
{
    leaves.iter().all(|leaf| matches!(leaf.dim, Dim::One))
}

// Whether a branch has leaves without dimensions, and no class.
fn is_plain_shape(shape: &Shape) -> bool
    ensures { result ≡ is_plain_shape shape.now }
{
    match shape {
        Shape::Leaves(leaves) => are_single(leaves.as_slice()),
        Shape::Class(_) => false,
    }
}

fn are_plain(branches: &[BranchDef]) -> bool
    ensures { result ≡ are_plain branches.now }
{
    branches.iter().all(|branch| is_plain_shape(&branch.shape))
}

fn has_blank(word: &[u8]) -> bool
    ensures { result ≡ has_blank word.now }
{
    word.iter().any(|byte| *byte == b' ' || *byte == b'\t')
}

fn have_blanks(words: &[Name]) -> bool
    ensures { result ≡ list_any has_blank words.now }
{
    words.iter().any(|word| has_blank(word.as_slice()))
}

// The beginning of a line that makes the tree.
fn begin_line(alloc: Global, tree: &[u8]) -> Result<Bytes, NoMemory>
    ensures { IfOk result (λ line. line.bytes ≡ codes "tree " ++ tree.now) }
{
    let mut line = Bytes::new(alloc);
    line.put(b"tree ")?;
    line.put(tree)?;
    Ok(line)
}

// Puts a blank and a SPEC at the end.
fn put_spec(line: &mut Bytes, spec: &Name) -> Result<(), NoMemory>
    ensures { OnOk result (line.new.bytes ≡ line.old.bytes ++ spec_word spec.now) }
{
    line.put(b" ")?;
    line.put(spec.as_slice())
}

// The line of a script that makes the tree.
#[tactic(auto, using(crate::proofs::TreeLines::line_begun, crate::proofs::TreeLines::spec_put, crate::proofs::TreeLines::line_ended))]
fn tree_line(alloc: Global, tree: &[u8], specs: &[Name]) -> Result<Bytes, NoMemory>
    ensures { IfOk result (λ line. line.bytes ≡ tree_line tree.now specs.now) }
{
    let mut line = begin_line(alloc, tree)?;
    for spec in specs {
        put_spec(&mut line, spec)?;
    }
    Ok(line)
}

// The branches of the tree that is made, if they are so many and plain.
fn branches_made(command: &Command, count: usize) -> Result<Option<BranchDefs>, NoMemory>
    ensures { IfOk result (λ branches. branches ≡ branches_made count command.now) }
{
    match command {
        Command::Tree { branches, .. } => {
            if branches.len() == count && are_plain(branches.as_slice()) {
                Ok(Some(branches.copy()?))
            } else {
                Ok(None)
            }
        }
        _ => Ok(None),
    }
}

// The branches that the words state, one each.
fn read_specs(alloc: Global, tree: &[u8], specs: &[Name]) -> Result<Option<BranchDefs>, NoMemory>
    ensures { IfOk result (λ branches. branches ≡ specs_of tree.now specs.now) }
{
    if have_blanks(specs) {
        return Ok(None);
    }
    let line = tree_line(alloc, tree, specs)?;
    if line.len() >= 0x1_0000_0000 {
        return Err(NoMemory);
    }
    let command = read_line(alloc, 1, line.as_slice())?;
    branches_made(&command, specs.len())
}

/// What an import is asked for, by the words TREE EVERY SPEC..: the name of a tree, a number up to 1,000,000, and the branches
/// of the tree, a word for each, as the line `tree TREE SPEC..` of a script states them. A branch has leaves without
/// dimensions, and no class. None where the words aren't of this form.
pub fn read_import_words(alloc: Global, args: &[Name]) -> Result<Option<ImportWords>, NoMemory>
    ensures { IfOk result (λ words. words ≡ import_of args.now) }
{
    let [tree, every, specs @ ..] = args else {
        return Ok(None);
    };
    if !is_item(tree.as_slice()) {
        return Ok(None);
    }
    let Some(every) = parse_num_between(every.as_slice(), 0, 1_000_000) else {
        return Ok(None);
    };
    match read_specs(alloc, tree.as_slice(), specs)? {
        Some(branches) => Ok(Some(ImportWords {
            tree: tree.copy()?,
            every,
            branches,
        })),
        None => Ok(None),
    }
}

/// How many entries a generated file has, by the word N: from 1 to 1,000,000. None where the words aren't of this form.
pub fn read_gen_words(args: &[Name]) -> Option<u32>
    ensures { result ≡ gen_of args.now }
{
    match args {
        [entries] => parse_num_between(entries.as_slice(), 1, 1_000_000),
        _ => None,
    }
}

/// What an import is asked for can be stated in a script: the name of its tree, and its branches, which are plain.
pub fn imports_are_stated()
    ensures { ImportsAreStated }
{}
