//! The leaves of a branch, behind its name.
ghost use Rattle.std.specs.Prelude.{◌≡◌, ◌<◌, [], length, IfOk};
ghost use Rattle.rio_num.specs.Reading.{Takes, some_if};
ghost use Rattle.rio_token.specs.Marks.{colon};
ghost use Rattle.rio_token.specs.Reading.{Reads};
ghost use Rattle.rio_leaf.specs.Leaves.{is_letter_of};
ghost use Rattle.rio_leaf.specs.Reading.{letter_in};
ghost use Rattle.rio_leaf.specs.Stated.{all_leaves};
ghost use Rattle.rio_step.specs.TreeGrammar.{branch_leaf_at, further_at, glued_at, is_glued_mark, is_new_leaf, items_at, leaf_dim_at, leaf_dimension, tree_leaf_at};
ghost use Rattle.rio_cmd.specs.Known.{leaf_of, leaves_so_far};

use crate::glued::{expect_glued_mark, peek_glued_word, take_glued_mark};
use crate::known::{KnownTree, NewLeaf};
use rio_leaf::Dim;
use rio_num::{Name, NoMemory, is_name};
use rio_token::{TextFault, Tokens, parse_num_between};
use std::alloc::Global;

// A name that no leaf of the tree has yet.
#[tactic(auto, unfolding(rio_step::specs::TreeGrammar::glued_at))]
fn take_leaf_name<'a>(tokens: &mut Tokens<'a>, tree: &KnownTree) -> Result<&'a [u8], TextFault>
    ensures { Takes (λ name. name.now) result
        (glued_at (λ word. some_if (is_new_leaf (leaves_so_far tree.now) word) word) tokens.old)
        tokens.old tokens.new }
{
    match peek_glued_word(tokens) {
        Some(word) if is_name(word) && !tree.has_leaf(word) => {
            tokens.pass();
            Ok(word)
        }
        _ => Err(tokens.bad()),
    }
}

// The dimension that the word says: so many values, or those that a leaf of the tree counts.
#[tactic(auto, unfolding(rio_step::specs::TreeGrammar::leaf_dimension))]
fn dim_in(alloc: Global, tree: &KnownTree, word: &[u8]) -> Result<Option<Dim>, NoMemory>
    ensures { IfOk result (λ dim. dim ≡ leaf_dimension (leaves_so_far tree.now) word.now) }
{
    match parse_num_between(word, 2, 100_000) {
        Some(count) => Ok(Some(Dim::Fixed(count))),
        None if is_name(word) && tree.has_counting_leaf(word) => Ok(Some(Dim::Counted {
            counter: Name::from_slice(alloc, word)?,
            times: 1,
        })),
        None => Ok(None),
    }
}

// What stands in square brackets, behind the opening one and without the closing one.
#[tactic(auto, unfolding(rio_step::specs::TreeGrammar::glued_at))]
fn take_dim(alloc: Global, tokens: &mut Tokens, tree: &KnownTree) -> Result<Dim, TextFault>
    ensures { Reads (λ dim. dim) result
        (glued_at (leaf_dimension (leaves_so_far tree.now)) tokens.old) tokens.new }
{
    let dim = match peek_glued_word(tokens) {
        Some(word) => dim_in(alloc, tree, word)?,
        None => None,
    };
    match dim {
        Some(dim) => {
            tokens.pass();
            Ok(dim)
        }
        None => Err(tokens.bad()),
    }
}

// What stands in square brackets, if they stand there.
#[tactic(auto, unfolding(rio_step::specs::TreeGrammar::leaf_dim_at))]
fn read_dim(alloc: Global, tokens: &mut Tokens, tree: &KnownTree) -> Result<Dim, TextFault>
    ensures { Reads (λ dim. dim) result
        (leaf_dim_at (leaves_so_far tree.now) tokens.old) tokens.new }
{
    if !take_glued_mark(tokens, b'[') {
        return Ok(Dim::One);
    }
    let dim = take_dim(alloc, tokens, tree)?;
    expect_glued_mark(tokens, b']')?;
    Ok(dim)
}

// Whether a leaf of the dimension may have the letter: a text has no dimension.
fn is_letter_of(dim: &Dim, letter: u8) -> bool
    ensures { result ≡ is_letter_of dim.now letter }
{
    b"BbSsIiLlFDOC".contains(&letter) && (matches!(dim, Dim::One) || letter != b'C')
}

// The letter that the word is, of a leaf of the dimension.
fn letter_in(dim: &Dim, word: &[u8]) -> Option<u8>
    ensures { result ≡ letter_in dim.now word.now }
{
    match word {
        [letter] if is_letter_of(dim, *letter) => Some(*letter),
        _ => None,
    }
}

#[tactic(auto, unfolding(rio_step::specs::TreeGrammar::glued_at))]
fn take_letter(tokens: &mut Tokens, dim: &Dim) -> Result<u8, TextFault>
    ensures { Takes (λ letter. letter) result
        (glued_at (letter_in dim.now) tokens.old) tokens.old tokens.new }
{
    match peek_glued_word(tokens) {
        Some(word) => match letter_in(dim, word) {
            Some(letter) => {
                tokens.pass();
                Ok(letter)
            }
            None => Err(tokens.bad()),
        },
        None => Err(tokens.bad()),
    }
}

// A leaf, behind all leaves of the tree that were read.
#[tactic(auto, unfolding(rio_step::specs::TreeGrammar::tree_leaf_at))]
fn read_leaf<'a>(
    alloc: Global,
    tokens: &mut Tokens<'a>,
    tree: &KnownTree,
) -> Result<NewLeaf<'a>, TextFault>
    ensures { Reads (λ leaf. leaf_of leaf.name.now leaf.letter leaf.dim) result
        (tree_leaf_at (leaves_so_far tree.now) tokens.old) tokens.new }
{
    let name = take_leaf_name(tokens, tree)?;
    let dim = read_dim(alloc, tokens, tree)?;
    expect_glued_mark(tokens, b'/')?;
    let letter = take_letter(tokens, &dim)?;
    Ok(NewLeaf { name, letter, dim })
}

/// The leaves of the branch behind those that were read, with a colon before each but the first.
#[tactic(auto, unfolding(rio_step::specs::TreeGrammar::items_at, rio_step::specs::TreeGrammar::branch_leaf_at))]
pub(crate) fn read_leaves<'a>(
    alloc: Global,
    tokens: &mut Tokens<'a>,
    tree: KnownTree<'a>,
) -> Result<KnownTree<'a>, TextFault>
    requires { tree.own ≡ [] }
    ensures leaves { Reads (λ more. more.own) result
        (items_at (is_glued_mark colon) (branch_leaf_at (all_leaves tree.entry.branches))
        tokens.old) tokens.new }
    ensures branches { IfOk result (λ more. more.branches ≡ tree.entry.branches) }
{
    let leaf = read_leaf(alloc, tokens, &tree)?;
    let first = tree.with_leaf(alloc, leaf)?;
    read_more_leaves(alloc, tokens, first)
}

fn read_more_leaves<'a>(
    alloc: Global,
    tokens: &mut Tokens<'a>,
    mut tree: KnownTree<'a>,
) -> Result<KnownTree<'a>, TextFault>
    requires { 0 < length tree.own }
    ensures leaves { Reads (λ more. more.own) result
        (further_at (length tokens.old.rest) (is_glued_mark colon)
        (branch_leaf_at (all_leaves tree.entry.branches)) tree.entry.own tokens.old)
        tokens.new }
    ensures branches { IfOk result (λ more. more.branches ≡ tree.entry.branches) }
{
    for _done in 0..tokens.left() {
        if !take_glued_mark(tokens, b':') {
            return Ok(tree);
        }
        let leaf = read_leaf(alloc, tokens, &tree)?;
        tree = tree.with_leaf(alloc, leaf)?;
    }
    Ok(tree)
}
