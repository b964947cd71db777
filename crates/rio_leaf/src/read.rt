//! Lists of leaves are read.
ghost use Rattle.std.specs.Prelude.{◌≡◌, ◌+◌, ◌<◌, ◌≤◌, ◌^◌, ◌==◌, List, [], ◌∷◌, Ok, length, IfOk, IsTrue};
ghost use Rattle.std.specs.List.{position_or_len};
ghost use Rattle.std.specs.Option.{option_copied, option_map_or};
ghost use Rattle.rio_num.specs.Answers.{GivesUnless, ReadsUnless};
ghost use Rattle.rio_leaf.specs.Spelling.{is_leaf_list, text_of_leaves};
ghost use Rattle.rio_leaf.specs.declared.fault.LeafFault.TheVariants.{NoMemory};
ghost use Rattle.rio_leaf.specs.declared.leaf.Leaf.{Leaf};
ghost use Rattle.rio_leaf.specs.Marks.{between_leaves};
ghost use Rattle.rio_leaf.specs.Reading.{dim_at, dim_of, leaf_at, leaf_name_of, leaves_in, letter_in, pieces, said_at};

use crate::dim::{dim_in, letter_in};
use crate::rules::is_taken;
use crate::scan::Scan;
use crate::{Dim, Leaf, LeafFault, Leaves};
use rio_num::{Name, is_name};
use std::alloc::Global;

#[tactic(auto, unfolding(crate::specs::Reading::said_at))]
fn take_name<'a>(before: &[Leaf], scan: &mut Scan<'a>) -> Result<&'a [u8], LeafFault>
    ensures { ReadsUnless NoMemory (λ name. name.now) result
        (said_at (leaf_name_of before.now) scan.old) scan.new }
{
    let word = scan.word();
    if is_name(word) && !is_taken(before, word) {
        scan.pass_word();
        Ok(word)
    } else {
        Err(scan.bad())
    }
}

#[tactic(auto, unfolding(crate::specs::Reading::said_at))]
fn take_dim(alloc: Global, before: &[Leaf], own: &[u8], scan: &mut Scan) -> Result<Dim, LeafFault>
    ensures { ReadsUnless NoMemory (λ dim. dim) result
        (said_at (dim_of before.now own.now) scan.old) scan.new }
{
    match dim_in(alloc, before, own, scan.word())? {
        Some(dim) => {
            scan.pass_word();
            Ok(dim)
        }
        None => Err(scan.bad()),
    }
}

#[tactic(auto, unfolding(crate::specs::Reading::said_at))]
fn take_letter(dim: &Dim, scan: &mut Scan) -> Result<u8, LeafFault>
    ensures { ReadsUnless NoMemory (λ letter. letter) result
        (said_at (letter_in dim.now) scan.old) scan.new }
{
    match letter_in(dim, scan.word()) {
        Some(letter) => {
            scan.pass_word();
            Ok(letter)
        }
        None => Err(scan.bad()),
    }
}

// What stands in square brackets, if they stand there.
#[tactic(auto, unfolding(crate::specs::Reading::dim_at))]
fn read_dim(alloc: Global, before: &[Leaf], own: &[u8], scan: &mut Scan) -> Result<Dim, LeafFault>
    ensures { ReadsUnless NoMemory (λ dim. dim) result
        (dim_at before.now own.now scan.old) scan.new }
{
    if !scan.take(b'[') {
        return Ok(Dim::One);
    }
    let dim = take_dim(alloc, before, own, scan)?;
    scan.expect(b']')?;
    Ok(dim)
}

// A leaf behind others, which is all that is left.
#[tactic(auto, unfolding(crate::specs::Reading::leaf_at))]
fn read_leaf(alloc: Global, before: &[Leaf], scan: &mut Scan) -> Result<Leaf, LeafFault>
    ensures { ReadsUnless NoMemory (λ leaf. leaf) result (leaf_at before.now scan.old) scan.new }
{
    let name = take_name(before, scan)?;
    let dim = read_dim(alloc, before, name, scan)?;
    scan.expect(b'/')?;
    let letter = take_letter(&dim, scan)?;
    scan.expect_end()?;
    Ok(Leaf {
        name: Name::from_slice(alloc, name)?,
        letter,
        dim,
    })
}

// How many bytes stand before the first colon, or before the end.
fn piece_length(text: &[u8]) -> usize
    ensures value { result ≡ position_or_len (λ b. b == between_leaves) text.now }
    ensures within { result ≤ length text.now }
{
    text.iter().take_while(|byte| **byte != b':').count()
}

// What stands before the first colon, and what stands behind it, if there is one.
fn first_piece(text: &[u8]) -> (&[u8], Option<&[u8]>)
    ensures pieces { pieces text.now
        ≡ result.0.now ∷ option_map_or pieces (option_copied result.1) [] }
    ensures whole { length text.now
        ≡ length result.0.now + option_map_or (λ b. length b + 1) (option_copied result.1) 0 }
{
    match text.split_at(piece_length(text)) {
        (piece, []) => (piece, None),
        (piece, [_, behind @ ..]) => (piece, Some(behind)),
    }
}

#[tactic(auto, unfolding(crate::specs::Reading::leaves_at))]
fn take_leaves(alloc: Global, text: &[u8]) -> Result<Leaves, LeafFault>
    requires { length text.now < 2 ^ 32 }
    ensures { GivesUnless NoMemory (λ leaves. leaves) result (leaves_in text.now) }
{
    let mut leaves = Leaves::new(alloc);
    let mut rest = text;
    loop {
        let (piece, behind) = first_piece(rest);
        let mut scan = Scan::new(piece, text.len() - rest.len());
        let leaf = read_leaf(alloc, leaves.as_slice(), &mut scan)?;
        leaves.push(leaf)?;
        match behind {
            Some(more) => rest = more,
            None => return Ok(leaves),
        }
    }
}

/// The leaves that the text lists: `name/I:more[3]/F:list[name]/D`. BadLeaf comes at the first token that can't stand.
/// The counter of a leaf may be one of an earlier branch, which the text doesn't show.
pub fn read_leaves(alloc: Global, text: &[u8]) -> Result<Leaves, LeafFault>
    requires { length text.now < 2 ^ 32 }
    ensures exact { GivesUnless NoMemory (λ leaves. leaves) result (leaves_in text.now) }
    ensures found { IfOk result (λ leaves.
        IsTrue (is_leaf_list leaves) × (text.now ≡ text_of_leaves leaves)) }
    ensures only { (leaves : List Leaf) → IsTrue (is_leaf_list leaves)
        → text.now ≡ text_of_leaves leaves
        → GivesUnless NoMemory (λ x. x) result (Ok leaves) }
{
    take_leaves(alloc, text)
}
