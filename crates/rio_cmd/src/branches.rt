//! The branches of a tree.
ghost use Rattle.std.specs.Prelude.{◌≡◌, [], length};
ghost use Rattle.rio_num.specs.Reading.{Takes, some_if};
ghost use Rattle.rio_num.specs.Word.{is_name_text};
ghost use Rattle.rio_token.specs.Marks.{colon};
ghost use Rattle.rio_token.specs.Reading.{Reads, word_that_at};
ghost use Rattle.rio_token.specs.Tokens.{behind};
ghost use Rattle.rio_leaf.specs.declared.branch.Shape.TheVariants.{Class};
ghost use Rattle.rio_step.specs.TreeGrammar.{branch_at, branch_class_at, branches_at, further_at, glued_at, goes_on, is_glued_mark, is_new_branch, opens_class};
ghost use Rattle.rio_cmd.specs.Known.{leaves_so_far, more_branches_at};

use crate::glued::{expect_glued_mark, is_glued_mark, peek_glued_word};
use crate::known::KnownTree;
use crate::leaves::read_leaves;
use rio_leaf::BranchDefs;
use rio_num::{Name, is_name};
use rio_token::{TextFault, Token, Tokens};
use std::alloc::Global;

// A name that no branch of the tree has yet.
#[tactic(auto, unfolding(rio_token::specs::Reading::word_that_at))]
fn take_branch_name<'a>(tokens: &mut Tokens<'a>, tree: &KnownTree) -> Result<&'a [u8], TextFault>
    ensures { Takes (λ name. name.now) result
        (word_that_at (is_new_branch tree.now.branches) tokens.old) tokens.old tokens.new }
{
    match tokens.peek_word() {
        Some(word) if is_name(word) && !tree.has_branch(word) => {
            tokens.pass();
            Ok(word)
        }
        _ => Err(tokens.bad()),
    }
}

// Whether a colon follows the next token directly.
fn is_colon_behind(tokens: &Tokens) -> bool
    ensures { result ≡ is_glued_mark colon (behind tokens.now) }
{
    let mut ahead = tokens.copy();
    ahead.pass();
    is_glued_mark(&ahead, b':')
}

// Whether the word `class` comes next, and can't be the name of a leaf.
fn opens_class(tokens: &Tokens, tree: &KnownTree) -> bool
    ensures { result ≡ opens_class (leaves_so_far tree.now) tokens.now }
{
    match peek_glued_word(tokens) {
        Some(word) if word == b"class".as_slice() => is_colon_behind(tokens)
            || tree.has_leaf(b"class"),
        _ => false,
    }
}

// A name, which must follow directly.
#[tactic(auto, unfolding(rio_step::specs::TreeGrammar::glued_at))]
fn take_class_name<'a>(tokens: &mut Tokens<'a>) -> Result<&'a [u8], TextFault>
    ensures { Takes (λ name. name.now) result
        (glued_at (λ word. some_if (is_name_text word) word) tokens.old) tokens.old tokens.new }
{
    match peek_glued_word(tokens) {
        Some(word) if is_name(word) => {
            tokens.pass();
            Ok(word)
        }
        _ => Err(tokens.bad()),
    }
}

// The class of objects, behind the word `class`.
#[tactic(auto, unfolding(rio_step::specs::TreeGrammar::branch_class_at))]
fn read_branch_class(alloc: Global, tokens: &mut Tokens) -> Result<Name, TextFault>
    ensures { Reads (λ class. Class class) result (branch_class_at tokens.old) tokens.new }
{
    expect_glued_mark(tokens, b':')?;
    let class = take_class_name(tokens)?;
    Ok(Name::from_slice(alloc, class)?)
}

// A branch behind others.
#[tactic(auto, unfolding(rio_step::specs::TreeGrammar::branch_at, rio_step::specs::TreeGrammar::branch_leaves_at))]
fn read_branch<'a>(
    alloc: Global,
    tokens: &mut Tokens<'a>,
    tree: KnownTree<'a>,
) -> Result<KnownTree<'a>, TextFault>
    requires { tree.own ≡ [] }
    ensures { Reads (λ more. more) result
        (more_branches_at tree.entry.branches tokens.old) tokens.new }
{
    let name = take_branch_name(tokens, &tree)?;
    expect_glued_mark(tokens, b'=')?;
    if opens_class(tokens, &tree) {
        tokens.pass();
        let class = read_branch_class(alloc, tokens)?;
        return Ok(tree.with_class(alloc, name, class)?);
    }
    let open = read_leaves(alloc, tokens, tree)?;
    Ok(open.with_leaves(alloc, name)?)
}

fn goes_on(tokens: &Tokens) -> bool
    ensures { result ≡ goes_on tokens.now }
{
    !matches!(tokens.peek(), Token::End)
}

fn read_more_branches<'a>(
    alloc: Global,
    tokens: &mut Tokens<'a>,
    mut tree: KnownTree<'a>,
) -> Result<BranchDefs, TextFault>
    requires { tree.own ≡ [] }
    ensures { Reads (λ branches. branches) result
        (further_at (length tokens.old.rest) goes_on branch_at tree.entry.branches tokens.old)
        tokens.new }
{
    for _done in 0..tokens.left() {
        if !goes_on(tokens) {
            return Ok(tree.into_branches());
        }
        tree = read_branch(alloc, tokens, tree)?;
    }
    Ok(tree.into_branches())
}

/// One branch or more, up to the end of the line. No two have one name, and no two leaves of the tree.
#[tactic(auto, unfolding(rio_step::specs::TreeGrammar::items_at))]
pub(crate) fn read_branches(alloc: Global, tokens: &mut Tokens) -> Result<BranchDefs, TextFault>
    ensures { Reads (λ branches. branches) result (branches_at tokens.old) tokens.new }
{
    let first = read_branch(alloc, tokens, KnownTree::new(alloc))?;
    read_more_branches(alloc, tokens, first)
}
