//! The grammar of leaf lists and their reading belong together.
ghost use Rattle.std.specs.Prelude.{◌≡◌, ℕ, List, Ok, Err};
ghost use Rattle.rio_leaf.specs.declared.fault.LeafFault.{LeafFault};
ghost use Rattle.rio_leaf.specs.declared.leaf.Leaf.{Leaf};
ghost use Rattle.rio_leaf.specs.Reading.{leaves_in};
ghost use Rattle.rio_leaf.specs.Spelling.{SpellsLeaves};
ghost use Rattle.rio_leaf.specs.ToldPlaces.{IsFirstBadLeaf};

/// The text that spells leaves is read as them.
pub fn spelled_leaves_are_read()
    ensures { (leaves : List Leaf) → (text : List ℕ)
        → SpellsLeaves leaves text → leaves_in text ≡ Ok leaves }
{}

/// Leaves that are read are spelled by the text.
pub fn read_leaves_are_spelled()
    ensures { (leaves : List Leaf) → (text : List ℕ)
        → leaves_in text ≡ Ok leaves → SpellsLeaves leaves text }
{}

/// A text that isn't read as leaves has a first token that can't stand, and the place that is told is its place: the
/// text before it can be completed, if it has fewer than 2^32 bytes, and whatever stands behind that token the place is
/// the same.
pub fn first_bad_leaf_tokens_are_told()
    ensures { (text : List ℕ) → (fault : LeafFault)
        → leaves_in text ≡ Err fault → IsFirstBadLeaf text fault }
{}
