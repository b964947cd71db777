//! Laws of tree headers.
ghost use Rattle.rio_tree.specs.HeaderLength.{HeaderLengthIsKnown};
ghost use Rattle.rio_tree.specs.WrittenLaws.{WrittenTreeFits, WrittenTreeIsRead};

/// The header that is written for a tree that can be declared fits the class TTree among the classes of trees, if its
/// numbers are those that the members may be.
pub fn written_tree_fits()
    ensures { WrittenTreeFits }
{}

/// The header that is written for a tree that can be declared is read as it, if no branch is refused, its numbers are those
/// that the members may be, and all that isn't declared with a branch stands as it follows from that.
pub fn written_tree_is_read()
    ensures { WrittenTreeIsRead }
{}

/// The header that is written for a tree has 20 bytes for each basket, and is else as long as that of a tree of this name
/// and these branches without baskets. No other number that it says changes its length.
pub fn header_length_is_known()
    ensures { HeaderLengthIsKnown }
{}
