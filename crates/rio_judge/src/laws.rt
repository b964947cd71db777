//! A law of what is judged by keys.
ghost use Rattle.rio_judge.specs.Judging.{KeysHaveStates};
ghost use Rattle.rio_judge.specs.Trees.{ItemsHaveStates, KeysOfObjectsAreItems};

/// The keys of any table stand for the objects of a state, whatever its classes are. So what a
/// judgement says of each state that they stand for, it says of one.
pub fn keys_have_states()
    ensures { KeysHaveStates }
{}

/// So do keys and trees, where the trees stand in order of names and each has one key. Keys that stand for a state without
/// trees are such, beside no trees.
pub fn items_have_states()
    ensures states { ItemsHaveStates }
    ensures objects { KeysOfObjectsAreItems }
{}
