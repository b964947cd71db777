//! Where the records stand that a delete releases.
ghost use Rattle.std.specs.Prelude.{◌≡◌, ◌++◌, map, IfOk, OnOk};
ghost use Rattle.rio_session.specs.Fills.{places_of_fill};

use crate::Session;
use crate::open_tree::OpenTree;
use rio_key::KeyHead;
use rio_num::NoMemory;
use rio_tree::BasketAt;
use std::alloc::Global;

// Puts the places of these baskets at the end.
fn push_places(places: &mut Vec<u64>, baskets: &[BasketAt]) -> Result<(), NoMemory>
    ensures { OnOk result
        (places.new.items ≡ places.old.items ++ map (λ at. at.seek) baskets.now) }
{
    for at in baskets {
        places.push(at.seek)?;
    }
    Ok(())
}

// Where the baskets of a tree stand that were written, branch by branch.
fn basket_places(alloc: Global, tree: &OpenTree) -> Result<Vec<u64>, NoMemory>
    ensures { IfOk result (λ places. places.items ≡ places_of_fill tree.now.fill) }
{
    let mut places = Vec::new(alloc);
    for k in 0..tree.width() {
        match tree.filler.baskets(k) {
            Some(baskets) => push_places(&mut places, baskets)?,
            None => {}
        }
    }
    Ok(places)
}

impl Session {
    ghost use Rattle.std.specs.Prelude.{◌≡◌, Some, false, IfOk};
    ghost use Rattle.rio_dir.specs.Table.{head_of};
    ghost use Rattle.rio_session.specs.Kept.{released_by, tree_places};
    ghost use Rattle.rio_session.specs.Releases.{AreReleasable};

    // Where the baskets of the tree of a name stand, in order; of a name of no tree there are none.
    fn tree_places(&self, name: &[u8]) -> Result<Vec<u64>, NoMemory>
        requires fresh { self.now.failed ≡ false }
        ensures { IfOk result (λ places. places.items ≡ tree_places self.now name.now) }
    {
        // Looked at so that the form of the segments is known to the proof.
        let _end = self.chain.end();
        match self.filled.find(name) {
            Some(tree) => {
                let mut places = basket_places(self.alloc, tree)?;
                places.sort_unstable();
                Ok(places)
            }
            None => Ok(Vec::new(self.alloc)),
        }
    }

    // The records that the delete of the object or tree of a key releases: that of the key, and then the baskets of the
    // tree in order of place.
    pub(crate) fn released_by(&self, head: &KeyHead) -> Result<Vec<u64>, NoMemory>
        requires fresh { self.now.failed ≡ false }
        requires there { head_of head.now.name (Some head.now.cycle) self.now.heads
            ≡ Some head.now }
        ensures places { IfOk result (λ places. places.items
            ≡ released_by self.now head.now.name head.now.cycle) }
        ensures records { IfOk result
            (λ places. AreReleasable self.now.segments places.items) }
    {
        let _end = self.chain.end();
        let mut places = self.tree_places(head.name.as_slice())?;
        places.insert(0, head.seek)?;
        Ok(places)
    }
}
