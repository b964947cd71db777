//! The rows of a tree are printed.
use crate::open_tree::OpenTree;
use crate::scan_rows::scan_text;
use crate::{Replies, Session, SessionFault};
use rio_chain::ReadFault;
use rio_format::Base;
use rio_host::Host;
use rio_key::KeyHead;
use rio_machine::Outcome;
use rio_model::MapFault;
use rio_num::Bytes;

/// The text of a scan, or why the rows can't be had in the version.
type ScanText = Result<Bytes, MapFault>;

impl Session {
    ghost use Rattle.std.specs.Prelude.{◌≡◌, Some, false, IfOk, IsSome};
    ghost use Rattle.std.specs.List.{find};
    ghost use Rattle.rio_chain.specs.Chains.{HoldsChain};
    ghost use Rattle.rio_fill.specs.Fill.{entry_count};
    ghost use Rattle.rio_host.specs.OnlyReads.{OnlyReads};
    ghost use Rattle.rio_host.specs.Reading.{IsReadCause};
    ghost use Rattle.rio_reply.specs.Scanned.{scan_start};
    ghost use Rattle.rio_session.specs.Fills.{FilledTree, is_tree_of};
    ghost use Rattle.rio_session.specs.HeldBaskets.{IsTreeStored};
    ghost use Rattle.rio_session.specs.ScanReplies.{TellsRows};
    ghost use Rattle.rio_session.specs.Scans.{Scans};
    ghost use Rattle.rio_session.specs.Sound.{IsSoundState};

    // The text of a scan of a tree.
    fn text_of_rows<H: Host>(
        &self,
        host: &mut H,
        tree: &OpenTree,
        class: &Option<Base>,
    ) -> Result<ScanText, ReadFault>
        requires fresh { self.now.failed ≡ false }
        requires stored { IsTreeStored self.now.segments tree.now.fill }
        requires holds { HoldsChain (H.view host.old) self.now.segments }
        ensures rows { IfOk result (λ told. Scans (H.view host.old) self.now.segments
            self.now.classes class.now tree.now.fill
            (scan_start tree.now.name (entry_count tree.now.fill)) (λ text. text.bytes) told) }
        ensures calls { OnlyReads (H.view host.old) (H.view host.new) }
        ensures cause { IsReadCause (H.view host.old) (H.view host.new) result }
    {
        let (saved, pending) = tree.rows();
        match saved.checked_add(pending) {
            Some(entries) => scan_text(
                self.alloc,
                host,
                &self.chain,
                self.registry.classes(),
                &tree.filler,
                tree.width(),
                entries,
                tree.name.as_slice(),
                class,
            ),
            None => Err(ReadFault::NoMemory),
        }
    }

    // The text of a scan of the tree of a name.
    fn text_of_scan<H: Host>(
        &self,
        host: &mut H,
        name: &[u8],
        class: &Option<Base>,
    ) -> Result<ScanText, ReadFault>
        requires fresh { self.now.failed ≡ false }
        requires there { IsSome (find (is_tree_of name.now) self.now.trees) }
        requires holds { HoldsChain (H.view host.old) self.now.segments }
        ensures rows { IfOk result (λ told. (t : FilledTree)
            → find (is_tree_of name.now) self.now.trees ≡ Some t
            → Scans (H.view host.old) self.now.segments self.now.classes class.now t.fill
            (scan_start name.now (entry_count t.fill)) (λ text. text.bytes) told) }
        ensures calls { OnlyReads (H.view host.old) (H.view host.new) }
        ensures cause { IsReadCause (H.view host.old) (H.view host.new) result }
    {
        match self.filled.find(name) {
            Some(tree) => self.text_of_rows(host, tree, class),
            None => unreachable!(),
        }
    }

    // Prints the rows of the tree of a key, as they are or with the objects of a class in a version, unless replies are omitted.
    pub(crate) fn scan<H: Host>(
        &mut self,
        host: &mut H,
        head: &KeyHead,
        class: &Option<Base>,
        replies: Replies,
    ) -> Result<Outcome, SessionFault>
        requires fresh { self.old.failed ≡ false }
        requires there { IsSome (find (is_tree_of head.now.name) self.old.trees) }
        requires holds { HoldsChain (H.view host.old) self.old.segments }
        ensures tells { (t : FilledTree) → find (is_tree_of head.now.name) self.old.trees ≡ Some t
            → TellsRows replies head.now.name class.now t (H.view host.old) (H.view host.new)
            self.old self.new result }
        ensures sound { IsSoundState self.old }
    {
        match self.text_of_scan(host, head.name.as_slice(), class) {
            Ok(told) => self.print_told(host, told, replies),
            Err(ReadFault::NoMemory) => Err(SessionFault::NoMemory),
            Err(ReadFault::HostFault) => {
                self.failed = true;
                Err(SessionFault::HostFault)
            }
        }
    }
}
