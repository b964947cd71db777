//! A session on a file.
use crate::open_tree::Due;
use crate::open_trees::OpenTrees;
use crate::{Replies, SessionFault};
use rio_chain::Chain;
use rio_dir::KeyTable;
use rio_effect::headers_have_records;
use rio_host::Host;
use rio_key::KeyHead;
use rio_machine::{Command, Outcome};
use rio_num::{Boxed, Name};
use rio_registry::Registry;
use rio_tree_table::TreeTable;
use std::alloc::Global;
use std::marker::Model;

/// A session on a file: what is kept beside it while commands are done.
#[derive(Drop)]
pub struct Session {
    pub(crate) alloc: Global,
    pub(crate) chain: Chain,
    pub(crate) registry: Registry,
    pub(crate) table: KeyTable,
    // How many bytes are written of the heads in the table.
    pub(crate) heads_bytes: u64,
    // The trees, as commands are judged by them and as they are listed.
    pub(crate) trees: TreeTable,
    // Their baskets, and their pending rows.
    pub(crate) filled: OpenTrees,
    // What a close writes of them.
    pub(crate) due: Due,
    pub(crate) info: Option<KeyHead>,
    pub(crate) name: Name,
    pub(crate) nbytes_name: u32,
    pub(crate) datime: u32,
    pub(crate) opened: u64,
    pub(crate) costs: u64,
    pub(crate) failed: bool,
}

impl Model for Session {
    ghost use Rattle.std.specs.Prelude.{◌≡◌, map, false};
    ghost use Rattle.rio_dir.specs.Table.{heads_size};
    ghost use Rattle.rio_model.specs.StateClasses.{StateClasses};
    ghost use Rattle.rio_recover.specs.Classes.{HasListCycle};
    ghost use Rattle.rio_recover.specs.Whole.{HoldsDirectory};
    ghost use Rattle.rio_session.specs.Due.{IsClosableWith, due_of};
    ghost use Rattle.rio_session.specs.Fills.{bare_tree};
    ghost use Rattle.rio_session.specs.Session.{SessionState};
    ghost use Rattle.rio_session.specs.SessionState.{kept_tree_of};

    ghost Value = { SessionState };

    ghost view = { λ s. record {
      segments = s.chain.segments;
      classes = s.registry;
      heads = s.table.heads;
      trees = map bare_tree s.filled.trees;
      info = s.info;
      name = s.name;
      nbytes_name = s.nbytes_name;
      datime = s.datime;
      opened = s.opened;
      costs = s.costs;
      failed = s.failed;
    } };

    // The classes are such as commands declare, and the cycle of the class list is low enough for one more.
    // Of each tree the same is kept as commands are judged by it, and what a close writes of all trees is counted. The directory
    // record is within the first record.
    ghost invariant = { λ s. record {
      classes : StateClasses s.registry;
      listed : HasListCycle s.info s.registry;
      kept : s.failed ≡ false → IsClosableWith s.chain.segments s.table.heads
          (map bare_tree s.filled.trees) s.info
          s.name;
      fresh : s.failed ≡ false → s.chain.spent ≡ false;
      trees : s.trees.trees ≡ map kept_tree_of s.filled.trees;
      due : s.failed ≡ false → s.due ≡ due_of s.filled.trees;
      bytes : s.failed ≡ false → s.heads_bytes ≡ heads_size s.table.heads;
      directory : s.failed ≡ false → HoldsDirectory s.nbytes_name s.chain.segments;
    } };
}

impl Session {
    ghost use Rattle.std.specs.Prelude.{◌≡◌, ℕ, List, false, IsErrOf, OnOk};
    ghost use Rattle.rio_machine.specs.State.{State};
    ghost use Rattle.rio_step.specs.Statable.{IsStatable};
    ghost use Rattle.rio_session.specs.Causes.{NeverReads};
    ghost use Rattle.rio_session.specs.Does.{FileAfter, KeptAfter, TextAfter};
    ghost use Rattle.rio_session.specs.FileSteps.{IsStepTold, RecordsBecome};
    ghost use Rattle.rio_session.specs.Session.{IsReady, StandsFor};
    ghost use Rattle.rio_session.specs.declared.fault.SessionFault.{SessionFault as Fault};

    /// Whether a call of the host failed, after which nothing more can be done.
    pub fn is_failed(&self) -> bool
        ensures { result ≡ self.now.failed }
    {
        self.failed
    }

    /// The keys of objects and trees, in the order of the key list.
    pub fn keys(&self) -> &[Boxed<KeyHead>]
        ensures { result.now ≡ self.now.heads }
    {
        self.table.as_slice()
    }

    /// Does a command and prints its reply, once it is on the disk. A refused command changes nothing.
    /// The clauses `file`, `text` and `kept` say what becomes of the file, of the printed text and of the session.
    pub fn apply<H: Host>(
        &mut self,
        host: &mut H,
        command: &Command,
    ) -> Result<Outcome, SessionFault>
        requires fresh { self.old.failed ≡ false }
        requires statable { IsStatable command.now }
        requires ready { IsReady (H.view host.old) self.old }
        ensures file { FileAfter Replies.Printed (H.view host.old) (H.view host.new) self.old
            self.new command.now result }
        // The mark of the command, and the records after it, follow from the records of the file.
        ensures marks { (m : State) (text : List ℕ)
            → (stands : StandsFor (H.view host.old) self.old m text)
            → IsStepTold self.old m command.now stands.state.links }
        ensures records { OnOk result ((m : State) (text : List ℕ)
            → StandsFor (H.view host.old) self.old m text
            → RecordsBecome (H.view host.old) (H.view host.new) self.old self.new m command.now) }
        ensures text { TextAfter Replies.Printed (H.view host.old) (H.view host.new) self.old
            self.new command.now result }
        ensures kept { KeptAfter Replies.Printed (H.view host.old) (H.view host.new) self.old
            self.new command.now result }
        ensures reads { NeverReads command.now
            → (H.view host.new).reads ≡ (H.view host.old).reads }
    {
        headers_have_records();
        self.judge_and_do(host, command, Replies::Printed)
    }

    /// Does a command as [`Session::apply`] does, and prints nothing: neither what it did nor why it is refused. What became of
    /// it is returned; file and session are as after [`Session::apply`]. It is for commands that come by the thousand, such as
    /// the fills of a generated file: no reply to a change is made, and the host isn't called for its text. `get` and `scan` read
    /// what they would print, since whether it can be had in a version decides what is returned.
    /// The clauses `file`, `text` and `kept` are those of [`Session::apply`] with an empty reply. By `said` and `no_say_fault`
    /// the printed text stays as it is, and printing can't fail.
    pub fn apply_quiet<H: Host>(
        &mut self,
        host: &mut H,
        command: &Command,
    ) -> Result<Outcome, SessionFault>
        requires fresh { self.old.failed ≡ false }
        requires statable { IsStatable command.now }
        requires ready { IsReady (H.view host.old) self.old }
        ensures file { FileAfter Replies.Omitted (H.view host.old) (H.view host.new) self.old
            self.new command.now result }
        // The mark of the command, and the records after it, follow from the records of the file.
        ensures marks { (m : State) (text : List ℕ)
            → (stands : StandsFor (H.view host.old) self.old m text)
            → IsStepTold self.old m command.now stands.state.links }
        ensures records { OnOk result ((m : State) (text : List ℕ)
            → StandsFor (H.view host.old) self.old m text
            → RecordsBecome (H.view host.old) (H.view host.new) self.old self.new m command.now) }
        ensures text { TextAfter Replies.Omitted (H.view host.old) (H.view host.new) self.old
            self.new command.now result }
        ensures said { (H.view host.new).said ≡ (H.view host.old).said }
        ensures no_say_fault { IsErrOf result Fault.SayFault → ⊥ }
        ensures kept { KeptAfter Replies.Omitted (H.view host.old) (H.view host.new) self.old
            self.new command.now result }
        ensures reads { NeverReads command.now
            → (H.view host.new).reads ≡ (H.view host.old).reads }
    {
        headers_have_records();
        self.judge_and_do(host, command, Replies::Omitted)
    }
}
