//! A tree is made.
ghost use Rattle.std.specs.Prelude.{◌≡◌, ℕ, [], ◌∷◌, ◌++◌, slice_get, Some, IfOk};
ghost use Rattle.rio_session.specs.declared.steps.Step.{Step as PlannedStep};
ghost use Rattle.std.specs.Option.{option_or};

use crate::header::{TREE_CLASS, header_bytes, header_record};
use crate::list::list_key_length;
use crate::new_head::new_head;
use crate::open_tree::OpenTree;
use crate::place::key_length;
use crate::replies::tree_text;
use crate::steps::{Step, make_changes};
use crate::{Replies, Session, SessionFault};
use rio_chain::PlanFault;
use rio_effect::headers_have_records;
use rio_fill::Filler;
use rio_host::Host;
use rio_info::write_info;
use rio_judge::NewTree;
use rio_key::KeyHead;
use rio_machine::{Outcome, Refusal};
use rio_num::{Bytes, Lengths, NoMemory, Places, padded};
use rio_state::END_LIMIT;
use rio_tree::TreeHead;
use rio_tree_table::KeptTree;

/// The put of a class list and its key, where there was no class list; else nothing.
#[derive(Drop)]
struct ListMade {
    steps: Vec<Step>,
    list: Option<KeyHead>,
    // How many records are put.
    count: usize,
}

/// What is made for a new tree: its records, and what is kept of it.
#[derive(Drop)]
struct TreeMade {
    steps: Vec<Step>,
    // The key of the class list, where one is put.
    list: Option<KeyHead>,
    head: KeyHead,
    tree: OpenTree,
    kept: KeptTree,
}

// The place at `k`, counted from 0.
fn place_at(places: &Places, k: usize) -> u64
    ensures { (place : ℕ) → slice_get places.now k ≡ Some place → result ≡ place }
{
    match places.get(k) {
        Some(place) => *place,
        None => 0,
    }
}

// The steps with the put of a record more.
fn with_put(steps: Vec<Step>, place: u64, body: Bytes) -> Result<Vec<Step>, NoMemory>
    ensures { IfOk result (λ puts. puts.items ≡ steps.items ++ PlannedStep.Put place body ∷ []) }
{
    let mut puts = steps;
    puts.push(Step::Put { place, body })?;
    Ok(puts)
}

// What was made isn't kept where a call of the host failed.
fn let_go(_list: Option<KeyHead>, _head: KeyHead, _tree: OpenTree, _kept: KeptTree) {}

// The list that was put, or else the one before.
fn list_then(made: Option<KeyHead>, before: Option<KeyHead>) -> Option<KeyHead>
    ensures { result ≡ option_or made before }
{
    match made {
        Some(head) => Some(head),
        None => before,
    }
}

impl Session {
    ghost use Rattle.std.specs.Prelude.{◌≡◌, ◌+◌, ◌*◌, ◌<◌, ◌≤◌, ◌^◌, ℕ, List, length, true, false, Some, None, IfOk, IfSome};
    ghost use Rattle.std.specs.List.{find};
    ghost use Rattle.rio_chain.specs.Placing.{places_of, space_of};
    ghost use Rattle.rio_leaf.specs.declared.branch.BranchDef.{BranchDef as Declared};
    ghost use Rattle.rio_state.specs.Closing.{is_full};
    ghost use Rattle.rio_step.specs.Costs.{info_size};
    ghost use Rattle.rio_tree.specs.HeaderLength.{header_size};
    ghost use Rattle.rio_machine.specs.declared.command.Outcome.{Outcome as BecameOf};
    ghost use Rattle.rio_session.specs.Changing.{ChangesFile};
    ghost use Rattle.rio_session.specs.Doable.{IsNewTree};
    ghost use Rattle.rio_session.specs.Fills.{is_tree_of};
    ghost use Rattle.rio_session.specs.TreePlans.{CanListFirst, IsListMade, IsTreeMade, first_length, head_now, lengths_with, making_now, need_of_tree, records_more};
    ghost use Rattle.rio_session.specs.TreeWorks.{doing};
    ghost use Rattle.rio_judge.specs.declared.work.AnyWork.{AnyWork};
    ghost use Rattle.rio_judge.specs.declared.work.NewTree.{NewTree as NewTreeOf};
    ghost use Rattle.rio_judge.specs.declared.work.TreeWork.{TreeWork};
    ghost use Rattle.rio_machine.specs.declared.command.Command.{Command as Line};
    ghost use Rattle.rio_session.specs.Doable.{AnyCanBeDone, IsToDo};
    ghost use Rattle.rio_session.specs.Does.{Does};
    ghost use Rattle.rio_session.specs.Session.{IsReady};

    // How long the value of the class list is.
    fn list_length(&self) -> Result<u64, NoMemory>
        ensures exact { IfOk result (λ n. n ≡ info_size self.now.classes) }
        ensures low { IfOk result (λ n. n ≤ 16777216) }
    {
        let contents = write_info(self.alloc, self.registry.classes(), list_key_length())?;
        Ok(contents.len() as u64)
    }

    // The same where one has to be put.
    fn first_list_length(&self, length: u64) -> Option<u64>
        ensures { result ≡ first_length self.now.info length }
    {
        match &self.info {
            Some(_) => None,
            None => Some(length),
        }
    }

    // How long the records are of a new tree: the class list where there is none, and the header.
    fn tree_lengths(&self, name: &[u8], list: Option<u64>, header: u64) -> Result<Lengths, NoMemory>
        requires name { length name.now ≤ 100 }
        requires list { IfSome list (λ n. n ≤ 16777216) }
        requires header { header < 2 ^ 30 }
        ensures { IfOk result (λ lengths. lengths ≡ lengths_with list name.now header) }
    {
        let mut lengths = Lengths::new(self.alloc);
        if let Some(list) = list {
            lengths.push(padded(list_key_length() + list))?;
        }
        lengths.push(padded(key_length(TREE_CLASS, name) + header))?;
        Ok(lengths)
    }

    // What a close needs with the tree.
    fn need_with_tree(&self, name: &[u8], list: Option<u64>) -> u64
        requires fresh { self.now.failed ≡ false }
        requires name { length name.now ≤ 100 }
        ensures { result ≡ need_of_tree self.now name.now (records_more list) }
    {
        let heads = self.heads_bytes + key_length(TREE_CLASS, name);
        let more = match list {
            Some(_) => 2,
            None => 1,
        };
        self.need_by(heads, self.chain.live() + more)
    }

    // The time of all records.
    fn time(&self) -> u32
        ensures { result ≡ self.now.datime }
    {
        self.datime
    }

    // The class list, at the first of these places, where there is none.
    fn first_list(&self, places: &Places) -> Result<ListMade, NoMemory>
        requires { CanListFirst self.now places.now }
        ensures { IfOk result (IsListMade self.now) }
    {
        let _datime = self.time();
        let steps = Vec::new(self.alloc);
        if self.info.is_some() {
            return Ok(ListMade {
                steps,
                list: None,
                count: 0,
            });
        }
        let place = place_at(places, 0);
        let made = self.make_list(place)?;
        let puts = with_put(steps, place, made.bytes)?;
        Ok(ListMade {
            steps: puts,
            list: Some(made.head),
            count: 1,
        })
    }

    // The records of a new tree, at these places.
    fn make_tree(
        &self,
        new: NewTree,
        head: TreeHead,
        header: u64,
        places: &Places,
    ) -> Result<TreeMade, NoMemory>
        requires fresh { self.now.failed ≡ false }
        requires new { IsNewTree self.now new }
        requires head { head ≡ head_now self.now new.branches }
        requires header { header ≡ header_size new.name new.branches }
        requires places { places.now ≡ places_of (making_now self.now new.name new.branches).lengths
            (space_of self.now.segments) }
        requires room { is_full self.now.segments
            (making_now self.now new.name new.branches).lengths
            (need_of_tree self.now new.name
            (length (making_now self.now new.name new.branches).lengths)) ≡ false }
        ensures { IfOk result (IsTreeMade self.now new.name new.branches) }
    {
        headers_have_records();
        let _end = self.chain.end();
        let datime = self.time();
        let NewTree { name, branches } = new;
        let first = self.first_list(places)?;
        let place = place_at(places, first.count);
        let record = header_record(self.alloc, place, datime, name.as_slice(), 1, &head)?;
        let puts = with_put(first.steps, place, record.bytes)?;
        let own = name.copy()?;
        let kept = KeptTree {
            name: own,
            branches,
            saved: 0,
            pending: 0,
        };
        let filler = Filler::new(self.alloc, &head)?;
        let tree = OpenTree {
            name,
            filler,
            header_bytes: header,
        };
        Ok(TreeMade {
            steps: puts,
            list: first.list,
            head: record.head,
            tree,
            kept,
        })
    }

    // Puts the records of a new tree, keeps it, and prints a reply. All memory is allocated before the first put.
    fn put_tree<H: Host>(
        &mut self,
        host: &mut H,
        made: TreeMade,
        text: &[u8],
        cost: u64,
    ) -> Result<Outcome, SessionFault>
        requires fresh { self.old.failed ≡ false }
        requires ready { IsReady (H.view host.old) self.old }
        requires can { (new : NewTreeOf) × IsNewTree self.old new
            × (find (is_tree_of new.name) self.old.trees ≡ None)
            × IsTreeMade self.old new.name new.branches made }
        ensures changes { (name : List ℕ) (branches : List Declared)
            → IsTreeMade self.old name branches made
            → ChangesFile (doing (making_now self.old name branches) text.now cost)
            (H.view host.old) (H.view host.new) self.old self.new result }
        ensures outcome { IfOk result (λ outcome. outcome ≡ BecameOf.Accepted) }
        ensures reads { (H.view host.new).reads ≡ (H.view host.old).reads }
    {
        self.chain.reserve(made.steps.len() as u64)?;
        self.table.reserve_one()?;
        self.trees.reserve_one()?;
        self.filled.reserve_one()?;
        let TreeMade {
            steps,
            list,
            head,
            tree,
            kept,
        } = made;
        let sum = self.heads_bytes + rio_key::key_length(&head);
        match make_changes(&mut self.chain, host, steps) {
            Ok(()) => {
                let _end = self.chain.end();
                let info = list_then(list, self.info.take());
                self.info = info;
                self.table.insert(head);
                self.trees.insert(kept);
                self.filled.insert(tree);
                self.heads_bytes = sum;
                self.answer(host, text, cost)?;
                Ok(Outcome::Accepted)
            }
            Err(_) => {
                let_go(list, head, tree, kept);
                self.failed = true;
                Err(SessionFault::HostFault)
            }
        }
    }

    // Makes a tree, or refuses it where there is no room.
    pub(crate) fn tree<H: Host>(
        &mut self,
        host: &mut H,
        new: NewTree,
        replies: Replies,
    ) -> Result<Outcome, SessionFault>
        requires fresh { self.old.failed ≡ false }
        requires ready { IsReady (H.view host.old) self.old }
        requires can { AnyCanBeDone self.old (AnyWork.Tree (TreeWork.Make new)) }
        ensures does { (c : Line) → IsToDo self.old c (AnyWork.Tree (TreeWork.Make new))
            → Does replies (H.view host.old) (H.view host.new) self.old self.new c result }
        ensures reads { (H.view host.new).reads ≡ (H.view host.old).reads }
    {
        headers_have_records();
        // A tree that is kept has a key, and a new one a name that no key has: so none has the name. What is kept doesn't say so.
        if self.filled.position(new.name.as_slice()).is_some() {
            return Err(SessionFault::NoMemory);
        }
        let classes = self.registry.classes();
        let head = new_head(self.alloc, classes, new.branches.as_slice())?;
        let header = header_bytes(self.alloc, new.name.as_slice(), &head)?;
        let list_length = self.list_length()?;
        let list = self.first_list_length(list_length);
        let lengths = self.tree_lengths(new.name.as_slice(), list, header)?;
        let need = self.need_with_tree(new.name.as_slice(), list);
        let cost = 600 + list_length + 2 * header;
        match self.chain.plan(&lengths, END_LIMIT.saturating_sub(need)) {
            Ok(places) => {
                let text = tree_text(self.alloc, replies, new.name.as_slice())?;
                let made = self.make_tree(new, head, header, &places)?;
                self.put_tree(host, made, text.as_slice(), cost)
            }
            Err(PlanFault::Full { end, wanted }) => {
                self.refuse(host, Refusal::Full { end, wanted }, cost, replies)
            }
            Err(PlanFault::NoMemory) => Err(SessionFault::NoMemory),
        }
    }
}
