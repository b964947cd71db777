//! A tree is saved.
ghost use Rattle.std.specs.Prelude.{◌≡◌, ◌≤◌, ◌<◌, ◌^◌, ℕ, length, sum, slice_get, Some, IfOk};
ghost use Rattle.std.specs.List.{All};
ghost use Rattle.rio_key.specs.declared.head.KeyHead.{KeyHead as FileKey};
ghost use Rattle.rio_session.specs.Due.{IsBranchSound};
ghost use Rattle.rio_session.specs.SavePlans.{CanPlanSave, IsSaveMade, saving_now};
ghost use Rattle.rio_session.specs.SessionState.{SessionState};

use crate::header::{TREE_CLASS, header_record};
use crate::open_baskets::{PlannedBaskets, open_lengths, plan_baskets};
use crate::open_tree::{Due, OpenTree};
use crate::place::key_length;
use crate::replies::save_text;
use crate::steps::{Step, make_changes};
use crate::{Replies, Session, SessionFault};
use rio_chain::PlanFault;
use rio_effect::headers_have_records;
use rio_fill::Flags;
use rio_host::Host;
use rio_key::KeyHead;
use rio_machine::{Outcome, Refusal};
use rio_num::{Lengths, NoMemory, Places};
use rio_state::{END_LIMIT, close_length};
use rio_tree::Baskets;
use std::alloc::Global;

/// The records of a save: the open baskets, the header of the next cycle, and then the header before goes.
#[derive(Drop)]
pub(crate) struct SaveMade {
    pub(crate) flags: Flags,
    pub(crate) steps: Vec<Step>,
    pub(crate) ats: Baskets,
    pub(crate) head: KeyHead,
}

/// What is planned for a save: its records, and what the other saves write then.
#[derive(Drop)]
struct SavePlan {
    made: SaveMade,
    due: Due,
}

// So many bytes a header's record may have.
const HEADER_LIMIT: u64 = 1073741624;

/// How long the records of a save are.
pub(crate) fn save_lengths(alloc: Global, tree: &OpenTree) -> Result<Lengths, NoMemory>
    ensures exact { IfOk result (λ lengths. (s : SessionState) (h : FileKey)
        → All (IsBranchSound tree.now.fill.saved tree.now.fill.pending) tree.now.fill.branches
        → lengths ≡ (saving_now s tree.now h).lengths) }
    ensures few { IfOk result (λ lengths. (1 ≤ length lengths) × (length lengths ≤ 65)) }
    ensures small { IfOk result (λ lengths. sum lengths < 2 ^ 41) }
{
    let mut lengths = open_lengths(alloc, tree, tree.open_flags())?;
    lengths.push(tree.next_header_length())?;
    Ok(lengths)
}

// The place with this number.
fn place_at(places: &Places, k: usize) -> u64
    ensures { (place : ℕ) → slice_get places.now k ≡ Some place → result ≡ place }
{
    match places.get(k) {
        Some(place) => *place,
        None => 0,
    }
}

/// The records of a save, at these places. `before` is the key of the header that counts. NoMemory also comes where the next
/// header would be too long.
pub(crate) fn make_save(
    alloc: Global,
    tree: &OpenTree,
    before: &KeyHead,
    places: &Places,
    datime: u32,
) -> Result<SaveMade, NoMemory>
    requires { (s : SessionState) × (s.datime ≡ datime)
        × CanPlanSave s tree.now before.now places.now }
    ensures { (s : SessionState) → s.datime ≡ datime
        → CanPlanSave s tree.now before.now places.now
        → IfOk result (IsSaveMade s tree.now before.now) }
{
    tree.stays_bounded();
    if tree.next_header_length() >= HEADER_LIMIT {
        return Err(NoMemory);
    }
    let flags = tree.open_flags();
    let planned = plan_baskets(alloc, tree, flags, places, datime)?;
    let PlannedBaskets { steps, ats } = planned;
    let place = place_at(places, ats.len());
    let said = tree.filler.save_head(&ats)?;
    let name = tree.name.as_slice();
    let record = header_record(alloc, place, datime, name, before.cycle + 1, &said)?;
    let mut steps = steps;
    steps.push(Step::Put {
        place,
        body: record.bytes,
    })?;
    steps.push(Step::Release { place: before.seek })?;
    Ok(SaveMade {
        flags,
        steps,
        ats,
        head: record.head,
    })
}

impl Session {
    ghost use Rattle.std.specs.Prelude.{◌≡◌, ◌+◌, ◌-◌, ◌<◌, ◌≤◌, ◌^◌, ℕ, codes, length, min, false, Some, None, IfOk, IfErr};
    ghost use Rattle.std.specs.List.{find};
    ghost use Rattle.rio_chain.specs.Placing.{record_count};
    ghost use Rattle.rio_dir.specs.Table.{head_of, heads_size};
    ghost use Rattle.rio_judge.specs.declared.work.AnyWork.{AnyWork};
    ghost use Rattle.rio_judge.specs.declared.work.TreeWork.{TreeWork};
    ghost use Rattle.rio_key.specs.Written.{written_key};
    ghost use Rattle.rio_machine.specs.Limits.{head_length};
    ghost use Rattle.rio_machine.specs.declared.command.Command.{Command as Line};
    ghost use Rattle.rio_machine.specs.declared.command.Outcome.{Outcome as BecameOf};
    ghost use Rattle.rio_session.specs.Changing.{ChangesFile};
    ghost use Rattle.rio_session.specs.Doable.{AnyCanBeDone, IsToDo};
    ghost use Rattle.rio_session.specs.Does.{Does};
    ghost use Rattle.rio_session.specs.Fills.{FilledTree, is_tree_of};
    ghost use Rattle.rio_session.specs.RowPlans.{IsNamedAt};
    ghost use Rattle.rio_session.specs.SavePlans.{IsSavePlan, LacksSaveRoom, saving_now};
    ghost use Rattle.rio_session.specs.Session.{IsReady};
    ghost use Rattle.rio_session.specs.TreeWorks.{doing};
    ghost use Rattle.rio_state.specs.Sizes.{close_size};

    // What a close needs with a header's key in place of the one before, and so many records more.
    fn need_behind_save(&self, before: &KeyHead, due: Due, more: u64) -> u64
        requires fresh { self.now.failed ≡ false }
        requires there { head_of before.now.name None self.now.heads ≡ Some before.now }
        requires name { length before.now.name ≤ 100 }
        requires low { (due.bytes < 2 ^ 41) × (due.baskets < 2 ^ 32) × (more ≤ 65) }
        ensures { result ≡ due.bytes + close_size self.now.name
            (heads_size self.now.heads - length (written_key before.now)
            + head_length (codes "TTree") before.now.name)
            (record_count self.now.segments + more + due.baskets) }
    {
        let others = self.heads_bytes - rio_key::key_length(before);
        let heads = others + key_length(TREE_CLASS, before.name.as_slice());
        let live = self.chain.live() + more;
        let count = live + due.baskets;
        let size = close_length(self.name.as_slice(), heads, count);
        due.bytes + size
    }

    // Writes the records of a save, keeps its header, and prints a reply. All memory is allocated before the first write.
    fn put_save<H: Host>(
        &mut self,
        host: &mut H,
        at: usize,
        before: &KeyHead,
        plan: SavePlan,
        text: &[u8],
        cost: u64,
    ) -> Result<Outcome, SessionFault>
        requires fresh { self.old.failed ≡ false }
        requires ready { IsReady (H.view host.old) self.old }
        requires can { (t : FilledTree) × IsNamedAt self.old before.now.name at t
            × (head_of before.now.name None self.old.heads ≡ Some before.now)
            × IsSavePlan self.old t before.now plan }
        // The cost is the one that is meant, as far as 64 bits hold it.
        ensures changes { (t : FilledTree) (meant : ℕ) → IsNamedAt self.old before.now.name at t
            → cost ≡ min meant (2 ^ 64 - 1)
            → ChangesFile (doing (saving_now self.old t before.now) text.now meant)
            (H.view host.old) (H.view host.new) self.old self.new result }
        ensures outcome { IfOk result (λ outcome. outcome ≡ BecameOf.Accepted) }
        ensures reads { (H.view host.new).reads ≡ (H.view host.old).reads }
    {
        self.chain.reserve(plan.made.steps.len() as u64)?;
        self.table.reserve_one()?;
        self.filled.reserve(at, None)?;
        let SavePlan { made, due } = plan;
        let SaveMade {
            head,
            flags,
            steps,
            ats,
        } = made;
        let _keys = self.table.as_slice();
        let others = self.heads_bytes - rio_key::key_length(before);
        let sum = others + rio_key::key_length(&head);
        match make_changes(&mut self.chain, host, steps) {
            Ok(()) => {
                self.filled.save(at, flags, &ats);
                let (saved, pending) = self.filled.rows(at);
                self.trees.set_rows(before.name.as_slice(), saved, pending);
                let _ = self.table.remove(before.name.as_slice(), before.cycle);
                self.table.insert(head);
                self.heads_bytes = sum;
                self.due = due;
                self.answer(host, text, cost)?;
                Ok(Outcome::Accepted)
            }
            Err(_) => {
                drop(head);
                self.failed = true;
                Err(SessionFault::HostFault)
            }
        }
    }

    // Plans the save of a tree, if there is room with what a close needs then: its records, and what the other saves write.
    fn plan_save(&self, before: &KeyHead) -> Result<SavePlan, PlanFault>
        requires fresh { self.now.failed ≡ false }
        requires can { AnyCanBeDone self.now (AnyWork.Tree (TreeWork.Save before.now)) }
        ensures plan { (t : FilledTree)
            → find (is_tree_of before.now.name) self.now.trees ≡ Some t
            → IfOk result (IsSavePlan self.now t before.now) }
        ensures full { (t : FilledTree)
            → find (is_tree_of before.now.name) self.now.trees ≡ Some t
            → IfErr result (LacksSaveRoom self.now t before.now) }
    {
        let Some(tree) = self.filled.find(before.name.as_slice()) else {
            unreachable!()
        };
        tree.stays_bounded();
        let lengths = save_lengths(self.alloc, tree)?;
        let none = Due {
            bytes: 0,
            baskets: 0,
        };
        let due = self.due_with(tree.due(), none);
        let _end = self.chain.end();
        let need = self.need_behind_save(before, due, lengths.len() as u64 - 1);
        let places = self.chain.plan(&lengths, END_LIMIT.saturating_sub(need))?;
        let made = make_save(self.alloc, tree, before, &places, self.datime)?;
        Ok(SavePlan { made, due })
    }

    // Saves the tree at `at`, or refuses it where there is no room.
    fn save_at<H: Host>(
        &mut self,
        host: &mut H,
        at: usize,
        before: &KeyHead,
        replies: Replies,
    ) -> Result<Outcome, SessionFault>
        requires fresh { self.old.failed ≡ false }
        requires ready { IsReady (H.view host.old) self.old }
        requires can { AnyCanBeDone self.old (AnyWork.Tree (TreeWork.Save before.now)) }
        requires there { (t : FilledTree) × IsNamedAt self.old before.now.name at t }
        ensures does { (c : Line) → IsToDo self.old c (AnyWork.Tree (TreeWork.Save before.now))
            → Does replies (H.view host.old) (H.view host.new) self.old self.new c result }
        ensures reads { (H.view host.new).reads ≡ (H.view host.old).reads }
    {
        headers_have_records();
        let _end = self.chain.end();
        let (saved, pending) = self.filled.rows(at);
        let Some(rows) = saved.checked_add(pending) else {
            return Err(SessionFault::NoMemory);
        };
        let cost = self.filled.save_cost(at, rows);
        match self.plan_save(before) {
            Ok(plan) => {
                let name = before.name.as_slice();
                let text = save_text(self.alloc, replies, name, before.cycle + 1, rows)?;
                self.put_save(host, at, before, plan, text.as_slice(), cost)
            }
            Err(PlanFault::Full { end, wanted }) => {
                self.refuse(host, Refusal::Full { end, wanted }, cost, replies)
            }
            Err(PlanFault::NoMemory) => Err(SessionFault::NoMemory),
        }
    }

    // Saves the tree of a key, in its next cycle.
    pub(crate) fn save<H: Host>(
        &mut self,
        host: &mut H,
        before: &KeyHead,
        replies: Replies,
    ) -> Result<Outcome, SessionFault>
        requires fresh { self.old.failed ≡ false }
        requires ready { IsReady (H.view host.old) self.old }
        requires can { AnyCanBeDone self.old (AnyWork.Tree (TreeWork.Save before.now)) }
        ensures does { (c : Line) → IsToDo self.old c (AnyWork.Tree (TreeWork.Save before.now))
            → Does replies (H.view host.old) (H.view host.new) self.old self.new c result }
        ensures reads { (H.view host.new).reads ≡ (H.view host.old).reads }
    {
        match self.filled.position(before.name.as_slice()) {
            Some(at) => self.save_at(host, at, before, replies),
            None => unreachable!(),
        }
    }
}
