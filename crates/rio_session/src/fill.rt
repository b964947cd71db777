//! A row is added to a tree.
ghost use Rattle.std.specs.Prelude.{◌≡◌, ◌≤◌, ℕ, List, length, slice_get, Some};
ghost use Rattle.rio_session.specs.Measures.{IsSmallRow};
ghost use Rattle.rio_session.specs.RowPlans.{entry_cost, row_cost};

use crate::open_baskets::{PlannedBaskets, open_lengths, plan_baskets};
use crate::open_tree::Due;
use crate::replies::fill_text;
use crate::steps::make_changes;
use crate::{Replies, Session, SessionFault};
use rio_chain::PlanFault;
use rio_entry::EntryFault;
use rio_fill::{Flags, Prepared};
use rio_host::Host;
use rio_judge::{NewRow, judge_row};
use rio_machine::{Outcome, Refusal};
use rio_state::{END_LIMIT, close_length};

// How many bytes the entry of a row at `k` may cost of the file's room: twice its length, and where nothing was pending the basket of
// its branch.
fn entry_cost(row: &Prepared, k: usize, pending: u64) -> u64
    requires { IsSmallRow row.now }
    ensures exact { (entry : List ℕ) → slice_get row.now k ≡ Some entry
        → result ≡ entry_cost entry pending }
    ensures low { result ≤ 33554767 }
{
    match row.entry(k) {
        Some(entry) => {
            let cost = 2 * entry.len() as u64 + 5;
            if pending == 0 { cost + 330 } else { cost }
        }
        None => 0,
    }
}

// How many bytes a row may cost.
fn fill_cost(row: &Prepared, pending: u64) -> u64
    requires few { length row.now ≤ 64 }
    requires small { IsSmallRow row.now }
    ensures { result ≡ row_cost row.now pending }
{
    let mut cost = 0;
    for k in 0..row.count() {
        cost += entry_cost(row, k, pending);
    }
    cost
}

// How many rows a tree may have, as far as they can be counted.
const ROWS_LIMIT: u64 = 9223372036854775807;

/// What is planned for a row: the baskets that are put first, and what the saves write then.
#[derive(Drop)]
struct RowPlan {
    flags: Flags,
    baskets: PlannedBaskets,
    due: Due,
}

impl Session {
    ghost use Rattle.std.specs.Prelude.{◌≡◌, ◌+◌, ◌≤◌, ◌<◌, ◌^◌, false, Some, slice_get, IfOk, IfErr};
    ghost use Rattle.std.specs.List.{find};
    ghost use Rattle.rio_judge.specs.declared.work.AnyWork.{AnyWork};
    ghost use Rattle.rio_judge.specs.declared.work.TreeWork.{TreeWork};
    ghost use Rattle.rio_machine.specs.declared.command.Command.{Command as Line};
    ghost use Rattle.rio_session.specs.Doable.{AnyCanBeDone, IsToDo};
    ghost use Rattle.rio_session.specs.Does.{Does};
    ghost use Rattle.rio_machine.specs.declared.command.Outcome.{Outcome as BecameOf};
    ghost use Rattle.rio_session.specs.Changing.{ChangesFile};
    ghost use Rattle.rio_session.specs.Due.{due_of};
    ghost use Rattle.rio_session.specs.Fillings.{filling_with};
    ghost use Rattle.rio_session.specs.Fills.{FilledTree, is_tree_of};
    ghost use Rattle.rio_session.specs.RowPlans.{IsFillOf, IsNamedAt, IsPreparedOf, IsRowOf, IsRowPlan, LacksRowRoom, due_changed, need_of_due};
    ghost use Rattle.rio_session.specs.Session.{IsReady};
    ghost use Rattle.rio_session.specs.TreeWorks.{doing};

    // What all saves that are due write, where this of one tree is another one.
    pub(crate) fn due_with(&self, before: Due, after: Due) -> Due
        requires fresh { self.now.failed ≡ false }
        requires bytes { before.bytes ≤ (due_of self.now.trees).bytes }
        requires baskets { before.baskets ≤ (due_of self.now.trees).baskets }
        requires low { (after.bytes < 2 ^ 40) × (after.baskets ≤ 64) }
        ensures { result ≡ due_changed (due_of self.now.trees) before after }
    {
        let other_bytes = self.due.bytes - before.bytes;
        let other_baskets = self.due.baskets - before.baskets;
        let bytes = other_bytes + after.bytes;
        let baskets = other_baskets + after.baskets;
        Due { bytes, baskets }
    }

    // What a close needs with so many records more.
    pub(crate) fn need_behind(&self, due: Due, more: u64) -> u64
        requires fresh { self.now.failed ≡ false }
        requires low { (due.bytes < 2 ^ 41) × (due.baskets < 2 ^ 32) × (more ≤ 65) }
        ensures { result ≡ need_of_due self.now due more }
    {
        let live = self.chain.live() + more;
        let count = live + due.baskets;
        let size = close_length(self.name.as_slice(), self.heads_bytes, count);
        due.bytes + size
    }

    // Puts the baskets, adds the row, and prints a reply. All memory is allocated before the first put.
    fn put_row<H: Host>(
        &mut self,
        host: &mut H,
        at: usize,
        row: &NewRow,
        entries: Prepared,
        plan: RowPlan,
        text: &[u8],
        cost: u64,
    ) -> Result<Outcome, SessionFault>
        requires fresh { self.old.failed ≡ false }
        requires ready { IsReady (H.view host.old) self.old }
        requires can { (t : FilledTree) × IsNamedAt self.old row.now.name at t
            × IsRowOf t entries × (t.fill.saved + t.fill.pending + 1 < 2 ^ 63)
            × IsRowPlan self.old t entries plan }
        ensures changes { (t : FilledTree) → IsNamedAt self.old row.now.name at t
            → ChangesFile (doing (filling_with self.old row.now.name entries t.fill) text.now cost)
            (H.view host.old) (H.view host.new) self.old self.new result }
        ensures outcome { IfOk result (λ outcome. outcome ≡ BecameOf.Accepted) }
        ensures reads { (H.view host.new).reads ≡ (H.view host.old).reads }
    {
        self.chain.reserve(plan.baskets.steps.len() as u64)?;
        self.filled.reserve(at, Some(&entries))?;
        let RowPlan {
            flags,
            baskets,
            due,
        } = plan;
        let PlannedBaskets { steps, ats } = baskets;
        match make_changes(&mut self.chain, host, steps) {
            Ok(()) => {
                self.filled.fill(at, flags, &ats, entries);
                let (saved, pending) = self.filled.rows(at);
                self.trees.set_rows(row.name.as_slice(), saved, pending);
                self.due = due;
                self.answer(host, text, cost)?;
                Ok(Outcome::Accepted)
            }
            Err(_) => {
                self.failed = true;
                Err(SessionFault::HostFault)
            }
        }
    }

    // Plans the puts of the baskets that don't take these entries of a row, if there is room with what a close needs then.
    fn plan_row(&self, name: &[u8], entries: &Prepared) -> Result<RowPlan, PlanFault>
        requires fresh { self.now.failed ≡ false }
        requires row { (t : FilledTree) × (find (is_tree_of name.now) self.now.trees ≡ Some t)
            × IsRowOf t entries.now }
        ensures plan { (t : FilledTree) → find (is_tree_of name.now) self.now.trees ≡ Some t
            → IfOk result (IsRowPlan self.now t entries.now) }
        ensures full { (t : FilledTree) → find (is_tree_of name.now) self.now.trees ≡ Some t
            → IfErr result (LacksRowRoom self.now t entries.now) }
    {
        let Some(tree) = self.filled.find(name) else {
            unreachable!()
        };
        let _end = self.chain.end();
        let flags = tree.filler.full(entries);
        let lengths = open_lengths(self.alloc, tree, flags)?;
        let due = self.due_with(tree.due(), tree.due_with(entries, flags));
        let need = self.need_behind(due, lengths.len() as u64);
        let places = self.chain.plan(&lengths, END_LIMIT.saturating_sub(need))?;
        let baskets = plan_baskets(self.alloc, tree, flags, &places, self.datime)?;
        Ok(RowPlan {
            flags,
            baskets,
            due,
        })
    }

    // Adds a row whose entries are made, or refuses it where there is no room.
    fn fill_with<H: Host>(
        &mut self,
        host: &mut H,
        at: usize,
        row: &NewRow,
        entries: Prepared,
        replies: Replies,
    ) -> Result<Outcome, SessionFault>
        requires fresh { self.old.failed ≡ false }
        requires ready { IsReady (H.view host.old) self.old }
        requires can { (t : FilledTree) × IsNamedAt self.old row.now.name at t × IsRowOf t entries }
        ensures does { (c : Line) → IsFillOf self.old row.now entries c
            → Does replies (H.view host.old) (H.view host.new) self.old self.new c result }
        ensures reads { (H.view host.new).reads ≡ (H.view host.old).reads }
    {
        let (saved, pending) = self.filled.rows(at);
        let count = saved.saturating_add(pending);
        if count >= ROWS_LIMIT {
            return Err(SessionFault::NoMemory);
        }
        let cost = fill_cost(&entries, pending);
        match self.plan_row(row.name.as_slice(), &entries) {
            Ok(plan) => {
                let text = fill_text(self.alloc, replies, row.name.as_slice(), count)?;
                self.put_row(host, at, row, entries, plan, text.as_slice(), cost)
            }
            Err(PlanFault::Full { end, wanted }) => {
                self.refuse(host, Refusal::Full { end, wanted }, cost, replies)
            }
            Err(PlanFault::NoMemory) => Err(SessionFault::NoMemory),
        }
    }

    // Why a row is refused, where its entries were made or this is why not; else it is added.
    fn fill_by<H: Host>(
        &mut self,
        host: &mut H,
        at: usize,
        row: &NewRow,
        found: Result<Prepared, EntryFault>,
        replies: Replies,
    ) -> Result<Outcome, SessionFault>
        requires fresh { self.old.failed ≡ false }
        requires ready { IsReady (H.view host.old) self.old }
        requires can { AnyCanBeDone self.old (AnyWork.Tree (TreeWork.Fill row.now)) }
        requires there { (t : FilledTree) × IsNamedAt self.old row.now.name at t
            × IsPreparedOf self.old t row.now found }
        ensures does { (c : Line) → IsToDo self.old c (AnyWork.Tree (TreeWork.Fill row.now))
            → Does replies (H.view host.old) (H.view host.new) self.old self.new c result }
        ensures reads { (H.view host.new).reads ≡ (H.view host.old).reads }
    {
        match found {
            Ok(entries) => match judge_row(row, None) {
                Some(refusal) => self.refuse(host, refusal, 0, replies),
                None => self.fill_with(host, at, row, entries, replies),
            },
            Err(fault) => match fault {
                EntryFault::NoMemory => Err(SessionFault::NoMemory),
                _ => match judge_row(row, Some(&fault)) {
                    Some(refusal) => self.refuse(host, refusal, 0, replies),
                    None => Err(SessionFault::NoMemory),
                },
            },
        }
    }

    // Adds a row to a tree, or refuses it.
    pub(crate) fn fill<H: Host>(
        &mut self,
        host: &mut H,
        row: NewRow,
        replies: Replies,
    ) -> Result<Outcome, SessionFault>
        requires fresh { self.old.failed ≡ false }
        requires ready { IsReady (H.view host.old) self.old }
        requires can { AnyCanBeDone self.old (AnyWork.Tree (TreeWork.Fill row)) }
        ensures does { (c : Line) → IsToDo self.old c (AnyWork.Tree (TreeWork.Fill row))
            → Does replies (H.view host.old) (H.view host.new) self.old self.new c result }
        ensures reads { (H.view host.new).reads ≡ (H.view host.old).reads }
    {
        let name = row.name.as_slice();
        let Some(at) = self.filled.position(name) else {
            unreachable!()
        };
        let Some(tree) = self.filled.find(name) else {
            unreachable!()
        };
        tree.stays_bounded();
        let found = tree.filler.prepare(self.registry.classes(), &row.row);
        self.fill_by(host, at, &row, found, replies)
    }
}
