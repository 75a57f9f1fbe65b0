ghost use Rattle.std.specs.Prelude.{◌≡◌, ◌<◌, ◌≤◌, ◌^◌, length, IsFalse, None, IfOk, IfErr, IsOk, OnOk, OnErr};
ghost use Rattle.ad_base.specs.Limits.{AreWithinStandard};
ghost use Rattle.ad_edition.specs.Limit.{is_moved};
ghost use Rattle.ad_edition.specs.Log.{IsLog};
ghost use Rattle.ad_edition.specs.Edition.{IsEditionOf, limited_of, next_edition};
ghost use Rattle.ad_edition.specs.State.{at_first, entered_by, after_attend, after_commit, after_enter, after_look, first_passed, newest_of, receipt_after, IsMachine, IsRefusalOf};

use crate::owners::{owners_of, owners_of_next, waiting_for};
use ad_base::{Limits, Memory};
use ad_edition::{Draft, Edition, Entry, Receipt, Refused};
use ad_gate::{Gate, Point};
use ad_theory::Tally;
use ad_tree::Batch;
use std::alloc::Global;
use std::hash::RandomState;
use std::marker::Model;
use std::sync::Arc;
use std::thread::Threads;

/// The log of accepted edits with its newest edition, and for each of its sessions the edition that the session has
/// entered. One of the sessions looks.
#[derive(Drop)]
pub struct Machine {
    log: Vec<Entry>,
    newest: Arc<Edition>,
    // for each session the edition that it has entered
    seen: Vec<Arc<Edition>>,
    // for each session one more owner of the newest edition, until the session enters it
    waiting: Vec<Option<Arc<Edition>>>,
    // for each session how many entries of the log are its own
    edits: Vec<u32>,
    // how many extractions may run at once
    workers: u32,
    // the session that looks, and how often it has looked
    session: u32,
    looks: u64,
}

impl Model for Machine {
    ghost use Rattle.ad_edition.specs.State.{State, state_code};

    ghost Value = { State };

    ghost coded = { state_code };

    ghost use Rattle.ad_core.specs.Kept.{edition_in, editions_in, waiting_in, state_in, IsKept};

    ghost view = { λ m. state_in m.log.items (edition_in m.newest) (editions_in m.seen.items) m.session m.looks };

    ghost invariant = { λ m. IsKept m.log.items (edition_in m.newest) (editions_in m.seen.items) (waiting_in m.waiting.items) m.edits.items m.session m.workers };
}

impl Machine {
    /// A machine with 1 to 8 sessions, none of which has entered more than the empty log. From 1 to 16 workers may
    /// extract modules side by side; what the machine answers doesn't depend on their number. Names are hashed with
    /// these keys.
    pub fn new(
        alloc: Global,
        keys: RandomState,
        limits: Limits,
        sessions: u32,
        workers: u32,
    ) -> Result<Machine, Memory>
        requires limits { AreWithinStandard limits }
        requires sessions { (1 ≤ sessions) × (sessions ≤ 8) }
        requires workers { (1 ≤ workers) × (workers ≤ 16) }
        ensures { IfOk result (λ machine. machine ≡ at_first limits sessions) }
    {
        let newest = Arc::new(alloc, Edition::empty(alloc, keys, limits)?)?;
        let seen = owners_of(alloc, &newest, sessions)?;
        let waiting = waiting_for(alloc, &newest, sessions)?;
        let edits = vec![in alloc; 0; sessions as usize]?;
        Ok(Machine {
            log: Vec::new(alloc),
            newest,
            seen,
            waiting,
            edits,
            workers,
            session: 0,
            looks: 0,
        })
    }

    /// The limits that all editions keep to.
    pub fn limits(&self) -> Limits
        ensures limits { result ≡ self.now.limits }
        ensures standard { AreWithinStandard result }
    {
        self.newest.limits()
    }

    /// How many sessions there are.
    pub fn sessions(&self) -> u32
        ensures count { result ≡ length self.now.entered }
        ensures some { 1 ≤ result }
        ensures few { result ≤ 8 }
    {
        self.seen.len() as u32
    }

    /// The newest edition: that of the whole log.
    pub fn newest(&self) -> &Edition
        ensures edition { IsEditionOf self.now.limits self.now.log (limited_of result.now) }
        ensures machine { IsMachine self.now }
    {
        &self.newest
    }

    /// The edition that a session has entered: that of a front of the log.
    pub fn seen(&self, session: u32) -> &Edition
        requires { session < length self.now.entered }
        ensures { IsEditionOf self.now.limits (entered_by self.now session) (limited_of result.now) }
    {
        &self.seen[session as usize]
    }

    /// The session enters the whole log. It takes no memory.
    pub fn enter(&mut self, session: u32)
        requires { session < length self.old.entered }
        ensures { self.new ≡ after_enter self.old session }
    {
        let at = session as usize;
        match self.waiting[at].take() {
            Some(newest) => self.seen[at] = newest,
            None => {}
        }
    }

    /// The session is from now on the one that looks. It hasn't looked yet.
    pub fn attend(&mut self, session: u32)
        requires { session < length self.old.entered }
        ensures { self.new ≡ after_attend self.old session }
    {
        self.session = session;
        self.looks = 0;
    }

    /// Appends the session's batch to the log, if the newest edition or none is expected and no limit is passed, and makes
    /// the edition of the new log the newest. Limits are looked at in the order axioms, entities, bytes, editions. Nothing
    /// changes at a refusal. Threads share the work. It passes the gate before the modules of the new edition are found,
    /// which the tally counts.
    pub fn commit<G: Gate>(
        &mut self,
        rt: &(impl Threads + Sync),
        alloc: Global,
        session: u32,
        batch: &Batch,
        expected: Option<u64>,
        gate: &G,
        tally: &mut Tally,
    ) -> Result<Receipt, Refused>
        requires { session < length self.old.entered }
        ensures accepted { OnOk result (self.new ≡ after_commit self.old session batch.now) }
        ensures receipt { IfOk result (λ receipt. receipt ≡ receipt_after self.old batch.now) }
        ensures expected { IsOk result → IsFalse (is_moved expected (length self.old.log)) }
        ensures within { IsOk result → first_passed self.old batch.now ≡ None }
        ensures refused { IfErr result (λ cause. IsRefusalOf self.old expected batch.now cause) }
        ensures unchanged { OnErr result (self.new ≡ self.old) }
        ensures tests { tally.old.tests ≤ tally.new.tests }
        ensures runs { tally.old.runs ≤ tally.new.runs }
    {
        let draft = self.newest.begin(alloc, batch, expected)?;
        let receipt = draft.receipt();
        gate.pass(Point::Extract { worker: 0, task: 0 });
        self.publish(rt, alloc, session, draft, tally)?;
        Ok(receipt)
    }

    /// A law: what holds of every machine.
    pub fn laws(&self)
        ensures { IsMachine self.now }
    {
        self.newest();
    }

    // The session that looks enters the whole log, and its look is counted.
    pub(crate) fn look_on(&mut self)
        ensures after { self.new ≡ after_look self.old }
        ensures looking { self.old.session < length self.old.entered }
        ensures is_log { IsLog self.old.log }
    {
        let session = self.session;
        self.enter(session);
        self.looks = self.looks.saturating_add(1);
    }

    // The edition that the session that looks has entered.
    pub(crate) fn shown(&self) -> &Edition
        ensures { IsEditionOf self.now.limits (entered_by self.now self.now.session) (limited_of result.now) }
    {
        self.seen(self.session)
    }

    // Makes the draft's edition the newest, and its batch an entry of the session. All memory is taken before the
    // first change.
    fn publish(
        &mut self,
        rt: &(impl Threads + Sync),
        alloc: Global,
        session: u32,
        mut draft: Draft,
        tally: &mut Tally,
    ) -> Result<(), Memory>
        requires session { session < length self.old.entered }
        requires next { draft.next ≡ next_edition (newest_of self.old) draft.batch }
        requires fits { draft.next.shown.number < 2 ^ 32 }
        ensures published { OnOk result (self.new ≡ after_commit self.old session draft.batch) }
        ensures unchanged { OnErr result (self.new ≡ self.old) }
        ensures tests { tally.old.tests ≤ tally.new.tests }
        ensures runs { tally.old.runs ≤ tally.new.runs }
    {
        let at = session as usize;
        let sequence = self.edits[at] + 1;
        let entry = draft.take_entry(alloc, session + 1, sequence);
        let (newest, waiting) = owners_of_next(rt, alloc, draft, self.sessions(), tally)?;
        self.log.push(entry)?;
        self.edits[at] = sequence;
        self.waiting = waiting;
        self.newest = newest;
        Ok(())
    }
}
