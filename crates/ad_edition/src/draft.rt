ghost use Rattle.std.specs.Prelude.{◌≡◌, ◌≤◌, ◌*◌, IfOk};
ghost use Rattle.ad_groups.specs.Signatures.{signature_count};
ghost use Rattle.ad_slots.specs.Places.{held_symbols, is_held};
ghost use Rattle.ad_theory.specs.Tally.{IsRaisedBy};
ghost use Rattle.ad_edition.specs.Log.{logged};
ghost use Rattle.ad_edition.specs.Edition.{FitsLimits, IsSound, limited_edition, limited_of, receipt_of};

use crate::decomposed::decomposition_of;
use crate::edition::Edition;
use crate::next::Measured;
use crate::receipts::Receipt;
use ad_apply::{Done, Step};
use ad_base::{Limits, Memory};
use ad_numbered::NumberedOntology;
use ad_theory::Tally;
use std::alloc::Global;
use std::marker::Model;
use std::mem;
use std::thread::Threads;

/// An edition that is about to follow another. Its ontology is made; its decomposition isn't found yet.
#[derive(Drop)]
pub struct Draft {
    pub(crate) number: u32,
    pub(crate) limits: Limits,
    pub(crate) next: Measured,
    pub(crate) done: Done,
    pub(crate) steps: Vec<Step>,
}

impl Model for Draft {
    ghost use Rattle.ad_apply.specs.Steps.{batch_in};
    ghost use Rattle.ad_apply.specs.Working.{counts_in};
    ghost use Rattle.ad_edition.specs.Edition.{Drafted, FitsLimits, IsSound, drafted_code, drafted_of, limited_edition};

    ghost Value = { Drafted };

    ghost coded = { drafted_code };

    ghost view = { λ d. drafted_of (limited_edition d.number d.next.ontology.axioms d.limits) (counts_in d.done) (batch_in d.steps.items) };

    ghost invariant = { λ d. IsSound (limited_edition d.number d.next.ontology.axioms d.limits) d.next.count d.next.bytes
        × FitsLimits d.limits d.next.ontology };
}

impl Draft {
    /// What the edit does, with the number of the edition that it makes.
    pub fn receipt(&self) -> Receipt
        ensures { result ≡ receipt_of self.now.next.shown.number self.now.counts }
    {
        Receipt {
            number: self.number,
            added: self.done.added,
            already: self.done.already,
            removed: self.done.removed,
            absent: self.done.absent,
        }
    }

    /// The next edition's ontology, in numbered slots.
    pub fn ontology(&self) -> &NumberedOntology
        ensures axioms { result.now.axioms ≡ self.now.next.shown.axioms }
        ensures fits { FitsLimits self.now.next.limits result.now }
    {
        &self.next.ontology
    }

    /// Takes the batch out of the draft, as an entry of a log. The draft's own batch is empty then.
    pub fn take_entry(&mut self, alloc: Global, ticket: u32, sequence: u32) -> Entry
        ensures entry { result ≡ logged ticket sequence self.old.batch }
        ensures next { self.new.next ≡ self.old.next }
        ensures counts { self.new.counts ≡ self.old.counts }
    {
        Entry {
            ticket,
            sequence,
            steps: mem::replace(&mut self.steps, Vec::new(alloc)),
        }
    }

    /// The next edition, whose decomposition is found from scratch. Threads share the work.
    pub fn fresh(
        self,
        rt: &(impl Threads + Sync),
        alloc: Global,
        tally: &mut Tally,
    ) -> Result<Edition, Memory>
        ensures edition { IfOk result (λ edition. limited_of edition ≡ self.next) }
        ensures runs { IfOk result (λ edition. IsRaisedBy (3 * signature_count (held_symbols edition.numbered.held) (is_held edition.numbered.held) edition.numbered.most)
            tally.old.runs tally.new.runs) }
        ensures tests { tally.old.tests ≤ tally.new.tests }
        ensures counted { tally.old.runs ≤ tally.new.runs }
    {
        let Draft {
            number,
            limits,
            next,
            done: _,
            steps,
        } = self;
        drop(steps);
        finished(rt, alloc, number, limits, next, tally)
    }
}

// The edition with this ontology and number.
fn finished(
    rt: &(impl Threads + Sync),
    alloc: Global,
    number: u32,
    limits: Limits,
    next: Measured,
    tally: &mut Tally,
) -> Result<Edition, Memory>
    requires sound { IsSound (limited_edition number next.ontology.axioms limits) next.count next.bytes }
    requires fits { FitsLimits limits next.ontology }
    ensures edition { IfOk result (λ edition. limited_of edition ≡ limited_edition number next.ontology.axioms limits) }
    ensures runs { IfOk result (λ edition. IsRaisedBy (3 * signature_count (held_symbols edition.numbered.held) (is_held edition.numbered.held) edition.numbered.most)
        tally.old.runs tally.new.runs) }
    ensures tests { tally.old.tests ≤ tally.new.tests }
    ensures counted { tally.old.runs ≤ tally.new.runs }
{
    let Measured {
        ontology,
        count,
        bytes,
    } = next;
    match decomposition_of(rt, alloc, &limits, &ontology, tally) {
        Ok(found) => Ok(Edition {
            number,
            limits,
            ontology,
            found,
            count,
            bytes,
        }),
        Err(Memory) => {
            drop(ontology);
            Err(Memory)
        }
    }
}
/// An accepted edit, as a log keeps it. It shares its axioms with the edition that it made.
#[derive(Drop)]
pub struct Entry {
    ticket: u32,
    sequence: u32,
    steps: Vec<Step>,
}

impl Model for Entry {
    ghost use Rattle.ad_apply.specs.Steps.{batch_in};
    ghost use Rattle.ad_edition.specs.Log.{Logged, logged_code, logged};

    ghost Value = { Logged };

    ghost coded = { logged_code };

    ghost view = { λ e. logged e.ticket e.sequence (batch_in e.steps.items) };
}

impl Entry {
    /// Whose edit it was.
    pub fn ticket(&self) -> u32
        ensures { result ≡ self.now.ticket }
    {
        self.ticket
    }

    /// Which of the ticket's edits it was, counted from 1.
    pub fn sequence(&self) -> u32
        ensures { result ≡ self.now.sequence }
    {
        self.sequence
    }
}
