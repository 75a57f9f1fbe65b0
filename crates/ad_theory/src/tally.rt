ghost use Rattle.std.specs.Prelude.{◌≡◌};
ghost use Rattle.ad_theory.specs.Tally.{IsRaisedBy};

use std::marker::Model;

/// How many tests of locality and how many extractions were made. Counts never fall, and stay at their type's end.
#[derive(Drop)]
pub struct Tally {
    tests: u64,
    runs: u64,
}

impl Model for Tally {
    ghost use Rattle.ad_theory.specs.Tally.{Counts};

    ghost Value = { Counts };

    ghost view = { λ tally. record { tests = tally.tests; runs = tally.runs } };
}

impl Tally {
    /// A tally of nothing.
    pub fn new() -> Tally
        ensures tests { result.tests ≡ 0 }
        ensures runs { result.runs ≡ 0 }
    {
        Tally { tests: 0, runs: 0 }
    }

    /// How many tests of locality were made.
    pub fn tests(&self) -> u64
        ensures { result ≡ self.now.tests }
    {
        self.tests
    }

    /// How many extractions were made.
    pub fn runs(&self) -> u64
        ensures { result ≡ self.now.runs }
    {
        self.runs
    }

    /// Counts one more test of locality.
    pub fn count_test(&mut self)
        ensures tests { IsRaisedBy 1 self.old.tests self.new.tests }
        ensures runs { self.new.runs ≡ self.old.runs }
    {
        self.tests = self.tests.saturating_add(1);
    }

    /// Counts one more extraction.
    pub fn count_run(&mut self)
        ensures runs { IsRaisedBy 1 self.old.runs self.new.runs }
        ensures tests { self.new.tests ≡ self.old.tests }
    {
        self.runs = self.runs.saturating_add(1);
    }

    /// Counts what the other tally counted.
    pub fn add(&mut self, other: &Tally)
        ensures tests { IsRaisedBy other.now.tests self.old.tests self.new.tests }
        ensures runs { IsRaisedBy other.now.runs self.old.runs self.new.runs }
    {
        self.tests = self.tests.saturating_add(other.tests);
        self.runs = self.runs.saturating_add(other.runs);
    }
}
