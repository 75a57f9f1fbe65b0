ghost use Rattle.std.specs.Prelude.{◌≡◌, OnOk, OnErr};
ghost use Rattle.std.specs.FinSet as set;

use ad_base::{Memory, Word};
use std::alloc::Global;
use std::collections::HashSet;
use std::marker::Model;

// A set of words, which holds a copy of each.
#[derive(Drop)]
pub(crate) struct WordSet {
    words: HashSet<Word>,
}

impl Model for WordSet {
    ghost use Rattle.std.specs.FinSet as set;
    ghost use Rattle.std.specs.Coded.{coded_list, coded_ℕ};
    ghost use Rattle.ad_base.specs.Words.{text_order};

    ghost Value = { set.FinSet text_order };

    ghost coded = { set.code (coded_list coded_ℕ) };

    ghost view = { λ s. set.from_list s.words.keys };
}

impl WordSet {
    // The set without words. It takes no memory.
    pub(crate) fn new(alloc: Global) -> WordSet
        ensures { result ≡ set.empty }
    {
        WordSet {
            words: HashSet::new(alloc),
        }
    }

    // Whether the word is a member.
    pub(crate) fn has(&self, word: &Word) -> bool
        ensures { result ≡ set.contains self.now word.now }
    {
        self.words.contains(word)
    }

    // Puts the word in, and copies it only where it isn't in yet.
    pub(crate) fn add(&mut self, alloc: Global, word: &Word) -> Result<(), Memory>
        ensures ok { OnOk result (self.new ≡ set.insert self.old word.now) }
        ensures err { OnErr result (self.new ≡ self.old) }
    {
        if !self.words.contains(word) {
            let copy = word.copy(alloc)?;
            self.words.insert(copy)?;
        }
        Ok(())
    }
}
