ghost use Rattle.std.specs.Prelude.{◌≡◌, ◌+◌, ◌∷◌, ◌++◌, [], List, ℕ, cond, if◌then◌else◌, length, Some, None, is_some, IfOk, IfNone, OnOk, OnErr};
ghost use Rattle.std.specs.Map.{lookup};
ghost use Rattle.ad_base.specs.Words.{same_text};

use ad_base::{Memory, Word};
use indexmap::IndexMap;
use std::alloc::Global;
use std::hash::RandomState;
use std::marker::Model;

// The names of one kind with their numbers. They are hashed with random keys, since anybody may choose the names.
#[derive(Drop)]
pub(crate) struct KindNumbers {
    map: IndexMap<Word, u32, RandomState>,
}

impl Model for KindNumbers {
    ghost use Rattle.std.specs.Prelude.{List, ℕ};
    ghost use Rattle.std.specs.Coded.{coded_list, coded×, coded_ℕ};

    ghost Value = { List (List ℕ × ℕ) };

    ghost coded = { coded_list (coded× (coded_list coded_ℕ) coded_ℕ) };

    ghost view = { λ numbers. numbers.map.entries };
}

impl KindNumbers {
    // The map without names. It takes no memory.
    pub(crate) fn new(alloc: Global, keys: RandomState) -> KindNumbers
        ensures { result ≡ [] }
    {
        KindNumbers {
            map: IndexMap::with_hasher(alloc, keys),
        }
    }

    // How many names there are.
    pub(crate) fn len(&self) -> usize
        ensures { result ≡ length self.now }
    {
        self.map.len()
    }

    // The number of a name.
    pub(crate) fn number(&self, name: &Word) -> Option<u32>
        ensures { result ≡ lookup (same_text name.now) self.now }
    {
        self.map.get(name).copied()
    }

    // Gives a name that has no number one.
    pub(crate) fn insert(&mut self, alloc: Global, name: &Word, number: u32) -> Result<(), Memory>
        requires { lookup (same_text name.now) self.old ≡ None }
        ensures ok { OnOk result (self.new ≡ self.old ++ (name.now, number) ∷ []) }
        ensures updates { OnOk result ((q : List ℕ) → lookup (same_text q) self.new ≡ cond (same_text name.now q) (Some number) (lookup (same_text q) self.old)) }
        ensures err { OnErr result (self.new ≡ self.old) }
    {
        let copy = name.copy(alloc)?;
        self.map.insert(copy, number)?;
        Ok(())
    }

    // Takes a name out, and gives the number that it had.
    pub(crate) fn remove(&mut self, name: &Word) -> Option<u32>
        ensures value { result ≡ lookup (same_text name.now) self.old }
        ensures rest { (q : List ℕ) → lookup (same_text q) self.new ≡ cond (same_text name.now q) None (lookup (same_text q) self.old) }
        ensures len { length self.new + (if is_some result then 1 else 0) ≡ length self.old }
        ensures none { IfNone result (self.new ≡ self.old) }
    {
        self.map.swap_remove(name)
    }

    // Takes copies of the names of another map in, with their numbers. It has none before.
    pub(crate) fn fill(&mut self, alloc: Global, from: &KindNumbers) -> Result<(), Memory>
        requires { self.old ≡ [] }
        ensures { OnOk result (self.new ≡ from.now) }
    {
        let map = &from.map;
        for i in 0..map.len() {
            if let Some((name, number)) = map.get_index(i) {
                self.insert(alloc, name, *number)?;
            }
        }
        Ok(())
    }
}
