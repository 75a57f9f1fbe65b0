ghost use Rattle.std.specs.Prelude.{◌≡◌, IfOk, refl};

use ad_base::Memory;
use sqlite_items::Boxed;
use std::alloc::Global;
use std::cmp::Ordering;
use std::hash::{Hash, Hasher};
use std::marker::Model;

/// A part of a tree in memory of its own, which contracts see as its value.
#[derive(Drop)]
pub struct One<T> {
    part: Boxed<T>,
}

impl<T> Model for One<T> {
    ghost Value = { T };

    ghost coded = { T.code };

    ghost view = { λ one. one.part };
}

impl<T> One<T> {
    /// The part.
    pub fn get(&self) -> &T
        ensures { result.now ≡ self.now }
    {
        self.part.get()
    }
}

impl<T: Drop> One<T> {
    /// Takes memory for the part.
    pub fn new(alloc: Global, part: T) -> Result<One<T>, Memory>
        ensures { IfOk result (λ one. one ≡ part) }
    {
        Ok(One {
            part: Boxed::new(alloc, part)?,
        })
    }
}

impl<T: PartialEq> PartialEq for One<T> {
    ghost eq = { T.eq };

    ghost laws = { T.laws };

    fn eq(&self, other: &Self) -> bool {
        self.part.get() == other.part.get()
    }
}

impl<T: Eq> Eq for One<T> {
    ghost laws = { T.Eq.laws };
}

impl<T: PartialOrd> PartialOrd for One<T> {
    ghost partial_cmp = { T.partial_cmp };

    ghost laws = { T.PartialOrd.laws };

    fn partial_cmp(&self, other: &Self) -> Option<Ordering> {
        self.part.get().partial_cmp(other.part.get())
    }
}

impl<T: Ord> Ord for One<T> {
    ghost cmp = { T.cmp };

    ghost total = { T.total };

    ghost matches_partial_cmp = { T.matches_partial_cmp };

    ghost matches_eq = { T.matches_eq };

    fn cmp(&self, other: &Self) -> Ordering {
        self.part.get().cmp(other.part.get())
    }
}

impl<T: Hash> Hash for One<T> {
    ghost hash_input = { T.hash_input };

    ghost respects_eq = { T.respects_eq };

    fn hash<H: Hasher>(&self, state: &mut H) {
        self.part.get().hash(state);
    }
}
