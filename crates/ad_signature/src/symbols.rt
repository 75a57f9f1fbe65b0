ghost use Rattle.std.specs.Prelude.{◌≡◌, ◌<◌, ◌≤◌, ◌+◌, ℕ, cond, length, vec_capacity, Some, None, Err, IfOk, IfErr, IfSome, IfNone, OnOk, OnErr, IsTrue, IsFalse};
ghost use Rattle.ad_theory.specs.Numbers.{among};
ghost use Rattle.ad_entity.specs.Entities.{same_entity};
ghost use Rattle.ad_entity.specs.declared.entities.Entity.{Entity};
ghost use Rattle.ad_signature.specs.Numbering.{number_in, count};
ghost use Rattle.ad_signature.specs.Spare.{are_distinct};
ghost use Rattle.ad_signature.specs.Entered.{IsGiven, IsEntered, IsReleased};
ghost use Rattle.ad_signature.specs.Refused.{IsRefusedFor};

use crate::numbers::EntityNumbers;
use crate::refused::SymbolRefused;
use crate::spare::{peek, take};
use ad_base::{Memory, Word};
use ad_tree::{Entity, EntityKind, Naming};
use std::alloc::Global;
use std::hash::RandomState;

/// Entities with numbers below a limit, different ones for different entities. A number that was released is given again.
#[derive(Drop)]
pub struct Symbols {
    keys: RandomState,
    limit: u32,
    names: EntityNumbers,
    free: Vec<u32>,
    next: u32,
    ghost counted: { count names + length free.items ≡ next },
    ghost within: { next ≤ limit },
    ghost below: { (e : Entity) (n : ℕ) → number_in names e ≡ Some n → n < next },
    ghost one_to_one: { (e f : Entity) (n : ℕ) → number_in names e ≡ Some n → number_in names f ≡ Some n → IsTrue (same_entity e f) },
    ghost free_below: { (n : ℕ) → IsTrue (among free.items n) → n < next },
    ghost free_unused: { (e : Entity) (n : ℕ) → number_in names e ≡ Some n → IsFalse (among free.items n) },
    ghost free_distinct: { IsTrue (are_distinct free.items) },
    ghost room: { next ≤ vec_capacity free },
}

impl Symbols {
    /// No entity has a number. The limit is that of the numbers and of how many entities there may be. Names are hashed
    /// with these keys.
    pub fn new(alloc: Global, keys: RandomState, limit: u32) -> Result<Symbols, Memory>
        ensures limit { IfOk result (λ symbols. symbols.limit ≡ limit) }
        ensures empty { IfOk result (λ symbols. (e : Entity) → number_in symbols.names e ≡ None) }
        ensures count { IfOk result (λ symbols. count symbols.names ≡ 0) }
    {
        Ok(Symbols {
            keys,
            limit,
            names: EntityNumbers::new(alloc, keys),
            free: Vec::new(alloc),
            next: 0,
        })
    }

    /// How many entities have numbers.
    pub fn len(&self) -> u32
        ensures count { result ≡ count self.now.names }
        ensures within { result ≤ self.now.limit }
    {
        self.next - self.free.len() as u32
    }

    /// The number of the entity, which is given one where it has none.
    pub fn enter(&mut self, alloc: Global, entity: &Entity) -> Result<u32, SymbolRefused>
        ensures entered { IfOk result (IsEntered self.old.limit self.old.names entity.now self.new.names) }
        ensures full { number_in self.old.names entity.now ≡ None → count self.old.names ≡ self.old.limit →
            result ≡ Err (SymbolRefused.Full self.old.limit) }
        ensures refused { IfErr result (IsRefusedFor self.old.limit self.old.names entity.now) }
        ensures err { OnErr result (self.new.names ≡ self.old.names) }
        ensures limit { self.new.limit ≡ self.old.limit }
    {
        if let Some(number) = self.names.number(entity.kind, &entity.name) {
            return Ok(number);
        }
        let count = self.len();
        if count == self.limit {
            return Err(SymbolRefused::Full { count });
        }
        match self.give(alloc, entity) {
            Ok(number) => Ok(number),
            Err(Memory) => Err(SymbolRefused::Memory),
        }
    }

    // Gives an entity that has no number one.
    fn give(&mut self, alloc: Global, entity: &Entity) -> Result<u32, Memory>
        requires absent { number_in self.old.names entity.now ≡ None }
        requires room { count self.old.names < self.old.limit }
        ensures given { IfOk result (IsGiven self.old.limit self.old.names entity.now self.new.names) }
        ensures err { OnErr result (self.new.names ≡ self.old.names) }
        ensures limit { self.new.limit ≡ self.old.limit }
    {
        // room for all numbers that were given, if they are released
        let wanted = self.next as usize + 1 - self.free.len();
        self.free.reserve(wanted)?;
        let number = peek(&self.free, self.next);
        self.names.insert(alloc, entity, number)?;
        self.next = take(&mut self.free, self.next);
        Ok(number)
    }

    /// Takes the entity out, and gives the number that it had; None exactly where it had none.
    pub fn release(&mut self, entity: &Entity) -> Option<u32>
        ensures value { result ≡ number_in self.old.names entity.now }
        ensures released { IsReleased self.old.names entity.now self.new.names }
        ensures none { IfNone result (self.new.names ≡ self.old.names) }
        ensures limit { self.new.limit ≡ self.old.limit }
    {
        let number = self.names.remove(entity)?;
        self.free.push_reserved(number);
        Some(number)
    }

    /// The same entities with the same numbers, below the same limit.
    pub fn copy(&self, alloc: Global) -> Result<Symbols, Memory>
        ensures names { IfOk result (λ copy. copy.names ≡ self.now.names) }
        ensures limit { IfOk result (λ copy. copy.limit ≡ self.now.limit) }
    {
        let mut free = Vec::with_capacity(alloc, self.next as usize)?;
        free.extend_from_slice(&self.free)?;
        Ok(Symbols {
            keys: self.keys,
            limit: self.limit,
            names: self.names.copy(alloc, self.keys)?,
            free,
            next: self.next,
        })
    }
}

impl Naming for Symbols {
    ghost number_of = { λ symbols. number_in symbols.names };

    fn number(&self, kind: EntityKind, name: &Word) -> Option<u32> {
        self.names.number(kind, name)
    }
}
