ghost use Rattle.std.specs.Prelude.{◌≡◌, ◌<◌, ◌≤◌, ◌+◌, [], ◌∷◌, OnOk, OnErr, IfOk, IfSome, MatchOption, IsTrue, ◌↔◌};
ghost use Rattle.ad_terms.specs.Stacks.{gather, depth_behind, leading_notes, behind_names};
ghost use Rattle.ad_terms.specs.declared.item.StackItem.TheVariants as i;

use crate::item::StackItem;
use ad_base::{Memory, Word};
use ad_tree::{Annotation, Annotations, Many};
use std::alloc::Global;
use std::marker::Model;

/// Items, of which the last one put is on top. Contracts see the list of them from the top on.
#[derive(Drop)]
pub struct Stack {
    items: Vec<StackItem>,
}

impl Model for Stack {
    ghost use Rattle.std.specs.Prelude.{List, reverse};
    ghost use Rattle.std.specs.Coded.{coded_list};
    ghost use Rattle.ad_terms.specs.declared.item.StackItem.{StackItem};
    ghost use Rattle.ad_terms.specs.contracts.item.StackItem as one;

    ghost Value = { List StackItem };

    ghost coded = { coded_list one.the_row.coded };

    ghost view = { λ stack. reverse stack.items.items };
}

impl Stack {
    /// The stack without items. It takes no memory.
    pub fn new(alloc: Global) -> Stack
        ensures { result ≡ [] }
    {
        Stack {
            items: Vec::new(alloc),
        }
    }

    // The stack of these items, of which the first is on top.
    fn of(mut items: Vec<StackItem>) -> Stack
        ensures { result ≡ items.items }
    {
        items.reverse();
        Stack { items }
    }

    /// Puts an item on top.
    pub fn push(&mut self, item: StackItem) -> Result<(), Memory>
        ensures ok { OnOk result (self.new ≡ item ∷ self.old) }
        ensures err { OnErr result (self.new ≡ self.old) }
    {
        self.items.push(item)?;
        Ok(())
    }

    /// Takes the item on top, if there is one.
    pub fn pop(&mut self) -> Option<StackItem>
        ensures { MatchOption result ((self.old ≡ []) × (self.new ≡ [])) (λ item. self.old ≡ item ∷ self.new) }
    {
        self.items.pop()
    }

    /// Whether there is no item.
    pub fn is_empty(&self) -> bool
        ensures { IsTrue result ↔ (self.now ≡ []) }
    {
        self.items.is_empty()
    }

    /// Takes the items up to the parenthesis that closes them, and that parenthesis.
    pub fn gather(&mut self, alloc: Global) -> Result<Stack, Memory>
        ensures { IfOk result (λ taken. (taken ≡ (gather self.old 0).0) × (self.new ≡ (gather self.old 0).1)) }
    {
        let mut taken = Vec::new(alloc);
        let mut depth = 0usize;
        'items: while let Some(item) = self.pop() {
            match depth_behind(&item, depth) {
                Some(behind) => {
                    taken.push(item)?;
                    depth = behind;
                }
                None => break 'items,
            }
        }
        Ok(Stack::of(taken))
    }

    /// Takes the annotations on top.
    pub fn notes(&mut self, alloc: Global) -> Result<Annotations, Memory>
        ensures { IfOk result (λ notes. (notes ≡ (leading_notes self.old).0) × (self.new ≡ (leading_notes self.old).1)) }
    {
        let mut notes = Many::new(alloc);
        'notes: while let Some(note) = self.note()? {
            notes.push(note)?;
        }
        Ok(notes)
    }

    /// Drops the annotations on top.
    pub fn skip_notes(&mut self) -> Result<(), Memory>
        ensures { OnOk result (self.new ≡ (leading_notes self.old).1) }
    {
        'notes: while let Some(_note) = self.note()? {}
        Ok(())
    }

    /// Drops the names on top.
    pub fn skip_names(&mut self) -> Result<(), Memory>
        ensures { OnOk result (self.new ≡ behind_names self.old) }
    {
        'names: while let Some(_name) = self.name()? {}
        Ok(())
    }

    // Takes the name on top, if one is.
    fn name(&mut self) -> Result<Option<Word>, Memory>
        ensures { IfOk result (λ found. MatchOption found ((behind_names self.old ≡ self.old) × (self.new ≡ self.old)) (λ name. self.old ≡ i.Name name ∷ self.new)) }
    {
        match self.pop() {
            Some(StackItem::Name(name)) => Ok(Some(name)),
            Some(other) => {
                self.push(other)?;
                Ok(None)
            }
            None => Ok(None),
        }
    }

    // Takes the annotation on top, if one is.
    fn note(&mut self) -> Result<Option<Annotation>, Memory>
        ensures { IfOk result (λ found. MatchOption found ((leading_notes self.old ≡ ([], self.old)) × (self.new ≡ self.old)) (λ note. self.old ≡ i.Note note ∷ self.new)) }
    {
        match self.pop() {
            Some(StackItem::Note(note)) => Ok(Some(note)),
            Some(other) => {
                self.push(other)?;
                Ok(None)
            }
            None => Ok(None),
        }
    }
}

// How many parentheses are open behind an item, or None where it closes what was taken.
fn depth_behind(item: &StackItem, depth: usize) -> Option<usize>
    requires { depth < 18446744073709551615 }
    ensures depth { result ≡ depth_behind item.now depth }
    ensures few { IfSome result (λ behind. behind ≤ depth + 1) }
{
    match item {
        StackItem::Open => Some(depth + 1),
        StackItem::Close => depth.checked_sub(1),
        _ => Some(depth),
    }
}
