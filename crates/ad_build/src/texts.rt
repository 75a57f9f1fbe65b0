ghost use Rattle.std.specs.Prelude.{◌≡◌, ◌+◌, ◌≤◌, ◌<◌, ◌^◌, [], length, drop, map, false, Some, List, IfOk};
ghost use Rattle.ad_lex.specs.Lexemes.{lexemes};
ghost use Rattle.ad_lex.specs.Spans.{AreTokensOf};
ghost use Rattle.ad_grammar.specs.Shapes.{Many0};
ghost use Rattle.ad_grammar.specs.Names.{SpellsEntity};
ghost use Rattle.ad_grammar.specs.Axioms.{SpellsNoted};
ghost use Rattle.ad_grammar.specs.Texts.{in_force, Ontology, SpellsOp};
ghost use Rattle.ad_tree.specs.declared.axioms.Noted.{Noted};
ghost use Rattle.ad_tree.specs.declared.edits.Op.{Op};
ghost use Rattle.ad_entity.specs.declared.entities.Entity.{Entity};
ghost use Rattle.ad_prefixes.specs.Declarations.{declarations};
ghost use Rattle.ad_terms.specs.Items.{as_entity};
ghost use Rattle.ad_terms.specs.Shapes.{behind_top, each};
ghost use Rattle.ad_terms.specs.Stacks.{leading_notes, behind_names};
ghost use Rattle.ad_build.specs.Lists.{addition, operation, operations, additions};

use crate::reads::reads;
use ad_base::Memory;
use ad_lex::Token;
use ad_prefixes::Prefixes;
use ad_terms::{ReadsAs, Stack, StackItem, next_two};
use ad_tree::{Batch, Entity, Noted, Op, Seed, Sign};
use std::alloc::Global;

/// The operations that the tokens of an edit behind its prefixes spell, if they spell some.
pub fn build_operations(
    alloc: Global,
    text: &[u8],
    tokens: &[Token],
    from: usize,
    prefixes: &Prefixes,
) -> Result<Option<Batch>, Memory>
    requires place { AreTokensOf text.now tokens.now }
    requires within { from ≤ length tokens.now }
    requires few { length tokens.now < 2 ^ 32 }
    ensures { IfOk result (λ found. (ops : List Op) → Many0 (SpellsOp (in_force (declarations prefixes.now))) ops (lexemes text.now (drop from tokens.now)) → found ≡ Some ops) }
{
    let items = reads(alloc, text, tokens, from, prefixes)?;
    let found = operations(alloc, items)?;
    Ok(found)
}

/// The axioms of the ontology that the tokens of a document behind its prefixes spell, if they spell one, each
/// as an addition.
pub fn build_axioms(
    alloc: Global,
    text: &[u8],
    tokens: &[Token],
    from: usize,
    prefixes: &Prefixes,
) -> Result<Option<Batch>, Memory>
    requires place { AreTokensOf text.now tokens.now }
    requires within { from ≤ length tokens.now }
    requires few { length tokens.now < 2 ^ 32 }
    ensures { IfOk result (λ found. (stated : List Noted) → Ontology false (in_force (declarations prefixes.now)) (Many0 (SpellsNoted false (in_force (declarations prefixes.now))) stated) (lexemes text.now (drop from tokens.now)) → found ≡ Some (map addition stated)) }
{
    if tokens.len() - from < 2 {
        return Ok(None);
    }
    let items = reads(alloc, text, tokens, from + 2, prefixes)?;
    let found = stated(alloc, items)?;
    Ok(found)
}

/// The entities that the tokens of a seed behind its prefixes spell, if they spell some.
pub fn build_entities(
    alloc: Global,
    text: &[u8],
    tokens: &[Token],
    from: usize,
    prefixes: &Prefixes,
) -> Result<Option<Seed>, Memory>
    requires place { AreTokensOf text.now tokens.now }
    requires within { from ≤ length tokens.now }
    ensures { IfOk result (λ found. (entities : List Entity) → Many0 (SpellsEntity (in_force (declarations prefixes.now))) entities (lexemes text.now (drop from tokens.now)) → found ≡ Some entities) }
{
    let items = reads(alloc, text, tokens, from, prefixes)?;
    let found = entities(alloc, items)?;
    Ok(found)
}

// The operations that these items are.
fn operations(alloc: Global, mut items: Stack) -> Result<Option<Batch>, Memory>
    requires { length items < 2 ^ 32 }
    ensures { IfOk result (λ found. found ≡ operations items) }
{
    let mut batch = Batch::new(alloc);
    'operations: while !items.is_empty() {
        match operation(&mut items) {
            Some(op) => batch.push(op)?,
            None => return Ok(None),
        }
    }
    Ok(Some(batch))
}

// Takes the operation of a sign and the axiom behind it.
fn operation(items: &mut Stack) -> Option<Op>
    ensures found { result ≡ operation items.old }
    ensures behind { items.new ≡ behind_top (behind_top items.old) }
{
    let found: Option<(Sign, Noted)> = next_two(items);
    found.map(|(sign, noted)| Op { sign, noted })
}

// The axioms of an ontology, behind its names and its annotations.
fn stated(alloc: Global, mut items: Stack) -> Result<Option<Batch>, Memory>
    requires { length items < 2 ^ 32 }
    ensures { IfOk result (λ found. found ≡ additions (leading_notes (behind_names items)).1) }
{
    items.skip_names()?;
    items.skip_notes()?;
    additions(alloc, items)
}

// The axioms up to the parenthesis that closes the ontology, each as an addition.
fn additions(alloc: Global, mut items: Stack) -> Result<Option<Batch>, Memory>
    requires { length items < 2 ^ 32 }
    ensures { IfOk result (λ found. found ≡ additions items) }
{
    let mut batch = Batch::new(alloc);
    'additions: while let Some(item) = items.pop() {
        match item {
            StackItem::Axiom(noted) => batch.push(addition(noted))?,
            StackItem::Close => return Ok(if items.is_empty() { Some(batch) } else { None }),
            _other => return Ok(None),
        }
    }
    Ok(None)
}

// The addition of an axiom.
fn addition(noted: Noted) -> Op
    ensures { result ≡ addition noted }
{
    Op {
        sign: Sign::Add,
        noted,
    }
}

// The entities that these items are.
fn entities(alloc: Global, mut items: Stack) -> Result<Option<Seed>, Memory>
    ensures { IfOk result (λ found. found ≡ each as_entity items) }
{
    let mut seed = Seed::new(alloc);
    'entities: while let Some(item) = items.pop() {
        match Entity::read(item) {
            Some(entity) => seed.push(entity)?,
            None => return Ok(None),
        }
    }
    Ok(Some(seed))
}
