ghost use Rattle.std.specs.Prelude.{◌≡◌, ◌<◌, ◌^◌, ℕ, List, length, IfOk, IfErr};
ghost use Rattle.ad_grammar.specs.Faults as form;
ghost use Rattle.ad_tree.specs.declared.axioms.Noted.{Noted};
ghost use Rattle.ad_tree.specs.declared.edits.Op.{Op};
ghost use Rattle.ad_entity.specs.declared.entities.Entity.{Entity};
ghost use Rattle.ad_read.specs.Texts.{IsDocument, IsEdit, IsSeed, IsSingle};
ghost use Rattle.ad_read.specs.Outcome.{Refuses, IsReadOrMemory};

use crate::texts::opened::open;
use crate::texts::whole::Whole;
use ad_base::{Limits, Memory};
use ad_build::{build_axiom, build_axioms, build_entities, build_operations};
pub use ad_check::Unsupported;
use ad_lex::LexFault;
use ad_tree::{Batch, Noted, Seed};
use std::alloc::Global;
use thiserror::Error;

mod opened;
mod whole;

/// Why a text was not read. Places count bytes.
#[derive(Clone, Copy, Debug, PartialEq, Eq, Error)]
pub enum ReadRefused {
    /// A fault in the tokens.
    #[error("{0}")]
    Lex(LexFault),
    /// The parentheses nest deeper than the limit.
    #[error("nested {nesting} deep")]
    Depth { nesting: u32 },
    /// The first token at which no text of the form goes on, or the text's end.
    #[error("not of the grammar at {at}")]
    Syntax { at: u32 },
    /// The same, where a text goes on that this grammar leaves out.
    #[error("not supported at {at}")]
    Unsupported { at: u32, what: Unsupported },
    /// The first name whose prefix is neither declared nor standard.
    #[error("unknown prefix at {at}")]
    Prefix { at: u32 },
    /// The first prefix that is declared twice.
    #[error("prefix declared twice at {at}")]
    PrefixTwice { at: u32 },
    #[error("out of memory")]
    Memory,
}

impl From<Memory> for ReadRefused {
    ghost use Rattle.ad_read.specs.declared.texts.ReadRefused.TheVariants as refused_by;

    ghost from_gives = { λ _ refused. refused ≡ refused_by.Memory };

    fn from(_error: Memory) -> ReadRefused {
        ReadRefused::Memory
    }
}

/// Reads a document: its axioms in order, each as an addition.
pub fn read_document(alloc: Global, text: &[u8], limits: &Limits) -> Result<Batch, ReadRefused>
    requires { length text.now < 2 ^ 32 }
    ensures read { IfOk result (IsDocument limits.now.depth text.now) }
    ensures refused { IfErr result (Refuses form.document limits.now.depth text.now) }
    ensures complete { (ops : List Op) → IsDocument limits.now.depth text.now ops → IsReadOrMemory result ops }
{
    let opened = open(alloc, text, Whole::Document, limits)?;
    let found = build_axioms(
        alloc,
        text,
        opened.tokens.list(),
        opened.behind,
        &opened.prefixes,
    )?;
    match found {
        Some(batch) => Ok(batch),
        None => unreachable!(),
    }
}

/// Reads an edit.
pub fn read_edit(alloc: Global, text: &[u8], limits: &Limits) -> Result<Batch, ReadRefused>
    requires { length text.now < 2 ^ 32 }
    ensures read { IfOk result (IsEdit limits.now.depth text.now) }
    ensures refused { IfErr result (Refuses form.edit limits.now.depth text.now) }
    ensures complete { (ops : List Op) → IsEdit limits.now.depth text.now ops → IsReadOrMemory result ops }
{
    let opened = open(alloc, text, Whole::Edit, limits)?;
    let found = build_operations(
        alloc,
        text,
        opened.tokens.list(),
        opened.behind,
        &opened.prefixes,
    )?;
    match found {
        Some(batch) => Ok(batch),
        None => unreachable!(),
    }
}

/// Reads a seed.
pub fn read_seed(alloc: Global, text: &[u8], limits: &Limits) -> Result<Seed, ReadRefused>
    requires { length text.now < 2 ^ 32 }
    ensures read { IfOk result (IsSeed limits.now.depth text.now) }
    ensures refused { IfErr result (Refuses form.seed limits.now.depth text.now) }
    ensures complete { (entities : List Entity) → IsSeed limits.now.depth text.now entities → IsReadOrMemory result entities }
{
    let opened = open(alloc, text, Whole::Seed, limits)?;
    let found = build_entities(
        alloc,
        text,
        opened.tokens.list(),
        opened.behind,
        &opened.prefixes,
    )?;
    match found {
        Some(seed) => Ok(seed),
        None => unreachable!(),
    }
}

/// Reads one logical axiom.
pub fn read_axiom(alloc: Global, text: &[u8], limits: &Limits) -> Result<Noted, ReadRefused>
    requires { length text.now < 2 ^ 32 }
    ensures read { IfOk result (IsSingle limits.now.depth text.now) }
    ensures refused { IfErr result (Refuses form.single limits.now.depth text.now) }
    ensures complete { (noted : Noted) → IsSingle limits.now.depth text.now noted → IsReadOrMemory result noted }
{
    let opened = open(alloc, text, Whole::Single, limits)?;
    let found = build_axiom(
        alloc,
        text,
        opened.tokens.list(),
        opened.behind,
        &opened.prefixes,
    )?;
    match found {
        Some(noted) => Ok(noted),
        None => unreachable!(),
    }
}
