ghost use Rattle.std.specs.Prelude.{◌≡◌, ◌++◌, ◌∷◌, [], not, if◌then◌else◌, is_some, IfOk, OnErr, codes};
ghost use Rattle.std.specs.Option.{option_copied};
ghost use Rattle.ad_grammar.specs.Names.{followed_by};
ghost use Rattle.ad_grammar.specs.Texts.{in_force, iri_of};
ghost use Rattle.ad_grammar.specs.Texts as texts;
ghost use Rattle.ad_prefixes.specs.Declarations.{declarations};

use ad_base::{Memory, Word};
use indexmap::IndexMap;
use std::alloc::Global;
use std::marker::Model;

/// The prefixes in force in a text. Contracts see those that the text declares, in order, each with its IRI;
/// what is standard counts behind them.
#[derive(Drop)]
pub struct Prefixes {
    declared: IndexMap<String, Word>,
    standard: Standard,
}

impl Model for Prefixes {
    ghost use Rattle.std.specs.Prelude.{List, ℕ, map, string_bytes};

    ghost Value = { List (List ℕ × List ℕ) };

    ghost view = { λ prefixes. map (λ entry. (string_bytes entry.0, entry.1)) prefixes.declared.entries };
}

// The IRIs of the standard prefixes.
#[derive(Drop)]
struct Standard {
    owl: Word,
    rdf: Word,
    rdfs: Word,
    xsd: Word,
    ghost owl_is: { owl ≡ codes "http://www.w3.org/2002/07/owl#" },
    ghost rdf_is: { rdf ≡ codes "http://www.w3.org/1999/02/22-rdf-syntax-ns#" },
    ghost rdfs_is: { rdfs ≡ codes "http://www.w3.org/2000/01/rdf-schema#" },
    ghost xsd_is: { xsd ≡ codes "http://www.w3.org/2001/XMLSchema#" },
}

impl Prefixes {
    /// The standard prefixes alone.
    pub fn standard(alloc: Global) -> Result<Prefixes, Memory>
        ensures { IfOk result (λ prefixes. prefixes ≡ []) }
    {
        Ok(Prefixes {
            declared: IndexMap::new(alloc),
            standard: Standard::new(alloc)?,
        })
    }

    /// Declares a prefix, and answers whether this text hadn't declared it before. Where it had, nothing changes.
    pub fn declare(&mut self, alloc: Global, prefix: &str, iri: Word) -> Result<bool, Memory>
        ensures fresh { IfOk result (λ fresh. fresh ≡ not (is_some (iri_of (declarations self.old) prefix.now))) }
        ensures declared { IfOk result (λ fresh. self.new ≡ (if fresh then self.old ++ (prefix.now, iri) ∷ [] else self.old)) }
        ensures unchanged { OnErr result (self.new ≡ self.old) }
    {
        if self.declared.contains_key(prefix) {
            return Ok(false);
        }
        let owned = String::from_str(alloc, prefix)?;
        self.declared.insert(owned, iri)?;
        Ok(true)
    }

    /// The IRI that a prefix stands for, and None exactly where it is neither declared nor standard.
    pub fn get(&self, prefix: &str) -> Option<&Word>
        ensures { option_copied result ≡ in_force (declarations self.now) prefix.now }
    {
        match self.declared.get(prefix) {
            Some(iri) => Some(iri),
            None => self.standard.get(prefix),
        }
    }

    /// The name of a prefix and a local part, and None exactly where the prefix is neither declared nor standard.
    pub fn name(&self, alloc: Global, prefix: &str, local: &str) -> Result<Option<Word>, Memory>
        ensures { IfOk result (λ name. name ≡ followed_by local.now (in_force (declarations self.now) prefix.now)) }
    {
        match self.get(prefix) {
            Some(iri) => {
                let name = joined(alloc, iri.as_str(), local)?;
                Ok(Some(name))
            }
            None => Ok(None),
        }
    }
}

impl Standard {
    fn new(alloc: Global) -> Result<Standard, Memory> {
        Ok(Standard {
            owl: Word::of(alloc, "http://www.w3.org/2002/07/owl#")?,
            rdf: Word::of(alloc, "http://www.w3.org/1999/02/22-rdf-syntax-ns#")?,
            rdfs: Word::of(alloc, "http://www.w3.org/2000/01/rdf-schema#")?,
            xsd: Word::of(alloc, "http://www.w3.org/2001/XMLSchema#")?,
        })
    }

    // The IRI of a standard prefix.
    fn get(&self, prefix: &str) -> Option<&Word>
        ensures { option_copied result ≡ iri_of texts.standard prefix.now }
    {
        if prefix == "owl" {
            Some(&self.owl)
        } else if prefix == "rdf" {
            Some(&self.rdf)
        } else if prefix == "rdfs" {
            Some(&self.rdfs)
        } else if prefix == "xsd" {
            Some(&self.xsd)
        } else {
            None
        }
    }
}

// An IRI with a local part behind it.
fn joined(alloc: Global, iri: &str, local: &str) -> Result<Word, Memory>
    ensures { IfOk result (λ name. name ≡ iri.now ++ local.now) }
{
    let mut name = String::from_str(alloc, iri)?;
    name.push_str(local)?;
    Word::of(alloc, name.as_str())
}
