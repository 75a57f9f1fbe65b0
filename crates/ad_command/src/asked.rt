ghost use Rattle.std.specs.Prelude.{◌≡◌, ◌∷◌, [], codes};
ghost use Rattle.ad_command.specs.Asks.{AsksFor};
ghost use Rattle.ad_command.specs.Words.{kind_in, seeded_kind};

use crate::seed::name_entities;
use crate::size::size_of;
use crate::workers::workers_of;
use ad_base::{Kind, Word};

/// What the words ask for.
#[derive(Clone, Copy)]
pub enum Asked {
    /// The module of this kind.
    Module(Kind),
    /// The atoms of this kind, found by so many workers.
    Atoms(Kind, u32),
    /// A session, with so many workers.
    Script(u32),
    /// The parts of this kind.
    Split(Kind),
    /// The generated document of this size.
    Generate(u32),
    /// The summary of the generated ontology of this size, found by so many workers.
    Summary(u32, u32),
    /// Nothing: they are the words of no command.
    Nothing,
}

/// What the words ask for. It takes no memory.
pub fn read_words(words: &[Word]) -> Asked
    ensures { AsksFor words.now result }
{
    match words {
        [] => Asked::Nothing,
        [first, rest @ ..] => read_behind(first.as_str(), rest),
    }
}

// What the first word and those behind it ask for.
fn read_behind(first: &str, rest: &[Word]) -> Asked
    ensures { AsksFor (first.now ∷ rest.now) result }
{
    match first {
        "module" => read_module(rest),
        "atoms" => read_atoms(rest),
        "script" => read_script(rest),
        "split" => read_split(rest),
        "generate" => read_generate(rest),
        "summary" => read_summary(rest),
        _ => Asked::Nothing,
    }
}

// What `module` and the words behind it ask for.
fn read_module(rest: &[Word]) -> Asked
    ensures { AsksFor (codes "module" ∷ rest.now) result }
{
    match seeded_kind(rest) {
        Some(kind) => Asked::Module(kind),
        None => Asked::Nothing,
    }
}

// The kind that the first word names, where each word behind it names an entity.
fn seeded_kind(words: &[Word]) -> Option<Kind>
    ensures { result ≡ seeded_kind words.now }
{
    match words {
        [kind, seed @ ..] if name_entities(seed) => kind_of(kind.as_str()),
        _ => None,
    }
}

// What `atoms` and the words behind it ask for.
fn read_atoms(rest: &[Word]) -> Asked
    ensures { AsksFor (codes "atoms" ∷ rest.now) result }
{
    match rest {
        [] => Asked::Nothing,
        [kind, workers @ ..] => read_atoms_of(kind.as_str(), workers),
    }
}

// What `atoms`, the word of a kind and the words of workers ask for.
fn read_atoms_of(kind: &str, workers: &[Word]) -> Asked
    ensures { AsksFor (codes "atoms" ∷ kind.now ∷ workers.now) result }
{
    match kind_of(kind) {
        Some(kind) => match workers_of(workers) {
            Some(workers) => Asked::Atoms(kind, workers),
            None => Asked::Nothing,
        },
        None => Asked::Nothing,
    }
}

// What `script` and the words of workers ask for.
fn read_script(workers: &[Word]) -> Asked
    ensures { AsksFor (codes "script" ∷ workers.now) result }
{
    match workers_of(workers) {
        Some(workers) => Asked::Script(workers),
        None => Asked::Nothing,
    }
}

// What `split` and the words behind it ask for.
fn read_split(rest: &[Word]) -> Asked
    ensures { AsksFor (codes "split" ∷ rest.now) result }
{
    match rest {
        [kind] => read_split_of(kind.as_str()),
        _ => Asked::Nothing,
    }
}

// What `split` and the word of a kind ask for.
fn read_split_of(kind: &str) -> Asked
    ensures { AsksFor (codes "split" ∷ kind.now ∷ []) result }
{
    match kind_of(kind) {
        Some(kind) => Asked::Split(kind),
        None => Asked::Nothing,
    }
}

// What `generate` and the words behind it ask for.
fn read_generate(rest: &[Word]) -> Asked
    ensures { AsksFor (codes "generate" ∷ rest.now) result }
{
    match rest {
        [size] => read_generate_of(size.as_str()),
        _ => Asked::Nothing,
    }
}

// What `generate` and the word of a size ask for.
fn read_generate_of(size: &str) -> Asked
    ensures { AsksFor (codes "generate" ∷ size.now ∷ []) result }
{
    match size_of(size) {
        Some(size) => Asked::Generate(size),
        None => Asked::Nothing,
    }
}

// What `summary` and the words behind it ask for.
fn read_summary(rest: &[Word]) -> Asked
    ensures { AsksFor (codes "summary" ∷ rest.now) result }
{
    match rest {
        [] => Asked::Nothing,
        [size, workers @ ..] => read_summary_of(size.as_str(), workers),
    }
}

// What `summary`, the word of a size and the words of workers ask for.
fn read_summary_of(size: &str, workers: &[Word]) -> Asked
    ensures { AsksFor (codes "summary" ∷ size.now ∷ workers.now) result }
{
    match size_of(size) {
        Some(size) => match workers_of(workers) {
            Some(workers) => Asked::Summary(size, workers),
            None => Asked::Nothing,
        },
        None => Asked::Nothing,
    }
}

// The kind of module that a word names.
fn kind_of(word: &str) -> Option<Kind>
    ensures { result ≡ kind_in word.now }
{
    match word {
        "bottom" => Some(Kind::Bottom),
        "top" => Some(Kind::Top),
        "star" => Some(Kind::Star),
        _ => None,
    }
}
