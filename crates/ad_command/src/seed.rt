ghost use Rattle.std.specs.Prelude.{◌≡◌, IfOk, Some, IsTrue, length, drop, map};
ghost use Rattle.std.specs.List.{AllByRecursion, list_all};
ghost use Rattle.ad_lex.specs.Characters.{is_iri};
ghost use Rattle.ad_command.specs.Command.{IsCommand, IsSeedEntity, of_module, seed_word};
ghost use Rattle.ad_command.specs.Words.{are_seed_words, entity_kind_in, front_of, is_iri_behind, is_seed_word, module_kind};

use ad_base::{Kind, Memory, Word};
use ad_tree::{Entity, EntityKind, Seed};
use std::alloc::Global;

/// The entities that the words of a module name.
pub fn named_seed(alloc: Global, kind: Kind, words: &[Word]) -> Result<Seed, Memory>
    requires { module_kind words.now ≡ Some kind }
    ensures { IfOk result (λ seed. IsCommand words.now (of_module kind seed)) }
{
    seed_of(alloc, &words[2..])
}

// The entities that some words name.
fn seed_of(alloc: Global, words: &[Word]) -> Result<Seed, Memory>
    requires { IsTrue (are_seed_words words.now) }
    ensures { IfOk result (λ seed. AllByRecursion IsSeedEntity seed × (words.now ≡ map seed_word seed)) }
{
    let mut seed = Seed::new(alloc);
    for word in words {
        seed.push(entity_of(alloc, word.as_str())?)?;
    }
    Ok(seed)
}

// Whether each word names an entity.
pub(crate) fn name_entities(words: &[Word]) -> bool
    ensures { result ≡ are_seed_words words.now }
{
    words
        .iter()
        .all(|word| kind_named(word.as_str().as_bytes()).is_some())
}

// The kind of the entity that a word names.
fn kind_named(word: &[u8]) -> Option<EntityKind>
    ensures { result ≡ entity_kind_in word.now }
{
    if is_behind(b"Class=", word) {
        Some(EntityKind::Class)
    } else if is_behind(b"Datatype=", word) {
        Some(EntityKind::Datatype)
    } else if is_behind(b"ObjectProperty=", word) {
        Some(EntityKind::ObjectProperty)
    } else if is_behind(b"DataProperty=", word) {
        Some(EntityKind::DataProperty)
    } else if is_behind(b"AnnotationProperty=", word) {
        Some(EntityKind::AnnotationProperty)
    } else if is_behind(b"NamedIndividual=", word) {
        Some(EntityKind::NamedIndividual)
    } else {
        None
    }
}

// Whether the word has this front, and behind it an IRI.
fn is_behind(front: &[u8], word: &[u8]) -> bool
    ensures { result ≡ is_iri_behind front.now word.now }
{
    word.starts_with(front) && is_iri_text(&word[front.len()..])
}

// Whether the bytes may stand between < and >.
fn is_iri_text(bytes: &[u8]) -> bool
    ensures { result ≡ list_all is_iri bytes.now }
{
    bytes.iter().all(|byte| is_iri_byte(*byte))
}

// Whether the byte may stand between < and >.
#[tactic(auto, unfolding(ad_lex::specs::Characters::kind_of))]
fn is_iri_byte(byte: u8) -> bool
    ensures { result ≡ is_iri byte }
{
    !matches!(byte, b' ' | b'\t' | b'\r' | b'\n' | b'<' | b'>' | b'"')
}

// The entity that a word names.
fn entity_of(alloc: Global, word: &str) -> Result<Entity, Memory>
    ensures { IfOk result (λ e. IsTrue (is_seed_word word.now) → IsSeedEntity e × (word.now ≡ seed_word e)) }
{
    let kind = kind_named(word.as_bytes()).unwrap_or(EntityKind::Class);
    Ok(Entity {
        kind,
        name: name_behind(alloc, front(kind), word)?,
    })
}

// What stands behind the front of a word.
fn name_behind(alloc: Global, front: &str, word: &str) -> Result<Word, Memory>
    ensures { IfOk result (λ name. IsTrue (is_iri_behind front.now word.now) → name ≡ drop (length front.now) word.now) }
{
    Word::of(alloc, word.strip_prefix(front).unwrap_or(word))
}

// What stands before the IRI in the word of an entity of this kind.
fn front(kind: EntityKind) -> &'static str
    ensures { result.now ≡ front_of kind }
{
    match kind {
        EntityKind::Class => "Class=",
        EntityKind::Datatype => "Datatype=",
        EntityKind::ObjectProperty => "ObjectProperty=",
        EntityKind::DataProperty => "DataProperty=",
        EntityKind::AnnotationProperty => "AnnotationProperty=",
        EntityKind::NamedIndividual => "NamedIndividual=",
    }
}
