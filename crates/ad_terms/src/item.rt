use ad_base::Word;
use ad_tree::{Annotation, Class, Entity, Literal, Noted, ObjProps, Range, Sign};

/// What the tokens of a text stand for, while it is read from its end.
#[derive(Drop)]
pub enum StackItem {
    /// A parenthesis that no keyword has taken yet.
    Open,
    Close,
    /// A sign before an axiom.
    Signed(Sign),
    /// What may stand behind a string: `^^`, or a language tag.
    Carets,
    Tag(Word),
    Number(u32),
    /// A name, of the kind that its place asks for.
    Name(Word),
    /// The label of an anonymous individual.
    Label(Word),
    Literal(Literal),
    /// The inverse of the object property of this name.
    Inverse(Word),
    Range(Range),
    Class(Class),
    Chain(ObjProps),
    Note(Annotation),
    Entity(Entity),
    Axiom(Noted),
    /// No phrase.
    Broken,
}
