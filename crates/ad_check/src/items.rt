/// A nonterminal of the grammar: a kind of phrase.
#[derive(Clone, Copy)]
pub enum Nonterminal {
    Name,
    Number,
    Property,
    /// A property, or a chain of them.
    Link,
    Individual,
    Literal,
    /// A facet's IRI and its value.
    Facet,
    Range,
    Class,
    Note,
    Subject,
    Value,
    Entity,
    Axiom,
    /// An axiom that isn't carried.
    Logical,
    /// A prefix declaration.
    Prefix,
    /// A sign, and an axiom behind it.
    Signed,
    Ontology,
}

/// A symbol of the grammar: what may stand next in a text.
#[derive(Clone, Copy)]
pub enum Symbol {
    Left,
    Right,
    Equals,
    /// An IRI in full.
    Full,
    /// A prefix with a colon behind it.
    Label,
    /// What may stand behind the string of a literal.
    Tail,
    /// The range of a restriction on data, with the parenthesis that closes the restriction.
    Filler,
    /// The parenthesis that closes a restriction on data.
    End,
    /// Anything up to the parenthesis that closes it.
    Any,
    /// The annotations and axioms of an ontology, up to the parenthesis that closes it.
    Body,
    One(Nonterminal),
    /// Any number of phrases.
    Star(Nonterminal),
    /// A phrase, or none.
    Maybe(Nonterminal),
    /// Any number of phrases, and the parenthesis that closes them.
    Until(Nonterminal),
}

/// A production of the grammar: a keyword, and what stands behind it.
#[derive(Clone, Copy)]
pub struct Production {
    pub word: &'static str,
    pub items: &'static [Symbol],
}

/// Where a text stops, and whether it goes on there in the wide grammar.
#[derive(Clone, Copy)]
pub struct Halt {
    pub token: usize,
    pub wide: bool,
}
