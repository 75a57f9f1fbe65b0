ghost use Rattle.std.specs.Prelude.{◌≡◌, ◌↔◌, ◌≤◌, ℕ, List, [], ◌∷◌, ◌++◌, false, IsTrue};
ghost use Rattle.std.specs.List.{AllByRecursion};
ghost use Rattle.ad_lex.specs.declared.token.Token.{Token};
ghost use Rattle.ad_lex.specs.Lexed.{IsLexed};
ghost use Rattle.ad_lex.specs.Lexemes.{lexemes};
ghost use Rattle.ad_write.specs.Canonical.{canon, canon_line, canon_document};
ghost use Rattle.ad_tree.specs.Logical.{is_logical};
ghost use Rattle.ad_entity.specs.declared.entities.Entity.{Entity};
ghost use Rattle.ad_tree.specs.declared.axioms.Noted.{Noted};
ghost use Rattle.ad_tree.specs.declared.edits.Op.{Op};
ghost use Rattle.ad_grammar.specs.Nesting.{nesting, document_nesting};
ghost use Rattle.ad_grammar.specs.Shapes.{Text};
ghost use Rattle.ad_grammar.specs.Names.{Words};
ghost use Rattle.ad_grammar.specs.Axioms.{SpellsNoted};
ghost use Rattle.ad_grammar.specs.Texts.{Declared, SpellsDocument, SpellsEdit, SpellsSeed, SpellsSingle};
ghost use Rattle.ad_canonical.specs.Depths.{NestsWithin};
ghost use Rattle.ad_canonical.specs.Spellable.{SpellableEntity, IsSpellable};

/// A law on each axiom that can be written: the tokens of its canonical text, alone or as a line, spell this axiom
/// and no other, whatever prefixes are in force. It does nothing.
pub fn written_axiom_is_read()
    ensures tokens { (a : Noted) → IsSpellable a → (ts : List Token) × IsLexed (canon a) ts × ((words : Words) → SpellsNoted false words a (lexemes (canon a) ts)) }
    ensures only { (a b : Noted) (words : Words) (ts : List Token) → IsSpellable a → IsLexed (canon a) ts → SpellsNoted false words b (lexemes (canon a) ts) → b ≡ a }
    ensures single { (a : Noted) (ts : List Token) → IsSpellable a → IsTrue (is_logical a.axiom) → IsLexed (canon a) ts → SpellsSingle [] a (lexemes (canon a) ts) }
    ensures line { (a : Noted) → IsSpellable a → (ts : List Token) × IsLexed (canon_line a) ts × ((words : Words) → SpellsNoted false words a (lexemes (canon_line a) ts)) }
    ensures only_of_line { (a b : Noted) (words : Words) (ts : List Token) → IsSpellable a → IsLexed (canon_line a) ts → SpellsNoted false words b (lexemes (canon_line a) ts) → b ≡ a }
{}

/// A law on the canonical texts of axioms that can be written: none is a proper prefix of another, and two axioms
/// have two texts. It does nothing.
pub fn written_axioms_differ()
    ensures prefix { (a b : Noted) (more : List ℕ) → IsSpellable a → IsSpellable b → canon b ≡ canon a ++ more → more ≡ [] }
    ensures text { (a b : Noted) → IsSpellable a → IsSpellable b → canon a ≡ canon b → a ≡ b }
{}

/// A law on canonical documents of axioms that can be written: the tokens spell these axioms in their order, and no
/// others. It does nothing.
pub fn written_document_is_read()
    ensures tokens { (axioms : List Noted) → AllByRecursion IsSpellable axioms → (ts : List Token) × IsLexed (canon_document axioms) ts × SpellsDocument [] axioms (lexemes (canon_document axioms) ts) }
    ensures only { (axioms others : List Noted) (declared : List Declared) (ts : List Token) → AllByRecursion IsSpellable axioms → IsLexed (canon_document axioms) ts → SpellsDocument declared others (lexemes (canon_document axioms) ts) → (declared ≡ []) × (others ≡ axioms) }
{}

/// A law on every text: what it spells can be written. It does nothing.
pub fn read_is_spellable()
    ensures document { (text : List ℕ) (ts : List Token) (declared : List Declared) (axioms : List Noted) → IsLexed text ts → SpellsDocument declared axioms (lexemes text ts) → AllByRecursion IsSpellable axioms }
    ensures edit { (text : List ℕ) (ts : List Token) (declared : List Declared) (ops : List Op) → IsLexed text ts → SpellsEdit declared ops (lexemes text ts) → AllByRecursion (λ op. IsSpellable op.noted) ops }
    ensures seed { (text : List ℕ) (ts : List Token) (declared : List Declared) (entities : List Entity) → IsLexed text ts → SpellsSeed declared entities (lexemes text ts) → AllByRecursion SpellableEntity entities }
    ensures single { (text : List ℕ) (ts : List Token) (declared : List Declared) (a : Noted) → IsLexed text ts → SpellsSingle declared a (lexemes text ts) → IsSpellable a }
    ensures exactly { (a : Noted) → IsSpellable a ↔ ((text : List ℕ) × (ts : List Token) × (declared : List Declared) × IsLexed text ts × SpellsDocument declared (a ∷ []) (lexemes text ts)) }
{}

/// A law on how deep parentheses nest: all spellings of an axiom nest alike, and the canonical document of what was
/// read from texts within a depth is within it. It does nothing.
pub fn written_nests_alike()
    ensures axiom_alike { (a : Noted) (words others : Words) (ts us : Text) → SpellsNoted false words a ts → SpellsNoted false others a us → nesting ts ≡ nesting us }
    ensures document { (ts : Text) (declared : List Declared) (axioms : List Noted) (depth : ℕ) → SpellsDocument declared axioms ts → document_nesting ts ≤ depth → AllByRecursion (NestsWithin depth) axioms }
    ensures edit { (ts : Text) (declared : List Declared) (ops : List Op) (depth : ℕ) → SpellsEdit declared ops ts → nesting ts ≤ depth → AllByRecursion (λ op. NestsWithin depth op.noted) ops }
    ensures single { (ts : Text) (declared : List Declared) (a : Noted) (depth : ℕ) → SpellsSingle declared a ts → nesting ts ≤ depth → NestsWithin depth a }
    ensures written { (axioms : List Noted) (ts : List Token) (depth : ℕ) → AllByRecursion IsSpellable axioms → IsLexed (canon_document axioms) ts → (document_nesting (lexemes (canon_document axioms) ts) ≤ depth) ↔ AllByRecursion (NestsWithin depth) axioms }
{}
