ghost use Rattle.std.specs.Prelude.{◌≡◌, ◌⊎◌, List, ℕ, [], ◌∷◌, ◌++◌, ◌<◌, length, drop, true, IsUtf8};
ghost use Rattle.std.specs.List.{AllPass};
ghost use Rattle.std.specs.Char.{is_ascii_alphanumeric};
ghost use Rattle.ad_lex.specs.declared.token.Mark.{Mark};
ghost use Rattle.ad_lex.specs.declared.token.Mark.TheVariants as mark;
ghost use Rattle.ad_lex.specs.declared.token.Token.{Token};
ghost use Rattle.ad_lex.specs.declared.token.LexFault.{LexFault};
ghost use Rattle.ad_lex.specs.Characters.{is_blank, is_iri, is_word};
ghost use Rattle.ad_lex.specs.Lexed.{start, IsLexed, IsFault};
ghost use Rattle.ad_lex.specs.Lexemes.{Lexeme, lexeme_of, lexemes};
ghost use Rattle.ad_lex.specs.Lexemes as what;
ghost use Rattle.ad_lex.specs.Says.{Says, EndsBefore, escaped};
ghost use Rattle.ad_lex.specs.Shapes.{HasShape};
ghost use Rattle.ad_lex.specs.Spans.{AreTokensOf, AreInOrder};

/// A law on every text: it has either one list of tokens or one first fault. It does nothing.
pub fn one_reading()
    ensures tokens { (text : List ℕ) (ts us : List Token) → IsLexed text ts → IsLexed text us → ts ≡ us }
    ensures fault { (text : List ℕ) (f g : LexFault) → IsFault text f → IsFault text g → f ≡ g }
    ensures either { (text : List ℕ) → ((ts : List Token) × IsLexed text ts) ⊎ ((f : LexFault) × IsFault text f) }
    ensures not_both { (text : List ℕ) (ts : List Token) (f : LexFault) → IsLexed text ts → IsFault text f → ⊥ }
{}

/// A law on the tokens of every text: they stand in it, one behind the other. It does nothing.
pub fn tokens_in_place()
    ensures spans { (text : List ℕ) (ts : List Token) → IsLexed text ts → AreTokensOf text ts }
    ensures order { (text : List ℕ) (ts : List Token) → IsLexed text ts → AreInOrder ts }
{}

/// A law on what a text says: it is what its tokens say in turn. It does nothing.
pub fn tokens_say()
    ensures says { (text : List ℕ) (ts : List Token) → IsLexed text ts → Says (drop (start text) text) (lexemes text ts) }
    ensures lexed { (text : List ℕ) (ls : List Lexeme) → IsUtf8 text → Says (drop (start text) text) ls → (ts : List Token) × IsLexed text ts × (lexemes text ts ≡ ls) }
{}

/// A law on texts that are written from the right, token by token: they say what was written. It does nothing.
pub fn written_is_read()
    ensures end { Says [] [] }
    ensures blank { (c : ℕ) (rest : List ℕ) (ls : List Lexeme) → is_blank c ≡ true → Says rest ls → Says (c ∷ rest) ls }
    ensures token { (m : Mark) (bytes rest : List ℕ) (ls : List Lexeme) → HasShape m bytes → EndsBefore m rest → Says rest ls → Says (bytes ++ rest) (lexeme_of m bytes ∷ ls) }
    ensures iri { (name rest : List ℕ) (ls : List Lexeme) → AllPass is_iri name → Says rest ls → Says (60 ∷ (name ++ 62 ∷ rest)) (what.Iri name ∷ ls) }
    ensures string { (value rest : List ℕ) (ls : List Lexeme) → Says rest ls → Says (34 ∷ (escaped value ++ 34 ∷ rest)) (what.Text value ∷ ls) }
{}

/// A law on the shapes of keywords, numbers, labels and tags. It does nothing.
pub fn written_shapes()
    ensures plain { (word : List ℕ) → 0 < length word → AllPass is_ascii_alphanumeric word → HasShape mark.Plain word }
    ensures node { (label : List ℕ) → AllPass is_word label → HasShape mark.Node (95 ∷ 58 ∷ label) }
    ensures lang { (tag : List ℕ) → 0 < length tag → AllPass is_word tag → HasShape mark.Lang (64 ∷ tag) }
{}
