ghost use Rattle.std.specs.Prelude.{◌≡◌};
ghost use Rattle.ad_lex.specs.Characters.{kind_of, is_blank, is_word, is_iri};

/// The kinds of characters that the rules on tokens tell apart.
#[derive(Clone, Copy)]
pub enum CharKind {
    /// Space, tab, CR or LF.
    Blank,
    Hash,
    Left,
    Right,
    Equals,
    Caret,
    Less,
    Greater,
    Quote,
    At,
    Plus,
    Minus,
    Other,
}

// The kind of a character, by its first byte: all kinds but `Other` are of ASCII characters.
#[tactic(auto, unfolding(crate::specs::Characters::kind_of))]
pub(crate) fn kind_of(byte: u8) -> CharKind
    ensures { result ≡ kind_of byte }
{
    match byte {
        b' ' | b'\t' | b'\r' | b'\n' => CharKind::Blank,
        b'#' => CharKind::Hash,
        b'(' => CharKind::Left,
        b')' => CharKind::Right,
        b'=' => CharKind::Equals,
        b'^' => CharKind::Caret,
        b'<' => CharKind::Less,
        b'>' => CharKind::Greater,
        b'"' => CharKind::Quote,
        b'@' => CharKind::At,
        b'+' => CharKind::Plus,
        b'-' => CharKind::Minus,
        _ => CharKind::Other,
    }
}

// Whether the byte is one of a word character.
pub(crate) fn is_word(byte: u8) -> bool
    ensures { result ≡ is_word byte }
{
    match kind_of(byte) {
        CharKind::Plus | CharKind::Minus | CharKind::Other => true,
        _ => false,
    }
}

// Whether the byte may stand between `<` and `>`.
pub(crate) fn is_iri(byte: u8) -> bool
    ensures { result ≡ is_iri byte }
{
    match kind_of(byte) {
        CharKind::Less | CharKind::Greater | CharKind::Quote | CharKind::Blank => false,
        _ => true,
    }
}
