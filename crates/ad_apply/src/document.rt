ghost use Rattle.std.specs.Prelude.{◌≡◌, ◌+◌, ◌-◌, ◌^◌, length, min};
ghost use Rattle.ad_write.specs.Canonical.{canon, canon_document};
ghost use Rattle.ad_syntax_laws.specs.OntologyModule.{values};

use ad_tree::Noted;
use ad_write::{EMPTY_DOCUMENT, document_length, size};
use std::sync::Arc;

/// How many bytes the canonical document of these axioms has, or the last u64 where it has more. It takes no memory.
pub fn document_bytes(axioms: &[Arc<Noted>]) -> u64
    ensures { result ≡ min (length (canon_document (values axioms.now))) (2 ^ 64 - 1) }
{
    document_length();
    let mut bytes = EMPTY_DOCUMENT;
    for noted in axioms {
        bytes = with_line(bytes, noted);
    }
    bytes
}

// So many bytes, and those of the line of one more axiom; at most the last u64.
fn with_line(bytes: u64, noted: &Noted) -> u64
    ensures { result ≡ min (bytes + length (canon noted.now) + 1) (2 ^ 64 - 1) }
{
    bytes.saturating_add(size(noted)).saturating_add(1)
}
