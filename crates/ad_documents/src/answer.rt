ghost use Rattle.std.specs.Prelude.{◌≡◌};
ghost use Rattle.ad_documents.specs.Answered.{answer_of};

use ad_io::Wrote;
use ad_reply::Refusal;

/// How a document is answered.
#[derive(Clone, Copy)]
pub enum Answer {
    /// All was written.
    Written,
    /// The document is refused for this cause.
    Refused(Refusal),
    /// The sink failed.
    WriteFault,
    /// Memory is wanting.
    Memory,
}

// What writing an output comes to.
pub(crate) fn answer_of(wrote: Wrote) -> Answer
    ensures { result ≡ answer_of wrote }
{
    match wrote {
        Wrote::All => Answer::Written,
        Wrote::Failed => Answer::WriteFault,
    }
}
