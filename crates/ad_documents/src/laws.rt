ghost use Rattle.ad_documents.specs.Causes.{HasOneCause, IsOntologyOrUnfit};

use ad_read::one_outcome;

/// What is proved of every text: it is refused for one cause at most, and for none where it has an ontology within the
/// limits.
pub fn document_laws()
    ensures one_cause { HasOneCause }
    ensures ontology { IsOntologyOrUnfit }
{
    one_outcome();
}
