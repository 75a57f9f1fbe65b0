ghost use Rattle.std.specs.Prelude.{◌≡◌, ◌∷◌, [], codes};
ghost use Rattle.ad_io.specs.Sink.{Puts, PutCause};
ghost use Rattle.ad_reply.specs.Replies.{cause_words, refused};
ghost use Rattle.ad_run.specs.Notes.{note, note_of, IsNoted};
ghost use Rattle.ad_run.specs.Statuses.{answer_status, code_of, output_status};

use ad_base::Memory;
use ad_documents::Answer;
use ad_io::{Sink, Wrote, put_all};
use ad_reply::{Refusal, explain};

// How a run ends.
#[derive(Clone, Copy)]
pub(crate) enum Status {
    // All was written.
    Done,
    // The words are those of no command.
    Usage,
    // The document was refused for this cause.
    Refused(Refusal),
    // The input of the session was cut.
    Cut,
    // A line of the session, or its payload, is too long.
    TooLong,
    // The session had as many requests as one may have.
    Spent,
    // The source failed.
    ReadFault,
    // The sink failed.
    WriteFault,
    // Memory is wanting.
    Memory,
}

impl Status {
    // The status of a command on a document that was answered so.
    pub(crate) fn of_answer(answer: Answer) -> Status
        ensures { result ≡ answer_status answer }
    {
        match answer {
            Answer::Written => Status::Done,
            Answer::Refused(refusal) => Status::Refused(refusal),
            Answer::WriteFault => Status::WriteFault,
            Answer::Memory => Status::Memory,
        }
    }

    // The status of a command that generates an ontology and whose output was written so, or for which memory was wanting.
    pub(crate) fn of_output(output: Result<Wrote, Memory>) -> Status
        ensures { result ≡ output_status output }
    {
        match output {
            Ok(Wrote::All) => Status::Done,
            Ok(Wrote::Failed) => Status::WriteFault,
            Err(Memory) => Status::Memory,
        }
    }

    // The exit status.
    pub(crate) fn code(self) -> u8
        ensures { result ≡ code_of self }
    {
        match self {
            Status::Done => 0,
            Status::Usage => 2,
            Status::Refused(_) | Status::Cut | Status::TooLong | Status::Spent => 3,
            Status::ReadFault => 4,
            Status::WriteFault => 5,
            Status::Memory => 6,
        }
    }

    // Tells the status in a line, and gives the exit status.
    pub(crate) fn end<N: Sink>(self, notes: &mut N) -> u8
        ensures code { result ≡ code_of self }
        ensures told { IsNoted (N.written notes.old) (N.written notes.new) (N.faults notes.old) (N.faults notes.new) (note_of self) }
    {
        let _wrote = self.tell(notes);
        self.code()
    }

    // Tells the status in a line.
    pub(crate) fn tell<N: Sink>(self, notes: &mut N) -> Wrote
        ensures bytes { Puts (N.written notes.old) (N.written notes.new) result (note_of self) }
        ensures cause { PutCause (N.faults notes.old) (N.faults notes.new) result }
    {
        match self {
            Status::Done => Wrote::All,
            Status::Usage => put_all(notes, b"owlad: usage\n"),
            Status::Refused(refusal) => tell_refusal(refusal, notes),
            Status::Cut => put_all(notes, b"owlad: cut\n"),
            Status::TooLong => put_all(notes, b"owlad: too long\n"),
            Status::Spent => put_all(notes, b"owlad: spent\n"),
            Status::ReadFault => put_all(notes, b"owlad: read fault\n"),
            Status::WriteFault => put_all(notes, b"owlad: write fault\n"),
            Status::Memory => put_all(notes, b"owlad: memory\n"),
        }
    }
}

/// Tells that words are those of no command, and gives the exit status.
pub fn usage<N: Sink>(notes: &mut N) -> u8
    ensures code { result ≡ 2 }
    ensures told { IsNoted (N.written notes.old) (N.written notes.new) (N.faults notes.old) (N.faults notes.new) (note (codes "usage" ∷ [])) }
{
    Status::Usage.end(notes)
}

/// Tells that memory is wanting, and gives the exit status.
pub fn memory<N: Sink>(notes: &mut N) -> u8
    ensures code { result ≡ 6 }
    ensures told { IsNoted (N.written notes.old) (N.written notes.new) (N.faults notes.old) (N.faults notes.new) (note (codes "memory" ∷ [])) }
{
    Status::Memory.end(notes)
}

// Tells why a document is refused.
fn tell_refusal<N: Sink>(refusal: Refusal, notes: &mut N) -> Wrote
    ensures bytes { Puts (N.written notes.old) (N.written notes.new) result (note (codes "refused" ∷ cause_words (refused refusal))) }
    ensures cause { PutCause (N.faults notes.old) (N.faults notes.new) result }
{
    match put_all(notes, b"owlad: refused ") {
        Wrote::All => explain(refusal, notes),
        Wrote::Failed => Wrote::Failed,
    }
}
