ghost use Rattle.std.specs.Prelude.{◌≡◌, ◌≢◌, ◌⊎◌, ◌<◌, ℕ, ◌≤◌, List, Some, IsSome, length};
ghost use Rattle.ad_base.specs.Limits.{standard};
ghost use Rattle.ad_io.specs.Flow.{Rose, NotRisen};
ghost use Rattle.ad_items.specs.Items.{Items, Split, bounds_of};
ghost use Rattle.ad_session.specs.Flows.{flow};
ghost use Rattle.ad_tree.specs.declared.axioms.Noted.{Noted};
ghost use Rattle.ad_command.specs.Asks.{IsModule, IsSomeDocument, IsSomeGenerated, IsSomeScript, IsWithWorkers};
ghost use Rattle.ad_command.specs.Command.{IsCommand, IsNoCommand, of_atoms, of_split};
ghost use Rattle.ad_command.specs.Words.{module_kind};
ghost use Rattle.ad_run.specs.Causes.{too_long};
ghost use Rattle.ad_run.specs.Ends.{EndsSo, IsDone, IsRefused, IsUnread, IsCutOff, IsWanting};
ghost use Rattle.ad_run.specs.Inputs.{payload_limit};
ghost use Rattle.ad_run.specs.Notes.{IsTold};
ghost use Rattle.ad_documents.specs.Output.{IsOntology, IsNoOntology};
ghost use Rattle.ad_run.specs.Runs.{RunCause, code_at};
ghost use Rattle.ad_run.specs.Statuses.{IsStatus};

use crate::generated::{run_generate, run_summary};
use crate::script::run_script;
use crate::status::Status;
use ad_base::{Kind, Limits, Which, Word};
use ad_command::{Asked, named_seed, read_words};
use ad_documents::{answer_atoms, answer_module, answer_split};
use ad_io::{ReadEnd, Sink, Source, read_to_end};
use ad_reply::Refusal;
use std::alloc::Global;
use std::hash::RandomState;
use std::thread::Threads;

/// Does what the words ask for: reads a document, the requests of a session, or nothing, from the source, writes to the sink,
/// and tells a status other than 0 on the notes in a line. It always returns, with the exit status. Names are hashed with
/// these keys, and threads share the work; what is written depends on neither.
pub fn run_once<S: Source, K: Sink, N: Sink>(
    rt: &(impl Threads + Sync),
    alloc: Global,
    keys: RandomState,
    words: &[Word],
    source: &mut S,
    sink: &mut K,
    notes: &mut N,
) -> u8
    ensures known { IsStatus result }

    // 0: the words are a command. For a module, atoms or parts the source was read to its end, and the sink has exactly
    // the command's output; a session was closed by its input, and the sink has exactly its replies; of a generated
    // ontology nothing was read, and the sink has exactly the output.
    ensures done { result ≡ 0 → IsDone words.now (flow (S.left source.old) (S.faults source.old) (K.written sink.old) (K.faults sink.old)) (flow (S.left source.new) (S.faults source.new) (K.written sink.new) (K.faults sink.new)) }

    // 2: exactly where the words are no command; nothing is read or written.
    ensures usage { result ≡ 2 → IsNoCommand words.now }
    ensures no_command { IsNoCommand words.now → result ≡ 2 }
    ensures untouched { result ≡ 2 → (source.new ≡ source.old) × (sink.new ≡ sink.old) }

    // 3: for a module, atoms or parts, the source was read to its end and is no document of an ontology within the limits, or
    // it is too long, and nothing is written. The input of a session was cut or too long, or had as many requests as one
    // may have, and the sink has exactly the replies up to there.
    ensures refused { result ≡ 3 → IsRefused words.now (flow (S.left source.old) (S.faults source.old) (K.written sink.old) (K.faults sink.old)) (flow (S.left source.new) (S.faults source.new) (K.written sink.new) (K.faults sink.new)) }

    // 4 and 5: only where the source's, or the sink's, count of faults rose. At 4 nothing was written for a module,
    // atoms or parts, and for a session the replies to the requests that were read whole; at 5 a front of the output, or of the
    // replies.
    ensures read_fault { result ≡ 4 → Rose (S.faults source.old) (S.faults source.new) }
    ensures unread { result ≡ 4 → IsUnread words.now (flow (S.left source.old) (S.faults source.old) (K.written sink.old) (K.faults sink.old)) (flow (S.left source.new) (S.faults source.new) (K.written sink.new) (K.faults sink.new)) }
    ensures write_fault { result ≡ 5 → Rose (K.faults sink.old) (K.faults sink.new) }
    ensures cut { result ≡ 5 → IsCutOff words.now (flow (S.left source.old) (S.faults source.old) (K.written sink.old) (K.faults sink.old)) (flow (S.left source.new) (S.faults source.new) (K.written sink.new) (K.faults sink.new)) }

    // 6: memory is wanting; nothing was written.
    ensures memory { result ≡ 6 → IsWanting words.now (flow (S.left source.old) (S.faults source.old) (K.written sink.old) (K.faults sink.old)) (flow (S.left source.new) (S.faults source.new) (K.written sink.new) (K.faults sink.new)) }

    // Where the source tells its text, the words are those of a module, atoms or parts and no count rises, a text of an
    // ontology within the limits is answered, and any other text is refused, unless memory is wanting.
    ensures complete { (text : List ℕ) (ontology : List Noted) → IsSomeDocument words.now → S.left source.old ≡ Some text → IsSome (S.left source.new) → length text ≤ payload_limit → IsOntology text ontology → NotRisen (S.faults source.old) (S.faults source.new) → NotRisen (K.faults sink.old) (K.faults sink.new) → (result ≡ 0) ⊎ (result ≡ 6) }
    ensures refuses { (text : List ℕ) → IsSomeDocument words.now → S.left source.old ≡ Some text → IsSome (S.left source.new) → IsNoOntology text ⊎ (payload_limit < length text) → NotRisen (S.faults source.old) (S.faults source.new) → NotRisen (K.faults sink.old) (K.faults sink.new) → (result ≡ 3) ⊎ (result ≡ 6) }

    // A command on a generated ontology reads nothing, and where the sink doesn't fail all is written, unless memory is
    // wanting.
    ensures reads_nothing { IsSomeGenerated words.now → (S.left source.new ≡ S.left source.old) × (S.faults source.new ≡ S.faults source.old) }
    ensures generates { IsSomeGenerated words.now → NotRisen (K.faults sink.old) (K.faults sink.new) → (result ≡ 0) ⊎ (result ≡ 6) }

    // The notes get exactly the line of the status, or a front of it where they fail; and nothing at 0. For a refused
    // document the line names the cause that it has, and for a session how its input broke off.
    ensures told { IsTold words.now (flow (S.left source.old) (S.faults source.old) (K.written sink.old) (K.faults sink.old)) (flow (S.left source.new) (S.faults source.new) (K.written sink.new) (K.faults sink.new)) result (N.written notes.old) (N.written notes.new) (N.faults notes.old) (N.faults notes.new) }

    // And where they are those of a session, the status is 0 exactly where the input closes it, and else 3, unless
    // memory is wanting before its first request.
    ensures session { (text : List ℕ) (s : Split) → IsSomeScript words.now → S.left source.old ≡ Some text → IsSome (S.left source.new) → Items (bounds_of standard) 0 text s.items s.ending s.taken s.left → NotRisen (S.faults source.old) (S.faults source.new) → NotRisen (K.faults sink.old) (K.faults sink.new) → (result ≡ code_at s.ending) ⊎ (result ≡ 6) }
{
    run(rt, alloc, keys, words, source, sink).end(notes)
}

// The same up to the notes.
fn run<S: Source, K: Sink>(
    rt: &(impl Threads + Sync),
    alloc: Global,
    keys: RandomState,
    words: &[Word],
    source: &mut S,
    sink: &mut K,
) -> Status
    ensures ends { EndsSo words.now (flow (S.left source.old) (S.faults source.old) (K.written sink.old) (K.faults sink.old)) (flow (S.left source.new) (S.faults source.new) (K.written sink.new) (K.faults sink.new)) result }
    ensures untouched { result ≡ Status.Usage → (source.new ≡ source.old) × (sink.new ≡ sink.old) }
    ensures cause { RunCause (flow (S.left source.old) (S.faults source.old) (K.written sink.old) (K.faults sink.old)) (flow (S.left source.new) (S.faults source.new) (K.written sink.new) (K.faults sink.new)) result }
{
    match read_words(words) {
        Asked::Module(kind) => run_module(alloc, keys, kind, words, source, sink),
        Asked::Atoms(kind, workers) => {
            run_atoms(rt, alloc, keys, kind, workers, words, source, sink)
        },
        Asked::Script(workers) => run_script(rt, alloc, keys, workers, source, sink),
        Asked::Split(kind) => run_split(rt, alloc, keys, kind, words, source, sink),
        Asked::Generate(size) => run_generate(alloc, size, words, sink),
        Asked::Summary(size, workers) => run_summary(rt, alloc, keys, size, workers, words, sink),
        Asked::Nothing => Status::Usage,
    }
}

// The run of a module.
fn run_module<S: Source, K: Sink>(
    alloc: Global,
    keys: RandomState,
    kind: Kind,
    words: &[Word],
    source: &mut S,
    sink: &mut K,
) -> Status
    requires { (module_kind words.now ≡ Some kind) × IsModule words.now kind }
    ensures ends { EndsSo words.now (flow (S.left source.old) (S.faults source.old) (K.written sink.old) (K.faults sink.old)) (flow (S.left source.new) (S.faults source.new) (K.written sink.new) (K.faults sink.new)) result }
    ensures asked { result ≢ Status.Usage }
    ensures cause { RunCause (flow (S.left source.old) (S.faults source.old) (K.written sink.old) (K.faults sink.old)) (flow (S.left source.new) (S.faults source.new) (K.written sink.new) (K.faults sink.new)) result }
{
    let seed = match named_seed(alloc, kind, words) {
        Ok(seed) => seed,
        Err(_memory) => return Status::Memory,
    };
    let text = match read_to_end(alloc, source, Limits::standard().payload) {
        Ok(text) => text,
        Err(ReadEnd::Failed) => return Status::ReadFault,
        Err(ReadEnd::Long) => return Status::Refused(too_long()),
        Err(ReadEnd::Memory) => return Status::Memory,
    };
    Status::of_answer(answer_module(alloc, keys, kind, &seed, text.as_slice(), sink))
}

// The run of atoms.
fn run_atoms<S: Source, K: Sink>(
    rt: &(impl Threads + Sync),
    alloc: Global,
    keys: RandomState,
    kind: Kind,
    _workers: u32,
    words: &[Word],
    source: &mut S,
    sink: &mut K,
) -> Status
    requires { IsWithWorkers (of_atoms kind) words.now _workers }
    ensures ends { EndsSo words.now (flow (S.left source.old) (S.faults source.old) (K.written sink.old) (K.faults sink.old)) (flow (S.left source.new) (S.faults source.new) (K.written sink.new) (K.faults sink.new)) result }
    ensures asked { result ≢ Status.Usage }
    ensures cause { RunCause (flow (S.left source.old) (S.faults source.old) (K.written sink.old) (K.faults sink.old)) (flow (S.left source.new) (S.faults source.new) (K.written sink.new) (K.faults sink.new)) result }
{
    let text = match read_to_end(alloc, source, Limits::standard().payload) {
        Ok(text) => text,
        Err(ReadEnd::Failed) => return Status::ReadFault,
        Err(ReadEnd::Long) => return Status::Refused(too_long()),
        Err(ReadEnd::Memory) => return Status::Memory,
    };
    Status::of_answer(answer_atoms(rt, alloc, keys, kind, text.as_slice(), sink))
}

// The run of parts.
fn run_split<S: Source, K: Sink>(
    rt: &(impl Threads + Sync),
    alloc: Global,
    keys: RandomState,
    kind: Kind,
    words: &[Word],
    source: &mut S,
    sink: &mut K,
) -> Status
    requires { IsCommand words.now (of_split kind) }
    ensures ends { EndsSo words.now (flow (S.left source.old) (S.faults source.old) (K.written sink.old) (K.faults sink.old)) (flow (S.left source.new) (S.faults source.new) (K.written sink.new) (K.faults sink.new)) result }
    ensures asked { result ≢ Status.Usage }
    ensures cause { RunCause (flow (S.left source.old) (S.faults source.old) (K.written sink.old) (K.faults sink.old)) (flow (S.left source.new) (S.faults source.new) (K.written sink.new) (K.faults sink.new)) result }
{
    let text = match read_to_end(alloc, source, Limits::standard().payload) {
        Ok(text) => text,
        Err(ReadEnd::Failed) => return Status::ReadFault,
        Err(ReadEnd::Long) => return Status::Refused(too_long()),
        Err(ReadEnd::Memory) => return Status::Memory,
    };
    Status::of_answer(answer_split(rt, alloc, keys, kind, text.as_slice(), sink))
}

// The refusal of a source with more bytes than a document may have.
fn too_long() -> Refusal
    ensures { result ≡ too_long }
{
    Refusal::Limit {
        edition: 0,
        which: Which::Payload,
        count: Limits::standard().payload + 1,
    }
}
