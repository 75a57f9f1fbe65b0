ghost use Rattle.std.specs.Prelude.{◌≡◌};
ghost use Rattle.ad_reply.specs.Causes.{CausesDiffer, number_word};

/// Why something is refused. Each cause has a number of its own, by which a client tells it.
#[derive(Clone, Copy, Debug, PartialEq, Eq, Hash)]
pub enum Cause {
    /// The line is no request.
    Request,
    /// The text has a lexical fault, or a token that may not stand there.
    Syntax,
    /// The text nests deeper than the limit.
    Depth,
    /// A prefix isn't declared, or is declared twice.
    Prefix,
    /// The text has a part of the language that isn't read.
    Unsupported,
    /// The edit passes a limit.
    Limit,
    /// There is no atom of this number.
    Atom,
    /// The edit expects another edition than the newest.
    Moved,
    /// Want of memory.
    Memory,
    /// The editions are shut for this session.
    Shut,
}

impl Cause {
    /// The number, in decimal. Each stands here alone.
    pub fn number(self) -> &'static [u8]
        ensures { result.now ≡ number_word self }
    {
        match self {
            Cause::Request => b"10",
            Cause::Syntax => b"20",
            Cause::Depth => b"21",
            Cause::Prefix => b"22",
            Cause::Unsupported => b"23",
            Cause::Limit => b"30",
            Cause::Atom => b"41",
            Cause::Moved => b"50",
            Cause::Memory => b"90",
            Cause::Shut => b"91",
        }
    }
}

/// Different causes have different numbers.
pub fn causes_differ()
    ensures { CausesDiffer }
{}
