ghost use Rattle.std.specs.Prelude.{◌≡◌, ◌^◌, ◌≤◌};
ghost use Rattle.ad_base.specs.Limits.{standard};

/// The three kinds of module of an ontology for a seed.
#[derive(Clone, Copy, Debug, PartialEq, Eq, Hash)]
pub enum Kind {
    Bottom,
    Top,
    Star,
}

/// The two sides of syntactic locality: names outside the seed are read as empty, or as everything.
#[derive(Clone, Copy, Debug, PartialEq, Eq, Hash)]
pub enum Side {
    Bottom,
    Top,
}

/// The limits that a refusal may name.
#[derive(Clone, Copy, Debug, PartialEq, Eq, Hash)]
pub enum Which {
    Axioms,
    Entities,
    Bytes,
    Editions,
    Payload,
}

/// How large an ontology, its text and a session may become.
#[derive(Clone, Copy)]
pub struct Limits {
    /// Logical axioms of an edition.
    pub axioms: u32,
    /// Distinct entities, not built in, in the signatures of an edition's logical axioms.
    pub entities: u32,
    /// Bytes of an edition's canonical document.
    pub bytes: u64,
    /// Nesting of parentheses in a text.
    pub depth: u32,
    /// The number of the newest edition.
    pub editions: u32,
    /// Bytes of a payload, or of a document on the source.
    pub payload: u64,
    /// Requests answered in one session.
    pub requests: u32,
}

impl Limits {
    /// The limits of the program. No limit is ever above its standard.
    pub const fn standard() -> Limits
        ensures axioms { result.axioms ≡ 20480 }
        ensures entities { result.entities ≡ 65536 }
        ensures bytes { result.bytes ≡ 33554432 }
        ensures depth { result.depth ≡ 128 }
        ensures editions { result.editions ≡ 4294967295 }
        ensures payload { result.payload ≡ 33554432 }
        ensures requests { result.requests ≡ 4294967295 }
        ensures standard { result ≡ standard }
    {
        Limits {
            axioms: 20_480,
            entities: 65_536,
            bytes: 33_554_432,
            depth: 128,
            editions: 4_294_967_295,
            payload: 33_554_432,
            requests: 4_294_967_295,
        }
    }
}
