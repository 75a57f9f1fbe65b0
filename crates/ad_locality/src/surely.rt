/// What is sure of an expression when the names outside the seed are read as one side says: the columns of the
/// locality table.
#[derive(Clone, Copy, PartialEq, Eq)]
pub struct Surely {
    /// It is empty in every reading.
    pub empty: bool,
    /// It is everything in every reading.
    pub whole: bool,
    /// It has a member in every reading. Of a property this is the same as `whole`.
    pub nonempty: bool,
}

/// Of what has no member.
pub const NOTHING: Surely = Surely {
    empty: true,
    whole: false,
    nonempty: false,
};

/// Of what is everything: a domain isn't empty.
pub const EVERYTHING: Surely = Surely {
    empty: false,
    whole: true,
    nonempty: true,
};

/// Of what has a member, where no more is sure.
pub const INHABITED: Surely = Surely {
    empty: false,
    whole: false,
    nonempty: true,
};

/// Of what nothing is sure of.
pub const NEITHER: Surely = Surely {
    empty: false,
    whole: false,
    nonempty: false,
};
