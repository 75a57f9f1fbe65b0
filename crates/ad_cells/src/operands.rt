ghost use Rattle.std.specs.Prelude.{◌≡◌};
ghost use Rattle.ad_cells.specs.Codes as codes;

use ad_locality::Surely;

/// What is sure of several operands together, in their order.
#[derive(Clone, Copy)]
pub struct Operands {
    /// All are empty.
    pub all_empty: bool,
    /// All are everything.
    pub all_whole: bool,
    /// One is empty.
    pub any_empty: bool,
    /// One is everything.
    pub any_whole: bool,
    /// One isn't empty.
    pub any_nonempty: bool,
    /// One isn't empty, and all others, by position, are everything.
    pub one_nonempty: bool,
    /// One is everything, and all others, by position, are empty.
    pub one_whole: bool,
    /// At most one, by position, isn't empty.
    pub disjoint: bool,
}

impl Operands {
    /// What is sure of no operands.
    pub fn none() -> Operands
        ensures { result ≡ codes.blank }
    {
        Operands {
            all_empty: true,
            all_whole: true,
            any_empty: false,
            any_whole: false,
            any_nonempty: false,
            one_nonempty: false,
            one_whole: false,
            disjoint: true,
        }
    }

    /// What is sure of these operands with one before them.
    pub fn before(self, first: Surely) -> Operands
        ensures { result ≡ codes.before first self }
    {
        Operands {
            all_empty: first.empty && self.all_empty,
            all_whole: first.whole && self.all_whole,
            any_empty: first.empty || self.any_empty,
            any_whole: first.whole || self.any_whole,
            any_nonempty: first.nonempty || self.any_nonempty,
            one_nonempty: (first.nonempty && self.all_whole) || (first.whole && self.one_nonempty),
            one_whole: (first.whole && self.all_empty) || (first.empty && self.one_whole),
            disjoint: if first.empty {
                self.disjoint
            } else {
                self.all_empty
            },
        }
    }

    /// What is sure of the intersection of these operands.
    pub fn intersection(self) -> Surely
        ensures { result ≡ codes.intersection_of self }
    {
        Surely {
            empty: self.any_empty,
            whole: self.all_whole,
            nonempty: self.one_nonempty,
        }
    }

    /// What is sure of the union of these operands.
    pub fn union(self) -> Surely
        ensures { result ≡ codes.union_of self }
    {
        Surely {
            empty: self.all_empty,
            whole: self.any_whole,
            nonempty: self.any_nonempty,
        }
    }
}
