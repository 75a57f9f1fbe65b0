use ad_locality::Surely;

/// A step of an axiom's code, which is read from left to right over a stack: an operand puts what is sure of it on the
/// stack, and an operator takes its operands off and puts what is sure of the whole. So operands stand before what takes
/// them.
#[derive(Clone, Copy)]
pub enum Cell {
    /// An operand of which this is sure, whatever is seen: a built-in name, or an enumeration.
    Known(Surely),
    /// A name without a number, which is never seen.
    Outside,
    /// The name with this number.
    Symbol(u32),
    /// The intersection of so many operands.
    And(u32),
    /// The union of so many operands.
    Or(u32),
    /// The complement of an operand.
    Not,
    /// A datatype that is restricted by facets.
    Restricted,
    /// Some R C; the property stands before the filler, here and below.
    Some,
    /// All R C.
    All,
    /// Min n R C.
    AtLeast(u32),
    /// Max n R C.
    AtMost(u32),
    /// Exact n R C.
    Exactly(u32),
}

/// What is asked of the operands of an axiom, for it to be local. The code leaves them on the stack.
#[derive(Clone, Copy)]
pub enum Test {
    /// The last is empty, or the one before it is everything: what is below stands behind what is above.
    Below,
    /// Of the last ones, so many, one is empty, or the one before them is everything.
    ChainBelow(u32),
    /// So many: all are empty, or all are everything, or there is one.
    Equivalent(u32),
    /// So many: at most one, by position, isn't empty.
    Disjoint(u32),
    /// The union of the last ones, so many, disjoint, with the one before them: that one is empty and all of them are,
    /// or it is everything, and so is one of them, and all others are empty.
    DisjointUnion(u32),
    /// The last is empty.
    Empty,
    /// The last is everything.
    Whole,
    /// The last is empty, or everything.
    EmptyOrWhole,
    /// So many: one is empty.
    AnyEmpty(u32),
    /// Whatever the operands are.
    Fixed(bool),
}
