use ad_base::Kind;

/// A module to find: the one of this kind for the signature of the axiom in this slot.
#[derive(Clone, Copy, PartialEq, Eq)]
pub struct Task {
    pub kind: Kind,
    pub slot: u32,
}
