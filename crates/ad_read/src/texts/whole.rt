// A kind of whole text.
#[derive(Clone, Copy, Debug, PartialEq, Eq)]
pub(crate) enum Whole {
    Document,
    Edit,
    Seed,
    Single,
}
