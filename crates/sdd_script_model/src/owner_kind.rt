/// Whether an item has one owner or shares it.
#[derive(Clone, Copy, Debug, PartialEq, Eq)]
pub enum OwnerKind {
    Sole,
    Shared,
}
