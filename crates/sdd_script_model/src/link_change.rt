/// How an entry's link is to change its tag.
#[derive(Clone, Copy, Debug, PartialEq, Eq)]
pub enum LinkChange {
    Mark,
    Unmark,
    Delete,
}
