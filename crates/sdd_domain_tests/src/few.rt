//! What few or many threads share, or are given.

use sdd_space::{AtomicOwned, AtomicRaw, AtomicShared, PrivateCollector, Shared};

/// Two cells of each kind of owners, and one of a pointer.
pub struct FewCells<T> {
    pub first: AtomicShared<T>,
    pub second: AtomicShared<T>,
    pub third: AtomicOwned<T>,
    pub fourth: AtomicOwned<T>,
    pub fifth: AtomicRaw<T>,
}

/// Four collectors.
pub struct FewCollectors<T> {
    pub first: PrivateCollector<T>,
    pub second: PrivateCollector<T>,
    pub third: PrivateCollector<T>,
    pub fourth: PrivateCollector<T>,
}

/// Owners for four threads.
pub struct Four<T> {
    pub first: Option<Shared<T>>,
    pub second: Option<Shared<T>>,
    pub third: Option<Shared<T>>,
    pub fourth: Option<Shared<T>>,
}
