//! A bag whose storages are beside other values in the slots of a space.
use crate::bags::cargo::Cargo;
use crate::bags::example::{AMPLE, Bags, Example, in_a_world};
use crate::bags::steps::{closed, full_of, opened, popped, shut};
use sdd_bag::Bag;
use sdd_lists::LinkedEntry;
use std::process::Abort;

struct CarriesNumbers;

impl Example<LinkedEntry<Cargo>> for CarriesNumbers {
    fn run<R: Abort, S: Bags<LinkedEntry<Cargo>>>(&self, rt: &R, s: &mut S) {
        let guard = opened(rt, s);
        let mut bag: Bag<u64, 2, Cargo> = full_of(rt, s, &mut (0..7), &guard);
        assert!(rt; bag.len() == 7);
        assert!(rt; popped(s, &mut bag, &guard).is_some());
        assert!(rt; bag.len() == 6);
        closed(s, bag, &guard);
        shut(s, guard);
    }
}

/// 2 values lie in the bag itself, and 5 in three storages.
#[test]
fn a_storage_may_be_one_of_several_values(rt: HostRuntime) {
    in_a_world(&rt, AMPLE, &CarriesNumbers, 3);
}
