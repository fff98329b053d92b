//! Values that count how many of them there are.
ghost use Rattle.std.specs.Prelude.{◌≡◌, Some};
ghost use Rattle.sdd_space.specs.Guard.{reader_of};
ghost use Rattle.sdd_bag.specs.There.{IsThere, MayCall};

use crate::bags::example::{AMPLE, Bags, Entry, Example, StorageBag, in_a_world};
use crate::bags::steps::{closed, made, opened, popped, pushed, shut};
use sdd_space::{Giver, Guard, Item};
use std::alloc::Global;
use std::process::Abort;
use std::sync::Arc;

/// A value that holds no owner, and is there as long as it wasn't dropped. It isn't copied, and has no default.
#[derive(Drop)]
struct Counted {
    _alive: Arc<(), Global>,
}

impl<I> Item<I> for Counted {
    ghost use Rattle.std.specs.Prelude.{[]};

    ghost holds = { λ _. [] };

    fn give_up<G: Giver<I>>(self, _giver: &mut G) {}
}

/// Makes such values, and tells how many of them there are.
#[derive(Drop)]
struct Factory {
    alive: Arc<(), Global>,
}

impl Factory {
    fn new<R: Abort + AllocGlobal>(rt: &R) -> Factory {
        Factory {
            alive: Arc::new(rt.alloc(), ()).expect(rt, "there is memory"),
        }
    }

    fn made(&self, rt: &impl Abort) -> Counted {
        let alive = Arc::try_clone(&self.alive).expect(rt, "it is counted");
        Counted { _alive: alive }
    }

    fn alive(&self) -> usize {
        Arc::strong_count(&self.alive).saturating_sub(1)
    }

    /// Puts 7 values into a bag: 2 lie in the bag itself, and 5 in three storages.
    fn fill<R: Abort, S: Bags<Entry<Counted, 2>>>(
        &self,
        rt: &R,
        s: &mut S,
        bag: &mut StorageBag<Counted, 2>,
        guard: &Guard,
    )
        requires may { MayCall (S.caller s.old) }
        requires there { IsThere (λ b. Some b) 2 (S.caller s.old) (S.world s.old) bag.old }
        requires reader { reader_of guard.now ≡ (S.caller s.old).reader }
        ensures caller { S.caller s.new ≡ S.caller s.old }
        ensures there { IsThere (λ b. Some b) 2 (S.caller s.new) (S.world s.new) bag.new }
    {
        for _ in 0..7 {
            match pushed(s, bag, self.made(rt), guard) {
                Ok(()) => {}
                Err((_value, refused)) => panic!(rt; "{refused:?}"),
            }
        }
    }
}

impl Example<Entry<Counted, 2>> for Factory {
    fn run<R: Abort, S: Bags<Entry<Counted, 2>>>(&self, rt: &R, s: &mut S) {
        let guard = opened(rt, s);
        let mut bag: StorageBag<Counted, 2> = made(rt, s);
        self.fill(rt, s, &mut bag, &guard);
        assert_eq!(rt; self.alive(), 7);
        drop(popped(s, &mut bag, &guard));
        assert_eq!(rt; self.alive(), 6);
        bag.pop_all((), |(), value| drop(value), &guard, s);
        assert_eq!(rt; self.alive(), 0);
        self.fill(rt, s, &mut bag, &guard);
        assert_eq!(rt; self.alive(), 7);
        closed(s, bag, &guard);
        assert_eq!(rt; self.alive(), 0);
        shut(s, guard);
    }
}

/// None is lost, and none is dropped twice: at a pop, where all are folded, and at the close.
#[test]
fn each_value_is_dropped_once(rt: HostRuntime) {
    let factory = Factory::new(&rt);
    in_a_world(&rt, AMPLE, &factory, 6);
    assert_eq!(rt; factory.alive(), 0);
}
