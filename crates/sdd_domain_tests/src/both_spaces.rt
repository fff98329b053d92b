//! The same calls of a participant by a turn at a world, by the only participant that a domain may have, and by the only one of a domain with a place more.
//! One function makes them, and all answer the same.
ghost use Rattle.std.specs.Prelude.{◌≡◌};
ghost use Rattle.sdd_space.specs.CallerId.{IsSeated};

use crate::answers::Answer;
use crate::steps::new_domain;
use crate::with_jobs::{Adds, Total, closed, ended, number, registered};
use sdd_core::Limits;
use sdd_participants::Tally;
use sdd_space::{Deferrals, Space};
use sdd_world::World;
use std::process::Abort;
use std::sync::atomic::Ordering;

/// What one participant does in some space of numbers, and is answered.
pub trait Plays {
    fn play<R: Abort + AllocGlobal, S: Space<u64> + Deferrals<u64, Job = Adds>>(
        &self,
        rt: &R,
        s: &mut S,
        total: &Total,
        answers: &mut Vec<Answer>,
    )
        requires seated { IsSeated (S.caller s.old) }
        ensures caller { S.caller s.new ≡ S.caller s.old };
}

/// What was answered, what was counted before and after the close, and what the jobs added.
#[derive(Drop)]
pub struct Outcome {
    pub answers: Vec<Answer>,
    pub before: Tally,
    after: Tally,
    total: u64,
}

fn by_a_turn<P: Plays, R: Abort + AllocGlobal>(rt: &R, plays: &P, limits: Limits) -> Outcome {
    let total = number(rt);
    let mut answers = Vec::new(rt.alloc());
    let mut world: World<u64, Adds> = World::new(rt.alloc(), limits).expect(
        rt,
        "the limits are in range",
    );
    let place = world.register().expect(rt, "a place is free");
    plays.play(rt, &mut world.at(&place), &total, &mut answers);
    let before = world.tally();
    let after = match world.close() {
        Ok(tally) => tally,
        Err((_world, refused)) => panic!(rt; "refused: {refused:?}"),
    };
    Outcome {
        answers,
        before,
        after,
        total: total.load(Ordering::SeqCst),
    }
}

fn by_a_participant<P: Plays, R: Abort + AllocGlobal>(
    rt: &R,
    plays: &P,
    limits: Limits,
) -> Outcome {
    let total = number(rt);
    let mut answers = Vec::new(rt.alloc());
    let domain = new_domain::<u64>(rt, limits);
    let mut local = registered(rt, &domain);
    plays.play(rt, &mut local, &total, &mut answers);
    let before = local.tally();
    let receipts = vec![in rt.alloc(); ended(rt, local)].expect(rt, "there is memory");
    let after = closed(rt, domain, receipts);
    Outcome {
        answers,
        before,
        after,
        total: total.load(Ordering::SeqCst),
    }
}

/// What all answered, and counted.
pub fn compared<P: Plays, R: Abort + AllocGlobal>(rt: &R, plays: &P, limits: Limits) -> Outcome {
    let one = by_a_turn(rt, plays, limits);
    for participants in 1..3u64 {
        let limits = Limits {
            participants,
            ..limits
        };
        let other = by_a_participant(rt, plays, limits);
        assert_eq!(rt; one.answers, other.answers);
        assert_eq!(rt; one.before, other.before);
        assert_eq!(rt; one.after, other.after);
        assert_eq!(rt; one.total, other.total);
    }
    one
}
