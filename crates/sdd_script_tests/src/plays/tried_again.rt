//! Runs and plays that are refused memory, and whole at the second try.

use crate::devices::Page;
use sdd_core::Refused;
use sdd_participants::Tally;
use sdd_script::{
    Action, Answer, Call, Ended, ItemAction, OwnerName, PlaceName, Reader, Reply, Scene, Value,
    Writer, play, run,
};
use sdd_script_text::USUAL_LIMITS;
use std::alloc::Global;
use std::process::Abort;

/// One that registers, makes an item and retires it.
const CALLS: [Call; 4] = [
    Call::Register,
    Call::At(
        PlaceName(0),
        Action::Item(ItemAction::Owned(Value::Number(7))),
    ),
    Call::At(PlaceName(0), Action::Item(ItemAction::Retire(OwnerName(0)))),
    Call::Tally,
];

const TEXT: &str = "register\np0 owned 7\np0 retire o0\ntally\n";

const ITS_ANSWERS: &str = "p0\no0 i0\nok\nmade 1 reclaimed 0 in place 0\n";

/// How many calls of a device that moves three bytes are more than any play here needs.
const AMPLE: u64 = 1000;

/// Where memory is refused once, the second run is whole.
fn run_at_last(rt: &impl Abort, alloc: Global) -> (Vec<Answer>, Scene) {
    match run(alloc, USUAL_LIMITS, &CALLS) {
        Ok(done) => done,
        Err(refused) => {
            assert_eq!(rt; refused, Refused::NoMemory);
            run(alloc, USUAL_LIMITS, &CALLS).expect(rt, "memory is refused once")
        }
    }
}

/// With ample memory the run is whole at once. Under `rt try --test --fail-alloc N` one request is refused, and the
/// second run is answered as the first one is else.
#[test]
fn a_run_is_whole_at_the_second_try(rt: HostRuntime) {
    let (answers, scene) = run_at_last(&rt, rt.alloc());
    let tally = Tally {
        made: 1,
        reclaimed: 0,
        in_place: 0,
    };
    assert!(rt; scene.world().tally() == tally);
    assert!(rt; scene.close().reclaimed == 1);
    assert!(rt; answers.len() == 4);
    match answers.as_slice().last() {
        Some(
            Answer {
                reply: Reply::Tally(told),
                ..
            },
        ) => assert!(rt; *told == tally),
        _ => assert!(rt; false),
    }
}

/// The same of plays, where nothing is written at the first try.
#[test]
fn a_play_is_whole_at_the_second_try(rt: HostRuntime) {
    for _ in 0..2 {
        let Ok(mut page) = Page::new(rt.alloc(), AMPLE) else {
            continue;
        };
        let mut reader = Reader::new(TEXT.as_bytes());
        let mut writer = Writer::new(&mut page);
        let ended = play(rt.alloc(), USUAL_LIMITS, &mut reader, &mut writer);
        if ended == Ended::NoMemory {
            assert_eq!(rt; page.written(), b"".as_slice());
            continue;
        }
        assert_eq!(rt; ended, Ended::Played);
        assert_eq!(rt; page.written(), ITS_ANSWERS.as_bytes());
    }
}
