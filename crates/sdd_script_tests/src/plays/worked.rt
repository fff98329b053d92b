//! Plays: how they end, and what they write.

use crate::devices::{Page, Trickle};
use sdd_core::{Limits, Refused};
use sdd_participants::Tally;
use sdd_script::{Action, Call, Ended, ItemAction, PlaceName, Reader, Value, Writer, play, run};
use sdd_script_text::USUAL_LIMITS;
use std::alloc::{AllocError, Global};

/// The shortest way of an item: it is made and retired, and goes at the third later opening that finds another epoch.
const SHORTEST_WAY: &str = "register\np0 owned 7\np0 retire o0\n\
    p0 open\np0 accelerate g0\np0 close g0\np0 open\np0 accelerate g1\np0 close g1\n\
    p0 open\np0 accelerate g2\np0 close g2\np0 open\np0 garbage g3\ntally\n";

const ITS_ANSWERS: &str =
    "p0\no0 i0\nok\ng0 epoch 0\nok\nok\ng1 epoch 1\nok\nok\ng2 epoch 2\nok\nok\ng3 epoch 3 reclaimed i0\nfalse\nmade 1 reclaimed 1 in place 0\n";

/// A bag has a number in each way that one comes in, all are taken out, and the bag is closed.
const BAG: &str =
    "register\np0 bag\np0 try b0 7\np0 open\np0 add b0 3 g0\np0 drain b0 g0\np0 take b0 g0\np0 close b0\n";

const ITS_REPLIES: &str = "p0\nb0\nok\ng0 epoch 0\nok\n3 7\nnone\nok\n";

/// A queue, a stack and a bag with something in each, a cell, an owner and a guard are left open at the end, which spends them.
const LEFT_OPEN: &str =
    "register\np0 open\np0 queue\np0 push q0 1 g0\np0 stack\np0 push s0 2 g0\np0 bag\np0 add b0 3 g0\np0 owned 4\np0 cell owned o2\n";

const ANSWERS_OF_WHAT_IS_LEFT: &str = "p0\ng0 epoch 0\nq0\no0 i0\ns0\no1 i1\nb0\nok\no2 i2\nc0\n";

/// How many calls of a device that moves three bytes are more than any play here needs.
const AMPLE: u64 = 1000;

/// How a play of a text ends, and what it then has written. No page is there where memory for it is refused.
fn played(alloc: Global, limits: Limits, text: &str) -> Result<(Ended, Page), AllocError> {
    let mut page = Page::new(alloc, AMPLE)?;
    let mut reader = Reader::new(text.as_bytes());
    let mut writer = Writer::new(&mut page);
    let ended = play(alloc, limits, &mut reader, &mut writer);
    Ok((ended, page))
}

/// A run that always answers want of memory does not pass this.
#[test]
fn each_script_is_answered(rt: HostRuntime) {
    for (text, ended, written) in [
        (SHORTEST_WAY, Ended::Played, ITS_ANSWERS),
        ("", Ended::Played, ""),
        ("register", Ended::Played, "p0\n"),
        (LEFT_OPEN, Ended::Played, ANSWERS_OF_WHAT_IS_LEFT),
        ("p7 open", Ended::Played, "invalid\n"),
        (
            "register\np0 open\np0 op\n",
            Ended::NotACall(3),
            "line 3: not a call\n",
        ),
        ("\n", Ended::NotACall(1), "line 1: not a call\n"),
    ] {
        let (end, page) = played(rt.alloc(), USUAL_LIMITS, text).expect(&rt, "memory is there");
        assert_eq!(rt; end, ended, "{text:?}");
        assert_eq!(rt; page.written(), written.as_bytes(), "{text:?}");
    }
}

#[test]
fn a_scene_shows_its_world_until_it_is_closed(rt: HostRuntime) -> Result<(), Refused> {
    let calls = [
        Call::Register,
        Call::At(
            PlaceName(0),
            Action::Item(ItemAction::Owned(Value::Number(7))),
        ),
    ];
    let (answers, scene) = run(rt.alloc(), USUAL_LIMITS, &calls)?;
    let shown = scene.world().tally();
    let closed = scene.close();
    let made = Tally {
        made: 1,
        reclaimed: 0,
        in_place: 0,
    };
    assert_eq!(rt; answers.len(), 2);
    assert_eq!(rt; shown, made);
    assert_eq!(rt;
        closed,
        Tally {
            reclaimed: 1,
            ..made
        }
    );
    Ok(())
}

#[test]
fn limits_out_of_range_are_told_before_anything_is_read(rt: HostRuntime) {
    for limits in [
        Limits {
            participants: 0,
            ..USUAL_LIMITS
        },
        Limits {
            participants: 1025,
            ..USUAL_LIMITS
        },
        Limits {
            slots: 16_777_217,
            ..USUAL_LIMITS
        },
        Limits {
            tries: u64::MAX,
            ..USUAL_LIMITS
        },
    ] {
        let mut reader = Reader::new(Trickle {
            rest: b"register",
            calls: 0,
        });
        let mut writer = Writer::new(Page::new(rt.alloc(), 0).expect(&rt, "memory is there"));
        let ended = play(rt.alloc(), limits, &mut reader, &mut writer);
        assert_eq!(rt; ended, Ended::LimitsOutOfRange, "{limits:?}");
        assert_eq!(rt; reader.failures(), 0);
        assert_eq!(rt; writer.failures(), 0);
    }
}

#[test]
fn each_failed_read_ends_the_play(rt: HostRuntime) {
    let text = SHORTEST_WAY.as_bytes();
    // Each call but the last reads three bytes, and the last none.
    let needed = text.len().div_ceil(3) as u64 + 1;
    for calls in 0..needed + 2 {
        let mut page = Page::new(rt.alloc(), AMPLE).expect(&rt, "memory is there");
        let mut reader = Reader::new(Trickle { rest: text, calls });
        let mut writer = Writer::new(&mut page);
        let ended = play(rt.alloc(), USUAL_LIMITS, &mut reader, &mut writer);
        let (end, failures, written) = if calls < needed {
            (Ended::CannotRead, 1, "")
        } else {
            (Ended::Played, 0, ITS_ANSWERS)
        };
        assert_eq!(rt; ended, end, "{calls}");
        assert_eq!(rt; reader.failures(), failures, "{calls}");
        assert_eq!(rt; writer.failures(), 0, "{calls}");
        assert_eq!(rt; page.written(), written.as_bytes(), "{calls}");
    }
}

#[test]
fn each_failed_write_leaves_a_beginning(rt: HostRuntime) {
    for (text, end, whole) in [
        (SHORTEST_WAY, Ended::Played, ITS_ANSWERS),
        ("register\np0\n", Ended::NotACall(2), "line 2: not a call\n"),
    ] {
        let whole = whole.as_bytes();
        let needed = whole.len().div_ceil(3);
        for calls in 0..needed + 2 {
            let mut page = Page::new(rt.alloc(), calls as u64).expect(&rt, "memory is there");
            let mut reader = Reader::new(text.as_bytes());
            let mut writer = Writer::new(&mut page);
            let ended = play(rt.alloc(), USUAL_LIMITS, &mut reader, &mut writer);
            let (end, failures, length) = if calls < needed {
                (Ended::CannotWrite, 1, 3 * calls)
            } else {
                (end, 0, whole.len())
            };
            assert_eq!(rt; ended, end, "{calls}");
            assert_eq!(rt; reader.failures(), 0, "{calls}");
            assert_eq!(rt; writer.failures(), failures, "{calls}");
            assert_eq!(rt; Some(page.written()), whole.get(..length), "{calls}");
        }
    }
}

/// With ample memory the play is whole. Under `rt try --test --fail-alloc N` one request is refused, and then nothing
/// is written.
#[test]
fn only_want_of_memory_ends_a_play_early(rt: HostRuntime) {
    for (text, end, written) in [
        (SHORTEST_WAY, Ended::Played, ITS_ANSWERS),
        (BAG, Ended::Played, ITS_REPLIES),
        ("p0\n", Ended::NotACall(1), "line 1: not a call\n"),
    ] {
        let Ok((ended, page)) = played(rt.alloc(), USUAL_LIMITS, text) else {
            continue;
        };
        if ended == Ended::NoMemory {
            assert_eq!(rt; page.written(), b"".as_slice());
        } else {
            assert_eq!(rt; ended, end);
            assert_eq!(rt; page.written(), written.as_bytes());
        }
    }
}
