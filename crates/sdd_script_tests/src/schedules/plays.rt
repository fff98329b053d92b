//! Devices that fail, and memory that is refused.

use crate::devices::{Page, Trickle};
use sdd_script::schedules::play_steps;
use sdd_script_text::{Ended, Reader, Writer};
use std::alloc::{AllocError, Global};

/// An item is retired, and goes at the third change of its holder.
const AN_ITEM_ON_ITS_WAY: &str = "register 0\nretire 0 0\n\
    read 0\npublish 0\nlock 0\nadvance 0\nunlock 0\nclose 0\n\
    read 0\npublish 0\nlock 0\nadvance 0\nunlock 0\nclose 0\n\
    read 0\npublish 0\nlock 0\nadvance 0\nunlock 0\nclose 0\n\
    read 0\npublish 0\nclose 0\nend 0\n";

const ITS_ANSWERS: &str = "done\ndone\n\
    done\nopened 0 same reclaimed 0\ndone\nraised\ndone\ndone\n\
    done\nopened 1 changed reclaimed 0\ndone\nraised\ndone\ndone\n\
    done\nopened 2 changed reclaimed 0\ndone\nraised\ndone\ndone\n\
    done\nopened 3 changed reclaimed 1\ndone\ndone\n";

/// One whose second line is no step.
const A_FAULT: &str = "register 0\nregister\n";

const ITS_LINE: &str = "line 2: not a step\n";

/// How many calls of a device that moves three bytes are more than any play here needs.
const AMPLE: u64 = 1000;

/// How a play of a text ends, and what it then has written. No page is there where memory for it is refused.
fn played(alloc: Global, text: &str) -> Result<(Ended, Page), AllocError> {
    let mut page = Page::new(alloc, AMPLE)?;
    let mut reader = Reader::new(text.as_bytes());
    let mut writer = Writer::new(&mut page);
    let ended = play_steps(alloc, &mut reader, &mut writer);
    Ok((ended, page))
}

#[test]
fn each_failed_read_ends_the_play(rt: HostRuntime) {
    let text = AN_ITEM_ON_ITS_WAY.as_bytes();
    // Each call but the last reads three bytes, and the last none.
    let needed = text.len().div_ceil(3) as u64 + 1;
    for calls in 0..needed + 2 {
        let mut page = Page::new(rt.alloc(), AMPLE).expect(&rt, "memory is there");
        let mut reader = Reader::new(Trickle { rest: text, calls });
        let mut writer = Writer::new(&mut page);
        let ended = play_steps(rt.alloc(), &mut reader, &mut writer);
        let (end, failures, written) = if calls < needed {
            (Ended::CannotRead, 1, "")
        } else {
            (Ended::Played, 0, ITS_ANSWERS)
        };
        assert_eq!(rt; ended, end, "{calls}");
        assert_eq!(rt; reader.failures(), failures, "{calls}");
        assert_eq!(rt; writer.failures(), 0, "{calls}");
        assert_eq!(rt; page.written(), written.as_bytes(), "{calls}");
    }
}

#[test]
fn each_failed_write_leaves_a_beginning(rt: HostRuntime) {
    for (text, end, whole) in [
        (AN_ITEM_ON_ITS_WAY, Ended::Played, ITS_ANSWERS),
        (A_FAULT, Ended::NotAStep(2), ITS_LINE),
    ] {
        let whole = whole.as_bytes();
        let needed = whole.len().div_ceil(3);
        for calls in 0..needed + 2 {
            let mut page = Page::new(rt.alloc(), calls as u64).expect(&rt, "memory is there");
            let mut reader = Reader::new(text.as_bytes());
            let mut writer = Writer::new(&mut page);
            let ended = play_steps(rt.alloc(), &mut reader, &mut writer);
            let (end, failures, length) = if calls < needed {
                (Ended::CannotWrite, 1, 3 * calls)
            } else {
                (end, 0, whole.len())
            };
            assert_eq!(rt; ended, end, "{calls}");
            assert_eq!(rt; reader.failures(), 0, "{calls}");
            assert_eq!(rt; writer.failures(), failures, "{calls}");
            assert_eq!(rt; Some(page.written()), whole.get(..length), "{calls}");
        }
    }
}

/// With ample memory each play is whole. Under `rt try --test --fail-alloc N` one request is refused: then nothing is
/// written, and the same play again is whole.
#[test]
fn only_want_of_memory_ends_a_play_early(rt: HostRuntime) {
    for (text, end, written) in [
        (AN_ITEM_ON_ITS_WAY, Ended::Played, ITS_ANSWERS),
        (A_FAULT, Ended::NotAStep(2), ITS_LINE),
        ("", Ended::Played, ""),
    ] {
        for _ in 0..2 {
            let Ok((ended, page)) = played(rt.alloc(), text) else {
                continue;
            };
            if ended == Ended::NoMemory {
                assert_eq!(rt; page.written(), b"".as_slice());
                continue;
            }
            assert_eq!(rt; ended, end);
            assert_eq!(rt; page.written(), written.as_bytes());
        }
    }
}
