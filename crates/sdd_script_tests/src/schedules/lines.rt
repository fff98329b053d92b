//! Lines that are steps, and lines that are none.

use sdd_machine::Step;
use sdd_script::schedules::{Schedule, parse, parse_all, play_steps};
use sdd_script_text::{Ended, Reader, Writer};
use std::alloc::Global;
use std::test::Fail;

#[test]
fn lines_are_steps(rt: HostRuntime) {
    for (line, step) in [
        ("register 0", Step::Register(0)),
        ("read 1023", Step::Read(1023)),
        ("publish 10", Step::Publish(10)),
        ("retire 1023 16777215", Step::Retire(1023, 16_777_215)),
        ("retire 0 0", Step::Retire(0, 0)),
        ("lock 1", Step::Lock(1)),
        ("adopt 2", Step::Adopt(2)),
        ("look 3", Step::Look(3)),
        ("advance 4", Step::Advance(4)),
        ("unlock 5", Step::Unlock(5)),
        ("close 6", Step::Close(6)),
        ("end 7", Step::End(7)),
    ] {
        assert_eq!(rt; parse(line.as_bytes()), Some(step), "{line:?}");
    }
}

/// Lines that are no steps, though each is nearly one.
const NO_STEPS: [&str; 36] = [
    "",
    " ",
    " register 0",
    "register 0 ",
    "register  0",
    "register\t0",
    "register 0\r",
    "register 0\u{e9}",
    "r\u{e9}gister 0",
    "register",
    "register ",
    "0",
    "0 register",
    "register 00",
    "register 01",
    "register +1",
    "register -1",
    "register p0",
    "Register 0",
    "REGISTER 0",
    "register 1024",
    "register 18446744073709551616",
    "register 0 0",
    "registers 0",
    "retire 0",
    "retire 0 ",
    "retire 0 16777216",
    "retire 1024 0",
    "retire 0 18446744073709551616",
    "retire 0 1 2",
    "retire 0  1",
    "retire 0 01",
    "open 0",
    "tally",
    "p0 open",
    "publish 0 | done",
];

/// How a play of a text ends, and what it writes.
fn played(alloc: Global, text: &[u8]) -> (Ended, Vec<u8>) {
    let mut written = Vec::new(alloc);
    let mut reader = Reader::new(text);
    let mut writer = Writer::new(&mut written);
    let ended = play_steps(alloc, &mut reader, &mut writer);
    (ended, written)
}

/// As the first line and as the second of a schedule, whose other lines are steps, and as the last without its line feed
/// where it has a byte.
#[test]
fn malformed_lines_are_no_steps(rt: HostRuntime) -> Result<(), Fail> {
    let alloc = rt.alloc();
    for line in NO_STEPS {
        assert_eq!(rt; parse(line.as_bytes()), None, "{line:?}");
        let text = format!(in alloc; "{line}\nregister 0\n")?;
        let (ended, written) = played(alloc, text.as_bytes());
        assert_eq!(rt; ended, Ended::NotAStep(1), "{line:?}");
        assert_eq!(rt;
            written.as_slice(),
            b"line 1: not a step\n".as_slice(),
            "{line:?}"
        );
        let text = format!(in alloc; "register 0\n{line}\nread 0")?;
        let (ended, written) = played(alloc, text.as_bytes());
        assert_eq!(rt; ended, Ended::NotAStep(2), "{line:?}");
        assert_eq!(rt;
            written.as_slice(),
            b"line 2: not a step\n".as_slice(),
            "{line:?}"
        );
    }
    for text in [
        [b'1'; 201].as_slice(),
        b"register 0\xff",
        b"\xff\xfe",
        b"\0",
    ] {
        let (ended, written) = played(alloc, text);
        assert_eq!(rt; ended, Ended::NotAStep(1), "{text:?}");
        assert_eq!(rt;
            written.as_slice(),
            b"line 1: not a step\n".as_slice(),
            "{text:?}"
        );
    }
    Ok(())
}

/// How many steps a schedule has, or its first fault.
#[derive(Clone, Copy, Debug, PartialEq, Eq)]
enum Outcome {
    Steps(usize),
    Fault(u64),
}

fn read(alloc: Global, text: &[u8]) -> Result<Outcome, Fail> {
    Ok(match parse_all(alloc, text)? {
        Schedule::Steps(steps) => Outcome::Steps(steps.len()),
        Schedule::Fault(line) => Outcome::Fault(line),
    })
}

#[test]
fn texts_are_schedules(rt: HostRuntime) -> Result<(), Fail> {
    let alloc = rt.alloc();
    for (text, want) in [
        ("", Outcome::Steps(0)),
        ("\n", Outcome::Fault(1)),
        ("register 0", Outcome::Steps(1)),
        ("register 0\n", Outcome::Steps(1)),
        ("register 0\n\n", Outcome::Fault(2)),
        ("register 0\nread 0", Outcome::Steps(2)),
        ("register 0\r\nread 0", Outcome::Fault(1)),
        ("register 0\nread 0\nread\nread 0", Outcome::Fault(3)),
    ] {
        assert_eq!(rt; read(alloc, text.as_bytes())?, want, "{text:?}");
    }
    Ok(())
}
