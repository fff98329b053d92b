//! Lines that are calls, and lines that are none.

use sdd_core::Tag;
use sdd_script_text::{
    Action, Call, CellName, CollectorAction, CollectorName, GuardName, HeldAction, ItemAction,
    OwnerName, PlaceName, Script, Value, parse_all,
};
use std::alloc::Global;
use std::test::Fail;

/// The other forms of lines are played, each with its answer, by the program.
#[test]
fn lines_are_calls(rt: HostRuntime) {
    let place = PlaceName(0);
    let guard = GuardName(1);
    let owner = OwnerName(2);
    let cell = CellName(3);
    for (line, call) in [
        (
            "p18446744073709551615 open",
            Call::At(PlaceName(u64::MAX), Action::Open),
        ),
        (
            "p0 owned 18446744073709551615",
            Call::At(
                place,
                Action::Item(ItemAction::Owned(Value::Number(u64::MAX))),
            ),
        ),
        (
            "p0 swap c3 o2 First",
            Call::At(
                place,
                Action::Held(HeldAction::Swap(cell, Some(owner), Tag::First)),
            ),
        ),
        (
            "p0 cas c3 g1 was null Second now none Both",
            Call::At(
                place,
                Action::Held(HeldAction::Exchange(cell, guard, None, Tag::Second, None, Tag::Both)),
            ),
        ),
        (
            "p0 collect o2 g1 k4",
            Call::At(
                place,
                Action::Collector(CollectorAction::Collect(owner, guard, CollectorName(4))),
            ),
        ),
    ] {
        assert_eq!(rt; Call::parse(line.as_bytes()), Some(call), "{line:?}");
    }
}

/// Lines that are no calls, though each is nearly one.
const NO_CALLS: &str = "\
p0  read o0
Register
register 1
p0  open
p00 open
P0 open
p open
p-1 open
p0
open
p0 op
p0 open g0
p0 owned
p0 owned +1
p0 owned 01
p0 owned 18446744073709551616
p0 look i0
p0 look g0 i0
p18446744073709551616 open
close p0
p0 close o0
p0 close p0
p0 collector k0
p0 collect o0 k0 g0
p0 collect o0 g0
p0 collect none g0 k0
p0 retire i0
p0 defer
p0 defer o0
p0 defer g0 g0
p0 owned none
p0 owned of none
p0 cell o0
p0 cell shared null
p0 swap c0 o0
p0 swap c0 o0 first
p0 cas c0 g0 was none None now o0 None
p0 cas c0 g0 was i0 None now o0 None None
p0 look null g0
p0 shared
p0 shared of i0
p0 release i0
p0 upgrade o0 g0
p0 put o0
p0 put o0 of o1
p0 put i0 1
p0 drop i0
p0 drop none
p0 raw i0
p0 unraw o0
p0 unraw null
p0 unraw i0 g0
p0 see i0
p0 see o0 g0
p0 see null g0
p0 mark
p0 mark o0
p0 mark null
p0 unmark i0 g0
p0 delete none
p0 linktag c0
p0 next i0
p0 next null g0
p0 next o0 g0
p0 append i0 o0 g0
p0 append i0 o0 mark
p0 append i0 o0 g0 mark
p0 append i0 o0 marked g0
p0 append i0 o0 none g0
p0 append i0 none plain g0
p0 append null o0 plain g0
p0 append o0 i0 mark g0
p0 mark i0 mark
p0 all s0
p0 all q0 g0
p0 pushif s0 1 g0
p0 pushif s0 1 2
p0 pushif o0 1 2 g0
p0 popif s0 g0
p0 popif s0 none g0
p0 peek s0
p0 peek g0 s0
p0 len s0 1 g0
p0 len c0 g0
p0 list s0
p0 list g0
p0 bag b0
p0 bag 32
p0 add b0 1
p0 add b0 g0
p0 add b0 g0 1
p0 add q0 1 g0
p0 add b0 none g0
p0 add b0 18446744073709551616 g0
p0 try b0
p0 try b0 1 g0
p0 try s0 1
p0 take b0
p0 take b00 g0
p0 take s0 g0
p0 drain b0
p0 drain b0 g0 g0
p0 push b0 1 g0
p0 pop b0 g0
p0 list b0 g0
p0 len b0
p0 close b
p0 cell none
p0 cell owned
p0 load c0
p0 copy o0 g0
p0 share c0
p0 into o0
p0 swap c0 null None
p0 tagif c0 First None
p0 tagif c0 First if none
p0 cas c0 g0 was o0 None now o0 None
p0 cas c0 g0 was i0 None now null None
p0 cas c0 g0 was i0 now o0 None
p0 cas c0 was i0 None now o0 None
end
p0 end g0";

#[test]
fn malformed_lines_are_no_calls(rt: HostRuntime) {
    for line in NO_CALLS.lines() {
        assert_eq!(rt; Call::parse(line.as_bytes()), None, "{line:?}");
    }
    for line in [
        "",
        " ",
        " register",
        " p0 open",
        "register ",
        "p0\topen",
        "register\r",
        "register\n",
        "p0 open\u{e9}",
        "p0 ",
        "p0 look i0 g0 ",
        "p0 end ",
    ] {
        assert_eq!(rt; Call::parse(line.as_bytes()), None, "{line:?}");
    }
    assert_eq!(rt;
        Call::parse(&[b'p', b'0', b' ', b'o', b'p', b'e', b'n', 0xff]),
        None
    );
    assert!(rt; Call::parse(&[b'1'; 201]) == None);
}

/// How many calls a script is, or its first fault.
#[derive(Clone, Copy, Debug, PartialEq, Eq)]
enum Outcome {
    Calls(usize),
    Fault(u64),
}

fn read(alloc: Global, text: &[u8]) -> Result<Outcome, Fail> {
    Ok(match parse_all(alloc, text)? {
        Script::Calls(calls) => Outcome::Calls(calls.len()),
        Script::Fault(line) => Outcome::Fault(line),
    })
}

#[test]
fn texts_are_scripts(rt: HostRuntime) -> Result<(), Fail> {
    let alloc = rt.alloc();
    for (text, want) in [
        ("", Outcome::Calls(0)),
        ("\n", Outcome::Fault(1)),
        ("register", Outcome::Calls(1)),
        ("register\n", Outcome::Calls(1)),
        ("register\n\n", Outcome::Fault(2)),
        ("register\np0 open\n", Outcome::Calls(2)),
        ("register\np0 open", Outcome::Calls(2)),
        ("register\r\np0 open", Outcome::Fault(1)),
        ("register\np0 open\np0 op\np0", Outcome::Fault(3)),
    ] {
        assert_eq!(rt; read(alloc, text.as_bytes())?, want, "{text:?}");
    }
    Ok(())
}
