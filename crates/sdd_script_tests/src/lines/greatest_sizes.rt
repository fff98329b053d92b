//! The greatest sizes of texts, with ample memory. A body that refuses with `NoMemory` beyond some size meets every contract.

use sdd_script_text::{
    Answer, ItemName, Names, Reader, Reply, Script, parse_all, print_all, read_to_end,
};
use std::alloc::{AllocError, Global};
use std::test::Fail;

/// A text of so many lines: one that registers, and then the same again and again.
fn lines(alloc: Global, count: u64, line: &str) -> Result<String, AllocError> {
    let mut text = String::new(alloc);
    text.push_str("register\n")?;
    for _ in 1..count {
        text.push_str(line)?;
    }
    Ok(text)
}

#[test]
fn a_script_has_a_most_of_calls(rt: HostRuntime) -> Result<(), Fail> {
    let alloc = rt.alloc();
    let most = lines(
        alloc,
        65_536,
        "p0 look i18446744073709551615 g18446744073709551615\n",
    )?;
    match parse_all(alloc, most.as_bytes())? {
        Script::Calls(calls) => assert_eq!(rt; calls.len(), 65_536),
        Script::Fault(line) => panic!(rt; "line {line}"),
    }
    let one_more = lines(alloc, 65_537, "tally\n")?;
    match parse_all(alloc, one_more.as_bytes())? {
        Script::Calls(calls) => panic!(rt; "{} calls", calls.len()),
        Script::Fault(line) => assert_eq!(rt; line, 65_537),
    }
    Ok(())
}

#[test]
fn the_bytes_of_the_longest_script_are_read(rt: HostRuntime) -> Result<(), Fail> {
    let alloc = rt.alloc();
    let text = vec![in alloc; b'a'; 13_107_200]?;
    let mut source = Reader::new(text.as_slice());
    let read = read_to_end(alloc, &mut source)?;
    assert!(rt; read.as_slice() == text.as_slice());
    assert!(rt; read_to_end(alloc, &mut source)?.is_empty());
    assert!(rt; source.failures() == 0);
    Ok(())
}

/// So many names, from the first.
fn names(alloc: Global, count: u64) -> Result<Names<ItemName>, AllocError> {
    let mut names = Names::new(alloc);
    for number in 0..count {
        names.push(ItemName(number))?;
    }
    Ok(names)
}

/// An answer that names so many items.
fn done(alloc: Global, reclaimed: u64) -> Result<Answer, AllocError> {
    Ok(Answer {
        reply: Reply::Done,
        reclaimed: names(alloc, reclaimed)?,
        ran: Names::new(alloc),
    })
}

#[test]
fn the_most_answers_are_printed(rt: HostRuntime) -> Result<(), Fail> {
    let alloc = rt.alloc();
    let mut answers = Vec::new(alloc);
    for _ in 0..65_536 {
        answers.push(done(alloc, 0)?)?;
    }
    let text = vec![in alloc; *b"ok\n"; 65_536]?;
    let printed = print_all(alloc, answers.as_slice())?;
    assert!(rt; printed.as_slice() == text.as_slice().as_flattened());
    Ok(())
}

/// `i0` to `i65535` have 316,570 digits, and each has a space and a letter before it.
#[test]
fn an_answer_names_the_most_items(rt: HostRuntime) -> Result<(), Fail> {
    let alloc = rt.alloc();
    let printed = print_all(alloc, &[done(alloc, 65_536)?])?;
    assert!(rt; printed.starts_with(b"ok reclaimed i0 i1 i2 "));
    assert!(rt; printed.ends_with(b" i65534 i65535\n"));
    assert!(rt; printed.len() == 447_655);
    Ok(())
}
