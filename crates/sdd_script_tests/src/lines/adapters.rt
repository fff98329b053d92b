//! Devices over std's readers and writers.

use sdd_script_text::{Writer, write_all};
use std::test::Fail;

#[test]
fn bytes_are_written_whole(rt: HostRuntime) -> Result<(), Fail> {
    let alloc = rt.alloc();
    let mut written = Vec::new(alloc);
    let mut sink = Writer::new(&mut written);
    write_all(&mut sink, b"g0 epoch 3\n")?;
    write_all(&mut sink, b"")?;
    write_all(&mut sink, b"ok\n")?;
    assert!(rt; sink.failures() == 0);
    assert!(rt; written.as_slice() == b"g0 epoch 3\nok\n".as_slice());
    Ok(())
}
