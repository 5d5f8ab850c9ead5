//! A buffer by itself.
use super::SECOND;
use super::samples::{are_ids, holds, operation};
use hold_buffer::HoldBuffer;
use op_log::OpLog;
use std::test::Fail;

#[test]
fn held_until_it_is_ready(rt: HostRuntime) -> Result<(), Fail> {
    let alloc = rt.alloc();
    let log = OpLog::new(alloc);
    let mut buffer = HoldBuffer::new(alloc);
    let op = operation(alloc, SECOND)?;
    let waits = !log.is_ready(&op) && !log.contains(op.id());
    holds(&rt, waits, "it waits for the first");
    if waits {
        buffer.hold(&log, op)?;
        let none = buffer.next_ready(&log).is_none();
        let ids = buffer.ids()?;
        let held = are_ids(ids.as_slice(), &[(2, "p")]);
        holds(&rt, none && held, "the one that is held isn't ready");
    }
    Ok(())
}
