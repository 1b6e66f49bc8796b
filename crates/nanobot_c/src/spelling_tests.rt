//! Assembling and disassembling as a C caller does. The bytes are those of the table of commands.
use crate::spelling::{nanobot_asm, nanobot_dis};
use std::alloc::Global;
use std::process::Abort;
use std::test::Fail;

/// Asserts that the front of the buffer has these bytes and the rest is unchanged.
fn assert_given(rt: &impl Abort, buffer: &[u8], size: usize, bytes: &[u8]) {
    assert_eq!(rt; size, bytes.len());
    assert_eq!(rt; buffer.get(..size), Some(bytes));
    assert_eq!(rt; buffer.last(), Some(&7));
}

/// Asserts that a text assembles, with this status, to these bytes.
fn assert_reads(
    rt: &impl Abort,
    alloc: Global,
    text: &str,
    status: u32,
    bytes: &[u8],
) -> Result<(), Fail> {
    let mut buffer = vec![in alloc; 7u8; 100]?;
    let mut size = 0;
    assert_eq!(rt;
        nanobot_asm(alloc, text.as_bytes(), &mut buffer, &mut size),
        status
    );
    assert_given(rt, &buffer, size, bytes);
    Ok(())
}

/// Asserts that a trace disassembles, with this status, to these bytes.
fn assert_spells(
    rt: &impl Abort,
    alloc: Global,
    trace: &[u8],
    status: u32,
    text: &str,
) -> Result<(), Fail> {
    let mut buffer = vec![in alloc; 7u8; 100]?;
    let mut size = 0;
    assert_eq!(rt; nanobot_dis(alloc, trace, &mut buffer, &mut size), status);
    assert_given(rt, &buffer, size, text.as_bytes());
    Ok(())
}

#[test]
fn texts_are_read(rt: HostRuntime) -> Result<(), Fail> {
    let alloc = rt.alloc();
    assert_reads(&rt, alloc, "Wait\nHalt\n", 0, &[0xFE, 0xFF])?;
    assert_reads(&rt, alloc, "", 0, &[])?;
    assert_reads(
        &rt,
        alloc,
        "Wait\nStop\n",
        8,
        b"text 2 UnknownWord line 2\n",
    )
}

#[test]
fn traces_are_spelled(rt: HostRuntime) -> Result<(), Fail> {
    let alloc = rt.alloc();
    assert_spells(&rt, alloc, &[0xFE, 0xFF], 0, "Wait\nHalt\n")?;
    assert_spells(&rt, alloc, &[0xFE, 0x04], 4, "trace bad at 1\n")
}
