//! The longest traces.
use super::*;

/// A trace of so many reads of address 0 of a blank drive, and its output.
pub fn reads(alloc: Global, count: u32) -> Result<(Vec<u8>, Vec<u8>), AllocError> {
    let mut text = Vec::new(alloc);
    let mut output = Vec::new(alloc);
    output.extend_from_slice(b"queue 1\n")?;
    for number in 0..count {
        text.extend_from_slice(b"read 1 0 1\n")?;
        let lines = format!(in alloc; "{number} read 0/00 00000000\n  00000000\n")?;
        output.extend_from_slice(lines.as_bytes())?;
    }
    output.extend_from_slice(b"stats 0 0 0\nruh 0 1\n")?;
    Ok((text, output))
}

#[test]
fn the_longest_traces_are_served(rt: HostRuntime) -> Result<(), Fail> {
    let alloc = rt.alloc();
    let (mut text, output) = reads(alloc, 8_192)?;
    assert!(rt; serves(&rt, alloc, &text, 0, &output)?);
    text.extend_from_slice(b"write 1 0 1 7\n")?;
    assert!(rt; serves(&rt, alloc, &text, 3, b"fault 3 trace 1 line 8193 long\n")?);
    Ok(())
}

#[test]
fn texts_have_a_limit(rt: HostRuntime) -> Result<(), Fail> {
    let alloc = rt.alloc();
    let mut text = vec![in alloc; b'#'; 16_777_216]?;
    assert!(rt; serves(&rt, alloc, &text, 0, b"queue 1\nstats 0 0 0\nruh 0 1\n")?);
    text.push(b'#')?;
    assert!(rt; serves(&rt, alloc, &text, 3, b"fault 3 trace 1 long\n")?);
    Ok(())
}
