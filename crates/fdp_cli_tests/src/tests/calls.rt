//! Each write of the sink fails in turn.
use super::texts::reads;
use super::*;

/// The output of 6,000 reads is written in four pieces.
#[test]
fn each_write_of_the_sink_fails_in_turn(rt: HostRuntime) -> Result<(), Fail> {
    let alloc = rt.alloc();
    let (text, output) = reads(alloc, 6_000)?;
    let mut run = run_of(&RUN, DRIVE_S, &text);
    for pieces in 0..4 {
        run.sink_fails = Some(pieces + 1);
        let (status, bytes) = outcome(&rt, alloc, &run)?;
        assert!(rt; status == 8 && output.starts_with(&bytes));
        assert!(rt; bytes.len() as u64 / 65_536 == pieces);
    }
    run.sink_fails = Some(5);
    let (status, bytes) = outcome(&rt, alloc, &run)?;
    assert!(rt; status == 0 && bytes == output);
    Ok(())
}
