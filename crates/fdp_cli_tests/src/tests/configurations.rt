//! The longest configuration.
use super::*;

#[test]
fn a_configuration_has_a_limit(rt: HostRuntime) -> Result<(), Fail> {
    let alloc = rt.alloc();
    let mut config = Vec::from_slice(alloc, DRIVE_S)?;
    config.extend_from_slice(&vec![in alloc; b'#'; 65_536 - DRIVE_S.len()]?)?;
    assert!(rt;
        ends(
            &rt,
            alloc,
            &run_of(&RUN, &config, b""),
            0,
            b"queue 1\nstats 0 0 0\nruh 0 1\n"
        )?
    );
    config.push(b'#')?;
    let long = b"fault 2 config long\n";
    assert!(rt; ends(&rt, alloc, &run_of(&RUN, &config, b"flush 1\n"), 2, long)?);
    Ok(())
}
