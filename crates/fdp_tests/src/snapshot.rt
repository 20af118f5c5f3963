use fdp_snapshot::{BadCheckpoint, Summary, decode, put_fixed};
use std::alloc::{AllocError, Global};
use std::test::Fail;

fn lay(bytes: &mut [u8], at: usize, part: &[u8]) {
    for (i, byte) in part.iter().enumerate() {
        if i < bytes.len() && at < bytes.len() - i {
            bytes[at + i] = *byte;
        }
    }
}

/// A drive of two handles, with one namespace of two blocks, of which the second stands on page 6, and one host event.
fn small(alloc: Global) -> Result<Vec<u8>, AllocError> {
    let mut bytes = vec![in alloc; 0u8; 5632]?;
    let page = bytes.as_mut_slice();
    lay(page, 0, b"FDPDRV01");
    lay(page, 8, &[1, 0, 0, 0, 5]);
    lay(page, 16, &[9, 1, 0, 0, 0, 0, 0, 0, 2]);
    lay(page, 32, &[3, 0, 0, 0, 0, 0, 0, 0, 4]);
    lay(page, 48, &[1]);
    lay(page, 64, &[0, 2, 0, 0, 4, 0, 0, 0, 1, 0, 0, 0, 8]);
    lay(page, 80, &[7, 0, 0, 0, 1, 0, 0, 0, 1, 0, 0, 0, 1]);
    lay(page, 96, &[2, 0, 2, 0]);
    lay(page, 112, &[0, 63]);
    lay(
        page,
        128,
        &[2, 0, 0, 0, 0, 0, 0, 0, 8, 0, 0, 0, 0, 0, 0, 0, 1, 2],
    );
    lay(page, 152, &[1, 0]);
    lay(page, 768, &[1]);
    lay(page, 832, &[3, 1, 5, 128, 9]);
    lay(page, 5124, &[7]);
    Ok(bytes)
}

fn has_its_fields(summary: &Summary) -> bool {
    summary.totals.position == 265
        && summary.totals.erases == 4
        && summary.generation == 5
        && summary.keys.area_units == 7
        && summary.masks[1] == 63
}

/// Whether bytes are read as that drive, which gives their fixed part again.
fn go_round(alloc: Global, bytes: &[u8]) -> bool {
    match decode(alloc, 1, bytes) {
        Ok(state) => {
            let mut again = [7u8; 5120];
            put_fixed(&state.summary, 1, again.as_mut_slice());
            has_its_fields(&state.summary) && bytes.starts_with(again.as_slice())
        }
        Err(_) => false,
    }
}

#[test]
fn bytes_by_hand_are_read(rt: HostRuntime) -> Result<(), Fail> {
    let bytes = small(rt.alloc())?;
    assert!(rt; go_round(rt.alloc(), bytes.as_slice()));
    Ok(())
}

/// Whether that drive with another byte here is no checkpoint, and this place is given.
fn is_bad(alloc: Global, at: usize, byte: u8, shown: usize) -> bool {
    let Ok(mut bytes) = small(alloc) else {
        return false;
    };
    lay(bytes.as_mut_slice(), at, &[byte]);
    decode(alloc, 1, bytes.as_slice()).err() == Some(BadCheckpoint::At(shown))
}

#[test]
fn other_bytes_are_none(rt: HostRuntime) {
    let a = rt.alloc();
    assert!(rt; is_bad(a, 0, 0, 0));
    assert!(rt; is_bad(a, 8, 2, 8));
    assert!(rt; is_bad(a, 10, 1, 10));
    assert!(rt; is_bad(a, 50, 1, 50));
    assert!(rt; is_bad(a, 92, 5, 92));
    assert!(rt; is_bad(a, 145, 17, 145));
    assert!(rt; is_bad(a, 768, 33, 768));
    assert!(rt; is_bad(a, 850, 1, 850));
    assert!(rt; is_bad(a, 134, 1, 5631));
    assert!(rt; is_bad(a, 5128, 1, 5128));
}
