use super::*;
use fdp_base::{Command, Flush, Other, Payload, Status, Write};
use fdp_layouts::{Cqe, Frame, StatusField};
use std::test::Fail;

#[test]
fn entries_that_no_trace_spells(rt: HostRuntime) {
    let other = Command::Other(Other {
        admin: true,
        opcode: 0xff,
        flags: 0xc3,
        feature: 0xfe,
    });
    let work = work_of(&other, 0x0102);
    let bytes = work.sqe.encode();
    assert!(rt; work.admin && bytes[0] == 0xff && bytes[1] == 0xc3 && bytes[40] == 0xfe);
    let write = Command::Write(Write {
        nsid: 1,
        slba: 0,
        count: 1,
        dtype: 15,
        dspec: 0,
        payload: Payload::Pattern(7),
    });
    assert!(rt; work_of(&write, 0x0102).sqe.encode()[50] == 0xf0);
}

#[test]
fn rings(rt: HostRuntime) -> Result<(), Fail> {
    let mut pair = QueuePair::new(rt.alloc(), 3)?;
    let first = work_of(&Command::Flush(Flush { nsid: 1 }), 1);
    let second = work_of(&Command::Flush(Flush { nsid: 2 }), 2);
    assert!(rt; pair.fetch() == None);
    assert!(rt; pair.submit(first) == Ok(()) && pair.submit(second) == Ok(()));
    assert!(rt; pair.submit(first) == Err(Full));
    assert!(rt;
        pair.fetch() == Some(first) && pair.fetch() == Some(second) && pair.fetch() == None
    );
    // Seven posts in a ring of three slots: the tag inverts after the third and after the sixth.
    for (cid, phase) in [
        (0u16, true),
        (1, true),
        (2, true),
        (3, false),
        (4, false),
        (5, false),
        (6, true),
    ] {
        let status = StatusField::new(!phase, Status::SUCCESS);
        let cqe = Cqe {
            dw0: 7,
            dw1: 0,
            sq_head: 1,
            sq_id: 2,
            cid,
            status,
        };
        assert!(rt; pair.post(cqe) == Ok(()));
        match pair.reap() {
            Some(reaped) => {
                assert!(rt; reaped.status.phase == phase, "{cid}");
                assert!(rt;
                    reaped.cid == cid && reaped.sq_head == 1 && reaped.sq_id == 2 && reaped.dw0 == 7
                );
            }
            None => assert!(rt; false, "{cid}"),
        }
    }
    assert!(rt; pair.reap() == None);
    Ok(())
}
