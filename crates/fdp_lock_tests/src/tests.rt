use crate::{Load, Tally, work_both, work_four};
use fdp_lock::{Boxed, GroupLock};
use std::test::Fail;
use std::thread::join;

// A turn lasts so long that the seats which wait for it sleep.
const ROUNDS: u32 = 5_000;

#[test]
fn two_seats_make_all_their_entries(rt: HostRuntime) -> Result<(), Fail> {
    let tally = Boxed::new(rt.alloc(), Tally::with_room(rt.alloc(), 7, 2000)?)?;
    let Ok((lock, mut first)) = GroupLock::new(rt.alloc(), tally, 3) else {
        panic!(rt; "there is memory")
    };
    let one = lock.split(&mut first, 1);
    let two = lock.split(&mut first, 5);
    assert!(rt; first.given() == 5 && first.parts() == 1 && two.number() == 5);
    let load = Load {
        turns: 1000,
        rounds: ROUNDS,
    };
    let (mut one, mut two) = work_both(&rt, &lock, one, two, load);
    assert!(rt; one.turns() == 1000 && two.turns() == 1000);
    lock.meet(&mut one, &mut two);
    let tally = lock
        .close(vec![in rt.alloc(); first, one, two]?)
        .into_inner();
    let of = |number: u8| tally.numbers.iter().filter(|n| **n == number).count();
    assert_eq!(rt;
        (tally.name, tally.numbers.len(), of(1), of(5)),
        (7, 2000, 1000, 1000)
    );
    Ok(())
}

#[test]
fn six_seats_take_turns(rt: HostRuntime) -> Result<(), Fail> {
    let tally = Boxed::new(rt.alloc(), Tally::with_room(rt.alloc(), 0, 1200)?)?;
    let Ok((lock, mut first)) = GroupLock::new(rt.alloc(), tally, 7) else {
        panic!(rt; "there is memory")
    };
    let a = lock.split(&mut first, 1);
    let b = lock.split(&mut first, 2);
    let c = lock.split(&mut first, 3);
    let d = lock.split(&mut first, 4);
    let e = lock.split(&mut first, 5);
    let f = lock.split(&mut first, 6);
    let load = Load {
        turns: 200,
        rounds: ROUNDS,
    };
    let ((a, b), ((c, d), (e, f))) = join(
        &rt,
        || work_both(&rt, &lock, a, b, load),
        || work_four(&rt, &lock, c, d, e, f, load),
    );
    let tally = lock
        .close(vec![in rt.alloc(); first, a, b, c, d, e, f]?)
        .into_inner();
    for number in 1..7u8 {
        let made = tally.numbers.iter().filter(|n| **n == number).count();
        assert_eq!(rt; made, 200);
    }
    assert_eq!(rt; tally.numbers.len(), 1200);
    Ok(())
}
