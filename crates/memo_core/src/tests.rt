//! Histories of a few events: what they lead to, and where they stop being legal.
use super::*;
use std::test::Fail;

const ONE: [u8; 32] = [1; 32];

const TWO: [u8; 32] = [2; 32];

fn look(caller: u64, run: u64, answer: LookAnswer) -> Event {
    Event::Look {
        caller,
        run,
        digest: ONE,
        answer,
    }
}

fn keep(caller: u64, run: u64, digest: [u8; 32], answer: KeepAnswer) -> Event {
    Event::Keep {
        caller,
        run,
        digest,
        answer,
    }
}

fn sweep(horizon: u64, dropped: u64) -> Event {
    Event::Sweep {
        caller: 0,
        horizon,
        dropped,
    }
}

#[test]
fn a_closed_history_replays(rt: HostRuntime) -> Result<(), Fail> {
    let history = [
        look(0, 1, LookAnswer::Absent),
        keep(0, 1, ONE, KeepAnswer::Stored(0)),
        look(1, 2, LookAnswer::Hit(0)),
        Event::Release { caller: 0, id: 0 },
        sweep(9, 0),
        Event::Release { caller: 1, id: 0 },
        sweep(2, 0),
        sweep(3, 1),
        look(0, 3, LookAnswer::Absent),
    ];
    let end = replay(rt.alloc(), &history)?.ok_or("refused")?;
    assert!(rt; end.entries.is_empty());
    assert_eq!(rt; end.entries.len(), 0);
    assert_eq!(rt; end.next, 1);
    assert!(rt; replay(rt.alloc(), &history[2..3])?.is_none());
    assert!(rt; replay(rt.alloc(), &[])?.is_some());
    Ok(())
}

#[test]
fn a_state_has_its_entries_with_their_pins(rt: HostRuntime) -> Result<(), Fail> {
    let history = [
        keep(7, 3, ONE, KeepAnswer::Stored(0)),
        keep(8, 5, TWO, KeepAnswer::Stored(1)),
        look(9, 2, LookAnswer::Hit(0)),
        keep(7, 4, ONE, KeepAnswer::Found(0)),
        keep(7, 9, ONE, KeepAnswer::Clash(0)),
        look(7, 9, LookAnswer::Clash(0)),
        Event::Release { caller: 7, id: 0 },
    ];
    let state = replay(rt.alloc(), &history)?.ok_or("refused")?;
    assert_eq!(rt; state.next, 2);
    assert_eq!(rt; state.entries.len(), 2);
    let first = state.entries.get(0);
    assert_eq!(rt; first.id, 0);
    assert_eq!(rt; first.used, 4);
    assert_eq!(rt; first.digest.as_slice(), ONE.as_slice());
    assert_eq!(rt; first.pins.len(), 2);
    assert_eq!(rt; first.pins.get(0), 9);
    assert_eq!(rt; first.pins.get(1), 7);
    assert!(rt; first.pins.contains(7) && !first.pins.contains(8) && !first.pins.is_empty());
    assert_eq!(rt; state.entries.get(1).id, 1);
    Ok(())
}

#[test]
fn an_illegal_event_has_no_state(rt: HostRuntime) -> Result<(), Fail> {
    let kept = keep(7, 3, ONE, KeepAnswer::Stored(0));
    let refused = [
        look(7, 4, LookAnswer::Absent),
        look(7, 4, LookAnswer::Hit(1)),
        look(7, 4, LookAnswer::Clash(1)),
        keep(7, 4, ONE, KeepAnswer::Stored(1)),
        keep(7, 4, TWO, KeepAnswer::Stored(0)),
        keep(7, 4, TWO, KeepAnswer::Stored(2)),
        keep(7, 4, TWO, KeepAnswer::Found(0)),
        keep(7, 4, TWO, KeepAnswer::Clash(0)),
        Event::Release { caller: 8, id: 0 },
        Event::Release { caller: 7, id: 1 },
        sweep(9, 1),
    ];
    for event in refused {
        let history = [kept, event];
        assert!(rt; replay(rt.alloc(), &history)?.is_none(), "{event:?}");
    }
    Ok(())
}
