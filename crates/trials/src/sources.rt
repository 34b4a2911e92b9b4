// What run sources tell, and which bytes give no run.
use runs::{PulseRun, RunFault, RunSource, TableRun};

// A loop of 4, and the atom 17 from position 1 on at every second one. The stem ends where the pulse begins.
#[test]
fn pulses_are_told(rt: HostRuntime) {
    let run = PulseRun::new(&[4, 0, 17, 0, 1, 0, 2, 0, 1, 0]);
    assert_eq!(rt; run.stem(), 1);
    assert_eq!(rt; run.loop_length(), 4);
    for (position, truth) in [(0, false), (1, true), (2, false), (3, true), (4, false)] {
        assert_eq!(rt; run.says(17, position), truth);
        assert_eq!(rt; run.says(1, position), false);
        assert_eq!(rt; run.says(32, position), false);
    }
    assert_eq!(rt; run.says(17, 5), false);
}

// A stem of 1 and a loop of 2, with the atom 9 at 0, the atoms 0 and 17 at 1, and the atoms 14 and 25 at 2.
#[test]
fn tables_are_told(rt: HostRuntime) {
    let run = TableRun::new(&[1, 0, 2, 0, 0, 2, 0, 0, 1, 0, 2, 0, 0, 64, 0, 2]);
    assert_eq!(rt; run.stem(), 1);
    assert_eq!(rt; run.loop_length(), 2);
    for (atom, position, other) in [(9, 0, 1), (0, 1, 2), (17, 1, 2), (14, 2, 0), (25, 2, 0)] {
        assert!(rt; run.says(atom, position) && !run.says(atom, other));
    }
    for atom in [1, 8, 16, 24, 32] {
        assert!(rt; !run.says(atom, 0) && !run.says(atom, 1) && !run.says(atom, 2));
    }
    assert_eq!(rt; run.says(14, 3), false);
}

// The pulse with the largest first position stands between two others.
#[test]
fn stems_end_with_the_latest_pulse(rt: HostRuntime) {
    let bytes = [
        1, 0, 0, 0, 2, 0, 1, 0, 1, 0, 1, 0, 3, 1, 1, 0, 1, 0, 2, 0, 0, 0, 1, 0, 0, 0,
    ];
    let run = PulseRun::new(&bytes);
    assert_eq!(rt; run.stem(), 259);
    assert!(rt; run.says(0, 2) && !run.says(0, 1) && run.says(1, 259) && !run.says(1, 258));
    assert!(rt; !run.says(2, 0) && !run.says(2, 259));
}

// Bytes that give no run make a source of one position, where every atom is false.
#[test]
fn failing_bytes_tell_nothing(rt: HostRuntime) {
    let table = TableRun::new(&[1, 0, 0, 0, 255, 255, 255, 255]);
    let pulses = PulseRun::new(&[5, 0, 0, 0, 3, 0, 2, 0, 2, 0]);
    assert!(rt; table.stem() == 0 && table.loop_length() == 1);
    assert!(rt; pulses.stem() == 0 && pulses.loop_length() == 1);
    for atom in 0..40 {
        for position in 0..5 {
            assert!(rt; !table.says(atom, position) && !pulses.says(atom, position));
        }
    }
}

#[test]
fn tables_are_checked(rt: HostRuntime) {
    assert_eq!(rt; TableRun::check(&[0, 0, 1, 0, 9, 9, 9, 9]), Ok(()));
    assert_eq!(rt; TableRun::check(&[]), Err(RunFault::WrongLength));
    assert_eq!(rt; TableRun::check(&[0, 0, 1]), Err(RunFault::WrongLength));
    assert_eq!(rt; TableRun::check(&[0, 0, 1, 0]), Err(RunFault::WrongLength));
    assert_eq!(rt;
        TableRun::check(&[0, 0, 1, 0, 9, 9, 9]),
        Err(RunFault::WrongLength)
    );
    assert_eq!(rt;
        TableRun::check(&[1, 0, 0, 0, 9, 9, 9, 9, 9]),
        Err(RunFault::WrongLength)
    );
    assert_eq!(rt;
        TableRun::check(&[1, 0, 0, 0, 9, 9, 9, 9]),
        Err(RunFault::NoRun)
    );
    assert_eq!(rt; TableRun::check(&[0, 0, 0, 0]), Err(RunFault::NoRun));
}

#[test]
fn pulses_have_a_length(rt: HostRuntime) {
    assert_eq!(rt; PulseRun::check(&[1, 0]), Ok(()));
    assert_eq!(rt; PulseRun::check(&[]), Err(RunFault::WrongLength));
    assert_eq!(rt; PulseRun::check(&[1]), Err(RunFault::WrongLength));
    assert_eq!(rt; PulseRun::check(&[0, 0, 0]), Err(RunFault::WrongLength));
    assert_eq!(rt;
        PulseRun::check(&[1, 0, 0, 0, 0, 0, 1, 0, 1]),
        Err(RunFault::WrongLength)
    );
    assert_eq!(rt; PulseRun::check(&[0, 0]), Err(RunFault::NoRun));
}

// Whether a run with a loop of 6 may have one pulse.
fn one(atom: u8, period: u8, width: u8) -> Result<(), RunFault> {
    PulseRun::check(&[6, 0, atom, 0, 0, 0, period, 0, width, 0])
}

#[test]
fn pulses_keep_to_their_loop(rt: HostRuntime) {
    assert_eq!(rt; one(31, 6, 6), Ok(()));
    assert_eq!(rt; one(0, 1, 0), Ok(()));
    assert_eq!(rt; one(32, 6, 6), Err(RunFault::NoRun));
    assert_eq!(rt; one(0, 0, 0), Err(RunFault::NoRun));
    assert_eq!(rt; one(0, 3, 4), Err(RunFault::NoRun));
    assert_eq!(rt; one(0, 4, 1), Err(RunFault::NoRun));
    assert_eq!(rt; one(0, 12, 1), Err(RunFault::NoRun));
}

// Whether a run may have pulses of two atoms, in this order.
fn two(first: u8, second: u8) -> Result<(), RunFault> {
    PulseRun::check(&[
        1, 0, first, 0, 0, 0, 1, 0, 1, 0, second, 0, 0, 0, 1, 0, 1, 0,
    ])
}

#[test]
fn pulses_rise(rt: HostRuntime) {
    assert_eq!(rt; two(4, 5), Ok(()));
    assert_eq!(rt; two(5, 5), Err(RunFault::NoRun));
    assert_eq!(rt; two(5, 4), Err(RunFault::NoRun));
    assert_eq!(rt; two(31, 32), Err(RunFault::NoRun));
}
