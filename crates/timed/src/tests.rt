// That the steps of a record become its calls.
use crate::{Step, timed_write};

const TEXT: &[u8] = b"sheet@no12titleAlp & Talbyedition@yr1987";

const STEPS: [Step; 11] = [
    Step {
        kind: 0,
        from: 0,
        end: 5,
    },
    Step {
        kind: 1,
        from: 5,
        end: 8,
    },
    Step {
        kind: 2,
        from: 8,
        end: 10,
    },
    Step {
        kind: 1,
        from: 10,
        end: 15,
    },
    Step {
        kind: 2,
        from: 15,
        end: 24,
    },
    Step {
        kind: 1,
        from: 24,
        end: 26,
    },
    Step {
        kind: 3,
        from: 26,
        end: 33,
    },
    Step {
        kind: 1,
        from: 33,
        end: 36,
    },
    Step {
        kind: 2,
        from: 36,
        end: 40,
    },
    Step {
        kind: 4,
        from: 40,
        end: 40,
    },
    Step {
        kind: 4,
        from: 40,
        end: 40,
    },
];

const RECORD: &[u8] = b"<sheet no=\"12\"><title>Alp &amp; Tal</title><by yr=\"1987\"/></sheet>";

#[test]
fn a_record(rt: HostRuntime) {
    for times in 0..3 {
        let (mut stage, mut names, mut out) = ([0u8; 128], [0u8; 32], [0u8; 128]);
        let len = timed_write(
            rt.alloc(),
            &STEPS,
            TEXT,
            &mut stage,
            &mut names,
            &mut out,
            times,
        );
        if times == 0 {
            assert_eq!(rt; len, 0);
        } else {
            assert_eq!(rt; len, RECORD.len());
            assert_eq!(rt; &out[..len.min(128)], RECORD);
        }
    }
}

#[test]
fn a_record_that_is_refused(rt: HostRuntime) {
    let (mut stage, mut names, mut out) = ([0u8; 128], [0u8; 32], [0u8; 128]);
    // its end is missing, it has no name, or a step lies past the text
    for steps in [&STEPS[..10], &STEPS[1..]] {
        assert_eq!(rt;
            timed_write(rt.alloc(), steps, TEXT, &mut stage, &mut names, &mut out, 1),
            0
        );
    }
    assert_eq!(rt;
        timed_write(
            rt.alloc(),
            &STEPS,
            &TEXT[..39],
            &mut stage,
            &mut names,
            &mut out,
            1
        ),
        0
    );
}
