//! The status that a program ends with, and what it tells.
use crate::tests::exits::{Exit, Runner, all_end_so};
use crate::tests::threads::fixture::{TWO, TWO_REPORT};

const OUTCOMES: &[Exit] = &[
    Exit {
        script: TWO,
        fails: [0, 0, 0],
        written: TWO_REPORT,
        told: "",
        status: 0,
    },
    Exit {
        script: "a open r\n",
        fails: [0, 0, 0],
        written: "",
        told: "bad line 1: it names a client that does not join\n",
        status: 3,
    },
    Exit {
        script: "a join\nshow live\n",
        fails: [0, 0, 0],
        written: "",
        told: "bad line 2: a script of actors has no show\n",
        status: 3,
    },
];

const BROKEN: &[Exit] = &[
    Exit {
        script: TWO,
        fails: [1, 0, 0],
        written: "",
        told: "read fault\n",
        status: 1,
    },
    Exit {
        script: TWO,
        fails: [0, 1, 0],
        written: "",
        told: "write fault\n",
        status: 1,
    },
];

const UNHEARD: &[Exit] = &[Exit {
    script: "a fly\n",
    fails: [0, 0, 4],
    written: "",
    told: "bad",
    status: 3,
}];

#[test]
fn each_outcome_has_its_status(rt: HostRuntime) {
    assert!(rt; all_end_so(&rt, rt.alloc(), Runner::Threads, OUTCOMES));
}

#[test]
fn a_stream_that_fails_gives_status_1(rt: HostRuntime) {
    assert!(rt; all_end_so(&rt, rt.alloc(), Runner::Threads, BROKEN));
}

// The status is that of the fault also where nobody takes the text of it.
#[test]
fn a_fault_keeps_its_status_if_its_text_cannot_be_written(rt: HostRuntime) {
    assert!(rt; all_end_so(&rt, rt.alloc(), Runner::Threads, UNHEARD));
}
