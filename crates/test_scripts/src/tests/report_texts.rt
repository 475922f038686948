//! Reports.
use event_laws::ClientLine;
use script_lines::Label;
use thread_runs::push_report;

const LINES: [ClientLine; 2] = [
    ClientLine {
        client: 1,
        events: 3,
        strong: 0,
        weak: 12,
    },
    ClientLine {
        client: 2,
        events: 0,
        strong: 4,
        weak: 0,
    },
];

const REPORT: &str = "events 5\ncamera events 3 strong 0 weak 12\n\
b2 events 0 strong 4 weak 0\ngather ok\n";

// Whether the report on clients of these labels is the one above.
fn is_told(text: &mut Vec<u8>) -> bool {
    let (Some(camera), Some(b)) = (Label::new(b"camera"), Label::new(b"b2")) else {
        return false;
    };
    push_report(text, "", &[camera, b], 5, &LINES).is_ok() && text.as_slice() == REPORT.as_bytes()
}

#[test]
fn each_client_has_its_line(rt: HostRuntime) {
    let mut text = Vec::new(rt.alloc());
    assert!(rt; is_told(&mut text));
}
