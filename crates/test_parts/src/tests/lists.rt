//! Scripts of actors, read.
ghost use Rattle.std.specs.Prelude.{◌≤◌};

use actor_scripts::{ActorList, ActorScriptFault, Step, StepBuffer, read_actors};
use script_lines::{Label, LabelHash, MOST_BYTES};
use sm_names::{Argument, CallKind, Object, Strength};
use std::alloc::Global;
use std::io;
use std::io::Read;
use test_streams::ShortReader;

// This many bytes, of remarks of 255 bytes and an end.
#[derive(Drop)]
struct Remarks {
    left: usize,
}

impl Read for Remarks {
    fn read(&mut self, buf: &mut [u8]) -> io::Result<usize> {
        let most = self.left.min(buf.len()).min(256);
        buf[..most].fill(b'#');
        if most == 256 {
            buf[255] = b'\n';
        }
        self.left -= most;
        Ok(most)
    }
}

const TWO: &str = "a join\nb join\na open r\nb open s\na bind r\nb bind s\na constrain r 1 0 4096\n\
b constrain s 1 0 4096\na take r\nb take s\n";

// Reads a script, this many bytes a read, with an error at read `fails`.
fn read(
    alloc: Global,
    script: &str,
    step: usize,
    fails: usize,
) -> Result<ActorList, ActorScriptFault> {
    let mut reader = ShortReader {
        bytes: script.as_bytes(),
        step,
        reads: 0,
        fails,
    };
    read_actors(alloc, LabelHash::new([3; 16]), &mut reader)
}

// The fault of such a script.
fn fault_of(alloc: Global, script: &str, step: usize, fails: usize) -> Option<ActorScriptFault> {
    read(alloc, script, step, fails).err()
}

// A step as plain data: the kind of its call, the object and the argument as numbers, and the label that it binds.
// A look at a tracker has no kind, and the label of the tracker.
type Told = (Option<CallKind>, [u32; 3], [u32; 4], Option<u32>);

// An object: nothing, a node, or a buffer with its node and its index.
fn object_numbers(object: Object<u32, StepBuffer>) -> [u32; 3] {
    match object {
        Object::Nothing => [0, 0, 0],
        Object::Node(node) => [1, node, 0],
        Object::Buffer(buffer) => [2, buffer.node, u32::from(buffer.index)],
    }
}

// An argument. A strong handle has the number 1, a weak one 0.
fn argument_numbers(argument: Argument<u32>) -> [u32; 4] {
    match argument {
        Argument::Nothing => [0, 0, 0, 0],
        Argument::Client(to) => [1, to, 0, 0],
        Argument::Children(children) => [2, u32::from(children), 0, 0],
        Argument::Constraints(wanted) => [
            3,
            u32::from(wanted.camping()),
            u32::from(wanted.at_least()),
            wanted.size(),
        ],
        Argument::Most(most) => [4, most, 0, 0],
        Argument::Strength(strength) => [5, u32::from(strength == Strength::Strong), 0, 0],
        Argument::Gift(strength, to) => [6, u32::from(strength == Strength::Strong), to, 0],
    }
}

fn told(step: Step) -> Told {
    match step {
        Step::Ask { request } => (
            Some(request.kind),
            object_numbers(request.object),
            argument_numbers(request.argument),
            request.binds,
        ),
        Step::Poll { tracker } => (None, [0; 3], [0; 4], Some(tracker)),
    }
}

// Whether these are the steps.
fn are_steps(steps: &[Step], wanted: &[Told]) -> bool {
    for (step, asked) in steps.iter().zip(wanted) {
        if told(*step) != *asked {
            return false;
        }
    }
    steps.len() == wanted.len()
}

// Whether the actor at this place has this label and these steps.
fn is_actor(list: &ActorList, at: usize, label: &str, steps: &[Told]) -> bool {
    match (list.labels.get(at), list.scripts.get(at)) {
        (Some(told), Some(script)) => {
            Label::new(label.as_bytes()) == Some(*told) && are_steps(&script.steps, steps)
        }
        _ => false,
    }
}

// Whether these are the actors, each with its label and its steps.
fn has_actors(list: &ActorList, actors: &[(&str, &[Told])]) -> bool {
    for (at, (label, steps)) in actors.iter().enumerate() {
        if !is_actor(list, at, label, steps) {
            return false;
        }
    }
    list.labels.len() == actors.len() && list.scripts.len() == actors.len()
}

// Whether a script has these actors, with these steps, however many bytes a read gives.
fn is_read(alloc: Global, script: &str, actors: &[(&str, &[Told])]) -> bool {
    for step in [1, 7, 4096] {
        match read(alloc, script, step, 0) {
            Ok(list) if has_actors(&list, actors) => {}
            _ => return false,
        }
    }
    true
}

// A step that makes a call.
macro_rules! ask {
    ($kind:ident $object:expr, $argument:expr, $binds:expr) => {
        (Some(CallKind::$kind), $object, $argument, $binds)
    };
}

// The steps of an actor that takes one buffer of a page.
macro_rules! taker {
    ($node:literal) => {
        &[
            ask!(OpenRoot [0; 3], [0; 4], Some($node)),
            ask!(Bind [1, $node, 0], [0; 4], None),
            ask!(SetConstraints [1, $node, 0], [3, 1, 0, 4096], None),
            ask!(Take [1, $node, 0], [0; 4], None),
        ]
    };
}

const TAKERS: &[(&str, &[Told])] = &[("a", taker!(0)), ("b", taker!(1))];

#[test]
fn two_actors_have_their_steps(rt: HostRuntime) {
    assert!(rt; is_read(rt.alloc(), TWO, TAKERS));
}

const LABELS: &str = "b join\na join\nb open r\na open r\n# a remark\n\nb open s\nb dup r k\n\
b tracknode r k\nb poll k\na close r\nb tracklife s 3 n\nb give s a\na collect t\nb shut\n";

const LABELLED: &[(&str, &[Told])] = &[
    (
        "b",
        &[
            ask!(OpenRoot [0; 3], [0; 4], Some(0)),
            ask!(OpenRoot [0; 3], [0; 4], Some(2)),
            ask!(Duplicate [1, 0, 0], [0; 4], Some(3)),
            ask!(TrackNode [1, 0, 0], [0; 4], Some(3)),
            (None, [0; 3], [0; 4], Some(3)),
            ask!(TrackLifetime [1, 2, 0], [4, 3, 0, 0], Some(4)),
            ask!(Give [1, 2, 0], [1, 1, 0, 0], None),
            ask!(Shut [0; 3], [0; 4], None),
        ],
    ),
    (
        "a",
        &[
            ask!(OpenRoot [0; 3], [0; 4], Some(1)),
            ask!(Close [1, 1, 0], [0; 4], None),
            ask!(Collect [0; 3], [0; 4], Some(5)),
        ],
    ),
];

#[test]
fn labels_are_numbered_by_actor(rt: HostRuntime) {
    assert!(rt; is_read(rt.alloc(), LABELS, LABELLED));
}

const BUFFERS: &str =
    "a join\na duph r.63 strong\na droph q.0 weak\na giveh q.1 weak a\na trackweak r.2 e\n";

const BUFFERED: &[(&str, &[Told])] = &[(
    "a",
    &[
        ask!(DupHandle [2, 0, 63], [5, 1, 0, 0], None),
        ask!(DropHandle [2, 1, 0], [5, 0, 0, 0], None),
        ask!(GiveHandle [2, 1, 1], [6, 0, 0, 0], None),
        ask!(TrackWeak [2, 0, 2], [0; 4], Some(2)),
    ],
)];

#[test]
fn buffers_are_named_by_a_node(rt: HostRuntime) {
    assert!(rt; is_read(rt.alloc(), BUFFERS, BUFFERED));
}

// Scripts, each with the number of its first bad line.
const BAD: &[(&str, u64)] = &[
    ("", 1),
    ("\n# nobody\n\n", 4),
    ("a join\na sync", 2),
    ("a join", 1),
    ("a open r\n", 1),
    ("a join\nshow live\n", 2),
    ("show free\na join\n", 1),
    ("a join\na join\n", 2),
    ("a join\na open r\nb join\n", 3),
    ("a join\n\nb open r\n", 3),
    ("a join\na give r b\n", 2),
    ("a join\na giveh r.0 strong b\n", 2),
    ("a join\na constrain r 65 0 1\n", 2),
    ("a join\na constrain r 1 0 0\n", 2),
    ("a join\na  open r\n", 2),
    ("a join\na open R\na jump r\n", 2),
    ("a join\na droph r.64 strong\n", 2),
    ("a join\na open r\na jump r\nshow live", 3),
];

// Whether each such line is the first bad one.
fn are_bad(alloc: Global) -> bool {
    for (script, line) in BAD {
        if fault_of(alloc, script, 4096, 0) != Some(ActorScriptFault::BadLine(*line)) {
            return false;
        }
    }
    true
}

#[test]
fn the_fault_has_the_number_of_the_first_bad_line(rt: HostRuntime) {
    assert!(rt; are_bad(rt.alloc()));
}

// A script of one actor, with a remark of 256 bytes: four times 64, and these more.
macro_rules! remark {
    ($more:literal) => {
        concat!(
            "a join\n",
            "################################################################",
            "################################################################",
            "################################################################",
            "################################################################",
            $more,
            "\n",
        )
    };
}

// The longest remark, and one that is a byte longer.
const REMARKS: [&str; 2] = [remark!(""), remark!("#")];

#[test]
fn a_line_has_at_most_256_bytes(rt: HostRuntime) {
    let [longest, longer] = REMARKS;
    let faults = [
        fault_of(rt.alloc(), longest, 4096, 0),
        fault_of(rt.alloc(), longer, 4096, 0),
    ];
    assert!(rt; faults == [None, Some(ActorScriptFault::BadLine(2))]);
}

// How many of the reads, each of one byte, give a read fault if they fail.
fn failing_reads(alloc: Global) -> usize {
    for fails in 1..200usize {
        match fault_of(alloc, TWO, 1, fails) {
            None => return fails.saturating_sub(1),
            Some(ActorScriptFault::ReadFault) => {}
            Some(_) => return 0,
        }
    }
    0
}

// Each byte is read, and so is the end.
const READS: usize = TWO.len() + 1;

#[test]
fn a_read_that_fails_at_any_byte_is_a_read_fault(rt: HostRuntime) {
    assert!(rt; failing_reads(rt.alloc()) == READS);
}

#[test]
fn a_failed_read_precedes_a_bad_line(rt: HostRuntime) {
    let fault = fault_of(rt.alloc(), "show live\na join\n", 11, 2);
    assert!(rt; fault == Some(ActorScriptFault::ReadFault));
}

// The fault of a script of this many bytes of remarks.
fn remarks_fault(alloc: Global, left: usize) -> Option<ActorScriptFault> {
    let mut reader = Remarks { left };
    read_actors(alloc, LabelHash::new([3; 16]), &mut reader).err()
}

// A script of the greatest size is read to its end, and a longer one is not.
#[test]
fn a_script_over_the_greatest_size_is_a_read_fault(rt: HostRuntime) {
    let (longest, longer) = (MOST_BYTES, MOST_BYTES + 1);
    let faults = [
        remarks_fault(rt.alloc(), longest),
        remarks_fault(rt.alloc(), longer),
    ];
    assert!(rt;
        faults
            == [
                Some(ActorScriptFault::BadLine(65_537)),
                Some(ActorScriptFault::ReadFault)
            ]
    );
}
