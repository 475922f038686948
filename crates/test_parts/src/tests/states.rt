//! What an actor knows of what it was told.
use actor_scripts::{ActorState, Step, StepBuffer};
use script_lines::Request;
use sm_names::{Argument, Call, CallKind, NodeKey, Object, Reply, Strength};

const KEY: NodeKey = NodeKey {
    slot: 0,
    generation: 1,
};

// A call as a step.
macro_rules! ask {
    ($kind:ident $object:expr, $argument:expr, $binds:expr) => {
        Step::Ask {
            request: Request {
                kind: CallKind::$kind,
                object: $object,
                argument: $argument,
                binds: $binds,
            },
        }
    };
}

// A call on the node of label 7.
macro_rules! on {
    ($kind:ident) => {
        ask!($kind Object::Node(7), Argument::Nothing, None)
    };
}

const OPEN: Step = ask!(OpenRoot Object::Nothing, Argument::Nothing, Some(7));

const GIVE_TO_THIRD: Step = ask!(Give Object::Node(7), Argument::Client(2), None);

const GIVE_TO_SECOND: Step = ask!(Give Object::Node(7), Argument::Client(1), None);

const TRACK: Step = ask!(TrackNode Object::Node(7), Argument::Nothing, Some(1));

// The handle on buffer 2 is dropped.
const DROP_THIRD: Step = ask!(
    DropHandle Object::Buffer(StepBuffer { node: 7, index: 2 }),
    Argument::Strength(Strength::Strong),
    None
);

const TOKEN: Reply = Reply::Token {
    key: KEY,
    collection: 4,
};

// Handles on buffers 0 and 2.
const TAKEN: Reply = Reply::Taken {
    collection: 4,
    strength: Strength::Strong,
    set: 5,
};

// Steps with their replies, and the slot of what the call is made on. The actor makes the calls for which it was told
// enough, and skips the others: those have no slot.
const STEPS: [(Step, Reply, Option<Option<usize>>); 13] = [
    (OPEN, TOKEN, Some(None)),
    (OPEN, Reply::Done, None),
    (on!(Bind), Reply::Done, Some(Some(0))),
    (on!(Bind), Reply::Done, None),
    (on!(Check), Reply::Pending, Some(Some(1))),
    (on!(Take), TAKEN, Some(Some(1))),
    (GIVE_TO_THIRD, Reply::Done, None),
    (GIVE_TO_SECOND, Reply::Done, Some(Some(1))),
    (on!(Close), Reply::Done, None),
    (Step::Poll { tracker: 1 }, Reply::Done, None),
    (DROP_THIRD, Reply::Done, Some(Some(3))),
    (DROP_THIRD, Reply::Done, None),
    (TRACK, Reply::Done, None),
];

// Whether the call is on the one node that there is, and a gift for the second client.
fn is_meant(call: &Call) -> bool {
    match call {
        Call::Bind(node) | Call::Check(node) | Call::Take(node) => *node == KEY,
        Call::Give(node, to) => (*node, *to) == (KEY, 9),
        _ => true,
    }
}

// The slot of what the step's call is made on, once its reply was noted.
fn told(state: &mut ActorState, step: Step, reply: &Reply) -> Option<Option<usize>> {
    let same = step;
    let asked = state.call(&[3, 9], step)?;
    let slot = asked.slot;
    if is_meant(&asked.call) && state.note_reply(same, &asked, reply).is_ok() {
        Some(slot)
    } else {
        None
    }
}

// Whether the steps have these slots, and no tracker is known in the end.
fn knows(state: &mut ActorState) -> bool {
    for (step, reply, slot) in STEPS {
        if told(state, step, &reply) != slot {
            return false;
        }
    }
    state.tracker(1).is_none()
}

#[test]
fn an_actor_has_the_objects_of_its_replies(rt: HostRuntime) {
    let mut state = ActorState::new(rt.alloc());
    assert!(rt; knows(&mut state));
}
