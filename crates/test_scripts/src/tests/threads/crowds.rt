//! Many actors at once.
use crate::tests::threads::fixture::gathers;
use script_lines::push_number;
use std::alloc::{AllocError, Global};
use std::process::Abort;
use std::sync::Wait;
use std::test::Fail;
use std::thread::Threads;
use std::time::{Clock, Instant};

// Twenty steps of an actor: `@` stands for its number, `%` for that of the next one, and `#` for the
// round. A root, a child that is given away, and handles of both; what comes is collected, used and
// left; at last the root is released.
const ROUND: &str =
    "c@ open r#\nc@ dup r# k#\nc@ give k# c%\nc@ bind r#\nc@ constrain r# 1 0 4096\n\
c@ take r#\nc@ duph r#.0 strong\nc@ giveh r#.0 strong c%\nc@ collect m#\nc@ bind m#\n\
c@ constrain m# 0 0 1\nc@ take m#\nc@ tracknode r# t#\nc@ poll t#\nc@ collect n#\nc@ collect o#\n\
c@ droph r#.0 strong\nc@ close m#\nc@ release r#\nc@ check r#\n";

const ACTORS: u64 = 64;

// So often they run, each time in another order of events. Once this many seconds have passed no further run begins: a
// build that looks for misused memory takes a hundred times as long as one that is proved.
const RUNS: u64 = 20;

const SECONDS: u64 = 45;

// Puts the lines of the template behind the text.
fn push_lines(
    text: &mut Vec<u8>,
    template: &str,
    actor: u64,
    round: u64,
) -> Result<(), AllocError> {
    let next = if actor < ACTORS - 1 { actor + 1 } else { 0 };
    for byte in template.as_bytes() {
        match *byte {
            b'@' => push_number(text, actor)?,
            b'%' => push_number(text, next)?,
            b'#' => push_number(text, round)?,
            other => text.push(other)?,
        }
    }
    Ok(())
}

// Puts the lines of all actors behind the text: all join, and then make their rounds.
fn push_script(text: &mut Vec<u8>) -> Result<(), AllocError> {
    for actor in 0..ACTORS {
        push_lines(text, "c@ join\n", actor, 0)?;
    }
    for round in 0..50u64 {
        for actor in 0..ACTORS {
            push_lines(text, ROUND, actor, round)?;
        }
    }
    Ok(())
}

// Whether all is gathered after each run, and the clock works.
fn are_gathered<R: Threads + Wait + Clock + Abort + Sync>(
    rt: &R,
    alloc: Global,
    script: &[u8],
) -> bool {
    let Ok(began) = Instant::now(rt) else {
        return false;
    };
    for _ in 0..RUNS {
        if !gathers(rt, alloc, script, 64) {
            return false;
        }
        match began.elapsed(rt) {
            Ok(passed) if passed.as_secs() < SECONDS => {}
            Ok(_) => break,
            Err(_) => return false,
        }
    }
    true
}

#[test]
fn sixty_four_actors_make_a_thousand_steps_each(rt: HostRuntime) -> Result<(), Fail> {
    let mut script = Vec::new(rt.alloc());
    push_script(&mut script)?;
    assert!(rt; are_gathered(&rt, rt.alloc(), script.as_slice()));
    Ok(())
}
