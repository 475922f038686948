//! How great numbers and shares are written.
use script_lines::{push, push_number};
use std::alloc::{AllocError, Global};
use std::num::saturating_f64_to_u64;

// Numbers are rounded by their distance from a half in so many parts of one.
const PARTS: u64 = 1_048_576;

// The nearest whole number; of two that are as near the even one, so that shares that are all runs stay 100.
fn rounded(number: f64) -> u64 {
    let parts = saturating_f64_to_u64(number * 1_048_576.0 + 0.5);
    let whole = parts / PARTS;
    let rest = parts % PARTS;
    if rest < PARTS / 2 || rest == PARTS / 2 && whole % 2 == 0 {
        whole
    } else {
        whole.saturating_add(1)
    }
}

// Appends tenths as a number with one digit behind the point.
fn push_tenths(text: &mut Vec<u8>, tenths: u64) -> Result<(), AllocError> {
    push_number(text, tenths / 10)?;
    push(text, ".")?;
    push_number(text, tenths % 10)
}

// Appends the number: all digits below 10^15, else two and the power of ten.
pub(crate) fn push_great(text: &mut Vec<u8>, number: f64) -> Result<(), AllocError> {
    if number < 1e15 {
        return push_number(text, saturating_f64_to_u64(number));
    }
    let mut left = number;
    let mut power: u64 = 0;
    for _ in 0..400 {
        if left < 10.0 {
            break;
        }
        left = left / 10.0;
        power = power.saturating_add(1);
    }
    let tenths = rounded(left * 10.0);
    if 100 <= tenths {
        push_tenths(text, 10)?;
        power = power.saturating_add(1);
    } else {
        push_tenths(text, tenths)?;
    }
    push(text, "e")?;
    push_number(text, power)
}

// How many of 100 runs a share is.
pub(crate) fn share_words(alloc: Global, share: f64) -> Result<Vec<u8>, AllocError> {
    let mut words = Vec::new(alloc);
    push_share(&mut words, share)?;
    Ok(words)
}

// Appends how many of 100 runs a share is.
fn push_share(text: &mut Vec<u8>, share: f64) -> Result<(), AllocError> {
    if share >= 0.99995 {
        push(text, "100")
    } else if share >= 0.0995 {
        push_number(text, rounded(share * 100.0))
    } else if share >= 0.001 {
        push_tenths(text, rounded(share * 1000.0))
    } else {
        push(text, "<0.1")
    }
}
