//! Numbers in texts that are played.

/// The number that these digits spell, at most 4,294,967,295. `None` for any other word. It stands in
/// the place of std's `parse`, whose proof takes minutes in each crate that calls it.
pub fn decimal(word: &str) -> Option<u32> {
    if word.is_empty() {
        return None;
    }
    let mut number: u32 = 0;
    for byte in word.as_bytes() {
        let digit = byte.checked_sub(b'0')?;
        if 9 < digit {
            return None;
        }
        number = number.checked_mul(10)?.checked_add(u32::from(digit))?;
    }
    Some(number)
}
