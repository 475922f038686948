//! Numbers of 32 bits.
ghost use Rattle.std.specs.Prelude.{◌≡◌, ◌<◌, ◌^◌};

// The number; the greatest of 32 bits for a greater one.
pub(crate) fn small(number: usize) -> u32
    ensures { number < 2 ^ 32 → result ≡ number }
{
    if number < 0x1_0000_0000 {
        number as u32
    } else {
        u32::MAX
    }
}

// The same of a number of 64 bits.
pub(crate) fn small_of(number: u64) -> u32
    ensures { number < 2 ^ 32 → result ≡ number }
{
    if number < 0x1_0000_0000 {
        number as u32
    } else {
        u32::MAX
    }
}
