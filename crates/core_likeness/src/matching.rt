//! Whether lists have the same elements, in whatever order.
ghost use Rattle.std.specs.Prelude.{◌≡◌, ◌<◌, true, length, slice_index, IfSome};
ghost use Rattle.alike_cores.specs.Mixed.{Mixed};

// The place of the number.
fn place_of(numbers: &[u64], number: u64) -> Option<usize>
    ensures { IfSome result (λ at.
        (at < length numbers.now) × (slice_index numbers.now at ≡ number)) }
{
    for (at, one) in numbers.iter().enumerate() {
        if *one == number {
            return Some(at);
        }
    }
    None
}

// Whether the second list has the numbers of the first, each as often.
pub(crate) fn are_mixed(one: &[u64], mut other: Vec<u64>) -> bool
    ensures { result ≡ true → Mixed one.now other.items }
{
    for number in one {
        match place_of(&other, *number) {
            Some(at) => {
                other.remove(at);
            }
            None => return false,
        }
    }
    other.is_empty()
}
