//! Values as words for C.
ghost use Rattle.std.specs.Prelude.{◌≡◌};

/// The words that are written for a value.
pub(crate) trait Encode<T>: Copy {
    ghost encoded: { T → Self };

    /// The words of the value.
    fn encode(value: T) -> Self
        ensures { result ≡ encoded value };
}

impl Encode<u8> for u8 {
    ghost encoded = { λ b. b };

    fn encode(value: u8) -> u8 {
        value
    }
}
