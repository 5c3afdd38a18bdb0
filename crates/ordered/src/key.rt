//! A key, and which of two stands first. Whoever has a set implements `Key` for what it keeps.
//! The order tells any two different keys apart: a number that no other key has comes last in it. Of a key of several numbers
//! `proofs/ByNumbers.antt` makes the order from that of the numbers.
ghost use Rattle.std.specs.Prelude.{◌≡◌, Bool};
ghost use Rattle.ordered.specs.Orders.{IsStrictOrder};

/// What an `Ordered` keeps in order: small values that are copied.
pub trait Key: Copy {
    /// Whether one stands before another.
    ghost before: { Self → Self → Bool };

    /// Whether it stands before another.
    fn is_before(&self, other: &Self) -> bool
        ensures answer { result ≡ before self.now other.now };

    /// Of two different keys exactly one stands first, and it passes on.
    ghost order: { IsStrictOrder before };
}
