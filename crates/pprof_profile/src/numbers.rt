//! The numbers of messages, and the varints that they are written as.

ghost use Rattle.std.specs.Prelude.{◌≡◌, ℕ};
ghost use Rattle.std.specs.Int.{w64};
ghost use Rattle.std.specs.Int.RustNames.{FitsSigned};
ghost use Rattle.pprof_profile.specs.Writing.{FitsUnsigned, number_of_unsigned, number_of_signed, number_of_flag};
ghost use Rattle.pprof_profile.specs.Forms.{unsigned_of, signed_of, flag_of};

/// What a varint holds.
pub(crate) trait Number: Copy {
    /// What it is of the varint's number.
    ghost of: { ℕ → Self };

    /// The varint's number.
    ghost to: { Self → ℕ };

    /// What 64 bits can hold.
    ghost fits: { Self → Type 0 };

    fn from_varint(number: u64) -> Self
        ensures { result ≡ of number };

    fn to_varint(self) -> u64
        ensures number { result ≡ to self }
        ensures fits { fits self };
}

impl Number for u64 {
    ghost of = { unsigned_of };

    ghost to = { number_of_unsigned };

    ghost fits = { FitsUnsigned };

    fn from_varint(number: u64) -> u64 {
        number
    }

    fn to_varint(self) -> u64 {
        self
    }
}

impl Number for i64 {
    ghost of = { signed_of };

    ghost to = { number_of_signed };

    ghost fits = { FitsSigned w64 };

    fn from_varint(number: u64) -> i64 {
        number.cast_signed()
    }

    fn to_varint(self) -> u64 {
        self.cast_unsigned()
    }
}

impl Number for bool {
    ghost of = { flag_of };

    ghost to = { number_of_flag };

    ghost fits = { λ _. Unit {0} };

    fn from_varint(number: u64) -> bool {
        number != 0
    }

    fn to_varint(self) -> u64 {
        u64::from(self)
    }
}
