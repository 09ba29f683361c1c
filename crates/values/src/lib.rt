// Signed numbers and floats, and the unsigned numbers that stand for them on the wire.
#![tactic(auto)]

ghost use Rattle.std.specs.Prelude.{◌≡◌};
ghost use Rattle.std.specs.Float.{binary32};
ghost use Rattle.std.specs.Float.Ieee.{of_bits, to_bits};
ghost use Rattle.std.specs.Int.{w16, w32, w64};
ghost use Rattle.std.proofs.Common.{to_z, of_z};

// A number by its bits: which number an unsigned one of its width stands for, and back.
pub trait Bits: Copy {
    type Unsigned;

    ghost of_bits: { Self.Unsigned → Self };

    ghost bits: { Self → Self.Unsigned };

    fn of_bits(n: Self::Unsigned) -> Self
        ensures { result ≡ of_bits n };

    fn bits(self) -> Self::Unsigned
        ensures { result ≡ bits self };
}

// An impl for each type, since `rt ci` refuses an impl that a macro of the repository writes.
impl Bits for i16 {
    type Unsigned = u16;

    ghost of_bits = { to_z w16 };

    ghost bits = { of_z w16 };

    fn of_bits(n: u16) -> i16 {
        n.cast_signed()
    }

    fn bits(self) -> u16 {
        self.cast_unsigned()
    }
}

impl Bits for i32 {
    type Unsigned = u32;

    ghost of_bits = { to_z w32 };

    ghost bits = { of_z w32 };

    fn of_bits(n: u32) -> i32 {
        n.cast_signed()
    }

    fn bits(self) -> u32 {
        self.cast_unsigned()
    }
}

impl Bits for i64 {
    type Unsigned = u64;

    ghost of_bits = { to_z w64 };

    ghost bits = { of_z w64 };

    fn of_bits(n: u64) -> i64 {
        n.cast_signed()
    }

    fn bits(self) -> u64 {
        self.cast_unsigned()
    }
}

// `from_bits` and `to_bits` are undefined at a NaN, so it is tested for first. Every NaN pattern reads as the one NaN.
impl Bits for f32 {
    type Unsigned = u32;

    ghost of_bits = { of_bits binary32 };

    ghost bits = { to_bits binary32 };

    #[tactic(auto, using(crate::proofs::Values::pattern_no_nan, crate::proofs::Values::pattern_nan))]
    fn of_bits(n: u32) -> f32 {
        if n % 2147483648 > 2139095040 {
            f32::NAN
        } else {
            f32::from_bits(n)
        }
    }

    #[tactic(auto, using(crate::proofs::Values::is_nan_lem, crate::proofs::Values::nan_bits_lem))]
    fn bits(self) -> u32 {
        if self.is_nan() {
            2143289344
        } else {
            self.to_bits()
        }
    }
}
