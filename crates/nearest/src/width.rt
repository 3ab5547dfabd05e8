// What depends on the width of the numbers: how many patterns the finite values from +0 up have, and the conversions
// from a value to its pattern and back.
ghost use Rattle.std.specs.Prelude.{◌≡◌, ◌<◌};
ghost use Rattle.std.specs.Float.Ieee.{of_bits, to_bits};
ghost use Rattle.ieee.specs.Patterns.{patterns};

use arms::limits::Arms;
use ieee::Real;

// Numbers whose neighbours can be counted: their patterns as whole numbers of one width.
pub trait Neighbours: Arms {
    // The pattern of +infinity: those of the finite values from +0 up are the numbers below it.
    fn end() -> u64
        ensures { result ≡ patterns Self.format };

    // The number's pattern.
    fn place(self) -> u64
        ensures { result ≡ to_bits Self.format (Self.float self) };

    // The value with the pattern p, where p is that of a finite value from +0 up.
    fn value(p: u64) -> Self
        ensures { p < patterns Self.format → Self.float result ≡ of_bits Self.format p };
}

impl Neighbours for f64 {
    fn end() -> u64 {
        0x7ff0_0000_0000_0000
    }

    fn place(self) -> u64 {
        self.pattern()
    }

    fn value(p: u64) -> f64 {
        f64::from_pattern(p)
    }
}

impl Neighbours for f32 {
    fn end() -> u64 {
        0x7f80_0000
    }

    fn place(self) -> u64 {
        self.pattern() as u64
    }

    fn value(p: u64) -> f32 {
        f32::from_pattern((p % 0x1_0000_0000) as u32)
    }
}
