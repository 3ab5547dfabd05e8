// A byte as a number of either width, which holds it exactly.
ghost use Rattle.std.specs.Prelude.{◌≡◌, pos};
ghost use Rattle.std.specs.Float.Ieee.{of_int};

use ieee::Real;

pub trait Whole: Real {
    fn of_byte(n: u8) -> Self
        ensures { Self.float result ≡ of_int Self.format (pos n) };
}

impl Whole for f64 {
    fn of_byte(n: u8) -> f64 {
        n as f64
    }
}

impl Whole for f32 {
    fn of_byte(n: u8) -> f32 {
        n as f32
    }
}
