// Structures whose numbers a list can hold. `put` tests a list's length, so only this crate can name the trait.
ghost use Rattle.std.specs.Prelude.{◌≡◌, ℕ, List, Float, length};

use ieee::Real;

// A structure of a fixed number of numbers, in the order in which a list holds them.
pub trait ToNumbers<T: Real>: Drop {
    const COUNT: usize;

    ghost COUNT: { ℕ };

    ghost numbers: { Self → List Float };

    fn to_numbers(self, out: &mut [T])
        requires { length out.old ≡ COUNT }
        ensures { T.floats out.new ≡ numbers self };

    ghost count_law: { (x : Self) → length (numbers x) ≡ COUNT };
}
