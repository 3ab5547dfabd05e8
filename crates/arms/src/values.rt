// The function values that the caller passes, and those of the negative tangent.
ghost use Rattle.std.specs.Prelude.{◌≡◌};
ghost use Rattle.arms.specs.Values.{at_zero, mirrored};
ghost use Rattle.arms.specs.Floats.{as_values};

use ieee::Real;

// Any ten numbers. A host passes the root of z, sine and cosine of half the root, the sine of the root, e^t and e^t - 1
// at t = -|sigma| (t = sigma where sigma is a zero or a NaN), the same two at -sigma (read only where sigma is a zero),
// e^sigma and e^-sigma.
#[derive(Clone, Copy)]
pub struct Values<T> {
    pub root: T,
    pub sin_half: T,
    pub cos_half: T,
    pub sin: T,
    pub e: T,
    pub m: T,
    pub e0: T,
    pub m0: T,
    pub up: T,
    pub down: T,
}

// Whether sigma is +0 or -0. PERF (D122): one `==`, since `<=` of a type parameter calls std's three-way comparison,
// which the compiler does not turn back into one comparison.
pub fn at_zero<T: Real>(sigma: T) -> bool
    ensures { result ≡ at_zero (T.float sigma) }
{
    sigma == T::of(0.0)
}

impl<T: Real> Values<T> {
    // The values of the negative tangent, the scope's mirrored values: up and down change places, and where sigma is a
    // zero so do e and e0, m and m0.
    #[tactic(auto, unfolding(crate::specs::Values::mirrored))]
    pub fn mirrored(self, sigma: T) -> Values<T>
        ensures { as_values T.float result ≡ mirrored (T.float sigma) (as_values T.float self) }
    {
        let zero = at_zero(sigma);
        Values {
            e: ieee::pick(zero, self.e0, self.e),
            m: ieee::pick(zero, self.m0, self.m),
            e0: ieee::pick(zero, self.e, self.e0),
            m0: ieee::pick(zero, self.m, self.m0),
            up: self.down,
            down: self.up,
            ..self
        }
    }
}
