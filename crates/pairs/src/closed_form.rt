// The closed arm at sigma and at -sigma: v0 and w0 of both signs, and all nine of both.
ghost use Rattle.std.specs.Prelude.{◌≡◌};
ghost use Rattle.std.specs.Float.Ieee.{neg};
ghost use Rattle.coeffs.specs.ClosedForm.{closed_exps};
ghost use Rattle.coeffs.specs.Floats.{as_exps};
ghost use Rattle.pairs.specs.Private.{closed_ends, closed_with};
ghost use Rattle.pairs.specs.Floats.{as_coeffs_pair, as_ends};
ghost use Rattle.circle.specs.Floats.{as_sinc_abd};

use crate::recurrence::CoeffsPair;
use circle::kernel::SincABD;
use coeffs::closed_form::{EtMt, Exps, exps_of, nine, of_v, v_from, v0_of, w0_of};
use coeffs::width::Width;

// v0 and w0 at both signs.
#[derive(Drop)]
pub struct Ends<T> {
    pub v0: T,
    pub w0: T,
    pub v0_neg: T,
    pub w0_neg: T,
}

// v0 and w0 at sigma, with the numbers x of the exponential, and at -sigma, with y.
fn ends_of<T: Width>(sigma: T, x: Exps<T>, y: Exps<T>, small: bool) -> Ends<T>
    ensures { as_ends T.float result ≡ closed_ends T.format (T.float sigma) (as_exps T.float x)
        (as_exps T.float y) small }
{
    if small {
        let h = series::small::horner_small(sigma);
        let v = h.v0;
        let w = h.w0;
        return Ends {
            v0: x.g * v.pos,
            w0: x.g * w.pos,
            v0_neg: y.g * v.neg,
            w0_neg: y.g * w.neg,
        };
    }
    let minus = -sigma;
    Ends {
        v0: v0_of(sigma, x.g, x.m1, false),
        w0: w0_of(sigma, x.g, x.m1, false),
        v0_neg: v0_of(minus, y.g, y.m1, false),
        w0_neg: w0_of(minus, y.g, y.m1, false),
    }
}

// The same from e^t and e^t - 1 of each sign.
pub fn ends_both<T: Width>(sigma: T, x: EtMt<T>, y: EtMt<T>, small: bool) -> Ends<T>
    ensures { as_ends T.float result ≡ closed_ends T.format (T.float sigma)
        (closed_exps (T.float sigma) (T.float x.et) (T.float x.mt))
        (closed_exps (neg (T.float sigma)) (T.float y.et) (T.float y.mt)) small }
{
    let p = exps_of(sigma, x);
    let n = exps_of(-sigma, y);
    ends_of(sigma, p, n, small)
}

// All nine at sigma, from x, and at -sigma, from y, with v0 and w0 of both: the circle functions and
// the squares are shared.
#[tactic(auto, unfolding(crate::proofs::PairForms::both_forms))]
pub fn closed_both<T: Width>(
    sigma: T,
    z: T,
    t: SincABD<T>,
    x: EtMt<T>,
    y: EtMt<T>,
    h: Ends<T>,
    form_b: bool,
) -> CoeffsPair<T>
    ensures { as_coeffs_pair T.float result ≡ record {
      pos =
          closed_with T.format (T.float sigma) (T.float z) (as_sinc_abd T.float t) (T.float x.et) (T.float x.mt)
          (T.float h.v0) (T.float h.w0) form_b;
      neg = closed_with T.format (neg (T.float sigma)) (T.float z)
          (as_sinc_abd T.float t) (T.float y.et) (T.float y.mt) (T.float h.v0_neg) (T.float h.w0_neg) form_b;
    } }
{
    let minus = -sigma;
    let p = exps_of(sigma, x);
    let n = exps_of(minus, y);
    let tv = of_v(t);
    let a = v_from(sigma, z, tv, p.e, p.m1, h.v0, form_b);
    let b = v_from(minus, z, tv, n.e, n.m1, h.v0_neg, form_b);
    CoeffsPair {
        pos: nine(sigma, z, t, p.e, a, h.w0),
        neg: nine(minus, z, t, n.e, b, h.w0_neg),
    }
}
