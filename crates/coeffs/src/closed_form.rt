// The closed arm: the coefficients from the circle functions and the exponential, scaled by e^-sigma where 0 < sigma,
// so that nothing overflows before the result does.
ghost use Rattle.std.specs.Prelude.{◌≡◌};
ghost use Rattle.coeffs.specs.ClosedForm.{closed_v0, closed_w0, closed_v, closed_ws, closed_dvs, closed_nine};
ghost use Rattle.coeffs.specs.ClosedForm.{closed_v_from, closed_only, closed_from, closed_exps};
ghost use Rattle.series.specs.Floats.{as_coeffs4, as_sim3_coeffs};
ghost use Rattle.coeffs.specs.Floats.{as_dvs, as_exps, as_ws};
ghost use Rattle.circle.specs.Floats.{as_sinc_a, as_sinc_abd};

use crate::width::Width;
use arms::values::at_zero;
use circle::kernel::{SincA, SincABD};
use series::sim3::{Coeffs4, Sim3Coeffs};

// v0 by its series where `small`, else m1/sigma, and 1 where sigma is a zero.
pub fn v0_of<T: Width>(sigma: T, g: T, m1: T, small: bool) -> T
    ensures { T.float result ≡ closed_v0 T.format (T.float sigma) (T.float g) (T.float m1) small }
{
    if small {
        return g * series::small::g1(sigma);
    }
    let zero = at_zero(sigma);
    let ss = ieee::pick(zero, T::of(1.0), sigma);
    ieee::pick(zero, T::of(1.0), m1 / ss)
}

// w0 by its series where `small`, else (m1 - sigma g)/sigma^2.
pub fn w0_of<T: Width>(sigma: T, g: T, m1: T, small: bool) -> T
    ensures { T.float result ≡ closed_w0 T.format (T.float sigma) (T.float g) (T.float m1) small }
{
    if small {
        return g * series::small::g2(sigma);
    }
    let ss = ieee::pick(at_zero(sigma), T::of(1.0), sigma);
    (m1 - sigma * g) / (ss * ss)
}

// v1, v2 and chi_delta from v0.
#[tactic(auto, unfolding(crate::proofs::ClosedForms::closed_forms, arms::specs::Limits::coeffs_delta))]
pub fn v_from<T: Width>(sigma: T, z: T, t: SincA<T>, e: T, m1: T, v0: T, form_b: bool) -> Coeffs4<T>
    ensures { as_coeffs4 T.float result ≡ closed_v T.format (T.float sigma) (T.float z)
        (closed_only (as_sinc_a T.float t)) (T.float e) (T.float m1) (T.float v0) form_b }
{
    let sinc = t.sinc;
    let a = t.a;
    let delta = sigma * sigma + z;
    let v2 = ((v0 + sigma * e * a) - e * sinc) / delta;
    let v1a = e * a - sigma * v2;
    let v1b = ((sigma * e * sinc - m1) + e * z * a) / delta;
    let v1 = ieee::pick(form_b, v1b, v1a);
    let chi_delta = (sigma * (sigma * v0) + e * (z * sinc)) - sigma * (e * (z * a));
    Coeffs4 {
        v0,
        v1,
        v2,
        chi_delta,
    }
}

// w1 and w2.
#[derive(Drop)]
pub struct Ws<T> {
    pub w1: T,
    pub w2: T,
}

// w1 and w2 from v1, v2 and w0.
#[tactic(auto, unfolding(crate::specs::ClosedForm::closed_ws, arms::specs::Limits::coeffs_delta))]
fn w_from<T: Width>(sigma: T, z: T, v: Coeffs4<T>, w0: T) -> Ws<T>
    ensures { as_ws T.float result ≡ closed_ws T.format (T.float sigma) (T.float z) (as_coeffs4 T.float v)
        (T.float w0) }
{
    let delta = sigma * sigma + z;
    let w2 = ((w0 + sigma * v.v2) - v.v1) / delta;
    Ws {
        w1: v.v2 - sigma * w2,
        w2,
    }
}

// The z-derivatives of v1 and v2.
#[derive(Drop)]
pub struct Dvs<T> {
    pub dv1: T,
    pub dv2: T,
}

// The derivatives from v2 and those of the circle functions.
fn dv_from<T: Width>(sigma: T, z: T, t: SincABD<T>, e: T, v2: T) -> Dvs<T>
    ensures { as_dvs T.float result ≡ closed_dvs T.format (T.float sigma) (T.float z) (as_sinc_abd T.float t)
        (T.float e) (T.float v2) }
{
    let delta = sigma * sigma + z;
    let da = -(T::of(0.5) * (t.b - T::of(2.0) * t.d));
    let dsinc = -(T::of(0.5) * (t.a - t.b));
    let dv2 = ((sigma * e * da - e * dsinc) - v2) / delta;
    Dvs {
        dv1: e * da - sigma * dv2,
        dv2,
    }
}

// All nine from v, w0 and e: w1, w2 and the derivatives are formed here.
#[tactic(auto, unfolding(crate::specs::ClosedForm::closed_joined, crate::specs::ClosedForm::closed_nine))]
pub fn nine<T: Width>(sigma: T, z: T, t: SincABD<T>, e: T, v: Coeffs4<T>, w0: T) -> Sim3Coeffs<T>
    ensures { as_sim3_coeffs T.float result ≡ closed_nine T.format (T.float sigma) (T.float z) (as_sinc_abd T.float t)
        (T.float e) (as_coeffs4 T.float v) (T.float w0) }
{
    let w = w_from(sigma, z, v, w0);
    let d = dv_from(sigma, z, t, e, v.v2);
    Sim3Coeffs {
        v0: v.v0,
        v1: v.v1,
        v2: v.v2,
        w0,
        w1: w.w1,
        w2: w.w2,
        dv1: d.dv1,
        dv2: d.dv2,
        chi_delta: v.chi_delta,
    }
}

// e^t and e^t - 1 at t = -|sigma|.
#[derive(Clone, Copy)]
pub struct EtMt<T> {
    pub et: T,
    pub mt: T,
}

// The exponential's numbers at one sign, from e^t and e^t - 1 at t = -|sigma|: e is e^sigma and m1 is
// e^sigma - 1, both scaled by e^-sigma where 0 < sigma, and g is the scale, e^-sigma or 1.
#[derive(Drop)]
pub struct Exps<T> {
    pub e: T,
    pub m1: T,
    pub g: T,
}

#[tactic(auto, unfolding(crate::specs::ClosedForm::closed_exps))]
pub fn exps_of<T: Width>(sigma: T, x: EtMt<T>) -> Exps<T>
    ensures { as_exps T.float result ≡ closed_exps (T.float sigma) (T.float x.et) (T.float x.mt) }
{
    let pos = T::of(0.0).is_below(sigma);
    Exps {
        e: ieee::pick(pos, T::of(1.0), x.et),
        m1: ieee::pick(pos, -x.mt, x.mt),
        g: ieee::pick(pos, x.et, T::of(1.0)),
    }
}

// The circle functions that v reads.
pub fn of_v<T: Width>(t: SincABD<T>) -> SincA<T>
    ensures { as_sinc_a T.float result ≡ record { sinc = T.float t.sinc; a = T.float t.a } }
{
    SincA {
        sinc: t.sinc,
        a: t.a,
    }
}

// v and chi_delta only, from the circle functions t and from e^t, e^t - 1 at t = -|sigma|. PERF (D122): it and `v_at`
// have several callers, and if they were not inlined they would receive their numbers in memory.
#[inline(always)]
#[tactic(auto, unfolding(crate::specs::ClosedForm::closed_v_from, crate::specs::ClosedForm::closed_exps))]
pub fn closed_v<T: Width>(
    sigma: T,
    z: T,
    t: SincA<T>,
    et_mt: EtMt<T>,
    form_b: bool,
    small: bool,
) -> Coeffs4<T>
    ensures { as_coeffs4 T.float result ≡ closed_v_from T.format (T.float sigma) (T.float z)
        (closed_only (as_sinc_a T.float t)) (T.float et_mt.et) (T.float et_mt.mt) form_b small }
{
    let x = exps_of(sigma, et_mt);
    let v0 = v0_of(sigma, x.g, x.m1, small);
    v_from(sigma, z, t, x.e, x.m1, v0, form_b)
}

// All nine, from the same.
#[tactic(auto, unfolding(crate::proofs::ClosedForms::closed_forms))]
pub fn closed_from<T: Width>(
    sigma: T,
    z: T,
    t: SincABD<T>,
    et_mt: EtMt<T>,
    form_b: bool,
    small: bool,
) -> Sim3Coeffs<T>
    ensures { as_sim3_coeffs T.float result ≡ closed_from T.format (T.float sigma) (T.float z) (as_sinc_abd T.float t)
        (T.float et_mt.et) (T.float et_mt.mt) form_b small }
{
    let v = closed_v(sigma, z, of_v(t), et_mt, form_b, small);
    let x = exps_of(sigma, et_mt);
    let w0 = w0_of(sigma, x.g, x.m1, small);
    nine(sigma, z, t, x.e, v, w0)
}
