// The coefficients at sigma and at -sigma: with the arm, and scaled. Each finds the arm once.
ghost use Rattle.std.specs.Prelude.{◌≡◌};
ghost use Rattle.linalg.specs.Vector.{vec_norm_sq};
ghost use Rattle.linalg.specs.Answer.{view};
ghost use Rattle.coeffs.specs.Floats.{as_et_mt, as_scaled};
ghost use Rattle.pairs.specs.Group.{coeffs_pair, coeffs_armed_pair};
ghost use Rattle.pairs.specs.Private.{minus_et_mt, pair_ends, closed_pair, series_arms};
ghost use Rattle.pairs.specs.Entries.{pair_answer, armed_pair_answer};
ghost use Rattle.pairs.specs.Floats.{as_armed_pair, as_ends, as_scaled_pair};
ghost use Rattle.circle.specs.Floats.{as_sinc_abd};
ghost use Rattle.linalg.specs.Floats.{as_vec3};
ghost use Rattle.arms.specs.Arm.{arm_number, series_number};
ghost use Rattle.arms.specs.Floats.{as_values};

use crate::closed_form::{Ends, closed_both, ends_both};
use crate::recurrence::series_pair_at;
use arms::limits::{Arm, SeriesArm, on_form_b, w0_small};
use arms::values::{Values, at_zero};
use circle::kernel::{SincABD, five_group, unless_negative};
use coeffs::closed_form::EtMt;
use coeffs::sim3::{Armed, Scaled, at_plus};
use coeffs::width::Width;
use linalg::refusal::Refusal;
use linalg::vector::Vec3;
use series::count::Count;
use series::sim3::{Signs, Sim3Coeffs};

// The coefficients at sigma and at -sigma.
pub type ScaledPair<T> = Signs<Scaled<Sim3Coeffs<T>>>;

// The same with the arms.
pub type ArmedPair<T> = Signs<Armed<T>>;

// ---- at any z: the results where the public functions do not refuse

// e^t and e^t - 1 of the values at -sigma.
#[tactic(auto, unfolding(crate::specs::Private::minus_et_mt))]
fn at_minus<T: Width>(sigma: T, v: Values<T>) -> EtMt<T>
    ensures { as_et_mt T.float result ≡ minus_et_mt (T.float sigma) (as_values T.float v) }
{
    let zero = at_zero(sigma);
    EtMt {
        et: ieee::pick(zero, v.e0, v.e),
        mt: ieee::pick(zero, v.m0, v.m),
    }
}

// v0 and w0 of the closed arm at sigma and at -sigma, by their series where `small`.
#[tactic(auto, unfolding(crate::specs::Private::pair_ends))]
fn pair_ends<T: Width>(sigma: T, small: bool, v: Values<T>) -> Ends<T>
    ensures { as_ends T.float result ≡ pair_ends T.format (T.float sigma) small (as_values T.float v) }
{
    ends_both(sigma, at_plus(v), at_minus(sigma, v), small)
}

// The closed arm at sigma and at -sigma, from the same circle functions t and from v0 and w0 of
// both: delta and form b are even in sigma.
#[tactic(auto, unfolding(crate::specs::Private::closed_pair))]
fn closed_pair<T: Width>(
    sigma: T,
    z: T,
    delta: T,
    h: Ends<T>,
    t: SincABD<T>,
    v: Values<T>,
) -> ScaledPair<T>
    ensures { as_scaled_pair T.float result ≡ closed_pair T.format (T.float sigma) (T.float z) (T.float delta)
        (as_ends T.float h) (as_sinc_abd T.float t) (as_values T.float v) }
{
    let c = closed_both(
        sigma,
        z,
        t,
        at_plus(v),
        at_minus(sigma, v),
        h,
        on_form_b(delta),
    );
    let a = c.pos;
    let b = c.neg;
    Signs {
        pos: Scaled {
            c: a,
            scaled: T::of(0.0).is_below(sigma),
        },
        neg: Scaled {
            c: b,
            scaled: T::of(0.0).is_below(-sigma),
        },
    }
}

// f of the value at sigma, and of the value at -sigma.
fn each_sign<X: Copy, Y: Copy, F: Fn(X) -> Y>(p: Signs<X>, f: F) -> Signs<Y>
    requires { F.IsAlwaysCallable f }
    ensures { F.post f p.pos result.pos × F.post f p.neg result.neg }
{
    Signs {
        pos: f(p.pos),
        neg: f(p.neg),
    }
}

// Both signs by a series arm.
#[tactic(auto, unfolding(coeffs::specs::Private::series_arm, crate::specs::Private::series_arms))]
fn pair_by_series<T: Width>(sigma: T, z: T, arm: SeriesArm) -> ScaledPair<T>
    ensures { as_scaled_pair T.float result ≡ series_arms T.format (T.float sigma) (T.float z) (series_number arm) }
{
    let terms = T::arm_terms(arm);
    let p = series_pair_at(sigma, z, Count { terms });
    each_sign(p, |c| Scaled { c, scaled: false })
}

// Both signs with the arm, which is even in sigma.
fn with_arm<T: Width>(p: ScaledPair<T>, arm: Arm, ends: bool) -> ArmedPair<T>
    ensures { as_armed_pair T.float result
        ≡ record {
          pos = record { s = as_scaled T.float p.pos; arm = arm_number arm; ends = ends };
          neg =
              record { s = as_scaled T.float p.neg; arm = arm_number arm; ends = ends };
        } }
{
    each_sign(p, |s| Armed { s, arm, ends })
}

// `sim3_coeffs_armed_pair` at any z.
fn armed_pair_at<T: Width>(sigma: T, z: T, v: Values<T>) -> ArmedPair<T>
    ensures { as_armed_pair T.float result ≡ coeffs_armed_pair T.format (T.float sigma) (T.float z)
        (as_values T.float v) }
{
    let delta = sigma * sigma + z;
    let arm = Arm::at(delta);
    match arm {
        Arm::Series(by) => with_arm(pair_by_series(sigma, z, by), arm, false),
        Arm::Closed => {
            let ends = w0_small(sigma);
            let h = pair_ends(sigma, ends, v);
            let t = five_group(z, v.root, v.sin_half, v.cos_half, v.sin);
            with_arm(closed_pair(sigma, z, delta, h, t, v), arm, ends)
        }
    }
}

// ---- at z = theta^2, refusal 1 for z < 0

// sim3_coeffs_armed at sigma and at -sigma, the latter on the mirrored values, each to the bit: the
// arm, the circle functions, the exponential's values and the recurrence are shared.
pub fn sim3_coeffs_armed_pair<T: Width>(
    sigma: T,
    z: T,
    v: Values<T>,
) -> Result<ArmedPair<T>, Refusal>
    ensures { view (as_armed_pair T.float) result ≡ armed_pair_answer T.format (T.float sigma) (T.float z)
        (as_values T.float v) }
{
    unless_negative(z)?;
    Ok(armed_pair_at(sigma, z, v))
}

// sim3_coeffs_scaled at sigma and at -sigma, each to the bit: the armed pair without its arms. So a library has the
// pair's code once, and the closed arm's numbers are stored once: with its own callers, closed_pair would be a call,
// whose result is copied.
#[tactic(auto, unfolding(crate::proofs::PairForms::pair_answers))]
pub fn sim3_coeffs_scaled_pair<T: Width>(
    sigma: T,
    z: T,
    v: Values<T>,
) -> Result<ScaledPair<T>, Refusal>
    ensures { view (as_scaled_pair T.float) result ≡ pair_answer T.format (T.float sigma) (T.float z)
        (as_values T.float v) }
{
    let p = sim3_coeffs_armed_pair(sigma, z, v)?;
    Ok(each_sign(p, |a| a.s))
}

// ---- at z = |phi|^2, which is never below zero: nothing is refused

// sim3_coeffs_armed_pair at |phi|^2.
pub fn sim3_coeffs_armed_pair_of<T: Width>(phi: Vec3<T>, sigma: T, v: Values<T>) -> ArmedPair<T>
    ensures { as_armed_pair T.float result ≡ coeffs_armed_pair T.format (T.float sigma)
        (vec_norm_sq T.format (as_vec3 T.float phi)) (as_values T.float v) }
{
    armed_pair_at(sigma, phi.norm_sq(), v)
}

// sim3_coeffs_scaled_pair at |phi|^2.
#[tactic(auto, unfolding(crate::proofs::PairForms::armed_forms))]
pub fn sim3_coeffs_scaled_pair_of<T: Width>(phi: Vec3<T>, sigma: T, v: Values<T>) -> ScaledPair<T>
    ensures { as_scaled_pair T.float result ≡ coeffs_pair T.format (T.float sigma)
        (vec_norm_sq T.format (as_vec3 T.float phi)) (as_values T.float v) }
{
    each_sign(sim3_coeffs_armed_pair_of(phi, sigma, v), |a| a.s)
}
