// The public functions of the coefficient group: scaled, with the arm, unscaled, and v alone. Each finds the arm once.
ghost use Rattle.std.specs.Prelude.{◌≡◌};
ghost use Rattle.linalg.specs.Vector.{vec_norm_sq};
ghost use Rattle.coeffs.specs.Group.{coeffs_scaled, coeffs_unscale, coeffs_unscale_v, coeffs_unscaled, coeffs_v_scaled};
ghost use Rattle.coeffs.specs.Group.{coeffs_v, coeffs_armed};
ghost use Rattle.coeffs.specs.Private.{closed_one, series_arm};
ghost use Rattle.coeffs.specs.Entries.{scaled_answer, coeffs_answer, v_answer, v_scaled_answer, armed_answer};
ghost use Rattle.linalg.specs.Answer.{view};
ghost use Rattle.series.specs.Floats.{as_coeffs4, as_sim3_coeffs};
ghost use Rattle.coeffs.specs.Floats.{as_armed, as_et_mt, as_scaled, as_v_scaled};
ghost use Rattle.circle.specs.Floats.{as_sinc_abd};
ghost use Rattle.linalg.specs.Floats.{as_vec3};
ghost use Rattle.arms.specs.Arm.{arm_number, series_number};
ghost use Rattle.arms.specs.Floats.{as_values};

use crate::closed_form::{EtMt, closed_from, closed_v};
use crate::width::Width;
use arms::limits::{Arm, SeriesArm, on_form_b, w0_small};
use arms::values::Values;
use circle::kernel::{SincABD, five_group, two_group, unless_negative};
use linalg::refusal::Refusal;
use linalg::vector::Vec3;
use series::count::Count;
use series::sim3::{Coeffs4, Sim3Coeffs, series_at, series_v_at};

// Coefficients as their arm forms them: scaled by e^-sigma if `scaled`.
#[derive(Clone, Copy)]
pub struct Scaled<C> {
    pub c: C,
    pub scaled: bool,
}

// v and chi_delta only, as their arm forms them.
pub type VScaled<T> = Scaled<Coeffs4<T>>;

// The coefficients with the arm that formed them; `ends` says whether v0 and w0 of the closed arm come from their own
// series.
#[derive(Clone, Copy)]
pub struct Armed<T> {
    pub s: Scaled<Sim3Coeffs<T>>,
    pub arm: Arm,
    pub ends: bool,
}

impl<T: Width> Scaled<Sim3Coeffs<T>> {
    // The coefficients times up where scaled, times 1 elsewhere: the last step of the scaled form.
    #[tactic(auto, unfolding(crate::specs::Group::coeffs_unscale))]
    pub fn unscale(self, up: T) -> Sim3Coeffs<T>
        ensures { as_sim3_coeffs T.float result ≡ coeffs_unscale T.format (as_sim3_coeffs T.float self.c)
            (T.float up) self.scaled }
    {
        let s = ieee::pick(self.scaled, up, T::of(1.0));
        let c = self.c;
        Sim3Coeffs {
            v0: s * c.v0,
            v1: s * c.v1,
            v2: s * c.v2,
            w0: s * c.w0,
            w1: s * c.w1,
            w2: s * c.w2,
            dv1: s * c.dv1,
            dv2: s * c.dv2,
            chi_delta: s * c.chi_delta,
        }
    }
}

impl<T: Width> Scaled<Coeffs4<T>> {
    // The same for v and chi_delta only.
    #[tactic(auto, unfolding(crate::specs::Group::coeffs_unscale_v))]
    fn unscale_v(self, up: T) -> Coeffs4<T>
        ensures { as_coeffs4 T.float result ≡ coeffs_unscale_v T.format (as_coeffs4 T.float self.c)
            (T.float up) self.scaled }
    {
        let s = ieee::pick(self.scaled, up, T::of(1.0));
        let c = self.c;
        Coeffs4 {
            v0: s * c.v0,
            v1: s * c.v1,
            v2: s * c.v2,
            chi_delta: s * c.chi_delta,
        }
    }
}

// ---- at any z: the results where the public functions do not refuse

// The coefficients by a series arm.
#[tactic(auto, unfolding(crate::specs::Private::series_arm))]
fn by_series<T: Width>(sigma: T, z: T, arm: SeriesArm) -> Scaled<Sim3Coeffs<T>>
    ensures { as_scaled T.float result ≡ series_arm T.format (T.float sigma) (T.float z) (series_number arm) }
{
    Scaled {
        c: series_at(
            sigma,
            z,
            Count {
                terms: T::arm_terms(arm),
            },
        ),
        scaled: false,
    }
}

// The coefficients by the closed arm from the circle functions t, with v0 and w0 by their series where `small`.
#[tactic(auto, unfolding(crate::specs::Private::closed_one))]
fn closed_one<T: Width>(
    sigma: T,
    z: T,
    delta: T,
    small: bool,
    t: SincABD<T>,
    v: Values<T>,
) -> Scaled<Sim3Coeffs<T>>
    ensures { as_scaled T.float result ≡ closed_one T.format (T.float sigma) (T.float z) (T.float delta) small
        (as_sinc_abd T.float t) (as_values T.float v) }
{
    Scaled {
        c: closed_from(sigma, z, t, at_plus(v), on_form_b(delta), small),
        scaled: T::of(0.0).is_below(sigma),
    }
}

// `sim3_coeffs_armed` at any z.
fn armed_at<T: Width>(sigma: T, z: T, v: Values<T>) -> Armed<T>
    ensures { as_armed T.float result ≡ coeffs_armed T.format (T.float sigma) (T.float z) (as_values T.float v) }
{
    let delta = sigma * sigma + z;
    let arm = Arm::at(delta);
    match arm {
        Arm::Series(by) => Armed {
            s: by_series(sigma, z, by),
            arm,
            ends: false,
        },
        Arm::Closed => {
            let t = five_group(z, v.root, v.sin_half, v.cos_half, v.sin);
            let ends = w0_small(sigma);
            let s = closed_one(sigma, z, delta, ends, t, v);
            Armed { s, arm, ends }
        }
    }
}

// `sim3_v_scaled` at any z. PERF (D122): see `closed_v`.
#[inline(always)]
fn v_at<T: Width>(sigma: T, z: T, v: Values<T>) -> VScaled<T>
    ensures { as_v_scaled T.float result ≡ coeffs_v_scaled T.format (T.float sigma) (T.float z) (as_values T.float v) }
{
    let delta = sigma * sigma + z;
    match Arm::at(delta) {
        Arm::Series(by) => Scaled {
            c: series_v_at(
                sigma,
                z,
                Count {
                    terms: T::arm_terms(by),
                },
            ),
            scaled: false,
        },
        Arm::Closed => {
            let t = two_group(z, v.root, v.sin_half, v.cos_half);
            let c = closed_v(sigma, z, t, at_plus(v), on_form_b(delta), w0_small(sigma));
            Scaled {
                c,
                scaled: T::of(0.0).is_below(sigma),
            }
        }
    }
}

// e^t and e^t - 1 of the values at sigma.
pub fn at_plus<T: Width>(v: Values<T>) -> EtMt<T>
    ensures { as_et_mt T.float result ≡ record { et = T.float v.e; mt = T.float v.m } }
{
    EtMt { et: v.e, mt: v.m }
}

// ---- at z = theta^2, refusal 1 for z < 0

// The coefficients at (sigma, z) with the arm.
#[tactic(auto, unfolding(crate::specs::Entries::armed_answer))]
pub fn sim3_coeffs_armed<T: Width>(sigma: T, z: T, v: Values<T>) -> Result<Armed<T>, Refusal>
    ensures { view (as_armed T.float) result ≡ armed_answer T.format (T.float sigma) (T.float z) (as_values T.float v) }
{
    unless_negative(z)?;
    Ok(armed_at(sigma, z, v))
}

// The coefficients at (sigma, z) and whether they are scaled: sim3_coeffs_armed without its arm.
#[tactic(auto, unfolding(crate::proofs::GroupForms::entry_answers))]
pub fn sim3_coeffs_scaled<T: Width>(
    sigma: T,
    z: T,
    v: Values<T>,
) -> Result<Scaled<Sim3Coeffs<T>>, Refusal>
    ensures { view (as_scaled T.float) result ≡ scaled_answer T.format (T.float sigma) (T.float z)
        (as_values T.float v) }
{
    Ok(sim3_coeffs_armed(sigma, z, v)?.s)
}

// The coefficients at (sigma, z), unscaled.
#[tactic(auto, unfolding(crate::proofs::Unfolds::sim3_coeffs_unfolds))]
pub fn sim3_coeffs<T: Width>(sigma: T, z: T, v: Values<T>) -> Result<Sim3Coeffs<T>, Refusal>
    ensures { view (as_sim3_coeffs T.float) result ≡ coeffs_answer T.format (T.float sigma) (T.float z)
        (as_values T.float v) }
{
    let s = sim3_coeffs_scaled(sigma, z, v)?;
    Ok(s.unscale(v.up))
}

// v and chi_delta of sim3_coeffs_scaled only: the same bits. PERF (D122): a separate call would copy the ten values.
#[inline(always)]
#[tactic(auto, unfolding(crate::specs::Entries::v_scaled_answer))]
pub fn sim3_v_scaled<T: Width>(sigma: T, z: T, v: Values<T>) -> Result<VScaled<T>, Refusal>
    ensures { view (as_v_scaled T.float) result ≡ v_scaled_answer T.format (T.float sigma) (T.float z)
        (as_values T.float v) }
{
    unless_negative(z)?;
    Ok(v_at(sigma, z, v))
}

// v and chi_delta of sim3_coeffs only: the same bits.
pub fn sim3_v<T: Width>(sigma: T, z: T, v: Values<T>) -> Result<Coeffs4<T>, Refusal>
    ensures { view (as_coeffs4 T.float) result ≡ v_answer T.format (T.float sigma) (T.float z) (as_values T.float v) }
{
    let s = sim3_v_scaled(sigma, z, v)?;
    Ok(s.unscale_v(v.up))
}

// ---- at z = |phi|^2, which is never below zero: nothing is refused

// sim3_coeffs_scaled at |phi|^2.
#[tactic(auto, unfolding(crate::specs::Group::coeffs_armed))]
pub fn sim3_coeffs_scaled_of<T: Width>(
    phi: Vec3<T>,
    sigma: T,
    v: Values<T>,
) -> Scaled<Sim3Coeffs<T>>
    ensures { as_scaled T.float result ≡ coeffs_scaled T.format (T.float sigma)
        (vec_norm_sq T.format (as_vec3 T.float phi)) (as_values T.float v) }
{
    armed_at(sigma, phi.norm_sq(), v).s
}

// sim3_coeffs at |phi|^2.
#[tactic(auto, unfolding(crate::specs::Group::coeffs_unscaled))]
pub fn sim3_coeffs_of<T: Width>(phi: Vec3<T>, sigma: T, v: Values<T>) -> Sim3Coeffs<T>
    ensures { as_sim3_coeffs T.float result ≡ coeffs_unscaled T.format (T.float sigma)
        (vec_norm_sq T.format (as_vec3 T.float phi)) (as_values T.float v) }
{
    sim3_coeffs_scaled_of(phi, sigma, v).unscale(v.up)
}

// sim3_v at |phi|^2.
#[tactic(auto, unfolding(crate::proofs::GroupForms::unscaled_forms))]
pub fn sim3_v_of<T: Width>(phi: Vec3<T>, sigma: T, v: Values<T>) -> Coeffs4<T>
    ensures { as_coeffs4 T.float result ≡ coeffs_v T.format (T.float sigma) (vec_norm_sq T.format (as_vec3 T.float phi))
        (as_values T.float v) }
{
    v_at(sigma, phi.norm_sq(), v).unscale_v(v.up)
}
