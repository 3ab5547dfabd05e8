// The exact arms, the series arms and the two groups, at a squared angle z = x^2. The caller passes its root x, the
// sine and cosine of x/2 and the sine of x. A NaN is below no limit, so it takes the exact arms.
ghost use Rattle.std.specs.Prelude.{◌≡◌, cond, not, ◌≤◌, map};
ghost use Rattle.std.specs.Float.Ieee.{lt};
ghost use Rattle.ieee.specs.Numbers.{f0};
ghost use Rattle.linalg.specs.Vector.{vec_norm_sq};
ghost use Rattle.tables.specs.Tables.{b_row};
ghost use Rattle.tables.specs.Rows.{row_named};
ghost use Rattle.circle.specs.Limits.{row_limit};
ghost use Rattle.circle.specs.Kernel.{horner_sum, row_series, row_whole, row_own, exact_a, exact_b, exact_d, sinc_from};
ghost use Rattle.circle.specs.Kernel.{circle_exp, circle_sinc_abd, circle_sinc_a, circle_exp_answer};
ghost use Rattle.circle.specs.Kernel.{circle_sinc_answer, circle_sinc_abd_answer, circle_sinc_a_answer, not_below_zero};
ghost use Rattle.linalg.specs.Answer.{answer, view};
ghost use Rattle.circle.specs.Private.{asked_of};
ghost use Rattle.circle.specs.Floats.{as_exp_coeffs, as_sinc_a, as_sinc_abd};
ghost use Rattle.linalg.specs.Floats.{as_vec3};

use crate::row_limits::Limits;
use linalg::refusal::Refusal;
use linalg::vector::Vec3;
use tables::Row;

// sin(x/2)/x and cos(x/2): the exponential's quaternion is (cos_half, k phi).
#[derive(Drop)]
pub struct ExpCoeffs<T> {
    pub k: T,
    pub cos_half: T,
}

// (1 - cos x)/x^2, (x - sin x)/x^3, sin x/x, (x^2/2 - 1 + cos x)/x^4. PERF (D122): a and b are adjacent because the
// compiler forms and stores them as one vector: in another order they are read as halves of other vectors and have to
// wait for the store.
#[derive(Clone, Copy)]
pub struct SincABD<T> {
    pub a: T,
    pub b: T,
    pub sinc: T,
    pub d: T,
}

// sin x/x and (1 - cos x)/x^2 alone.
#[derive(Clone, Copy)]
pub struct SincA<T> {
    pub sinc: T,
    pub a: T,
}

// The sum of t_j z^j as p_j = t_j + z p_(j+1). It starts at the last term itself: that term plus
// z * 0 would differ where z is infinite or a NaN.
fn horner<T: Limits>(t: &[T], z: T) -> T
    ensures { T.float result ≡ horner_sum T.format (T.float z) (map T.float t.now) }
{
    let Some((last, rest)) = t.split_last() else {
        return T::of(0.0);
    };
    let mut p = *last;
    for c in rest.iter().rev() {
        p = *c + z * p;
    }
    p
}

// The first n terms of a row.
fn series<T: Limits>(row: Row, n: usize, z: T) -> T
    requires { n ≤ 16 }
    ensures { T.float result ≡ row_series T.format (row_named row) n (T.float z) }
{
    let t = T::table(row);
    horner(&t[..n], z)
}

// The whole arm of a row.
#[tactic(auto, unfolding(crate::specs::Kernel::row_whole))]
fn whole<T: Limits>(row: Row, z: T) -> T
    ensures { T.float result ≡ row_whole T.format (row_named row) (T.float z) }
{
    series(row, T::terms(row), z)
}

// Refusal 1 for a squared angle below zero, which -0 and NaN are not.
pub fn unless_negative<T: Limits>(z: T) -> Result<(), Refusal>
    ensures { answer result ≡ not_below_zero (T.float z) tt }
{
    if z.is_below(T::of(0.0)) {
        return Err(Refusal::NegativeAngle);
    }
    Ok(())
}

// A member above its group's short limit: its whole arm below its limit, else `exact`.
#[tactic(auto, unfolding(crate::specs::Kernel::row_own))]
fn own_arm<T: Limits>(row: Row, z: T, exact: T) -> T
    ensures { T.float result ≡ row_own T.format (row_named row) (T.float z) (T.float exact) }
{
    if z.is_below(T::below(row)) {
        whole(row, z)
    } else {
        exact
    }
}

// The group of k and cos_half. The limit of cos_half is the lesser, so below it both are on their series and no exact
// form is computed.
fn exp_group<T: Limits>(z: T, root: T, sin_half: T, cos_half: T) -> ExpCoeffs<T>
    ensures { as_exp_coeffs T.float result ≡ circle_exp T.format (T.float z) (T.float root) (T.float sin_half)
        (T.float cos_half) }
{
    if z.is_below(T::exp_short_below()) {
        let n = T::short_terms();
        return ExpCoeffs {
            k: series(Row::K, n, z),
            cos_half: series(Row::CosHalf, n, z),
        };
    }
    if z.is_below(T::below(Row::CosHalf)) {
        return ExpCoeffs {
            k: whole(Row::K, z),
            cos_half: whole(Row::CosHalf, z),
        };
    }
    ExpCoeffs {
        k: own_arm(Row::K, z, sin_half / root),
        cos_half,
    }
}

// (k, cos(x/2)) at x^2 = z; refusal 1 for z below zero.
#[tactic(auto, unfolding(crate::specs::Kernel::circle_exp_answer))]
pub fn exp_coeffs<T: Limits>(
    z: T,
    root: T,
    sin_half: T,
    cos_half: T,
) -> Result<ExpCoeffs<T>, Refusal>
    ensures { view (as_exp_coeffs T.float) result ≡ circle_exp_answer T.format (T.float z) (T.float root)
        (T.float sin_half) (T.float cos_half) }
{
    unless_negative(z)?;
    Ok(exp_group(z, root, sin_half, cos_half))
}

// (k, cos(x/2)) of a rotation vector: z is its squared norm, which is never below zero.
pub fn exp_coeffs_of<T: Limits>(phi: Vec3<T>, root: T, sin_half: T, cos_half: T) -> ExpCoeffs<T>
    ensures { as_exp_coeffs T.float result ≡ circle_exp T.format (vec_norm_sq T.format (as_vec3 T.float phi))
        (T.float root) (T.float sin_half) (T.float cos_half) }
{
    exp_group(phi.norm_sq(), root, sin_half, cos_half)
}

// sin x/x at x^2 = z, 2 k cos(x/2) of `exp_coeffs`; refusal 1 for z below zero.
#[tactic(auto, unfolding(crate::specs::Kernel::circle_sinc_answer, crate::specs::Kernel::circle_sinc))]
pub fn sinc_value<T: Limits>(z: T, root: T, sin_half: T, cos_half: T) -> Result<T, Refusal>
    ensures { view T.float result ≡ circle_sinc_answer T.format (T.float z) (T.float root) (T.float sin_half)
        (T.float cos_half) }
{
    unless_negative(z)?;
    let c = exp_group(z, root, sin_half, cos_half);
    Ok(sinc_from(c.k, c.cos_half))
}

// x if ALL members are wanted, else zero.
fn asked<T: Limits, const ALL: bool>(x: T) -> T
    ensures { T.float result ≡ cond ALL (T.float x) f0 }
{
    if ALL { x } else { T::of(0.0) }
}

// The group of five, with k and cos_half as sin x/x. If not all are wanted, b and d are zero, and the compiler leaves
// out what nothing reads.
fn group<T: Limits, const ALL: bool>(z: T, root: T, sin_half: T, cos_half: T, sin: T) -> SincABD<T>
    ensures { as_sinc_abd T.float result
        ≡ asked_of ALL (circle_sinc_abd T.format (T.float z) (T.float root) (T.float sin_half) (T.float cos_half)
        (T.float sin)) }
{
    if z.is_below(T::five_short_below()) {
        let n = T::short_terms();
        return SincABD {
            sinc: sinc_from(series(Row::K, n, z), series(Row::CosHalf, n, z)),
            a: series(Row::A, n, z),
            b: asked::<T, ALL>(series(Row::B, n, z)),
            d: asked::<T, ALL>(series(Row::D, n, z)),
        };
    }
    if z.is_below(T::below(Row::CosHalf)) {
        return SincABD {
            sinc: sinc_from(whole(Row::K, z), whole(Row::CosHalf, z)),
            a: whole(Row::A, z),
            b: asked::<T, ALL>(whole(Row::B, z)),
            d: asked::<T, ALL>(whole(Row::D, z)),
        };
    }
    let a = a_from(z, sin_half);
    SincABD {
        sinc: sinc_from(own_arm(Row::K, z, sin_half / root), cos_half),
        a: own_arm(Row::A, z, a),
        b: asked::<T, ALL>(own_arm(Row::B, z, b_from(z, root, sin))),
        d: asked::<T, ALL>(own_arm(Row::D, z, d_from(z, a))),
    }
}

// Whether b is on its exact arm at the squared norm of a rotation vector, which it is at a NaN; it computes no
// function. For a caller that there forms sin x/x, which is 1 - b z, in another way.
pub fn b_takes_exact_arm_of<T: Limits>(phi: Vec3<T>) -> bool
    ensures { result ≡ not (lt (vec_norm_sq T.format (as_vec3 T.float phi)) (row_limit T.format b_row)) }
{
    !phi.norm_sq().is_below(T::below(Row::B))
}

// The group of five at any z: `sinc_a_b_d` for a caller that has refused z already.
pub fn five_group<T: Limits>(z: T, root: T, sin_half: T, cos_half: T, sin: T) -> SincABD<T>
    ensures { as_sinc_abd T.float result ≡ circle_sinc_abd T.format (T.float z) (T.float root) (T.float sin_half)
        (T.float cos_half) (T.float sin) }
{
    group::<T, true>(z, root, sin_half, cos_half, sin)
}

// sinc and a of the group of five only, with the same bits, at any z.
#[tactic(auto, unfolding(crate::specs::Kernel::circle_sinc_a, crate::specs::Kernel::circle_sinc_abd))]
pub fn two_group<T: Limits>(z: T, root: T, sin_half: T, cos_half: T) -> SincA<T>
    ensures { as_sinc_a T.float result ≡ circle_sinc_a T.format (T.float z) (T.float root) (T.float sin_half)
        (T.float cos_half) }
{
    let c = group::<T, false>(z, root, sin_half, cos_half, T::of(0.0));
    SincA {
        sinc: c.sinc,
        a: c.a,
    }
}

// (sin x/x, a, b, d) at x^2 = z, which the closed forms of Sim(3) read; refusal 1 for z below zero.
#[tactic(auto, unfolding(crate::specs::Kernel::circle_sinc_abd_answer))]
pub fn sinc_a_b_d<T: Limits>(
    z: T,
    root: T,
    sin_half: T,
    cos_half: T,
    sin: T,
) -> Result<SincABD<T>, Refusal>
    ensures { view (as_sinc_abd T.float) result ≡ circle_sinc_abd_answer T.format (T.float z) (T.float root)
        (T.float sin_half) (T.float cos_half) (T.float sin) }
{
    unless_negative(z)?;
    Ok(five_group(z, root, sin_half, cos_half, sin))
}

// sinc and a of `sinc_a_b_d` only, which the closed form of V reads; refusal 1 for z below zero.
#[tactic(auto, unfolding(crate::specs::Kernel::circle_sinc_a_answer))]
pub fn sinc_a<T: Limits>(z: T, root: T, sin_half: T, cos_half: T) -> Result<SincA<T>, Refusal>
    ensures { view (as_sinc_a T.float) result ≡ circle_sinc_a_answer T.format (T.float z) (T.float root)
        (T.float sin_half) (T.float cos_half) }
{
    unless_negative(z)?;
    Ok(two_group(z, root, sin_half, cos_half))
}

// sin x/x = 2 k cos(x/2).
fn sinc_from<T: Limits>(k: T, cos_half: T) -> T
    ensures { T.float result ≡ sinc_from T.format (T.float k) (T.float cos_half) }
{
    T::of(2.0) * k * cos_half
}

// (1 - cos x)/x^2 as 2 sin^2(x/2)/x^2.
fn a_from<T: Limits>(z: T, sh: T) -> T
    ensures { T.float result ≡ exact_a T.format (T.float z) (T.float sh) }
{
    T::of(2.0) * sh * sh / z
}

// (x - sin x)/x^3 as (1 - sin x/x)/x^2.
#[tactic(auto, unfolding(crate::specs::Kernel::exact_b))]
fn b_from<T: Limits>(z: T, th: T, s: T) -> T
    ensures { T.float result ≡ exact_b T.format (T.float z) (T.float th) (T.float s) }
{
    (T::of(1.0) - s / th) / z
}

// (x^2/2 - 1 + cos x)/x^4 as (1/2 - a)/x^2.
fn d_from<T: Limits>(z: T, a: T) -> T
    ensures { T.float result ≡ exact_d T.format (T.float z) (T.float a) }
{
    (T::of(0.5) - a) / z
}
