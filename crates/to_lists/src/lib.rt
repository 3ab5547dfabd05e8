// The numbers of a structure, written to a list that a C function borrows and that has exactly their length; a list of
// another length is refused, and nothing is written. Proved: every number in the list afterwards (specs/Written). Rests
// on layout.
#![tactic(auto)]

ghost use Rattle.std.specs.Prelude.{◌≡◌, ℕ, List, Float, cond, length};
ghost use Rattle.ieee.specs.Numbers.{f0, f1};
ghost use Rattle.linalg.specs.Answer.{answer};
ghost use Rattle.linalg.specs.Vector.{vec_numbers};
ghost use Rattle.linalg.specs.Floats.{as_mat3, as_vec3};
ghost use Rattle.coeffs.specs.Floats.{as_armed, as_scaled};
ghost use Rattle.pairs.specs.Floats.{as_armed_pair, as_scaled_pair};
ghost use Rattle.so3.specs.Floats.{as_quat};
ghost use Rattle.sim3.specs.Floats.{as_sim3};
ghost use Rattle.frames.specs.Floats.{as_pose};
ghost use Rattle.jacobian.specs.Floats.{as_sim3_jac};
ghost use Rattle.side_jacobians.specs.Floats.{as_act_jacobians, as_block_pair, as_two_jacobians};
ghost use Rattle.layout.specs.Layout.{vec_count, mat_count, pose_count, block_count, block_pair_count};
ghost use Rattle.layout.specs.Layout.{scaled_pair_count, two_count, act_count};
ghost use Rattle.layout.specs.Layout.{mat_numbers, quat_numbers, pose_numbers, block_numbers, block_pair_numbers};
ghost use Rattle.layout.specs.Layout.{scaled_numbers, scaled_pair_numbers, two_numbers, act_numbers};
ghost use Rattle.layout.proofs.Numbers.{vec-count, mat-count, quat-count, pose-count, block-count, block-pair-count};
ghost use Rattle.layout.proofs.Numbers.{scaled-count, scaled-pair-count, two_count_lem, act_count_lem};
ghost use Rattle.layout.specs.Lists.{pose_lists};
ghost use Rattle.to_lists.specs.Written.{status, written, fitting, framed_written, framed_fitting, arm_numbers};
ghost use Rattle.to_lists.specs.Written.{armed_numbers, armed_pair_numbers};
ghost use Rattle.to_lists.specs.Counts.{arm-count, armed-count, armed-pair-count};

use crate::numbers::ToNumbers;
use crate::whole::Whole;
use coeffs::sim3::{Armed, Scaled};
use frames::Pose;
use ieee::Real;
use jacobian::jac::Sim3Jac;
use layout::{
    ACT_JACOBIANS, BLOCK, BLOCK_PAIR, FRAMES, MAT, POSE, SCALED_PAIR, TWO_JACOBIANS, VEC,
};
use linalg::matrix::Mat3;
use linalg::refusal::Refusal;
use linalg::vector::Vec3;
use series::sim3::{Signs, Sim3Coeffs};
use side_jacobians::pair::BlockPair;
use side_jacobians::side::{ActJacobians, TwoJacobians};
use sim3::sim3::Sim3;
use so3::quat::Quat;

mod numbers; // structures with numbers
pub mod whole; // a byte as a number

const QUAT: usize = 4;

// The nine coefficients of one sign and their flag.
const SCALED: usize = 9 + 1;

// The arm of one sign and its ends, before the ten numbers of that sign; and those of both signs before the scaled
// pair.
const ARM: usize = 2;

const ARMED: usize = ARM + SCALED;

const ARMED_PAIR: usize = 2 * ARMED;

// Writes the numbers of x to a list that must have exactly their length.
#[tactic(auto, unfolding(crate::proofs::OnLists::on_lists, crate::specs::Written::fitting))]
pub fn put<T: Real, X: ToNumbers<T>>(out: &mut [T], x: X) -> Result<(), Refusal>
    ensures value { status (answer result) ≡ status (fitting (T.floats out.old) (X.numbers x)) }
    ensures out_after { T.floats out.new ≡ written (fitting (T.floats out.old) (X.numbers x)) (T.floats out.old) }
{
    if out.len() != X::COUNT {
        return Err(Refusal::ListLength);
    }
    x.to_numbers(out);
    Ok(())
}

// What a C function returns: 0, or the number of the refusal.
#[tactic(auto, unfolding(crate::specs::Written::status))]
pub fn status(done: Result<(), Refusal>) -> u32
    ensures { result ≡ status (answer done) }
{
    match done {
        Ok(()) => 0,
        Err(refusal) => u32::from(refusal.number()),
    }
}

impl<T: Real> ToNumbers<T> for Vec3<T> {
    const COUNT: usize = VEC;

    ghost COUNT = { vec_count };

    ghost numbers = { λ v. vec_numbers (as_vec3 T.float v) };

    #[tactic(auto, unfolding(linalg::specs::Vector::vec_numbers))]
    fn to_numbers(self, out: &mut [T]) {
        out.copy_from_slice(&[self.x, self.y, self.z]);
    }

    ghost count_law = { λ v. vec-count (as_vec3 T.float v) };
}

impl<T: Real> ToNumbers<T> for Mat3<T> {
    const COUNT: usize = MAT;

    ghost COUNT = { mat_count };

    ghost numbers = { λ m. mat_numbers (as_mat3 T.float m) };

    #[tactic(auto, unfolding(layout::specs::Layout::mat_numbers))]
    fn to_numbers(self, out: &mut [T]) {
        let (c0, rest) = out.split_at_mut(VEC);
        let (c1, c2) = rest.split_at_mut(VEC);
        self.c0.to_numbers(c0);
        self.c1.to_numbers(c1);
        self.c2.to_numbers(c2);
    }

    ghost count_law = { λ m. mat-count (as_mat3 T.float m) };
}

impl<T: Real> ToNumbers<T> for Quat<T> {
    const COUNT: usize = QUAT;

    ghost COUNT = { 4 };

    ghost numbers = { λ q. quat_numbers (as_quat T.float q) };

    #[tactic(auto, unfolding(layout::specs::Layout::quat_numbers))]
    fn to_numbers(self, out: &mut [T]) {
        out.copy_from_slice(&[self.w, self.x, self.y, self.z]);
    }

    ghost count_law = { λ q. quat-count (as_quat T.float q) };
}

impl<T: Real> ToNumbers<T> for Sim3<T> {
    const COUNT: usize = POSE;

    ghost COUNT = { pose_count };

    ghost numbers = { λ x. pose_numbers (as_sim3 T.float x) };

    #[tactic(auto, unfolding(layout::specs::Layout::pose_numbers))]
    fn to_numbers(self, out: &mut [T]) {
        let (q, rest) = out.split_at_mut(QUAT);
        let (t, sigma) = rest.split_at_mut(VEC);
        self.q.to_numbers(q);
        self.t.to_numbers(t);
        sigma[0] = self.sigma;
    }

    ghost count_law = { λ x. pose-count (as_sim3 T.float x) };
}

impl<T: Real> ToNumbers<T> for Sim3Jac<T> {
    const COUNT: usize = BLOCK;

    ghost COUNT = { block_count };

    ghost numbers = { λ j. block_numbers (as_sim3_jac T.float j) };

    #[tactic(auto, unfolding(layout::specs::Layout::block_numbers))]
    fn to_numbers(self, out: &mut [T]) {
        let (a, rest) = out.split_at_mut(MAT);
        let (b, rest) = rest.split_at_mut(MAT);
        let (c, rest) = rest.split_at_mut(MAT);
        let (f, e) = rest.split_at_mut(VEC);
        self.a.to_numbers(a);
        self.b.to_numbers(b);
        self.c.to_numbers(c);
        self.f.to_numbers(f);
        e[0] = self.e;
    }

    ghost count_law = { λ j. block-count (as_sim3_jac T.float j) };
}

// The nine coefficients, and the flag as 1 or 0.
impl<T: Real> ToNumbers<T> for Scaled<Sim3Coeffs<T>> {
    const COUNT: usize = SCALED;

    ghost COUNT = { 10 };

    ghost numbers = { λ s. scaled_numbers (as_scaled T.float s) };

    #[tactic(auto, unfolding(layout::specs::Layout::coeffs_numbers, layout::specs::Layout::scaled_numbers))]
    fn to_numbers(self, out: &mut [T]) {
        let c = self.c;
        let flag = flag(self.scaled);
        out.copy_from_slice(&[
            c.v0,
            c.v1,
            c.v2,
            c.w0,
            c.w1,
            c.w2,
            c.dv1,
            c.dv2,
            c.chi_delta,
            flag,
        ]);
    }

    ghost count_law = { λ s. scaled-count (as_scaled T.float s) };
}

// At sigma, then at -sigma.
impl<T: Real> ToNumbers<T> for Signs<Scaled<Sim3Coeffs<T>>> {
    const COUNT: usize = SCALED_PAIR;

    ghost COUNT = { scaled_pair_count };

    ghost numbers = { λ p. scaled_pair_numbers (as_scaled_pair T.float p) };

    #[tactic(auto, unfolding(layout::specs::Layout::scaled_pair_numbers))]
    fn to_numbers(self, out: &mut [T]) {
        let (pos, neg) = out.split_at_mut(SCALED);
        self.pos.to_numbers(pos);
        self.neg.to_numbers(neg);
    }

    ghost count_law = { λ p. scaled-pair-count (as_scaled_pair T.float p) };
}

// Left, its inverse, right, its inverse.
impl<T: Real> ToNumbers<T> for BlockPair<T> {
    const COUNT: usize = BLOCK_PAIR;

    ghost COUNT = { block_pair_count };

    ghost numbers = { λ p. block_pair_numbers (as_block_pair T.float p) };

    #[tactic(auto, unfolding(layout::specs::Layout::block_pair_numbers))]
    fn to_numbers(self, out: &mut [T]) {
        let (left, rest) = out.split_at_mut(BLOCK);
        let (left_inv, rest) = rest.split_at_mut(BLOCK);
        let (right, right_inv) = rest.split_at_mut(BLOCK);
        self.left.to_numbers(left);
        self.left_inv.to_numbers(left_inv);
        self.right.to_numbers(right);
        self.right_inv.to_numbers(right_inv);
    }

    ghost count_law = { λ p. block-pair-count (as_block_pair T.float p) };
}

// By the first operand, then by the second.
impl<T: Real> ToNumbers<T> for TwoJacobians<T> {
    const COUNT: usize = TWO_JACOBIANS;

    ghost COUNT = { two_count };

    ghost numbers = { λ t. two_numbers (as_two_jacobians T.float t) };

    #[tactic(auto, unfolding(layout::specs::Layout::two_numbers))]
    fn to_numbers(self, out: &mut [T]) {
        let (first, second) = out.split_at_mut(BLOCK);
        self.first.to_numbers(first);
        self.second.to_numbers(second);
    }

    ghost count_law = { λ t. two_count_lem (as_two_jacobians T.float t) };
}

// By phi, rho and sigma of the pose, then by the point.
impl<T: Real> ToNumbers<T> for ActJacobians<T> {
    const COUNT: usize = ACT_JACOBIANS;

    ghost COUNT = { act_count };

    ghost numbers = { λ j. act_numbers (as_act_jacobians T.float j) };

    #[tactic(auto, unfolding(layout::specs::Layout::act_numbers))]
    fn to_numbers(self, out: &mut [T]) {
        let (rot, rest) = out.split_at_mut(MAT);
        let (trans, rest) = rest.split_at_mut(MAT);
        let (scale, point) = rest.split_at_mut(VEC);
        self.rot.to_numbers(rot);
        self.trans.to_numbers(trans);
        self.scale.to_numbers(scale);
        self.point.to_numbers(point);
    }

    ghost count_law = { λ j. act_count_lem (as_act_jacobians T.float j) };
}

// 1 if it holds, else 0.
fn flag<T: Real>(holds: bool) -> T
    ensures { T.float result ≡ cond holds f1 f0 }
{
    ieee::pick(holds, T::of(1.0), T::of(0.0))
}

// The arm, and 1 or 0 for whether v0 and w0 of the closed arm come from series.
#[tactic(auto, unfolding(crate::specs::Written::arm_numbers))]
fn put_arm<T: Whole>(out: &mut [T], a: Armed<T>)
    requires { length out.old ≡ 2 }
    ensures { T.floats out.new ≡ arm_numbers T.format (as_armed T.float a) }
{
    out.copy_from_slice(&[T::of_byte(a.arm.number()), flag(a.ends)]);
}

// The arm of a sign before the numbers of that sign.
impl<T: Whole> ToNumbers<T> for Armed<T> {
    const COUNT: usize = ARMED;

    ghost COUNT = { 12 };

    ghost numbers = { λ a. armed_numbers T.format (as_armed T.float a) };

    #[tactic(auto, unfolding(crate::specs::Written::armed_numbers))]
    fn to_numbers(self, out: &mut [T]) {
        let (arm, s) = out.split_at_mut(ARM);
        put_arm(arm, self);
        self.s.to_numbers(s);
    }

    ghost count_law = { λ a. armed-count T.format (as_armed T.float a) };
}

// The arms at sigma and at -sigma, then the coefficients of both.
impl<T: Whole> ToNumbers<T> for Signs<Armed<T>> {
    const COUNT: usize = ARMED_PAIR;

    ghost COUNT = { 24 };

    ghost numbers = { λ p. armed_pair_numbers T.format (as_armed_pair T.float p) };

    #[tactic(auto, unfolding(crate::specs::Written::armed_pair_numbers, layout::specs::Layout::scaled_pair_numbers))]
    fn to_numbers(self, out: &mut [T]) {
        let (arm, rest) = out.split_at_mut(ARM);
        let (arm_neg, rest) = rest.split_at_mut(ARM);
        let (pos, neg) = rest.split_at_mut(SCALED);
        put_arm(arm, self.pos);
        put_arm(arm_neg, self.neg);
        self.pos.s.to_numbers(pos);
        self.neg.s.to_numbers(neg);
    }

    ghost count_law = { λ p. armed-pair-count T.format (as_armed_pair T.float p) };
}

pub fn put_pose<T: Real>(out: &mut [T], x: Sim3<T>) -> Result<(), Refusal>
    ensures value { status (answer result) ≡ status (fitting (T.floats out.old) (pose_numbers (as_sim3 T.float x))) }
    ensures out_after { T.floats out.new
        ≡ written (fitting (T.floats out.old) (pose_numbers (as_sim3 T.float x))) (T.floats out.old) }
{
    put(out, x)
}

// Writes the numbers to one list and the frames, from and to, to another; both or neither.
#[tactic(auto, unfolding(crate::proofs::OnLists::on_lists, crate::specs::Written::framed_fitting))]
pub fn put_framed<T: Real>(out: &mut [T], out_frames: &mut [u16], x: Pose<T>) -> Result<(), Refusal>
    ensures value { status (answer result)
        ≡ status (framed_fitting (pose_lists (T.floats out.old) out_frames.old) (as_pose T.float x)) }
    ensures out_frames_after { pose_lists (T.floats out.new) out_frames.new
        ≡ framed_written (λ o. framed_fitting o (as_pose T.float x)) (pose_lists (T.floats out.old) out_frames.old) }
{
    if out.len() != POSE {
        return Err(Refusal::ListLength);
    }
    if out_frames.len() != FRAMES {
        return Err(Refusal::ListLength);
    }
    x.sim3.to_numbers(out);
    out_frames[0] = x.from;
    out_frames[1] = x.to;
    Ok(())
}
