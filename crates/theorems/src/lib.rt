// Theorems on several calls together. Each function makes the calls that a theorem is about, and its contract is the
// theorem: it uses only the contracts of these calls. Proved: for both signs the paired evaluation equals the one-sign
// functions, the third demand (Demand3); the armed pair's flags are those by which the block pair scales (FlagsScale);
// with rho negated, t, b and f are negated and all else stays (RhoNegated).
#![tactic(auto)]

ghost use Rattle.std.specs.Prelude.{◌≡◌};
ghost use Rattle.theorems.specs.Demand3.{Demand3};
ghost use Rattle.theorems.specs.Flags.{FlagsScale};
ghost use Rattle.theorems.specs.Views.{signs_view};
ghost use Rattle.linalg.specs.Answer.{view};
ghost use Rattle.sim3.specs.Exp.{pose_exp};
ghost use Rattle.sim3.specs.Floats.{as_sim3, as_sim3_tangent};
ghost use Rattle.coeffs.specs.Entries.{scaled_answer};
ghost use Rattle.coeffs.specs.Floats.{as_scaled};
ghost use Rattle.pairs.specs.Floats.{as_armed_pair};
ghost use Rattle.side_jacobians.specs.Blocks.{jl_and_inverse};
ghost use Rattle.side_jacobians.specs.Floats.{as_block_pair, as_jac_and_inverse};
ghost use Rattle.arms.specs.Floats.{as_values};
ghost use Rattle.linalg.specs.Floats.{as_mat3};

use arms::values::Values;
use coeffs::sim3::Scaled;
use coeffs::width::Width;
use linalg::matrix::Mat3;
use linalg::refusal::Refusal;
use pairs::sim3::{ArmedPair, ScaledPair};
use series::sim3::Sim3Coeffs;
use side_jacobians::blocks::JacAndInverse;
use side_jacobians::pair::BlockPair;
use sim3::sim3::Sim3;
use sim3::tangent::Sim3Tangent;

pub mod rho_negated; // results at rho and at -rho

// What the three calls on one sign return: the coefficients, the left Jacobian with its inverse, and the
// exponential.
#[derive(Drop)]
pub struct OneSign<T> {
    pub coeffs: Result<Scaled<Sim3Coeffs<T>>, Refusal>,
    pub left: JacAndInverse<T>,
    pub exp: Sim3<T>,
}

// What the eight calls return: the pair of coefficients and the pair of blocks, and the results of each sign
// separately.
#[derive(Drop)]
pub struct BothSigns<T> {
    pub pair: Result<ScaledPair<T>, Refusal>,
    pub block: BlockPair<T>,
    pub plus: OneSign<T>,
    pub minus: OneSign<T>,
}

fn one_sign<T: Width>(
    tau: Sim3Tangent<T>,
    z: T,
    v: Values<T>,
    jl: Mat3<T>,
    jl_inv: Mat3<T>,
) -> OneSign<T>
    ensures coeffs { view (as_scaled T.float) result.coeffs
        ≡ scaled_answer T.format (T.float tau.sigma) (T.float z) (as_values T.float v) }
    ensures left { as_jac_and_inverse T.float result.left
        ≡ jl_and_inverse T.format (as_sim3_tangent T.float tau) (as_values T.float v) (as_mat3 T.float jl)
        (as_mat3 T.float jl_inv) }
    ensures exp { as_sim3 T.float result.exp
        ≡ pose_exp T.format (as_sim3_tangent T.float tau) (as_values T.float v) }
{
    OneSign {
        coeffs: coeffs::sim3::sim3_coeffs_scaled(tau.sigma, z, v),
        left: side_jacobians::side::jl_and_inverse(tau, v, jl, jl_inv),
        exp: Sim3::exp(tau, v),
    }
}

// The paired functions on tau and z, and the one-sign functions on each sign: on the negative with the mirrored values
// and the transposed matrices.
pub fn both_signs<T: Width>(
    tau: Sim3Tangent<T>,
    z: T,
    v: Values<T>,
    jl: Mat3<T>,
    jl_inv: Mat3<T>,
) -> BothSigns<T>
    ensures { Demand3 T.format (as_sim3_tangent T.float tau) (T.float z) (as_values T.float v) (as_mat3 T.float jl)
        (as_mat3 T.float jl_inv) (signs_view T.float result) }
{
    let back = tau.neg();
    let m = v.mirrored(tau.sigma);
    let jt = jl.transpose();
    let it = jl_inv.transpose();
    let pair = pairs::sim3::sim3_coeffs_scaled_pair(tau.sigma, z, v);
    let block = side_jacobians::pair::block_pair(tau, v, jl, jl_inv);
    let plus = one_sign(tau, z, v, jl, jl_inv);
    let minus = one_sign(back, z, m, jt, it);
    BothSigns {
        pair,
        block,
        plus,
        minus,
    }
}

// What the two calls return: the coefficients with their arms and flags, and the pair of blocks.
#[derive(Drop)]
pub struct Flagged<T> {
    pub armed: Result<ArmedPair<T>, Refusal>,
    pub block: BlockPair<T>,
}

// The armed pair at tau's sigma and |phi|^2 on the values v, and the block pair of tau on any other values w.
pub fn same_flags<T: Width>(
    tau: Sim3Tangent<T>,
    v: Values<T>,
    w: Values<T>,
    jl: Mat3<T>,
    jl_inv: Mat3<T>,
) -> Flagged<T>
    ensures { FlagsScale T.format (as_sim3_tangent T.float tau) (as_values T.float w) (as_mat3 T.float jl)
        (as_mat3 T.float jl_inv) (view (as_armed_pair T.float) result.armed) (as_block_pair T.float result.block) }
{
    let phi = tau.phi;
    let armed = pairs::sim3::sim3_coeffs_armed_pair(tau.sigma, phi.norm_sq(), v);
    let block = side_jacobians::pair::block_pair(tau, w, jl, jl_inv);
    Flagged { armed, block }
}
