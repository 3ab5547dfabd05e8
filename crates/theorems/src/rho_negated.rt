// With all of rho negated, the exponential's t and the blocks b and f of the left Jacobian are negated, and all else of
// both has the same bits.
ghost use Rattle.std.specs.Prelude.{◌≡◌};
ghost use Rattle.theorems.specs.RhoNegated.{rho_negated, five_calls_of, both_rhos_of, RhoNegated};
ghost use Rattle.sim3.specs.Floats.{as_sim3_tangent};
ghost use Rattle.theorems.specs.Floats.{as_both_rhos, as_five_calls};
ghost use Rattle.arms.specs.Floats.{as_values};
ghost use Rattle.linalg.specs.Floats.{as_mat3};

use arms::values::Values;
use coeffs::width::Width;
use frames::{Frames, Pose};
use jacobian::jac::Sim3Jac;
use linalg::matrix::Mat3;
use side_jacobians::blocks::JacAndInverse;
use side_jacobians::pair::BlockPair;
use side_jacobians::side::ExpAndJl;
use sim3::sim3::Sim3;
use sim3::tangent::Sim3Tangent;

// The tangent with all of rho negated.
pub fn rho_negated<T: Width>(tau: Sim3Tangent<T>) -> Sim3Tangent<T>
    ensures { as_sim3_tangent T.float result ≡ rho_negated (as_sim3_tangent T.float tau) }
{
    Sim3Tangent {
        rho: tau.rho.neg(),
        ..tau
    }
}

// What the five calls on one tangent return: the exponential with its frames, the left Jacobian, both from
// one evaluation, the left Jacobian with its inverse, and the block pair.
#[derive(Drop)]
pub struct FiveCalls<T> {
    pub exp: Pose<T>,
    pub left: Sim3Jac<T>,
    pub together: ExpAndJl<Sim3<T>, T>,
    pub inverted: JacAndInverse<T>,
    pub pair: BlockPair<T>,
}

// The five calls on the tangent, and on the tangent with rho negated.
#[derive(Drop)]
pub struct BothRhos<T> {
    pub at_rho: FiveCalls<T>,
    pub at_negated_rho: FiveCalls<T>,
}

fn five_calls<T: Width>(
    tau: Sim3Tangent<T>,
    v: Values<T>,
    jl: Mat3<T>,
    jl_inv: Mat3<T>,
    frames: Frames,
) -> FiveCalls<T>
    ensures { as_five_calls T.float result
        ≡ five_calls_of T.format (as_sim3_tangent T.float tau) (as_values T.float v) (as_mat3 T.float jl)
        (as_mat3 T.float jl_inv) frames.from frames.to }
{
    FiveCalls {
        exp: Pose::exp(tau, v, frames),
        left: side_jacobians::side::jl(tau, v, jl),
        together: side_jacobians::side::exp_and_jl(tau, v, jl),
        inverted: side_jacobians::side::jl_and_inverse(tau, v, jl, jl_inv),
        pair: side_jacobians::pair::block_pair(tau, v, jl, jl_inv),
    }
}

// Results at rho and at -rho, with the same values, matrices and frames: none of them depends on rho.
pub fn both_rhos<T: Width>(
    tau: Sim3Tangent<T>,
    v: Values<T>,
    jl: Mat3<T>,
    jl_inv: Mat3<T>,
    frames: Frames,
) -> BothRhos<T>
    ensures value { as_both_rhos T.float result ≡ both_rhos_of T.format (as_sim3_tangent T.float tau)
        (as_values T.float v) (as_mat3 T.float jl) (as_mat3 T.float jl_inv) frames.from frames.to }
    ensures at_negated_rho { RhoNegated (as_both_rhos T.float result) }
{
    let back = rho_negated(tau);
    let at_rho = five_calls(tau, v, jl, jl_inv, frames);
    let at_negated_rho = five_calls(back, v, jl, jl_inv, frames);
    BothRhos {
        at_rho,
        at_negated_rho,
    }
}
