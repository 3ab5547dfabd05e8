// The blocks of both sides from one paired evaluation of the coefficients.
ghost use Rattle.std.specs.Prelude.{◌≡◌};
ghost use Rattle.side_jacobians.specs.Pair.{block_pair};
ghost use Rattle.arms.specs.Floats.{as_values};
ghost use Rattle.linalg.specs.Floats.{as_mat3};
ghost use Rattle.sim3.specs.Floats.{as_sim3_tangent};
ghost use Rattle.side_jacobians.specs.Floats.{as_block_pair};

use crate::blocks::jl_and_inverse_from;
use arms::values::Values;
use coeffs::width::Width;
use jacobian::jac::Sim3Jac;
use linalg::matrix::Mat3;
use pairs::sim3::sim3_coeffs_armed_pair_of;
use sim3::tangent::Sim3Tangent;

// J_l, its inverse, J_r and its inverse.
#[derive(Drop)]
pub struct BlockPair<T> {
    pub left: Sim3Jac<T>,
    pub left_inv: Sim3Jac<T>,
    pub right: Sim3Jac<T>,
    pub right_inv: Sim3Jac<T>,
}

// The left block and inverse of tau, and those of -tau on the mirrored values and the transposed matrices, which are
// the right ones: as the end of the Rust's log_inverses assembles them, from J_l(phi) and its inverse. |phi|^2 is the
// same at -phi, and never below zero: nothing is refused. The coefficients are read from where the called function
// stored them, without a copy; that function returns the arms too, so that a program has the pair's code once.
#[tactic(auto, using(linalg::proofs::Even::norm_sq_even), unfolding(crate::proofs::Unfolds::block_pair_unfolds))]
pub fn block_pair<T: Width>(
    tau: Sim3Tangent<T>,
    v: Values<T>,
    jl_phi: Mat3<T>,
    jl_inv: Mat3<T>,
) -> BlockPair<T>
    ensures { as_block_pair T.float result
        ≡ block_pair T.format (as_sim3_tangent T.float tau) (as_values T.float v) (as_mat3 T.float jl_phi)
        (as_mat3 T.float jl_inv) }
{
    let z = tau.phi.norm_sq();
    let p = sim3_coeffs_armed_pair_of(tau.phi, tau.sigma, v);
    let pos = p.pos.s;
    let neg = p.neg.s;
    let l = jl_and_inverse_from(tau, z, pos, jl_phi, jl_inv, v.up, v.down);
    let jt = jl_phi.transpose();
    let it = jl_inv.transpose();
    let r = jl_and_inverse_from(tau.neg(), z, neg, jt, it, v.down, v.up);
    BlockPair {
        left: l.j,
        left_inv: l.inv,
        right: r.j,
        right_inv: r.inv,
    }
}
