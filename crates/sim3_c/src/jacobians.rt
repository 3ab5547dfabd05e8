// Jacobian blocks, as a, b, c, f, e: the matrix with the rows (a, 0, 0), (b, c, f), (0, 0, e). Right is
// X Exp(tau), left Exp(tau) X.
ghost use Rattle.std.specs.Prelude.{◌≡◌};
ghost use Rattle.linalg.specs.Answer.{answer};
ghost use Rattle.to_lists.specs.Written.{status, written};
ghost use Rattle.sim3_c.specs.Calls.{adjoint_call, act_jacobians_right_call, act_jacobians_left_call};
ghost use Rattle.sim3_c.specs.Calls.{compose_jacobians_right_call, compose_jacobians_left_call};
ghost use Rattle.sim3_c.specs.Calls.{inverse_jacobian_right_call, inverse_jacobian_left_call};

use from_lists::{pose_from, vec_from};
use ieee::Real;
use linalg::refusal::Refusal;
use side_jacobians::side::{
    act_jacobians_left, act_jacobians_right, adjoint, compose_jacobians_left,
    compose_jacobians_right, inverse_jacobian_left, inverse_jacobian_right,
};
use to_lists::put;

// Ad_X; up is e^sigma of X.
#[tactic(auto, unfolding(crate::specs::Calls::adjoint_call, to_lists::proofs::OnLists::on_lists))]
pub fn sim3_adjoint<T: Real>(x: &[T], up: T, out: &mut [T]) -> Result<(), Refusal>
    ensures value { status (answer result)
        ≡ status (adjoint_call T.format (T.floats x.now) (T.float up) (T.floats out.old)) }
    ensures out_after { T.floats out.new
        ≡ written (adjoint_call T.format (T.floats x.now) (T.float up) (T.floats out.old))
        (T.floats out.old) }
{
    let a = pose_from(x)?;
    put(out, adjoint(a, up))
}

// Of X p, right: by phi, rho, sigma and by p; up is e^sigma of X.
#[tactic(auto, unfolding(crate::specs::Calls::act_jacobians_right_call, to_lists::proofs::OnLists::on_lists))]
pub fn sim3_act_jacobians_right<T: Real>(
    x: &[T],
    up: T,
    p: &[T],
    out: &mut [T],
) -> Result<(), Refusal>
    ensures value { status (answer result)
        ≡ status (act_jacobians_right_call T.format (T.floats x.now) (T.float up) (T.floats p.now) (T.floats out.old)) }
    ensures out_after { T.floats out.new
        ≡ written (act_jacobians_right_call T.format (T.floats x.now) (T.float up) (T.floats p.now) (T.floats out.old))
        (T.floats out.old) }
{
    let a = pose_from(x)?;
    let b = vec_from(p)?;
    put(out, act_jacobians_right(a, up, b))
}

// Of X p, left: by phi, rho, sigma and by p; up is e^sigma of X.
#[tactic(auto, unfolding(crate::specs::Calls::act_jacobians_left_call, to_lists::proofs::OnLists::on_lists))]
pub fn sim3_act_jacobians_left<T: Real>(
    x: &[T],
    up: T,
    p: &[T],
    out: &mut [T],
) -> Result<(), Refusal>
    ensures value { status (answer result)
        ≡ status (act_jacobians_left_call T.format (T.floats x.now) (T.float up) (T.floats p.now) (T.floats out.old)) }
    ensures out_after { T.floats out.new
        ≡ written (act_jacobians_left_call T.format (T.floats x.now) (T.float up) (T.floats p.now) (T.floats out.old))
        (T.floats out.old) }
{
    let a = pose_from(x)?;
    let b = vec_from(p)?;
    put(out, act_jacobians_left(a, up, b))
}

// Of X Y, right: by X and by Y; both read Y only; down is e^-sigma of Y.
#[tactic(auto, unfolding(crate::specs::Calls::compose_jacobians_right_call, to_lists::proofs::OnLists::on_lists))]
pub fn sim3_compose_jacobians_right<T: Real>(y: &[T], down: T, out: &mut [T]) -> Result<(), Refusal>
    ensures value { status (answer result)
        ≡ status (compose_jacobians_right_call T.format (T.floats y.now) (T.float down) (T.floats out.old)) }
    ensures out_after { T.floats out.new
        ≡ written (compose_jacobians_right_call T.format (T.floats y.now) (T.float down) (T.floats out.old))
        (T.floats out.old) }
{
    let a = pose_from(y)?;
    put(out, compose_jacobians_right(a, down))
}

// Of X Y, left: by X and by Y; both read X only; up is e^sigma of X.
#[tactic(auto, unfolding(crate::specs::Calls::compose_jacobians_left_call, to_lists::proofs::OnLists::on_lists))]
pub fn sim3_compose_jacobians_left<T: Real>(x: &[T], up: T, out: &mut [T]) -> Result<(), Refusal>
    ensures value { status (answer result)
        ≡ status (compose_jacobians_left_call T.format (T.floats x.now) (T.float up) (T.floats out.old)) }
    ensures out_after { T.floats out.new
        ≡ written (compose_jacobians_left_call T.format (T.floats x.now) (T.float up) (T.floats out.old))
        (T.floats out.old) }
{
    let a = pose_from(x)?;
    put(out, compose_jacobians_left(a, up))
}

// Of X^-1, right; up is e^sigma of X.
#[tactic(auto, unfolding(crate::specs::Calls::inverse_jacobian_right_call, to_lists::proofs::OnLists::on_lists))]
pub fn sim3_inverse_jacobian_right<T: Real>(x: &[T], up: T, out: &mut [T]) -> Result<(), Refusal>
    ensures value { status (answer result)
        ≡ status (inverse_jacobian_right_call T.format (T.floats x.now) (T.float up) (T.floats out.old)) }
    ensures out_after { T.floats out.new
        ≡ written (inverse_jacobian_right_call T.format (T.floats x.now) (T.float up) (T.floats out.old))
        (T.floats out.old) }
{
    let a = pose_from(x)?;
    put(out, inverse_jacobian_right(a, up))
}

// Of X^-1, left; down is e^-sigma of X.
#[tactic(auto, unfolding(crate::specs::Calls::inverse_jacobian_left_call, to_lists::proofs::OnLists::on_lists))]
pub fn sim3_inverse_jacobian_left<T: Real>(x: &[T], down: T, out: &mut [T]) -> Result<(), Refusal>
    ensures value { status (answer result)
        ≡ status (inverse_jacobian_left_call T.format (T.floats x.now) (T.float down) (T.floats out.old)) }
    ensures out_after { T.floats out.new
        ≡ written (inverse_jacobian_left_call T.format (T.floats x.now) (T.float down) (T.floats out.old))
        (T.floats out.old) }
{
    let a = pose_from(x)?;
    put(out, inverse_jacobian_left(a, down))
}
