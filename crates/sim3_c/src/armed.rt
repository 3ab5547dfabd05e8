// The coefficients with the arms that formed them: at sigma, and at both signs.
ghost use Rattle.std.specs.Prelude.{◌≡◌};
ghost use Rattle.linalg.specs.Answer.{answer};
ghost use Rattle.to_lists.specs.Written.{status, written};
ghost use Rattle.sim3_c.specs.Calls.{armed_call, armed_pair_call};

use coeffs::width::Width;
use from_lists::values_from;
use linalg::refusal::Refusal;
use pairs::sim3::sim3_coeffs_armed_pair;
use to_lists::put;
use to_lists::whole::Whole;

// At sigma; z is the squared angle.
#[tactic(auto, unfolding(crate::specs::Calls::armed_call, to_lists::proofs::OnLists::on_lists))]
pub fn sim3_coeffs_armed<T: Width + Whole>(
    sigma: T,
    z: T,
    values: &[T],
    out: &mut [T],
) -> Result<(), Refusal>
    ensures value { status (answer result)
        ≡ status (armed_call T.format (T.float sigma) (T.float z) (T.floats values.now) (T.floats out.old)) }
    ensures out_after { T.floats out.new
        ≡ written (armed_call T.format (T.float sigma) (T.float z) (T.floats values.now) (T.floats out.old))
        (T.floats out.old) }
{
    let v = values_from(values)?;
    put(out, coeffs::sim3::sim3_coeffs_armed(sigma, z, v)?)
}

// At sigma and at -sigma.
#[tactic(auto, unfolding(crate::specs::Calls::armed_pair_call, to_lists::proofs::OnLists::on_lists))]
pub fn sim3_armed_pair<T: Width + Whole>(
    sigma: T,
    z: T,
    values: &[T],
    out: &mut [T],
) -> Result<(), Refusal>
    ensures value { status (answer result)
        ≡ status (armed_pair_call T.format (T.float sigma) (T.float z) (T.floats values.now) (T.floats out.old)) }
    ensures out_after { T.floats out.new
        ≡ written (armed_pair_call T.format (T.float sigma) (T.float z) (T.floats values.now) (T.floats out.old))
        (T.floats out.old) }
{
    let v = values_from(values)?;
    put(out, sim3_coeffs_armed_pair(sigma, z, v)?)
}
