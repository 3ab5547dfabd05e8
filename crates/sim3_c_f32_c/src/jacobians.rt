// Inverse, adjoint, and the Jacobians of the group's operations.
ghost use Rattle.std.specs.Prelude.{◌≡◌};
ghost use Rattle.std.specs.Float.{binary32};
ghost use Rattle.to_lists.specs.Written.{status, written};
ghost use Rattle.sim3_c.specs.Calls.{adjoint_call, act_jacobians_right_call, act_jacobians_left_call};
ghost use Rattle.sim3_c.specs.Calls.{compose_jacobians_right_call, compose_jacobians_left_call};
ghost use Rattle.sim3_c.specs.Calls.{inverse_jacobian_right_call, inverse_jacobian_left_call};

use to_lists::status;

// Ad_X.
#[unsafe(no_mangle)]
pub extern "C" fn sim3_adjoint_f32(x: &[f32], up: f32, out: &mut [f32]) -> u32
    ensures value { result ≡ status (adjoint_call binary32 x.now up out.old) }
    ensures out_after { out.new ≡ written (adjoint_call binary32 x.now up out.old) out.old }
{
    status(sim3_c::jacobians::sim3_adjoint(x, up, out))
}

// Of X p, right.
#[unsafe(no_mangle)]
pub extern "C" fn sim3_act_jacobians_right_f32(
    x: &[f32],
    up: f32,
    p: &[f32],
    out: &mut [f32],
) -> u32
    ensures value { result ≡ status (act_jacobians_right_call binary32 x.now up p.now out.old) }
    ensures out_after { out.new ≡ written (act_jacobians_right_call binary32 x.now up p.now out.old) out.old }
{
    status(sim3_c::jacobians::sim3_act_jacobians_right(x, up, p, out))
}

// Of X p, left.
#[unsafe(no_mangle)]
pub extern "C" fn sim3_act_jacobians_left_f32(x: &[f32], up: f32, p: &[f32], out: &mut [f32]) -> u32
    ensures value { result ≡ status (act_jacobians_left_call binary32 x.now up p.now out.old) }
    ensures out_after { out.new ≡ written (act_jacobians_left_call binary32 x.now up p.now out.old) out.old }
{
    status(sim3_c::jacobians::sim3_act_jacobians_left(x, up, p, out))
}

// Of X Y, right.
#[unsafe(no_mangle)]
pub extern "C" fn sim3_compose_jacobians_right_f32(y: &[f32], down: f32, out: &mut [f32]) -> u32
    ensures value { result ≡ status (compose_jacobians_right_call binary32 y.now down out.old) }
    ensures out_after { out.new ≡ written (compose_jacobians_right_call binary32 y.now down out.old) out.old }
{
    status(sim3_c::jacobians::sim3_compose_jacobians_right(y, down, out))
}

// Of X Y, left.
#[unsafe(no_mangle)]
pub extern "C" fn sim3_compose_jacobians_left_f32(x: &[f32], up: f32, out: &mut [f32]) -> u32
    ensures value { result ≡ status (compose_jacobians_left_call binary32 x.now up out.old) }
    ensures out_after { out.new ≡ written (compose_jacobians_left_call binary32 x.now up out.old) out.old }
{
    status(sim3_c::jacobians::sim3_compose_jacobians_left(x, up, out))
}

// Of X^-1, right.
#[unsafe(no_mangle)]
pub extern "C" fn sim3_inverse_jacobian_right_f32(x: &[f32], up: f32, out: &mut [f32]) -> u32
    ensures value { result ≡ status (inverse_jacobian_right_call binary32 x.now up out.old) }
    ensures out_after { out.new ≡ written (inverse_jacobian_right_call binary32 x.now up out.old) out.old }
{
    status(sim3_c::jacobians::sim3_inverse_jacobian_right(x, up, out))
}

// Of X^-1, left.
#[unsafe(no_mangle)]
pub extern "C" fn sim3_inverse_jacobian_left_f32(x: &[f32], down: f32, out: &mut [f32]) -> u32
    ensures value { result ≡ status (inverse_jacobian_left_call binary32 x.now down out.old) }
    ensures out_after { out.new ≡ written (inverse_jacobian_left_call binary32 x.now down out.old) out.old }
{
    status(sim3_c::jacobians::sim3_inverse_jacobian_left(x, down, out))
}
