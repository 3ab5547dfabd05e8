// Whether this process computes as the proofs say, tested before anything is read: a library loaded into it
// (LD_PRELOAD) can change the rounding or flushing.
ghost use Rattle.std.specs.Prelude.{◌≡◌, true};

use ieee::Real;
use std::io::Read;

// Zero, unknown to the compiler: a read from standard input borrows an empty part of the list that holds it. The read
// takes no byte, and its result does not matter.
fn zero(rt: &HostRuntime) -> u64
    ensures { result ≡ 0 }
{
    let mut byte: [u8; 1] = [0];
    let mut input = rt.stdin();
    let _ = input.read(&mut byte[1..]);
    byte[0] as u64
}

// Whether the documented numbers have the documented product. On the machine of the proofs they have, so there the
// program reads and answers.
pub fn computes_as_proved(rt: &HostRuntime) -> bool
    ensures { result ≡ true }
{
    let hidden = zero(rt);
    let first = f64::from_pattern(0x4013_0000_0000_0000 + hidden);
    let second = f64::from_pattern(1 + hidden);
    let third = f64::from_pattern(0x7fe0_0000_0000_0001 + hidden);
    environment::product_is_due(first, second, third)
}
