// Poses with their frames as bytes; and they, and whole numbers of two bytes, at a place in a list.
ghost use Rattle.std.specs.Prelude.{◌≡◌, ◌+◌, ◌≤◌, length, drop};
ghost use Rattle.std.specs.Float.{binary64};
ghost use Rattle.std.proofs.lemmas.List.Edits.{sets};
ghost use Rattle.layout.specs.Layout.{pose_numbers};
ghost use Rattle.wire.specs.Wire.{word_at, word_bytes, items_bytes, numbers, all_finite};
ghost use Rattle.record_result.specs.Framed.{framed_width, framed_in, framed_items};

use frames::Pose;
use layout::POSE;
use linalg::vector::Vec3;
use sim3::sim3::Sim3;
use so3::quat::Quat;

// How many bytes the numbers of a pose have, and the pose with its frames.
const NUMBERS: usize = 8 * POSE;

pub const FRAMED: usize = NUMBERS + 2 * 2;

// ---- reading
#[tactic(auto, using(wire::proofs::Places::short_read))]
pub(crate) fn short_at(b: &[u8], at: usize) -> u16
    requires { at + 2 ≤ length b.now }
    ensures { result ≡ word_at 2 b.now at }
{
    wire::short_from_le_bytes([b[at], b[at + 1]])
}

// The pose of these bytes.
pub fn framed_of(b: &[u8; FRAMED]) -> Pose<f64>
    ensures { result ≡ framed_in binary64 b.now }
{
    let mut x = [0.0; POSE];
    wire::decode(&b[..NUMBERS], &mut x);
    let q = Quat {
        w: x[0],
        x: x[1],
        y: x[2],
        z: x[3],
    };
    let t = Vec3 {
        x: x[4],
        y: x[5],
        z: x[6],
    };
    Pose {
        sim3: Sim3 { q, t, sigma: x[7] },
        from: short_at(b, 64),
        to: short_at(b, 66),
    }
}

pub(crate) fn framed_at(b: &[u8], at: usize) -> Pose<f64>
    requires { at + framed_width binary64 ≤ length b.now }
    ensures { result ≡ framed_in binary64 (drop at b.now) }
{
    framed_of(b[at..].first_chunk().unwrap())
}

// ---- writing
#[tactic(auto, using(wire::proofs::Places::short_stored))]
pub(crate) fn put_short(out: &mut [u8], at: usize, n: u16)
    requires { at + 2 ≤ length out.old }
    ensures { out.new ≡ sets out.old at (word_bytes 2 n) }
{
    out[at..at + 2].copy_from_slice(&wire::short_to_le_bytes(n));
}

// The bytes of a pose, and whether all its numbers are finite.
pub fn framed_bytes(x: Pose<f64>) -> ([u8; FRAMED], bool)
    ensures bytes { result.0 ≡ items_bytes binary64 (framed_items x) }
    ensures finite { result.1 ≡ all_finite (numbers (pose_numbers x.sim3)) }
{
    let Sim3 { q, t, sigma } = x.sim3;
    let mut out = [0; FRAMED];
    let y = [q.w, q.x, q.y, q.z, t.x, t.y, t.z, sigma];
    let finite = wire::encode(&y, &mut out[..NUMBERS]);
    put_short(&mut out, 64, x.from);
    put_short(&mut out, 66, x.to);
    (out, finite)
}

pub(crate) fn put_framed(out: &mut [u8], at: usize, x: Pose<f64>)
    requires { at + framed_width binary64 ≤ length out.old }
    ensures { out.new ≡ sets out.old at (items_bytes binary64 (framed_items x)) }
{
    let (bytes, _) = framed_bytes(x);
    out[at..at + FRAMED].copy_from_slice(&bytes);
}
