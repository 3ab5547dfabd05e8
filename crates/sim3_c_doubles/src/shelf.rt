// The sheets between calls: the pose of the highest take for each of up to 512 sheets, kept in bytes that
// the caller lends.
ghost use Rattle.std.specs.Prelude.{cond, ◌≡◌};
ghost use Rattle.linalg.specs.Answer.{answer, view};
ghost use Rattle.sheets.specs.Sheets.{no_sheets};
ghost use Rattle.sheets.specs.Store.{sheets_of, shelved_of};
ghost use Rattle.layout.specs.Lists.{pose_lists};
ghost use Rattle.from_lists.specs.Lists.{framed_from};
ghost use Rattle.to_lists.specs.Written.{status, written};
ghost use Rattle.sim3_c_doubles.specs.Shelf.{holds, put_answer, put_store, put_sheets, get_answer, fresh_call};
ghost use Rattle.sim3_c_doubles.specs.Shelf.{shelved_fitting, put_call, store_after, kept_after};
ghost use Rattle.sim3_c_doubles.specs.Shelf.{shot_lists, shot_fitting, get_call, shot_written};

use from_lists::framed_from;
use layout::{FRAMES, POSE};
use linalg::refusal::Refusal;
use sheets::{Shelved, Shot, Store};
use to_lists::put_framed;

// The length of the reply to a shot: 1, 2 or 3, and the take kept before.
const SHELVED: usize = 2;

const TAKE: usize = 1;

// Nothing is kept yet.
#[tactic(auto, unfolding(crate::proofs::Unfolds::sim3_sheets_start_unfolds))]
pub fn sim3_sheets_start(store: &mut [u8]) -> Result<(), Refusal>
    ensures value { status (answer result) ≡ status (fresh_call store.old) }
    ensures store_after { store.new ≡ written (fresh_call store.old) store.old }
    ensures sheets_after { sheets_of store.new ≡ cond (holds store.old) no_sheets (sheets_of store.old) }
{
    let Some(store) = store.as_mut_array() else {
        return Err(Refusal::ListLength);
    };
    sheets::fresh(store);
    Ok(())
}

#[tactic(auto, unfolding(crate::proofs::Unfolds::put_shelved_unfolds))]
fn put_shelved(out: &mut [u16], a: Result<Shelved, Refusal>) -> Result<(), Refusal>
    ensures value { status (answer result) ≡ status (shelved_fitting out.old (view shelved_of a)) }
    ensures out_after { out.new ≡ written (shelved_fitting out.old (view shelved_of a)) out.old }
{
    let shelved = a?;
    if out.len() != SHELVED {
        return Err(Refusal::ListLength);
    }
    let take = shelved.before();
    out[0] = shelved.number() as u16;
    out[1] = take;
    Ok(())
}

// `sheets::put` and `sheets::get` on borrowed bytes; refused if they have not the length of a store.
fn put(store: &mut [u8], sheet: u16, shot: Shot) -> Result<Shelved, Refusal>
    ensures result_value { view shelved_of result ≡ put_answer store.old sheet shot }
    ensures store_after { store.new ≡ put_store store.old sheet shot }
    ensures sheets_after { sheets_of store.new ≡ put_sheets store.old sheet shot }
{
    let Some(store) = store.as_mut_array() else {
        return Err(Refusal::ListLength);
    };
    sheets::put(store, sheet, shot)
}

fn get(store: &[u8], sheet: u16) -> Result<Shot, Refusal>
    ensures { answer result ≡ get_answer store.now sheet }
{
    let store: &Store = store.as_array().ok_or(Refusal::ListLength)?;
    sheets::get(store, sheet)
}

// A shot of a sheet: it is kept if that sheet has none, or one of a lower take.
#[tactic(auto, unfolding(crate::proofs::Unfolds::sim3_sheets_put_unfolds))]
pub fn sim3_sheets_put(
    store: &mut [u8],
    sheet: u16,
    take: u16,
    x: &[f64],
    x_frames: &[u16],
    out: &mut [u16],
) -> Result<(), Refusal>
    ensures value { status (answer result)
        ≡ status (put_call store.old sheet take (pose_lists x.now x_frames.now) out.old) }
    ensures out_after { out.new
        ≡ written (put_call store.old sheet take (pose_lists x.now x_frames.now) out.old) out.old }
    ensures store_after { store.new ≡ store_after store.old sheet take
        (framed_from (pose_lists x.now x_frames.now)) out.old }
    ensures sheets_after { sheets_of store.new ≡ kept_after store.old sheet take
        (framed_from (pose_lists x.now x_frames.now)) out.old }
{
    let pose = framed_from(x, x_frames)?;
    if out.len() != SHELVED {
        return Err(Refusal::ListLength);
    }
    put_shelved(out, put(store, sheet, Shot { take, pose }))
}

#[tactic(auto, unfolding(crate::proofs::Unfolds::put_shot_unfolds))]
fn put_shot(
    take: &mut [u16],
    out: &mut [f64],
    out_frames: &mut [u16],
    s: Shot,
) -> Result<(), Refusal>
    ensures value { status (answer result) ≡ status (shot_fitting (shot_lists take.old out.old out_frames.old) s) }
    ensures out_frames_after { shot_lists take.new out.new out_frames.new
        ≡ shot_written (λ o. shot_fitting o s) (shot_lists take.old out.old out_frames.old) }
{
    if take.len() != TAKE {
        return Err(Refusal::ListLength);
    }
    if out.len() != POSE {
        return Err(Refusal::ListLength);
    }
    if out_frames.len() != FRAMES {
        return Err(Refusal::ListLength);
    }
    take[0] = s.take;
    put_framed(out, out_frames, s.pose)
}

// The take and the pose that are kept for a sheet.
#[tactic(auto, unfolding(crate::specs::Shelf::get_call, to_lists::proofs::OnLists::on_lists))]
pub fn sim3_sheets_get(
    store: &[u8],
    sheet: u16,
    take: &mut [u16],
    out: &mut [f64],
    out_frames: &mut [u16],
) -> Result<(), Refusal>
    ensures value { status (answer result)
        ≡ status (get_call store.now sheet (shot_lists take.old out.old out_frames.old)) }
    ensures out_frames_after { shot_lists take.new out.new out_frames.new
        ≡ shot_written (get_call store.now sheet) (shot_lists take.old out.old out_frames.old) }
{
    put_shot(take, out, out_frames, get(store, sheet)?)
}
