// The sheets between calls.
ghost use Rattle.std.specs.Prelude.{cond, ◌≡◌};
ghost use Rattle.sheets.specs.Sheets.{no_sheets};
ghost use Rattle.sheets.specs.Store.{sheets_of};
ghost use Rattle.layout.specs.Lists.{pose_lists};
ghost use Rattle.from_lists.specs.Lists.{framed_from};
ghost use Rattle.to_lists.specs.Written.{status, written};
ghost use Rattle.sim3_c_doubles.specs.Shelf.{holds, fresh_call, put_call, store_after, kept_after, shot_lists};
ghost use Rattle.sim3_c_doubles.specs.Shelf.{get_call};
ghost use Rattle.sim3_c_doubles.specs.Shelf.{shot_written};

use to_lists::status;

// Nothing is kept yet.
#[unsafe(no_mangle)]
pub extern "C" fn sim3_sheets_start(store: &mut [u8]) -> u32
    ensures value { result ≡ status (fresh_call store.old) }
    ensures store_after { store.new ≡ written (fresh_call store.old) store.old }
    ensures sheets_after { sheets_of store.new ≡ cond (holds store.old) no_sheets (sheets_of store.old) }
{
    status(sim3_c_doubles::shelf::sim3_sheets_start(store))
}

// A shot of a sheet.
#[unsafe(no_mangle)]
pub extern "C" fn sim3_sheets_put(
    store: &mut [u8],
    sheet: u16,
    take: u16,
    x: &[f64],
    x_frames: &[u16],
    out: &mut [u16],
) -> u32
    ensures value { result ≡ status (put_call store.old sheet take (pose_lists x.now x_frames.now) out.old) }
    ensures out_after { out.new
        ≡ written (put_call store.old sheet take (pose_lists x.now x_frames.now) out.old) out.old }
    ensures store_after { store.new ≡ store_after store.old sheet take
        (framed_from (pose_lists x.now x_frames.now)) out.old }
    ensures sheets_after { sheets_of store.new ≡ kept_after store.old sheet take
        (framed_from (pose_lists x.now x_frames.now)) out.old }
{
    status(sim3_c_doubles::shelf::sim3_sheets_put(store, sheet, take, x, x_frames, out))
}

// The take and the pose that are kept for a sheet.
#[unsafe(no_mangle)]
pub extern "C" fn sim3_sheets_get(
    store: &[u8],
    sheet: u16,
    take: &mut [u16],
    out: &mut [f64],
    out_frames: &mut [u16],
) -> u32
    ensures value { result ≡ status (get_call store.now sheet (shot_lists take.old out.old out_frames.old)) }
    ensures out_frames_after { shot_lists take.new out.new out_frames.new
        ≡ shot_written (get_call store.now sheet) (shot_lists take.old out.old out_frames.old) }
{
    status(sim3_c_doubles::shelf::sim3_sheets_get(store, sheet, take, out, out_frames))
}
