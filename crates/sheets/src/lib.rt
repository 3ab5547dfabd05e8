// Retaken sheets: the pose of the highest take for each of up to 512 sheets, in bytes that the caller lends. Proved:
// what is kept is the highest take among those accepted (HistoryTheorem, HighestTheorem), never for more than 512
// sheets (OwnTheorem), and comes back as it was sent, except that all NaNs are one (SentBackTheorem). The bytes are an
// index that names a slot for each sheet number, the slots, and how many of these are in use. A sheet owns a slot if
// the slot is in use and holds its number and the index names the slot for it: so any bytes are a store, and only the
// last two must be set before the first use. The code searches only if all slots are in use and a new sheet comes: then
// for a slot that no sheet owns, which only bytes that this crate did not write can have. Rests on frames, wire and
// record_result.
#![tactic(auto)]

ghost use Rattle.std.specs.Prelude.{◌≡◌, ◌+◌, ◌*◌, ◌≤◌};
ghost use Rattle.std.proofs.lemmas.List.Edits.{sets};
ghost use Rattle.linalg.specs.Answer.{answer, view};
ghost use Rattle.sheets.specs.Sheets.{no_sheets, most, shelve, ask};
ghost use Rattle.sheets.specs.Store.{slot_width, slots, used_of, slot_of, shot_in, slot_bytes, held_at};
ghost use Rattle.sheets.specs.Store.{free_slot, slot_view, next_slot, assign_of, add_answer, add_bytes, sheets_of};
ghost use Rattle.sheets.specs.Store.{shelved_of, retake_answer, retake_bytes, put_bytes, fresh_bytes};

use crate::bytes::{framed_at, put_framed, put_short, short_at};
use crate::slot::{MOST, SLOT, Slot, TAIL};
use frames::Pose;
use linalg::refusal::Refusal;

pub mod bytes; // poses at a place in the bytes
mod slot; // one of the 512 slots

// How many bytes a store has.
pub const STORE: usize = TAIL + 2;

// The bytes of a store; any bytes are one.
pub type Store = [u8; STORE];

// A sheet as it was photographed: the number of the take, and its pose.
#[derive(Clone, Copy)]
pub struct Shot {
    pub take: u16,
    pub pose: Pose<f64>,
}

// The result of a shot that is not refused: the first of its sheet; kept in place of the take given; not kept, because
// it is older than the take given.
#[derive(Clone, Copy, PartialEq, Eq)]
pub enum Shelved {
    New,
    Replaced(u16),
    Older(u16),
}

impl Shelved {
    // 1, 2 and 3, in this order.
    pub fn number(self) -> u8
        ensures { result ≡ (shelved_of self).how }
    {
        match self {
            Shelved::New => 1,
            Shelved::Replaced(_) => 2,
            Shelved::Older(_) => 3,
        }
    }

    // The take kept before; 0 for a new sheet.
    pub fn before(self) -> u16
        ensures { result ≡ (shelved_of self).before }
    {
        match self {
            Shelved::New => 0,
            Shelved::Replaced(take) => take,
            Shelved::Older(take) => take,
        }
    }
}

// ---- slots
// The slot that the index names for a sheet.
#[tactic(auto, unfolding(crate::specs::Store::slot_of))]
fn slot_of(store: &Store, sheet: u16) -> Slot
    ensures { result.number ≡ slot_of store.now sheet }
{
    Slot {
        number: short_at(store, 2 * (sheet as usize)) % MOST,
    }
}

// Whether that slot is in use and holds the sheet.
#[tactic(auto, unfolding(crate::specs::Store::held_at, crate::specs::Store::used_of))]
fn held(store: &Store, sheet: u16, slot: Slot) -> bool
    ensures { result ≡ held_at store.now sheet slot.number }
{
    (slot.number < short_at(store, TAIL)) & (short_at(store, slot.start()) == sheet)
}

// The shot in the bytes of a slot.
#[tactic(auto, unfolding(crate::specs::Store::shot_in))]
fn shot_in(b: &[u8; SLOT]) -> Shot
    ensures { result ≡ shot_in b.now }
{
    Shot {
        take: short_at(b, 2),
        pose: framed_at(b, 4),
    }
}

// Writes a shot into a slot.
fn put_slot(store: &mut Store, slot: Slot, sheet: u16, shot: Shot)
    ensures { store.new ≡ sets store.old (slots + slot_width * slot.number) (slot_bytes sheet shot) }
{
    let at = slot.start();
    let take = shot.take;
    let pose = shot.pose;
    put_short(store, at, sheet);
    put_short(store, at + 2, take);
    put_framed(store, at + 4, pose);
}

// ---- shots
// Gives a slot to the sheet: the index names it, and it holds the shot.
#[tactic(auto, unfolding(crate::specs::Store::assign_of, wire::specs::Wire::item_bytes))]
fn assign(store: &mut Store, sheet: u16, slot: Slot, shot: Shot)
    ensures { store.new ≡ assign_of store.old sheet slot.number shot }
{
    put_short(store, 2 * (sheet as usize), slot.number);
    put_slot(store, slot, sheet, shot);
}

// With all slots in use, the first that no sheet owns.
fn free_slot(store: &Store) -> Option<Slot>
    requires { most ≤ used_of store.now }
    ensures { slot_view result ≡ free_slot store.now }
{
    for number in 0..MOST {
        let slot = Slot { number };
        let sheet = short_at(store, slot.start());
        if slot_of(store, sheet).number != number {
            return Some(slot);
        }
    }
    None
}

// The slot for a sheet that has none: the next, or if all are in use one that no sheet owns.
fn next_slot(store: &Store, used: u16) -> Option<Slot>
    requires { used ≡ used_of store.now }
    ensures { slot_view result ≡ next_slot store.now }
{
    if used < MOST {
        return Some(Slot { number: used });
    }
    free_slot(store)
}

// A shot of a sheet that has none gets a slot. If there is none left, 512 sheets are kept.
// PERF (D122): one place that writes a slot for a new sheet, whichever slot it is.
#[tactic(auto, unfolding(crate::specs::Store::used_of))]
fn add(store: &mut Store, sheet: u16, shot: Shot) -> Result<Shelved, Refusal>
    ensures result_value { view shelved_of result ≡ add_answer store.old }
    ensures store_after { store.new ≡ add_bytes store.old sheet shot }
{
    let used = short_at(store, TAIL);
    let slot = next_slot(store, used).ok_or(Refusal::NoRoom)?;
    assign(store, sheet, slot, shot);
    if used < MOST {
        put_short(store, TAIL, used + 1);
    }
    Ok(Shelved::New)
}

// A shot of a sheet that has one in this slot: the higher take stays.
#[tactic(auto, unfolding(crate::specs::Store::retake_answer, crate::specs::Store::retake_bytes))]
fn retake(store: &mut Store, sheet: u16, slot: Slot, shot: Shot) -> Result<Shelved, Refusal>
    ensures result_value { view shelved_of result ≡ retake_answer store.old slot.number shot }
    ensures store_after { store.new ≡ retake_bytes store.old slot.number sheet shot }
{
    let before = short_at(store, slot.start() + 2);
    let take = shot.take;
    if take == before {
        return Err(Refusal::SameTake);
    }
    if before < take {
        put_slot(store, slot, sheet, shot);
        return Ok(Shelved::Replaced(before));
    }
    Ok(Shelved::Older(before))
}

// Makes the bytes a store in which nothing is kept.
pub fn fresh(store: &mut Store)
    ensures store_after { store.new ≡ fresh_bytes store.old }
    ensures sheets_after { sheets_of store.new ≡ no_sheets }
{
    put_short(store, TAIL, 0);
}

// A shot of a sheet: it is kept if that sheet has none, or one of a lower take. Refused with NoRoom if that sheet has
// none and 512 others have one, whatever the bytes are.
pub fn put(store: &mut Store, sheet: u16, shot: Shot) -> Result<Shelved, Refusal>
    ensures result_value { view shelved_of result ≡ (shelve (sheets_of store.old) sheet shot).answer }
    ensures store_after { store.new ≡ put_bytes store.old sheet shot }
    ensures sheets_after { sheets_of store.new ≡ (shelve (sheets_of store.old) sheet shot).sheets }
{
    let slot = slot_of(store, sheet);
    if held(store, sheet, slot) {
        return retake(store, sheet, slot, shot);
    }
    add(store, sheet, shot)
}

// The shot that is kept for a sheet.
pub fn get(store: &Store, sheet: u16) -> Result<Shot, Refusal>
    ensures { answer result ≡ ask (sheets_of store.now) sheet }
{
    let slot = slot_of(store, sheet);
    if held(store, sheet, slot) {
        let at = slot.start();
        return Ok(shot_in(store[at..].first_chunk().unwrap()));
    }
    Err(Refusal::NeverKept)
}
