// The export of a recording for the wave viewer. Document 02, Ask 1: the records one after the other, and what each time shows.
#![tactic(auto)]

ghost use Rattle.std.specs.Prelude.{◌≡◌, Ok, IfOk, ◌+◌, ◌*◌, ◌/◌, ◌%◌, ◌≤◌, length};
ghost use Rattle.buffers.specs.Splice.{splice, if_room};
ghost use Rattle.chain.specs.Chain.{most};
ghost use Rattle.board.specs.Halves.{seen_of};
ghost use Rattle.frames.specs.Frames.{later_frame};
ghost use Rattle.records.specs.Records.{records, steps_of};
ghost use Rattle.recording.specs.Wave.{wave_text, checked_of, exported_by, exported_of, page_of};

use board::{Board, Look};
use refusals::Refusal;

// The refusals of an export of a sound board whose text has `text` bytes; and what all the rest may rely on.
#[tactic(auto, unfolding(crate::specs::Wave::checked_of))]
fn check(events: usize, stamps: usize, text: usize, room: usize) -> Result<(), Refusal>
    ensures value { result ≡ checked_of events stamps text room }
    ensures passed { IfOk result (λ x. (events % 4 ≡ 0) × ((events / 4 ≤ 16384) × (stamps ≡ 2 * (events / 4)))) }
{
    if events % 4 != 0 {
        return Err(Refusal::Length);
    }
    if events / 4 > 16384 {
        return Err(Refusal::Records);
    }
    if stamps != 2 * (events / 4) {
        return Err(Refusal::Stamps);
    }
    if text > room {
        return Err(Refusal::Text);
    }
    Ok(())
}

// The text of a time at index `at`, if there is room for it all. Answers the index behind it, with room and without. No text comes to a
// million bytes, so that index is a number.
fn show(out: &mut [u8], at: usize, time: u64, shown: [u8; 9], values: [u8; 9]) -> usize
    requires { at ≤ 1000000 }
    ensures value { (result ≡ at + length (later_frame time shown values)) × (result ≤ at + 49) }
    ensures out_after { out.new ≡ splice out.old at (if_room out.old at (length (later_frame time shown values)) (later_frame time shown values)) }
{
    let mut frame = [0u8; 49];
    let n = frames::put_frame(&mut frame, time, shown, values);
    buffers::put_bytes(out, at, &frame[..n]);
    at + n
}

// All the records of a sound board, with a stamp for each; `seen` is a look at the board. Answers the text's length; the text is written
// if there is room for it all. In a buffer without room bytes may have changed, so a buffer of none serves to measure.
fn scan(board: &mut Board, seen: Look, events: &[u8], stamps: &[u8], out: &mut [u8]) -> usize
    requires seen_value { (seen_of board.old ≡ Ok seen) × (length board.old.chips ≡ most) }
    requires events_len { (length events.now % 4 ≡ 0) × ((length events.now / 4 ≤ 16384) × (length stamps.now ≡ 2 * (length events.now / 4))) }
    ensures value { result ≡ length (wave_text board.old events.now stamps.now) }
    ensures board_after { board.new ≡ steps_of board.old (records events.now) }
    ensures out_len_unchanged { length out.new ≡ length out.old }
    ensures out_after { result ≤ length out.old → out.new ≡ splice out.old 0 (wave_text board.old events.now stamps.now) }
{
    let (records, _) = events.as_chunks::<4>();
    let mut look = seen;
    frames::put_header(out);
    let mut next: usize = 257;
    // No value is 2: at the first time every line is new.
    let mut shown = [2u8; 9];
    let mut time: u64 = 0;
    for (i, event) in records.iter().enumerate() {
        let answer = steps::advance(board, &mut look, event);
        let gap = frames::gap_after(stamps, i);
        if gap != 0 {
            let values = frames::values(board.size, board.chips, answer.request);
            next = show(out, next, time, shown, values);
            shown = values;
        }
        time += gap;
    }
    next
}

// The text of a recording at the start of `out`, its length as the answer, and the board moved on as a run would; or refuses with 35, 32,
// 36, 41 or 40, and board and buffer as they were. A buffer without room for the header is refused at once, and one with room for the
// longest text that so many records can have is written to at once; for others the text is measured first.
pub fn export(
    board: &mut Board,
    events: &[u8],
    stamps: &[u8],
    out: &mut [u8],
) -> Result<usize, Refusal>
    ensures value { exported_by board.new result ≡ exported_of board.old events.now stamps.now (length out.old) }
    ensures out_after { out.new ≡ page_of board.old events.now stamps.now out.old }
{
    let look = board::sound_look(board)?;
    check(events.len(), stamps.len(), 257, out.len())?;
    if out.len() < 257 + 39 * (events.len() / 4) {
        let mut measured = *board;
        let text = scan(&mut measured, look, events, stamps, &mut out[..0]);
        if text > out.len() {
            return Err(Refusal::Text);
        }
    }
    Ok(scan(board, look, events, stamps, out))
}
