// A run over many records. Document 01, "Records": the run's refusals, and what it reports. It looks the board over once; `records`
// steps the records.
#![tactic(auto)]

ghost use Rattle.std.specs.Prelude.{◌≡◌};
ghost use Rattle.run.specs.Run.{counted_of, ran_by, ran_of, buffer_of};

use board::Board;
use refusals::Refusal;

// The number of a run's records, for which there is room. No sum is formed that could be too large.
#[tactic(auto, using(crate::proofs::Ways::length_refused, crate::proofs::Ways::room_refused, crate::proofs::Ways::none_refused))]
fn count(events: usize, room: usize, start: usize) -> Result<usize, Refusal>
    ensures { result ≡ counted_of events room start }
{
    if events % 4 != 0 {
        return Err(Refusal::Length);
    }
    if start > room / 4 {
        return Err(Refusal::Room);
    }
    if events / 4 > room / 4 - start {
        return Err(Refusal::Room);
    }
    Ok(events / 4)
}

// Steps all the records, refused ones included, and writes the answers from the record `start` of the buffer on; or refuses with
// 35, 32 or 34, and board and buffer as they were.
#[tactic(auto, using(crate::proofs::Ways::unsound_ran, crate::proofs::Ways::unsound_buffer, crate::proofs::Ways::refused_ran, crate::proofs::Ways::refused_buffer))]
pub fn run(
    board: &mut Board,
    events: &[u8],
    answers: &mut [u8],
    start: usize,
) -> Result<usize, Refusal>
    ensures value { ran_by board.new result ≡ ran_of board.old events.now answers.old start }
    ensures answers_after { answers.new ≡ buffer_of board.old events.now answers.old start }
{
    let look = board::sound_look(board)?;
    let n = count(events.len(), answers.len(), start)?;
    records::run_records(board, look, events, answers, start);
    Ok(n)
}
