// The board is lent: each function takes a board that stays where its caller keeps it, and lends it on. Document 01, "The board is lent to the step and altered there". The functions whose names begin with pio_ are what C and
// Rust link, by the names that pio_c gives them; include/pio.h says in words what each answers and refuses, and specs/Calls.antt what it
// promises.
#![tactic(auto)]

ghost use Rattle.std.specs.Prelude.{◌≡◌};
ghost use Rattle.board.specs.Board.{blank_board};
ghost use Rattle.pio.specs.Calls.{FreshCall, StepCall, RunCall, WaveCall, LinesCall};

use board::Board;
use refusals::Refusal;

// A fresh board of `size` chips; 33 and a board of size 0 for a size that no board has.
pub fn pio_fresh(board: &mut Board, size: usize) -> u8
    ensures { FreshCall size result board.new }
{
    match board::fresh(size) {
        Ok(fresh) => {
            *board = fresh;
            0
        }
        Err(refusal) => {
            *board = board::blank(0);
            refusal.into()
        }
    }
}

// One step, with its answer's four bytes at the start of `answer`. A shorter buffer is refused with 34 before all else.
#[tactic(auto, using(buffers::proofs::Splices::no_room, buffers::proofs::Splices::splice_none), unfolding(crate::specs::Lent::lent_of, crate::specs::Lent::written, board::specs::Step::bytes_of))]
pub fn pio_step(board: &mut Board, event: &[u8], answer: &mut [u8]) -> u8
    ensures { StepCall board.old event.now answer.old result board.new answer.new }
{
    if answer.len() < 4 {
        return Refusal::Room.into();
    }
    let a = lent::step(board, event);
    buffers::put_record(answer, <[u8; 4]>::from(a));
    a.code
}

// A run over the records of `events`, their answers from the record `start` of `answers` on, and their number in `records`.
pub fn pio_run(
    board: &mut Board,
    events: &[u8],
    answers: &mut [u8],
    start: usize,
    records: &mut usize,
) -> u8
    ensures { RunCall board.old events.now answers.old start result board.new answers.new records.new }
{
    match run::run(board, events, answers, start) {
        Ok(count) => {
            *records = count;
            0
        }
        Err(refusal) => {
            *records = 0;
            refusal.into()
        }
    }
}

// The text of a recording at the start of `text`, and its length in `written`.
pub fn pio_wave(
    board: &mut Board,
    events: &[u8],
    stamps: &[u8],
    text: &mut [u8],
    written: &mut usize,
) -> u8
    ensures { WaveCall board.old events.now stamps.now text.old result board.new text.new written.new }
{
    match recording::export(board, events, stamps, text) {
        Ok(length) => {
            *written = length;
            0
        }
        Err(refusal) => {
            *written = 0;
            refusal.into()
        }
    }
}

// The lines driven at a place: the levels and a 1 for each driven line, two bytes at the start of `lines`, or two of 0 with a refusal. A
// shorter buffer is refused with 34 before all else.
#[tactic(auto, using(buffers::proofs::Splices::no_room, buffers::proofs::Splices::splice_none, buffers::proofs::Splices::start_in_room), unfolding(crate::specs::Lent::lent_lines, crate::specs::Lent::written))]
pub fn pio_lines(board: &Board, place: usize, lines: &mut [u8]) -> u8
    ensures { LinesCall board.now place lines.old result lines.new }
{
    if lines.len() < 2 {
        return Refusal::Room.into();
    }
    let mut code = 0;
    let mut shown = [0, 0];
    match board::driven_lines(board, place) {
        Ok(told) => shown = [told.levels, told.driven],
        Err(refusal) => code = refusal.into(),
    }
    lines[..2].copy_from_slice(&shown);
    code
}
