// The functions of pio as C and Rust link them: the names and the argument lists of include/pio.h, and the same promises.
#![tactic(auto)]

ghost use Rattle.pio.specs.Calls.{FreshCall, StepCall, RunCall, WaveCall, LinesCall};

use board::Board;

// A fresh board of `size` chips; 33 and a board of size 0 for a size that no board has.
#[unsafe(no_mangle)]
pub extern "C" fn pio_fresh(board: &mut Board, size: usize) -> u8
    ensures { FreshCall size result board.new }
{
    pio::pio_fresh(board, size)
}

// One step, with its answer's four bytes at the start of `answer`. A shorter buffer is refused with 34 before all else.
#[unsafe(no_mangle)]
pub extern "C" fn pio_step(board: &mut Board, event: &[u8], answer: &mut [u8]) -> u8
    ensures { StepCall board.old event.now answer.old result board.new answer.new }
{
    pio::pio_step(board, event, answer)
}

// A run over the records of `events`, their answers from the record `start` of `answers` on, and their number in `records`.
#[unsafe(no_mangle)]
pub extern "C" fn pio_run(
    board: &mut Board,
    events: &[u8],
    answers: &mut [u8],
    start: usize,
    records: &mut usize,
) -> u8
    ensures { RunCall board.old events.now answers.old start result board.new answers.new records.new }
{
    pio::pio_run(board, events, answers, start, records)
}

// The text of a recording at the start of `text`, and its length in `written`.
#[unsafe(no_mangle)]
pub extern "C" fn pio_wave(
    board: &mut Board,
    events: &[u8],
    stamps: &[u8],
    text: &mut [u8],
    written: &mut usize,
) -> u8
    ensures { WaveCall board.old events.now stamps.now text.old result board.new text.new written.new }
{
    pio::pio_wave(board, events, stamps, text, written)
}

// The lines driven at a place: two bytes at the start of `lines`.
#[unsafe(no_mangle)]
pub extern "C" fn pio_lines(board: &Board, place: usize, lines: &mut [u8]) -> u8
    ensures { LinesCall board.now place lines.old result lines.new }
{
    pio::pio_lines(board, place, lines)
}
