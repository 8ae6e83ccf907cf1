// The step over a lent board. Document 01, "The board is lent to the step and altered there": the board stays where its caller keeps it.
#![tactic(auto)]

ghost use Rattle.std.specs.Prelude.{◌≡◌};
ghost use Rattle.board.specs.Step.{step_of};

use board::{Answer, Board};
use refusals::Refusal;

// One step of any board, by any event.
pub fn step(board: &mut Board, event: &[u8]) -> Answer
    ensures value { result ≡ (step_of board.old event.now).answer }
    ensures board_after { board.new ≡ (step_of board.old event.now).board }
{
    let Ok(event) = <&[u8; 4]>::try_from(event) else {
        return Answer {
            code: Refusal::Length.into(),
            place: 0,
            value: 0,
            request: 0,
        };
    };
    let [_, place, value, _] = *event;
    match board::sound_look(board) {
        Ok(mut look) => steps::advance(board, &mut look, event),
        Err(refusal) => Answer {
            code: refusal.into(),
            place,
            value,
            request: 0,
        },
    }
}
