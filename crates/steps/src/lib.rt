// What an event changes: document 01, "Records", the second half of a step, at one chip or at all; and one record on a sound board, which
// is both halves. The definitions are the board's.
#![tactic(auto)]

ghost use Rattle.std.specs.Prelude.{◌≡◌};
ghost use Rattle.board.specs.Halves.{touched_of, sweep_of, freed_chips, swept_of, advanced, changed_of, with_swept, carried, advanced_of};

use board::{Answer, Board, Code, Look, Plan, Sweep, Touch, Touched};
use chain::MOST;
use chip::Chip;

// What happens to the one chip that the event concerns.
#[tactic(auto, unfolding(board::specs::Halves::touched_of))]
fn touch(c: Chip, place: u8, what: Touch, value: u8) -> Touched
    ensures { result ≡ touched_of c place what value }
{
    let on_b = place % 2 == 1;
    match what {
        Touch::Release => Touched {
            chip: chip::release_port(c, on_b),
            code: Code::Done.into(),
            place: 0,
            value,
        },
        Touch::Serve => {
            let p = chip::port_of(c, on_b);
            Touched {
                chip: chip::serve_port(c, on_b),
                code: Code::Answered.into(),
                place,
                value: p.vector,
            }
        }
        Touch::Act(event) => Touched::acted(c, place, value, events::act(c, on_b, event)),
    }
}

// The place's chip is changed: it is put back, what is known follows, and the answer tells the request.
#[tactic(auto, unfolding(board::specs::Halves::changed_of))]
fn put(board: &mut Board, look: &mut Look, place: u8, t: Touched) -> Answer
    ensures { advanced board.new look.new result ≡ changed_of board.old look.old place t }
{
    let k = place as usize / 2 % MOST;
    board.chips[k] = t.chip;
    *look = look.noting(k, t.chip);
    Answer {
        code: t.code,
        place: t.place,
        value: t.value,
        request: look.request,
    }
}

// One chip of a reset or of a fetch.
fn sweep_chip(sweep: Sweep, c: Chip) -> Chip
    ensures { result ≡ sweep_of sweep c }
{
    match sweep {
        Sweep::Clear => chip::reset_chip(c),
        Sweep::Wake => chip::fetch_chip(c),
    }
}

// The chips after the release that a RETI asks.
fn freed(chips: [Chip; MOST], freed: Option<u8>) -> [Chip; MOST]
    ensures { result ≡ freed_chips chips freed }
{
    let mut next = chips;
    if let Some(place) = freed {
        let k = place as usize / 2 % MOST;
        next[k] = chip::release_port(chips[k], place % 2 == 1);
    }
    next
}

// Every chip that is there, and what is known, after a reset or a fetch. Of such chips a fetch would make no port live.
fn sweep_each(
    board: &mut Board,
    look: &mut Look,
    free: Option<u8>,
    sweep: Sweep,
    value: u8,
) -> Answer
    ensures { advanced board.new look.new result ≡ with_swept board.old (swept_of board.old.size board.old.chips free sweep) value }
{
    let old = freed(board.chips, free);
    let mut chips = old;
    let mut marks = chain::unmarked();
    for k in 0..MOST.min(board.size as usize) {
        let d = sweep_chip(sweep, old[k]);
        chips[k] = d;
        let more = chain::marked(marks, k, d);
        marks = more;
    }
    board.chips = chips;
    let request = chain::caller(marks);
    *look = Look {
        marks,
        due: false,
        request,
    };
    Answer {
        code: Code::Done.into(),
        place: 0,
        value,
        request,
    }
}

// The second half of a step.
#[tactic(auto, unfolding(board::specs::Halves::carried))]
fn carry(board: &mut Board, look: &mut Look, plan: Plan, value: u8) -> Answer
    ensures { advanced board.new look.new result ≡ carried board.old look.old plan value }
{
    match plan {
        Plan::Nothing(answer) => answer,
        Plan::One { place, touch: what } => {
            let c = board.chips[place as usize / 2 % MOST];
            put(board, look, place, touch(c, place, what, value))
        }
        Plan::Each { freed, sweep } => sweep_each(board, look, freed, sweep, value),
    }
}

// One event of four bytes on a sound board: the board and what is known of it are moved on.
#[tactic(auto, unfolding(board::specs::Halves::advanced_of))]
pub fn advance(board: &mut Board, look: &mut Look, event: &[u8; 4]) -> Answer
    ensures { advanced board.new look.new result ≡ advanced_of board.old look.old event.now }
{
    let [_, place, value, _] = *event;
    match plans::read_event(board.size, *event) {
        Ok(doing) => {
            let plan = plans::plan(board.decoder, *look, doing);
            board.decoder = plans::listen(board.decoder, doing);
            carry(board, look, plan, value)
        }
        Err(refusal) => Answer {
            code: refusal.into(),
            place,
            value,
            request: look.request,
        },
    }
}
