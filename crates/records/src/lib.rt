// All the records of a run, on a sound board with room for their answers. What is known of the board goes along with it: an event that
// concerns one chip changes that chip where it lies, and a fetch that changes nothing touches no chip at all.
#![tactic(auto)]

ghost use Rattle.std.specs.Prelude.{◌≡◌, true, Ok, ◌+◌, ◌*◌, ◌/◌, ◌%◌, ◌≤◌, length};
ghost use Rattle.buffers.specs.Splice.{splice};
ghost use Rattle.chip.specs.Chip.{side};
ghost use Rattle.chip.specs.Sound.{sound_chip};
ghost use Rattle.events.specs.Act.{act_of};
ghost use Rattle.chain.specs.Chain.{most};
ghost use Rattle.board.specs.Halves.{seen_of};
ghost use Rattle.records.specs.Records.{records, steps_of, answers_of};
ghost use Rattle.records.specs.Fast.{idles_of, acting_as};

use board::{Board, Code, Doing, Look};
use chain::{Decoder, MOST};
use chip::Chip;
use events::Event;

// Whether an event is a fetch that changes the decoder alone.
#[tactic(auto, unfolding(crate::specs::Fast::idles_of))]
fn idles(event: &[u8; 4], decoder: Decoder, due: bool) -> bool
    ensures { result ≡ idles_of decoder due event.now }
{
    let [kind, place, value, last] = *event;
    (kind == 1) & (place == 0) & (last == 0) & !due & !decoder.reti(value)
}

// What an event of kinds 3 to 7 answers: a code and a value.
#[derive(Clone, Copy)]
struct Told {
    code: u8,
    value: u8,
}

// An event of kinds 3 to 7 at a sound chip, which changes where it lies, with no more settling than it can need.
#[tactic(auto, unfolding(events::specs::Act::step, events::specs::Act::outcome_of, events::specs::Act::act_of))]
fn act(c: &mut Chip, on_b: bool, event: Event, value: u8) -> Told
    ensures { sound_chip c.old ≡ true → acting_as c.new result ≡ act_of (side on_b) event value c.old }
{
    let mut told = Told {
        code: Code::Done.into(),
        value,
    };
    match event {
        Event::Control(word) => match shortcuts::control(*c, on_b, word) {
            Ok(d) => *c = d,
            Err(refusal) => told.code = refusal.into(),
        },
        Event::Write(byte) => *c = shortcuts::write(*c, on_b, byte),
        Event::Read => {
            let acted = shortcuts::read(*c, on_b);
            *c = acted.chip;
            if let Some(byte) = acted.shown {
                told = Told {
                    code: Code::Data.into(),
                    value: byte,
                };
            }
        }
        Event::Strobe(level) => *c = shortcuts::strobe(*c, on_b, level),
        Event::Outside(levels) => *c = shortcuts::lines(*c, on_b, levels),
    }
    told
}

// All the records, on a sound board with room for their answers; `seen` is a look at the board.
pub fn run_records(board: &mut Board, seen: Look, events: &[u8], answers: &mut [u8], start: usize)
    requires seen_value { (seen_of board.old ≡ Ok seen) × (length board.old.chips ≡ most) }
    requires events_len { (length events.now % 4 ≡ 0) × (start + length events.now / 4 ≤ length answers.old / 4) }
    ensures board_after { board.new ≡ steps_of board.old (records events.now) }
    ensures answers_after { answers.new ≡ splice answers.old (4 * start) (answers_of board.old (records events.now)) }
    ensures answers_len_unchanged { length answers.new ≡ length answers.old }
{
    let (records, _) = events.as_chunks::<4>();
    let mut look = seen;
    for (i, event) in records.iter().enumerate() {
        let value = event[2];
        let to = 4 * (start + i);
        // A fetch that changes the decoder alone.
        if idles(event, board.decoder, look.due) {
            board.decoder = board.decoder.next(value);
            buffers::put_record(&mut answers[to..], [0, 0, value, look.request]);
            continue;
        }
        // An event of kinds 3 to 7 changes its chip where it lies.
        if let Ok(Doing::At(place, what)) = plans::read_event(board.size, *event) {
            let k = place as usize / 2 % MOST;
            let told = act(&mut board.chips[k], place % 2 == 1, what, value);
            look = look.noting(k, board.chips[k]);
            buffers::put_record(
                &mut answers[to..],
                [told.code, place, told.value, look.request],
            );
            continue;
        }
        let answer = steps::advance(board, &mut look, event);
        buffers::put_record(&mut answers[to..], answer.into());
    }
}
