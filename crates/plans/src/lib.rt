// What an event asks of the board: document 01, "Records", the refusals that need no look at a port, and the first half of a step. The
// definitions are the board's.
#![tactic(auto)]

ghost use Rattle.std.specs.Prelude.{◌≡◌};
ghost use Rattle.board.specs.Step.{decoder_after};
ghost use Rattle.board.specs.Halves.{read_of, freed_of, fetch_plan, acknowledge_plan, plan_of};

use board::{Answer, Code, Doing, Look, Plan, Sweep, Touch};
use chain::{Decoder, Marks};
use events::Event;
use refusals::Refusal;

// What an event of four bytes does, or the first refusal that needs no look at a port.
#[tactic(auto, using(crate::proofs::Ways::kind_refused, crate::proofs::Ways::place_refused, crate::proofs::Ways::value_refused, crate::proofs::Ways::reads_reset, crate::proofs::Ways::reads_fetch, crate::proofs::Ways::reads_acknowledge, crate::proofs::Ways::reads_place))]
pub fn read_event(size: u8, event: [u8; 4]) -> Result<Doing, Refusal>
    ensures { result ≡ read_of size event }
{
    let [kind, place, value, last] = event;
    if kind > 7 {
        return Err(Refusal::Kind);
    }
    if !(place / 2 < size) | ((kind < 3) & !(place == 0)) {
        return Err(Refusal::Place);
    }
    if (((kind == 0) | (kind == 2) | (kind == 5)) & !(value == 0))
        | ((kind == 6) & !(value < 2))
        | !(last == 0)
    {
        return Err(Refusal::Value);
    }
    Ok(match kind {
        0 => Doing::Reset,
        1 => Doing::Fetch(value),
        2 => Doing::Acknowledge,
        _ => Doing::At(place, Event::of(kind, value)),
    })
}

// The decoder after an accepted event: an acknowledge and a reset forget an open ED.
pub fn listen(decoder: Decoder, doing: Doing) -> Decoder
    ensures { result ≡ decoder_after decoder doing }
{
    match doing {
        Doing::Fetch(byte) => decoder.next(byte),
        Doing::At(_, _) => decoder,
        Doing::Reset | Doing::Acknowledge => Decoder { prefix: 0 },
    }
}

// The place that a fetch releases: the nearest under service, where the byte ends a RETI.
#[tactic(auto, using(crate::proofs::Ways::holder_small, crate::proofs::Ways::frees_nobody, crate::proofs::Ways::frees_none))]
fn freed(decoder: Decoder, marks: Marks, byte: u8) -> Option<u8>
    ensures { result ≡ freed_of decoder marks byte }
{
    if !decoder.reti(byte) {
        return None;
    }
    let place = chain::holder(marks)?;
    Some(place as u8)
}

// An opcode fetch: of every chip where a port could become live; else at most of the port that a RETI releases.
#[tactic(auto, unfolding(board::specs::Halves::fetch_plan))]
fn plan_fetch(decoder: Decoder, look: Look, byte: u8) -> Plan
    ensures { result ≡ fetch_plan decoder look byte }
{
    let freed = freed(decoder, look.marks, byte);
    if look.due {
        return Plan::Each {
            freed,
            sweep: Sweep::Wake,
        };
    }
    match freed {
        Some(place) => Plan::One {
            place,
            touch: Touch::Release,
        },
        None => Plan::Nothing(Answer {
            code: Code::Done.into(),
            place: 0,
            value: byte,
            request: look.request,
        }),
    }
}

// An interrupt acknowledge: the port that the request names answers, or nobody.
#[tactic(auto, unfolding(board::specs::Halves::acknowledge_plan))]
fn plan_acknowledge(request: u8) -> Plan
    ensures { result ≡ acknowledge_plan request }
{
    match request.checked_sub(1) {
        Some(place) => Plan::One {
            place,
            touch: Touch::Serve,
        },
        None => Plan::Nothing(Answer {
            code: Code::Nobody.into(),
            place: 0,
            value: 255,
            request,
        }),
    }
}

// The first half of a step: what an accepted event asks of the chips of a sound board.
pub fn plan(decoder: Decoder, look: Look, doing: Doing) -> Plan
    ensures { result ≡ plan_of decoder look doing }
{
    match doing {
        Doing::Reset => Plan::Each {
            freed: None,
            sweep: Sweep::Clear,
        },
        Doing::Fetch(byte) => plan_fetch(decoder, look, byte),
        Doing::Acknowledge => plan_acknowledge(look.request),
        Doing::At(place, event) => Plan::One {
            place,
            touch: Touch::Act(event),
        },
    }
}
