// One port at rest: whether its lines match, what settling after an event makes of it, and what a sound board asks of it. Document 01,
// "Data, handshake, bits" and "Sound board". What a port needs to know of the other port of its chip comes as a flag.
#![tactic(auto)]

ghost use Rattle.std.specs.Prelude.{◌≡◌};
ghost use Rattle.port.specs.Rules.{match_now, settled};
ghost use Rattle.port.specs.Sound.{sound_of};

use port::Port;

// Whether the lines match now, which they do only in mode 3 with no word awaited.
#[tactic(auto, unfolding(port::specs::Rules::match_now))]
pub fn matching(p: Port) -> bool
    ensures { result ≡ match_now p }
{
    (p.mode == 3) & (p.awaiting == 0) & bits::matches(p.select, p.mask, p.lines, p.high, p.all)
}

// After an accepted event. `follows`: the input register follows the lines; `watched`: the port's own match is on.
pub fn settle(p: Port, follows: bool, watched: bool) -> Port
    ensures { result ≡ settled follows watched p }
{
    let now = matching(p) & watched;
    Port {
        matched: now,
        waiting: p.waiting | (now & !p.matched),
        input: if follows { p.lines } else { p.input },
        ..p
    }
}

// What a sound board asks of one port. The faults are joined, not the merits: it takes fewer instructions.
#[tactic(auto, using(crate::proofs::Faults::faultless))]
pub fn sound(p: Port, on_b: bool, follows: bool, watched: bool) -> bool
    ensures { result ≡ sound_of on_b follows watched p }
{
    let fault = !(p.mode < 4)
        | (on_b & (p.mode == 2))
        | !(p.vector % 2 == 0)
        | (p.live & !p.asked)
        | (follows & !(p.input == p.lines))
        | !(p.matched == (matching(p) & watched));
    !(fault
        | (!(p.awaiting < 3) | ((p.awaiting == 1) & !(p.mode == 3)) | (p.live & (p.awaiting == 2))))
}
