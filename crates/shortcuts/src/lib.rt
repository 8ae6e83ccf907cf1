// One event of kinds 3 to 7 at a chip that is sound, with no more settling than it can need: a run keeps its board sound, so each
// kind settles only what it can have unsettled. What comes out is the chip's own event, `outcome_of`.
#![tactic(auto)]

ghost use Rattle.std.specs.Prelude.{◌≡◌, true, false, if◌then◌else◌};
ghost use Rattle.chip.specs.Chip.{side};
ghost use Rattle.chip.specs.Sound.{sound_chip};
ghost use Rattle.events.specs.declared.Event.TheVariants.{Control, Write, Read, Strobe, Outside};
ghost use Rattle.events.specs.Act.{step, outcome_of, quiet};
ghost use Rattle.shortcuts.specs.Follow.{following, followed};

use chip::Chip;
use events::Acted;
use port::Port;
use refusals::Refusal;

// The port's input register takes its lines, if it follows them.
fn follow_lines(p: Port, follows: bool) -> Port
    ensures { result ≡ following follows p }
{
    Port {
        input: if follows { p.lines } else { p.input },
        ..p
    }
}

// Both registers take their lines, where they follow them.
fn follow(c: Chip) -> Chip
    ensures { result ≡ followed c }
{
    Chip {
        a: follow_lines(c.a, chip::follows(c, false)),
        b: follow_lines(c.b, chip::follows(c, true)),
    }
}

// A strobe goes to a level: registers may follow, and no match changes. The other strobe stays at its level, which is no edge.
#[tactic(auto, using(crate::proofs::Sound::strobe_is))]
pub fn strobe(c: Chip, on_b: bool, level: bool) -> Chip
    ensures { sound_chip c ≡ true → result ≡ step (side on_b) (Strobe level) c }
{
    let a = c.a;
    let b = c.b;
    let two = a.mode == 2;
    let x = if on_b { a.strobe } else { level };
    let y = if on_b { level } else { b.strobe };
    let p = port::strobe(a, two | (a.mode == 0) | (a.mode == 1), x);
    let q = port::strobe(b, two | (b.mode == 0) | (b.mode == 1), y);
    follow(Chip { a: p, b: q })
}

// Outside levels: the port that has the lines settles.
#[tactic(auto, using(crate::proofs::Sound::lines_is))]
pub fn lines(c: Chip, on_b: bool, value: u8) -> Chip
    ensures { sound_chip c ≡ true → result ≡ step (side on_b) (Outside value) c }
{
    let follows = chip::follows(c, on_b);
    let watched = !(on_b & (c.a.mode == 2));
    chip::on(
        c,
        on_b,
        |p| rest::settle(port::set_lines(p, value), follows, watched),
    )
}

// A data write leaves nothing to settle.
#[tactic(auto, using(crate::proofs::Sound::write_is))]
pub fn write(c: Chip, on_b: bool, value: u8) -> Chip
    ensures { sound_chip c ≡ true → result ≡ step (side on_b) (Write value) c }
{
    events::write_data(c, on_b, value)
}

// A data read leaves nothing to settle either. It shows the byte read.
#[tactic(auto, using(crate::proofs::Sound::read_is))]
pub fn read(c: Chip, on_b: bool) -> Acted
    ensures { sound_chip c ≡ true → Ok result ≡ outcome_of (side on_b) Read c }
{
    let p = chip::port_of(c, on_b);
    Acted {
        chip: events::read_data(c, on_b),
        shown: Some(port::shown(p)),
    }
}

// A control byte to A may couple B anew, so both settle. One to B leaves A as it was. A refused word leaves at once.
#[tactic(auto, unfolding(events::specs::Act::outcome_of))]
pub fn control(c: Chip, on_b: bool, value: u8) -> Result<Chip, Refusal>
    ensures { sound_chip c ≡ true → quiet result ≡ outcome_of (side on_b) (Control value) c }
{
    let d = events::control(c, on_b, value)?;
    if on_b {
        return Ok(Chip {
            a: d.a,
            b: rest::settle(d.b, chip::follows(d, true), !(d.a.mode == 2)),
        });
    }
    Ok(chip::settle_chip(d))
}
