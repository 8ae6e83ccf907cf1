// The events of kinds 3 to 7 at one port of a chip: a control byte, data written and read, a strobe level, outside levels; and the
// settling after each. Document 01, "Control words" and "Data, handshake, bits".
#![tactic(auto)]

ghost use Rattle.std.specs.Prelude.{◌≡◌};
ghost use Rattle.chip.specs.Chip.{side};
ghost use Rattle.events.specs.declared.Event.TheVariants.{Control, Write, Read, Strobe, Outside};
ghost use Rattle.events.specs.Events.{obey, control_of, changed};
ghost use Rattle.events.specs.Act.{event_of, outcome_of};

use chip::Chip;
use port::Port;
use refusals::Refusal;
use words::Word;

// An event of one port: document 01, "Records", kinds 3 to 7.
#[derive(Clone, Copy)]
pub enum Event {
    // 3: a control byte is written
    Control(u8),
    // 4: data is written
    Write(u8),
    // 5: data is read
    Read,
    // 6: the strobe goes to a level
    Strobe(bool),
    // 7: the outside levels of the eight lines
    Outside(u8),
}

impl Event {
    // The event of a kind from 3 to 7, with its value.
    #[tactic(auto, unfolding(crate::specs::Act::event_of))]
    pub fn of(kind: u8, value: u8) -> Event
        ensures { result ≡ event_of kind value }
    {
        match kind {
            3 => Event::Control(value),
            4 => Event::Write(value),
            5 => Event::Read,
            6 => Event::Strobe(value == 1),
            _ => Event::Outside(value),
        }
    }
}

// A chip after an event at one of its ports that was not refused, and the byte that a read shows.
#[derive(Clone, Copy)]
pub struct Acted {
    pub chip: Chip,
    pub shown: Option<u8>,
}

// One port obeys a control word. A entering or leaving mode 2 also lowers B's Ready.
#[inline(always)]
fn obey_word(c: Chip, on_b: bool, w: Word) -> Chip
    ensures { result ≡ obey (side on_b) w c }
{
    let a = c.a;
    let b = c.b;
    let two = a.mode == 2;
    if on_b {
        return Chip {
            a,
            b: words::obey(b, two, w),
        };
    }
    let q = words::obey(a, false, w);
    Chip {
        a: q,
        b: Port {
            ready: b.ready & (two == (q.mode == 2)),
            ..b
        },
    }
}

// A control byte. A refusal leaves at once, with the chip as it was, by the form that document 01 names for it. It and `obey_word` are
// inlined for the run's loop (docs/BENCHMARKS.md).
#[tactic(auto, using(crate::proofs::Ways::refused, crate::proofs::Ways::obeyed))]
#[inline(always)]
pub fn control(c: Chip, on_b: bool, value: u8) -> Result<Chip, Refusal>
    ensures { result ≡ control_of (side on_b) value c }
{
    let p = chip::port_of(c, on_b);
    let heard = words::hear(p.awaiting, on_b, value);
    let Ok(word) = heard else {
        return Err(heard.unwrap_err());
    };
    Ok(obey_word(c, on_b, word))
}

// The CPU writes data to a port.
pub fn write_data(c: Chip, on_b: bool, value: u8) -> Chip
    ensures { result ≡ changed (side on_b) (Write value) c }
{
    let off = on_b & (c.a.mode == 2);
    chip::on(c, on_b, |p| port::write(p, off, value))
}

// The CPU has read a port. A read of A in mode 2 raises B's Ready.
pub fn read_data(c: Chip, on_b: bool) -> Chip
    ensures { result ≡ changed (side on_b) Read c }
{
    let a = c.a;
    let b = c.b;
    let two = a.mode == 2;
    if on_b {
        return Chip {
            a,
            b: port::access(b, two),
        };
    }
    Chip {
        a: port::access(a, false),
        b: Port {
            ready: b.ready | two,
            ..b
        },
    }
}

// A port's Strobe goes to `level`.
fn strobe_line(c: Chip, on_b: bool, level: bool) -> Chip
    ensures { result ≡ changed (side on_b) (Strobe level) c }
{
    let two = c.a.mode == 2;
    chip::on(
        c,
        on_b,
        |p| port::strobe(p, two | (p.mode == 0) | (p.mode == 1), level),
    )
}

// The outside levels of a port's lines.
fn outside_lines(c: Chip, on_b: bool, value: u8) -> Chip
    ensures { result ≡ changed (side on_b) (Outside value) c }
{
    chip::on(c, on_b, |p| port::set_lines(p, value))
}

// One event at one port of the chip, and the settling after it. A refused word leaves at once.
#[tactic(auto, unfolding(crate::specs::Act::outcome_of))]
pub fn act(c: Chip, on_b: bool, event: Event) -> Result<Acted, Refusal>
    ensures { result ≡ outcome_of (side on_b) event c }
{
    let mut shown = None;
    let d = match event {
        Event::Control(value) => control(c, on_b, value)?,
        Event::Write(value) => write_data(c, on_b, value),
        Event::Read => {
            shown = Some(port::shown(chip::port_of(c, on_b)));
            read_data(c, on_b)
        }
        Event::Strobe(level) => strobe_line(c, on_b, level),
        Event::Outside(value) => outside_lines(c, on_b, value),
    };
    Ok(Acted {
        chip: chip::settle_chip(d),
        shown,
    })
}
