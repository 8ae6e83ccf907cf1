// The control words of a port: what a control byte means to it, and what the port does with it. Document 01, "Control words". That
// the port is B of a chip whose A is in mode 2 comes as a flag.
#![tactic(auto)]

ghost use Rattle.std.specs.Prelude.{◌≡◌};
ghost use Rattle.words.specs.Words.{heard_of, obeyed};

use port::Port;
use refusals::Refusal;

// A control word of a defined form.
#[derive(Clone, Copy)]
pub enum Word {
    Vector(u8),
    Mode(u8),
    Interrupt {
        enable: bool,
        all: bool,
        high: bool,
        masked: bool,
    },
    Enable(bool),
    Select(u8),
    Mask(u8),
}

// What a control byte means to a port that awaits nothing (0), its select word (1) or its mask (2): a word, or one of two refusals.
pub fn hear(awaiting: u8, on_b: bool, value: u8) -> Result<Word, Refusal>
    ensures { result ≡ heard_of awaiting on_b value }
{
    if awaiting == 1 {
        return Ok(Word::Select(value));
    }
    if awaiting == 2 {
        return Ok(Word::Mask(value));
    }
    if value % 2 == 0 {
        return Ok(Word::Vector(value));
    }
    if value % 16 == 15 {
        if on_b & (value / 64 == 2) {
            return Err(Refusal::NotOnB);
        }
        return Ok(Word::Mode(value / 64));
    }
    if value % 16 == 7 {
        return Ok(Word::Interrupt {
            enable: value / 128 % 2 == 1,
            all: value / 64 % 2 == 1,
            high: value / 32 % 2 == 1,
            masked: value / 16 % 2 == 1,
        });
    }
    if value % 16 == 3 {
        return Ok(Word::Enable(value / 128 % 2 == 1));
    }
    Err(Refusal::NoForm)
}

// The port obeys a word. `linked`: it is B, and A of its chip is in mode 2.
pub fn obey(p: Port, linked: bool, w: Word) -> Port
    ensures { result ≡ obeyed linked p w }
{
    match w {
        Word::Vector(v) => Port { vector: v, ..p },
        Word::Mode(m) => Port {
            mode: m,
            ready: p.ready & linked,
            awaiting: if m == 3 { 1 } else { 0 },
            ..p
        },
        Word::Interrupt {
            enable,
            all,
            high,
            masked,
        } => {
            if masked {
                return Port {
                    asked: enable,
                    all,
                    high,
                    live: false,
                    waiting: false,
                    awaiting: 2,
                    ..p
                };
            }
            Port {
                asked: enable,
                all,
                high,
                live: enable & p.live,
                ..p
            }
        }
        Word::Enable(on) => Port {
            asked: on,
            live: on & p.live,
            ..p
        },
        Word::Select(v) => Port {
            select: v,
            awaiting: 0,
            ..p
        },
        Word::Mask(v) => Port {
            mask: v,
            awaiting: 0,
            ..p
        },
    }
}
