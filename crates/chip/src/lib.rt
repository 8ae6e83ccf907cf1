// One PIO: its two ports, and what couples them. With A in mode 2, B's strobe and Ready serve A's input. Document 01, "Data,
// handshake, bits": the settling after each event, and what a whole-board event does to one chip. Events at one port are in events.
#![tactic(auto)]

ghost use Rattle.std.specs.Prelude.{◌≡◌, true, false};
ghost use Rattle.chip.specs.Chip.{side, port, follows, settle, fetch, put, serve, release, reset, chip_fresh};
ghost use Rattle.chip.specs.Sound.{sound_chip};

use port::Port;

#[repr(C)]
#[derive(Clone, Copy)]
pub struct Chip {
    pub a: Port,
    pub b: Port,
}

// One port of the chip.
pub fn port_of(c: Chip, on_b: bool) -> Port
    ensures { result ≡ port (side on_b) c }
{
    if on_b {
        return c.b;
    }
    c.a
}

// Whether a port's input register follows its lines.
pub fn follows(c: Chip, on_b: bool) -> bool
    ensures { result ≡ follows (side on_b) c }
{
    let a = c.a;
    let b = c.b;
    let two = a.mode == 2;
    if on_b {
        return (b.mode == 1) & !b.strobe & !two;
    }
    ((a.mode == 1) & !a.strobe) | (two & !b.strobe)
}

// What a sound board asks of one chip.
#[tactic(auto, unfolding(crate::specs::Sound::sound_chip))]
pub fn sound(c: Chip) -> bool
    ensures { result ≡ sound_chip c }
{
    let a = c.a;
    let b = c.b;
    let watched = !(a.mode == 2);
    rest::sound(a, false, follows(c, false), true) & rest::sound(b, true, follows(c, true), watched)
}

// After an accepted event, at both ports: registers that follow take their lines, matches that became true make a port wait.
pub fn settle_chip(c: Chip) -> Chip
    ensures { result ≡ settle c }
{
    let a = c.a;
    let b = c.b;
    let watched = !(a.mode == 2);
    Chip {
        a: rest::settle(a, follows(c, false), true),
        b: rest::settle(b, follows(c, true), watched),
    }
}

// An opcode fetch, at both ports.
pub fn fetch_chip(c: Chip) -> Chip
    ensures { result ≡ fetch c }
{
    Chip {
        a: port::wake(c.a),
        b: port::wake(c.b),
    }
}

// The chip where one port is what `f` makes of it.
pub fn on<F: FnOnce(Port) -> Port>(c: Chip, on_b: bool, f: F) -> Chip
    requires { F.IsAlwaysCallable f }
    ensures { (q : _) × F.post f (port (side on_b) c) q × (result ≡ put (side on_b) q c) }
{
    if on_b {
        return Chip { a: c.a, b: f(c.b) };
    }
    Chip { a: f(c.a), b: c.b }
}

// One port answers an acknowledge.
pub fn serve_port(c: Chip, on_b: bool) -> Chip
    ensures { result ≡ serve (side on_b) c }
{
    on(c, on_b, port::serve)
}

// RETI releases one port.
pub fn release_port(c: Chip, on_b: bool) -> Chip
    ensures { result ≡ release (side on_b) c }
{
    on(c, on_b, port::release)
}

// A reset, and the settling after it.
pub fn reset_chip(c: Chip) -> Chip
    ensures { result ≡ settle (reset c) }
{
    let d = Chip {
        a: port::reset(c.a),
        b: port::reset(c.b),
    };
    settle_chip(d)
}

// A chip of a fresh board.
pub fn fresh_chip() -> Chip
    ensures { result ≡ chip_fresh }
{
    let p = port::fresh();
    Chip { a: p, b: p }
}
