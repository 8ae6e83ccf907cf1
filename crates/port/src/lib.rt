// One port of a PIO: its registers, and what each data access, strobe edge and line change makes of them. Document 01, "Data,
// handshake, bits". What a port needs to know of the other port of its chip comes as a flag. Control words are in words; match, settling
// and soundness in rest.
#![tactic(auto)]

ghost use Rattle.std.specs.Prelude.{◌≡◌};
ghost use Rattle.port.specs.Rules.{written, shown_of, accessed, strobed, lines_now, driven_of, levels_now, woken, served, released, cleared, fresh_port};

// C lends it, with any byte in any field (include/pio.h): so modes (0 to 3) and awaited words (0 none, 1 select, 2 mask) are numbers.
#[repr(C)]
#[derive(Clone, Copy)]
pub struct Port {
    pub mode: u8,
    pub out: u8,
    pub input: u8,
    pub lines: u8,
    pub strobe: bool,
    pub ready: bool,
    pub vector: u8,
    pub select: u8,
    pub mask: u8,
    pub all: bool,
    pub high: bool,
    pub asked: bool,
    pub live: bool,
    pub waiting: bool,
    pub service: bool,
    pub awaiting: u8,
    pub matched: bool,
}

// The CPU writes data. `off`: the port's own handshake is off.
pub fn write(p: Port, off: bool, value: u8) -> Port
    ensures { result ≡ written off value p }
{
    Port {
        out: value,
        ready: p.ready | (!off & ((p.mode == 0) | (p.mode == 2))),
        ..p
    }
}

// The byte that the CPU reads.
pub fn shown(p: Port) -> u8
    ensures { result ≡ shown_of p }
{
    if p.mode == 0 {
        return p.out;
    }
    if p.mode == 3 {
        return bits::mixed(p.select, p.lines, p.out);
    }
    p.input
}

// The port after the CPU has read it. `off`: the port's own handshake is off.
pub fn access(p: Port, off: bool) -> Port
    ensures { result ≡ accessed off p }
{
    Port {
        ready: p.ready | (!off & (p.mode == 1)),
        ..p
    }
}

// The Strobe line goes to `level`. `acts`: its rise ends a handshake.
pub fn strobe(p: Port, acts: bool, level: bool) -> Port
    ensures { result ≡ strobed acts level p }
{
    let ends = !p.strobe & level & acts;
    Port {
        strobe: level,
        ready: p.ready & !ends,
        waiting: p.waiting | ends,
        ..p
    }
}

// The outside levels of the eight lines.
pub fn set_lines(p: Port, value: u8) -> Port
    ensures { result ≡ lines_now value p }
{
    Port { lines: value, ..p }
}

// A 1 for each line that the port drives.
pub fn driven(p: Port) -> u8
    ensures { result ≡ driven_of p }
{
    if p.mode == 0 {
        return 255;
    }
    if p.mode == 2 {
        return if p.strobe { 0 } else { 255 };
    }
    if p.mode == 3 {
        return !p.select;
    }
    0
}

// The levels of the driven lines, 0 on the others.
pub fn levels(p: Port) -> u8
    ensures { result ≡ levels_now p }
{
    let mask = driven(p);
    bits::levels(p.out, mask)
}

// A fetch makes the port live, where it was asked and awaits no mask.
pub fn wake(p: Port) -> Port
    ensures { result ≡ woken p }
{
    Port {
        live: p.live | (p.asked & !(p.awaiting == 2)),
        ..p
    }
}

// The port answers an acknowledge.
pub fn serve(p: Port) -> Port
    ensures { result ≡ served p }
{
    Port {
        waiting: false,
        service: true,
        ..p
    }
}

// RETI ends the port's service.
pub fn release(p: Port) -> Port
    ensures { result ≡ released p }
{
    Port {
        service: false,
        ..p
    }
}

// A reset leaves a fresh port but for what it keeps.
pub fn reset(p: Port) -> Port
    ensures { result ≡ cleared p }
{
    Port {
        input: p.input,
        lines: p.lines,
        strobe: p.strobe,
        vector: p.vector,
        select: p.select,
        all: p.all,
        high: p.high,
        ..fresh()
    }
}

// A port of a fresh board.
pub fn fresh() -> Port
    ensures { result ≡ fresh_port }
{
    Port {
        mode: 1,
        out: 0,
        input: 0,
        lines: 0,
        strobe: true,
        ready: false,
        vector: 0,
        select: 0,
        mask: 255,
        all: false,
        high: false,
        asked: false,
        live: false,
        waiting: false,
        service: false,
        awaiting: 0,
        matched: false,
    }
}
