// The interrupt chain over the chips of a board, and the opcode decoder that finds RETI. Document 01, "Chain and RETI". Nothing here
// knows of modes: a port is live, waits, is under service.
#![tactic(auto)]

ghost use Rattle.std.specs.Prelude.{◌≡◌, if◌then◌else◌};
ghost use Rattle.chain.specs.Decode.{next_of, reti_of};
ghost use Rattle.chain.specs.Marks.{mark_of, unmarked_of, marked_of, caller_of, holder_of, held_by, renewed_of};

use chip::Chip;

// The most chips that a chain can have.
pub const MOST: usize = 4;

// What is kept of the chips, so that who asks and who is released need no look at every port: a number for each (`mark_of`). Only the
// functions here know what is in it.
pub type Marks = [u8; MOST];

// The decoder's small memory: 0 nothing, 1 an ED was fetched last and opened.
#[repr(C)]
#[derive(Clone, Copy)]
pub struct Decoder {
    pub prefix: u8,
}

impl Decoder {
    // After one more fetched byte.
    #[tactic(auto, unfolding(crate::specs::Decode::next_of))]
    pub fn next(self, byte: u8) -> Decoder
        ensures { result ≡ next_of self byte }
    {
        if (self.prefix == 0) & (byte == 0xED) {
            return Decoder { prefix: 1 };
        }
        Decoder { prefix: 0 }
    }

    // Whether the byte ends a RETI.
    #[tactic(auto, unfolding(crate::specs::Decode::reti_of))]
    pub fn reti(self, byte: u8) -> bool
        ensures { result ≡ reti_of self byte }
    {
        (self.prefix == 1) & (byte == 0x4D)
    }
}

// One of two numbers, chosen without a branch.
fn choose(first: bool, x: u8, y: u8) -> u8
    ensures { result ≡ (if «first» then x else y) }
{
    if first { x } else { y }
}

// What the chain needs to know of a chip. No branch hangs on the ports' flags: nobody can foretell them.
#[tactic(auto, using(crate::proofs::Marks::chosen))]
fn mark(c: Chip) -> u8
    ensures { result ≡ mark_of c }
{
    let a = c.a;
    let b = c.b;
    let a_ready = a.waiting & a.live;
    let b_ready = b.waiting & b.live;
    let behind = choose(b.service, 11, choose(b_ready, 2, 0));
    choose(
        a.service,
        7,
        choose(a_ready, choose(b.service, 9, 1), behind),
    )
}

// The marks of no chips.
pub fn unmarked() -> Marks
    ensures { result ≡ unmarked_of }
{
    [0; MOST]
}

// The marks where the chip `k` is now `c`.
pub fn marked(marks: Marks, k: usize, c: Chip) -> Marks
    ensures { result ≡ marked_of marks k c }
{
    if k >= MOST {
        return marks;
    }
    let mut next = marks;
    next[k] = mark(c);
    next
}

// The place of the nearest asking port and 1, or 0 if none asks.
#[tactic(auto, using(crate::proofs::Scans::caller_past, crate::proofs::Scans::caller_here, crate::proofs::Scans::caller_shut, crate::proofs::Scans::caller_ends))]
pub fn caller(marks: Marks) -> u8
    ensures { result ≡ caller_of marks }
{
    for (i, mark) in marks.iter().enumerate() {
        let met = mark % 4;
        if met == 3 {
            return 0;
        }
        if met != 0 {
            return 2 * i as u8 + met;
        }
    }
    0
}

// Who asks where the chip `k` is now `c`; `request` is who asked before. It is searched for only if the chip's mark changes.
#[tactic(auto, using(crate::proofs::Marks::asks_still, crate::proofs::Marks::asks_same, crate::proofs::Marks::asks_anew))]
pub fn renewed(marks: Marks, k: usize, c: Chip, request: u8) -> u8
    ensures { result ≡ renewed_of marks k c request }
{
    if k >= MOST {
        return request;
    }
    let m = mark(c);
    if marks[k] == m {
        return request;
    }
    let mut next = marks;
    next[k] = m;
    caller(next)
}

// The place of the nearest port under service, if one is.
#[tactic(auto, using(crate::proofs::Scans::holder_past, crate::proofs::Scans::holder_here, crate::proofs::Scans::holder_ends))]
pub fn holder(marks: Marks) -> Option<usize>
    ensures { held_by result ≡ holder_of marks }
{
    for (i, mark) in marks.iter().enumerate() {
        let held = mark / 4 % 4;
        if held != 0 {
            return Some(2 * i + held as usize - 1);
        }
    }
    None
}
