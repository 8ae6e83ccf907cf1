// The board: one to four chips on one chain, and the decoder that listens to opcode fetches. Document 01, "Records": fresh board,
// soundness, driven lines. A step has two halves: `plans` reads the event's four bytes and says which chips it concerns, `steps` changes
// them. Their types and definitions are here.
#![tactic(auto)]

ghost use Rattle.std.specs.Prelude.{◌≡◌, length};
ghost use Rattle.chain.specs.Chain.{most};
ghost use Rattle.board.specs.Board.{blank_board, made_by, fresh_of, told_by, lines_of};
ghost use Rattle.board.specs.Step.{byte_of, bytes_of};
ghost use Rattle.board.specs.Plans.{EveryPlan};
ghost use Rattle.board.specs.Halves.{acted_of, stirs_port, stirs, looked_of, seen_of, noted_of};

use chain::{Decoder, MOST, Marks};
use chip::Chip;
use events::{Acted, Event};
use port::Port;
use refusals::Refusal;

#[repr(C)]
#[derive(Clone, Copy)]
pub struct Board {
    pub size: u8,
    pub chips: [Chip; MOST],
    pub decoder: Decoder,
}

// An answer is its record's four numbers, as the definitions and the theorems have it (`step_of`, FourBytes, WhoIsAsking). `request` tells
// who asks for an interrupt after the event: the nearest asking place + 1, or 0 for nobody.
#[repr(C)]
#[derive(Clone, Copy)]
pub struct Answer {
    pub code: u8,
    pub place: u8,
    pub value: u8,
    pub request: u8,
}

// The code of an event that was not refused: it was done, or it was a read or an acknowledge, which a port answers or nobody.
#[derive(Clone, Copy)]
pub enum Code {
    Done = 0,
    Data = 1,
    Answered = 2,
    Nobody = 3,
}

impl From<Code> for u8 {
    ghost from_gives = { λ c n. n ≡ byte_of c };

    fn from(c: Code) -> u8
        ensures { result ≡ byte_of c }
    {
        c as u8
    }
}

impl From<Answer> for [u8; 4] {
    ghost from_gives = { λ a bytes. bytes ≡ bytes_of a };

    #[tactic(auto, unfolding(crate::specs::Step::bytes_of))]
    fn from(a: Answer) -> [u8; 4]
        ensures { result ≡ bytes_of a }
    {
        [a.code, a.place, a.value, a.request]
    }
}

// The lines driven at a place: the levels, and a 1 for each driven line.
#[derive(Clone, Copy)]
pub struct Lines {
    pub levels: u8,
    pub driven: u8,
}

// What an accepted event does.
#[derive(Clone, Copy)]
pub enum Doing {
    Reset,
    Fetch(u8),
    Acknowledge,
    At(u8, Event),
}

// What is known of the chips of a sound board, so that no record needs a look at all of them: the chain's marks, whether a fetch could
// make a port live, and the request.
#[derive(Clone, Copy)]
pub struct Look {
    pub marks: Marks,
    pub due: bool,
    pub request: u8,
}

// What happens to one port: a RETI releases it, it answers an acknowledge, or an event of kinds 3 to 7 concerns it.
#[derive(Clone, Copy)]
pub enum Touch {
    Release,
    Serve,
    Act(Event),
}

// What happens to every chip: a reset, or a fetch, which makes ports live.
#[derive(Clone, Copy)]
pub enum Sweep {
    Clear,
    Wake,
}

// What an accepted event asks of the chips: nothing, and the answer is known; of one port; or of every chip, where a RETI first
// releases the port at the place `freed`.
#[derive(Clone, Copy)]
pub enum Plan {
    Nothing(Answer),
    One { place: u8, touch: Touch },
    Each { freed: Option<u8>, sweep: Sweep },
}

// A chip after what happened to one of its ports, with the answer's code, place and value.
#[derive(Clone, Copy)]
pub struct Touched {
    pub chip: Chip,
    pub code: u8,
    pub place: u8,
    pub value: u8,
}

impl Touched {
    // What came of an event of kinds 3 to 7 at the chip `c`.
    #[tactic(auto, unfolding(crate::specs::Halves::acted_of))]
    pub fn acted(c: Chip, place: u8, value: u8, outcome: Result<Acted, Refusal>) -> Touched
        ensures { result ≡ acted_of c place value outcome }
    {
        let mut chip = c;
        let mut code = Code::Done.into();
        let mut shown = value;
        match outcome {
            Ok(acted) => {
                chip = acted.chip;
                if let Some(byte) = acted.shown {
                    code = Code::Data.into();
                    shown = byte;
                }
            }
            Err(refusal) => code = refusal.into(),
        }
        Touched {
            chip,
            code,
            place,
            value: shown,
        }
    }
}

// A board of `size` chips, each of them fresh, with nothing fetched.
pub fn blank(size: u8) -> Board
    ensures { result ≡ blank_board size }
{
    Board {
        size,
        chips: [chip::fresh_chip(); MOST],
        decoder: Decoder { prefix: 0 },
    }
}

// A fresh board of `size` chips.
#[tactic(auto, unfolding(crate::specs::Board::fresh_of))]
pub fn fresh(size: usize) -> Result<Board, Refusal>
    ensures { made_by result ≡ fresh_of size }
{
    if (size < 1) | (size > MOST) {
        return Err(Refusal::Size);
    }
    Ok(blank(size as u8))
}

// Whether a fetch would make the port live.
fn stirred_port(p: Port) -> bool
    ensures { result ≡ stirs_port p }
{
    p.asked & !(p.awaiting == 2) & !p.live
}

// Whether a fetch would make a port of the chip live.
#[tactic(auto, unfolding(crate::specs::Halves::stirs))]
pub fn stirred(c: Chip) -> bool
    ensures { result ≡ stirs c }
{
    stirred_port(c.a) | stirred_port(c.b)
}

impl Look {
    // What is known where the chip `k` is now `c`. Inlined for the run's loop (docs/BENCHMARKS.md).
    #[tactic(auto, unfolding(crate::specs::Halves::noted_of))]
    #[inline(always)]
    pub fn noting(self, k: usize, c: Chip) -> Look
        ensures { result ≡ noted_of self k c }
    {
        Look {
            marks: chain::marked(self.marks, k, c),
            due: self.due | stirred(c),
            request: chain::renewed(self.marks, k, c, self.request),
        }
    }
}

// One look at every chip that is there: whether the board is sound, and what is known of its chips.
pub fn look_over(board: &Board) -> (bool, Look)
    ensures { (result ≡ looked_of board.now) × (length board.now.chips ≡ most) }
{
    let chips = &board.chips;
    let n = board.size as usize;
    let mut sound = true;
    let mut due = false;
    let mut marks = chain::unmarked();
    for (k, c) in chips[..MOST.min(n)].iter().enumerate() {
        sound &= chip::sound(*c);
        due |= stirred(*c);
        let more = chain::marked(marks, k, *c);
        marks = more;
    }
    let look = Look {
        marks,
        due,
        request: chain::caller(marks),
    };
    (sound & (n >= 1) & (n <= MOST), look)
}

// The same; refused where the board is not sound.
#[tactic(auto, unfolding(crate::specs::Halves::seen_of))]
pub fn sound_look(board: &Board) -> Result<Look, Refusal>
    ensures { (result ≡ seen_of board.now) × (length board.now.chips ≡ most) }
{
    let (sound, look) = look_over(board);
    if !sound {
        return Err(Refusal::Unsound);
    }
    Ok(look)
}

// The lines driven at a place.
#[tactic(auto, using(crate::proofs::Steps::lines_unsound, crate::proofs::Steps::lines_beyond, crate::proofs::Steps::in_array, crate::proofs::Steps::lines_there))]
pub fn driven_lines(board: &Board, place: usize) -> Result<Lines, Refusal>
    ensures { told_by result ≡ lines_of board.now place }
{
    sound_look(board)?;
    let k = place / 2;
    if k >= board.size as usize {
        return Err(Refusal::Place);
    }
    let p = chip::port_of(board.chips[k], place % 2 == 1);
    Ok(Lines {
        levels: port::levels(p),
        driven: port::driven(p),
    })
}

// Does nothing. Its contract: what holds of every plan on a sound board.
#[tactic(auto, using(crate::proofs::Kept::every_plan))]
fn every_plan()
    ensures { EveryPlan }
{}
