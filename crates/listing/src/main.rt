// Lists the records of standard input for a fresh board of four, a line each: document 01, "Sessions to try". The text of what has come
// is made by `put`, whose contract says it byte for byte; `station` reads and writes.
#![tactic(auto)]

ghost use Rattle.std.specs.Prelude.{◌≡◌, ◌+◌, ◌/◌, ◌%◌, ◌^◌, ◌≤◌, true, length, IsTrue};
ghost use Rattle.buffers.specs.Splice.{Wrote};
ghost use Rattle.station.specs.Pages.{GoesOn, Shown};
ghost use Rattle.board.specs.Board.{sound_board, fresh_of};
ghost use Rattle.records.specs.Records.{records, steps_of};
ghost use Rattle.listing.specs.Text.{text_of};
ghost use Rattle.listing.specs.declared.TheConstants.{PIECE};

use board::Board;
use station::Pages;
use std::io::{Read, Write};

// The bytes of 4,096 records.
const PIECE: usize = 16384;

// Room for their lines of 105 bytes, and for the 26 of the tail.
const PAGE: usize = 430106;

// The board so far, the number of the next line, and a buffer for the answers.
#[derive(Drop)]
struct Listing {
    board: Board,
    number: u64,
    answers: [u8; PIECE],
    ghost sound: { sound_board board ≡ true },
    ghost long: { length answers ≡ PIECE },
}

impl Pages<PIECE, PAGE> for Listing {
    ghost text_of = { λ l. text_of l.board l.number };

    fn put(&mut self, input: &[u8], out: &mut [u8; PAGE]) -> usize
        requires { length input.now ≤ PIECE }
        ensures board_value { self.new.board ≡ steps_of self.old.board (records input.now) }
        ensures number_value { self.new.number ≡ (self.old.number + length input.now / 4) % 2 ^ 64 }
        ensures wrote { Wrote out.old 0 (text_of self.old.board self.old.number input.now) out.new result }
        ensures upper_bound { result ≤ PAGE }
        ensures goes_on { GoesOn (text_of self.old.board self.old.number) (text_of self.new.board self.new.number) input.now }
    {
        let whole = 4 * (input.len() / 4);
        let count = run::run(&mut self.board, &input[..whole], &mut self.answers, 0).unwrap();
        let lines = text::put_answers(out, 0, &self.answers[..whole], self.number);
        self.number = self.number.wrapping_add(count as u64);
        text::put_tail(out, lines, input.len())
    }
}

// Lists what comes, for a fresh board of four and from line 1 on. Answers whether all was read and taken.
#[tactic(auto, using(crate::proofs::Answers::made, crate::proofs::Answers::made_sound))]
fn list_all<R: Read, O: Write, E: Write>(stdin: &mut R, stdout: &mut O, stderr: &mut E) -> bool
    ensures { IsTrue result → Shown (text_of (fresh_of 4).board 1) (R.remaining stdin.old) (R.remaining stdin.new) (O.contents stdout.old) (O.contents stdout.new) }
{
    let board = board::fresh(4).unwrap();
    let mut listing = Listing {
        board,
        number: 1,
        answers: station::zeros(),
    };
    station::write_pages(
        stdin,
        stdout,
        stderr,
        &mut station::zeros(),
        &mut station::zeros(),
        &mut listing,
    )
}

fn main(rt: HostRuntime) {
    list_all(&mut rt.stdin(), &mut rt.stdout(), &mut rt.stderr());
}
