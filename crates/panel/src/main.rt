// Shows the service man a fresh board of one to four chips: for every record of standard input the listing's line, and then a line for
// each place. The text of what has come is made by `put`, whose contract says it byte for byte; `station` reads and writes.
#![tactic(auto)]

ghost use Rattle.std.specs.Prelude.{◌≡◌, ◌+◌, ◌/◌, ◌%◌, ◌^◌, ◌≤◌, ◌++◌, length, take, IsTrue};
ghost use Rattle.buffers.specs.Splice.{if_room, Wrote};
ghost use Rattle.station.specs.Pages.{GoesOn, Shown};
ghost use Rattle.chain.specs.Chain.{flat};
ghost use Rattle.board.specs.Step.{step_of};
ghost use Rattle.records.specs.Records.{records, steps_of};
ghost use Rattle.text.specs.Listing.{after};
ghost use Rattle.text.specs.Panel.{columns};
ghost use Rattle.panel.specs.Text.{place_line, places_of, page_of, text_of};

use board::{Board, Lines};
use chain::MOST;
use chip::Chip;
use port::Port;
use refusals::Refusal;
use station::Pages;
use std::io::{Read, Write};

// The bytes of 64 records.
const PIECE: usize = 256;

// Room for their pages, each a line of 105 bytes and eight of 420, and for the 26 of the tail.
const PAGE: usize = 221786;

// The board so far, and the number of the next line.
#[derive(Drop)]
struct Panel {
    board: Board,
    number: u64,
}

// The line of the port `p`, which stands at a place of the board. Of a board that is not sound nothing is driven.
fn put_port(out: &mut [u8], at: usize, board: &Board, place: usize, p: Port) -> usize
    ensures wrote { Wrote out.old at (if_room out.old at 420 (place_line board.now place p)) out.new result }
    ensures upper_bound { result ≤ at + 420 }
{
    let lines = board::driven_lines(board, place).unwrap_or(Lines {
        levels: 0,
        driven: 0,
    });
    text::put_place(out, at, place, p, lines.levels, lines.driven)
}

// The lines of every place on the board, whose chips these are.
fn put_places(out: &mut [u8], at: usize, board: &Board, chips: &[Chip; MOST]) -> usize
    requires { at + 3360 ≤ length out.old }
    ensures wrote { Wrote out.old at (places_of board.now 0 (flat (take board.now.size chips.now))) out.new result }
    ensures upper_bound { result ≤ at + 3360 }
{
    let there = usize::from(board.size).min(MOST);
    let mut next = at;
    for (i, c) in chips[..there].iter().enumerate() {
        next = put_port(out, next, board, 2 * i, c.a);
        next = put_port(out, next, board, 2 * i + 1, c.b);
    }
    next
}

impl Panel {
    // One record: the board is moved on, and the page of text is at index `at`.
    fn put_record(&mut self, event: &[u8], out: &mut [u8], at: usize) -> usize
        requires { at + 3465 ≤ length out.old }
        ensures board_value { (self.new.board ≡ (step_of self.old.board event.now).board) × (self.new.number ≡ after self.old.number) }
        ensures wrote { Wrote out.old at (page_of self.old.number (step_of self.old.board event.now)) out.new result }
        ensures end_bound { result ≤ at + 3465 }
    {
        let answer = lent::step(&mut self.board, event);
        let next = text::put_answers(out, at, &<[u8; 4]>::from(answer), self.number);
        self.number = self.number.wrapping_add(1);
        let chips = self.board.chips;
        put_places(out, next, &self.board, &chips)
    }
}

impl Pages<PIECE, PAGE> for Panel {
    ghost text_of = { λ p. text_of p.board p.number };

    fn put(&mut self, input: &[u8], out: &mut [u8; PAGE]) -> usize
        requires { length input.now ≤ PIECE }
        ensures board_value { self.new.board ≡ steps_of self.old.board (records input.now) }
        ensures number_value { self.new.number ≡ (self.old.number + length input.now / 4) % 2 ^ 64 }
        ensures wrote { Wrote out.old 0 (text_of self.old.board self.old.number input.now) out.new result }
        ensures upper_bound { result ≤ PAGE }
        ensures goes_on { GoesOn (text_of self.old.board self.old.number) (text_of self.new.board self.new.number) input.now }
    {
        let (records, _) = input.as_chunks::<4>();
        let mut next = 0;
        for event in records {
            next = self.put_record(event, out, next);
        }
        text::put_tail(out, next, input.len())
    }
}

// The columns' names, and then what comes, from line 1 on. Answers whether all was read and taken.
fn show_all<R: Read, O: Write, E: Write>(
    stdin: &mut R,
    stdout: &mut O,
    stderr: &mut E,
    board: Board,
) -> bool
    ensures { IsTrue result → Shown (λ input. columns ++ text_of board 1 input) (R.remaining stdin.old) (R.remaining stdin.new) (O.contents stdout.old) (O.contents stdout.new) }
{
    let mut out = station::zeros();
    let end = text::put_columns(&mut out, 0);
    if !station::write_text(stdout, stderr, &out[..end]) {
        return false;
    }
    let mut panel = Panel { board, number: 1 };
    station::write_pages(
        stdin,
        stdout,
        stderr,
        &mut station::zeros(),
        &mut out,
        &mut panel,
    )
}

// There is no board of that size.
fn refuse(stderr: &mut impl Write, refusal: Refusal) {
    let mut line = [0u8; 32];
    let end = text::put_refused(&mut line, 0, refusal.into());
    let _ = stderr.write_all(&line[..end]);
}

fn main(rt: HostRuntime) {
    match station::last_size_asked(&rt, 1).and_then(board::fresh) {
        Ok(board) => {
            show_all(&mut rt.stdin(), &mut rt.stdout(), &mut rt.stderr(), board);
        }
        Err(refusal) => refuse(&mut rt.stderr(), refusal),
    }
}
