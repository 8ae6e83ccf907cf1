// The text of the two station programs, `listing` and `panel`: document 01, "Sessions to try". Each writer's contract states its
// answer and every byte of the buffer at exit, with room and without: where there is less room than a writer asks for, it writes nothing.
#![tactic(auto)]

ghost use Rattle.std.specs.Prelude.{◌≡◌, ◌+◌, ◌*◌, ◌/◌, ◌≤◌, [], ◌∷◌, ◌++◌, length};
ghost use Rattle.buffers.specs.Splice.{if_room, Wrote};
ghost use Rattle.buffers.specs.Rows.{row_of};
ghost use Rattle.text.specs.Listing.{listing_of, tail_of};
ghost use Rattle.text.specs.Panel.{columns, row_of_place, refused_of, size_from, size_by, size_or_refusal};

use port::Port;
use refusals::Refusal;

// The lines of the answers, one by one, where there is room for them.
fn lines(out: &mut [u8], at: usize, answers: &[u8], first: u64) -> usize
    requires { at + 105 * (length answers.now / 4) ≤ length out.old }
    ensures wrote { Wrote out.old at (listing_of first answers.now) out.new result }
    ensures upper_bound { result ≤ at + 105 * (length answers.now / 4) }
{
    let (records, _) = answers.as_chunks::<4>();
    let mut next = at;
    let mut number = first;
    for [code, place, value, request] in records {
        let line = [
            number,
            u64::from(*code),
            u64::from(*place),
            u64::from(*value),
            u64::from(*request),
        ];
        next = buffers::put_row(out, next, &line);
        number = number.wrapping_add(1);
    }
    next
}

// The listing's line for each whole record of `answers`, from line `first` on, at index `at`. It asks for 105 bytes for each line, as
// `put_row` does for five numbers. Answers the index behind the lines; without that room it is `at`.
#[tactic(auto, using(buffers::proofs::Splices::room, buffers::proofs::Splices::no_room, buffers::proofs::Splices::splice_none))]
pub fn put_answers(out: &mut [u8], at: usize, answers: &[u8], first: u64) -> usize
    ensures wrote { Wrote out.old at (if_room out.old at (105 * (length answers.now / 4)) (listing_of first answers.now)) out.new result }
    ensures upper_bound { result ≤ at + 105 * (length answers.now / 4) }
{
    if at > out.len() {
        return at;
    }
    if answers.len() / 4 > (out.len() - at) / 105 {
        return at;
    }
    lines(out, at, answers, first)
}

// A word and a number on a line. The word ends in its space.
#[tactic(auto, using(buffers::proofs::Splices::room, buffers::proofs::Splices::no_room, buffers::proofs::Splices::splice_none))]
fn put_count(out: &mut [u8], at: usize, word: &[u8], n: u64) -> usize
    ensures wrote { Wrote out.old at (if_room out.old at (length word.now + 21) (word.now ++ row_of (n ∷ []))) out.new result }
    ensures upper_bound { result ≤ at + (length word.now + 21) }
{
    if at > out.len() {
        return at;
    }
    if word.len() > out.len() - at {
        return at;
    }
    if out.len() - at - word.len() < 21 {
        return at;
    }
    let next = buffers::put_bytes(out, at, word);
    let row = [n];
    buffers::put_row(out, next, &row)
}

// The end of the listing of an input of `bytes` bytes, at index `at`. It asks for 26 bytes. Answers the index behind it; without that
// room, and where no byte is over, it is `at`.
#[tactic(auto, using(crate::proofs::Listings::no_tail, crate::proofs::Listings::some_tail, buffers::proofs::Splices::splice_none))]
pub fn put_tail(out: &mut [u8], at: usize, bytes: usize) -> usize
    ensures wrote { Wrote out.old at (if_room out.old at 26 (tail_of bytes)) out.new result }
    ensures upper_bound { result ≤ at + 26 }
{
    let over = bytes % 4;
    if over == 0 {
        return at;
    }
    put_count(out, at, b"tail ", over as u64)
}

// The panel's first line, at index `at`. Answers the index behind it; without room for it all it is `at`.
#[tactic(auto, using(crate::proofs::Listings::at_most))]
pub fn put_columns(out: &mut [u8], at: usize) -> usize
    ensures wrote { Wrote out.old at (if_room out.old at (length columns) columns) out.new result }
    ensures upper_bound { result ≤ at + length columns }
{
    buffers::put_bytes(
        out,
        at,
        b"columns place mode ready out input lines strobe vector select mask and high asked live waiting service awaiting matched levels driven\n",
    )
}

// The numbers of a place, column by column.
#[tactic(auto, using(bits::proofs::Tests::bool_byte_lem))]
fn place_row(place: usize, p: Port, levels: u8, driven: u8) -> [u64; 20]
    ensures { result ≡ row_of_place place p levels driven }
{
    [
        place as u64,
        p.mode as u64,
        p.ready as u64,
        p.out as u64,
        p.input as u64,
        p.lines as u64,
        p.strobe as u64,
        p.vector as u64,
        p.select as u64,
        p.mask as u64,
        p.all as u64,
        p.high as u64,
        p.asked as u64,
        p.live as u64,
        p.waiting as u64,
        p.service as u64,
        p.awaiting as u64,
        p.matched as u64,
        levels as u64,
        driven as u64,
    ]
}

// The panel's line for the port at a place, at index `at`. It asks for 420 bytes, as `put_row` does for twenty numbers. Answers the
// index behind the line; without that room it is `at`.
pub fn put_place(out: &mut [u8], at: usize, place: usize, p: Port, levels: u8, driven: u8) -> usize
    ensures wrote { Wrote out.old at (if_room out.old at 420 (row_of (row_of_place place p levels driven))) out.new result }
    ensures upper_bound { result ≤ at + 420 }
{
    let row = place_row(place, p, levels, driven);
    buffers::put_row(out, at, &row)
}

// The panel's line for a refusal, at index `at`. It asks for 29 bytes. Answers the index behind the line; without that room it is `at`.
pub fn put_refused(out: &mut [u8], at: usize, code: u8) -> usize
    ensures wrote { Wrote out.old at (if_room out.old at 29 (refused_of code)) out.new result }
    ensures upper_bound { result ≤ at + 29 }
{
    put_count(out, at, b"refused ", u64::from(code))
}

// The size that an argument asks for; refused where it is no size.
#[tactic(auto, unfolding(crate::specs::Panel::size_from))]
pub fn size_in(text: &[u8]) -> Result<usize, Refusal>
    ensures sized { size_by result ≡ size_from text.now }
    ensures value { result ≡ size_or_refusal (size_from text.now) }
{
    let mut n: usize = 0;
    for d in text {
        if !d.is_ascii_digit() {
            return Err(Refusal::Size);
        }
        n = 10 * n + usize::from(*d - b'0');
        if n > 4 {
            return Err(Refusal::Size);
        }
    }
    if n == 0 {
        return Err(Refusal::Size);
    }
    Ok(n)
}
