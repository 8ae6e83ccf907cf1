// Writers into lent buffers. Each contract states the answer and every byte of the buffer at exit, with room and without: where there is
// less room than a writer asks for, it writes nothing.
#![tactic(auto)]

ghost use Rattle.std.specs.Prelude.{◌≡◌, [], ◌∷◌, ◌+◌, ◌*◌, ◌≤◌, length, if◌then◌else◌};
ghost use Rattle.bits.specs.Bits.{◌is◌};
ghost use Rattle.buffers.specs.Splice.{splice, has_room, if_room, Wrote};
ghost use Rattle.buffers.specs.Digits.{digits_of};
ghost use Rattle.buffers.specs.Rows.{row_of};

// The four bytes of a record at the start of `out`. Answers whether there was room.
#[tactic(auto, using(crate::proofs::Splices::no_room, crate::proofs::Splices::splice_none))]
pub fn put_record(out: &mut [u8], bytes: [u8; 4]) -> bool
    ensures value { result ≡ has_room out.old 0 4 }
    ensures out_after { out.new ≡ splice out.old 0 (if_room out.old 0 4 bytes) }
{
    if out.len() < 4 {
        return false;
    }
    let [a, b, c, d] = bytes;
    out[0] = a;
    out[1] = b;
    out[2] = c;
    out[3] = d;
    true
}

// The bytes of `text` from index `at` on. Answers the index behind them; without room for them all it is `at`.
#[tactic(auto, using(crate::proofs::Splices::no_room, crate::proofs::Splices::splice_none, crate::proofs::Splices::wrote_part))]
pub fn put_bytes(out: &mut [u8], at: usize, text: &[u8]) -> usize
    ensures { Wrote out.old at (if_room out.old at (length text.now) text.now) out.new result }
{
    if at > out.len() {
        return at;
    }
    if text.len() > out.len() - at {
        return at;
    }
    let end = at + text.len();
    out[at..end].copy_from_slice(text);
    end
}

// How many digits `n` has in decimal.
#[tactic(auto, using(crate::proofs::Decimals::length_one, crate::proofs::Decimals::length_between))]
pub fn decimal_length(n: u64) -> usize
    ensures { result ≡ length (digits_of n) }
{
    n.checked_ilog10()
        .map_or(1, |exponent| exponent as usize + 1)
}

// The digits of `n`, the earlier ones first, where there is room for them.
fn digits(out: &mut [u8], at: usize, n: u64) -> usize
    requires { at + length (digits_of n) ≤ length out.old }
    ensures { Wrote out.old at (digits_of n) out.new result }
{
    if n < 10 {
        out[at] = b'0' + n as u8;
        at + 1
    } else {
        let next = digits(out, at, n / 10);
        out[next] = b'0' + (n % 10) as u8;
        next + 1
    }
}

// The number `n` in decimal from index `at` on. Answers the index behind it; without room for every digit it is `at`.
#[tactic(auto, using(crate::proofs::Splices::no_room, crate::proofs::Splices::splice_none, crate::proofs::Splices::room))]
pub fn put_decimal(out: &mut [u8], at: usize, n: u64) -> usize
    ensures { Wrote out.old at (if_room out.old at (length (digits_of n)) (digits_of n)) out.new result }
{
    if at > out.len() {
        return at;
    }
    if decimal_length(n) > out.len() - at {
        return at;
    }
    digits(out, at, n)
}

// What stands behind a number of a row: a newline where no number is left, and a space otherwise.
fn separator(left: usize) -> u8
    ensures { result ≡ (if left is 0 then 10 else 32) }
{
    if left == 0 { b'\n' } else { b' ' }
}

// The row of `numbers`, number by number, where there is room for it.
fn row(out: &mut [u8], at: usize, numbers: &[u64]) -> usize
    requires { at + 21 * length numbers.now ≤ length out.old }
    ensures wrote { Wrote out.old at (row_of numbers.now) out.new result }
    ensures upper_bound { result ≤ at + 21 * length numbers.now }
{
    let mut next = at;
    for (i, n) in numbers.iter().enumerate() {
        next = digits(out, next, *n);
        out[next] = separator(numbers.len() - (i + 1));
        next += 1;
    }
    next
}

// The row of `numbers` from index `at` on. It asks for 21 bytes for each number: no u64 has more than 20 digits, and one byte stands behind it.
// That test is cheap and needs no digit counted. Answers the index behind the row; without that room it is `at`.
#[tactic(auto, using(crate::proofs::Splices::no_room, crate::proofs::Splices::splice_none, crate::proofs::Splices::room))]
pub fn put_row(out: &mut [u8], at: usize, numbers: &[u64]) -> usize
    ensures wrote { Wrote out.old at (if_room out.old at (21 * length numbers.now) (row_of numbers.now)) out.new result }
    ensures upper_bound { result ≤ at + 21 * length numbers.now }
{
    if at > out.len() {
        return at;
    }
    if numbers.len() > (out.len() - at) / 21 {
        return at;
    }
    row(out, at, numbers)
}
