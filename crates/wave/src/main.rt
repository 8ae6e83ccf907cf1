// Writes a recording as the text that a wave viewer reads: document 02, Ask 1. The text is made in a buffer by `make_text` and a
// refusal's line by `put_refusal`, whose contracts say them byte for byte; the rest reads and writes.
#![tactic(auto)]

ghost use Rattle.std.specs.Prelude.{◌≡◌, ◌+◌, ◌-◌, ◌≤◌, ◌<◌, length, IfOk, IfSome};
ghost use Rattle.buffers.specs.Splice.{Wrote};
ghost use Rattle.refusals.specs.Numbers.{number_of};
ghost use Rattle.wave.specs.Text.{kept_of, next_from, SameBefore, ReadInParts, ByOwnLength, waved_by, wave_of, buffer_of, refusal_line};

use refusals::Refusal;
use std::env::FillError;
use std::io::{Error, ErrorKind, Read, Write};
use std::rt::{Env, Files};
use std::{fs, io};

// The system's number for a name that is too long.
const ENAMETOOLONG: i32 = 36;

// One record more than the 16,384 that a recording may have, and what is over.
const EVENTS: usize = 65544;

// Four bytes more than the stamps of 16,384 records, and what is over.
const STAMPS: usize = 32776;

// Room for the longest text: the header of 257 bytes, and 39 for each of 16,384 records.
const PAGE: usize = 639233;

// The length that a file of `n` bytes is taken for. From `limit` on it is too long for any recording, its bytes matter no more, and of
// its length only what is over after the last whole record.
#[tactic(auto, using(crate::proofs::Lengths::short, crate::proofs::Lengths::long))]
fn kept(n: usize, limit: usize) -> usize
    requires { limit ≤ 65540 }
    ensures value { result ≡ kept_of limit n }
    ensures upper_bound { result < limit + 4 }
{
    if n < limit {
        return n;
    }
    limit + n % 4
}

// Where the bytes behind the first `count` go: behind them, or to the start of the buffer when they matter no more.
#[tactic(auto, using(crate::proofs::Lengths::behind, crate::proofs::Lengths::start))]
fn next_at(count: usize, limit: usize) -> usize
    ensures value { result ≡ next_from limit count }
    ensures upper_bound { result ≤ limit }
{
    if count < limit {
        return count;
    }
    0
}

// One read to index `at` on.
fn read_at(file: &mut impl Read, buffer: &mut [u8], at: usize) -> io::Result<usize>
    requires { at ≤ length buffer.old }
    ensures same_before { SameBefore at buffer.old buffer.new }
    ensures bound { IfOk result (λ n. at + n ≤ length buffer.old) }
{
    file.read(&mut buffer[at..])
}

// Reads what comes next; what was read before stays. Answers the length so far, or nothing where the file has ended.
fn read_more(file: &mut impl Read, buffer: &mut [u8], count: usize) -> io::Result<Option<usize>>
    requires { (4 ≤ length buffer.old) × ((length buffer.old ≤ 65544) × (count < length buffer.old)) }
    ensures count_in_bounds { IfOk result (λ o. IfSome o (λ n. n < length buffer.old)) }
    ensures same_before { SameBefore (next_from (length buffer.old - 4) count) buffer.old buffer.new }
{
    let limit = buffer.len() - 4;
    let n = read_at(file, buffer, next_at(count, limit))?;
    if n == 0 {
        return Ok(None);
    }
    Ok(Some(kept(count + n, limit)))
}

// Reads a file to its end, and answers its length. Nothing says that it ends, so the turns are counted, up to a number that no file
// reaches.
fn read_all(file: &mut impl Read, buffer: &mut [u8]) -> io::Result<usize>
    requires { (4 ≤ length buffer.old) × (length buffer.old ≤ 65544) }
    ensures { IfOk result (λ n. n < length buffer.old) }
{
    let mut count = 0;
    for _ in 0..u64::MAX {
        match read_more(file, buffer, count)? {
            Some(n) => count = n,
            None => break,
        }
    }
    Ok(count)
}

// Opens the file of that name, and reads it. std opens a file by text alone.
fn read_named(rt: &impl Files, path: &[u8], buffer: &mut [u8]) -> io::Result<usize>
    requires { (4 ≤ length buffer.old) × (length buffer.old ≤ 65544) }
    ensures { IfOk result (λ n. n < length buffer.old) }
{
    let Ok(name) = std::str::from_utf8(path) else {
        return Err(Error::new(ErrorKind::InvalidFilename, "the name is not UTF-8"));
    };
    read_all(&mut fs::open(rt, name)?, buffer)
}

// Says what failed and why. The second is said even where the first could not be written.
fn fail(stderr: &mut impl Write, what: &[u8], error: Error) {
    let _ = stderr.write_all(what);
    station::fail(stderr, b"", error);
}

// Reads the file that an argument of the program names. One that cannot be read is named.
fn read_file(
    rt: &(impl Env + Files),
    stderr: &mut impl Write,
    argument: usize,
    buffer: &mut [u8],
) -> Option<usize>
    requires { (4 ≤ length buffer.old) × (length buffer.old ≤ 65544) }
    ensures { IfSome result (λ n. n < length buffer.old) }
{
    let mut path = [0u8; 4096];
    let (end, read) = match rt.arg(argument, &mut path) {
        Ok(n) => (n, read_named(rt, &path[..n], buffer)),
        Err(_) => (path.len(), Err(Error::from_raw_os_error(ENAMETOOLONG))),
    };
    match read {
        Ok(count) => Some(count),
        Err(error) => {
            fail(stderr, &path[..end], error);
            None
        }
    }
}

// The text of a recording on a fresh board of `size` chips, at the start of `out`, and its length; or the refusal.
fn make_text(size: usize, events: &[u8], stamps: &[u8], out: &mut [u8]) -> Result<usize, Refusal>
    ensures value { waved_by result ≡ wave_of size events.now stamps.now (length out.old) }
    ensures out_after { out.new ≡ buffer_of size events.now stamps.now out.old }
    ensures length_in_bounds { IfOk result (λ n. n ≤ length out.old) }
{
    let mut board = board::fresh(size)?;
    recording::export(&mut board, events, stamps, out)
}

// The line that says a refusal, at the start of `out`. Answers the index behind it.
fn put_refusal(out: &mut [u8], refusal: Refusal) -> usize
    requires { length out.old ≡ 64 }
    ensures wrote { Wrote out.old 0 (refusal_line (number_of refusal)) out.new result }
    ensures upper_bound { result ≤ 64 }
{
    match refusal {
        Refusal::Size => buffers::put_bytes(out, 0, b"refused 33 a board has one to four chips\n"),
        Refusal::Unsound => buffers::put_bytes(out, 0, b"refused 35 the board is not sound\n"),
        Refusal::Length => buffers::put_bytes(
            out,
            0,
            b"refused 32 the events are not whole records of four bytes\n",
        ),
        Refusal::Records => buffers::put_bytes(out, 0, b"refused 36 more than 16384 records\n"),
        Refusal::Stamps => buffers::put_bytes(
            out,
            0,
            b"refused 41 the stamps are not two bytes for each record\n",
        ),
        Refusal::Text => buffers::put_bytes(
            out,
            0,
            b"refused 40 the text is longer than its buffer\n",
        ),
        _ => text::put_refused(out, 0, refusal.into()),
    }
}

// Says a refusal on standard error.
fn refuse(stderr: &mut impl Write, refusal: Refusal) {
    let mut line = [0u8; 64];
    let end = put_refusal(&mut line, refusal);
    let _ = stderr.write_all(&line[..end]);
}

// Makes the text and writes it, or says the refusal. A reader that has left is no failure to speak of.
fn show(
    stdout: &mut impl Write,
    stderr: &mut impl Write,
    size: Result<usize, Refusal>,
    events: &[u8],
    stamps: &[u8],
) {
    let mut out = station::zeros::<PAGE>();
    match size.and_then(|size| make_text(size, events, stamps, &mut out)) {
        Ok(end) => {
            if let Err(error) = stdout.write_all(&out[..end])
                && error.kind() != ErrorKind::BrokenPipe
            {
                fail(stderr, b"standard output", error);
            }
        }
        Err(refusal) => refuse(stderr, refusal),
    }
}

// Does nothing. Its contract: a file that is longer than its buffer is refused by its own length, in however many parts it is read.
#[tactic(auto, using(crate::proofs::Lengths::read_in_parts, crate::proofs::Lengths::by_own_length))]
fn long_files()
    ensures { ReadInParts × ByOwnLength }
{}

// Reads the two files, and then shows their recording.
fn export_files(
    rt: &(impl Env + Files),
    stdout: &mut impl Write,
    stderr: &mut impl Write,
    size: Result<usize, Refusal>,
) {
    let mut events = station::zeros::<EVENTS>();
    let Some(n) = read_file(rt, stderr, 1, &mut events) else {
        return;
    };
    let mut stamps = station::zeros::<STAMPS>();
    let Some(m) = read_file(rt, stderr, 2, &mut stamps) else {
        return;
    };
    show(stdout, stderr, size, &events[..n], &stamps[..m]);
}

// Whether the program was started with that argument.
fn is_given(rt: &impl Env, argument: usize) -> bool {
    !matches!(rt.arg(argument, &mut []), Err(FillError::NotPresent))
}

fn main(rt: HostRuntime) {
    if !is_given(&rt, 2) | is_given(&rt, 4) {
        let _ = eprintln!(rt; "usage: wave EVENTS STAMPS [SIZE]");
        return;
    }
    export_files(
        &rt,
        &mut rt.stdout(),
        &mut rt.stderr(),
        station::last_size_asked(&rt, 3),
    );
}
