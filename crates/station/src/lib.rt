// What the three programs share: zeros, what they say of a failure, what they ask the command line, and the loop that reads records and
// writes a program's text of them. What comes and where it goes is known to a contract only where a reader's or a writer's bytes are.
#![tactic(auto)]

ghost use Rattle.std.specs.Prelude.{◌≡◌, ◌+◌, ◌≤◌, ℕ, List, length, IsTrue, take, IfOk, MatchResult};
ghost use Rattle.std.specs.Io.KnownBytes.{Appends, Consumes, Keeps};
ghost use Rattle.buffers.specs.Splice.{Wrote};
ghost use Rattle.station.specs.Zeros.{zeros_of};
ghost use Rattle.station.specs.Pages.{GoesOn, Shown};
ghost use Rattle.station.specs.Failures.{why_of, Said};

use refusals::Refusal;
use std::env::FillError;
use std::io;
use std::io::{Cursor, Error, ErrorKind, Read, Write};
use std::rt::Env;

// A buffer of zeros.
#[tactic(auto, unfolding(crate::specs::Zeros::zeros_of))]
pub fn zeros<const N: usize>() -> [u8; N]
    ensures { result ≡ zeros_of N }
{
    [0; N]
}

// The system's words for a failure: std puts the system's number behind them.
pub fn why(words: &str) -> &str
    ensures { result.now ≡ why_of words.now }
{
    match words.split_once(" (os error ") {
        Some((why, _)) => why,
        None => words,
    }
}

// Says what failed and why, until a write fails. Answers whether all of it was said.
pub fn fail<W: Write>(stderr: &mut W, what: &[u8], error: Error) -> bool
    ensures { IsTrue result → Said (W.contents stderr.old) (W.contents stderr.new) what.now }
{
    let mut words = Cursor::new([0u8; 128]);
    let _ = write!(words, "{error}");
    let bytes = words.into_inner();
    let text = std::str::from_utf8(&bytes)
        .unwrap_or("")
        .trim_end_matches('\0');
    stderr.write_all(what).is_ok() && writeln!(stderr, ": {}", why(text)).is_ok()
}

// Writes the text, and answers whether all of it was taken. A reader that has left is no failure to speak of.
pub fn write_text<O: Write, E: Write>(stdout: &mut O, stderr: &mut E, text: &[u8]) -> bool
    ensures { IsTrue result → Appends (O.contents stdout.old) (O.contents stdout.new) text.now }
{
    match stdout.write_all(text) {
        Ok(()) => true,
        Err(error) => {
            if error.kind() != ErrorKind::BrokenPipe {
                fail(stderr, b"standard output", error);
            }
            false
        }
    }
}

// How many words the program was started with, its own name among them: as many as stand before the first that is not there.
pub fn arg_count(rt: &impl Env) -> usize {
    for i in 0..usize::MAX {
        if let Err(FillError::NotPresent) = rt.arg(i, &mut []) {
            return i;
        }
    }
    usize::MAX
}

// The size that an argument asks for: 4 without one, and refused where it is no size.
#[tactic(auto, using(crate::proofs::Sizes::asked))]
pub fn size_asked(rt: &impl Env, argument: usize) -> Result<usize, Refusal>
    ensures { MatchResult result (λ n. (1 ≤ n) × (n ≤ 4)) (λ r. r ≡ Refusal.Size) }
{
    let mut word = [0u8; 4096];
    match rt.arg(argument, &mut word) {
        Ok(n) => text::size_in(&word[..n]),
        Err(FillError::NotPresent) => Ok(4),
        Err(FillError::TooLong) => Err(Refusal::Size),
    }
}

// The size that the last argument asks for: 4 without one, and refused where it is no size or another argument comes after it.
pub fn last_size_asked(rt: &impl Env, argument: usize) -> Result<usize, Refusal>
    ensures { MatchResult result (λ n. (1 ≤ n) × (n ≤ 4)) (λ r. r ≡ Refusal.Size) }
{
    if !matches!(
        rt.arg(argument.saturating_add(1), &mut []),
        Err(FillError::NotPresent)
    ) {
        return Err(Refusal::Size);
    }
    size_asked(rt, argument)
}

// Reads what has come, and then the rest of its last record; the buffer takes whole records alone. Answers how many bytes there are:
// none where the input has ended, and a part of a record at the end only where the input ends there.
pub fn read_records<R: Read>(stdin: &mut R, buffer: &mut [u8]) -> io::Result<usize>
    ensures bound { IfOk result (λ n. n ≤ length buffer.old) }
    ensures bytes { MatchResult result (λ n. Consumes (R.remaining stdin.old) (R.remaining stdin.new) (take n buffer.new)) (λ _. Keeps (R.remaining stdin.old) (R.remaining stdin.new)) }
{
    let whole = buffer.len() - buffer.len() % 4;
    let mut n = stdin.read(&mut buffer[..whole])?;
    while n % 4 != 0 {
        match stdin.read(&mut buffer[n..n + (4 - n % 4)]) {
            Ok(0) | Err(_) => break,
            Ok(more) => n += more,
        }
    }
    Ok(n)
}

// What a program writes of its input, piece by piece. A piece has at most `INPUT` bytes, and its text at most `OUT`.
pub trait Pages<const INPUT: usize, const OUT: usize> {
    // the text of the bytes that are still to come
    ghost text_of: { Self → List ℕ → List ℕ };

    // Makes the text of a piece at the start of `out`, and answers how long it is.
    fn put(&mut self, input: &[u8], out: &mut [u8; OUT]) -> usize
        requires { length input.now ≤ INPUT }
        ensures wrote { Wrote out.old 0 (text_of self.old input.now) out.new result }
        ensures upper_bound { result ≤ OUT }
        ensures goes_on { GoesOn (text_of self.old) (text_of self.new) input.now };
}

// Reads the records that come and writes the text of them, until the input ends or nobody takes the text. Answers whether all was read
// and taken. Nothing says that an input ends, so the turns are counted, up to a number that no station reaches.
pub fn write_pages<
    const INPUT: usize,
    const OUT: usize,
    R: Read,
    O: Write,
    E: Write,
    P: Pages<INPUT, OUT>,
>(
    stdin: &mut R,
    stdout: &mut O,
    stderr: &mut E,
    input: &mut [u8; INPUT],
    out: &mut [u8; OUT],
    pages: &mut P,
) -> bool
    ensures { IsTrue result → Shown (P.text_of pages.old) (R.remaining stdin.old) (R.remaining stdin.new) (O.contents stdout.old) (O.contents stdout.new) }
{
    for _ in 0..u64::MAX {
        let n = match read_records(stdin, input) {
            Ok(n) => n,
            Err(error) => {
                fail(stderr, b"standard input", error);
                return false;
            }
        };
        let end = pages.put(&input[..n], out);
        if !write_text(stdout, stderr, &out[..end]) {
            return false;
        }
        if (n == 0) | (n % 4 != 0) {
            return true;
        }
    }
    false
}

#[cfg(test)]
mod tests {
    use super::*;

    // A program that was started with these words.
    #[derive(Drop)]
    struct Started<'a> {
        words: &'a [&'a [u8]],
    }

    impl Env for Started<'_> {
        fn arg(&self, i: usize, buf: &mut [u8]) -> Result<usize, FillError> {
            let Some(word) = self.words.get(i) else {
                return Err(FillError::NotPresent);
            };
            if word.len() > buf.len() {
                return Err(FillError::TooLong);
            }
            buf[..word.len()].copy_from_slice(word);
            Ok(word.len())
        }

        fn var(&self, _name: &str, _buf: &mut [u8]) -> Result<usize, FillError> {
            Err(FillError::NotPresent)
        }

        fn var_at(&self, _i: usize, _buf: &mut [u8]) -> Result<usize, FillError> {
            Err(FillError::NotPresent)
        }
    }

    #[test]
    fn words_are_counted(rt: HostRuntime) {
        let words: [&[u8]; 4] = [b"wave", b"events", b"", b"2"];
        for count in 0..5 {
            let started = Started {
                words: &words[..count],
            };
            assert_eq!(rt; arg_count(&started), count);
        }
    }

    #[test]
    fn a_size_is_asked_for(rt: HostRuntime) {
        let long = [b'1'; 4097];
        let words: [&[u8]; 8] = [b"panel", b"2", b"", b"5", b"two", &long, b"4", b"3"];
        let started = Started { words: &words };
        for (argument, size, last) in [
            (1, Some(2), None),
            (2, None, None),
            (3, None, None),
            (4, None, None),
            (5, None, None),
            (6, Some(4), None),
            (7, Some(3), Some(3)),
            (8, Some(4), Some(4)),
            (usize::MAX, Some(4), Some(4)),
        ] {
            assert_eq!(rt; size_asked(&started, argument).ok(), size, "at {argument}");
            assert_eq!(rt;
                last_size_asked(&started, argument).ok(),
                last,
                "the last at {argument}"
            );
        }
    }
}
