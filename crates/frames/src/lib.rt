// What one time of a recording shows, and how long it is to the next. Document 02, Ask 1.
#![tactic(auto)]

ghost use Rattle.std.specs.Prelude.{◌≡◌, ◌+◌, ◌*◌, ◌<◌, ◌≤◌, ◌&&◌, length, nat_lt, if◌then◌else◌};
ghost use Rattle.bits.specs.Bits.{◌is◌};
ghost use Rattle.buffers.specs.Splice.{if_room, Wrote};
ghost use Rattle.frames.specs.Stamps.{stamp_at, gap_from};
ghost use Rattle.frames.specs.Values.{flag, values_of};
ghost use Rattle.frames.specs.Frames.{identifier, header, time_line, value_line, changed_lines, later_frame};

use chain::MOST;
use chip::Chip;

// Stamp i, low byte first.
fn stamp(stamps: &[u8], i: usize) -> u16
    requires { 2 * i + 2 ≤ length stamps.now }
    ensures { result ≡ stamp_at stamps.now i }
{
    u16::from_le_bytes([stamps[2 * i], stamps[2 * i + 1]])
}

// How long after record i the next one comes, in microseconds: the wrapping difference of their stamps. Behind the last record it is
// 65,536, which no difference is.
#[tactic(auto, using(crate::proofs::Gaps::gap_between, crate::proofs::Gaps::gap_behind))]
pub fn gap_after(stamps: &[u8], i: usize) -> u64
    ensures { (result ≡ gap_from stamps.now i) × (result ≤ 65536) }
{
    let n = stamps.len() / 2;
    if i >= n {
        return 65536;
    }
    if n - i < 2 {
        return 65536;
    }
    let here = stamp(stamps, i);
    let next = stamp(stamps, i + 1);
    u64::from(next.wrapping_sub(here))
}

// The value of a Ready line of chip k, which may be beyond the board's size.
#[tactic(auto, using(bits::proofs::Tests::bool_byte_lem))]
fn shows(size: u8, k: u8, ready: bool) -> u8
    ensures { result ≡ flag (nat_lt k size && ready) }
{
    ((k < size) & ready) as u8
}

// The nine values after a record: int, and the Ready lines of places 0 to 7.
pub fn values(size: u8, chips: [Chip; MOST], request: u8) -> [u8; 9]
    ensures { result ≡ values_of size chips request }
{
    let [first, second, third, fourth] = chips;
    [
        (request != 0) as u8,
        shows(size, 0, first.a.ready),
        shows(size, 0, first.b.ready),
        shows(size, 1, second.a.ready),
        shows(size, 1, second.b.ready),
        shows(size, 2, third.a.ready),
        shows(size, 2, third.b.ready),
        shows(size, 3, fourth.a.ready),
        shows(size, 3, fourth.b.ready),
    ]
}

// The recording's header at the start of `out`. Answers its length; without room for it all it is 0, and nothing is written.
#[tactic(auto, unfolding(crate::specs::Frames::header))]
pub fn put_header(out: &mut [u8]) -> usize
    ensures { Wrote out.old 0 (if_room out.old 0 257 header) out.new result }
{
    buffers::put_bytes(
        out,
        0,
        b"$timescale 1 us $end\n$var wire 1 ! int $end\n$var wire 1 \" rdy0 $end\n$var wire 1 # rdy1 $end\n$var wire 1 $ rdy2 $end\n$var wire 1 % rdy3 $end\n$var wire 1 & rdy4 $end\n$var wire 1 ' rdy5 $end\n$var wire 1 ( rdy6 $end\n$var wire 1 ) rdy7 $end\n$enddefinitions $end\n",
    )
}

// A value as text.
#[tactic(auto, using(bits::proofs::Tests::tests))]
fn digit(value: u8) -> u8
    ensures { result ≡ (if value is 0 then 48 else 49) }
{
    if value == 0 { b'0' } else { b'1' }
}

// The line of one value at index `at`. Answers the index behind it; without room for it all it is `at`.
#[tactic(auto, unfolding(crate::specs::Frames::value_line))]
fn put_value(out: &mut [u8], at: usize, character: u8, value: u8) -> usize
    ensures { Wrote out.old at (if_room out.old at 3 (value_line character value)) out.new result }
{
    let line = [digit(value), character, b'\n'];
    buffers::put_bytes(out, at, &line)
}

// The lines of the values that are not as they were shown, where there is room for them.
fn put_changes(out: &mut [u8], at: usize, shown: [u8; 9], values: [u8; 9]) -> usize
    requires { at + 27 ≤ length out.old }
    ensures wrote { Wrote out.old at (changed_lines identifier shown values) out.new result }
    ensures upper_bound { result ≤ at + 27 }
{
    let mut next = at;
    for (i, value) in values.iter().enumerate() {
        if *value != shown[i] {
            next = put_value(out, next, b'!' + i as u8, *value);
        }
    }
    next
}

// The line of a time, where there is room for it.
fn put_time(out: &mut [u8], time: u64) -> usize
    requires { 22 ≤ length out.old }
    ensures wrote { Wrote out.old 0 (time_line time) out.new result }
    ensures upper_bound { result ≤ 22 }
{
    out[0] = b'#';
    let next = buffers::put_decimal(out, 1, time);
    out[next] = b'\n';
    next + 1
}

// The text of a time at the start of `out`: its line, and the lines of the values that are not as they were shown; nothing where all
// are. It asks for 49 bytes: a time has at most 20 digits. Answers the text's length; without that room it is 0.
#[tactic(auto, using(buffers::proofs::Splices::no_room, buffers::proofs::Splices::room, buffers::proofs::Splices::splice_none, crate::proofs::Changes::no_frame))]
pub fn put_frame(out: &mut [u8], time: u64, shown: [u8; 9], values: [u8; 9]) -> usize
    ensures wrote { Wrote out.old 0 (if_room out.old 0 49 (later_frame time shown values)) out.new result }
    ensures upper_bound { result ≤ 49 }
{
    if out.len() < 49 {
        return 0;
    }
    if values == shown {
        return 0;
    }
    let next = put_time(out, time);
    put_changes(out, next, shown, values)
}
