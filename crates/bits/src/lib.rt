// The eight lines of a port as the bits of a byte: do the watched lines match, what does a read show, which levels are driven.
// Document 01, "Data, handshake, bits". Whole bytes are worked on here; specs/ says the same line by line.
#![tactic(auto)]

ghost use Rattle.std.specs.Prelude.{◌≡◌};
ghost use Rattle.bits.specs.Lines.{active_of, match_of, mixed_of, levels_of};

// A 1 for each line that is at the active level.
fn active_lines(lines: u8, high: bool) -> u8
    ensures { result ≡ active_of lines high }
{
    if high { lines } else { !lines }
}

// Whether the lines match: the input lines with mask bit 0, some (OR) or all (AND) of them at the active level. All are if none is at
// the other level, so that one test does for both, and no branch.
#[tactic(auto, using(crate::proofs::Match::by_both))]
pub fn matches(select: u8, mask: u8, lines: u8, high: bool, all: bool) -> bool
    ensures { result ≡ match_of select mask lines high all }
{
    let watched = select & !mask;
    let met = watched & active_lines(lines, !(high == all)) != 0;
    (watched != 0) & !(met == all)
}

// What a read in bit control shows: the line on input bits, the output register on output bits.
#[tactic(auto, using(crate::proofs::Match::mixing))]
pub fn mixed(select: u8, lines: u8, out: u8) -> u8
    ensures { result ≡ mixed_of select lines out }
{
    (select & lines) | (out & !select)
}

// The levels of the driven lines; an undriven line shows 0.
#[tactic(auto, using(crate::proofs::Match::driving))]
pub fn levels(out: u8, driven: u8) -> u8
    ensures { result ≡ levels_of out driven }
{
    out & driven
}
