// What the definitions mean, as theorems about them: specs/ says them in document 01's words, proofs/ has the proofs. A function here
// does nothing; its contract is the statements, so that the check fails where one of them has no proof.
#![tactic(auto)]

ghost use Rattle.meaning.specs.Sound.{SoundSays};
ghost use Rattle.meaning.specs.Beyond.{NotRead, NotChanged};
ghost use Rattle.meaning.specs.Match.{OrMatch, AndMatch};
ghost use Rattle.meaning.specs.Mode2.{Mode2, Mode2Settles, Recouples, OneChip, BAnswers};
ghost use Rattle.meaning.specs.Settling.{Settles};
ghost use Rattle.meaning.specs.Sessions.{KeepsSize, KeepsBytes, KeepsReadyLow, KeepsPrefix, AfterAnySession, KeptBySessions};

// Soundness and the match, in plain words.
pub fn plain_words()
    ensures { SoundSays × (OrMatch × AndMatch) }
{}

// Places beyond the size.
pub fn beyond_the_size()
    ensures { NotRead × NotChanged }
{}

// A in mode 2, and B beside it.
pub fn mode_two()
    ensures mode2 { Mode2 × (Mode2Settles × Recouples) }
    ensures one_chip { OneChip × BAnswers }
{}

// The settling after every accepted event.
pub fn every_settling()
    ensures { Settles }
{}

// A board after any session.
pub fn any_session()
    ensures keeps_size { KeepsSize × (KeepsBytes × (KeepsReadyLow × KeepsPrefix)) }
    ensures after_any_session { AfterAnySession × KeptBySessions }
{}
