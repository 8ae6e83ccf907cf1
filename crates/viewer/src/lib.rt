// What a recording's text means to the wave viewer that reads it, and how long it can be: specs/ says it, proofs/ has the proofs. The
// functions here do nothing; their contracts are the statements, so that the check fails where one has no proof.
#![tactic(auto)]

ghost use Rattle.viewer.specs.Writers.{OneWriting};
ghost use Rattle.viewer.specs.Rooms.{Bounded, NeverForty};
ghost use Rattle.viewer.specs.Recordings.{ExportReads, OneText};

pub fn one_writing()
    ensures { OneWriting }
{}

pub fn room_enough()
    ensures { Bounded × NeverForty }
{}

pub fn export_reads()
    ensures { ExportReads × OneText }
{}
