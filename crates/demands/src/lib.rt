// What the owner asks of the board, as theorems about the product's own step and run: specs/Demands.antt and specs/Asks.antt say them,
// proofs/ has the proofs. The one function here does nothing; its contract is the statements, so that the check fails where one has no
// proof.
#![tactic(auto)]

ghost use Rattle.demands.specs.Demands.{FourBytes, NotFourBytes, EveryRun, FromFresh, FromSound, FromAny, NoHistory};
ghost use Rattle.demands.specs.Asks.{WhoIsAsking};

pub fn kept_promises()
    ensures four_bytes { FourBytes × NotFourBytes × EveryRun }
    ensures from_fresh { FromFresh × FromSound × FromAny × NoHistory }
    ensures who_is_asking { WhoIsAsking }
{}
