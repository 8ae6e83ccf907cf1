// Every session of tests/cases.txt as a theorem: specs/Sessions.antt has them, specs/Rows.antt says how a row is worked out by the
// product's own definitions. specs/Slips.antt has rows that must not hold. The one function does nothing; its contract is the statements.
#![tactic(auto)]

ghost use Rattle.sessions.specs.Rows.{SessionsHold};
ghost use Rattle.sessions.specs.Sessions.{rows};
ghost use Rattle.sessions.specs.Slips.{SlipsMissed};

pub fn sessions_hold()
    ensures sessions_hold { SessionsHold rows }
    ensures slips_missed { SlipsMissed }
{}
