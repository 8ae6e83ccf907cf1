// From the calls to the demands: theorems about the functions that C and Rust call, in any order. specs/Promise.antt gathers them in one
// record. The one function here does nothing; its contract is that record, so that the check fails where a part has no proof.
#![tactic(auto)]

ghost use Rattle.calls.specs.Promise.{Promise};

pub fn kept_promise()
    ensures { Promise }
{}
