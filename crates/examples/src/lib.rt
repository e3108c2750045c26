// The worked examples, one by one, as one proved list: the list is specs/Examples.antt.
#![tactic(auto)]

ghost use Rattle.examples.specs.Examples.{Each, examples};

/// Each of the worked examples holds.
#[tactic(auto, using(crate::proofs::Theorem::hold))]
pub fn hold()
    ensures { Each examples }
{}
