#![tactic(auto)]

pub mod table;

ghost use Rattle.examples.specs.Cases.{ExamplesStand};

// The worked examples are what the definitions give: each is computed from them.
pub fn examples_stand()
    ensures { ExamplesStand }
{}
