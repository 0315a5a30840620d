// Laws of tests and of contradictions that all crates need: no definition and no code.
#![tactic(auto)]
