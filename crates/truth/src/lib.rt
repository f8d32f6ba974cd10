// Laws of tests, the values of type Bool, which every crate above shares. There is no code.
#![tactic(auto)]
