#![tactic(auto)]

// What every run of a fabric keeps.
