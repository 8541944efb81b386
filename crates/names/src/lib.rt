// Ports the tables of names of mod.rs, and their checks of assert.rs.
#![tactic(auto)]

pub mod calendar;
