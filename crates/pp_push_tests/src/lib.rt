//! Tests of finished programs, and of the push engine.
#![tactic(auto)]

#[cfg(test)]
mod clean;
#[cfg(test)]
mod embed;
#[cfg(test)]
mod engine;
#[cfg(test)]
mod graphs;
