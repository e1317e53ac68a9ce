//! The tests of all crates, a module for each crate under test, and one for the rules of graphs.
#![tactic(auto)]

#[cfg(test)]
mod broken;
#[cfg(test)]
mod bytes;
#[cfg(test)]
mod capture;
#[cfg(test)]
mod check;
#[cfg(test)]
mod event;
#[cfg(test)]
mod flow;
#[cfg(test)]
mod frame;
#[cfg(test)]
mod graph;
#[cfg(test)]
mod http;
#[cfg(test)]
mod lower;
#[cfg(test)]
mod mean;
#[cfg(test)]
mod outside;
#[cfg(test)]
mod program;
#[cfg(test)]
mod rules;
#[cfg(test)]
mod scan;
#[cfg(test)]
mod text;
#[cfg(test)]
mod tool;
