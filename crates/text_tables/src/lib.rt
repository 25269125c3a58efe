//! Texts with outcomes that were worked out by hand.

#![tactic(auto)]

#[cfg(test)]
mod relations;
