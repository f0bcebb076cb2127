//! Tests of the formats of public standards, on packets from other programs: what no proof covers.
#![tactic(auto)]

#[cfg(test)]
mod tests;
