//! Tests of DNS data, records and messages read from text: what no proof covers.
#![tactic(auto)]

#[cfg(test)]
mod tests;
