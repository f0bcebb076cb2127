//! Tests of DNS record data: what no proof covers.
#![tactic(auto)]

#[cfg(test)]
mod tests;
