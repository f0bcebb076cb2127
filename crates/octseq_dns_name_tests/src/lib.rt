//! Tests of domain names, compressed ones too: what no proof covers.
#![tactic(auto)]

#[cfg(test)]
mod tests;
