//! Tests of BGP messages: rows of octets and what they say, from outside.
#![tactic(auto)]

#[cfg(test)]
mod tests;
