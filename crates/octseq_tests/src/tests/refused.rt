//! Refused requests for memory.
//!
//! `.ci/refused` runs these tests with their n-th request refused, for each n up to the last of them. A refusal ends a
//! test with its error, once the test has checked what is there. A test of `spared` requests memory for its setup only.
mod builders;
mod composing;
mod conversions;
mod parsers;
mod spared;
mod texts;
