//! Refused requests for memory.
//!
//! `.ci/refused` runs these tests with their n-th request refused, for each n up to the last of them. A refusal ends a
//! test with its error, once the test has checked what is there.
mod answers;
mod frames;
mod messages;
mod names;
mod rewriting;
mod writing;
