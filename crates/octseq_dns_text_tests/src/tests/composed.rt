//! Records and messages that are read from text.
mod messages;
mod records;
mod refused;
