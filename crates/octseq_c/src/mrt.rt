//! MRT records.

mod attributes;
mod header;
mod record;
mod row;
mod rows;
