//! The library for C. Each call does what a call of `octseq`, `octseq_dns`, `octseq_dns_compose`, `octseq_bgp` or
//! `octseq_mrt` does, over octets that the caller lends. It keeps no pointer, and returns a status. None but those of
//! `from_text` requests memory.
#![tactic(auto)]

mod answer;
mod bgp;
mod both;
mod data;
mod edns;
mod fields;
mod from_text;
mod header;
mod lines;
mod lossy;
mod message;
mod mrt;
mod names;
mod numbers;
mod pieces;
mod room;
mod rows;
mod settled;
mod shown;
mod status;
mod table;
mod text;
mod utf8;
mod within;
mod write;
mod writing;
