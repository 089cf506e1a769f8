// Text as bytes: read from a place in a line, and put at a place in a buffer.
#![tactic(auto)]

pub mod print; // print.rt: text put into a buffer
pub mod scan; // scan.rt: what stands at a place in a line
