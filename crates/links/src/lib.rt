// What the links say: one link's verdict, following links, committed versions. The definitions are in crates rules and follow.

#![tactic(auto)]

pub mod survey; // survey.rt: each page's highest record
mod link; // link.rt: one link's verdict
mod second; // second.rt: the second highest version
pub mod committed; // committed.rt: following verdicts, committed versions
