//! Clustering by many workers at once, over a table of atomic words.
//!
//! The table has a mark and a mass for each vertex. Each step of a worker on them is one event of the
//! clustering, whose balance the table keeps, so the clusters are within the cap whatever the threads
//! do. No step tries again.
#![tactic(auto)]

mod board;
mod claim;
mod pass;
mod ratings;
mod shared;
mod worker;

pub use claim::cluster;
