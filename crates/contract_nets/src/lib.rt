//! Contraction: the vertices of each cluster become one, and nets with equal sets of clusters
//! become one net.
#![tactic(auto)]

mod contraction;
mod cuts;
mod images;
mod keys;
mod ledger;
mod merging;
mod nets;
mod ranges;
mod vertices;

pub use contraction::{contract, count_clusters};
pub use hg_base::NoMemory;
pub use incidence::Hypergraph;
pub use ledger::{MergeLedger, Merged};
