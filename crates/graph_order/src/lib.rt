//! The topological order of a directed graph that is given as rows of numbers, the levels of its nodes, and a cycle if it has no order.
//!
//! The nodes are the numbers from 0 on. Each has a mark, whether it is driven, and a row, its fan-in: the nodes that it reads. In a
//! netlist a node is a net with a driver, what it reads are the inputs of that driver, and the topological order is the one in which
//! combinational logic can be evaluated.
//!
//! [`write_order`] finds the topological order of the driven nodes, the least node first wherever there is a choice. If there is none,
//! [`least_cycle`] finds the least node that lies on a cycle, with a cycle from it. To find it quickly, it gives each node a level: no
//! node reads one of a higher level, so the nodes of a strongly connected component share one, and a node that reads none of its own
//! level lies on no cycle.
#![tactic(auto)]

mod cycle;
mod levels;
mod order;
mod readers;
mod ready;
mod search;

pub use cycle::least_cycle;
pub use order::write_order;
