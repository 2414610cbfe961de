//! Tests of `ov_graph`, `ov_index`, `ov_chain`, `ov_base_layer` and `ov_surface`: the nodes and
//! covers of a few sets, of all sets of twelve users and of a small team's day, as the rule of covers
//! gives them; that the two kinds of graph answer alike (`calls` makes
//! the same calls of two graphs, after which they agree); chains in a graph of seven nodes, and from
//! each root to each node of one of 300; tokens, coats and tags under chosen keys, and what a layer of
//! three users answers. The chains come from `tools/chain_vectors.py`, which has a search of its own,
//! and the bytes from Python's `hmac` and `hashlib`, and from OpenSSL's AES-256 in counter mode.
#![tactic(auto)]

#[cfg(test)]
mod asking;
#[cfg(test)]
mod base_layer;
pub mod calls;
#[cfg(test)]
mod chain;
#[cfg(test)]
mod few;
#[cfg(test)]
mod graph;
#[cfg(test)]
mod index;
#[cfg(test)]
mod sets;
#[cfg(test)]
mod surface;
