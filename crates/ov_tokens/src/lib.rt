//! Labels of keys, and the tokens that lead from key to key.
//!
//! A store has two masters, a base master and a surface master, and each label has one key under
//! them (`key_of_label` in `specs/Keys`). A [`Label`] is a [`Kind`] and a number: `B n` is the
//! derivation key of base node n, `A n` its access key, `S n` the key of surface node n. No two
//! labels have the same five bytes ([`labels_are_spelled_apart`]). A [`Layer`] says which labels a
//! layer's nodes have and how their keys come from its master; it has two, [`Base`] and
//! [`Surface`]. A [`Master`] is a key with the blocks of its HMAC hashed once, and a
//! [`SurfaceMaster`] also has the key of the owner's tags: the model of both is the key.
//!
//! A [`Token`] leads from a key to a label: it is the label's key XORed with the keyed hash of the
//! label under the first key ([`make`]). So whoever holds the first key has the second by
//! [`derive`], and no other secret is needed. [`tokens_lead_back`] is the law that this gives the
//! very key.
//!
//! What else is derived from a key has a function each: [`access_key`], [`tag_key`], and of a
//! master [`update_key`] and [`check_value`]. Those that are keyed hashes have tag bytes of their
//! own.
//!
//! [`Edge`], [`Step`], [`Chain`] and the lists [`Tokens`], [`Numbers`] and [`Steps`] are what
//! graphs of keys are made of, and are here so that a record or a message can hold them without a
//! graph.
//!
//! Nothing is claimed of secrecy: not that a key can't be found without the token, nor that two
//! labels have different keys. That rests on the keyed hash, and no proof speaks of it.
#![tactic(auto)]

mod chain;
mod edge;
mod keys;
mod label;
mod layer;
mod master;
mod message;
mod numbers;
mod steps;
mod surface_master;
mod token;
mod tokens;

pub use chain::{Chain, Step};
pub use edge::Edge;
pub use keys::{access_key, check_value, tag_key, update_key};
pub use label::{Kind, Label, labels_are_spelled_apart};
pub use layer::{Base, Layer, Surface};
pub use master::Master;
pub use numbers::Numbers;
pub use steps::Steps;
pub use surface_master::SurfaceMaster;
pub use token::{Token, derive, make, tokens_lead_back};
pub use tokens::Tokens;
