//! Tests of `ov_base`, by its types.

mod limits;
mod mode;
mod name;
mod names;
mod octets;
mod refusal;
mod user_set;
