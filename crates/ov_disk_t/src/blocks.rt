//! Extents: the numbers of limits; which blocks are taken, given up and taken again, by rows by hand
//! and beside the answers of `tools/block_vectors.py`; bytes in extents, and what a stop leaves of
//! them.

mod asked;
mod bytes;
mod drawn;
mod limits;
mod places;
