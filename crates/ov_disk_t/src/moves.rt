//! Where a file goes that is created and rewritten twice, how long Blobs is then and what is in it, and
//! what is held after a fault.

mod asked;
mod rows;
mod turns;
