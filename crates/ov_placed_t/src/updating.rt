//! What lies in Blobs and Book after a file was created, files that are turned piece by piece, and a
//! record that is read again.

mod created;
mod pieces;
mod records;

use ov_base::Key;
use ov_tokens::Master;

/// The surface master.
fn master() -> Master {
    Master::new(&Key { bytes: [9; 32] })
}
