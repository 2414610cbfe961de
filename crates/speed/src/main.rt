//! What `docs/PERFORMANCE.md` times: `speed` and one of these words: `pad`, `pages`, `short`,
//! `tag`, `graph`, `chain`, `journal`, `wire`, `copy`; a number of nodes and then `fill`, `find` or
//! `plan`, or these behind `list_`, over the graph that looks at every node; a number of extents and
//! then `place`; `lengths`, which `tools/announced_lengths.sh` runs; and `cuts`, `plain` and
//! `starts`, whose numbers `tools/pad_vectors.py` computes by OpenSSL.
//!
//! Each does one piece of work and prints one line that shows that it was done. It is timed from
//! outside.
#![tactic(auto)]

mod blocks;
mod graph;
mod journal;
mod lengths;
mod pads;
mod wire;

use ov_base::limits::SET_WORDS;
use ov_ctr::apply_at;
use ov_graph::ListGraph;
use ov_index::IndexGraph;
use ov_keyed::mac;
use ov_tokens::Base;
use std::alloc::{AllocError, Global};
use std::env;
use std::test::Fail;

const SIZE: usize = 67_108_864;

type Indexed = IndexGraph<Base, SET_WORDS>;

type Listed = ListGraph<Base, SET_WORDS>;

fn zeros(alloc: Global) -> Result<Vec<u8>, AllocError> {
    let mut bytes = Vec::with_capacity(alloc, SIZE)?;
    for _ in 0..SIZE {
        bytes.push(0)?;
    }
    Ok(bytes)
}

// The pad of a file over 64 MiB, four times: then it is all zeros again.
fn pad(alloc: Global) -> Result<usize, Fail> {
    let mut bytes = zeros(alloc)?;
    if bytes.len() <= SIZE {
        for _ in 0..4u8 {
            apply_at(&[7; 32], b'B', 2, 0, bytes.as_mut_slice());
        }
    }
    Ok(bytes.iter().filter(|byte| **byte == 0).count())
}

// The tag of 64 MiB, four times: its first byte.
fn tag(alloc: Global) -> Result<usize, Fail> {
    let bytes = zeros(alloc)?;
    let mut first = 0u8;
    if bytes.len() <= SIZE {
        for _ in 0..4u8 {
            first = mac(&[first; 32], &bytes, b"")[0];
        }
    }
    Ok(usize::from(first))
}

fn main(rt: HostRuntime) -> Result<(), Fail> {
    let alloc = rt.alloc();
    let mut nodes = 0u32;
    for word in env::args(&rt)?.skip(1) {
        let answer = match word.as_str() {
            "pad" => pad(alloc)?,
            "tag" => tag(alloc)?,
            "graph" => graph::chains::<Indexed>(alloc, 0)?,
            "chain" => graph::chains::<Indexed>(alloc, 10_000)?,
            "fill" => graph::finds::<Indexed>(alloc, nodes, 0)?,
            "list_fill" => graph::finds::<Listed>(alloc, nodes, 0)?,
            "find" => graph::finds::<Indexed>(alloc, nodes, 100)?,
            "list_find" => graph::finds::<Listed>(alloc, nodes, 100)?,
            "plan" => graph::plans::<Indexed>(alloc, nodes, 100)?,
            "list_plan" => graph::plans::<Listed>(alloc, nodes, 100)?,
            "place" => blocks::places(alloc, nodes)?,
            "journal" => journal::appends(rt)?,
            "cuts" => pads::cuts(100_000),
            "pages" => pads::pages(),
            "short" => pads::short(),
            "plain" => pads::plain(),
            "starts" => pads::starts(),
            "wire" => wire::reads(alloc)?,
            "copy" => wire::copies(alloc)?,
            "lengths" => {
                let frames = lengths::frames(alloc, 10_000)?;
                let scripts = lengths::scripts(alloc, 100)?;
                println!(rt; "{frames} bytes of frames, {scripts} scripts")?;
                0
            }
            number => {
                nodes = number.parse().unwrap_or(0);
                0
            }
        };
        println!(rt; "{word} {answer}")?;
    }
    Ok(())
}
