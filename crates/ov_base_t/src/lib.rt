//! Tests of `ov_base`, `ov_io`, `ov_keyfile`, `ov_fields`, `ov_record`, `ov_wire` and `ov_script`:
//! names, sets and limits, sources and sinks in memory and over files; fields, forms and entries; lines
//! of replies, and the commands of stated workloads. The expected values are spelled by hand from the
//! formats, or were told by another program, as the workloads by another ChaCha20. Whole frames,
//! records, scripts and key files are rows of `form_cases`.
#![tactic(auto)]

#[cfg(test)]
mod base;
#[cfg(test)]
mod fields;
#[cfg(test)]
mod io;
#[cfg(test)]
mod keyfile;
#[cfg(test)]
mod record;
#[cfg(test)]
mod replies;
#[cfg(test)]
mod widening;
#[cfg(test)]
mod wire;
#[cfg(test)]
mod workload;
