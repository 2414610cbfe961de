//! Tests of `ov_aes`, `ov_ctr`, `ov_keyed` and `ov_tokens`: blocks of AES-256, one and four at a
//! time; the pad of any part of a file, and two callers of its laws; tags of whole messages and of
//! messages in pieces; keys, tokens and check values under chosen masters, spellings of labels, and
//! lists. The expected values are those of FIPS 197, SP 800-38A and RFC 4231, of OpenSSL, and of
//! Python's `hmac` and `hashlib`.
#![tactic(auto)]

#[cfg(test)]
mod aes;
#[cfg(test)]
mod bytes;
#[cfg(test)]
mod ctr;
#[cfg(test)]
mod keyed;
#[cfg(test)]
mod tokens;
