//! FNV-1a sums of longer texts, whose byte `i` is `31 i + 7` modulo 256, after OpenSSL's pad.
//! Written by `tools/cipher_vectors.py`, which says how.

pub struct Vector {
    pub start: u64,
    pub length: usize,
    pub sum: u64,
}

pub static SUMS: [Vector; 15] = [
    Vector {
        start: 0,
        length: 255,
        sum: 0x80ba6d528ffa268a,
    },
    Vector {
        start: 0,
        length: 256,
        sum: 0xb6eea54aa6101206,
    },
    Vector {
        start: 0,
        length: 257,
        sum: 0xe794f1d82d4eb7fc,
    },
    Vector {
        start: 0,
        length: 4100,
        sum: 0x455db475eeabef3a,
    },
    Vector {
        start: 15,
        length: 255,
        sum: 0x17e8cc49f5a87e30,
    },
    Vector {
        start: 15,
        length: 256,
        sum: 0x491198ac6d4ee435,
    },
    Vector {
        start: 15,
        length: 257,
        sum: 0x77ca9dfdbd0dbf43,
    },
    Vector {
        start: 15,
        length: 4100,
        sum: 0x16e8b9fdab6c7472,
    },
    Vector {
        start: 17,
        length: 255,
        sum: 0x24fabc36d4079588,
    },
    Vector {
        start: 17,
        length: 256,
        sum: 0xdda32e2a48e2cd07,
    },
    Vector {
        start: 17,
        length: 257,
        sum: 0x7f14d7d9d9630452,
    },
    Vector {
        start: 17,
        length: 4100,
        sum: 0x23831f6126f2cb20,
    },
    Vector {
        start: 3943,
        length: 256,
        sum: 0x0716ffd44599685f,
    },
    Vector {
        start: 4031,
        length: 300,
        sum: 0xe19abbd0752aca18,
    },
    Vector {
        start: 1048320,
        length: 512,
        sum: 0x6f30a831e450cee4,
    },
];
