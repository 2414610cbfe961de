//! Tokens under two masters, written by `tools/layer_vectors.py`.

use ov_tokens::Token;

/// The first byte of a base master, a node, the starts of the edges into it, and their tokens.
pub struct Cover {
    pub start: u8,
    pub node: u32,
    pub from: &'static [u32],
    pub tokens: &'static [Token],
}

/// The first byte of a base master, a root, a node, and the access token.
pub struct Access {
    pub start: u8,
    pub root: u32,
    pub node: u32,
    pub token: Token,
}

pub static COVERS: [Cover; 2] = [
    Cover {
        start: 0,
        node: 3,
        from: &[0, 1],
        tokens: &[
            Token {
                bytes: *b"\x84\x9e\xb6\xaa\x69\x92\x46\xf4\xee\x20\xd7\xb3\xcc\x3d\x46\x00\x2b\x7d\xa4\xa3\x29\x1e\x72\xf7\x76\x94\x5d\x2d\xa7\x9a\x1d\x57",
            },
            Token {
                bytes: *b"\x64\x2c\x0e\x04\x18\x91\x22\xc6\x05\x51\xc4\xfb\x03\x2b\xb4\x78\xef\x62\xd8\x5c\xce\x06\x1e\x22\xe4\x78\xbd\x66\xef\xd2\x35\x2d",
            },
        ],
    },
    Cover {
        start: 200,
        node: 4095,
        from: &[4094, 7, 70],
        tokens: &[
            Token {
                bytes: *b"\x0f\x63\x92\xdd\x4a\x7c\x76\xf0\x1c\x48\x7e\x90\x11\x8b\xd6\xf2\xf6\xbe\x3a\x3c\xb5\x43\x37\xe6\x57\x91\x0c\x22\xb6\x19\xee\xc3",
            },
            Token {
                bytes: *b"\x08\xd2\xf5\xfc\xfd\x48\x76\x37\x5a\x76\x17\x07\x2f\xfc\x91\x93\x80\x0f\xfd\x44\x5f\x9c\x4d\xf9\x6d\xb4\x60\x7c\x47\xdf\xc1\xae",
            },
            Token {
                bytes: *b"\x99\x98\x17\xdb\x62\x29\xa3\x34\x8d\xdd\x59\xdd\x25\xaf\xcc\xe5\xd7\x63\x1d\x9f\x49\x51\x86\x20\x54\x54\xed\x72\x73\x5b\x34\x9f",
            },
        ],
    },
];

pub static ACCESSES: [Access; 2] = [
    Access {
        start: 0,
        root: 2,
        node: 3,
        token: Token {
            bytes: *b"\x61\x18\x62\x44\x1c\x56\xa6\xcb\x9f\xc6\x41\x23\xa2\x79\x3b\xce\x2c\x19\x7a\x72\xb5\xa3\x7a\xc6\xf0\x03\x82\xe2\x98\x8d\xee\x82",
        },
    },
    Access {
        start: 200,
        root: 70,
        node: 4095,
        token: Token {
            bytes: *b"\x02\x5c\x18\x7d\x10\xed\x39\x12\xdf\x8e\x54\x1e\x75\xc6\x0d\xf3\x18\x34\x64\x88\xd5\xa6\xd2\xca\xd0\x72\xdc\xdc\x33\xa8\x92\xa9",
        },
    },
];
