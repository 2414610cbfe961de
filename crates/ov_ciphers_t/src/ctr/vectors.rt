//! Texts whose byte `i` is `31 i + 7` modulo 256, after the pad that OpenSSL computes.
//! Written by `tools/cipher_vectors.py`, which says how.

pub struct Vector {
    pub key: [u8; 32],
    pub tag: u8,
    pub file: u32,
    pub start: u64,
    pub after: &'static [u8],
}

pub static PADS: [Vector; 26] = [
    Vector {
        key: *b"\x82\xe8\xba\x7b\xd5\x1d\x2b\x2d\x61\xf6\x01\x12\x50\xf3\x2e\xb4\x56\xf2\x64\xec\xe6\x1a\xda\x80\xa8\x8c\x57\x90\xa5\x8e\x70\x15",
        tag: 0,
        file: 0,
        start: 0,
        after: &[],
    },
    Vector {
        key: *b"\x50\x7f\x7f\xbf\xfe\xa9\xb9\xc3\x07\xfe\xdd\x20\xcd\xe8\x4a\xe6\x42\x10\xbf\x18\x10\xed\x5a\x33\x30\xc1\x9c\x08\xf9\x3c\xf2\xb5",
        tag: 0,
        file: 0,
        start: 0,
        after: &[0xdd],
    },
    Vector {
        key: *b"\x6b\xcd\x53\x09\x78\x46\xb9\x04\xb5\xb6\x41\xe7\xa2\x55\x1c\xb0\x15\x62\x1c\x01\x5a\xdc\x22\x16\xad\x2d\xeb\x06\x4a\x33\xe6\x3c",
        tag: 0,
        file: 0,
        start: 0,
        after: &[
            0x27, 0x67, 0xef, 0xe2, 0x60, 0x5e, 0x8c, 0xfc, 0xbc, 0x95, 0xb7, 0xbf, 0x06, 0x86,
            0x4a, 0xb0,
        ],
    },
    Vector {
        key: *b"\xdf\x50\xa2\xbe\x24\xc6\x65\xef\x6c\x5b\x34\x18\x9d\x76\xbb\x53\x3f\xa7\x3c\x80\xe5\x13\x9a\x7e\xb5\x30\x0c\x77\x20\x7a\xc4\x6e",
        tag: 1,
        file: 0,
        start: 0,
        after: &[
            0x34, 0x7d, 0x22, 0x6a, 0xc1, 0x0c, 0xcc, 0x92, 0x15, 0xca, 0xa9, 0xa0, 0xd9, 0x55,
            0x2d, 0xd3,
        ],
    },
    Vector {
        key: *b"\x5d\xf3\x7e\xa2\x97\x6b\xd6\x75\x59\xc4\x49\x48\xe3\x11\x5c\x1e\x9a\xe5\x23\x9c\xfa\x30\xea\xb2\x2f\xad\x4a\x3e\x9e\x46\xf3\xee",
        tag: 0,
        file: 1,
        start: 0,
        after: &[
            0x16, 0xe7, 0xc8, 0x24, 0xcb, 0x9e, 0x40, 0xcd, 0x55, 0x83, 0xbf, 0xa2, 0xb9, 0xcb,
            0x9e, 0x0e,
        ],
    },
    Vector {
        key: *b"\xf0\x75\xd9\xe5\xe6\x57\x5d\x67\xae\x90\x64\x2e\x1a\xff\x5f\xec\x5a\xd2\x7d\xdb\x3c\x67\x2f\x4e\xfe\x81\x54\xf6\x38\x30\xf9\xdd",
        tag: 255,
        file: 4294967295,
        start: 0,
        after: &[
            0x0f, 0x15, 0x64, 0x70, 0x04, 0x28, 0x3f, 0xcb, 0xb0, 0x7c, 0x5b, 0x68, 0x77, 0x0c,
            0x8b, 0x36,
        ],
    },
    Vector {
        key: *b"\x88\xe7\x4f\x88\x9b\x7f\xba\x39\x6a\x0f\xf6\x00\x5c\x90\x8e\xe1\xcb\x68\x56\x98\x82\xd6\x2d\xb1\xc6\xc8\xe1\xcd\x5f\x2f\xe0\x41",
        tag: 1,
        file: 2,
        start: 0,
        after: &[
            0xaf, 0xdd, 0xae, 0x14, 0x6d, 0xb5, 0x71, 0xf0, 0x8f, 0xec, 0x07, 0x00, 0xc6, 0x2e,
            0x85,
        ],
    },
    Vector {
        key: *b"\x01\x9b\x44\xfd\xe8\xb7\xf0\x49\x42\x5d\x5b\xe7\xb8\xff\xac\xbf\x6f\xf0\x96\xef\x1d\x82\x04\x6f\x71\x06\x38\x32\x12\x02\xd4\x20",
        tag: 1,
        file: 2,
        start: 15,
        after: &[0x31],
    },
    Vector {
        key: *b"\xd5\x27\xde\x34\xfe\x0c\x86\xf0\xff\x67\xf8\x7c\xf0\x84\x8c\x3c\xaa\xbb\x4b\xf1\xc0\xa7\xc9\x65\xe0\x6c\x35\x07\xbc\xb4\xb4\x33",
        tag: 1,
        file: 2,
        start: 15,
        after: &[0xc2, 0xb8],
    },
    Vector {
        key: *b"\x95\x30\xfb\x1a\xbc\x24\xd4\xc9\xa1\x35\x0c\x53\x14\x39\xf5\x71\x4e\x9f\xd7\xd0\x36\xb7\x85\xa3\xb4\xbb\x22\x1b\x36\x3d\x67\x78",
        tag: 1,
        file: 2,
        start: 0,
        after: &[
            0x59, 0xda, 0x4a, 0xa6, 0x61, 0xfc, 0xcf, 0x74, 0x1d, 0x99, 0xfa, 0x65, 0xb3, 0x43,
            0x69, 0x29, 0x8f,
        ],
    },
    Vector {
        key: *b"\x47\x0a\x95\x1c\x11\xd5\x6c\x16\x7e\x6d\xd7\xf9\x83\xf5\x08\x61\x2d\xbf\x22\xd8\x97\x51\xc4\xce\xc0\x82\x70\xa8\xe0\xfd\xe5\xcc",
        tag: 1,
        file: 2,
        start: 16,
        after: &[
            0x9b, 0xb0, 0xcf, 0xd6, 0xf2, 0xa0, 0x4e, 0xff, 0x76, 0x8a, 0xad, 0x48, 0x90, 0x44,
            0xbc, 0x80,
        ],
    },
    Vector {
        key: *b"\x23\xbf\xb8\xe5\xb5\xeb\x44\xd1\xd6\xf7\xb9\x69\x8f\xc0\x0d\x1d\xae\xe3\x2f\x7e\xc5\x07\xfe\x69\x94\xc1\x95\xc9\x75\xde\x57\x5f",
        tag: 1,
        file: 2,
        start: 7,
        after: &[0x34, 0xac, 0x0a, 0xb5, 0x78, 0x70, 0xd0, 0xcd, 0xc5],
    },
    Vector {
        key: *b"\x88\x97\xf1\x3e\x38\xb7\x82\x6a\x61\x8f\xbf\xcd\x43\x21\xeb\x35\x3b\x87\x8b\xc3\x0b\x01\xb2\x78\xf7\xe1\xf0\x0f\x36\x15\x4f\x80",
        tag: 1,
        file: 2,
        start: 7,
        after: &[0x9c, 0xb6, 0x99, 0x0a, 0xd9, 0x68, 0xc4, 0xed, 0xe5, 0x88],
    },
    Vector {
        key: *b"\xf1\x8d\x72\x7c\x20\x32\xfb\x86\x58\x98\xba\xed\x74\x1b\x0b\x7e\x21\x4d\x1a\x83\xe1\x62\x15\xfd\x6f\x49\xb7\xc3\x14\xc0\xd5\xc6",
        tag: 2,
        file: 16909060,
        start: 5,
        after: &[0x4c, 0x91, 0x73],
    },
    Vector {
        key: *b"\xda\x42\x70\xd6\x0c\x0c\x3b\x76\xf9\x43\x27\x57\xe8\xa1\x7c\xe2\x21\x0c\x90\xfb\xe9\x86\x65\x2d\xc6\x1b\xcc\x61\x9c\x35\x45\xa2",
        tag: 2,
        file: 16909060,
        start: 31,
        after: &[
            0x3c, 0x6f, 0x0c, 0xe5, 0x15, 0x3a, 0xe0, 0x1e, 0x84, 0x46, 0x29, 0x24, 0xaf, 0xe3,
            0x9e, 0xd8, 0xe8, 0x13, 0xe8, 0xcd, 0x40, 0xdf, 0x89, 0xeb, 0xd9, 0x07, 0x6b, 0x6b,
            0x86, 0x6f, 0xdd, 0x29, 0x5e, 0x08,
        ],
    },
    Vector {
        key: *b"\x52\x3d\x1e\xcb\x43\x74\xfd\x99\x9d\x6c\x0b\x50\xb6\xa3\xa2\xf8\x8e\xe8\xde\xd5\x7c\x23\x2b\xa5\x44\xe0\x7f\xd8\x74\x43\x31\x7d",
        tag: 2,
        file: 16909060,
        start: 32,
        after: &[
            0xda, 0xd0, 0x82, 0xae, 0xf1, 0x0a, 0xae, 0xaf, 0xd1, 0x24, 0xa1, 0x5d, 0xe1, 0xba,
            0x83, 0xfe, 0x8c, 0x00, 0x35, 0x84, 0x11, 0xe7, 0x68, 0x88, 0x4b, 0x5a, 0xf8, 0x35,
            0xfc, 0x62, 0xc6, 0x89, 0xcb, 0xde, 0xa6, 0x23, 0x78, 0x19, 0x88, 0x8b, 0x93, 0x62,
            0x45, 0x73, 0xef, 0xf6, 0xdd, 0xbc,
        ],
    },
    Vector {
        key: *b"\xcc\xac\x52\x27\x61\x80\xa5\xb7\x01\x5f\x86\x5d\xfe\xf7\xeb\x77\x28\xba\x07\x13\x4d\xfc\x47\xd3\xbb\xe3\xb9\x2c\x68\x45\xf8\x5d",
        tag: 3,
        file: 2147483648,
        start: 1,
        after: &[
            0x95, 0xfc, 0xdf, 0x25, 0x81, 0x1c, 0xbc, 0x55, 0x5f, 0xed, 0xae, 0x51, 0x38, 0x38,
            0x30, 0x68, 0x6f, 0xcb, 0xbc, 0x30, 0xf8, 0x5c, 0xe7, 0x70, 0x0a, 0x0e, 0xd4, 0x91,
            0xf5, 0x50, 0x35, 0xbc, 0x56, 0x05, 0x0e, 0x81, 0xbb, 0x7f, 0xfd, 0x3f, 0x78, 0x11,
            0x0c, 0x6d, 0x1f, 0x53, 0x42, 0x4c,
        ],
    },
    Vector {
        key: *b"\x17\x35\xe4\xe3\x01\x29\x86\x31\x8b\x33\xbd\x79\x3f\x0c\xff\x3b\x22\x45\x4c\xec\xe6\x83\x07\xd0\x54\x80\x7c\xa5\xa3\x2c\xc2\x21",
        tag: 3,
        file: 2147483648,
        start: 4080,
        after: &[
            0x44, 0x97, 0x90, 0x95, 0xbb, 0x38, 0x2d, 0x59, 0x9d, 0xf9, 0x46, 0x16, 0xf8, 0xe3,
            0x96, 0x22, 0xda, 0x92, 0xa8, 0x96, 0x77, 0xb8, 0x31, 0x9c, 0x59, 0x91, 0xda, 0x0c,
            0x8b, 0xaf, 0x7a, 0x6d,
        ],
    },
    Vector {
        key: *b"\xa3\x2a\xc0\x43\x30\xb1\x05\x3a\x0b\xda\x11\x60\xf3\x0e\xd3\xe5\x74\x74\xd5\x4b\x10\xf4\x93\x19\x2c\x68\xa2\xfa\x09\x6d\xa4\xc1",
        tag: 3,
        file: 2147483648,
        start: 4095,
        after: &[0xdd, 0xc9],
    },
    Vector {
        key: *b"\x4c\x72\x19\xc5\xac\x85\x13\x16\xce\xf1\x62\x04\x18\x8f\x25\xa2\x8c\x93\xcb\x29\xb6\x28\x39\xf3\x9e\x81\x43\xf2\xc2\x83\xc7\x0a",
        tag: 4,
        file: 65536,
        start: 1048560,
        after: &[
            0x57, 0x22, 0x25, 0x9e, 0xb4, 0xe0, 0x6e, 0x17, 0x42, 0x03, 0x5f, 0x32, 0x4a, 0xc0,
            0x46, 0x18, 0x11, 0x4b, 0xd9, 0xe5, 0xa0, 0xa6, 0x81, 0x39, 0x35, 0xa1, 0xda, 0x3f,
            0xc0, 0xc2, 0xce, 0x3c, 0x49, 0x1a, 0x2a, 0x12, 0x2a, 0xe9, 0x61, 0x50,
        ],
    },
    Vector {
        key: *b"\x73\x64\xad\x9e\x63\x9b\x7e\x68\xd5\x34\xa6\xdf\x82\xca\xa2\x67\x68\x84\x70\x3a\x64\xc7\xa4\xba\x42\x2d\xfc\x28\x22\x1a\x77\x92",
        tag: 4,
        file: 65536,
        start: 1048575,
        after: &[
            0x29, 0xcd, 0x6e, 0x20, 0x16, 0xd3, 0xde, 0x77, 0x56, 0x7e, 0xd0, 0xcd, 0x8f, 0x8b,
            0x4b, 0xf8, 0x4b, 0xec,
        ],
    },
    Vector {
        key: *b"\x77\x3b\xae\xea\x96\x29\x3f\x01\x89\x16\x9e\xba\x36\x0e\xa3\xeb\x6c\x70\x0a\xf2\x57\x7f\x47\x22\xfa\x4f\x16\xfc\x61\x89\x93\xaf",
        tag: 5,
        file: 7,
        start: 268435455,
        after: &[
            0x0f, 0xec, 0xcd, 0x43, 0x31, 0x5b, 0xd7, 0x33, 0x43, 0xc1, 0x69, 0xdf, 0xc1, 0xe8,
            0x51, 0x62, 0xeb, 0x37, 0xc8, 0xcf, 0xa1, 0xce, 0x16, 0xae, 0x01, 0xa9, 0xbb, 0x8d,
            0x1d, 0xde, 0xc7, 0x23, 0x5e,
        ],
    },
    Vector {
        key: *b"\xef\x92\xad\x6f\xb4\x30\x17\x9e\xeb\xba\x44\x00\xb8\x15\xe9\x09\x3f\xbe\xb6\x21\x71\x7a\x1f\x10\x91\x75\x01\x01\x56\x7d\x47\x17",
        tag: 6,
        file: 8,
        start: 4294967247,
        after: &[
            0xe3, 0x5f, 0x20, 0xed, 0x15, 0x0e, 0x91, 0x75, 0x5c, 0xd1, 0x16, 0x3a, 0x20, 0x88,
            0x6c, 0x68, 0x0a, 0x33, 0xfa, 0x81, 0xd0, 0x08, 0x96, 0xa0, 0xbf, 0x46, 0xcb, 0xd6,
            0xe4, 0xed, 0xd1, 0xa3, 0x03, 0x36, 0xb2, 0x0b, 0x9a, 0x41, 0x72, 0x01, 0x6e, 0x84,
            0xd1, 0x75, 0xda, 0x97, 0x9b, 0xa2,
        ],
    },
    Vector {
        key: *b"\x35\x83\xba\x3f\xda\x3a\x0f\xba\xbf\xb7\xbe\xc2\x1a\x17\xc6\xb3\x2c\x70\xb6\x6d\x22\x3a\x7a\xfb\x2c\x7b\x0c\x07\xee\x31\xf7\x29",
        tag: 6,
        file: 8,
        start: 4294967280,
        after: &[
            0x3e, 0xb1, 0x89, 0xc2, 0xb9, 0x6c, 0x1d, 0x06, 0xb8, 0x9f, 0x38, 0x10, 0x0a, 0xc3,
            0xc6, 0xa9,
        ],
    },
    Vector {
        key: *b"\xd2\x6f\xb2\x43\x2b\x3a\x9b\x30\x7d\x53\xd9\x88\xac\x7e\xf4\xcf\x16\x56\xc1\x0b\xe7\x80\x6d\x6c\x3e\x1d\x15\x5a\x5f\xf1\x5f\x74",
        tag: 6,
        file: 8,
        start: 4294967295,
        after: &[0xaf],
    },
    Vector {
        key: *b"\xb5\x86\x14\xee\xe9\x88\x03\x87\x78\x30\x15\x98\xbc\x3b\x91\xe0\xa4\x3f\x70\x7b\x91\x57\xad\x17\x71\x48\xc2\x64\xa6\x85\xfe\xa8",
        tag: 6,
        file: 8,
        start: 4294967296,
        after: &[],
    },
];
