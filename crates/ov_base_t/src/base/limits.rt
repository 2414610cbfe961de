//! The number that each limit is. Code and contracts cite the constants by name, so this is where a
//! changed number is refused.

use ov_base::limits::*;

const _: () = prove!(MAX_USERS == 1_024);

const _: () = prove!(MAX_FILES == 16_384);

const _: () = prove!(MAX_FILE_BYTES == 16_777_216);

const _: () = prove!(MAX_STORE_BYTES == 67_108_864);

const _: () = prove!(MAX_LAYER_NODES == 4_096);

const _: () = prove!(MAX_ACCESS_TOKENS == 4_194_304);

const _: () = prove!(LAST_EPOCH == 4_294_967_295);

const _: () = prove!(SET_WORDS == 16);

const _: () = prove!(SET_BYTES == 128);

const _: () = prove!(MAX_SET_WORDS == 1_024);

const _: () = prove!(MAX_NAME_BYTES == 64);

const _: () = prove!(MAX_LINE_BYTES == 70_000);

const _: () = prove!(MAX_SCRIPT_BYTES == 268_435_456);

const _: () = prove!(MAX_FRAME_BYTES == 16_842_752);

const _: () = prove!(MAX_RECORD_BYTES == 1_114_112);

const _: () = prove!(MAX_CHUNK_BYTES == 65_536);
