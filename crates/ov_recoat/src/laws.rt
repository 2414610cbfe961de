//! What becomes of bytes. The functions do nothing.
ghost use Rattle.ov_recoat.specs.Laws.{EachHasItsRewrite, FilesKeepLength, FilesRecoatByBytes};

/// The law of bytes: the new bytes of a file are as many as the old ones, and each is what its rewrite
/// makes of the byte at its place.
pub fn files_are_recoated_by_bytes()
    ensures bytes { FilesRecoatByBytes }
    ensures many { FilesKeepLength }
{}

/// The law of rewrites: where their files ascend, each says what becomes of the bytes of its own file.
pub fn each_file_has_its_rewrite()
    ensures { EachHasItsRewrite }
{}
