//! The number that a limit is. Code and contracts cite the constant by its name, so this is where a
//! changed number is refused.

use ov_acts::MAX_WRITTEN_LIST;

const _: () = prove!(MAX_WRITTEN_LIST == 70_000);
