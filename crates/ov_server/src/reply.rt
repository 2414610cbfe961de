//! Replies.
ghost use Rattle.std.specs.Prelude.{◌≡◌, ◌≤◌, [], length, Ok, OnErr, OnOk, IfOk};
ghost use Rattle.ov_wire.specs.AnswerBytes.{answer_bytes};
ghost use Rattle.ov_wire.specs.AnswerForm.{HasAnswerForm};
ghost use Rattle.ov_wire.specs.declared.answer.Answer.{Answer};
ghost use Rattle.ov_wire.specs.declared.answer.Answer.TheVariants.{DeviceFault};

use ov_base::Memory;
use ov_wire::{Answer, kinds, write_answer};

/// Puts an answer, or nothing where memory was refused, in place of what was in `reply`.
pub fn reply_with(answer: Result<Answer, Memory>, reply: &mut Vec<u8>) -> Result<(), Memory>
    requires { IfOk answer HasAnswerForm }
    ensures ok { OnOk result
        ((a : Answer) × (answer ≡ Ok a) × (reply.new.items ≡ answer_bytes a)) }
    ensures err { OnErr result (reply.new.items ≡ []) }
{
    match answer {
        Ok(answer) => write_answer(&answer, reply),
        Err(Memory) => {
            reply.clear();
            Err(Memory)
        }
    }
}

/// Puts the fault of a disk in place of another answer, which takes no memory.
pub fn reply_fault(reply: &mut Vec<u8>)
    requires { 1 ≤ length reply.old.items }
    ensures { reply.new.items ≡ answer_bytes DeviceFault }
{
    reply.truncate(1);
    reply[0] = kinds::DEVICE_FAULT;
}
