//! The laws of the machine's step. The functions do nothing.
ghost use Rattle.std.specs.Prelude.{◌≡◌, ℕ, ◌+◌, List};
ghost use Rattle.ov_base.specs.declared.refusal.Refusal.{Refusal};
ghost use Rattle.ov_script.specs.declared.command.Command.{Command};
ghost use Rattle.ov_script.specs.declared.reply.Reply.TheVariants.{Accepted, Refused};
ghost use Rattle.ov_history.specs.History.{epoch_of};
ghost use Rattle.ov_history.specs.Plain.{PlainHistory, history_of};
ghost use Rattle.ov_history.specs.Refusals.{IsLegal};
ghost use Rattle.ov_model.specs.Alike.{RightHistoriesHaveSameLines, RightHistoriesStepAlike};
ghost use Rattle.ov_model.specs.Since.{SealedFormsAreRight};
ghost use Rattle.ov_model.specs.Step.{reply_to, after, after_all};

/// A command that is refused changes nothing.
pub fn a_refusal_changes_nothing()
    ensures { (h : PlainHistory) (command : Command) (why : Refusal)
        → reply_to h command ≡ Refused why → after h command ≡ h }
{}

/// An update that is accepted raises the epoch by one, and is answered with the epoch that it made.
pub fn an_update_raises_the_epoch()
    ensures { (h : PlainHistory) (command : Command) (epoch : ℕ)
        → reply_to h command ≡ Accepted epoch
        → (epoch ≡ epoch_of (history_of h) + 1)
        × (epoch_of (history_of (after h command)) ≡ epoch) }
{}

/// A legal history is legal after any commands, and of the mode that it was of.
pub fn legal_histories_go_on()
    ensures { (h : PlainHistory) (commands : List Command) → IsLegal (history_of h)
        → IsLegal (history_of (after_all h commands)) × ((after_all h commands).mode ≡ h.mode) }
{}

/// Two histories by which one sealed history is right are answered alike, whatever is asked, and go
/// on alike. Nobody is answered the bytes of a file that is gone, in which alone they may differ.
pub fn right_histories_answer_alike()
    ensures step { RightHistoriesStepAlike }
    ensures lines { RightHistoriesHaveSameLines }
{}

/// What a disk keeps after commands, but for files that were gone before them, is right by the
/// history after them: so it opens for that one.
pub fn sealed_forms_are_right_after_commands()
    ensures { SealedFormsAreRight }
{}
