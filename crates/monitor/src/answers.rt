// The answers to a text, in as much memory as they need.
ghost use Rattle.std.specs.Prelude.{◌≡◌, List, IfOk, length};
ghost use Rattle.text.specs.declared.answer.Answer.{Answer};
ghost use Rattle.text.specs.Writing.{told_length};
ghost use Rattle.text.specs.AnswerText.{answers_text};
ghost use Rattle.session.specs.Session.{Session, AnswersAre};

use session::session::answer_within;
use std::alloc::{AllocError, Global};

// How many bytes of text this program serves.
pub(crate) const LONGEST_TEXT: usize = 4_096;

// How long the answers are.
#[tactic(auto, using(crate::proofs::Answering::told_of_any))]
fn needed_for(text: &[u8]) -> usize
    ensures { (xs : List Answer) → Session 4096 text.now xs → result ≡ told_length (answers_text xs) }
{
    answer_within(LONGEST_TEXT, text, &mut [])
}

// Fills the room, which is as long as the answers, with them.
#[tactic(auto, using(crate::proofs::Answering::answers_fill))]
fn fill(text: &[u8], room: &mut [u8])
    requires { (xs : List Answer) → Session 4096 text.now xs → length room.old ≡ told_length (answers_text xs) }
    ensures { AnswersAre 4096 text.now room.new }
{
    answer_within(LONGEST_TEXT, text, room);
}

pub(crate) fn answers(alloc: Global, text: &[u8]) -> Result<Vec<u8>, AllocError>
    ensures { IfOk result (λ answers. AnswersAre 4096 text.now answers.items) }
{
    let mut room = vec![in alloc; 0; needed_for(text)]?;
    fill(text, &mut room);
    Ok(room)
}
