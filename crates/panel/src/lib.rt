// The session for C programs: a static library of one function. c/monitor.h declares it and says what a caller owes.
#![tactic(auto)]

ghost use Rattle.session.specs.Session.{SessionWrites};

use session::session::answer_within;

// How many bytes of text are served.
const LONGEST_TEXT: usize = 65_536;

// Answers a text of calls of up to 65,536 bytes: writes the answers if they fit, and tells the length that they need.
#[unsafe(no_mangle)]
pub extern "C" fn monitor_session(text: &[u8], space: &mut [u8]) -> usize
    ensures { SessionWrites 65536 text.now space.old result space.new }
{
    answer_within(LONGEST_TEXT, text, space)
}
