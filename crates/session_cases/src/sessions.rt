// Sessions against the answers that were computed outside of Rattle, in answer spaces that are long, just long enough and too short, and
// texts as long as a text may be and one byte longer.
use crate::rows::{LINE_ENDS, LineEnds, SESSIONS, Session};
use session::session::answer_within;
use std::alloc::{AllocError, Global};
use std::test::Fail;

const MOST_BYTES: usize = 65_536;

// Answer spaces with more than 69 bytes for each byte of any text in the tables. No answer is longer, so all answers surely fit.
const ROOM: usize = 60_000;

const LONG_ROOM: usize = 5_000_000;

// What is in a space before; no answer has such a byte.
const GARBAGE: u8 = 7;

// Whether the space was left as it was from the place on.
fn is_garbage_from(space: &[u8], place: usize) -> bool {
    for byte in space.iter().skip(place) {
        if *byte != GARBAGE {
            return false;
        }
    }
    true
}

impl Session {
    // Whether the length of the answers is told, and a space of that many bytes has them where they fit and else is as it was. Behind
    // what is written nothing has changed, be it in the space or behind it.
    fn is_answered_in(&self, space: usize) -> bool {
        let mut room = [GARBAGE; ROOM];
        if space > room.len() {
            return false;
        }
        let needed = answer_within(MOST_BYTES, self.text, &mut room[..space]);
        let written = if self.answers.len() <= space {
            self.answers
        } else {
            &[]
        };
        needed == self.answers.len()
            && room.starts_with(written)
            && is_garbage_from(&room, written.len())
    }
}

impl LineEnds {
    fn text(&self, alloc: Global) -> Result<Vec<u8>, AllocError> {
        let mut text = vec![in alloc; b'\r'; self.length]?;
        for (place, byte) in text.iter_mut().enumerate() {
            if place % 2 == 1 {
                *byte = b'\n';
            }
        }
        Ok(text)
    }

    // Whether the length of the answers is told, the last one ends there, and nothing has changed behind it.
    fn is_answered_in(&self, alloc: Global, space: usize) -> Result<bool, AllocError> {
        let text = self.text(alloc)?;
        let mut room = vec![in alloc; GARBAGE; space]?;
        let needed = answer_within(self.most, text.as_slice(), room.as_mut_slice());
        Ok(
            needed == self.needed
                && needed <= room.len()
                && room[..needed].ends_with(self.last)
                && is_garbage_from(room.as_slice(), needed),
        )
    }
}

#[test]
fn sessions_are_answered(rt: HostRuntime) {
    for session in &SESSIONS {
        let needed = session.answers.len();
        assert!(rt; session.is_answered_in(ROOM), "{}", session.name);
        assert!(rt;
            session.is_answered_in(needed),
            "{}, just fits",
            session.name
        );
        assert!(rt;
            session.is_answered_in(needed.saturating_sub(1)),
            "{}, does not fit",
            session.name
        );
    }
}

#[test]
fn the_longest_texts_are_answered(rt: HostRuntime) -> Result<(), Fail> {
    for ends in &LINE_ENDS {
        assert!(rt;
            ends.is_answered_in(rt.alloc(), LONG_ROOM)?,
            "{} bytes",
            ends.length
        );
        assert!(rt;
            ends.is_answered_in(rt.alloc(), ends.needed)?,
            "{} bytes, just fits",
            ends.length
        );
    }
    Ok(())
}
