// Answers, and their text.
ghost use Rattle.std.specs.Prelude.{◌≡◌, map};
ghost use Rattle.std.specs.Fmt.{decimal};
ghost use Rattle.text.specs.AnswerText.{figure_columns, refused_columns, answer_text, IsShort};
ghost use Rattle.text.specs.Writing.{with_text, told_length, filled};

use crate::fault::Refused;
use crate::sink::Sink;
use crate::written::{Written, write};

// What is told of a window or a ring.
#[derive(Clone, Copy)]
pub struct Figures {
    pub first: u64,
    pub second: u64,
    pub joins: u64,
}

// The answer to a record.
#[derive(Clone, Copy)]
pub enum Answer {
    Done(u64),
    Ask(Figures),
    Ring(Figures),
    No(Refused),
}

impl Figures {
    fn columns(self) -> [u64; 3]
        ensures { map decimal result ≡ figure_columns self }
    {
        [self.first, self.second, self.joins]
    }
}

impl Refused {
    fn columns(self) -> [u64; 4]
        ensures { map decimal result ≡ refused_columns self }
    {
        [
            u64::from(self.fault.number()),
            u64::from(self.fault.layer().number()),
            self.record_number as u64,
            self.byte_number as u64,
        ]
    }
}

// The answer is handed over by value, so that the range of its numbers is known.
#[tactic(auto, using(crate::proofs::Shortness::done_short, crate::proofs::Shortness::ask_short, crate::proofs::Shortness::ring_short, crate::proofs::Shortness::no_short))]
fn put_answer(answer: Answer, sink: &mut Sink<'_>)
    ensures text { sink.new ≡ with_text (answer_text answer) sink.old }
    ensures known { IsShort answer }
{
    match answer {
        Answer::Done(n) => sink.line(b"ok", &[n]),
        Answer::Ask(figures) => sink.line(b"ask", &figures.columns()),
        Answer::Ring(figures) => sink.line(b"ring", &figures.columns()),
        Answer::No(refused) => sink.line(b"no", &refused.columns()),
    }
}

impl Written for Answer {
    ghost text = { answer_text };

    ghost Known = { IsShort };

    fn put(&self, sink: &mut Sink<'_>) {
        put_answer(*self, sink);
    }
}

impl Answer {
    // Writes the answer if it fits, and tells the length needed.
    pub fn write(&self, out: &mut [u8]) -> usize
        ensures needed { result ≡ told_length (answer_text self.now) }
        ensures written { out.new ≡ filled (answer_text self.now) out.old }
        ensures short { IsShort self.now }
    {
        write(self, out)
    }
}
