// Texts of values: how long they are, and how they are written into a space where they fit.
ghost use Rattle.std.specs.Prelude.{◌≡◌, List, ℕ};
ghost use Rattle.std.specs.List.{AllByRecursion, flat_map};
ghost use Rattle.text.specs.Writing.{with_text, told_length, filled};

use crate::sink::Sink;

// What has a text.
pub trait Written {
    ghost text: { Self → List ℕ };

    // what holds of every value of the type, whatever its memory holds: a number has its range, and an array its length
    ghost Known: { Self → Type 0 };

    fn put(&self, sink: &mut Sink<'_>)
        ensures text { sink.new ≡ with_text (text self.now) sink.old }
        ensures known { Known self.now };
}

// One text after another.
impl<W: Written> Written for &[W] {
    ghost text = { λ values. flat_map W.Written.text values.now };

    ghost Known = { λ values. AllByRecursion W.Written.Known values.now };

    #[tactic(auto, using(crate::proofs::Putting::texts_more, crate::proofs::Putting::texts_all, crate::proofs::Putting::known_more, crate::proofs::Putting::known_all), unfolding(crate::specs::Writing::with_text))]
    fn put(&self, sink: &mut Sink<'_>) {
        for value in *self {
            value.put(sink);
        }
    }
}

// The length of the text, or the greatest number where it is beyond that.
#[tactic(auto, using(crate::proofs::Counting::counted))]
fn text_len<W: Written>(value: &W) -> usize
    ensures needed { result ≡ told_length (W.Written.text value.now) }
    ensures known { W.Written.Known value.now }
{
    let mut counter = Sink {
        out: &mut [],
        len: 0,
    };
    value.put(&mut counter);
    counter.len
}

// Writes the text if it fits, and tells the length needed.
#[tactic(auto, using(crate::proofs::Counting::written_where_it_fits, crate::proofs::Counting::same_space))]
pub fn write<W: Written>(value: &W, out: &mut [u8]) -> usize
    ensures needed { result ≡ told_length (W.Written.text value.now) }
    ensures written { out.new ≡ filled (W.Written.text value.now) out.old }
    ensures known { W.Written.Known value.now }
{
    let needed = text_len(value);
    if needed <= out.len() {
        value.put(&mut Sink { out, len: 0 });
    }
    needed
}
