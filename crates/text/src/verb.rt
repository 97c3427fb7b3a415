// The verb of a record.
ghost use Rattle.std.specs.Prelude.{◌≡◌, ◌+◌, length};
ghost use Rattle.text.specs.Verbs.{sorts, VerbFound};

use crate::fault::RecordFault;
use crate::record::Record;
use crate::words::Verb;

// How many columns a record with the verb has, the verb's own one included.
fn column_count(verb: Verb) -> usize
    ensures { result ≡ length (sorts verb) + 1 }
{
    match verb {
        Verb::Close | Verb::Try | Verb::Keep | Verb::Back | Verb::Ring => 1,
        Verb::Ask => 3,
        Verb::Line => 4,
        Verb::Add | Verb::Set => 5,
    }
}

impl Record {
    // Its verb, if it has as many columns as the verb.
    #[tactic(auto, using(crate::proofs::Verbs::no_other))]
    pub fn verb(&self, text: &[u8]) -> Result<Verb, RecordFault>
        ensures { VerbFound text.now self.now result }
    {
        let verb = self.fields[0].verb(text)?;
        if self.count != column_count(verb) {
            return Err(RecordFault::Unknown);
        }
        Ok(verb)
    }
}
