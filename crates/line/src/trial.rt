// The calls of a trial: try, keep, back.
ghost use Rattle.std.specs.Prelude.{◌≡◌, ◌≤◌, false, Ok, length, List};
ghost use Rattle.station.specs.declared.record.Station.{Station};
ghost use Rattle.tree.specs.Shape.{height, node_count};
ghost use Rattle.line.specs.declared.values.Entry.{Entry};
ghost use Rattle.line.specs.State.{at, count_of, undone};
ghost use Rattle.line.specs.Refused.{any_bad};
ghost use Rattle.line.specs.Replies.{reply_of};
ghost use Rattle.line.specs.Calls.{TryCall, KeepCall, BackCall, PutBack};
ghost use Rattle.line.specs.Due.{GoesOn};

use crate::lines::Standing;
use crate::request::Request;
use crate::rooms::Rooms;
use crate::values::Entry;
use kind::Kind;
use refusal::Refusal;
use station::record::Station;

impl<K: Kind> Standing<K> {
    // Opens a trial, and answers 0. The trial has no entries then, whatever the journal holds.
    #[tactic(auto, using(crate::proofs::Keeping::try_law))]
    pub fn open_trial(&mut self) -> Result<usize, Refusal>
        ensures call { TryCall self.old result self.new }
        ensures law { (list : List Station) (nodes : List K.Cell) (journal : List Entry)
            → GoesOn (K.Kind.ops self.old.tree.kind) (K.Kind.meaning self.old.tree.kind) (at self.old list nodes journal)
            Request.Try (reply_of result) (at self.new list nodes journal) }
    {
        self.do_try()
    }

    // What `open_trial` does.
    pub(crate) fn do_try(&mut self) -> Result<usize, Refusal>
        ensures { TryCall self.old result self.new }
    {
        if self.trial.is_some() {
            return Err(Refusal::TrialOpen);
        }
        self.trial = Some(0);
        Ok(0)
    }

    // Ends the trial, leaves the stations as they are, and answers how many entries there were.
    #[tactic(auto, using(crate::proofs::Keeping::keep_law))]
    pub fn keep(&mut self) -> Result<usize, Refusal>
        ensures call { KeepCall self.old result self.new }
        ensures law { (list : List Station) (nodes : List K.Cell) (journal : List Entry)
            → GoesOn (K.Kind.ops self.old.tree.kind) (K.Kind.meaning self.old.tree.kind) (at self.old list nodes journal)
            Request.Keep (reply_of result) (at self.new list nodes journal) }
    {
        self.do_keep()
    }

    // What `keep` does.
    pub(crate) fn do_keep(&mut self) -> Result<usize, Refusal>
        ensures { KeepCall self.old result self.new }
    {
        self.trial.take().ok_or(Refusal::NoTrial)
    }

    // Puts the entries back, the newest first, ends the trial, and answers how many entries there were.
    pub fn back(
        &mut self,
        list: &mut [Station],
        nodes: &mut [K::Cell],
        journal: &[Entry],
    ) -> Result<usize, Refusal>
        ensures call { BackCall (K.Kind.ops self.old.tree.kind) (at self.old list.old nodes.old journal.now) result
            (at self.new list.new nodes.new journal.now) }
        ensures law { GoesOn (K.Kind.ops self.old.tree.kind) (K.Kind.meaning self.old.tree.kind) (at self.old list.old nodes.old journal.now)
            Request.Back (reply_of result) (at self.new list.new nodes.new journal.now) }
    {
        self.do_back(list, nodes, journal)
    }

    // What `back` does.
    pub(crate) fn do_back(
        &mut self,
        list: &mut [Station],
        nodes: &mut [K::Cell],
        journal: &[Entry],
    ) -> Result<usize, Refusal>
        ensures { BackCall (K.Kind.ops self.old.tree.kind) (at self.old list.old nodes.old journal.now) result
            (at self.new list.new nodes.new journal.now) }
    {
        let rooms = Rooms::of(list, nodes, journal);
        let entries = self.check_back(list, rooms, journal)?;
        // no entry is refused now: each has been tested
        self.put_back(list, nodes, &journal[..entries])?;
        self.trial = None;
        Ok(entries)
    }

    // Puts the entries back, the newest first.
    #[tactic(auto, using(crate::proofs::Undoing::place_from, crate::proofs::Undoing::place_to, crate::proofs::Undoing::put_back_first, crate::proofs::Undoing::put_back_next))]
    fn put_back(
        &self,
        list: &mut [Station],
        nodes: &mut [K::Cell],
        entries: &[Entry],
    ) -> Result<(), Refusal>
        requires list { count_of self.now ≤ length list.old }
        requires nodes { node_count (height (count_of self.now)) ≤ length nodes.old }
        requires good { any_bad (K.Kind.ops self.now.tree.kind) (count_of self.now) list.old entries.now ≡ false }
        ensures done { result ≡ Ok tt }
        ensures list { list.new ≡ undone entries.now list.old }
        ensures nodes { PutBack (K.Kind.ops self.now.tree.kind) (count_of self.now) entries.now list.old nodes.old nodes.new }
    {
        for i in (0..entries.len()).rev() {
            let entry = entries[i];
            self.replace(list, nodes, entry.place, entry.values)?;
        }
        Ok(())
    }
}
