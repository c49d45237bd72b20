// What has come of a message is taken back to what it was before the last piece. That takes no
// memory; copies do, and so may the beginning of a piece.
ghost use Rattle.std.specs.Prelude.{◌≡◌, ◌<◌, ◌≤◌, List, [], ◌∷◌, length, Option, None, option_map};
ghost use Rattle.std.specs.Prelude.{OnOk, IfOk};
ghost use Rattle.bencode_wire.specs.Tree.{Tree};
ghost use Rattle.bencode_wire.specs.Inside.Cut as cuts;
ghost use Rattle.bencode_wire.specs.Inside.View.{tree_view};
ghost use Rattle.bencode_wire.specs.Inside.Places.{WasPut};
ghost use Rattle.bencode_wire.specs.Inside.Reader.{frame_view, live_frames_view, open_view};
ghost use Rattle.bencode_wire.specs.Inside.Reader.{token_view, cut_view};
ghost use Rattle.bencode_wire.specs.Inside.Undoing.{settled_view, WereBefore, Changes};
ghost use Rattle.bencode_wire.specs.Inside.GoingBack.{IsInside, WasBefore};

use crate::ben::Ben;
use crate::containers::{bytes_of, copy_container, reopened};
use crate::cut::{Change, Frames, Mark, OpenContainer, Place, Reader, Token};
use std::alloc::{AllocError, Global};

impl Frames {
    // Lets go of what was before the last piece.
    fn forget(&mut self)
        ensures open { open_view self.new ≡ open_view self.old }
        ensures fresh { self.new.fresh.items ≡ self.old.fresh.items }
        ensures changes { self.new.changes.items ≡ [] }
        ensures ended { self.new.ended ≡ None }
        ensures long { length self.new.settled.items ≡ self.new.live }
    {
        self.ended = None;
        self.changes = Vec::new(*self.changes.allocator());
        self.settled.truncate(self.live);
    }

    // All that are open were so before the next piece.
    fn begin_piece(&mut self) -> Result<(), AllocError>
        ensures open { open_view self.new ≡ open_view self.old }
        ensures settled { OnOk result (settled_view self.new ≡ open_view self.old) }
        ensures long { OnOk result
            (length self.new.settled.items ≡ length (open_view self.old)) }
        ensures fresh { OnOk result (self.new.fresh.items ≡ []) }
        ensures changes { OnOk result (self.new.changes.items ≡ []) }
        ensures ended { OnOk result (self.new.ended ≡ None) }
    {
        self.forget();
        self.settled.append(&mut self.fresh)?;
        self.live = self.settled.len();
        Ok(())
    }

    fn copy(&self, alloc: Global) -> Result<Frames, AllocError>
        ensures { IfOk result (λ copied. open_view copied ≡ open_view self.now) }
    {
        let mut copied = Frames::new(alloc);
        for container in &self.settled[..self.live] {
            copied.fresh.push(copy_container(alloc, container)?)?;
        }
        for container in &self.fresh {
            copied.fresh.push(copy_container(alloc, container)?)?;
        }
        Ok(copied)
    }

    // Takes all changes back, the newest first. Gives the value that was put first.
    fn take_back(&mut self) -> Option<Ben>
        requires { (before : List cuts.OpenContainer) × (first : Option Tree)
            × WereBefore self.old before first }
        ensures { (before : List cuts.OpenContainer) (first : Option Tree)
            → WereBefore self.old before first
            → (open_view self.new ≡ before) × (option_map tree_view result ≡ first) }
    {
        self.fresh.clear();
        if let Some(outermost) = self.ended.take() {
            self.reopen(outermost);
        }
        let mut first = None;
        while let Some(change) = self.changes.pop() {
            first = self.undo(change);
        }
        first
    }

    // The innermost of those that ended is open again.
    fn reopen(&mut self, container: OpenContainer)
        requires within { self.old.live < length self.old.settled.items }
        requires ended { self.old.ended ≡ None }
        ensures live { live_frames_view self.new
            ≡ frame_view container ∷ live_frames_view self.old }
        ensures long { length self.new.settled.items ≡ length self.old.settled.items }
        ensures changes { self.new.changes.items ≡ self.old.changes.items }
        ensures fresh { self.new.fresh.items ≡ self.old.fresh.items }
        ensures ended { self.new.ended ≡ None }
    {
        self.settled[self.live] = container;
        self.live += 1;
    }

    // Takes one change back. Gives the value that it put.
    fn undo(&mut self, change: Change) -> Option<Ben>
        requires changes { (before : List cuts.OpenContainer) × (value : Option Tree)
            × Changes change before (live_frames_view self.old) value
            × (length before ≤ length self.old.settled.items) }
        requires ended { self.old.ended ≡ None }
        ensures back { (before : List cuts.OpenContainer) (value : Option Tree)
            → Changes change before (live_frames_view self.old) value
            → (live_frames_view self.new ≡ before) × (option_map tree_view result ≡ value) }
        ensures long { length self.new.settled.items ≡ length self.old.settled.items }
        ensures changes { self.new.changes.items ≡ self.old.changes.items }
        ensures fresh { self.new.fresh.items ≡ self.old.fresh.items }
        ensures ended { self.new.ended ≡ None }
    {
        match change {
            Change::Put(place) => Some(self.take_out(place)),
            Change::Ended(place) => {
                let container = reopened(self.take_out(place));
                self.reopen(container);
                None
            }
        }
    }

    // Takes the value out that was put last into the innermost.
    fn take_out(&mut self, place: Place) -> Ben
        requires { (before : List cuts.OpenContainer) × (t : Tree)
            × WasPut place t before (live_frames_view self.old) }
        ensures back { (before : List cuts.OpenContainer) (t : Tree)
            → WasPut place t before (live_frames_view self.old)
            → (live_frames_view self.new ≡ before) × (tree_view result ≡ t) }
        ensures live { self.new.live ≡ self.old.live }
        ensures long { length self.new.settled.items ≡ length self.old.settled.items }
        ensures ended { self.new.ended ≡ self.old.ended }
        ensures changes { self.new.changes.items ≡ self.old.changes.items }
        ensures fresh { self.new.fresh.items ≡ self.old.fresh.items }
    {
        let at = self.live - 1;
        take_from(&mut self.settled[at], place)
    }
}

fn take_from(container: &mut OpenContainer, place: Place) -> Ben
    requires { (outer : List cuts.OpenContainer) × (before : List cuts.OpenContainer) × (t : Tree)
        × WasPut place t before (frame_view container.old ∷ outer) }
    ensures { (outer : List cuts.OpenContainer) (before : List cuts.OpenContainer) (t : Tree)
        → WasPut place t before (frame_view container.old ∷ outer)
        → (before ≡ frame_view container.new ∷ outer) × (tree_view result ≡ t) }
{
    match container {
        OpenContainer::List(items) => match place {
            Place::Item => match items.pop() {
                Some(item) => item,
                None => unreachable!(),
            },
            Place::Key => unreachable!(),
            Place::Value(_) => unreachable!(),
        },
        OpenContainer::Dictionary(dictionary) => match place {
            Place::Item => unreachable!(),
            Place::Key => match dictionary.key.take() {
                Some(key) => Ben::String(key),
                None => unreachable!(),
            },
            Place::Value(key) => match dictionary.pairs.remove(&key) {
                Some(value) => {
                    dictionary.key = Some(key);
                    value
                }
                None => unreachable!(),
            },
        },
    }
}

impl Reader {
    // The room of a string that the piece began goes too, so that there is as much as before it.
    fn drop_string(&mut self)
        ensures frames { self.new.frames ≡ self.old.frames }
        ensures token { self.new.token ≡ self.old.token }
    {
        self.string = Vec::new(*self.string.allocator());
    }

    // Lets go of what it would need to be taken back.
    pub(crate) fn forget(&mut self)
        ensures { cut_view self.new ≡ cut_view self.old }
    {
        self.frames.forget();
    }

    // What has come can be taken back to what it is now.
    pub(crate) fn begin_piece(&mut self) -> Result<(), AllocError>
        ensures held { cut_view self.new ≡ cut_view self.old }
        ensures back { OnOk result
            (IsInside (open_view self.old.frames) (token_view self.old.string.items self.old.token)
            → WasBefore self.new (open_view self.old.frames)
            (token_view self.old.string.items self.old.token)) }
    {
        self.frames.begin_piece()?;
        self.mark = Mark {
            token: self.token,
            come: self.string.len(),
        };
        Ok(())
    }

    pub(crate) fn take_back(&mut self)
        requires { (frames : List cuts.OpenContainer) × (token : cuts.Token)
            × WasBefore self.old frames token }
        ensures { (frames : List cuts.OpenContainer) (token : cuts.Token)
            → WasBefore self.old frames token → cut_view self.new ≡ cuts.cut frames token }
    {
        let first = self.frames.take_back();
        let Mark { token, come } = self.mark;
        self.token = token;
        match token {
            Token::String(_) => {
                if let Some(value) = first {
                    self.string = bytes_of(value);
                }
                self.string.truncate(come);
            }
            Token::Between | Token::IntegerOpen | Token::IntegerMinus => self.drop_string(),
            Token::IntegerDigits(_) | Token::Length(_) => self.drop_string(),
        }
        self.forget();
    }

    // An equal reader, which cannot be taken back.
    pub(crate) fn copy(&self, alloc: Global) -> Result<Reader, AllocError>
        ensures { IfOk result (λ copied. cut_view copied ≡ cut_view self.now) }
    {
        Ok(Reader {
            frames: self.frames.copy(alloc)?,
            token: self.token,
            string: Vec::from_slice(alloc, &self.string)?,
            mark: self.mark,
        })
    }
}
