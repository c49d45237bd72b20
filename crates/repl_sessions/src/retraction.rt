// A session that was made is taken back.
ghost use Rattle.std.specs.Prelude.{◌≡◌};
ghost use Rattle.repl_sessions.specs.Inside.Retracted.{without_newest_session};

use crate::sessions::Sessions;

impl Sessions {
    /// Takes the newest session back, as if it had not been made: its number is given again. It
    /// takes about the logarithm of the number of sessions, and no memory.
    pub fn retract(&mut self)
        ensures { self.new ≡ record self.old {
          sessions =
              without_newest_session self.old.sessions;
        } }
    {
        let Some(number) = self.opened.checked_sub(1) else {
            return;
        };
        drop(self.live.remove(&number));
        self.index.remove(&(self.ids.text(number), number));
        self.opened = number;
    }
}
