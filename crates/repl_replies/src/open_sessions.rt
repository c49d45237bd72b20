// Which sessions are open.
ghost use Rattle.std.specs.Prelude.{◌≡◌, ℕ, List, Option};

/// The open sessions of one tenant, by their ids.
pub trait OpenSessions {
    // The number of the open session that has an id; none where no open session has it.
    ghost number: { Self → List ℕ → Option ℕ };

    /// The number of the open session that has this id, if one has. A message that names a session
    /// asks once.
    fn number_of(&self, id: &[u8]) -> Option<u64>
        ensures { result ≡ number self.now id.now };
}
