//! What holds of the sessions of a tenant. Each law is the contract of a function that does
//! nothing.
ghost use Rattle.std.specs.Prelude.{◌≡◌, ◌≢◌, ℕ, false, Option, option_map};
ghost use Rattle.repl_sessions.specs.State.{StateData};
ghost use Rattle.repl_sessions.specs.Sessions.{SessionsData, state_of, is_open, with_clone_of};
ghost use Rattle.repl_sessions.specs.Sessions.{without_session, with_change};

/// The session that is changed has the changed state, if it is open.
pub fn change_is_kept()
    ensures { (s : SessionsData) (n : ℕ) (f : StateData → StateData)
        → state_of (with_change s n f) n ≡ option_map f (state_of s n) }
{}

/// Every other session keeps its state, also one that was cloned from the changed one.
pub fn change_leaves_the_others()
    ensures { (s : SessionsData) (n m : ℕ) (f : StateData → StateData) → n ≢ m
        → state_of (with_change s n f) m ≡ state_of s m }
{}

/// A session that is closed is not open.
pub fn closed_session_is_gone()
    ensures { (s : SessionsData) (n : ℕ) → is_open (without_session s n) n ≡ false }
{}

/// The others stay open with their states.
pub fn close_leaves_the_others()
    ensures { (s : SessionsData) (n m : ℕ) → n ≢ m
        → state_of (without_session s n) m ≡ state_of s m }
{}

/// A new session changes no other.
pub fn clone_leaves_the_others()
    ensures { (s : SessionsData) (original : Option ℕ) (m : ℕ) → m ≢ s.opened
        → state_of (with_clone_of s original) m ≡ state_of s m }
{}
