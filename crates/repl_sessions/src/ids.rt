// The ids of a tenant's sessions.
use rand_chacha::ChaCha20Rng;
use rand_core::SeedableRng;
use std::alloc::{AllocError, Global};
use std::marker::Model;
use uuid::{Uuid, Variant};

/// The text of an id: hyphenated, in lower case.
pub type IdText = [u8; 36];

/// The ids of one tenant's sessions: those of two tenants come from two streams of one key.
#[derive(Clone, Copy)]
pub struct IdStream {
    seed: [u8; 32],
    tenant: u64,
}

impl Model for IdStream {
    ghost use Rattle.repl_sessions.specs.Ids.{IdsData};

    ghost Value = { IdsData };

    ghost view = { λ a. record { seed = a.seed; tenant = a.tenant } };

    ghost inverse = { λ d. record { seed = d.seed; tenant = d.tenant } };
}

impl IdStream {
    ghost use Rattle.std.specs.Prelude.{◌≡◌, slice_index, IfOk, string_bytes};
    ghost use Rattle.uuid.specs.Parts.{variant_of};
    ghost use Rattle.uuid.specs.Uuid.{version_num};
    ghost use Rattle.repl_sessions.specs.Ids.{session_id, id_text};

    /// The ids of the tenant of this number, under the server's seed.
    pub fn new(seed: [u8; 32], tenant: u64) -> IdStream
        ensures { result ≡ record { seed = seed; tenant = tenant } }
    {
        IdStream { seed, tenant }
    }

    /// The id of the session of this number. It takes one step, whatever the number.
    pub fn id(&self, number: u64) -> Uuid
        ensures value { result ≡ session_id self.now.seed self.now.tenant number }
        ensures version { version_num result ≡ 4 }
        ensures variant { variant_of (slice_index result 8) ≡ Variant.RFC4122 }
    {
        let mut words = ChaCha20Rng::from_seed(self.seed);
        words.set_stream(self.tenant);
        words.set_word_pos(u128::from(number) * 4);
        Uuid::new_v4(&mut words)
    }

    /// The same id as text.
    pub fn text(&self, number: u64) -> IdText
        ensures { result ≡ id_text self.now number }
    {
        let mut buffer = Uuid::encode_buffer();
        let written = self.id(number).hyphenated().encode_lower(&mut buffer);
        let mut text = [0; 36];
        text.copy_from_slice(written.as_bytes());
        text
    }

    /// The same text as a string. It fails only for want of memory.
    pub fn string(&self, alloc: Global, number: u64) -> Result<String, AllocError>
        ensures { IfOk result (λ text. string_bytes text ≡ id_text self.now number) }
    {
        let mut buffer = Uuid::encode_buffer();
        let id = self.id(number);
        let written = id.hyphenated().encode_lower(&mut buffer);
        String::from_str(alloc, written)
    }
}
