// A tenant hears a piece of its stream.
ghost use Rattle.std.specs.Prelude.{◌≡◌, ◌+◌, OnOk, OnErr};
ghost use Rattle.server_rules.specs.Plan.{hears, messages_heard};

use crate::tenant::Tenant;
use bencode_wire::laws::a_stream_has_one_reading;
use bytes::Bytes;
use server_rules::Refusal;
use tenant_moves::hear;

impl Tenant {
    ghost use Rattle.tenant_world.specs.Promises.{Does, Declines, LacksMemory};

    /// Hears the next piece of the stream, and answers how many messages became whole with it.
    /// Sessions are made, closed, listed and described at once; requests to evaluate wait.
    pub fn hear(&mut self, piece: &Bytes) -> Result<usize, Refusal>
        ensures done { Does (hears piece.now) self.old self.new result messages_heard }
        ensures refused { Declines (hears piece.now) self.old self.new result }
        ensures no_memory { LacksMemory (hears piece.now) self.old result }
        ensures steps { OnOk result (self.old.steps ≡ self.new.steps + 1) }
        ensures kept { OnErr result (self.new.steps ≡ self.old.steps) }
    {
        a_stream_has_one_reading();
        if self.steps == 0 {
            return Err(Refusal::Worn);
        }
        if let Some(fault) = self.decoder.fault() {
            return Err(Refusal::Wire(fault));
        }
        if self.memory.outbox.is_held() {
            return Err(Refusal::Held);
        }
        let count = hear(
            self.alloc,
            piece,
            &mut self.decoder,
            &mut self.memory.sessions,
            &mut self.actors,
            &mut self.memory.outbox,
        )?;
        self.steps -= 1;
        Ok(count)
    }
}
