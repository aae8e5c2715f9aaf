// A ladder, as a text that can be written to every sink.
ghost use Rattle.std.specs.Prelude.{◌≤◌};
ghost use Rattle.model_gen.specs.Ladder.{most_blocks, ladder_text};

use crate::generate;
use lift_base::{Sink, Text, WriteFault};

/// The ladder of so many blocks, 1 to 32,767.
#[derive(Clone, Copy)]
pub struct Ladder {
    pub blocks: u32,
    ghost in_range: { (1 ≤ blocks) × (blocks ≤ most_blocks) },
}

impl Text for Ladder {
    ghost text = { λ ladder. ladder_text ladder.blocks };

    fn write_to<K: Sink>(&self, out: &mut K) -> Result<(), WriteFault> {
        generate(out, self.blocks)
    }
}
