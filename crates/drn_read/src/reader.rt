// Reads a text line by line.
ghost use Rattle.std.specs.Prelude.{◌≡◌, List, ℕ, [], OnOk};
ghost use Rattle.drn_lexer.specs.Lines.{TextLine};
ghost use Rattle.drn_read.specs.Judging.{line_fault};
ghost use Rattle.drn_read.specs.Reading.{said};
ghost use Rattle.drn_read.specs.Keeping.{with_line};
ghost use Rattle.drn_read.specs.Shown.{TellsLine, IsSource};

use crate::cursor::Cursor;
use crate::error::DrnError;
use crate::header::HeaderReader;
use crate::known::KnownValues;
use crate::model_lines::{ModelReader, on_line};
use crate::section::Phase;
use std::alloc::Global;

/// What the lines so far have said.
#[derive(Drop)]
pub(crate) struct Reader {
    pub header: HeaderReader,
    pub model: ModelReader,
    pub known: KnownValues,
}

impl std::marker::Model for Reader {
    ghost use Rattle.drn_read.specs.Judging.{Said};

    ghost Value = { Said };

    ghost use Rattle.drn_read.specs.Recent.{AreKnown};

    ghost view = { λ r. record { header = r.header; states = r.model } };

    ghost invariant = { λ r. AreKnown r.header.names r.header.placeholders r.known.values.items };
}

impl Reader {
    /// Nothing was read yet. It takes no memory.
    #[tactic(auto, unfolding(crate::specs::Reading::said))]
    pub fn new(alloc: Global) -> Self
        ensures { (label : List ℕ) → result ≡ said label [] }
    {
        Reader {
            header: HeaderReader::new(alloc),
            model: ModelReader::new(alloc),
            known: KnownValues::new(alloc),
        }
    }

    /// Reads a line that is no comment, for a goal's label.
    pub fn read_line(&mut self, label: &[u8], line: Cursor<'_>) -> Result<(), DrnError>
        ensures fault { (source : TextLine) → IsSource line.entry source
            → TellsLine result (line_fault self.old source) }
        ensures after { OnOk result ((source : TextLine) → IsSource line.entry source
            → self.new ≡ with_line label.now self.old source) }
    {
        if let Phase::Model = self.header.phase() {
            return self
                .model
                .read_line(&self.header, &mut self.known, label, line);
        }
        self.known.clear();
        on_line(line.line.number, self.header.read_line(line))
    }
}
