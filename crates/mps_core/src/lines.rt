//! Headers, and the lines of all sections.
use crate::draft::Draft;
use crate::keywords::{rank, section_of};
use crate::pairs::PairSection;
use core_defs::{Cause, Section};
use reader_defs::Stop;
use smps_words::Line;

impl Draft {
    ghost use Rattle.std.specs.Prelude.{◌≡◌, ◌≤◌, OnOk};
    ghost use Rattle.smps_words.specs.Seen.{seen};
    ghost use Rattle.core_defs.specs.Step.{most_entries, enter, header_word, header_line, data_line, step};
    ghost use Rattle.mps_core.specs.View.{filed, Files};

    /// The section begins; COLUMNS wants an objective.
    fn enter(&mut self, next: Section) -> Result<(), Stop>
        ensures filed { Files self.new result (enter (filed self.old) next) }
        ensures entries { OnOk result (self.new.entries ≡ self.old.entries) }
    {
        if next == Section::Columns {
            if self.free.len() == 0 {
                return Err(Stop::Fault(Cause::NoObjective));
            }
            self.has_columns = true;
        }
        self.section = next;
        Ok(())
    }

    /// A header, by its first word.
    #[tactic(auto, unfolding(core_defs::specs::Step::header_word))]
    fn header_word(&mut self, word: &[u8]) -> Result<(), Stop>
        ensures filed { Files self.new result (header_word (filed self.old) word.now) }
        ensures entries { OnOk result (self.new.entries ≡ self.old.entries) }
    {
        let Some(next) = section_of(word) else {
            return Err(Stop::Fault(Cause::SectionUnknown));
        };
        if rank(self.section) >= rank(next) {
            return Err(Stop::Fault(Cause::SectionOrder));
        }
        self.enter(next)
    }

    /// A header; the words after the first are skipped.
    fn header_line(&mut self, line: &Line) -> Result<(), Stop>
        ensures filed { Files self.new result (header_line (filed self.old) (seen line.now).fields) }
        ensures entries { OnOk result (self.new.entries ≡ self.old.entries) }
    {
        match line.first() {
            Some(word) => self.header_word(word),
            None => Err(Stop::Fault(Cause::SectionUnknown)),
        }
    }

    /// A data line of the section.
    #[tactic(auto, using(crate::proofs::StepLemmas::rhs_pairs, crate::proofs::StepLemmas::range_pairs))]
    fn data_line(&mut self, line: &Line) -> Result<(), Stop>
        requires { self.old.entries ≤ most_entries }
        ensures filed { Files self.new result (data_line self.old.section (filed self.old) (seen line.now).fields) }
        ensures entries { OnOk result (self.new.entries ≤ most_entries) }
    {
        match self.section {
            Section::Rows => self.row_line(line),
            Section::Columns => self.column_line(line),
            Section::Rhs => self.pairs_line(PairSection::Rhs, line),
            Section::Ranges => self.pairs_line(PairSection::Ranges, line),
            Section::Bounds => self.bound_line(line),
            Section::Start | Section::Name | Section::End => {
                Err(Stop::Fault(Cause::SectionOrder))
            }
        }
    }

    /// A line in the section that the last header began.
    pub(crate) fn step(&mut self, line: &Line) -> Result<(), Stop>
        requires { self.old.entries ≤ most_entries }
        ensures filed { Files self.new result (step (filed self.old) (seen line.now)) }
        ensures entries { OnOk result (self.new.entries ≤ most_entries) }
    {
        if line.header {
            self.header_line(line)
        } else {
            self.data_line(line)
        }
    }
}
