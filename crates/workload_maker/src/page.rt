//! A text that is written line by line, while numbers are drawn.
ghost use Rattle.std.specs.Prelude.{◌≡◌, ◌<◌, OnOk};
ghost use Rattle.workload_maker.specs.Page.{put, next, draw, drawn};
ghost use Rattle.workload_maker.specs.Texts.{empty};
ghost use Rattle.workload_maker.specs.Views.{page_view};

use frac128::Memory;
use std::alloc::Global;

/// The text so far, and the number that was drawn from last.
#[derive(Drop)]
pub(crate) struct Page {
    pub(crate) text: Vec<u8>,
    pub(crate) state: u32,
}

/// What follows a state.
fn next(state: u32) -> u32
    ensures { result ≡ next state }
{
    let grown = 75 * (state as u64) + 74;
    (grown % 65537) as u32
}

impl Page {
    /// An empty page.
    pub(crate) fn empty(alloc: Global, state: u32) -> Page
        ensures { page_view result ≡ empty state }
    {
        Page {
            text: Vec::new(alloc),
            state,
        }
    }

    /// Appends lines.
    pub(crate) fn put(&mut self, lines: &str) -> Result<(), Memory>
        ensures { OnOk result (page_view self.new ≡ put lines.now (page_view self.old)) }
    {
        self.text.extend_from_slice(lines.as_bytes())?;
        Ok(())
    }

    /// Draws a number below `many`.
    pub(crate) fn draw(&mut self, many: u32) -> u32
        requires { 0 < many }
        ensures number { result ≡ draw many (page_view self.old) }
        ensures below { result < many }
        ensures behind { page_view self.new ≡ drawn (page_view self.old) }
    {
        self.state = next(self.state);
        self.state % many
    }
}
