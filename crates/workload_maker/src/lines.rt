//! Names and lines.
ghost use Rattle.std.specs.Prelude.{◌≡◌, IfOk, OnOk, string_bytes};
ghost use Rattle.std.specs.Fmt.{decimal};
ghost use Rattle.workload_maker.specs.Page.{put};
ghost use Rattle.workload_maker.specs.Lines.{staged, name, line_2, line_3};
ghost use Rattle.workload_maker.specs.Views.{page_view};

use crate::page::Page;
use frac128::Memory;
use std::alloc::Global;

/// How large a workload is.
#[derive(Clone, Copy, Drop)]
pub(crate) struct Shape {
    /// How many periods there are.
    pub(crate) stages: u64,
    /// How many cases each period behind the first has.
    pub(crate) branches: u64,
    /// How many items each period has.
    pub(crate) size: u64,
}

/// A whole number.
pub(crate) fn number(alloc: Global, number: u64) -> Result<String, Memory>
    ensures { IfOk result (λ text. string_bytes text ≡ decimal number) }
{
    let text = format!(in alloc; "{number}")?;
    Ok(text)
}

/// A name of a period, as C1.
pub(crate) fn staged(alloc: Global, letter: &str, stage: u64) -> Result<String, Memory>
    ensures { IfOk result (λ text. string_bytes text ≡ staged letter.now stage) }
{
    let text = format!(in alloc; "{letter}{stage}")?;
    Ok(text)
}

/// A name of a period and an item, as Y2_1.
pub(crate) fn name(alloc: Global, letter: &str, stage: u64, item: u64) -> Result<String, Memory>
    ensures { IfOk result (λ text. string_bytes text ≡ name letter.now stage item) }
{
    let text = format!(in alloc; "{letter}{stage}_{item}")?;
    Ok(text)
}

/// Appends a line with two fields.
pub(crate) fn put_2(alloc: Global, page: &mut Page, one: &str, two: &str) -> Result<(), Memory>
    ensures { OnOk result (page_view page.new ≡ put (line_2 one.now two.now) (page_view page.old)) }
{
    let line = format!(in alloc; " {one} {two}\n")?;
    page.put(line.as_str())
}

/// Appends a line with three fields.
pub(crate) fn put_3(
    alloc: Global,
    page: &mut Page,
    one: &str,
    two: &str,
    three: &str,
) -> Result<(), Memory>
    ensures { OnOk result (page_view page.new ≡ put (line_3 one.now two.now three.now) (page_view page.old)) }
{
    let line = format!(in alloc; " {one} {two} {three}\n")?;
    page.put(line.as_str())
}
