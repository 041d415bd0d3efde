//! Which report of a file is asked for.
ghost use Rattle.std.specs.Prelude.{◌≡◌, IfSome, Some, None};
ghost use Rattle.report_sheets.specs.Sheets.{IsAsked, IsMissing};

/// The place, from 0 on, of the report with this number, which is counted from 1, among so many. None where there is no such report.
fn numbered(count: usize, number: u32) -> Option<usize>
    ensures asked { IfSome result (IsAsked (Some number) count) }
    ensures missing { result ≡ None → IsMissing (Some number) count }
{
    if number == 0 {
        return None;
    }
    let place = number as usize - 1;
    if place < count { Some(place) } else { None }
}

/// The place of the last one among so many reports. None where there is none.
fn last(count: usize) -> Option<usize>
    ensures asked { IfSome result (IsAsked None count) }
    ensures missing { result ≡ None → IsMissing None count }
{
    if count == 0 { None } else { Some(count - 1) }
}

/// The place of the report with this number, or of the last one where no number is given. None where there is no such report.
pub(crate) fn place_of(count: usize, number: Option<u32>) -> Option<usize>
    ensures asked { IfSome result (IsAsked number count) }
    ensures missing { result ≡ None → IsMissing number count }
{
    match number {
        Some(number) => numbered(count, number),
        None => last(count),
    }
}
