//! The input of `check`: the text of a bundle, the line `%report`, and a report.

ghost use Rattle.std.specs.Prelude.{◌≡◌, ◌≤◌, None, Some, IfSome, MatchOption, length};
ghost use Rattle.sb_top.specs.Judgements.{is_divider as divides, report_split};

use sb_check::ReportLines;

/// The two parts of an input.
#[derive(Clone, Copy, Debug)]
pub struct Evidence<'a> {
    /// The text of a bundle.
    pub bundle: &'a [u8],
    /// A report.
    pub report: &'a [u8],
}

/// Whether a line is the one before a report.
fn is_divider(line: &[u8]) -> bool
    ensures { result ≡ divides line.now }
{
    line == b"%report\n".as_slice() || line == b"%report".as_slice()
}

/// The parts of an input before and behind the first line `%report`; None where there is no such line.
pub fn split_report(input: &[u8]) -> Option<Evidence<'_>>
    ensures parts { MatchOption result (report_split input.now ≡ None)
        (λ parts. report_split input.now ≡ Some (parts.bundle.now, parts.report.now)) }
    ensures bundle { IfSome result (λ parts. length parts.bundle.now ≤ length input.now) }
    ensures report { IfSome result (λ parts. length parts.report.now ≤ length input.now) }
{
    let mut lines = ReportLines { rest: input };
    let mut place = 0;
    while let Some(line) = lines.next_line() {
        if is_divider(line) {
            return Some(Evidence {
                bundle: &input[..place],
                report: lines.rest,
            });
        }
        place += line.len();
    }
    None
}
