//! The line and the status of the verdict on a table over several others.
ghost use Rattle.std.specs.Prelude.{◌≡◌};
ghost use Rattle.frz_store.specs.Told.{sink_of};
ghost use Rattle.frz_answer.specs.Texts.{WroteText};
ghost use Rattle.frz_commands_atlas.specs.Checking.{verdict_line, verdict_status, exact_over_line, over_text, sizes_text};

use frz_answer::{Status, write_numbered, write_piece};
use frz_check::Verdict;
use frz_prelude::write_wrong;
use frz_store::{Failed, Sink};

/// Writes the sizes one after another, and ends the line.
fn write_sizes<O: Sink>(sizes: &[u32], out: &mut O) -> Result<(), Failed>
    ensures { WroteText (sizes_text sizes.now) result
        (sink_of O.Sink out.old) (sink_of O.Sink out.new) }
{
    match sizes {
        [] => write_piece(b"\n", out),
        [size, rest @ ..] => {
            write_numbered(b" ", *size as u64, out)?;
            write_sizes(rest, out)
        }
    }
}

/// Writes over how many numbers of the tables behind, if there are any, and ends the line.
fn write_over<O: Sink>(sizes: &[u32], out: &mut O) -> Result<(), Failed>
    ensures { WroteText (over_text sizes.now) result
        (sink_of O.Sink out.old) (sink_of O.Sink out.new) }
{
    if sizes.is_empty() {
        return write_piece(b"\n", out);
    }
    write_piece(b" over", out)?;
    write_sizes(sizes, out)
}

/// Writes that a table of `size` numbers is exact over tables of `sizes` numbers.
fn write_exact_over<O: Sink>(size: u32, sizes: &[u32], out: &mut O) -> Result<(), Failed>
    ensures { WroteText (exact_over_line size sizes.now) result
        (sink_of O.Sink out.old) (sink_of O.Sink out.new) }
{
    write_numbered(b"exact ", size as u64, out)?;
    write_over(sizes, out)
}

/// Writes the verdict on a table of `size` numbers over tables of `sizes` numbers.
pub fn write_verdict<O: Sink>(
    verdict: Verdict,
    size: u32,
    sizes: &[u32],
    out: &mut O,
) -> Result<(), Failed>
    ensures { WroteText (verdict_line size sizes.now verdict) result
        (sink_of O.Sink out.old) (sink_of O.Sink out.new) }
{
    match verdict {
        Verdict::Exact => write_exact_over(size, sizes, out),
        Verdict::Wrong(wrong) => write_wrong(wrong, out),
    }
}

/// The status of a verdict.
pub fn status_of(verdict: Verdict) -> Status
    ensures { result ≡ verdict_status verdict }
{
    match verdict {
        Verdict::Exact => Status::Success,
        Verdict::Wrong(_) => Status::Wrong,
    }
}
