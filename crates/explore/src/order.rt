//! How it is printed in which order jobs were decided.

ghost use Rattle.std.specs.Prelude.{◌≡◌, ◌++◌, OnOk, slice_get};
ghost use Rattle.explore.specs.Ways.{decided_job, decided_jobs, number_told, order_line};

use crate::way::JobNumbers;
use run_explore::JobPlace;
use script_text::push_number;
use std::alloc::AllocError;

/// The line of the jobs that were decided, where that is asked for.
pub(crate) fn push_order(
    text: &mut Vec<u8>,
    ordered: bool,
    numbers: &[JobNumbers],
    order: &[JobPlace],
) -> Result<(), AllocError>
    ensures { OnOk result (text.new.items ≡ text.old.items ++ order_line ordered numbers.now order.now) }
{
    if ordered {
        text.extend_from_slice(b"decided")?;
        push_decided(text, numbers, order)?;
        text.extend_from_slice(b"\n")
    } else {
        Ok(())
    }
}

/// The names of jobs, each behind a blank.
fn push_decided(
    text: &mut Vec<u8>,
    numbers: &[JobNumbers],
    order: &[JobPlace],
) -> Result<(), AllocError>
    ensures { OnOk result (text.new.items ≡ text.old.items ++ decided_jobs numbers.now order.now) }
{
    let mut left = order;
    while let [job, later @ ..] = left {
        push_job(text, numbers, *job)?;
        left = later;
    }
    Ok(())
}

/// The name of a job, behind a blank.
fn push_job(text: &mut Vec<u8>, numbers: &[JobNumbers], job: JobPlace) -> Result<(), AllocError>
    ensures { OnOk result (text.new.items ≡ text.old.items ++ decided_job numbers.now job) }
{
    text.extend_from_slice(b" ")?;
    push_number(text, u64::from(job.agent))?;
    text.extend_from_slice(b".")?;
    push_number(text, number_of(numbers, job))
}

/// The number of a job, as ways tell it.
fn number_of(numbers: &[JobNumbers], job: JobPlace) -> u64
    ensures { result ≡ number_told (slice_get numbers.now job.agent) job.number }
{
    let number = job.number as u64;
    match numbers.get(usize::from(job.agent)) {
        Some(numbers) => numbers.first.saturating_add(number),
        None => number,
    }
}
