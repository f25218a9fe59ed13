//! Whether histories and transcripts are those of one run.

ghost use Rattle.std.specs.Prelude.{◌≡◌, Err, IfOk, OnOk};
ghost use Rattle.run_certify.specs.declared.fault.CertifyFault.TheVariants.{Mismatch};
ghost use Rattle.run_certify.specs.Certified.{IsCertified, IsCertifiedAs};
ghost use Rattle.run_certify.specs.Promised.{CertifiedIsPromised};

use crate::decided::Decided;
use crate::entry::Transcripts;
use crate::fault::CertifyFault;
use crate::fulls::can_all_be_told;
use crate::votes::begun_are_valid;
use crate::walk::Walk;
use server_lock::Histories;
use std::alloc::Global;
use suite_prefix::Settings;

/// Whether histories and transcripts are those of the run that they spell, and what was decided in it. It trusts
/// neither: it plays that run once more, in one world. A server that was told to be full has to be one that can have
/// been, by its history. It takes steps in the number of items and entries. Where memory is refused on the way, that is
/// answered at once.
///
/// # Errors
///
/// Mismatch where they are not those of a run; Memory where memory was refused.
pub fn certify(
    alloc: Global,
    settings: &Settings,
    histories: &Histories,
    transcripts: &Transcripts,
) -> Result<Decided, CertifyFault>
    ensures certified { IfOk result (λ decided. IsCertifiedAs settings.now histories.now transcripts.now decided) }
    ensures mismatch { result ≡ Err Mismatch → ¬ IsCertified settings.now histories.now transcripts.now }
    ensures promised { OnOk result (CertifiedIsPromised settings.now histories.now transcripts.now) }
{
    settings.fits();
    let (histories, transcripts) = (histories.as_slice(), transcripts.as_slice());
    begun_are_valid(transcripts);
    if !can_all_be_told(alloc, histories, transcripts)? {
        return Err(CertifyFault::Mismatch);
    }
    let mut walk = Walk::new(alloc, settings, histories, transcripts)?;
    walk.items()?;
    walk.rest()?;
    Ok(walk.into_decided())
}
