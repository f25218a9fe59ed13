//! What certified histories lend.

ghost use Rattle.run_certify.specs.Promised.{CertifiedIsPromised};
ghost use Rattle.law_certified.specs.Histories.{TellsOfTime};

use run_certify::Transcripts;
use server_lock::Histories;
use suite_prefix::Settings;

/// What histories and transcripts tell of time, of whichever decisions `certify` gave for them: who was finished first at a
/// server was decided first. It does nothing.
pub fn promise(settings: &Settings, histories: &Histories, transcripts: &Transcripts)
    requires { CertifiedIsPromised settings.now histories.now transcripts.now }
    ensures { TellsOfTime settings.now histories.now transcripts.now }
{
    settings.fits();
}
