// A client of checker and machine, proved from their contracts alone: an accepted program runs from reset over any schedule to its end.
#![tactic(auto)]

ghost use Rattle.std.specs.Prelude.{◌≡◌, ◌%◌, length};
ghost use Rattle.base.specs.Lengths.{record_length};
ghost use Rattle.base.specs.Parts.{part_of};
ghost use Rattle.certificate.specs.declared.Verdict.TheVariants.{Accepted};
ghost use Rattle.semantics.specs.Reset.{reset_state};
ghost use Rattle.semantics.specs.Run.{run_of};
ghost use Rattle.semantics.specs.Stops.{ran_of};
ghost use Rattle.certificate.specs.Layout.{certificate_of};
ghost use Rattle.safety.specs.Verdicts.{verdict_of};
ghost use Rattle.safety.specs.Statement.{setup_for};
ghost use Rattle.accepted_run.specs.Whole.{DoesAll};

use base::Profile;
use certificate::Verdict;
use semantics::Ran;

// The verdict on an image and a certificate, and a run of the image from reset.
#[derive(Clone, Copy)]
pub struct Trial {
    pub verdict: Verdict,
    pub ran: Ran,
}

// Checks an image of a part with its certificate and runs it on that part from reset over a schedule, with the certificate's cycles of an interrupt
// entry. Where it is accepted, the run does every record of a schedule of whole records, and nothing stops it.
pub fn check_and_run(profile: Profile, image: &[u8], cert: &[u8], schedule: &[u8]) -> Trial
    ensures verdict { result.verdict ≡ verdict_of (part_of profile).rom image.now cert.now }
    ensures ran { ran_of result.ran ≡ run_of (setup_for (part_of profile) (certificate_of cert.now)) image.now reset_state schedule.now }
    ensures whole { result.verdict ≡ Accepted → length schedule.now % record_length ≡ 0 → DoesAll schedule.now (ran_of result.ran) }
{
    let verdict = checker::check(profile, image, cert);
    let configuration = checker::configuration_of(profile, cert);
    let ran = machine::run(configuration, image, machine::reset(), schedule);
    Trial { verdict, ran }
}
