// A turn over jobs for C.
ghost use Rattle.std.specs.Prelude.{◌≡◌};
ghost use Rattle.std.proofs.lemmas.List.Edits.{sets};
ghost use Rattle.operations.specs.Turns.{turned};
ghost use Rattle.operations.specs.Boundary.{code_of, values_of, optional_values};

use boundary::{Values, put};
use operations::Job;

#[unsafe(no_mangle)]
pub extern "C" fn ackbo_turn(
    jobs: &mut [Job],
    buffer: &[u8],
    marks: &mut [u8],
    last: usize,
    reply: &mut Values,
) -> u8
    ensures { (result ≡ code_of (turned jobs.old buffer.now marks.old last).reply)
        × (jobs.new ≡ (turned jobs.old buffer.now marks.old last).jobs)
        × (marks.new ≡ (turned jobs.old buffer.now marks.old last).marks)
        × (reply.new
        ≡ sets reply.old 0
        (values_of optional_values (turned jobs.old buffer.now marks.old last).reply)) }
{
    put(reply, boundary::take_turn(jobs, buffer, marks, last))
}
