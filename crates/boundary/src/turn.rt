// A turn over jobs: the next that has rules left gets one more rule marked.
ghost use Rattle.std.specs.Prelude.{◌≡◌};
ghost use Rattle.operations.specs.Enums.{reply_of};
ghost use Rattle.operations.specs.Turns.{turned};
ghost use Rattle.boundary.specs.Numbers.{Small, number_of, terms_of};

use operations::{Error, Job};
use scheduling::Search;

// Searches the jobs, marks the next rule of the one that is found, and counts it there; gives that job's index.
pub fn take_turn(
    jobs: &mut [Job],
    buffer: &[u8],
    marks: &mut [u8],
    last: usize,
) -> Result<Option<usize>, Error>
    ensures result_value { reply_of result ≡ (turned jobs.old buffer.now marks.old last).reply }
    ensures jobs_after { jobs.new ≡ (turned jobs.old buffer.now marks.old last).jobs }
    ensures marks_after { marks.new ≡ (turned jobs.old buffer.now marks.old last).marks }
    ensures small { Small (number_of terms_of (reply_of result)) }
{
    let mut search = Search::begin(jobs.len(), last);
    for (index, job) in jobs.iter().enumerate() {
        search = search.visit(index, *job, buffer);
    }
    let Some(found) = search.take_next(buffer, marks)? else {
        return Ok(None);
    };
    jobs[found.index].marked = found.job.marked + 1;
    Ok(Some(found.index))
}
