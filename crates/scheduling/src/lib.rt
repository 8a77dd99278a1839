// Jobs in turn, one rule at a time: a search over them, job by job, for the next that has rules left, and its turn.
#![tactic(auto)]

ghost use Rattle.std.specs.Prelude.{◌≡◌, ◌<◌, length, MatchResult, IfSome};
ghost use Rattle.operations.specs.Enums.{reply_of};
ghost use Rattle.operations.specs.Jobs.{max_jobs};
ghost use Rattle.scheduling.specs.Search.{standing_of, is_allowed, comes_first, begun, visited, looked, Ready};
ghost use Rattle.scheduling.specs.Run.{taken, served, marks_taken, marks_after};

use format::{ErrorCode, MAX_RULES};
use operations::{Error, Job};
use seeking::Standing;

const MAX_JOBS: usize = 32;

// A job with rules left: its index, the job, and the bit of its book where its next rule begins.
#[derive(Clone, Copy)]
pub struct Found {
    pub index: usize,
    pub job: Job,
    pub at: usize,
}

// What a search over jobs has found so far: the first that is not sound, and, of those with rules left, the one that
// comes first after the last served, going round. To `visit` and `take_next` a `bad` that is no job's index counts as
// none.
#[derive(Clone, Copy)]
pub struct Search {
    pub jobs: usize,
    pub last: usize,
    pub bad: Option<usize>,
    pub next: Option<Found>,
}

// How a job stands, by its book.
#[tactic(auto, unfolding(crate::specs::Search::standing_of))]
fn inspect(job: Job, buffer: &[u8]) -> Standing
    ensures { result ≡ standing_of job buffer.now }
{
    if buffer.len() < job.start || buffer.len() - job.start < job.length {
        return Standing::Bad;
    }
    seeking::find_next(&buffer[job.start..job.start + job.length], job.marked)
}

// Whether there are 1 to 32 jobs, and the last served is one of them.
#[tactic(auto, unfolding(crate::specs::Search::is_allowed))]
fn is_allowed(jobs: usize, last: usize) -> bool
    ensures { result ≡ is_allowed jobs last }
{
    1 <= jobs && jobs <= MAX_JOBS && last < jobs
}

impl Search {
    // The start of a search over so many jobs.
    #[tactic(auto, unfolding(crate::specs::Search::begun))]
    pub fn begin(jobs: usize, last: usize) -> Search
        ensures { result ≡ begun jobs last }
    {
        Search {
            jobs,
            last,
            bad: None,
            next: None,
        }
    }

    // Whether a job with rules left, met after those so far, comes before the one that was found.
    #[tactic(auto, unfolding(crate::specs::Search::comes_first))]
    fn comes_first(self, index: usize) -> bool
        ensures { result ≡ comes_first self index }
    {
        match self.next {
            None => true,
            Some(found) => self.last < index && found.index <= self.last,
        }
    }

    // What is found once a job has been looked at too, nothing at an index that is no job's. After a fault no further
    // book is read.
    #[tactic(auto, unfolding(crate::specs::Search::visited))]
    pub fn visit(self, index: usize, job: Job, buffer: &[u8]) -> Search
        ensures { result ≡ visited self index job buffer.now }
    {
        if !is_allowed(self.jobs, self.last) || self.bad.is_some_and(|bad| bad < self.jobs) {
            return self;
        }
        match inspect(job, buffer) {
            Standing::Bad => Search {
                bad: (index < self.jobs).then_some(index),
                ..self
            },
            Standing::Left { at } if self.comes_first(index) => Search {
                next: (index < self.jobs).then_some(Found { index, job, at }),
                ..self
            },
            Standing::Left { .. } | Standing::Done => self,
        }
    }

    // What `visit` finds, but that a `bad` of any index is a fault.
    #[tactic(auto, unfolding(crate::specs::Search::visited, crate::specs::Search::looked))]
    pub fn look(self, index: usize, job: Job, buffer: &[u8]) -> Search
        ensures { result ≡ looked self index job buffer.now }
    {
        if self.bad.is_some() {
            return self;
        }
        self.visit(index, job, buffer)
    }

    // The turn of the job that was found, which is answered: its next rule is marked. The jobs' errors come in the order
    // 24, 25, 12.
    #[tactic(auto, unfolding(crate::specs::Run::taken, crate::specs::Run::marks_taken))]
    pub fn take_next(self, buffer: &[u8], marks: &mut [u8]) -> Result<Option<Found>, Error>
        requires { Ready self buffer.now }
        ensures result_value { reply_of result ≡ taken self (length marks.old) }
        ensures marks_after { marks.new ≡ marks_taken self buffer.now marks.old }
        ensures small { MatchResult result (λ next. IfSome next (λ found. found.index < max_jobs))
            (λ error. error.offset < max_jobs) }
    {
        if !is_allowed(self.jobs, self.last) {
            let code = ErrorCode::NoSuchJob;
            return Err(Error {
                code,
                input: 0,
                offset: 0,
            });
        }
        if let Some(offset) = self.bad
            && offset < self.jobs
        {
            let code = ErrorCode::BadJob;
            return Err(Error {
                code,
                input: 0,
                offset,
            });
        }
        if marks.len() < MAX_RULES * self.jobs {
            let code = ErrorCode::MarksTooShort;
            return Err(Error {
                code,
                input: 2,
                offset: 0,
            });
        }
        let Some(found) = self.next else {
            return Ok(None);
        };
        let job = found.job;
        let book = &buffer[job.start..job.start + job.length];
        marks[MAX_RULES * found.index + job.marked] = seeking::mark_at(book, found.at);
        Ok(Some(found))
    }

    // What `take_next` does, but that a `bad` of any index is told.
    #[tactic(auto, unfolding(crate::specs::Run::taken, crate::specs::Run::marks_taken, crate::specs::Run::served, crate::specs::Run::marks_after))]
    pub fn run_next(self, buffer: &[u8], marks: &mut [u8]) -> Result<Option<Found>, Error>
        requires { Ready self buffer.now }
        ensures result_value { reply_of result ≡ served self (length marks.old) }
        ensures marks_after { marks.new ≡ marks_after self buffer.now marks.old }
    {
        match self.bad {
            Some(offset) if is_allowed(self.jobs, self.last) => Err(Error {
                code: ErrorCode::BadJob,
                input: 0,
                offset,
            }),
            _ => self.take_next(buffer, marks),
        }
    }
}

#[cfg(test)]
mod tests {
    use super::*;

    // One job, whose book is no part of the empty buffer, and searches over it.
    const JOB: Job = Job {
        start: 1,
        length: 0,
        marked: 0,
    };

    const BEGUN: Search = Search {
        jobs: 1,
        last: 0,
        bad: None,
        next: None,
    };

    const BAD_5: Search = Search {
        bad: Some(5),
        ..BEGUN
    };

    #[test]
    fn fault_of_any_index(rt: HostRuntime) {
        let mut marks = [7u8; MAX_RULES];
        assert_eq!(rt; BAD_5.look(0, JOB, &[]).bad, Some(5));
        assert_eq!(rt; BEGUN.look(0, JOB, &[]).bad, Some(0));
        let told = BAD_5.run_next(&[], &mut marks).err();
        assert_eq!(rt;
            told.map(|error| (error.code as u8, error.offset)),
            Some((25, 5))
        );
        assert!(rt;
            BEGUN
                .run_next(&[], &mut marks)
                .is_ok_and(|next| next.is_none())
        );
        assert_eq!(rt; marks, [7; MAX_RULES]);
    }

    #[test]
    fn fault_of_a_job(rt: HostRuntime) {
        let mut marks = [7u8; MAX_RULES];
        let bad = BAD_5.visit(0, JOB, &[]).bad;
        assert_eq!(rt; bad, Some(0));
        assert!(rt;
            BAD_5
                .take_next(&[], &mut marks)
                .is_ok_and(|next| next.is_none())
        );
        let told = Search { bad, ..BEGUN }.take_next(&[], &mut marks).err();
        assert_eq!(rt;
            told.map(|error| (error.code as u8, error.offset)),
            Some((25, 0))
        );
        assert_eq!(rt; marks, [7; MAX_RULES]);
    }
}
