// The queue of tables to look at until every mark that stands is supported.
ghost use Rattle.std.specs.Prelude.{◌≡◌, ◌≢◌, ◌-◌, ◌^◌, ◌≤◌, ◌<◌, T};
ghost use Rattle.consistency.specs.Counts.{bit};
ghost use Rattle.filter.specs.Queue.{PropagateGiven, Propagated};

use super::WORDS;
use super::revise::{Pass, sweep};
use super::survey::Survey;

// A queue of the first n tables.
pub(crate) fn first_tables(n: usize) -> u64
    requires { n ≤ 64 }
    ensures { result ≡ 2 ^ n - 1 }
{
    if n == 0 {
        return 0;
    }
    u64::MAX >> (64 - n)
}

// A table of the queue, round robin: the first at or behind `from`, else the first of all.
fn next_table(queue: u64, from: usize) -> usize
    requires { (queue ≢ 0) × (from < 64) }
    ensures { T (bit queue result) }
{
    let later = queue >> from;
    if later == 0 {
        return queue.trailing_zeros() as usize;
    }
    from + later.trailing_zeros() as usize
}

// Takes tables out of the queue, round and round, until none is left: each strikes what it does not support, and queues the other
// tables with a field that lost a mark.
pub(crate) fn propagate(survey: &Survey, marks: &mut [u64; WORDS], begun: u32, queue: u64) -> u32
    requires { PropagateGiven survey.now.book.bytes.now marks.old begun queue }
    ensures { Propagated survey.now.book.bytes.now marks.old marks.new begun result }
{
    let mut pass = Pass {
        struck: begun,
        queue,
    };
    let mut from = 0;
    // (d) A `while`, since there is nothing to walk over: what is left grows too.
    while pass.queue != 0 {
        let i = next_table(pass.queue, from);
        let rest = Pass {
            struck: pass.struck,
            queue: pass.queue ^ (1 << i),
        };
        pass = sweep(survey, i, marks, rest);
        from = (i + 1) % 64;
    }
    pass.struck
}
