//! Jobs that workers share: each worker has a list of the jobs that it has claimed.
//!
//! ```text
//! jobs.push_back(&mut links, job)?; // Err: a worker has claimed it
//! let is_given_up = shared_jobs::give_up(&mut jobs, &mut links, &other); // false: this worker has not
//! ```

ghost use Rattle.std.specs.Prelude.{◌≡◌, ◌++◌, ◌∷◌, [], List};
ghost use Rattle.std.specs.Bool.{OnTrue, OnFalse};
ghost use Rattle.ic_link_ops.specs.Prelude.{Place, Cut, join, insert, IsCovered};
ghost use Rattle.ic_link_ops.specs.DoublyEntries.{plain_table};
ghost use Rattle.ic_atomic.specs.declared.step.Step.TheVariants.{Release};
ghost use Rattle.ic_atomic.specs.Prelude.{claims_of, record_in, links_of, event, holds};
ghost use Rattle.uses.specs.SharedJobs.{HasAll};

use ic_atomic::linked_list::AtomicLinkOps;
use ic_linked_list::LinkedList;
use ic_unsafe_ref::UnsafeRef;

/// Gives up a job that this worker has claimed: removes it from the worker's list, so that any worker can claim it. O(1).
///
/// It requires that the table covers the job's place, and that the list has all linked places of the table. Afterwards the list still has all linked
/// places. It takes no memory, and waits for nobody. `false` means that this worker has not claimed the job, and then nothing has changed.
pub fn give_up<T>(jobs: &mut LinkedList<T>, links: &mut AtomicLinkOps, job: &UnsafeRef<T>) -> bool
    requires covered { IsCovered (plain_table (links_of links.old)) job.now }
    requires jobs { (s : List Place) × HasAll (links_of links.old) jobs.old s }
    ensures held { result ≡ holds job.now (record_in links.old) }
    ensures off { (s : List Place) → HasAll (links_of links.old) jobs.old s → OnTrue result ((gap : Cut)
        × (s ≡ insert gap job.now) × HasAll (links_of links.new) jobs.new (join gap)) }
    ensures given_up { OnTrue result (record_in links.new ≡ record_in links.old ++ event (Release job.now) 1 ∷ []) }
    ensures claims { claims_of links.new ≡ claims_of links.old }
    ensures unchanged { OnFalse result ((jobs.new ≡ jobs.old) × (links.new ≡ links.old)) }
{
    if !links.holds(job.place()) {
        return false;
    }
    jobs.remove(links, job);
    true
}
