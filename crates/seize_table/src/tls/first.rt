//! The walk over the first entries of a table, for whoever knows that they are all filled. It stands on the buckets of `opened`.
ghost use Rattle.std.specs.Prelude.{◌≡◌, ◌+◌, ◌-◌, ◌<◌, ◌≤◌, length};
ghost use Rattle.std.specs.Iterator.{at_most};
ghost use Rattle.std.specs.Option.{ForSome};
ghost use Rattle.seize_table.specs.Filled.{name_in};
ghost use Rattle.seize_table.specs.Named.{name_of};
ghost use Rattle.seize_table.specs.Opened.{bucket_by, name_by};
ghost use Rattle.seize_table.specs.Place.{all_numbers};

use crate::Labelled;
use crate::thread_id::Thread;
use crate::tls::ThreadLocal;
use crate::tls::all_filled::AllFilled;
use crate::tls::filled_at::FilledAt;
use crate::tls::opened::Opened;

/// The values of the first entries of a table, by number. It takes no memory. For each bucket it looks up the bucket once; then an entry
/// is one load.
#[derive(Drop)]
pub struct First<'a, T: Labelled> {
    table: &'a ThreadLocal<T>,
    all: &'a AllFilled,
    opened: Option<Opened<'a, T>>,
    number: usize,
    end: usize,
    ghost of_table: { all.now.table ≡ name_of table.now },
    ghost enough: { end ≤ length all.now.labels },
    ghost in_table: { end ≤ all_numbers },
    ghost within: { number ≤ end },
    ghost right: { ForSome opened (λ o. name_by o ≡ name_in all.now.table (bucket_by o)) },
}

impl<'a, T: Labelled + Drop> First<'a, T> {
    ghost use Rattle.seize_table.specs.Walk.{IsSameWalk, table_by, walk_end, walk_labels, walk_next};

    pub(super) fn new(table: &'a ThreadLocal<T>, count: usize, all: &'a AllFilled) -> First<'a, T>
        requires { (all.now.table ≡ name_of table.now) × (count ≤ length all.now.labels) × (count ≤ all_numbers) }
        ensures { (walk_next result ≡ 0) × (walk_end result ≡ count) × (walk_labels result ≡ all.now.labels) }
    {
        First {
            table,
            all,
            opened: None,
            number: 0,
            end: count,
        }
    }

    // The bucket of the entry that comes next, which is looked up where it isn't the one before.
    fn open(&mut self, thread: &Thread, token: &FilledAt) -> Opened<'a, T>
        requires { (token.now.table ≡ table_by self.old) × (token.now.number ≡ thread.now.id) }
        ensures same { IsSameWalk self.old self.new }
        ensures bucket { (bucket_by result ≡ thread.now.bucket) × (name_by result ≡ name_in token.now.table thread.now.bucket) }
    {
        if let Some(opened) = self.opened.take() {
            if opened.bucket == thread.bucket {
                return opened;
            }
        }
        Opened::of(self.table, thread, token)
    }
}

impl<'a, T: Labelled + Drop> Iterator for First<'a, T> {
    ghost use Rattle.seize_table.specs.Walk.{GivesNext, walk_end, walk_next};

    type Item = &'a T;

    ghost next_gives = { GivesNext };

    ghost remaining = { λ walk. at_most (walk_end walk - walk_next walk) };

    fn next(&mut self) -> Option<&'a T> {
        if self.number == self.end {
            return None;
        }
        let Some(thread) = Thread::new(self.number) else {
            unreachable!()
        };
        let token = self.all.get(self.number);
        let mut opened = self.open(&thread, &token);
        let value = opened.read(&thread, &token);
        self.opened = Some(opened);
        self.number += 1;
        Some(value)
    }
}
