// The heads of chains of entries, a chain for each bucket of names.
ghost use Rattle.std.specs.Prelude.{◌≡◌, None, length, replicate, slice_index_or, slice_set};
ghost use Rattle.levels.specs.Linked.{bucket};

// A chain for each remainder of a name.
const BUCKETS: usize = 64;

// A head is the place of the newest entry in its chain, if there is one.
#[derive(Drop)]
pub(crate) struct Buckets {
    heads: [Option<usize>; BUCKETS],
    ghost size: { length heads ≡ 64 },
}

impl Buckets {
    // Empty chains.
    pub(crate) fn new() -> Self
        ensures result { result.heads ≡ replicate 64 None }
    {
        Buckets {
            heads: [None; BUCKETS],
        }
    }

    // The head of the chain that the name belongs to.
    pub(crate) fn head(&self, name: u16) -> Option<usize>
        ensures result { result ≡ slice_index_or self.now.heads (bucket name) None }
    {
        self.heads[usize::from(name) % BUCKETS]
    }

    // Another head for the chain that the name belongs to.
    pub(crate) fn set_head(&mut self, name: u16, head: Option<usize>)
        ensures leaves { self.new.heads ≡ slice_set self.old.heads (bucket name) head }
    {
        self.heads[usize::from(name) % BUCKETS] = head;
    }
}
