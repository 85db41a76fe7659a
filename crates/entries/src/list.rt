// The names of the lent list as a view: where each stands, its digest, and where a name stands among them.
ghost use Rattle.std.specs.Prelude.{◌≡◌, ◌≤◌, length};
ghost use Rattle.entries.specs.inner.Places.{digest_of, Named, Digested};

use texts::same;

/// All names of a list, and where each begins and ends in it.
#[derive(Clone, Copy, Debug)]
pub struct NameList<'a> {
    pub list: &'a [u8],
    pub froms: &'a [usize],
    pub tos: &'a [usize],
    pub count: usize,
    ghost named: { Named list.now froms.now tos.now count },
}

/// The same with the digest of each name.
#[derive(Clone, Copy, Debug)]
pub struct NameIndex<'a> {
    pub names: NameList<'a>,
    pub digests: &'a [u64],
    ghost room: { names.count ≤ length digests.now },
    ghost digested: { Digested names.list.now digests.now names.count },
}

// A number by which nearly all names that differ are told apart without a look at their bytes.
#[tactic(auto, unfolding(crate::specs::inner::Places::digest_of))]
fn digest_of(t: &[u8]) -> u64
    ensures { result ≡ digest_of t.now }
{
    t.iter().fold(0u64, |d, b| {
        d.wrapping_mul(11400714819323198485)
            .wrapping_add(u64::from(*b))
    })
}

impl<'a> NameList<'a> {
    ghost use Rattle.std.specs.Prelude.{◌≡◌, ◌<◌, ◌≤◌, [], length, slice_index_or};
    ghost use Rattle.entries.specs.Names.{names};
    ghost use Rattle.entries.specs.inner.Places.{digests_up, Digested};

    // Name k of the list.
    #[tactic(auto, using(crate::specs::laws::Names::placed_at, crate::specs::laws::Names::part_is))]
    fn name(&self, k: usize) -> &'a [u8]
        requires { k < self.now.count }
        ensures { result.now ≡ slice_index_or (names self.now.list.now) k [] }
    {
        &self.list[self.froms[k]..self.tos[k]]
    }

    /// The digests of the names.
    // (By number, here and below: a name is cut out of the list by its two places, so no slice holds the names.)
    #[tactic(auto, using(crate::specs::laws::Names::digested_none, crate::specs::laws::Names::digested_more, crate::specs::laws::Names::digests_none, crate::specs::laws::Names::digests_more))]
    pub fn read_digests(&self, digests: &mut [u64])
        requires { self.now.count ≤ length digests.old }
        ensures digested { Digested self.now.list.now digests.new self.now.count }
        ensures written { digests.new ≡ digests_up self.now.list.now self.now.count digests.old }
    {
        for k in 0..self.count {
            digests[k] = digest_of(self.name(k));
        }
    }
}

impl<'a> NameIndex<'a> {
    ghost use Rattle.std.specs.Prelude.{◌≡◌, ◌<◌, [], slice_index_or};
    ghost use Rattle.texts.specs.Runs.{equal};
    ghost use Rattle.entries.specs.Names.{names, is_again, some};
    ghost use Rattle.entries.specs.inner.Places.{digest_of, place_in};

    // Whether name k is a name whose digest is told.
    fn is_nth(&self, k: usize, name: &[u8], digest: u64) -> bool
        requires { (k < self.now.names.count) × (digest ≡ digest_of name.now) }
        ensures { result ≡ equal (slice_index_or (names self.now.names.list.now) k []) name.now }
    {
        self.digests[k] == digest && same(self.names.name(k), name)
    }

    /// Where a name stands first in the list.
    #[tactic(auto, using(crate::specs::laws::Names::position_turn, crate::specs::laws::Names::placed_here, crate::specs::laws::Names::placed_nowhere))]
    pub fn position(&self, name: &[u8]) -> Option<usize>
        ensures { result ≡ place_in name.now (names self.now.names.list.now) }
    {
        let digest = digest_of(name);
        for k in 0..self.names.count {
            if self.is_nth(k, name, digest) {
                return Some(k);
            }
        }
        None
    }

    /// Whether a name stands twice in the list.
    #[tactic(auto, using(crate::specs::laws::Names::some_none, crate::specs::laws::Names::some_more, crate::specs::laws::Names::some_found, crate::specs::laws::Names::again_is, crate::specs::laws::Names::again_not))]
    pub fn any_again(&self) -> bool
        ensures { result ≡ some (is_again (names self.now.names.list.now)) self.now.names.count }
    {
        for k in 0..self.names.count {
            if self.position(self.names.name(k)) != Some(k) {
                return true;
            }
        }
        false
    }
}
