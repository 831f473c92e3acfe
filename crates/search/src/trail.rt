// What a search has found so far, and how much of that it has followed.
ghost use Rattle.std.specs.Prelude.{◌≡◌, ℕ, ◌+◌, ◌<◌, ◌≤◌, [], length, replicate, IfSome, slice_get, slice_index};
ghost use Rattle.arrayvec.specs.ArrayVec.{array_vec_len};
ghost use Rattle.search.specs.Marks.{Lists};

use arrayvec::ArrayVec;

// As many points as the largest web has.
const CAPACITY: usize = 2048;

// The table's bytes are 1 at the points that were found and 0 at the others. `found` lists those points in
// the order in which they were found, and the links of the first `followed` of them were followed.
#[derive(Drop)]
pub(crate) struct Trail<'a> {
    marks: &'a mut [u8],
    found: ArrayVec<u16, CAPACITY>,
    followed: usize,
    ghost small: { length marks.now ≤ 2048 },
    ghost lists: { Lists marks.now found.items },
    ghost within: { followed ≤ array_vec_len found },
}

impl<'a> Trail<'a> {
    ghost use Rattle.search.specs.Trail.{Grows};

    // A trail with no point found, over bytes that are all 0.
    pub(crate) fn new(marks: &'a mut [u8]) -> Trail<'a>
        requires small { length marks.old ≤ 2048 }
        requires clear { marks.old ≡ replicate (length marks.old) 0 }
        ensures same_reference { result.marks.ghost_name ≡ marks.entry.ghost_name }
        ensures marks { result.marks.now ≡ marks.old }
        ensures found { result.found.items ≡ [] }
        ensures followed { result.followed ≡ 0 }
    {
        Trail {
            marks,
            found: ArrayVec::new(),
            followed: 0,
        }
    }

    // Marks a point and lists it, unless it is marked.
    pub(crate) fn mark(&mut self, point: usize)
        requires { point < length self.old.marks.now }
        ensures same_reference { self.new.marks.ghost_name ≡ self.old.marks.ghost_name }
        ensures grows { Grows (λ k. k ≡ point) self.old self.new }
        ensures marked { slice_index self.new.marks.now point ≡ 1 }
    {
        if self.marks[point] == 0 {
            self.marks[point] = 1;
            // Sixteen bits, and so a cast: with 64 a report takes 4% longer, since each search clears the array.
            self.found.push(point as u16);
        }
    }

    // The first point found whose links were not followed yet; from then on they were.
    pub(crate) fn next(&mut self) -> Option<usize>
        ensures same_reference { self.new.marks.ghost_name ≡ self.old.marks.ghost_name }
        ensures marks { self.new.marks.now ≡ self.old.marks.now }
        ensures found { self.new.found ≡ self.old.found }
        ensures next { result ≡ slice_get self.old.found.items self.old.followed }
        ensures followed { IfSome result (λ _. self.new.followed ≡ self.old.followed + 1) }
    {
        let point = *self.found.get(self.followed)?;
        self.followed += 1;
        Some(usize::from(point))
    }
}
