// The shape of an array, and a place in it.
#![tactic(auto)]

ghost use Rattle.std.specs.Prelude.{◌≡◌, ℕ, true, false, [], ◌∷◌, ◌++◌, suc, ◌*◌, ◌-◌, ◌≤◌, ◌<◌, min, take, replicate};
ghost use Rattle.std.specs.Prelude.{leb, ltb, ◌&&◌, ◌↔◌, IsTrue, slice_index};
ghost use Rattle.shape.specs.Shape.{max_rank, max_count, counted, good_shape, count_of, shape_of, made_of, with_length, without_axis, scalar, count};
ghost use Rattle.shape.specs.Shape.{held, around_of};
ghost use Rattle.shape.specs.Place.{end_place, successor, inside};

// A rank and a length for each axis; only the first `rank` lengths count. C reads both fields, so no slice stands for them, and fills them too, so no
// invariant keeps the rank and the count within the limits: what needs that asks for it.
#[repr(C)]
#[derive(Clone, Copy)]
pub struct Shape {
    pub rank: usize,
    pub lens: [usize; Shape::MAX_RANK],
}

impl Shape {
    pub const MAX_RANK: usize = 8;

    pub const MAX_COUNT: usize = 16384;

    // What every count above the limit is held at. C reads this number of a bad shape, and Around's counts are held at it by their definition, so no Option
    // stands for it.
    const OVER: usize = Shape::MAX_COUNT + 1;

    pub fn scalar() -> Shape
        ensures { result ≡ scalar }
    {
        Shape {
            rank: 0,
            lens: [0; Shape::MAX_RANK],
        }
    }

    // The limits of the program are those of the definitions. A constant has no contract that could say so, and C has it by a call.
    pub fn max_rank() -> usize
        ensures { result ≡ max_rank }
    {
        Shape::MAX_RANK
    }

    pub fn max_count() -> usize
        ensures { result ≡ max_count }
    {
        Shape::MAX_COUNT
    }

    // Not by of_lengths, which would test the rank.
    pub fn vector(n: usize) -> Shape
        ensures { result ≡ shape_of (n ∷ []) }
    {
        let mut lens = [0; Shape::MAX_RANK];
        lens[0] = n;
        Shape { rank: 1, lens }
    }

    // The scalar where the rank is above the limit. Here and where there is no such axis no Option: callers know that there is one, and would unwrap it.
    pub fn of_lengths(rank: usize, lens: [usize; Shape::MAX_RANK]) -> Shape
        ensures { result ≡ made_of rank lens }
    {
        if Shape::MAX_RANK < rank {
            return Shape::scalar();
        }
        let lens = cleared(lens, rank);
        Shape { rank, lens }
    }

    // The shape of a result with the same lengths: those past the rank are 0. A method, so that callers need not name the shape twice.
    pub fn as_result(self) -> Shape
        ensures { result ≡ made_of self.rank self.lens }
    {
        Shape::of_lengths(self.rank, self.lens)
    }

    // The same shape with another length of an axis; the scalar where there is no such axis.
    pub fn with_length(self, axis: usize, n: usize) -> Shape
        ensures { result ≡ with_length self axis n }
    {
        if !self.has_axis(axis) {
            return Shape::scalar();
        }
        let mut lens = self.lens;
        lens[axis] = n;
        Shape::of_lengths(self.rank, lens)
    }

    // The shape without an axis; the scalar where there is no such axis.
    pub fn without_axis(self, axis: usize) -> Shape
        ensures { result ≡ without_axis self axis }
    {
        if !self.has_axis(axis) {
            return Shape::scalar();
        }
        let mut lens = self.lens;
        lens.copy_within(axis + 1..self.rank, axis);
        Shape::of_lengths(self.rank - 1, lens)
    }

    // One more than the largest count for a bad shape. A zero counts even after a product above the limit. In one pass: `all` of the lengths and then
    // held_count is no shorter, and calls of 1,500 elements took up to 1.14 times as long.
    #[tactic(auto, unfolding(crate::specs::Shape::count, crate::specs::Shape::small))]
    pub fn count(self) -> usize
        ensures { result ≡ count_of self }
    {
        if Shape::MAX_RANK < self.rank {
            return Shape::OVER;
        }
        let mut total = 1;
        for n in &self.lens[..self.rank] {
            if Shape::MAX_COUNT < *n {
                return Shape::OVER;
            }
            total = capped(total, *n);
        }
        total
    }

    // All 0 where there is no such axis.
    pub fn around(self, axis: usize) -> Around
        ensures { result ≡ around_of self axis }
    {
        if !self.has_axis(axis) {
            return Around::default();
        }
        Around {
            outer: held_count(&self.lens[..axis]),
            length: self.lens[axis],
            inner: held_count(&self.lens[axis + 1..self.rank]),
        }
    }

    // Whether the shape has this axis; a rank above the limit has none.
    fn has_axis(self, axis: usize) -> bool
        ensures { result ≡ (leb self.rank max_rank && ltb axis self.rank) }
    {
        self.rank <= Shape::MAX_RANK && axis < self.rank
    }
}

// What stands around an axis: the count of the axes before it, its length, and the count of the axes after it.
#[derive(Clone, Copy, Default)]
pub struct Around {
    pub outer: usize,
    pub length: usize,
    pub inner: usize,
}

// The count of some axes, held one above the limit.
#[tactic(auto, using(crate::proofs::Counts::held_more), unfolding(crate::specs::Shape::count))]
fn held_count(lens: &[usize]) -> usize
    ensures { result ≡ held (count lens.now) }
{
    let mut total = 1;
    for n in lens {
        total = capped(total, *n);
    }
    total
}

// The product, or one more than the largest count where it is above that.
fn capped(total: usize, n: usize) -> usize
    ensures { result ≡ min (total * n) (suc max_count) }
{
    total.saturating_mul(n).min(Shape::OVER)
}

// The first `rank` of the numbers, and zeros.
fn cleared(ns: [usize; Shape::MAX_RANK], rank: usize) -> [usize; Shape::MAX_RANK]
    requires { rank ≤ max_rank }
    ensures { result ≡ take rank ns ++ replicate (max_rank - rank) 0 }
{
    let mut out = [0; Shape::MAX_RANK];
    out[..rank].copy_from_slice(&ns[..rank]);
    out
}

// One position for each axis, and whether the last place was passed. C reads both fields, so no Option stands for the end.
#[repr(C)]
#[derive(Clone, Copy)]
pub struct Place {
    pub positions: [usize; Shape::MAX_RANK],
    pub end: bool,
}

impl Place {
    // The all-zero place marked as the end.
    pub fn at_end() -> Place
        ensures { result ≡ end_place }
    {
        Place {
            positions: [0; Shape::MAX_RANK],
            end: true,
        }
    }

    // The next place row by row, the last axis fastest, or the end.
    pub fn successor(self, s: Shape) -> Place
        ensures { result ≡ successor self s }
    {
        let marked = self.end;
        if marked || Shape::MAX_COUNT < s.count() || !self.inside(s) {
            return Place::at_end();
        }
        self.stepped(s)
    }

    // Whether each position that counts is below its axis's length.
    fn inside(self, s: Shape) -> bool
        requires { s.rank ≤ max_rank }
        ensures { IsTrue result ↔ ((k : ℕ) → k < s.rank → slice_index self.positions k < slice_index s.lens k) }
    {
        s.lens[..s.rank]
            .iter()
            .zip(&self.positions)
            .all(|(n, i)| i < n)
    }

    // The successor of a place that lies in a good shape: from the last axis on, an axis at its end starts again and carries.
    fn stepped(self, s: Shape) -> Place
        requires { (self.end ≡ false) × ((good_shape s ≡ true) × (inside (counted s) (take s.rank self.positions) ≡ true)) }
        ensures { result ≡ successor self s }
    {
        let mut positions = cleared(self.positions, s.rank);
        for i in (0..s.rank).rev() {
            let next = self.positions[i] + 1;
            if next < s.lens[i] {
                positions[i] = next;
                return Place {
                    positions,
                    end: false,
                };
            }
            positions[i] = 0;
        }
        Place::at_end()
    }
}
