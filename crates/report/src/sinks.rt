// Where text goes.
ghost use Rattle.std.specs.Prelude.{◌≡◌, ℕ, ◌+◌, ◌-◌, ◌^◌, ◌≤◌, List, [], ◌++◌, length};
ghost use Rattle.report.specs.Written.{Written};

/// Takes text, piece after piece.
// (No writer of `std::fmt`, and no Display: those may fail at any piece, and do not say when they don't, so the length needed could not be promised.)
pub trait Sink {
    // How many more bytes it can take.
    ghost room: { Self → ℕ };

    // The sink before and after it took a text.
    ghost Took: { Self → List ℕ → Self → Type 0 };

    fn put(&mut self, piece: &[u8])
        requires { length piece.now ≤ room self.old }
        ensures { Took self.old piece.now self.new };

    // A text takes as much room as it is long.
    ghost room_left: { (before : Self) (text : List ℕ) (after : Self)
        → Took before text after → length text ≤ room before → room before ≡ room after + length text };

    // No text at all leaves it as it was.
    ghost took_nothing: { (sink : Self) → Took sink [] sink };

    // Two texts, one after the other, are one.
    ghost took_both: { (before : Self) (one : List ℕ) (mid : Self) (other : List ℕ) (after : Self)
        → Took before one mid → Took mid other after → Took before (one ++ other) after };
}

/// Counts the bytes of a text, and keeps none of them.
#[derive(Drop)]
pub struct Length {
    pub bytes: usize,
}

impl Sink for Length {
    ghost use Rattle.std.proofs.Common.{arith, length-append};

    ghost room = { λ counter. 2 ^ 64 - 1 - counter.bytes };

    ghost Took = { λ before text after. after.bytes ≡ before.bytes + length text };

    ghost room_left = { λ before text after took fits. Prim.omega arith };

    ghost took_nothing = { λ counter. Prim.omega arith };

    ghost took_both = { λ before one mid other after first second. Prim.omega (arith, length-append one other) };

    fn put(&mut self, piece: &[u8]) {
        self.bytes += piece.len();
    }
}

/// Writes text into the caller's bytes, from a place on.
// (The place beside the bytes: how far a lent slice is filled, which no type of the library holds.)
#[derive(Drop)]
pub struct Space<'a> {
    pub bytes: &'a mut [u8],
    pub at: usize,
    ghost within: { at ≤ length bytes.now },
}

impl Sink for Space<'_> {
    ghost use Rattle.std.proofs.Common.{◌∙◌, refl, arith};
    ghost use Rattle.report.specs.Written.{written_room, written_none, written_both};

    ghost room = { λ space. length space.bytes.now - space.at };

    // The text stands where the space was filled up to, and the bytes are the same borrow.
    ghost Took = { λ before text after. Written before.bytes.now before.at text after.bytes.now after.at
        × (after.bytes.ghost_name ≡ before.bytes.ghost_name) };

    ghost room_left = { λ before text after took fits.
        Prim.omega (arith, written_room before.bytes.now before.at text after.bytes.now after.at before.within took.0 fits, took.0.ends) };

    ghost took_nothing = { λ space. (written_none space.bytes.now space.at, refl) };

    ghost took_both = { λ before one mid other after first second.
        (written_both before.bytes.now before.at one mid.bytes.now mid.at other after.bytes.now after.at before.within first.0 second.0, second.1 ∙ first.1) };

    fn put(&mut self, piece: &[u8]) {
        let end = self.at + piece.len();
        let bytes = &mut *self.bytes;
        bytes[self.at..end].copy_from_slice(piece);
        self.at = end;
    }
}
