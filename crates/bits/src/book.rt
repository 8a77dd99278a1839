// A packed file that is no longer than one may be.
ghost use Rattle.std.specs.Prelude.{ℕ, ◌≤◌, ◌<◌, length, get_or};
ghost use Rattle.format.specs.Layout.{max_bytes};

// The bytes of a packed file. That each fits is told here, since a proof learns it of a slice alone, and of none in a
// struct.
#[derive(Clone, Copy)]
pub struct Book<'a> {
    pub bytes: &'a [u8],
    ghost short: { length bytes.now ≤ max_bytes },
    ghost fits: { (i : ℕ) → get_or bytes.now i 0 < 256 },
}
