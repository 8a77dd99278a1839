// The pieces that a pattern's variables are bound to.
ghost use Rattle.std.specs.Prelude.{◌≡◌, ◌<◌, length, get_or, slice_set};

use crate::VARIABLES;
use crate::elements::Piece;

// A piece for each variable, by its number.
#[derive(Clone, Copy)]
pub struct Bindings {
    pub offsets: [u8; VARIABLES],
    pub masks: [u16; VARIABLES],
    pub ghost offset_room: { length offsets ≡ 18 },
    pub ghost mask_room: { length masks ≡ 18 },
}

impl Bindings {
    // The piece of the variable x.
    pub fn get(&self, x: usize) -> Piece
        requires { x < 18 }
        ensures { (result.offset ≡ get_or self.now.offsets x 0) × (result.mask ≡ get_or self.now.masks x 0) }
    {
        Piece {
            offset: self.offsets[x] as usize,
            mask: self.masks[x],
        }
    }

    // Binds the variable x to a piece.
    pub fn set(&mut self, x: usize, piece: Piece)
        requires { (x < 18) × (piece.offset < 256) }
        ensures offsets_after { self.new.offsets ≡ slice_set self.old.offsets x piece.offset }
        ensures masks_after { self.new.masks ≡ slice_set self.old.masks x piece.mask }
    {
        self.offsets[x] = piece.offset as u8;
        self.masks[x] = piece.mask;
    }
}
