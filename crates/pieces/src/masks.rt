// The numbers within a mask.
ghost use Rattle.std.specs.Prelude.{◌≡◌, ◌-◌, ◌<◌};
ghost use Rattle.std.specs.Int.Bits.{bit_and};

// The greatest number within a mask below the number a.
pub fn next_within(a: u16, mask: u16) -> u16
    requires { 0 < a }
    ensures { (result ≡ bit_and (a - 1) mask) × (result < a) }
{
    (a - 1) & mask
}
