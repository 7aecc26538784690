// Bits of a list of 32-bit words.
ghost use Rattle.std.specs.Prelude.{◌≡◌, ◌/◌, ◌<◌, length};
ghost use Rattle.bits.specs.Bits.{bit_at, with_bit};

// Bit p.
pub fn bit(words: &[u32], p: usize) -> bool
    requires { p / 32 < length words.now }
    ensures { result ≡ bit_at words.now p }
{
    let w = words[p / 32];
    (w >> (p % 32)) % 2 == 1
}

// Sets bit p.
pub fn set_bit(words: &mut [u32], p: usize)
    requires { p / 32 < length words.old }
    ensures { words.new ≡ with_bit words.old p }
{
    let i = p / 32;
    words[i] = words[i] | (1 << (p % 32));
}
