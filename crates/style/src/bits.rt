// The two low bits of a word.
// Two functions: no record reads a third bit, and one of both would ask its caller for a place below 32.
ghost use Rattle.std.specs.Prelude.{◌≡◌};
ghost use Rattle.style.specs.Codes.{bit0, bit1};

pub fn bit0(word: u32) -> bool
    ensures { result ≡ bit0 word }
{
    word % 2 == 1
}

pub fn bit1(word: u32) -> bool
    ensures { result ≡ bit1 word }
{
    word / 2 % 2 == 1
}
