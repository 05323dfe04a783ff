// Numbers as hexadecimal digits.
ghost use Rattle.std.specs.Prelude.{◌≡◌, ◌<◌};
ghost use Rattle.writer.specs.Digits.{hex_digit, hex16};

fn hex_digit(n: u8) -> u8
    requires { n < 16 }
    ensures { result ≡ hex_digit n }
{
    if n < 10 { b'0' + n } else { b'a' + (n - 10) }
}

// The 16 hexadecimal digits of a word, the highest first.
pub fn hex_digits(word: u64) -> [u8; 16]
    ensures { result ≡ hex16 word }
{
    let mut digits = [0; 16];
    let mut rest = word;
    // Stays: the lowest digit comes first, and over a reversed `iter_mut` a proof keeps nothing of the elements.
    for k in 0..16 {
        digits[15 - k] = hex_digit((rest % 16) as u8);
        rest /= 16;
    }
    digits
}
