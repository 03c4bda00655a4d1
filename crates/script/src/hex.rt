// Octets as two hexadecimal digits, in upper case where they are written.
ghost use Rattle.std.specs.Prelude.{◌≡◌, ◌/◌, ◌%◌, ◌<◌, [], ◌∷◌, Some};
ghost use Rattle.script.specs.Hex.{digit_in, octet_in, digit_of};

fn digit(character: u8) -> Option<u8>
    ensures { result ≡ digit_in character }
{
    match character {
        b'0'..=b'9' => Some(character - b'0'),
        b'A'..=b'F' => Some(character - b'A' + 10),
        b'a'..=b'f' => Some(character - b'a' + 10),
        _ => None,
    }
}

// The octet that a word of two digits names.
pub fn octet(word: &[u8]) -> Option<u8>
    ensures { result ≡ octet_in word.now }
{
    let [high, low] = word else {
        return None;
    };
    Some(digit(*high)? * 16 + digit(*low)?)
}

fn digit_character(digit: u8) -> u8
    requires { digit < 16 }
    ensures { result ≡ digit_of digit }
{
    match digit {
        0..=9 => b'0' + digit,
        _ => b'A' + (digit - 10),
    }
}

// The two digits of an octet.
pub fn digits(octet: u8) -> [u8; 2]
    ensures writes { result ≡ digit_of (octet / 16) ∷ (digit_of (octet % 16) ∷ []) }
    ensures reads { octet_in result ≡ Some octet }
{
    [digit_character(octet / 16), digit_character(octet % 16)]
}
