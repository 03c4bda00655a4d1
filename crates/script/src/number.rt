// Decimal numbers, and sizes as rows and columns.
ghost use Rattle.std.specs.Prelude.{◌≡◌, ◌==◌, ◌<◌, length, position, IfSome};
ghost use Rattle.script.specs.Number.{with_digit, number_in, size_in};

// The largest number that a word names has nine digits.
const LARGEST: usize = 100_000_000;

// A number with one digit more.
fn with_digit(number: usize, character: u8) -> Option<usize>
    ensures { result ≡ with_digit number character }
{
    match character {
        b'0'..=b'9' if number < LARGEST => Some(number * 10 + (character - b'0') as usize),
        _ => None,
    }
}

// The number that a word of digits names.
pub fn number(word: &[u8]) -> Option<usize>
    ensures { result ≡ number_in word.now }
{
    if word.is_empty() {
        return None;
    }
    let mut sum = 0;
    for character in word {
        sum = with_digit(sum, *character)?;
    }
    Some(sum)
}

// Where the first x of a word stands.
fn x_place(word: &[u8]) -> Option<usize>
    ensures place { result ≡ position (λ c. c == 120) word.now }
    ensures within { IfSome result (λ x. x < length word.now) }
{
    word.iter().position(|character| *character == b'x')
}

// The rows and the columns that a word as 12x80 names.
pub fn size(word: &[u8]) -> Option<(usize, usize)>
    ensures { result ≡ size_in word.now }
{
    let x = x_place(word)?;
    let rows = number(&word[..x])?;
    let columns = number(&word[x + 1..])?;
    Some((rows, columns))
}
