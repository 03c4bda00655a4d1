// The block check: the exclusive or of a message's characters.
ghost use Rattle.std.specs.Prelude.{◌≡◌};
ghost use Rattle.receiver.specs.Check.{block_check};

pub fn block_check(message: &[u8]) -> u8
    ensures { result ≡ block_check message.now }
{
    let mut sum = 0;
    for character in message {
        sum ^= *character;
    }
    sum
}
