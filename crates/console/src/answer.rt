// What an accepted key or octet is answered with: each part told by itself, as each is counted by itself.
ghost use Rattle.std.specs.Prelude.{◌≡◌, false, Some, None};

#[derive(Clone, Copy, PartialEq, Eq, Debug)]
pub struct Answer {
    // a transmission was taken up
    pub taken_up: bool,
    // a reply that carried the held text was settled
    pub acknowledged: bool,
    // a host text was carried out
    pub carried_out: bool,
    // the length of the reply that was written
    pub reply: Option<usize>,
}

impl Answer {
    // No reply was written, and nothing was acknowledged.
    pub fn silent(taken_up: bool, carried_out: bool) -> Answer
        ensures { result ≡ record { taken_up = taken_up; acknowledged = false; carried_out = carried_out; reply = None } }
    {
        Answer {
            taken_up,
            acknowledged: false,
            carried_out,
            reply: None,
        }
    }

    // A reply of so many octets was written.
    pub fn replied(acknowledged: bool, length: usize) -> Answer
        ensures { result ≡ record { taken_up = false; acknowledged = acknowledged; carried_out = false; reply = Some length } }
    {
        Answer {
            taken_up: false,
            acknowledged,
            carried_out: false,
            reply: Some(length),
        }
    }
}
