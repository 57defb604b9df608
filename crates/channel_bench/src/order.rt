//! What the words of the command line ask for.
ghost use Rattle.std.specs.Prelude.{◌<◌};

/// What is done: messages sent through a queue, or a wait at an empty or a full one.
#[derive(Clone, Copy)]
pub enum Act {
    Send { messages: u32, capacity: u32 },
    Empty { millis: u64 },
    Full { millis: u64 },
}

/// What is done, how an end waits between two tries, and whether the time is told.
#[derive(Clone, Copy)]
pub struct Order {
    pub act: Act,
    pub naps: bool,
    pub timed: bool,
}

impl Order {
    /// None where the words mean nothing.
    pub fn of(words: &[String]) -> Option<Order> {
        match words {
            [rest @ .., time] if time.as_str() == "time" => Order::made(rest, true),
            _ => Order::made(words, false),
        }
    }

    fn made(words: &[String], timed: bool) -> Option<Order> {
        match words {
            [name, messages, capacity, wait] if name.as_str() == "send" => {
                let messages = messages.as_str().parse().ok()?;
                let capacity = capacity.as_str().parse().ok()?;
                let naps = naps_of(wait)?;
                let act = Act::Send { messages, capacity };
                Some(Order { act, naps, timed })
            }
            [name, millis, wait] => {
                let millis = millis.as_str().parse().ok()?;
                let naps = naps_of(wait)?;
                let act = match name.as_str() {
                    "empty" => Act::Empty { millis },
                    "full" => Act::Full { millis },
                    _ => return None,
                };
                Some(Order { act, naps, timed })
            }
            _ => None,
        }
    }
}

fn naps_of(word: &String) -> Option<bool> {
    match word.as_str() {
        "spin" => Some(false),
        "nap" => Some(true),
        _ => None,
    }
}
