//! What the words of the command line ask for.
ghost use Rattle.std.specs.Prelude.{◌<◌};

/// How many bytes a load has where the words don't say.
const CHUNK: usize = 4096;

/// Which pipes are run, over how many megabytes of text, in loads of how many bytes; and whether
/// the time is told.
#[derive(Drop)]
pub struct Order<'a> {
    name: &'a str,
    megabytes: u32,
    chunk: usize,
    timed: bool,
    ghost some: { 0 < chunk },
}

fn is_time(word: &String) -> bool {
    word.as_str() == "time"
}

impl<'a> Order<'a> {
    /// None where the words mean nothing.
    pub fn of(words: &'a [String]) -> Option<Order<'a>> {
        match words {
            [name, megabytes] => Order::made(name, megabytes, CHUNK, false),
            [name, megabytes, chunk] => Order::made(name, megabytes, number_of(chunk)?, false),
            [name, megabytes, chunk, time] if is_time(time) => {
                Order::made(name, megabytes, number_of(chunk)?, true)
            }
            _ => None,
        }
    }

    fn made(name: &'a String, megabytes: &String, chunk: usize, timed: bool) -> Option<Order<'a>> {
        let megabytes = megabytes.as_str().parse().ok()?;
        if chunk == 0 {
            return None;
        }
        Some(Order {
            name: name.as_str(),
            megabytes,
            chunk,
            timed,
        })
    }

    pub fn asks_for(&self, name: &str) -> bool {
        self.name == "all" || self.name == name
    }

    pub fn megabytes(&self) -> u32 {
        self.megabytes
    }

    pub fn chunk(&self) -> usize
        ensures { 0 < result }
    {
        self.chunk
    }

    pub fn is_timed(&self) -> bool {
        self.timed
    }
}

fn number_of(word: &String) -> Option<usize> {
    word.as_str().parse().ok()
}
