//! The open rows of a seat, each with its payload.
ghost use Rattle.std.specs.Prelude.{◌≡◌, ◌+◌, ◌<◌, length, vec_capacity, vec_len};
ghost use Rattle.chunk_core.specs.Lists.{IsAmong};
ghost use Rattle.row_seat.specs.Hands.{spot};
ghost use Rattle.row_seat.specs.Views.{HasRow, without_row};

/// The place of an open row.
pub fn find<P>(hands: &[(u32, P)], row: u32) -> usize
    requires { HasRow hands.now row }
    ensures place { result ≡ spot row hands.now }
    ensures within { result < length hands.now }
{
    for (i, hand) in hands.iter().enumerate() {
        if hand.0 == row {
            return i;
        }
    }
    unreachable!()
}

/// The payload of an open row, which is no longer in the hands.
pub fn take_out<P>(hands: &mut Vec<(u32, P)>, row: u32) -> P
    requires { HasRow hands.old.items row }
    ensures pay { IsAmong (row, result) hands.old.items }
    ensures rest { hands.new.items ≡ without_row row hands.old.items }
    ensures less { vec_len hands.new + 1 ≡ vec_len hands.old }
    ensures room { vec_capacity hands.new ≡ vec_capacity hands.old }
{
    let place = find(hands, row);
    hands.remove(place).1
}
