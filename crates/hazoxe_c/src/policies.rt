// The policy that a program in C asks for, by its numbers.
ghost use Rattle.std.specs.Prelude.{◌≡◌};
ghost use Rattle.hazoxe_c.specs.Asking.{strategy_read, errors_read, policy_read, roomed};

use crate::fault::Fault;
use rx_note::{Errors, Policy, Strategy};

/// The most items that a room holds.
const MAX_ROOM: u32 = 1024;

/// The policy of these numbers: 0 to 3 for Buffer, Drop, Latest, Bounded; the room; 0 or 1 for Ahead, Delay. A room is 0 to
/// 1,024 items, of Latest at least 1, of Buffer 0. Refused in the order `BadStrategy`, `BadRoom`, `BadErrors`.
pub fn read_policy(strategy: u32, room: u32, errors: u32) -> Result<Policy, Fault>
    ensures { result ≡ policy_read strategy room errors }
{
    let strategy = read_strategy(strategy, room)?;
    let errors = read_errors(errors)?;
    match Policy::new(strategy, errors) {
        Ok(policy) => Ok(policy),
        Err(_) => Err(Fault::BadRoom),
    }
}

fn read_strategy(number: u32, room: u32) -> Result<Strategy, Fault>
    ensures { result ≡ strategy_read number room }
{
    if number > 3 {
        return Err(Fault::BadStrategy);
    }
    if room > MAX_ROOM || (number == 0 && room > 0) || (number == 2 && room == 0) {
        return Err(Fault::BadRoom);
    }
    let room = room as u16;
    Ok(match number {
        0 => Strategy::Buffer,
        1 => Strategy::Drop(room),
        2 => Strategy::Latest(room),
        _ => Strategy::Bounded(room),
    })
}

fn read_errors(number: u32) -> Result<Errors, Fault>
    ensures { result ≡ errors_read number }
{
    match number {
        0 => Ok(Errors::Ahead),
        1 => Ok(Errors::Delay),
        _ => Err(Fault::BadErrors),
    }
}
