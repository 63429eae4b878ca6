// A box is opened: its ports, its inbox, and room for what is in it.
ghost use Rattle.std.specs.Prelude.{◌≡◌, ◌↔◌, [], Err, map, IsTrue, IfOk};
ghost use Rattle.std.specs.List.{range_with_len};
ghost use Rattle.rx_mailbox.specs.declared.opening.OpenError.TheVariants.{BadSize};
ghost use Rattle.rx_mailbox.specs.Boxes.{capacity_of, incoming, outgoing, AreOf};
ghost use Rattle.rx_mailbox.specs.Sizes.{IsSize};

pub(crate) mod leavings;
pub(crate) mod new_box;

use crate::inbox::Inbox;
use crate::opening::new_box::NewBox;
use crate::port::Port;
use rx_heap::{Heap, Memory};
use std::error::Error;
use std::fmt;

/// The greatest capacity of a box, in letters.
pub const MAX_CAPACITY: usize = 65_536;

/// The greatest number of ports of a box.
pub const MAX_PORTS: u32 = 256;

/// Why a box was not opened: `BadSize` before `Memory`.
#[derive(Clone, Copy, Debug, PartialEq, Eq)]
pub enum OpenError {
    /// The capacity is not 1 to 65,536, or the number of senders is not 1 to 256.
    BadSize,
    /// There was no memory for it, and nothing was made.
    Memory,
}

impl fmt::Display for OpenError {
    fn fmt<W: fmt::Write>(&self, f: &mut fmt::Formatter<W>) -> fmt::Result {
        f.write_str(match self {
            OpenError::BadSize => "a box has 1 to 65536 letters and 1 to 256 ports",
            OpenError::Memory => "out of memory",
        })
    }
}

impl Error for OpenError {}

/// Makes a box that holds up to `capacity` letters: its inbox, and as many ports as `senders` says, numbered from 0. It
/// takes all its memory here.
pub fn open<B: Drop>(
    alloc: Heap,
    capacity: usize,
    senders: u32,
) -> Result<(Inbox<B>, Vec<Port<B>, Heap>), OpenError>
    ensures size { (result ≡ Err OpenError.BadSize) ↔ ¬ IsSize capacity senders }
    ensures inbox { IfOk result (λ made. made.0 ≡ incoming made.0.box senders []) }
    ensures ports { IfOk result (λ made. made.1.items ≡ map (λ number. outgoing made.0.box number []) (range_with_len 0 senders)) }
    ensures parts { IfOk result (λ made. AreOf made.0 made.1.items) }
    ensures capacity { IfOk result (λ made. capacity_of made.0.box ≡ capacity) }
{
    if !is_size(capacity, senders) {
        return Err(OpenError::BadSize);
    }
    match make(alloc, capacity, senders) {
        Ok(made) => Ok(made),
        Err(Memory) => Err(OpenError::Memory),
    }
}

fn is_size(capacity: usize, senders: u32) -> bool
    ensures { IsTrue result ↔ IsSize capacity senders }
{
    0 < capacity && capacity <= MAX_CAPACITY && 0 < senders && senders <= MAX_PORTS
}

// Makes a box of a size that is allowed.
fn make<B: Drop>(
    alloc: Heap,
    capacity: usize,
    senders: u32,
) -> Result<(Inbox<B>, Vec<Port<B>, Heap>), Memory>
    requires { IsSize capacity senders }
    ensures inbox { IfOk result (λ made. made.0 ≡ incoming made.0.box senders []) }
    ensures ports { IfOk result (λ made. made.1.items ≡ map (λ number. outgoing made.0.box number []) (range_with_len 0 senders)) }
    ensures parts { IfOk result (λ made. AreOf made.0 made.1.items) }
    ensures capacity { IfOk result (λ made. capacity_of made.0.box ≡ capacity) }
{
    let mut ports = Vec::with_capacity(alloc.clone()?, senders as usize)?;
    let mut new = NewBox::new(alloc, capacity, senders)?;
    for number in 0..senders {
        ports.push(new.port(number)?)?;
    }
    Ok((new.into_inbox(), ports))
}
