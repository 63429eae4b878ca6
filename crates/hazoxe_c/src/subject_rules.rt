ghost use Rattle.std.specs.Prelude.{◌≡◌};
ghost use Rattle.hazoxe_c.specs.Opening.{kind_of, limits_of, rules_fault};
ghost use Rattle.hazoxe_c.specs.Desks.{text_fault, fault_result};

use crate::fault::Fault;
use rx_note::{Kind, Limits, MAX_COUNT, MAX_TEXT, Text};

/// The number of the kind Behavior with a seed.
const SEEDED: u32 = 2;

/// The number of the kind Replay, which is the greatest.
const REPLAY: u32 = 4;

/// The subject that a program in C asks for.
#[repr(C)]
#[derive(Clone, Copy)]
pub struct SubjectRules {
    /// Of Replay: only items younger than so many milliseconds; 0: of any age. Else 0.
    pub age: u64,
    /// So many bytes at most its texts and collections take; 0: all that can be had.
    pub budget: u64,
    /// 0: Publish. 1: Behavior without a seed. 2: Behavior with the seed. 3: Async. 4: Replay.
    pub kind: u32,
    /// Of Replay: at most so many items, up to 4,096; 0: as many as there are. Else 0.
    pub count: u32,
    /// The most observers held at a time, 1 to 64.
    pub observers: u32,
    /// The most joins accepted in all, at least 1.
    pub joins: u32,
    /// The most items accepted in all, at least 1.
    pub items: u32,
}

impl SubjectRules {
    /// Whether it can be had with this seed. Refused in the order `BadKind`, `BadSeed`, `TooLong`, `HasLf`, `BadCount`,
    /// `BadAge`, `BadLimits`.
    pub fn check(&self, seed: &[u8]) -> Result<(), Fault>
        ensures { result ≡ fault_result (rules_fault self.now seed.now) }
    {
        if self.kind > REPLAY {
            return Err(Fault::BadKind);
        }
        if self.kind != SEEDED && !seed.is_empty() {
            return Err(Fault::BadSeed);
        }
        check_text(seed)?;
        let most = if self.kind == REPLAY { MAX_COUNT } else { 0 };
        if self.count > u32::from(most) {
            return Err(Fault::BadCount);
        }
        if self.kind != REPLAY && self.age > 0 {
            return Err(Fault::BadAge);
        }
        if self.observers < 1 || self.observers > 64 || self.joins < 1 || self.items < 1 {
            return Err(Fault::BadLimits);
        }
        Ok(())
    }

    /// Its limits.
    pub fn limits(&self) -> Limits
        ensures { result ≡ limits_of self.now }
    {
        Limits {
            observers: self.observers,
            joins: self.joins,
            items: self.items,
        }
    }

    /// Its kind, with this seed, where nothing is wrong with it.
    pub fn kind(&self, seed: Text) -> Kind
        requires { rules_fault self.now seed ≡ None }
        ensures { result ≡ kind_of self.now seed }
    {
        match self.kind {
            0 => Kind::Publish,
            1 => Kind::Behavior(None),
            2 => Kind::Behavior(Some(seed)),
            3 => Kind::Async,
            _ => Kind::Replay {
                count: if self.count == 0 {
                    None
                } else {
                    Some(self.count as u16)
                },
                age: if self.age == 0 { None } else { Some(self.age) },
            },
        }
    }
}

/// Whether these bytes are a text. Refused in the order `TooLong`, `HasLf`.
#[inline] // once for each text
pub fn check_text(bytes: &[u8]) -> Result<(), Fault>
    ensures { result ≡ fault_result (text_fault bytes.now) }
{
    if bytes.len() > MAX_TEXT {
        return Err(Fault::TooLong);
    }
    if bytes.contains(&b'\n') {
        return Err(Fault::HasLf);
    }
    Ok(())
}
