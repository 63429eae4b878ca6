// What the channel of a box keeps at every moment, and what each kind of step tells the pass that makes it.
ghost use Rattle.std.specs.Prelude.{[], ⊤};

use crate::letter::Letter;
use crossbeam_channel::protocol::{Join, Lesson, Outcome, Protocol, Split};
use std::collections::LinkedList;

// What a pass of the channel knows. No value of it is made.
pub(crate) enum View<B> {
    // A port's pass: the port's number, and the letters that it put.
    Sends(u32, LinkedList<Letter<B>>),
    // The inbox's pass: how many ports were made, the letters that it took, and the number and the letters of each
    // port whose pass was joined into this one.
    Receives(u32, LinkedList<Letter<B>>, LinkedList<(u32, LinkedList<Letter<B>>)>),
    // The pass of a port after its joining.
    Spent,
}

// The rule of a box.
pub(crate) struct MailboxRule;

impl<B> Protocol<Letter<B>, View<B>> for MailboxRule {
    ghost use Rattle.rx_mailbox.specs.Rule.{KeepsShares};
    ghost use Rattle.rx_mailbox.specs.declared.channel.rule.View.TheVariants.{Receives};

    ghost holds = { KeepsShares };

    ghost first = { Receives 0 [] [] };
}

// A port is made.
pub(crate) struct SplitPort;

impl<B> Split<View<B>> for SplitPort {
    ghost use Rattle.rx_mailbox.specs.Steps.{one_more, new_port};

    ghost left = { one_more };

    ghost right = { new_port };
}

// A letter is put at the back.
pub(crate) struct Put;

impl<B> Outcome<Letter<B>, View<B>> for Put {
    ghost use Rattle.rx_mailbox.specs.Steps.{PutsLetter};

    ghost then = { PutsLetter };
}

impl<B> Lesson<Letter<B>, View<B>> for Put {
    ghost fact = { λ v queue. ⊤ };
}

// The letter at the front is taken.
pub(crate) struct Take;

impl<B> Outcome<Letter<B>, View<B>> for Take {
    ghost use Rattle.rx_mailbox.specs.Steps.{TakesLetter};

    ghost then = { TakesLetter };
}

// Where there is none, the inbox's pass reads the rule too.
impl<B> Lesson<Letter<B>, View<B>> for Take {
    ghost use Rattle.rx_mailbox.specs.Steps.{Shows};

    ghost fact = { Shows };
}

// A port's pass is joined into the inbox's.
pub(crate) struct JoinPort;

impl<B> Join<View<B>> for JoinPort {
    ghost use Rattle.rx_mailbox.specs.declared.channel.rule.View.TheVariants.{Spent};
    ghost use Rattle.rx_mailbox.specs.Steps.{noted};

    ghost both = { noted };

    ghost spent = { Spent };
}

// The inbox's pass reads the rule.
pub(crate) struct Show;

impl<B> Lesson<Letter<B>, View<B>> for Show {
    ghost use Rattle.rx_mailbox.specs.Steps.{Shows};

    ghost fact = { Shows };
}
