// What an emission does to the observers of a subject.
//
// An item that is owed is put where it goes in the first pass of its emission, by far the commonest step: the second pass
// only tells the queues, and a refusal cuts the list of what is given to what it was. A subject's end, whose item and
// terminal alternate in that list, and an item that overflows at an observer, whose error stands among what the others are
// given, have their copies made ready in the observers' own places, as has what a queue of its own keeps; so none of these
// takes a list. After a step that was refused for want of memory they are let go.
//
// The copies of an emission are made of one `TapeSubject::preview`, and `TapeSubject::admit_offered` is its last growth. An
// observer to which nothing is owed costs no copy of an item, save under Drop where the item will wait, and under Bounded
// where it has not ended.
ghost use Rattle.std.specs.Prelude.{◌≡◌, ◌≢◌, ℕ, option_to_list, OnOk, OnErr};
ghost use Rattle.rx_note.specs.declared.kind.Kind.TheVariants.{Async};
ghost use Rattle.rx_subject.specs.Subjects.{HasPlace, offered_by, signals_by};
ghost use Rattle.rx_subject.specs.TapeSubjects.{subject_on};
ghost use Rattle.rx_subject.specs.Offers.{offer_signals};
ghost use Rattle.rx_hub.specs.Emissions.{IsOpen, IsNext, StaysAs, Admits, delivery, of_item};

use crate::audience::Audience;
use crate::emission::Emission;
use crate::passes::{
    are_owed, feed_all, forget_all, give_item, give_owed, pass_all, pass_owed_all, prepare_all,
    take_back,
};
use rx_heap::{Heap, Memory};
use rx_note::{Given, Item, Note};
use rx_subject::{Offer, TapeSubject};

impl Audience {
    /// Has the subject admit an emission, and puts at the end of `outs` what it gives to each observer, by rising number. All
    /// that may be refused comes first: room, copies for those to whom something is owed, and the tape. `Memory` leaves the
    /// subject, the observers and `outs`.
    #[inline(always)] // so that a text is moved once
    pub(crate) fn admit(
        &mut self,
        subject: &mut TapeSubject,
        emission: Emission,
        outs: &mut Vec<Given, Heap>,
    ) -> Result<(), Memory>
        requires open { IsOpen subject.old self.old }
        requires place { HasPlace subject.old.count emission.note }
        ensures err { OnErr result (StaysAs (delivery subject.old self.old outs.old.items) (delivery subject.new self.new outs.new.items)) }
        ensures admits { OnOk result (Admits (delivery subject.old self.old outs.old.items) (delivery subject.new self.new outs.new.items) emission) }
    {
        let Emission { port, note, at } = emission;
        match note {
            Note::Next(
                Item {
                    from: _,
                    place: _,
                    text,
                },
            ) => {
                let place = subject.items();
                let item = Item {
                    from: port,
                    place,
                    text,
                };
                self.admit_item(subject, item, at, outs)
            }
            note => self.admit_offer(subject, Emission { port, note, at }, outs),
        }
    }

    // Has the subject admit an item, which comes by the port that it names and has the next place. One that all are owed, and
    // nobody may need later, goes by no tape.
    #[inline(always)] // so that a text is moved once
    fn admit_item(
        &mut self,
        subject: &mut TapeSubject,
        item: Item,
        at: u64,
        outs: &mut Vec<Given, Heap>,
    ) -> Result<(), Memory>
        requires open { IsOpen subject.old self.old }
        requires next { IsNext subject.old item }
        ensures err { OnErr result (StaysAs (delivery subject.old self.old outs.old.items) (delivery subject.new self.new outs.new.items)) }
        ensures admits { OnOk result ((from place : ℕ) → Admits (delivery subject.old self.old outs.old.items) (delivery subject.new self.new outs.new.items) (of_item from place item at)) }
    {
        if subject.keeps_nothing() && are_owed(&self.subscriptions) {
            let before = outs.len();
            outs.reserve(self.subscriptions.len())?;
            let Ok(()) = give_owed(&self.subscriptions, item, outs) else {
                outs.truncate(before);
                return Err(Memory);
            };
            subject.pass_item(at);
            pass_owed_all(&mut self.subscriptions);
            return Ok(());
        }
        self.admit_later(subject, item, at, outs)
    }

    // The same of an item that somebody may need later, or that the subject keeps back: then it is offered to nobody. It is kept
    // out of line, as all is that is rarer than an item that goes by no tape.
    #[inline(never)] // rarer than an item that goes by no tape
    fn admit_later(
        &mut self,
        subject: &mut TapeSubject,
        item: Item,
        at: u64,
        outs: &mut Vec<Given, Heap>,
    ) -> Result<(), Memory>
        requires open { IsOpen subject.old self.old }
        requires next { IsNext subject.old item }
        ensures err { OnErr result (StaysAs (delivery subject.old self.old outs.old.items) (delivery subject.new self.new outs.new.items)) }
        ensures admits { OnOk result ((from place : ℕ) → Admits (delivery subject.old self.old outs.old.items) (delivery subject.new self.new outs.new.items) (of_item from place item at)) }
    {
        if subject.keeps_back() {
            subject.keep_back(item, at);
            return Ok(());
        }
        self.put_item(subject, item, at, outs)
    }

    // The same of an item that is offered at once, by the tape. What is given is put where it goes in the first pass, unless the
    // item overflows at an observer, whose error stands among what the others are given.
    fn put_item(
        &mut self,
        subject: &mut TapeSubject,
        item: Item,
        at: u64,
        outs: &mut Vec<Given, Heap>,
    ) -> Result<(), Memory>
        requires open { IsOpen subject.old self.old }
        requires next { IsNext subject.old item }
        requires offered { subject.old.kind ≢ Async }
        ensures err { OnErr result (StaysAs (delivery subject.old self.old outs.old.items) (delivery subject.new self.new outs.new.items)) }
        ensures admits { OnOk result ((from place : ℕ) → Admits (delivery subject.old self.old outs.old.items) (delivery subject.new self.new outs.new.items) (of_item from place item at)) }
    {
        let before = outs.len();
        outs.reserve(self.subscriptions.len())?;
        let Ok(fits) = give_item(&mut self.subscriptions, &item, outs) else {
            take_back(&mut self.subscriptions, before, outs);
            return Err(Memory);
        };
        if !fits {
            take_back(&mut self.subscriptions, before, outs);
            let port = item.from;
            let note = Note::Next(item);
            return self.admit_offer(subject, Emission { port, note, at }, outs);
        }
        let Ok(()) = subject.admit_on(item, at, &mut self.tape) else {
            take_back(&mut self.subscriptions, before, outs);
            return Err(Memory);
        };
        pass_all(&mut self.subscriptions, &mut self.tape);
        Ok(())
    }

    // Has the subject admit a note that ends it, or an observer.
    #[inline(never)] // rare
    fn admit_offer(
        &mut self,
        subject: &mut TapeSubject,
        emission: Emission,
        outs: &mut Vec<Given, Heap>,
    ) -> Result<(), Memory>
        requires open { IsOpen subject.old self.old }
        requires place { HasPlace subject.old.count emission.note }
        ensures err { OnErr result (StaysAs (delivery subject.old self.old outs.old.items) (delivery subject.new self.new outs.new.items)) }
        ensures admits { OnOk result (Admits (delivery subject.old self.old outs.old.items) (delivery subject.new self.new outs.new.items) emission) }
    {
        let Ok(offer) = subject.preview(emission.port, &emission.note) else {
            return Err(Memory);
        };
        self.admit_as(subject, &offer, emission, outs)
    }

    // The same, where it is known what the note offers.
    fn admit_as(
        &mut self,
        subject: &mut TapeSubject,
        offer: &Offer,
        emission: Emission,
        outs: &mut Vec<Given, Heap>,
    ) -> Result<(), Memory>
        requires open { IsOpen subject.old self.old }
        requires place { HasPlace subject.old.count emission.note }
        requires item { offered_by (subject_on self.old.items subject.old) emission.port emission.note ≡ option_to_list offer.now.item }
        requires offers { signals_by (subject_on self.old.items subject.old) emission.port emission.note ≡ offer_signals offer.now }
        ensures err { OnErr result (StaysAs (delivery subject.old self.old outs.old.items) (delivery subject.new self.new outs.new.items)) }
        ensures admits { OnOk result (Admits (delivery subject.old self.old outs.old.items) (delivery subject.new self.new outs.new.items) emission) }
    {
        let Some(most) = self.subscriptions.len().checked_mul(offer.len()) else {
            return Err(Memory);
        };
        outs.reserve(most)?;
        let Ok(()) = prepare_all(&mut self.subscriptions, offer) else {
            forget_all(&mut self.subscriptions);
            return Err(Memory);
        };
        let Emission { port, note, at } = emission;
        let Ok(()) = subject.admit_offered(port, note, at, &mut self.tape) else {
            forget_all(&mut self.subscriptions);
            return Err(Memory);
        };
        feed_all(&mut self.subscriptions, offer, &mut self.tape, outs);
        Ok(())
    }
}
