//! Stores the tokens by which a visitor takes the scalars of objects that come again.

ghost use Rattle.std.specs.Prelude.{◌≡◌, ℕ, ◌<◌, Some, Ok, OnOk};
ghost use Rattle.std.specs.declared.ops.ControlFlow.TheVariants.{Continue};
ghost use Rattle.plist_base.specs.Sources.{CountsIo};
ghost use Rattle.plist_decode.specs.FaultOffsets.{ErrWithin};
ghost use Rattle.plist_decode.specs.StepFaults.{result_with};
ghost use Rattle.plist_binread.specs.Handovers.{HandsItem};
ghost use Rattle.plist_binread.specs.Step.{IsLighterEntered, YieldsEntered};
ghost use Rattle.plist_binread.specs.Walking.{IsKnownWalk, KeepsWalk, cached_in};

use crate::enter::enter_object;
use crate::references::Reference;
use crate::walk::Walk;
use plist_base::{EventVisitor, Source};
use plist_decode::counter::DecodeCounter;
use plist_decode::object::Decoder;
use plist_decode::packed::is_open;
use plist_decode::step_fault::StepFault;
use std::alloc::Global;
use std::ops::ControlFlow;

/// The tokens that a visitor gave for objects during a visit.
#[derive(Drop)]
pub struct Tokens {
    // The tokens by the numbers of the objects, or 0 where there is none. The list is empty until
    // the first token is stored.
    list: Vec<u32>,
    // Whether memory for the tokens was requested. If the allocation fails, it isn't tried again.
    is_made: bool,
}

impl Tokens {
    ghost use Rattle.plist_binread.specs.Tokens.{HasNoTokens, HoldsTokens, IsEventOf, IsTokenOf, StoresTokenOf, stored_token};
    ghost use Rattle.plist_base.specs.VisitedItems.{NamesLast};

    /// Creates an empty list. It allocates no memory.
    pub fn new(alloc: Global) -> Tokens
        ensures { HasNoTokens result }
    {
        Tokens {
            list: Vec::new(alloc),
            is_made: false,
        }
    }

    // Returns the token of an object, or 0 if it has none, or if it is open or doesn't exist.
    #[inline(always)]
    fn token_of(&self, walk: &Walk, number: u64) -> u32
        ensures { IsTokenOf self.now walk.now number result }
    {
        if number >= self.list.len() as u64 || number >= walk.tags.len() as u64 {
            return 0;
        }
        if is_open(walk.tags[number as usize]) {
            return 0;
        }
        self.list[number as usize]
    }

    // Stores the token that the visitor gives for an object, unless it is 0, if the object's tag is
    // still `before`, as it was before the object was entered. So the object isn't a collection,
    // and it isn't a small scalar that was decoded now: a token serves a small scalar only if it
    // comes a third time. If the allocation for the tokens fails, none is stored.
    #[inline(always)]
    fn remember<V: EventVisitor>(&mut self, walk: &Walk, number: u64, before: u8, visitor: &V)
        ensures { StoresTokenOf (NamesLast V.step V.names) self.old number visitor.now self.new }
    {
        if walk.tag_of(number) != before {
            return;
        }
        let token = visitor.token();
        if token == 0 {
            return;
        }
        if !self.is_made {
            self.make_room(walk);
        }
        if number < self.list.len() as u64 {
            self.list[number as usize] = token;
        }
    }

    // Allocates a token of 0 for every object. If the allocation fails, the list stays empty.
    #[cold]
    #[inline(never)]
    fn make_room(&mut self, walk: &Walk)
        ensures { (number : ℕ) → 0 < stored_token self.new number
            → stored_token self.new number ≡ stored_token self.old number }
    {
        self.is_made = true;
        let made = vec![in *self.list.allocator(); 0u32; walk.tags.len()];
        if let Ok(list) = made {
            self.list = list;
        }
    }

    /// Hands the first event of an object to a visitor, and opens the object if it is a collection.
    /// A scalar for which the visitor gave a token is handed over by the token.
    #[inline(always)]
    pub fn enter<S: Source, C: DecodeCounter, V: EventVisitor>(
        &mut self,
        source: &mut S,
        decoder: &mut Decoder<C>,
        walk: &mut Walk,
        reference: Reference,
        visitor: &mut V,
    ) -> Result<ControlFlow<()>, StepFault>
        requires known { IsKnownWalk (S.known source.old) decoder.old.bounds walk.old }
        requires counted { C.counts → C.count decoder.old.counter ≡ cached_in walk.old }
        requires tokens { HoldsTokens V.step V.names self.old
            (IsEventOf (S.known source.old) decoder.old.bounds walk.old) visitor.old }
        // Result.
        ensures handed { HandsItem V.step visitor.old visitor.new (Some result) (λ event.
            YieldsEntered (S.known source.old) decoder.old.bounds (reference, walk.old)
            (result_with result decoder.new.details) event walk.new) }
        // Errors.
        ensures fault { ErrWithin 0 decoder.old.bounds.trailer
            (result_with result decoder.new.details) }
        // State afterwards.
        ensures kept { KeepsWalk S.known C.counts C.count (source.old, decoder.old, walk.old)
            (source.new, decoder.new, walk.new) }
        ensures tokens { result ≡ Ok (Continue tt) → HoldsTokens V.step V.names self.new
            (IsEventOf (S.known source.old) decoder.old.bounds walk.new) visitor.new }
        ensures falls { OnOk result (IsLighterEntered walk.old walk.new) }
        ensures failures { CountsIo (Some (result_with result decoder.new.details))
            (S.failures source.old) (S.failures source.new) }
    {
        match visitor.again(self.token_of(walk, reference.number)) {
            Some(flow) => Ok(flow),
            None => {
                let before = walk.tag_of(reference.number);
                let entered = enter_object(source, decoder, walk, reference, visitor);
                self.remember(walk, reference.number, before, visitor);
                entered
            }
        }
    }
}
