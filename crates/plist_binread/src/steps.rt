//! Takes the steps of a walk: reads the head and enters the root, or advances by one event.

ghost use Rattle.std.specs.Prelude.{◌≡◌, ◌^◌, ◌<◌, Ok, Some, false, IfSome, OnOk};
ghost use Rattle.plist_binread.specs.Remaining.{CountsObjects, walk_steps};
ghost use Rattle.plist_decode.specs.FaultOffsets.{ErrWithin, ItemGivenWithin};
ghost use Rattle.plist_binread.specs.Handovers.{HandsItem};
ghost use Rattle.plist_base.specs.Sources.{CountsIo};
ghost use Rattle.plist_decode.specs.StepFaults.{item_kept, result_with};
ghost use Rattle.plist_binread.specs.Walking.{IsBounded, IsEmptyWalk, IsKnownWalk, KeepsWalk, cached_in, walk_objects, weight_in};
ghost use Rattle.plist_binread.specs.Step.{LightensNext, YieldsItem, YieldsRoot};
ghost use Rattle.plist_binread.specs.References.{AreRunsOf};
ghost use Rattle.std.specs.declared.ops.ControlFlow.TheVariants.{Continue};

use crate::enter::enter_object;
use crate::frames::NextChild;
use crate::references::{Reference, ReferenceReader};
use crate::tokens::Tokens;
use crate::visitors::Relay;
use crate::walk::Walk;
use plist_base::{EventVisitor, Source};
use plist_decode::counter::DecodeCounter;
use plist_decode::head::{Bounds, Head};
use plist_decode::object::Decoder;
use plist_decode::step_fault::StepFault;
use std::ops::ControlFlow;

/// Reads the head of a file, and hands the file's first event to a visitor.
#[cold]
#[inline(never)]
pub fn begin<S: Source, C: DecodeCounter, V: EventVisitor>(
    source: &mut S,
    decoder: &mut Decoder<C>,
    walk: &mut Walk,
    visitor: &mut V,
) -> Result<ControlFlow<()>, StepFault>
    requires empty { IsEmptyWalk walk.old }
    requires counted { C.counts → C.count decoder.old.counter ≡ cached_in walk.old }
    // Result.
    ensures handed { HandsItem V.step visitor.old visitor.new (Some result) (λ event.
        YieldsRoot (S.known source.old) decoder.new.bounds
        (result_with result decoder.new.details) event walk.new) }
    // Errors.
    ensures fault { ErrWithin 0 (2 ^ 64) (result_with result decoder.new.details) }
    // State afterwards.
    ensures counted { C.counts → C.count decoder.new.counter ≡ cached_in walk.new }
    ensures bounded { IfSome (S.known source.old) (IsBounded walk.new) }
    ensures objects { IfSome (S.known source.old) (λ bytes.
        CountsObjects bytes (result_with result decoder.new.details) (walk_objects walk.new)) }
    ensures known { OnOk result (IsKnownWalk (S.known source.old) decoder.new.bounds walk.new) }
    ensures falls { OnOk result (weight_in walk.new < walk_steps (walk_objects walk.new)) }
    ensures unchanged { S.known source.new ≡ S.known source.old }
    ensures failures { CountsIo (Some (result_with result decoder.new.details))
        (S.failures source.old) (S.failures source.new) }
{
    let alloc = decoder.alloc;
    let head = decoder.details.keep_error(Head::read(alloc, source))?;
    // No object is cached or open at first.
    let tags = vec![in alloc; 0u8; head.places.len()]?;
    let Head {
        trailer,
        reference_width,
        root,
        places,
    } = head;
    decoder.bounds = Bounds {
        trailer,
        reference_width,
    };
    walk.tags = tags;
    walk.contents = places;
    let reference = Reference {
        at: trailer,
        number: root,
    };
    enter_object(source, decoder, walk, reference, &mut Relay { visitor })
}

impl Tokens {
    ghost use Rattle.plist_binread.specs.Tokens.{HoldsTokens, IsEventOf};

    /// Hands the next event of the walk to a visitor. Returns `None` if no collection is open.
    #[inline(always)]
    pub fn advance<S: Source, C: DecodeCounter, V: EventVisitor>(
        &mut self,
        source: &mut S,
        decoder: &mut Decoder<C>,
        walk: &mut Walk,
        references: &mut ReferenceReader,
        visitor: &mut V,
    ) -> Option<Result<ControlFlow<()>, StepFault>>
        requires known { IsKnownWalk (S.known source.old) decoder.old.bounds walk.old }
        requires counted { C.counts → C.count decoder.old.counter ≡ cached_in walk.old }
        requires references { AreRunsOf (S.known source.old) references.old }
        requires tokens { HoldsTokens V.step V.names self.old
            (IsEventOf (S.known source.old) decoder.old.bounds walk.old) visitor.old }
        // Result.
        ensures handed { HandsItem V.step visitor.old visitor.new result (λ event.
            YieldsItem (S.known source.old) decoder.old.bounds walk.old
            (item_kept result decoder.new.details) event walk.new) }
        // Errors.
        ensures fault { ItemGivenWithin 0 decoder.old.bounds.trailer false
            (item_kept result decoder.new.details) }
        // State afterwards.
        ensures kept { KeepsWalk S.known C.counts C.count (source.old, decoder.old, walk.old)
            (source.new, decoder.new, walk.new) }
        ensures references { AreRunsOf (S.known source.old) references.new }
        ensures tokens { result ≡ Some (Ok (Continue tt)) → HoldsTokens V.step V.names self.new
            (IsEventOf (S.known source.old) decoder.old.bounds walk.new) visitor.new }
        ensures falls { LightensNext walk.old result walk.new }
        ensures failures { CountsIo (item_kept result decoder.new.details) (S.failures source.old)
            (S.failures source.new) }
    {
        match walk.next_child() {
            NextChild::Nothing => None,
            NextChild::End(_) => Some(Ok(visitor.end_collection())),
            NextChild::Child(frame) => {
                let location = walk.references(frame);
                match references.read_child(source, decoder, walk, frame) {
                    Ok(number) => {
                        let reference = Reference {
                            at: location.place,
                            number,
                        };
                        Some(self.enter(source, decoder, walk, reference, visitor))
                    }
                    Err(fault) => Some(Err(fault)),
                }
            }
        }
    }
}
