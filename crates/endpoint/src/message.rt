ghost use Rattle.std.specs.Prelude.{◌≡◌, ℕ, ◌++◌, List, OnErr, OnOk};
ghost use Rattle.std.specs.List.{flat_map};
ghost use Rattle.endpoint.specs.FrameError.{OnMemory};
ghost use Rattle.endpoint.specs.Frames.{saying, sent_bytes, serve_message, switch_below, HearsInPart, IsSettled, Serves};
ghost use Rattle.router.specs.Model.{model};

use crate::error::FrameError;
use router::Router;
use std::alloc::{AllocError, Global};
use types::{NodeId, Sent};
use wire::{emit_message_to, parse_message};

/// A router hears a message, switches for all destinations that it may, and writes all that it has said.
pub(crate) fn serve_message(
    heap: Global,
    router: &mut Router,
    from: NodeId,
    bytes: &[u8],
    out: &mut Vec<u8>,
) -> Result<(), FrameError>
    ensures value { Serves (serve_message (model router.old) from bytes.now)
        (model router.old) (model router.new) out.old.items out.new.items result }
    ensures memory { OnMemory result
        (HearsInPart (model router.old) from bytes.now (model router.new)) }
    ensures settled { OnOk result (IsSettled (model router.new)) }
{
    let message = parse_message(bytes, router.nodes())?;
    let mut said = Vec::new(heap);
    router.hear(from, message, &mut said)?;
    settle(router, &mut said)?;
    Ok(write_said(&said, out)?)
}

/// It switches for each destination that it may, in rising order; where memory is wanting, for the first ones.
fn settle(router: &mut Router, said: &mut Vec<Sent>) -> Result<(), AllocError>
    ensures switches { let before = saying (model router.old) said.old.items in
        let after = saying (model router.new) said.new.items in
        OnOk result (after ≡ switch_below before.router.links.n before) }
    ensures memory { let before = saying (model router.old) said.old.items in
        let after = saying (model router.new) said.new.items in
        OnErr result ((k : ℕ) × (after ≡ switch_below k before)) }
    ensures settled { OnOk result (IsSettled (model router.new)) }
{
    for destination in NodeId::all(router.nodes()) {
        router.switch(destination, said)?;
    }
    Ok(())
}

/// Puts messages behind what is written already, each after the neighbour that it goes to.
fn write_said(said: &[Sent], out: &mut Vec<u8>) -> Result<(), AllocError>
    ensures ok { OnOk result (out.new.items ≡ out.old.items ++ flat_map sent_bytes said.now) }
    ensures err { OnErr result (out.new.items ≡ out.old.items) }
{
    let before = out.len();
    let written = write_each(said, out);
    if written.is_err() {
        out.truncate(before);
    }
    written
}

/// Where memory is wanting, some of them may stand there.
fn write_each(said: &[Sent], out: &mut Vec<u8>) -> Result<(), AllocError>
    ensures ok { OnOk result (out.new.items ≡ out.old.items ++ flat_map sent_bytes said.now) }
    ensures err { OnErr result ((some : List ℕ) × (out.new.items ≡ out.old.items ++ some)) }
{
    for sent in said {
        emit_message_to(sent.to, &sent.message, out)?;
    }
    Ok(())
}
