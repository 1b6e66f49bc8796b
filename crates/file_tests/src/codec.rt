//! Spellings and traces of `trace_codec`: worked examples by all its calls, and a loop over pieces.
ghost use Rattle.std.specs.Prelude.{◌≡◌, ◌+◌, ◌<◌, ◌≤◌, ◌^◌, ◌++◌, ℕ, List, OnOk, IfErr, length};
ghost use Rattle.trace_codec.specs.Decoder.{HasTaken};
ghost use Rattle.trace_codec.specs.Whole.{Decodes};

use nano_spec::{Command, CommandList};
use std::alloc::Global;
use std::mem::size_of;
use std::process::Abort;
use trace_codec::{
    Decoder, Fed, One, TraceFault, TraceRefusal, decode_all, decode_one, encode_all, encode_one,
    pieces_decode,
};
use vox_geom::{Diff, Far, Long, Near, Short};

fn near(rt: &impl Abort, dx: i16, dy: i16, dz: i16) -> Near {
    Near::of(Diff { dx, dy, dz }).expect(rt, "near")
}

fn far(rt: &impl Abort, dx: i16, dy: i16, dz: i16) -> Far {
    Far::of(Diff { dx, dy, dz }).expect(rt, "far")
}

fn short(rt: &impl Abort, dx: i16, dy: i16, dz: i16) -> Short {
    Short::of(Diff { dx, dy, dz }).expect(rt, "short")
}

fn long(rt: &impl Abort, dx: i16, dy: i16, dz: i16) -> Long {
    Long::of(Diff { dx, dy, dz }).expect(rt, "long")
}

/// Asserts that the bytes spell the command, and no proper prefix of them does.
fn both_ways(rt: &impl Abort, command: Command, bytes: &[u8]) {
    let encoded = encode_one(command);
    assert_eq!(rt; encoded.as_slice(), bytes, "{command:?}");
    let len = encoded.len() as u8;
    assert_eq!(rt; decode_one(bytes), One::Got { command, len }, "{bytes:?}");
    for cut in 0..bytes.len() {
        assert_eq!(rt; decode_one(&bytes[..cut]), One::More, "{cut} of {bytes:?}");
    }
}

#[test]
fn sizes_are_few_bytes(rt: HostRuntime) {
    let kinds = [
        size_of::<Near>(),
        size_of::<Far>(),
        size_of::<Short>(),
        size_of::<Long>(),
    ];
    assert_eq!(rt; kinds, [3; 4]);
    assert!(rt; size_of::<Command>() <= 8);
}

#[test]
fn a_command_at_the_front_is_taken_whole(rt: HostRuntime) {
    let mut decoder = Decoder::new();
    let command = Command::SMove(long(&rt, 12, 0, 0));
    let front = decoder.take_front(0x14, &[0x14, 0x1B, 0xFF]);
    assert_eq!(rt; front, One::Got { command, len: 2 });
    assert_eq!(rt; decoder.offset(), 2);
}

#[test]
fn a_command_that_is_cut_is_not_taken(rt: HostRuntime) {
    let mut decoder = Decoder::new();
    assert_eq!(rt; decoder.take_front(0x14, &[0x14]), One::More);
    assert_eq!(rt; decoder.offset(), 0);
}

#[test]
fn spellings_both_ways(rt: HostRuntime) {
    both_ways(&rt, Command::Halt, &[0xFF]);
    both_ways(&rt, Command::Wait, &[0xFE]);
    both_ways(&rt, Command::Flip, &[0xFD]);
    both_ways(&rt, Command::SMove(long(&rt, 12, 0, 0)), &[0x14, 0x1B]);
    both_ways(&rt, Command::SMove(long(&rt, 0, 0, -4)), &[0x34, 0x0B]);
    let lmove = Command::LMove(short(&rt, 3, 0, 0), short(&rt, 0, -5, 0));
    both_ways(&rt, lmove, &[0x9C, 0x08]);
    let lmove = Command::LMove(short(&rt, 0, -2, 0), short(&rt, 0, 0, 2));
    both_ways(&rt, lmove, &[0xEC, 0x73]);
    both_ways(&rt, Command::FusionP(near(&rt, -1, 1, 0)), &[0x3F]);
    both_ways(&rt, Command::FusionS(near(&rt, 1, -1, 0)), &[0x9E]);
    both_ways(&rt, Command::Fission(near(&rt, 0, 0, 1), 5), &[0x75, 0x05]);
    both_ways(&rt, Command::Fill(near(&rt, 0, -1, 0)), &[0x53]);
    both_ways(&rt, Command::Void(near(&rt, 1, 0, 1)), &[0xBA]);
    let gfill = Command::GFill(near(&rt, 0, -1, 0), far(&rt, 10, -15, 20));
    both_ways(&rt, gfill, &[0x51, 0x28, 0x0F, 0x32]);
    let gvoid = Command::GVoid(near(&rt, 1, 0, 0), far(&rt, 5, 5, -5));
    both_ways(&rt, gvoid, &[0xB0, 0x23, 0x23, 0x19]);
}

/// Returns the commands of a trace, or the reason why there are none, by all decoders.
fn decoded(rt: &(impl Abort + AllocGlobal), trace: &[u8]) -> Result<CommandList, TraceFault> {
    let whole = decode_all(rt.alloc(), trace);
    same(rt, &whole, &decode_in_pieces(rt.alloc(), trace, 1));
    same(rt, &whole, &decode_in_pieces(rt.alloc(), trace, 65_536));
    whole
}

fn same(rt: &impl Abort, a: &Result<CommandList, TraceFault>, b: &Result<CommandList, TraceFault>) {
    match (a, b) {
        (Ok(a), Ok(b)) => assert_eq!(rt; a.as_slice(), b.as_slice()),
        (Err(a), Err(b)) => assert_eq!(rt; *a, *b),
        _ => panic!(rt; "only one was decoded"),
    }
}

/// Asserts that all decoders return these commands for the trace, and that they encode to it.
fn assert_trace(rt: &(impl Abort + AllocGlobal), trace: &[u8], commands: &[Command]) {
    match decoded(rt, trace) {
        Ok(list) => assert_eq!(rt; list.as_slice(), commands),
        Err(_) => panic!(rt; "the trace is refused"),
    }
    match encode_all(rt.alloc(), commands) {
        Ok(bytes) => assert_eq!(rt; bytes.as_slice(), trace),
        Err(_) => panic!(rt; "no memory"),
    }
}

/// Asserts that the trace is refused for this reason.
fn refused(rt: &(impl Abort + AllocGlobal), trace: &[u8], refusal: TraceRefusal) {
    match decoded(rt, trace) {
        Ok(_) => panic!(rt; "the trace is decoded"),
        Err(fault) => assert_eq!(rt; fault, TraceFault::Refused(refusal)),
    }
}

#[test]
fn traces_in_any_pieces(rt: HostRuntime) {
    let trace = [
        0x75, 0x00, 0xFE, 0x34, 0x11, 0xB9, 0x1E, 0x1E, 0x20, 0xB1, 0x1E, 0x1E, 0x1C, 0xFE, 0x34,
        0x0D, 0x77, 0x66, 0xFF,
    ];
    let commands = [
        Command::Fission(near(&rt, 0, 0, 1), 0),
        Command::Wait,
        Command::SMove(long(&rt, 0, 0, 2)),
        Command::GFill(near(&rt, 1, 0, 1), far(&rt, 0, 0, 2)),
        Command::GFill(near(&rt, 1, 0, 0), far(&rt, 0, 0, -2)),
        Command::Wait,
        Command::SMove(long(&rt, 0, 0, -2)),
        Command::FusionP(near(&rt, 0, 0, 1)),
        Command::FusionS(near(&rt, 0, 0, -1)),
        Command::Halt,
    ];
    assert_trace(&rt, &trace, &commands);
}

#[test]
fn bytes_that_are_no_trace(rt: HostRuntime) {
    refused(&rt, &[0x04], TraceRefusal::Bad { offset: 0 });
    refused(&rt, &[0x03], TraceRefusal::Bad { offset: 0 });
    refused(&rt, &[0x14], TraceRefusal::Cut { offset: 0 });
    refused(&rt, &[0x77, 0x04], TraceRefusal::Bad { offset: 1 });
}

/// Takes a piece to its end, and appends its commands to the list.
fn take_piece(
    decoder: &mut Decoder,
    commands: &mut CommandList,
    piece: &[u8],
) -> Result<(), TraceFault>
    requires { decoder.old.offset + length decoder.old.held + length piece.now < 2 ^ 63 }
    ensures ok { (bytes : List ℕ) → HasTaken bytes commands.old decoder.old →
        OnOk result (HasTaken (bytes ++ piece.now) commands.new decoder.new) }
    ensures err { (bytes more : List ℕ) → HasTaken bytes commands.old decoder.old →
        IfErr result (λ fault. Decodes ((bytes ++ piece.now) ++ more) (Err fault)) }
    ensures count { OnOk result (decoder.new.offset + length decoder.new.held
        ≡ decoder.old.offset + length decoder.old.held + length piece.now) }
{
    pieces_decode();
    let mut rest = piece;
    loop {
        match decoder.feed(rest) {
            Fed::Got { command, used } => {
                commands.push(command)?;
                rest = &rest[used..];
            }
            Fed::All => return Ok(()),
            Fed::Bad { offset } => return Err(TraceFault::Refused(TraceRefusal::Bad { offset })),
        }
    }
}

/// Returns the commands of a trace in pieces of this many bytes, whatever their number.
fn decode_in_pieces(alloc: Global, trace: &[u8], size: usize) -> Result<CommandList, TraceFault>
    requires { 1 ≤ size }
    ensures { Decodes trace.now result }
{
    pieces_decode();
    let mut decoder = Decoder::new();
    let mut commands = CommandList::new(alloc);
    let mut start = 0;
    while start < trace.len() {
        let end = start + size.min(trace.len() - start);
        take_piece(&mut decoder, &mut commands, &trace[start..end])?;
        start = end;
    }
    decoder.end()?;
    Ok(commands)
}
