//! Texts of traces that `trace_text` reads, prints and refuses.
use std::test::Fail;
use trace_text::{TextFault, TextRefusal, print_trace, read_text};

/// Hand-written texts, and their printed form once they are read.
const TEXTS: [(&[u8], &[u8]); 5] = [
    (b"", b""),
    (b"\n# nothing\r\n \t\n", b""),
    (
        b"# to the voxel\r\n\n\tSMove  < 1 ,0,\t000>\r\nFill<-0,0,001> # filled\r\n \t \nSMove <-1,0,0>\r\nHalt",
        b"SMove <1,0,0>\nFill <0,0,1>\nSMove <-1,0,0>\nHalt\n",
    ),
    (b"Fission<0,0,1>5#\n", b"Fission <0,0,1> 5\n"),
    (
        b"Wait\nFlip\nLMove <0,-5,0> <0,0,4>\nFusionP <-1,0,0>\nFusionS <1,0,0>\nFission <0,1,1> 255\nVoid <0,0,-1>\nGFill <0,-1,0> <30,0,-30>\nGVoid <0,1,0> <-9,10,0>\n",
        b"Wait\nFlip\nLMove <0,-5,0> <0,0,4>\nFusionP <-1,0,0>\nFusionS <1,0,0>\nFission <0,1,1> 255\nVoid <0,0,-1>\nGFill <0,-1,0> <30,0,-30>\nGVoid <0,1,0> <-9,10,0>\n",
    ),
];

#[test]
fn texts_that_are_read(rt: HostRuntime) -> Result<(), Fail> {
    let alloc = rt.alloc();
    for (text, printed) in &TEXTS {
        let Ok(commands) = read_text(alloc, text) else {
            return Err(Fail::from("a text was refused"));
        };
        let again = print_trace(alloc, commands.as_slice())?;
        assert_eq!(&rt; again.as_slice(), *printed);
    }
    Ok(())
}

/// The first faulty line of a text, and the number of the refusal.
const FAULTS: [(&[u8], TextRefusal, u8); 8] = [
    (b"Jump", TextRefusal::UnknownWord { line: 1 }, 2),
    (b"\n<1,0,0>", TextRefusal::UnknownWord { line: 2 }, 2),
    (b"Fill <0,0>", TextRefusal::Shape { line: 1 }, 3),
    (b"SMove <0001,0,0>", TextRefusal::Shape { line: 1 }, 3),
    (b"Fill\r <0,0,1>", TextRefusal::Shape { line: 1 }, 3),
    (b"Fill <1,1,1> 1", TextRefusal::Shape { line: 1 }, 3),
    (b"Fission <0,0,1> 256", TextRefusal::Range { line: 1 }, 4),
    (b"Wait\n#\xC3", TextRefusal::NotAscii { line: 2 }, 1),
];

#[test]
fn texts_that_are_refused(rt: HostRuntime) -> Result<(), Fail> {
    for (text, refusal, number) in &FAULTS {
        let fault = read_text(rt.alloc(), text).err();
        assert_eq!(&rt; fault, Some(TextFault::Refused(*refusal)));
        assert_eq!(&rt; refusal.number(), *number);
    }
    Ok(())
}
