//! Valid and refused scripts of `debug_script`.
use debug_script::{ScriptLine, read_script};
use std::process::Abort;
use std::test::Fail;
use trace_text::{TextFault, TextRefusal};
use vox_geom::Coord;

/// Texts that are no scripts at resolution 5.
const REFUSED: [(&[u8], TextRefusal); 6] = [
    (b"step\n\xC3", TextRefusal::NotAscii { line: 2 }),
    (b"step\n\nstep", TextRefusal::UnknownWord { line: 2 }),
    (b"back\nstep back", TextRefusal::Shape { line: 2 }),
    (b"group 00001", TextRefusal::Shape { line: 1 }),
    (b"voxel 0 0 5", TextRefusal::Range { line: 1 }),
    (b"group 0", TextRefusal::Range { line: 1 }),
];

#[test]
fn lines_that_are_read(rt: HostRuntime) -> Result<(), Fail> {
    let bytes = b"step\ngroup 40\nback\nbots\nvoxel 1 0 4\n";
    let at = Coord { x: 1, y: 0, z: 4 };
    let lines = [
        ScriptLine::Step,
        ScriptLine::Group { leader: 40 },
        ScriptLine::Back,
        ScriptLine::Bots,
        ScriptLine::Voxel { at },
    ];
    let answer = read_script(rt.alloc(), bytes, 5);
    assert!(rt; answer.is_ok_and(|script| script.as_slice() == lines.as_slice()));
    Ok(())
}

#[test]
fn lines_that_are_refused(rt: HostRuntime) -> Result<(), Fail> {
    for (bytes, refusal) in &REFUSED {
        assert!(rt; bytes.len() < 100);
        let answer = read_script(rt.alloc(), bytes, 5);
        assert!(rt; answer.is_err_and(|fault| fault == TextFault::Refused(*refusal)));
    }
    Ok(())
}
