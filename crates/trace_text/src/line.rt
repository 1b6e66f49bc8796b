//! Reading a line.
ghost use Rattle.std.specs.Prelude.{◌≡◌, ◌∷◌, ◌++◌, []};
ghost use Rattle.vox_geom.specs.Difference.{is_far, is_long, is_near, is_short};
ghost use Rattle.nano_spec.specs.Line.{line_content as content_of, line_of, said, without_return as without_return_of};
ghost use Rattle.nano_spec.specs.LineForm.{Blanks, Number, difference_parts, readings};
ghost use Rattle.trace_text.specs.Forms.{StandsAlone, IsKind, IsNumber, IsOne, IsTwo, said_is};
ghost use Rattle.trace_text.specs.Text.{fission_word, line_is, word_is};

use crate::fault::Fault;
use crate::parts::{Rest, find_byte};
use crate::word::Word;
use nano_spec::Command;
use vox_geom::{Diff, Far, Long, Near, Short};

/// The meaning of a line: nothing, a command, or a fault.
pub(crate) enum Line {
    Skipped,
    Says(Command),
    Faulty(Fault),
}

/// Returns the meaning of the line, which has no line feed.
pub(crate) fn read_line(line: &[u8]) -> Line
    ensures { line_is result ≡ line_of line.now }
{
    if !line.is_ascii() {
        return Line::Faulty(Fault::NotAscii);
    }
    let mut rest = Rest {
        bytes: content(line),
    };
    rest.skip_blanks();
    if rest.bytes.is_empty() {
        return Line::Skipped;
    }
    match Word::of(rest.letters()) {
        Some(word) => match command(word, &mut rest) {
            Ok(command) => Line::Says(command),
            Err(fault) => Line::Faulty(fault),
        },
        None => Line::Faulty(Fault::UnknownWord),
    }
}

/// Returns the line without a carriage return at its end and without its comment.
fn content(line: &[u8]) -> &[u8]
    ensures { result.now ≡ content_of line.now }
{
    let line = without_return(line);
    let (content, _) = line.split_at(find_byte(b'#', line));
    content
}

/// Returns the line without a carriage return at its end.
#[tactic(auto, using(crate::proofs::Returns::cut_return, crate::proofs::Returns::no_return))]
fn without_return(line: &[u8]) -> &[u8]
    ensures { result.now ≡ without_return_of line.now }
{
    let Some((last, front)) = line.split_last() else {
        return line;
    };
    if *last == b'\r' { front } else { line }
}

/// Returns the command of a word and the rest of its line.
fn command(word: Word, rest: &mut Rest) -> Result<Command, Fault>
    ensures { said_is result ≡ said (word_is word) (readings (word_is word).form rest.old.bytes.now) }
{
    match word {
        Word::Halt => alone(Command::Halt, rest),
        Word::Wait => alone(Command::Wait, rest),
        Word::Flip => alone(Command::Flip, rest),
        Word::SMove => Ok(Command::SMove(long(one(rest)?)?)),
        Word::LMove => {
            let (first, second) = two(rest)?;
            Ok(Command::LMove(short(first)?, short(second)?))
        }
        Word::FusionP => Ok(Command::FusionP(near(one(rest)?)?)),
        Word::FusionS => Ok(Command::FusionS(near(one(rest)?)?)),
        Word::Fission => fission(rest),
        Word::Fill => Ok(Command::Fill(near(one(rest)?)?)),
        Word::Void => Ok(Command::Void(near(one(rest)?)?)),
        Word::GFill => {
            let (corner, across) = two(rest)?;
            Ok(Command::GFill(near(corner)?, far(across)?))
        }
        Word::GVoid => {
            let (corner, across) = two(rest)?;
            Ok(Command::GVoid(near(corner)?, far(across)?))
        }
    }
}

/// Returns a command without a difference, if nothing follows it.
fn alone(command: Command, rest: &mut Rest) -> Result<Command, Fault>
    ensures { StandsAlone (readings (Blanks ∷ []) rest.old.bytes.now) command result }
{
    if rest.ends() {
        Ok(command)
    } else {
        Err(Fault::Shape)
    }
}

/// Returns the one difference after a word.
fn one(rest: &mut Rest) -> Result<Diff, Fault>
    ensures { IsOne (readings (difference_parts ++ Blanks ∷ []) rest.old.bytes.now) result }
{
    let Some(difference) = rest.difference() else {
        return Err(Fault::Shape);
    };
    if rest.ends() {
        Ok(difference)
    } else {
        Err(Fault::Shape)
    }
}

/// Returns the two differences after a word.
fn two(rest: &mut Rest) -> Result<(Diff, Diff), Fault>
    ensures { IsTwo (readings (difference_parts ++ difference_parts ++ Blanks ∷ []) rest.old.bytes.now) result }
{
    let Some(first) = rest.difference() else {
        return Err(Fault::Shape);
    };
    let second = one(rest)?;
    Ok((first, second))
}

/// Returns the command of the word Fission and the rest of its line.
fn fission(rest: &mut Rest) -> Result<Command, Fault>
    ensures { said_is result ≡ said fission_word (readings fission_word.form rest.old.bytes.now) }
{
    let Some(difference) = rest.difference() else {
        return Err(Fault::Shape);
    };
    let number = last_number(rest)?;
    let near = near(difference)?;
    if number < 0 {
        return Err(Fault::Range);
    }
    if number > 255 {
        return Err(Fault::Range);
    }
    Ok(Command::Fission(near, number as u8))
}

/// Returns the number at the end of a line.
fn last_number(rest: &mut Rest) -> Result<i16, Fault>
    ensures { IsNumber (readings (Blanks ∷ Number ∷ Blanks ∷ []) rest.old.bytes.now) result }
{
    rest.skip_blanks();
    let Some(number) = rest.number() else {
        return Err(Fault::Shape);
    };
    if rest.ends() {
        Ok(number)
    } else {
        Err(Fault::Shape)
    }
}

/// Returns the difference as a near one.
fn near(difference: Diff) -> Result<Near, Fault>
    ensures { IsKind (is_near difference) difference result }
{
    Near::of(difference).ok_or(Fault::Range)
}

/// Returns the difference as a far one.
fn far(difference: Diff) -> Result<Far, Fault>
    ensures { IsKind (is_far difference) difference result }
{
    Far::of(difference).ok_or(Fault::Range)
}

/// Returns the difference as a short one.
fn short(difference: Diff) -> Result<Short, Fault>
    ensures { IsKind (is_short difference) difference result }
{
    Short::of(difference).ok_or(Fault::Range)
}

/// Returns the difference as a long one.
fn long(difference: Diff) -> Result<Long, Fault>
    ensures { IsKind (is_long difference) difference result }
{
    Long::of(difference).ok_or(Fault::Range)
}
