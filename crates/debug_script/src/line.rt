//! Reading a line of a script.
ghost use Rattle.std.specs.Prelude.{◌≡◌, ◌==◌, ◌∷◌, ◌<◌, ◌≤◌, ℕ, List, [], MatchOption, codes, decimal, length};
ghost use Rattle.debug_script.specs.Calls.{IsReadBy, script_letters};
ghost use Rattle.debug_script.specs.Script.{HasFewDigits, LineSays, PartsSay, line_parts};

use crate::word::ScriptWord;
use itoa::Buffer;
use trace_text::{TextRefusal, find_byte};
use vox_geom::Coord;

/// A line of a script.
#[derive(Clone, Copy, PartialEq, Eq, Debug)]
pub enum ScriptLine {
    /// Makes the next step.
    Step,
    /// Begins the group whose leader has this bid.
    Group { leader: u8 },
    /// Drops all begun groups. If none is begun, undoes the last step.
    Back,
    /// Prints the active bots.
    Bots,
    /// Prints a voxel and its level.
    Voxel { at: Coord },
}

/// Returns the bytes before the first space, and the bytes after it if there is a space.
#[tactic(auto, using(crate::proofs::Parts::one_part, crate::proofs::Parts::first_part))]
fn cut_part(line: &[u8]) -> (&[u8], Option<&[u8]>)
    ensures { MatchOption result.1 (line_parts line.now ≡ result.0.now ∷ [])
        (λ rest. line_parts line.now ≡ result.0.now ∷ line_parts rest.now) }
{
    let end = find_byte(b' ', line);
    if end == line.len() {
        return (line, None);
    }
    (&line[..end], Some(&line[end + 1..]))
}

/// Parses a number of at most five decimal digits, without sign or leading zeros. Returns `None` for any other text.
fn number(part: &[u8]) -> Option<u32>
    ensures { MatchOption result ((n : ℕ) → HasFewDigits n → part.now ≡ decimal n → ⊥)
        (λ n. HasFewDigits n × (part.now ≡ decimal n)) }
{
    let Ok(text) = str::from_utf8(part) else {
        return None;
    };
    let Ok(number) = text.parse::<u32>() else {
        return None;
    };
    if number > 99_999 {
        return None;
    }
    let mut buffer = Buffer::new();
    if buffer.format(number) != text {
        return None;
    }
    Some(number)
}

/// Returns the line that is this word alone, or an error if the word needs arguments.
fn read_word(word: ScriptWord, number: u32) -> Result<ScriptLine, TextRefusal>
    ensures { (r : ℕ) → IsReadBy (PartsSay r (script_letters word ∷ [])) number result }
{
    match word {
        ScriptWord::Step => Ok(ScriptLine::Step),
        ScriptWord::Back => Ok(ScriptLine::Back),
        ScriptWord::Bots => Ok(ScriptLine::Bots),
        ScriptWord::Group => Err(TextRefusal::Shape { line: number }),
        ScriptWord::Voxel => Err(TextRefusal::Shape { line: number }),
    }
}

/// Returns the number if the rest of a line is exactly one number.
fn one_number(rest: &[u8]) -> Option<u32>
    ensures { MatchOption result ((n : ℕ) → HasFewDigits n → line_parts rest.now ≡ decimal n ∷ [] → ⊥)
        (λ n. HasFewDigits n × (line_parts rest.now ≡ decimal n ∷ [])) }
{
    let (part, more) = cut_part(rest);
    match more {
        None => number(part),
        Some(_) => None,
    }
}

/// Returns the number before the first space, and the bytes after it; `None` if there is no such number or no space.
fn first_number(rest: &[u8]) -> Option<(u32, &[u8])>
    ensures { MatchOption result
        ((n : ℕ) (next : List ℕ) (more : List (List ℕ)) → HasFewDigits n
        → line_parts rest.now ≡ decimal n ∷ next ∷ more → ⊥)
        (λ first. HasFewDigits first.0 × (line_parts rest.now ≡ decimal first.0 ∷ line_parts first.1.now)) }
{
    let (part, more) = cut_part(rest);
    let more = more?;
    let number = number(part)?;
    Some((number, more))
}

/// Parses what follows the word `group`: a bid from 1 to 40.
fn read_group(rest: &[u8], number: u32) -> Result<ScriptLine, TextRefusal>
    ensures { (r : ℕ) → IsReadBy (PartsSay r (codes "group" ∷ line_parts rest.now)) number result }
{
    let Some(leader) = one_number(rest) else {
        return Err(TextRefusal::Shape { line: number });
    };
    if leader < 1 {
        return Err(TextRefusal::Range { line: number });
    }
    if leader > 40 {
        return Err(TextRefusal::Range { line: number });
    }
    Ok(ScriptLine::Group {
        leader: leader as u8,
    })
}

/// Returns the numbers if the rest of a line is exactly three numbers.
fn three_numbers(rest: &[u8]) -> Option<(u32, u32, u32)>
    ensures { MatchOption result
        ((x y z : ℕ) → HasFewDigits x → HasFewDigits y → HasFewDigits z
        → line_parts rest.now ≡ decimal x ∷ decimal y ∷ decimal z ∷ [] → ⊥)
        (λ n. HasFewDigits n.0 × HasFewDigits n.1 × HasFewDigits n.2 ×
        (line_parts rest.now ≡ decimal n.0 ∷ decimal n.1 ∷ decimal n.2 ∷ [])) }
{
    let (x, rest) = first_number(rest)?;
    let (y, rest) = first_number(rest)?;
    let z = one_number(rest)?;
    Some((x, y, z))
}

/// Parses what follows the word `voxel`: a coordinate in a matrix of this resolution.
fn read_voxel(rest: &[u8], number: u32, resolution: u16) -> Result<ScriptLine, TextRefusal>
    ensures { IsReadBy (PartsSay resolution (codes "voxel" ∷ line_parts rest.now)) number result }
{
    let Some((x, y, z)) = three_numbers(rest) else {
        return Err(TextRefusal::Shape { line: number });
    };
    let most = u32::from(resolution);
    if x >= most {
        return Err(TextRefusal::Range { line: number });
    }
    if y >= most {
        return Err(TextRefusal::Range { line: number });
    }
    if z >= most {
        return Err(TextRefusal::Range { line: number });
    }
    let at = Coord {
        x: x as u16,
        y: y as u16,
        z: z as u16,
    };
    Ok(ScriptLine::Voxel { at })
}

/// Parses the arguments of a word, or returns an error if the word takes none.
fn read_numbers(
    word: ScriptWord,
    rest: &[u8],
    number: u32,
    resolution: u16,
) -> Result<ScriptLine, TextRefusal>
    ensures { IsReadBy (PartsSay resolution (script_letters word ∷ line_parts rest.now)) number result }
{
    match word {
        ScriptWord::Group => read_group(rest, number),
        ScriptWord::Voxel => read_voxel(rest, number, resolution),
        ScriptWord::Step => Err(TextRefusal::Shape { line: number }),
        ScriptWord::Back => Err(TextRefusal::Shape { line: number }),
        ScriptWord::Bots => Err(TextRefusal::Shape { line: number }),
    }
}

/// Parses a line as a word and its arguments. `number` is the line's number, for errors.
fn read_parts(line: &[u8], number: u32, resolution: u16) -> Result<ScriptLine, TextRefusal>
    ensures { IsReadBy (PartsSay resolution (line_parts line.now)) number result }
{
    let (first, rest) = cut_part(line);
    let Some(word) = ScriptWord::of(first) else {
        return Err(TextRefusal::UnknownWord { line: number });
    };
    match rest {
        None => read_word(word, number),
        Some(rest) => read_numbers(word, rest, number, resolution),
    }
}

/// Parses a line without its line feed, or returns the line's first fault with its number.
pub(crate) fn read_line(
    line: &[u8],
    number: u32,
    resolution: u16,
) -> Result<ScriptLine, TextRefusal>
    ensures { IsReadBy (LineSays resolution line.now) number result }
{
    if !line.is_ascii() {
        return Err(TextRefusal::NotAscii { line: number });
    }
    read_parts(line, number, resolution)
}
