// The nearest of some names.
ghost use Rattle.std.specs.Prelude.{◌≡◌, ◌++◌, ◌∷◌, [], ℕ, List, IfOk, map, option_map, take};
ghost use Rattle.std.specs.Option.{option_copied};
ghost use Rattle.near_names.specs.Nearest as meaning;

use object_values::Memory;
use std::alloc::Global;
use strsim::osa_distance;

/// How many bytes a word or a name has at most that gets a hint: the distance of two texts takes as many steps as the product of their lengths.
const LONGEST: usize = 255;

/// How many names are looked at.
const MOST: usize = 1_000;

/// How many edits lead from a word to a name.
fn distance(alloc: Global, word: &str, name: &str) -> Result<usize, Memory>
    ensures { IfOk result (λ count. count ≡ meaning.distance word.now name.now) }
{
    Ok(osa_distance(alloc, word, name)?)
}

/// How far a name is from a word, where it is near.
fn reach(alloc: Global, word: &str, name: &str) -> Result<Option<usize>, Memory>
    ensures { IfOk result (λ away. away ≡ meaning.reach word.now name.now) }
{
    if word.len() > LONGEST || name.len() > LONGEST {
        return Ok(None);
    }
    let away = distance(alloc, word, name)?;
    if away <= word.len() / 3 {
        Ok(Some(away))
    } else {
        Ok(None)
    }
}

/// A name with its distance.
#[derive(Clone, Copy)]
struct Near<'a> {
    name: &'a str,
    away: usize,
}

/// Whether it is nearer than what was found so far.
fn is_nearer(away: usize, best: Option<Near<'_>>) -> bool
    ensures { result ≡ meaning.is_nearer away
        (option_map (λ near. (near.name.now, near.away)) best.entry) }
{
    match best {
        Some(near) => away < near.away,
        None => true,
    }
}

/// What is found so far, with one more name.
fn nearer_of<'a>(
    alloc: Global,
    word: &str,
    best: Option<Near<'a>>,
    name: &'a str,
) -> Result<Option<Near<'a>>, Memory>
    ensures { IfOk result (λ found. (seen : List (List ℕ)) →
        meaning.IsSoFar word.now seen (option_map (λ near. (near.name.now, near.away)) best.entry)
        → meaning.IsSoFar word.now (seen ++ name.now ∷ [])
        (option_map (λ near. (near.name.now, near.away)) found)) }
{
    let Some(away) = reach(alloc, word, name)? else {
        return Ok(best);
    };
    if is_nearer(away, best) {
        Ok(Some(Near { name, away }))
    } else {
        Ok(best)
    }
}

/// The nearest to a word of some names, and the first of several that are equally near.
fn nearest_of<'a>(alloc: Global, word: &str, names: &[&'a str]) -> Result<Option<&'a str>, Memory>
    ensures { IfOk result (λ found. meaning.IsAnswerAmong word.now
        (map (λ name. name.now) names.now) (option_copied found)) }
{
    let mut best: Option<Near<'a>> = None;
    for name in names {
        best = nearer_of(alloc, word, best, name)?;
    }
    Ok(best.map(|near| near.name))
}

/// The names that are looked at.
fn first_names<'a, 'b>(names: &'b [&'a str]) -> &'b [&'a str]
    ensures { map (λ name. name.now) result.now ≡ take 1000 (map (λ name. name.now) names.now) }
{
    if names.len() <= MOST {
        return names;
    }
    &names[..MOST]
}

/// The nearest to a word of the first 1,000 names, and the first of several that are equally near. `None` is said where none is near.
pub fn nearest<'a>(alloc: Global, word: &str, names: &[&'a str]) -> Result<Option<&'a str>, Memory>
    ensures { IfOk result (λ found. meaning.IsAnswer word.now
        (map (λ name. name.now) names.now) (option_copied found)) }
{
    nearest_of(alloc, word, first_names(names))
}
