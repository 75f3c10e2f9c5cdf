//! The words of a line.
ghost use Rattle.std.specs.Prelude.{◌≡◌, ◌<◌, not, ℕ, List, [], ◌∷◌, length, position, IfSome, MatchOption, MatchResult};
ghost use Rattle.pl_model.specs.Words.{is_blank, words, without_return};
ghost use Rattle.pl_words.specs.Parsed.{GivesAs, only};
ghost use Rattle.pl_words.specs.declared.fault.LineFault.TheVariants.{Bad};

use crate::fault::LineFault;
use crate::search::{first_blank, is_blank};

fn first_nonblank(line: &[u8]) -> Option<usize>
    ensures place { result ≡ position (λ c. not (is_blank c)) line.now }
    ensures within { IfSome result (λ i. i < length line.now) }
{
    line.iter().position(|c| !is_blank(*c))
}

/// The first word and what stands behind it; `None` exactly where there is no word.
#[tactic(auto, using(crate::proofs::WordLemmas::no_word, crate::proofs::WordLemmas::word_then_blank, crate::proofs::WordLemmas::last_word))]
pub fn next_word(line: &[u8]) -> Option<(&[u8], &[u8])>
    ensures { MatchOption result (words line.now ≡ []) (λ p. words line.now ≡ p.0.now ∷ words p.1.now) }
{
    let start = first_nonblank(line)?;
    let rest = line.split_at(start).1;
    match first_blank(rest) {
        Some(end) => Some(rest.split_at(end)),
        None => Some((rest, &[])),
    }
}

/// The next word, which has to be there, and what stands behind it.
///
/// # Errors
///
/// `Bad` exactly where there is no word.
pub fn word(rest: &[u8]) -> Result<(&[u8], &[u8]), LineFault>
    ensures { MatchResult result (λ p. words rest.now ≡ p.0.now ∷ words p.1.now)
        (λ e. (e ≡ Bad) × (words rest.now ≡ [])) }
{
    next_word(rest).ok_or(LineFault::Bad)
}

/// That no word is left.
///
/// # Errors
///
/// `Bad` exactly where there is a word.
pub fn end(rest: &[u8]) -> Result<(), LineFault>
    ensures { MatchResult result (λ _. words rest.now ≡ [])
        (λ e. (e ≡ Bad) × (w : List ℕ) × (ws : List (List ℕ)) × (words rest.now ≡ w ∷ ws)) }
{
    match next_word(rest) {
        Some(_) => Err(LineFault::Bad),
        None => Ok(()),
    }
}

/// The word that stands alone.
///
/// # Errors
///
/// `Bad` exactly where there is no word, or more than one.
pub fn only_word(rest: &[u8]) -> Result<&[u8], LineFault>
    ensures { GivesAs (λ w. w.now) result (only (words rest.now)) }
{
    let (only, rest) = word(rest)?;
    end(rest)?;
    Ok(only)
}

/// The line without the carriage return that ends it, if one does.
#[tactic(auto, unfolding(pl_model::specs::Words::without_return))]
pub fn without_return(line: &[u8]) -> &[u8]
    ensures { result.now ≡ without_return line.now }
{
    if !line.is_empty() && line[line.len() - 1] == b'\r' {
        &line[..line.len() - 1]
    } else {
        line
    }
}
