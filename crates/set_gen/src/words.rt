//! The words of a number.
ghost use Rattle.std.specs.Prelude.{◌≡◌};
ghost use Rattle.set_gen.specs.Words as spec;

use rand_core::utils::NextWord;
use rand_pcg::Lcg64Xsh32;

/// The words of this number, before any is taken.
pub fn words_of(number: u64) -> Lcg64Xsh32
    ensures { result ≡ spec.words_of number }
{
    Lcg64Xsh32::new(number, 54)
}

// Takes the next word.
#[tactic(auto, unfolding(crate::specs::Words::word, crate::specs::Words::rest))]
pub fn take(words: &mut Lcg64Xsh32) -> u32
    ensures word { result ≡ spec.word words.old }
    ensures rest { words.new ≡ spec.rest words.old }
{
    words.next_word()
}
